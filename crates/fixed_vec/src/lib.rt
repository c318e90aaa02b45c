//! A list in fixed memory: an array with the number of its places that are in use.
#![tactic(auto)]

ghost use Rattle.std.specs.Prelude.{◌≡◌, ◌≤◌, [], ◌∷◌, length, ⊤, MatchResult};

use std::alloc::AllocError;

/// A list takes no more items: too few of its places are free.
#[derive(Clone, Copy, Debug, PartialEq, Eq, Hash)]
pub struct Full;

/// A list of at most `N` items, kept in the value itself.
///
/// A buffer with its length, written once for all: the kit's `ArrayVec` is no `Copy` and asks for a default of its items.
/// It derives no comparison, hash or `Debug`: those would read the places that are not in use. `as_slice` has them.
#[derive(Copy)]
pub struct FixedVec<T, const N: usize> {
    places: [T; N],
    len: usize,
    ghost whole: { length places ≡ N },
    ghost few: { len ≤ N },
}

// By hand, since the derive refuses a struct with a type parameter and ghost fields.
impl<T: Copy, const N: usize> Clone for FixedVec<T, N> {
    ghost is_clone = { λ x y. y ≡ x };

    ghost is_infallible = { λ _. ⊤ };

    fn clone(&self) -> Result<Self, AllocError>
        ensures { MatchResult result (λ v. v ≡ self.now) (λ _. ¬ ⊤) }
    {
        Ok(*self)
    }
}

impl<T: Copy, const N: usize> FixedVec<T, N> {
    ghost use Rattle.fixed_vec.specs.FixedVec.{Extended, items};

    /// No item yet. The filler lies in the places that are not in use, and is never seen.
    pub fn new(filler: T) -> Self
        ensures { items result ≡ [] }
    {
        FixedVec {
            places: [filler; N],
            len: 0,
        }
    }

    /// How many items there are.
    pub fn len(&self) -> usize
        ensures value { result ≡ length (items self.now) }
        ensures few { result ≤ N }
    {
        self.as_slice().len()
    }

    /// The items in their order.
    pub fn as_slice(&self) -> &[T]
        ensures { result.now ≡ items self.now }
    {
        &self.places[..self.len]
    }

    /// Adds an item at the end, or refuses and stays as it is.
    pub fn push(&mut self, item: T) -> Result<(), Full>
        ensures { Extended self.old self.new (item ∷ []) result }
    {
        if self.len == N {
            return Err(Full);
        }
        self.places[self.len] = item;
        self.len += 1;
        Ok(())
    }

    /// Adds items at the end, or refuses and stays as it is.
    pub fn extend_from_slice(&mut self, more: &[T]) -> Result<(), Full>
        ensures { Extended self.old self.new more.now result }
    {
        if more.len() > N - self.len {
            return Err(Full);
        }
        let end = self.len + more.len();
        let places = &mut self.places[..];
        places[self.len..end].copy_from_slice(more);
        self.len = end;
        Ok(())
    }
}
