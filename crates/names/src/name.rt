// A label's name.
ghost use Rattle.std.specs.Prelude.{◌≡◌, ◌<◌, ◌≤◌, true, [], ◌∷◌, length, IsTrue};
ghost use Rattle.fixed_vec.specs.FixedVec.{items};
ghost use Rattle.grammar.specs.Reading.{naming};

use fixed_vec::FixedVec;
use words::{Word, is_letter, past_run, spelling};

// A legal name by value: a run of 1 to 16 letters, digits and underscores that begins with a letter and is not reserved.
// Like the lists below and above it, it derives no comparison and no `Debug`, as `FixedVec` has none.
#[derive(Clone, Copy)]
pub struct Name {
    bytes: FixedVec<u8, 16>,
    ghost legal: { naming (items bytes) ≡ true },
}

// Whether the bytes are a name.
fn is_name(bytes: &[u8]) -> bool
    ensures value { result ≡ naming bytes.now }
    ensures some { IsTrue result → 0 < length bytes.now }
    ensures few { IsTrue result → length bytes.now ≤ 16 }
{
    if bytes.is_empty() || bytes.len() > 16 {
        return false;
    }
    if !is_letter(bytes[0]) {
        return false;
    }
    if past_run(bytes, 1) < bytes.len() {
        return false;
    }
    matches!(spelling(bytes), Word::Name(_))
}

impl Name {
    ghost use Rattle.names.specs.Naming.{Named, bytes_of};

    // The name of these bytes, where they are one. `None` and no error type, which would have nothing to say.
    pub fn new(bytes: &[u8]) -> Option<Name>
        ensures { Named bytes.now result }
    {
        if !is_name(bytes) {
            return None;
        }
        let mut kept = FixedVec::new(0);
        kept.extend_from_slice(bytes).unwrap();
        Some(Name { bytes: kept })
    }

    // Some name, which fills the places past the last of a list.
    pub fn filler() -> Name
        ensures { bytes_of result ≡ 120 ∷ [] }
    {
        let mut bytes = FixedVec::new(b'x');
        bytes.push(b'x').unwrap();
        Name { bytes }
    }

    pub fn bytes(&self) -> &[u8]
        ensures { result.now ≡ bytes_of self.now }
    {
        self.bytes.as_slice()
    }
}
