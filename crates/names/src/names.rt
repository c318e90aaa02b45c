// The name list of a rule.
ghost use Rattle.std.specs.Prelude.{◌≡◌, ◌<◌, true, [], ◌∷◌, ◌++◌, length, position};
ghost use Rattle.fixed_vec.specs.FixedVec.{items};
ghost use Rattle.grammar.specs.Answering.{meant};
ghost use Rattle.grammar.specs.Reading.{absent, wrong_in};
ghost use Rattle.grammar.specs.Words.{same};
ghost use Rattle.names.specs.Naming.{bytes_of, found, is_right, names_in, spellings};

use crate::faults::NamesFault;
use crate::name::Name;
use fixed_vec::FixedVec;
use words::equal;

// The most names of a list.
const MOST_NAMES: usize = 32;

// At most 32 legal names, none twice. Entry i names label i. It compares and shows nothing, as `FixedVec` does not.
#[derive(Clone, Copy)]
pub struct Names {
    entries: FixedVec<Name, 32>,
    ghost fine: { is_right (wrong_in (names_in (items entries))) ≡ true },
}

impl Names {
    ghost use Rattle.names.specs.Lists.{Fresh, Got, Listed, names_of};

    // A list without names.
    pub fn none() -> Names
        ensures { names_of result ≡ [] }
    {
        Names {
            entries: FixedVec::new(Name::filler()),
        }
    }

    // The list of these names, where they are legal, no more than 32 and none twice. A constructor that refuses, and no
    // `TryFrom`: its promise stands beside it.
    pub fn new(names: &[&[u8]]) -> Result<Names, NamesFault>
        ensures { Listed (spellings names.now) result }
    {
        if names.len() > MOST_NAMES {
            return Err(NamesFault::Many);
        }
        let mut list = Names::none();
        // The number is the place of a fault.
        for (i, bytes) in names.iter().enumerate() {
            let Some(name) = list.fresh(bytes) else {
                return Err(NamesFault::Entry(i));
            };
            list.push(name);
        }
        Ok(list)
    }

    // The name of these bytes, where they are one that the list lacks.
    fn fresh(&self, bytes: &[u8]) -> Option<Name>
        ensures { Fresh (names_of self.now) bytes.now result }
    {
        // Both cases give an answer of their own; `is_some` and a second branch would be no plainer.
        match self.find(bytes) {
            Some(_) => None,
            None => Name::new(bytes),
        }
    }

    // Adds a name that the list lacks.
    fn push(&mut self, name: Name)
        requires room { length (names_of self.old) < 32 }
        requires lacks { absent (names_of self.old) (bytes_of name) ≡ true }
        ensures { names_of self.new ≡ names_of self.old ++ bytes_of name ∷ [] }
    {
        self.entries.push(name).unwrap();
    }

    // The name of a label.
    pub fn get(&self, label: u8) -> Option<&[u8]>
        ensures { Got (names_of self.now) label result }
    {
        self.entries
            .as_slice()
            .get(label as usize)
            .map(|name| name.bytes())
    }

    // The label of a name. The list is looked through: a map of 32 names in fixed memory would be no plainer.
    #[tactic(auto, using(crate::proofs::Namings::meant_position))]
    pub fn find(&self, name: &[u8]) -> Option<u8>
        ensures label { meant 0 (names_of self.now) name.now ≡ found result }
    {
        let i = self.entry(name)?;
        Some(i as u8)
    }

    // The entry that has these bytes.
    fn entry(&self, name: &[u8]) -> Option<usize>
        ensures { result ≡ position (λ e. same (bytes_of e) name.now) (items self.now.entries) }
    {
        self.entries
            .as_slice()
            .iter()
            .position(|entry| equal(entry.bytes(), name))
    }
}
