// The faults of a name list.

// A name list of more than 32 entries, or the entry that is no name, reserved or repeats an earlier one.
#[derive(Clone, Copy, Debug, PartialEq, Eq, Hash)]
pub enum NamesFault {
    Many,
    Entry(usize),
}
