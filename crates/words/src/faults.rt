// The faults of words.

// Why a text is not all of words, with the place: a byte that begins no word, or a word over 16 bytes.
#[derive(Clone, Copy, Debug, PartialEq, Eq, Hash)]
pub enum WordFault {
    Strange(usize),
    Long(usize),
}
