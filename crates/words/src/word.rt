// The words of a rule text.
ghost use Rattle.std.specs.Prelude.{◌≡◌};
ghost use Rattle.words.specs.Wording.{kind_of};

use crate::kinds::Kind;

// A word. A name is a stretch of the caller's text; nothing is copied.
#[derive(Clone, Copy, Debug, PartialEq, Eq, Hash)]
pub enum Word<'a> {
    Open,
    Close,
    Square,
    Unsquare,
    Not,
    And,
    Or,
    Arrow,
    Ex,
    Ax,
    Ef,
    Af,
    Eg,
    Ag,
    A,
    E,
    U,
    True,
    False,
    Name(&'a [u8]),
}

// A word with its place, and the place past it.
#[derive(Clone, Copy, Debug, PartialEq, Eq, Hash)]
pub struct Seen<'a> {
    pub at: usize,
    pub word: Word<'a>,
    pub after: usize,
}

impl Word<'_> {
    // The kind of the part that the word makes; none for a name, a bracket and `U`. An `Option` and no `TryFrom`, whose
    // error would say nothing.
    pub fn kind(self) -> Option<Kind>
        ensures { result ≡ kind_of self.entry }
    {
        match self {
            Word::Not => Some(Kind::Not),
            Word::And => Some(Kind::And),
            Word::Or => Some(Kind::Or),
            Word::Arrow => Some(Kind::Implies),
            Word::Ex => Some(Kind::Ex),
            Word::Ax => Some(Kind::Ax),
            Word::Ef => Some(Kind::Ef),
            Word::Af => Some(Kind::Af),
            Word::Eg => Some(Kind::Eg),
            Word::Ag => Some(Kind::Ag),
            Word::A => Some(Kind::Au),
            Word::E => Some(Kind::Eu),
            Word::True => Some(Kind::True),
            Word::False => Some(Kind::False),
            _ => None,
        }
    }
}
