// Why a rule is not read. Each fault has a number and a place.
ghost use Rattle.std.specs.Prelude.{◌≡◌, Some};
ghost use Rattle.reading.specs.Refusing.{fault_text, number_of, place_of};
ghost use Rattle.reading.specs.declared.faults.GrammarFault.TheVariants.{Word as of_word};
ghost use Rattle.reading.specs.declared.faults.RuleFault.TheVariants.{Grammar as of_grammar, Names as of_names};

use names::NamesFault;
use std::error::Error;
use std::fmt;
use words::WordFault;

// Why a text is none of the grammar: a fault of its words, or the place with which no text of the grammar goes on.
#[derive(Clone, Copy, Debug, PartialEq, Eq, Hash)]
pub enum GrammarFault {
    Word(WordFault),
    Stray(usize),
}

// Why a rule is not read: its names, a text over 1,024 bytes, its grammar, or over 64 parts in a text of that length.
#[derive(Clone, Copy, Debug, PartialEq, Eq, Hash)]
pub enum RuleFault {
    Names(NamesFault),
    Text,
    Grammar(GrammarFault),
    Parts(usize),
}

impl From<WordFault> for GrammarFault {
    ghost from_gives = { λ x y. y ≡ of_word x };

    fn from(fault: WordFault) -> GrammarFault {
        GrammarFault::Word(fault)
    }
}

impl From<NamesFault> for RuleFault {
    ghost from_gives = { λ x y. y ≡ of_names x };

    fn from(fault: NamesFault) -> RuleFault {
        RuleFault::Names(fault)
    }
}

impl From<WordFault> for RuleFault {
    ghost from_gives = { λ x y. y ≡ of_grammar (of_word x) };

    fn from(fault: WordFault) -> RuleFault {
        RuleFault::Grammar(GrammarFault::Word(fault))
    }
}

impl From<GrammarFault> for RuleFault {
    ghost from_gives = { λ x y. y ≡ of_grammar x };

    fn from(fault: GrammarFault) -> RuleFault {
        RuleFault::Grammar(fault)
    }
}

// Numbers and places are the documented ones, which no order of cases gives. There is no trait over all faults, flows' and
// rules', since nothing takes a fault of any kind.
impl RuleFault {
    // The number under which the refusal is documented.
    pub fn number(self) -> u8
        ensures { result ≡ number_of self }
    {
        match self {
            RuleFault::Names(_) => 1,
            RuleFault::Text => 2,
            RuleFault::Grammar(GrammarFault::Word(WordFault::Strange(_))) => 3,
            RuleFault::Grammar(GrammarFault::Word(WordFault::Long(_))) => 4,
            RuleFault::Grammar(GrammarFault::Stray(_)) => 5,
            RuleFault::Parts(_) => 6,
        }
    }

    // An entry of the name list, else a byte of the text.
    pub fn place(self) -> usize
        ensures { result ≡ place_of self }
    {
        match self {
            RuleFault::Names(NamesFault::Many) => 32,
            RuleFault::Text => 1024,
            RuleFault::Names(NamesFault::Entry(place))
            | RuleFault::Grammar(GrammarFault::Word(WordFault::Strange(place)))
            | RuleFault::Grammar(GrammarFault::Word(WordFault::Long(place)))
            | RuleFault::Grammar(GrammarFault::Stray(place))
            | RuleFault::Parts(place) => place,
        }
    }
}

// A fault shows as its number and its place: `3 at 5`.
impl fmt::Display for RuleFault {
    ghost output = { λ fault. Some (fault_text fault) };

    fn fmt<W: fmt::Write>(&self, f: &mut fmt::Formatter<W>) -> fmt::Result {
        let number = self.number();
        let place = self.place();
        write!(f, "{number} at {place}")
    }
}

impl Error for RuleFault {}
