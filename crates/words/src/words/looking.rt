// Looking for the next word of a text.
ghost use Rattle.std.specs.Prelude.{◌≡◌, ◌<◌, ◌≤◌, ◌==◌, true, false, not, [], drop, length, position, ◌≢◌, slice_index};
ghost use Rattle.grammar.specs.Scanning.{signed};
ghost use Rattle.grammar.specs.Words.{letter};
ghost use Rattle.words.specs.Wording.{Begins, Looked, OneByte, signing};

use crate::faults::WordFault;
use crate::scan::{past_run, spelling};
use crate::word::{Seen, Word};
use crate::words::Words;

// The longest word in bytes.
const LONGEST_WORD: usize = 16;

// A byte of a text, by its place. Each method promises what begins here, by one definition: no invariant could say it for
// them.
#[derive(Clone, Copy)]
struct Spot<'a> {
    text: &'a [u8],
    at: usize,
    ghost inside: { at < length text.now },
}

impl<'a> Spot<'a> {
    fn byte(&self) -> u8
        ensures { result ≡ slice_index self.now.text.now self.now.at }
    {
        self.text[self.at]
    }

    // The word that begins here, where no space stands.
    fn word(&self) -> Result<Seen<'a>, WordFault>
        requires { slice_index self.now.text.now self.now.at ≢ 32 }
        ensures { Begins self.now.text.now self.now.at result }
    {
        match self.byte() as char {
            'a'..='z' | 'A'..='Z' => self.run(),
            '-' => self.arrow(),
            _ => self.sign(),
        }
    }

    // The word of the run that this letter begins.
    fn run(&self) -> Result<Seen<'a>, WordFault>
        requires { letter (slice_index self.now.text.now self.now.at) ≡ true }
        ensures { Begins self.now.text.now self.now.at result }
    {
        let after = past_run(self.text, self.at + 1);
        if after - self.at > LONGEST_WORD {
            return Err(WordFault::Long(self.at));
        }
        let word = spelling(&self.text[self.at..after]);
        Ok(Seen {
            at: self.at,
            word,
            after,
        })
    }

    // The arrow that this `-` begins.
    fn arrow(&self) -> Result<Seen<'a>, WordFault>
        requires { slice_index self.now.text.now self.now.at ≡ 45 }
        ensures { Begins self.now.text.now self.now.at result }
    {
        if self.text.get(self.at + 1) != Some(&b'>') {
            return Err(WordFault::Strange(self.at));
        }
        Ok(Seen {
            at: self.at,
            word: Word::Arrow,
            after: self.at + 2,
        })
    }

    // The word of this one byte.
    fn sign(&self) -> Result<Seen<'a>, WordFault>
        requires no_space { slice_index self.now.text.now self.now.at ≢ 32 }
        requires no_letter { letter (slice_index self.now.text.now self.now.at) ≡ false }
        requires no_dash { slice_index self.now.text.now self.now.at ≢ 45 }
        ensures { Begins self.now.text.now self.now.at result }
    {
        let Some(word) = sign(self.byte()) else {
            return Err(WordFault::Strange(self.at));
        };
        Ok(Seen {
            at: self.at,
            word,
            after: self.at + 1,
        })
    }
}

// The word that is this one byte.
fn sign(b: u8) -> Option<Word<'static>>
    ensures sign { signing result ≡ signed b [] }
    ensures one { OneByte result }
{
    match b as char {
        '(' => Some(Word::Open),
        ')' => Some(Word::Close),
        '[' => Some(Word::Square),
        ']' => Some(Word::Unsquare),
        '!' => Some(Word::Not),
        '&' => Some(Word::And),
        '|' => Some(Word::Or),
        _ => None,
    }
}

// How many spaces stand before the first other byte; none where no other byte comes.
fn spaces(bytes: &[u8]) -> Option<usize>
    ensures { result ≡ position (λ b. not (b == 32)) bytes.now }
{
    bytes.iter().position(|&b| b != b' ')
}

// The next word from `place` on, or none where the text ends.
fn word_at(text: &[u8], place: usize) -> Result<Option<Seen<'_>>, WordFault>
    requires { place ≤ length text.now }
    ensures { Looked text.now place result }
{
    // A cut and no `skip`, which would go over all that stands before `place`.
    let Some(skipped) = spaces(&text[place..]) else {
        return Ok(None);
    };
    let spot = Spot {
        text,
        at: place + skipped,
    };
    spot.word().map(Some)
}

impl<'a> Words<'a> {
    // A reader at the beginning of a text.
    pub fn new(text: &'a [u8]) -> Words<'a>
        ensures text { result.text.now ≡ text.now }
        ensures place { result.place ≡ 0 }
    {
        Words { text, place: 0 }
    }

    // The next word, which is not taken, or none where the text ends.
    pub fn look(&self) -> Result<Option<Seen<'a>>, WordFault>
        ensures { Looked self.now.text.now self.now.place result }
    {
        word_at(self.text, self.place)
    }
}
