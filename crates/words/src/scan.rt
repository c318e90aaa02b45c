// Bytes and runs of a text.
ghost use Rattle.std.specs.Prelude.{◌≡◌, ◌+◌, ◌≤◌, length, drop};
ghost use Rattle.std.specs.List.{take_while};
ghost use Rattle.grammar.specs.Words.{inner, letter, same, spelled};
ghost use Rattle.grammar.specs.Scanning.{run as running};
ghost use Rattle.words.specs.Wording.{wording};

use crate::word::Word;

// A letter, a digit or an underscore.
fn is_inner(b: u8) -> bool
    ensures { result ≡ inner b }
{
    is_letter(b) || matches!(b as char, '0'..='9' | '_')
}

pub fn is_letter(b: u8) -> bool
    ensures { result ≡ letter b }
{
    matches!(b as char, 'a'..='z' | 'A'..='Z')
}

// Whether two stretches hold the same bytes: `==` of slices, said by the grammar's own definition. Names are found by it.
pub fn equal(a: &[u8], b: &[u8]) -> bool
    ensures { result ≡ same a.now b.now }
{
    a == b
}

// The word of a run of letters, digits and underscores: a name unless reserved.
#[tactic(auto, unfolding(grammar::specs::Words::spelled))]
pub fn spelling(run: &[u8]) -> Word<'_>
    ensures { wording result ≡ spelled run.now }
{
    match run {
        b"A" => Word::A,
        b"E" => Word::E,
        b"U" => Word::U,
        b"AX" => Word::Ax,
        b"EX" => Word::Ex,
        b"AF" => Word::Af,
        b"EF" => Word::Ef,
        b"AG" => Word::Ag,
        b"EG" => Word::Eg,
        b"true" => Word::True,
        b"false" => Word::False,
        _ => Word::Name(run),
    }
}

// How many letters, digits and underscores the bytes begin with.
fn run_len(bytes: &[u8]) -> usize
    ensures { result ≡ length (take_while inner bytes.now) }
{
    bytes.iter().take_while(|b| is_inner(**b)).count()
}

// The place past the run of letters, digits and underscores from `place` on.
pub fn past_run(text: &[u8], place: usize) -> usize
    ensures within { place ≤ length text.now → result ≤ length text.now }
    ensures whole { result ≡ place + length (running (drop place text.now)) }
{
    if place > text.len() {
        return place;
    }
    // A cut and no `skip`, which would go over all that stands before `place`.
    place + run_len(&text[place..])
}
