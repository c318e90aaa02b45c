// The levels of the grammar. Each reads one phrase, and its contract says what comes of the text whatever stands around it.
ghost use Rattle.std.specs.Prelude.{◌≡◌, Some as «some», MatchBool, ◌≢◌};
ghost use Rattle.reading.specs.Levels.{AndDone, AtomDone, Expected, Made, Next, OrDone, RuleDone, Taken, UnaryDone, UntilDone, strength};
ghost use Rattle.words.specs.Wording.{wording};
ghost use Rattle.words.specs.declared.kinds.Binding.TheVariants.{Unary as unaries};

use crate::faults::GrammarFault;
use crate::part::Part;
use crate::parts::{Parts, named};
use names::Names;
use words::{Binding, Kind, Seen, Word, WordFault, Words};

// A text that is being read by a name list: its words, and the parts so far.
#[derive(Drop)]
pub struct Reader<'a> {
    pub words: Words<'a>,
    pub names: &'a Names,
    pub parts: Parts,
}

// The kind that the word makes, if it binds so strongly.
fn kind_at(word: Word<'_>, binding: Binding) -> Option<Kind>
    ensures { Made binding (wording word.entry) result }
{
    word.kind().filter(|kind| kind.binding() == binding)
}

// Takes the next word if it binds so strongly.
fn takes(words: &mut Words<'_>, binding: Binding) -> Result<Option<Kind>, WordFault>
    ensures { Taken binding words.old words.new result }
{
    let Some(seen) = words.look()? else {
        return Ok(None);
    };
    let kind = kind_at(seen.word, binding);
    if kind.is_some() {
        words.place = seen.after;
    }
    Ok(kind)
}

// Takes the next word, which has to be there.
fn take<'a>(words: &mut Words<'a>) -> Result<Seen<'a>, GrammarFault>
    ensures { Next words.old words.new result }
{
    let Some(seen) = words.look()? else {
        return Err(GrammarFault::Stray(words.text.len()));
    };
    words.place = seen.after;
    Ok(seen)
}

// Whether the word is the one that is due. In `expect` itself the search stops at its limits on what `==` says of words.
fn is_due(word: Word<'_>, due: Word<'_>) -> bool
    ensures { MatchBool result (wording word.entry ≡ wording due.entry) (wording word.entry ≢ wording due.entry) }
{
    word == due
}

// Takes the word that is due, or says where it is missing.
fn expect(words: &mut Words<'_>, due: Word<'_>) -> Result<(), GrammarFault>
    ensures { Expected (wording due.entry) words.old words.new result }
{
    let seen = take(words)?;
    if !is_due(seen.word, due) {
        return Err(GrammarFault::Stray(seen.at));
    }
    Ok(())
}

impl Reader<'_> {
    #[cycle(levels)]
    pub fn read_rule(&mut self) -> Result<(), GrammarFault>
        ensures { RuleDone self.old self.new result }
    {
        self.read_or()?;
        if let Some(kind) = takes(&mut self.words, Binding::Implies)? {
            self.read_rule()?;
            self.parts.push(Part::of(kind));
        }
        Ok(())
    }

    // This level and the next stay two functions. One over the binding proves too, but is as long, chooses the level below
    // by a switch, and rules out the other bindings by a `requires`. One that takes the level below as a closure would
    // want a number beside it, for the measure of the cycle alone, and a trait of levels, with the sign, the operand and what
    // is promised of both, more text than the two.
    #[cycle(levels)]
    fn read_or(&mut self) -> Result<(), GrammarFault>
        ensures { OrDone self.old self.new result }
    {
        self.read_and()?;
        while let Some(kind) = takes(&mut self.words, Binding::Or)? {
            self.read_and()?;
            self.parts.push(Part::of(kind));
        }
        Ok(())
    }

    #[cycle(levels)]
    fn read_and(&mut self) -> Result<(), GrammarFault>
        ensures { AndDone self.old self.new result }
    {
        self.read_unary()?;
        while let Some(kind) = takes(&mut self.words, Binding::And)? {
            self.read_unary()?;
            self.parts.push(Part::of(kind));
        }
        Ok(())
    }

    #[cycle(levels)]
    fn read_unary(&mut self) -> Result<(), GrammarFault>
        ensures { UnaryDone self.old self.new result }
    {
        let seen = take(&mut self.words)?;
        let Some(kind) = kind_at(seen.word, Binding::Unary) else {
            return self.read_atom(seen.at, seen.word);
        };
        self.read_unary()?;
        self.parts.push(Part::of(kind));
        Ok(())
    }

    // The atom that the word at `at`, just taken, begins. The two alone: what `Seen` has besides, the place past the word, is
    // used up.
    #[cycle(levels)]
    fn read_atom(&mut self, at: usize, word: Word<'_>) -> Result<(), GrammarFault>
        requires { strength (wording word) ≢ «some» unaries }
        ensures { AtomDone self.old self.new at (wording word.entry) result }
    {
        match word {
            Word::True => {
                self.parts.push(Part::of(Kind::True));
                Ok(())
            }
            Word::False => {
                self.parts.push(Part::of(Kind::False));
                Ok(())
            }
            Word::Name(name) => {
                self.parts.push(named(self.names, name));
                Ok(())
            }
            Word::Open => {
                self.read_rule()?;
                expect(&mut self.words, Word::Close)
            }
            Word::A => self.read_until(at, Kind::Au),
            Word::E => self.read_until(at, Kind::Eu),
            _ => Err(GrammarFault::Stray(at)),
        }
    }

    // What follows the letter `A` or `E` at `at`, just taken.
    #[cycle(levels)]
    fn read_until(&mut self, at: usize, kind: Kind) -> Result<(), GrammarFault>
        ensures { UntilDone self.old self.new at kind result }
    {
        expect(&mut self.words, Word::Square)?;
        self.read_rule()?;
        expect(&mut self.words, Word::U)?;
        self.read_rule()?;
        expect(&mut self.words, Word::Unsquare)?;
        self.parts.push(Part::of(kind));
        Ok(())
    }
}
