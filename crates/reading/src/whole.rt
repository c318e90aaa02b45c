// A text read whole, by a name list.
ghost use Rattle.names.specs.Lists.{names_of};
ghost use Rattle.reading.specs.Whole.{PartsRead, Passed};

use crate::faults::{GrammarFault, RuleFault};
use crate::levels::Reader;
use crate::part::Part;
use crate::parts::Parts;
use fixed_vec::FixedVec;
use names::Names;
use words::{WordFault, Words};

// The longest text in bytes.
const LONGEST_TEXT: usize = 1024;

// The most parts of a rule.
const MOST_PARTS: usize = 64;

// Looks at every word of the text: a fault of words goes before one of the grammar, wherever it stands.
fn pass(text: &[u8]) -> Result<(), WordFault>
    ensures { Passed text.now result }
{
    let mut words = Words::new(text);
    while let Some(seen) = words.look()? {
        words.place = seen.after;
    }
    Ok(())
}

// The parts of the rule that the text stands for.
pub fn read_parts(names: &Names, text: &[u8]) -> Result<FixedVec<Part, 64>, RuleFault>
    ensures { PartsRead (names_of names.now) text.now result }
{
    if text.len() > LONGEST_TEXT {
        return Err(RuleFault::Text);
    }
    pass(text)?;
    let mut reader = Reader {
        words: Words::new(text),
        names,
        parts: Parts::none(),
    };
    reader.read_rule()?;
    if let Some(seen) = reader.words.look()? {
        return Err(RuleFault::Grammar(GrammarFault::Stray(seen.at)));
    }
    if reader.parts.count > MOST_PARTS {
        return Err(RuleFault::Parts(text.len()));
    }
    Ok(reader.parts.kept)
}
