// Reading a rule from text.
ghost use Rattle.std.specs.Prelude.{◌≡◌};
ghost use Rattle.grammar.specs.Laws.{Laws};
ghost use Rattle.grammar.specs.Answering.{Answering};
ghost use Rattle.grammar.specs.Reading.{answer_of};
ghost use Rattle.grammar.specs.Answering.{Answer};
ghost use Rattle.rule.specs.Answers.{Keeps, answered};
ghost use Rattle.names.specs.Naming.{spellings};

use crate::rule::Rule;
use names::Names;
use reading::{RuleFault, read_parts};

impl Rule {
    /// The rule that the text stands for with these names, entry i for label i; a name that the list lacks is `false`.
    pub fn read(names: &[&[u8]], text: &[u8]) -> Result<Rule, RuleFault>
        ensures grammar { Answering (spellings names.now) text.now (answered result) }
        ensures only { (a : Answer) → Answering (spellings names.now) text.now a → answered result ≡ a }
        ensures answer { answered result ≡ answer_of (spellings names.now) text.now }
        ensures laws { Laws }
        ensures names { Keeps (spellings names.now) result }
    {
        let list = Names::new(names)?;
        let parts = read_parts(&list, text)?;
        Ok(Rule { parts, names: list })
    }
}
