//! The answer to a rule over the ticket flow's names: the rule as written, or its refusal.
ghost use Rattle.std.specs.Prelude.{◌≡◌, IfOk};
ghost use Rattle.grammar.specs.Reading.{answer_of};
ghost use Rattle.grammar.specs.Answering.Answer.{the_rule};
ghost use Rattle.reading.specs.Refusing.{refused};
ghost use Rattle.rule.specs.Rules.{form_in, names_in};
ghost use Rattle.rulecheck.specs.Answer.{rule_line, text_in, ticket_names};

use rule::{Rule, RuleFault};
use std::alloc::{AllocError, Global};

/// The text of a rule: the input, without one line end at its very end.
pub fn text_in(input: &[u8]) -> &[u8]
    ensures { result.now ≡ text_in input.now }
{
    input.strip_suffix(b"\n").unwrap_or(input)
}

/// The line that answers a text: `RULE AG (held -> EF sold)`, or `REFUSED 3 at 5` with the number and the place of the
/// fault. An error stands for want of memory.
pub fn rule_line(heap: Global, text: &[u8]) -> Result<Vec<u8>, AllocError>
    ensures { IfOk result (λ v. v.items ≡ rule_line (answer_of ticket_names text.now)) }
{
    // A match: each outcome has its own line to make, and both can want for memory.
    match Rule::read(&[b"held", b"sold"], text) {
        Ok(rule) => accepted(heap, &rule),
        Err(fault) => refusal(heap, fault),
    }
}

// The line of a rule that was read with the ticket flow's names.
fn accepted(heap: Global, rule: &Rule) -> Result<Vec<u8>, AllocError>
    requires { names_in rule.now ≡ ticket_names }
    ensures { IfOk result (λ v. v.items ≡ rule_line (the_rule (form_in rule.now))) }
{
    let text = rule.text();
    let mut line = Vec::from_slice(heap, b"RULE ")?;
    line.extend_from_slice(text.as_slice())?;
    line.push(b'\n')?;
    Ok(line)
}

// The line of a refusal.
fn refusal(heap: Global, fault: RuleFault) -> Result<Vec<u8>, AllocError>
    ensures { IfOk result (λ v. v.items ≡ rule_line (refused fault)) }
{
    Ok(format!(in heap; "REFUSED {fault}\n")?.into_bytes())
}
