// Writing a rule into the caller's buffer. Its text is bytes, as the caller's names are, so a rule has no `Display`.
ghost use Rattle.std.specs.Prelude.{◌≡◌, ◌≤◌, [], length};
ghost use Rattle.fixed_vec.specs.FixedVec.{items};
ghost use Rattle.grammar.specs.Reading.{answer_of};
ghost use Rattle.grammar.specs.Answering.Answer.{the_rule};
ghost use Rattle.reading.specs.Holding.{parting};
ghost use Rattle.rule.specs.Printing.{Adds, constant_for, part_text, word_for};
ghost use Rattle.rule.specs.Rules.{form_in, length_in, marked, names_in, put_into, struck_in, struck_text, text_of};
ghost use Rattle.rule.specs.Signing.{signing};
ghost use Rattle.rule.specs.Walks.{Stands};

use crate::operands::Operands;
use crate::rule::{LINE, Rule};
use crate::sign::Sign;
use fixed_vec::{FixedVec, Full};
use reading::Part;
use words::Kind;

// Whether a row of marks strikes the part with that number. A part past the row is not struck.
fn is_marked(marks: &[u8], number: usize) -> bool
    ensures { result ≡ marked marks.now number }
{
    marks.get(number).is_some_and(|&mark| mark != 0)
}

// What is written for a struck part: its constant alone.
fn constant(sign: Sign) -> &'static [u8]
    ensures { result.now ≡ constant_for (signing sign) }
{
    match sign {
        Sign::Plus => Kind::False.before(),
        Sign::Minus => Kind::True.before(),
    }
}

impl Rule {
    // What is written for a part without operands: the name of a label, or a constant.
    fn word(&self, part: Part) -> &[u8]
        ensures { result.now ≡ word_for (names_in self.now) (parting part) }
    {
        part.label()
            .and_then(|label| self.names.get(label))
            .unwrap_or(part.kind.before())
    }

    // Adds the text of the part `root`, whose sign is `sign`, to a line; refused where the line is too short for it.
    fn print(
        &self,
        marks: &[u8],
        sign: Sign,
        root: usize,
        line: &mut FixedVec<u8, LINE>,
    ) -> Result<(), Full>
        requires { Stands (form_in self.now) root (signing sign) }
        ensures { (s : Stands (form_in self.now) root (signing sign))
            → Adds (part_text (names_in self.now) (marked marks.now) s) (items line.old) (items line.new) result }
    {
        if is_marked(marks, root) {
            return line.extend_from_slice(constant(sign));
        }
        let part = self.at(root);
        let turned = sign.flipped(part.kind.flips());
        match self.operands_of(root) {
            Operands::None => line.extend_from_slice(self.word(part)),
            Operands::One(operand) => {
                line.extend_from_slice(part.kind.before())?;
                self.print(marks, turned, operand, line)
            }
            Operands::Two(left, right) => {
                line.extend_from_slice(part.kind.before())?;
                self.print(marks, turned, left, line)?;
                line.extend_from_slice(part.kind.between())?;
                self.print(marks, sign, right, line)?;
                line.extend_from_slice(part.kind.after())
            }
        }
    }

    // Puts the text of the rule with the marked parts struck into an empty line, which takes every rule. Into the caller's
    // line, since one that is handed out is copied whole.
    fn line(&self, marks: &[u8], line: &mut FixedVec<u8, LINE>)
        requires { items line.old ≡ [] }
        ensures { items line.new ≡ struck_text marks.now self.now }
    {
        self.print(marks, Sign::Plus, self.len() - 1, line).unwrap();
    }

    /// The text of the rule. It reads back as the rule.
    pub fn text(&self) -> FixedVec<u8, LINE>
        ensures bytes { items result ≡ text_of self.now }
        ensures again { answer_of (names_in self.now) (items result) ≡ the_rule (form_in self.now) }
    {
        let mut line = FixedVec::new(0);
        self.line(&[], &mut line);
        line
    }

    /// Writes the rule with the marked parts struck, each as its constant alone, and answers the length.
    /// A buffer that is too short stays as it was, and the length is 0, the documented answer of every call that writes.
    /// The text reads back as the struck rule.
    pub fn write_struck(&self, marks: &[u8], out: &mut [u8]) -> usize
        ensures length { result ≡ length_in (struck_text marks.now self.now) out.old }
        ensures bytes { out.new ≡ put_into (struck_text marks.now self.now) out.old }
        ensures short { length (struck_text marks.now self.now) ≤ 1024 }
        ensures again { answer_of (names_in self.now) (struck_text marks.now self.now) ≡ the_rule (struck_in marks.now self.now) }
    {
        let mut line = FixedVec::new(0);
        self.line(marks, &mut line);
        let text = line.as_slice();
        let len = text.len();
        if out.len() < len {
            return 0;
        }
        out[..len].copy_from_slice(text);
        len
    }

    /// Writes the rule and answers the length. A buffer that is too short stays as it was, and the length is 0.
    /// The text reads back as the rule.
    pub fn write(&self, out: &mut [u8]) -> usize
        ensures length { result ≡ length_in (text_of self.now) out.old }
        ensures bytes { out.new ≡ put_into (text_of self.now) out.old }
        ensures short { length (text_of self.now) ≤ 1024 }
        ensures again { answer_of (names_in self.now) (text_of self.now) ≡ the_rule (form_in self.now) }
    {
        self.write_struck(&[], out)
    }
}
