// The rule: a tree of parts with a name list.
ghost use Rattle.std.specs.Prelude.{◌≡◌, ◌<◌, ◌≤◌, true, length, slice_index_or};
ghost use Rattle.grammar.specs.Forms.{parts, size};
ghost use Rattle.grammar.specs.Forms.Part.{always};
ghost use Rattle.grammar.specs.Numbering.{operands_in};
ghost use Rattle.grammar.specs.Shape.{is_tree, labelled};
ghost use Rattle.grammar.specs.Signs as signs;
ghost use Rattle.reading.specs.Holding.{parting, parts_in};
ghost use Rattle.names.specs.Lists.{names_of};

use crate::operands::Operands;
use fixed_vec::FixedVec;
use names::Names;
use reading::Part;

mod parsing;
mod walking;
mod writing;

/// The length of a line that takes the text of every rule.
pub const LINE: usize = 1024;

/// A house rule: 1 to 64 parts, operands before their operator and all of the left before all of the right, which are
/// those of one tree, with the names of its labels. It is made whole, so whoever holds one never has to ask for its shape.
// A list in post-order and no tree of boxes: the core does not allocate. It compares and shows nothing, as `FixedVec` does
// not.
#[derive(Clone, Copy)]
pub struct Rule {
    parts: FixedVec<Part, 64>,
    names: Names,
    ghost shape: { is_tree (parts_in parts) ≡ true },
    ghost known: { labelled (length (names_of names)) (parts_in parts) ≡ true },
}

// What reading by number and writing both go by. A number here is that of a part that the rule has.
impl Rule {
    ghost use Rattle.rule.specs.Rules.{form_in};
    ghost use Rattle.rule.specs.Signing.{operanding};
    ghost use Rattle.rule.specs.Walks.{Stands};

    // A part that the rule has. The rule and a number below its length stay two values here and below: a struct of both
    // would be made anew for each operand, in six places where a number less one does.
    fn at(&self, number: usize) -> Part
        requires { number < size (form_in self.now) }
        ensures { slice_index_or (parts (form_in self.now)) number always ≡ parting result }
    {
        self.parts.as_slice()[number]
    }

    // The number of the first part inside the part `root`.
    fn first(&self, root: usize) -> usize
        requires { root < size (form_in self.now) }
        ensures low { result ≤ root }
        ensures first { (p : signs.Sign) (s : Stands (form_in self.now) root p) → result ≡ s.first }
    {
        let parts = self.parts.as_slice();
        let mut at = root + 1;
        let mut owed = 1;
        // Each part on the way back is owed by its operator and owes its operands. A loop, so that it is one step a part: a
        // recursion from operand to operand is a call for each.
        while owed > 0 {
            at -= 1;
            owed = owed - 1 + parts[at].kind.operands() as usize;
        }
        at
    }

    // The operands of a part that the rule has.
    fn operands_of(&self, number: usize) -> Operands
        requires { number < size (form_in self.now) }
        ensures { operanding result ≡ operands_in (form_in self.now) number }
    {
        // A count, as the table has it: an enum of arities would only rename it.
        match self.at(number).kind.operands() {
            0 => Operands::None,
            1 => Operands::One(number - 1),
            _ => {
                let right = number - 1;
                let left = self.first(right) - 1;
                Operands::Two(left, right)
            }
        }
    }
}
