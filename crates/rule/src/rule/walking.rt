// A rule's parts by number: each with its operands and its sign.
ghost use Rattle.std.specs.Prelude.{◌≡◌, ◌<◌, []};
ghost use Rattle.std.specs.Option.{option_map};
ghost use Rattle.grammar.specs.Forms.{size};
ghost use Rattle.grammar.specs.Forms.Form.{yes_form};
ghost use Rattle.reading.specs.Holding.{parting};
ghost use Rattle.names.specs.Lists.{Got};
ghost use Rattle.rule.specs.Rules.{form_in, names_in, operands_at, part_at, sign_at};
ghost use Rattle.rule.specs.Signing.{operanding, signing};
ghost use Rattle.rule.specs.Walks.{Around};

use crate::operands::Operands;
use crate::rule::Rule;
use crate::sign::Sign;
use fixed_vec::FixedVec;
use names::Names;
use reading::Part;
use words::Kind;

impl Rule {
    /// The rule `true`, without names.
    pub fn fresh() -> Rule
        ensures form { form_in result ≡ yes_form }
        ensures names { names_in result ≡ [] }
    {
        let constant = Part::of(Kind::True);
        let mut parts = FixedVec::new(constant);
        parts.push(constant).unwrap();
        Rule {
            parts,
            names: Names::none(),
        }
    }

    /// How many parts the rule has.
    pub fn len(&self) -> usize
        ensures { result ≡ size (form_in self.now) }
    {
        self.parts.len()
    }

    /// The name of a label, where it has one.
    pub fn name(&self, label: u8) -> Option<&[u8]>
        ensures { Got (names_in self.now) label result }
    {
        self.names.get(label)
    }

    /// The part with that number, where there is one.
    pub fn part(&self, number: usize) -> Option<Part>
        ensures { option_map parting result ≡ part_at (form_in self.now) number }
    {
        self.parts.as_slice().get(number).copied()
    }

    /// The operands of the part with that number, where there is one.
    pub fn operands(&self, number: usize) -> Option<Operands>
        ensures { option_map operanding result ≡ operands_at (form_in self.now) number }
    {
        (number < self.len()).then(|| self.operands_of(number))
    }

    // The operand of the part `from`, whose sign is `sign`, inside which the part `number` stands, with that operand's sign.
    fn toward(&self, from: usize, sign: Sign, number: usize) -> (usize, Sign)
        requires around { Around (form_in self.now) number from (signing sign) }
        requires below { number < from }
        ensures nearer { result.0 < from }
        ensures around { Around (form_in self.now) number result.0 (signing result.1) }
    {
        let flips = self.at(from).kind.flips();
        let turned = sign.flipped(flips);
        match self.operands_of(from) {
            Operands::One(operand) => (operand, turned),
            Operands::Two(left, right) if left < number => (right, sign),
            Operands::Two(left, _) => (left, turned),
            // No part stands inside one without operands.
            Operands::None => unreachable!(),
        }
    }

    /// The sign of the part with that number, where there is one.
    pub fn sign(&self, number: usize) -> Option<Sign>
        ensures { option_map signing result ≡ sign_at (form_in self.now) number }
    {
        if number >= self.len() {
            return None;
        }
        let mut at = self.len() - 1;
        let mut sign = Sign::Plus;
        while at != number {
            (at, sign) = self.toward(at, sign, number);
        }
        Some(sign)
    }
}
