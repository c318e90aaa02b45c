// The parts of a text that is being read.
ghost use Rattle.std.specs.Prelude.{◌≡◌, ◌≤◌, min, [], ◌∷◌, length};
ghost use Rattle.fixed_vec.specs.FixedVec.{items};
ghost use Rattle.grammar.specs.Forms.{parts as form_parts};
ghost use Rattle.grammar.specs.Answering.{meant};
ghost use Rattle.names.specs.Lists.{names_of};
ghost use Rattle.reading.specs.Holding.{parting};

use crate::part::Part;
use fixed_vec::FixedVec;
use names::Names;
use words::Kind;

// The first 64 parts in their order, and how many there are. A count of 65 says that there are more than 64: the grammar
// of the text is still read on then, while no further part is kept. They compare and show nothing, as `FixedVec` does not.
#[derive(Clone, Copy)]
pub struct Parts {
    pub kept: FixedVec<Part, 64>,
    pub count: usize,
    ghost few: { count ≤ 65 },
    ghost held: { length (items kept) ≡ min count 64 },
}

impl Parts {
    ghost use Rattle.reading.specs.Growing.{Added, Holds};

    // No part yet.
    pub fn none() -> Parts
        ensures { Holds result [] }
    {
        Parts {
            kept: FixedVec::new(Part::of(Kind::True)),
            count: 0,
        }
    }

    // Adds a part, or past 64 notes that there are more.
    pub fn push(&mut self, part: Part)
        ensures { Added self.old self.new (parting part) }
    {
        self.count = (self.count + 1).min(65);
        let _ = self.kept.push(part);
    }
}

// The part of a name: its label, or `false` where the list lacks it. No conversion: a name alone is no part.
pub fn named(names: &Names, name: &[u8]) -> Part
    ensures { form_parts (meant 0 (names_of names.now) name.now) ≡ parting result ∷ [] }
{
    names
        .find(name)
        .map_or(Part::of(Kind::False), Part::of_label)
}
