// One part of a rule.
ghost use Rattle.std.specs.Prelude.{◌≡◌};
ghost use Rattle.grammar.specs.Forms.Part.{known};
ghost use Rattle.reading.specs.Holding.{label_of, parting};
ghost use Rattle.words.specs.Kinds.{part_of};

use words::Kind;

// A part: its kind, and for a label its number. The number stands beside the kind and not in it: a kind with a number
// would be no index into the one table of kinds, and `of(Kind::Label)` is a part, the label 0. It derives no comparison,
// which would read the number of other kinds too.
#[derive(Clone, Copy, Debug)]
pub struct Part {
    pub kind: Kind,
    // 0 in other kinds than a label's, and not read there.
    label: u8,
}

impl Part {
    // The part of that kind; of a label the one with the number 0. A constructor and no `From<Kind>`, which would hide that
    // number.
    pub fn of(kind: Kind) -> Part
        ensures { parting result ≡ part_of kind 0 }
    {
        Part { kind, label: 0 }
    }

    // The label with that number. No `From<u8>`: a number says nothing of labels.
    pub fn of_label(label: u8) -> Part
        ensures { parting result ≡ known label }
    {
        Part {
            kind: Kind::Label,
            label,
        }
    }

    // The number of a label; none for other kinds.
    pub fn label(self) -> Option<u8>
        ensures { result ≡ label_of (parting self) }
    {
        (self.kind == Kind::Label).then_some(self.label)
    }
}
