// The fifteen kinds of parts, and the one table that says of each what reader, sign walk and writer need.
ghost use Rattle.std.specs.Prelude.{◌≡◌};
ghost use Rattle.words.specs.Kinds.{after_of, arity_of, before_of, between_of, binding_of, flips_of};

#[derive(Clone, Copy, Debug, PartialEq, Eq, Hash)]
pub enum Kind {
    True,
    False,
    Label,
    Not,
    And,
    Or,
    Implies,
    Ex,
    Ax,
    Ef,
    Af,
    Eg,
    Ag,
    Eu,
    Au,
}

// How strongly a kind holds its operands together, the weakest first.
#[derive(Clone, Copy, Debug, PartialEq, Eq, Hash)]
pub enum Binding {
    Implies,
    Or,
    And,
    Unary,
    Atom,
}

// What the table says of one kind. Nothing compares or shows a row, so it derives no more.
#[derive(Clone, Copy)]
struct KindRow {
    operands: u8,
    // Whether the first operand has the other sign.
    flips: bool,
    binding: Binding,
    // What is written before, between and after the operands; a constant is written by `before` alone.
    before: &'static [u8],
    between: &'static [u8],
    after: &'static [u8],
}

// No operands: what is written of a constant stands before them, of a label nothing.
const ATOM: KindRow = KindRow {
    operands: 0,
    flips: false,
    binding: Binding::Atom,
    before: b"",
    between: b"",
    after: b"",
};

// A sign, or a path and a time, before one operand.
const UNARY: KindRow = KindRow {
    operands: 1,
    binding: Binding::Unary,
    ..ATOM
};

// A sign between two operands, in parentheses; each row says how it binds.
const BINARY: KindRow = KindRow {
    operands: 2,
    before: b"(",
    after: b")",
    ..ATOM
};

// Two operands in brackets.
const UNTIL: KindRow = KindRow {
    operands: 2,
    between: b" U ",
    after: b"]",
    ..ATOM
};

// A row for each kind, in the order of `Kind`, which is its index: the one table that all who read kinds read. A `match` from
// kind to row would list the kinds a second time. What is as in the rows above is not said again.
const KINDS: [KindRow; 15] = [
    // True
    KindRow {
        before: b"true",
        ..ATOM
    },
    // False
    KindRow {
        before: b"false",
        ..ATOM
    },
    // Label
    ATOM,
    // Not
    KindRow {
        flips: true,
        before: b"!",
        ..UNARY
    },
    // And
    KindRow {
        binding: Binding::And,
        between: b" & ",
        ..BINARY
    },
    // Or
    KindRow {
        binding: Binding::Or,
        between: b" | ",
        ..BINARY
    },
    // Implies
    KindRow {
        binding: Binding::Implies,
        flips: true,
        between: b" -> ",
        ..BINARY
    },
    // Ex
    KindRow {
        before: b"EX ",
        ..UNARY
    },
    // Ax
    KindRow {
        before: b"AX ",
        ..UNARY
    },
    // Ef
    KindRow {
        before: b"EF ",
        ..UNARY
    },
    // Af
    KindRow {
        before: b"AF ",
        ..UNARY
    },
    // Eg
    KindRow {
        before: b"EG ",
        ..UNARY
    },
    // Ag
    KindRow {
        before: b"AG ",
        ..UNARY
    },
    // Eu
    KindRow {
        before: b"E[",
        ..UNTIL
    },
    // Au
    KindRow {
        before: b"A[",
        ..UNTIL
    },
];

// One getter for each column; a row handed out whole would need the contracts of all six.
impl Kind {
    pub fn operands(self) -> u8
        ensures { result ≡ arity_of self }
    {
        KINDS[self as usize].operands
    }

    pub fn flips(self) -> bool
        ensures { result ≡ flips_of self }
    {
        KINDS[self as usize].flips
    }

    pub fn binding(self) -> Binding
        ensures { result ≡ binding_of self }
    {
        KINDS[self as usize].binding
    }

    pub fn before(self) -> &'static [u8]
        ensures { result.now ≡ before_of self }
    {
        KINDS[self as usize].before
    }

    pub fn between(self) -> &'static [u8]
        ensures { result.now ≡ between_of self }
    {
        KINDS[self as usize].between
    }

    pub fn after(self) -> &'static [u8]
        ensures { result.now ≡ after_of self }
    {
        KINDS[self as usize].after
    }
}
