// The sign of a part.
ghost use Rattle.std.specs.Prelude.{◌≡◌, if◌then◌else◌};
ghost use Rattle.grammar.specs.Signs.{flip};

/// Negative under an odd number of `!` and left sides of `->`, else positive.
#[derive(Clone, Copy, Debug, PartialEq, Eq, Hash)]
pub enum Sign {
    Plus,
    Minus,
}

impl Sign {
    ghost use Rattle.rule.specs.Signing.{signing};

    /// The sign, or the other one.
    pub fn flipped(self, flips: bool) -> Sign
        ensures { signing result ≡ (if flips then flip (signing self) else signing self) }
    {
        if !flips {
            return self;
        }
        match self {
            Sign::Plus => Sign::Minus,
            Sign::Minus => Sign::Plus,
        }
    }
}
