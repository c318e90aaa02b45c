// The operands of a part.

/// By their numbers, the left one first. An enum of its own, since there are three cases, and no part has only a right
/// operand.
#[derive(Clone, Copy, Debug, PartialEq, Eq, Hash)]
pub enum Operands {
    None,
    One(usize),
    Two(usize, usize),
}
