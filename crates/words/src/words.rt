// The word reader. It looks for one word after the other in the caller's text and copies nothing; whoever reads moves
// its place past the word that is taken.
ghost use Rattle.std.specs.Prelude.{◌≤◌, length};

mod looking;

// A text, and the place where its next word is looked for.
#[derive(Debug, Drop)]
pub struct Words<'a> {
    pub text: &'a [u8],
    pub place: usize,
    ghost inside: { place ≤ length text.now },
}
