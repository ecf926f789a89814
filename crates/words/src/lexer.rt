// A text that is being taken word by word.
ghost use Rattle.std.specs.Prelude.{◌≤◌, length};

// A text, and how far it has been read.
#[derive(Clone, Copy, Debug)]
pub struct Lexer<'a> {
    pub(crate) text: &'a [u8],
    pub(crate) place: usize,
    ghost within: { place ≤ length text.now },
}
