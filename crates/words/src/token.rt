// One word of a text. It borrows its bytes from the text and knows its place, which is where in the text it begins.
#[derive(Clone, Copy, Debug, PartialEq, Eq)]
pub enum Token<'a> {
    Opening { place: usize },
    Closing { place: usize },
    // letters and digits, one after another
    Word { bytes: &'a [u8], place: usize },
    // a line feed
    LineEnd { place: usize },
    // the text's end; its place is the text's length
    TextEnd { place: usize },
    // a byte that no text may have: a word of its own
    Forbidden { place: usize },
}
