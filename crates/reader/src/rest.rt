// The part of a text after its circuit, and the place where it begins.
#[derive(Clone, Copy, Debug, PartialEq, Eq)]
pub struct Rest<'a> {
    pub bytes: &'a [u8],
    pub place: usize,
}
