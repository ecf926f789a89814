// What each byte is to a text.
ghost use Rattle.std.specs.Prelude.{◌≡◌};
ghost use Rattle.words.specs.Bytes.{class, is_of};

#[derive(Clone, Copy, Debug, PartialEq, Eq)]
pub enum ByteClass {
    // a letter a to z or a digit
    InWord,
    Opening,
    Closing,
    Space,
    LineFeed,
    // any byte that no text may have
    Forbidden,
}

// The class of a byte.
pub fn class_of(byte: u8) -> ByteClass
    ensures { result ≡ class byte }
{
    match byte {
        b'a'..=b'z' | b'0'..=b'9' => ByteClass::InWord,
        b'(' => ByteClass::Opening,
        b')' => ByteClass::Closing,
        b' ' => ByteClass::Space,
        b'\n' => ByteClass::LineFeed,
        _ => ByteClass::Forbidden,
    }
}

// Whether a byte is of that class.
pub fn is_of(byte: u8, class: ByteClass) -> bool
    ensures { result ≡ is_of class byte }
{
    class_of(byte) == class
}
