// How words are spelled.
ghost use Rattle.std.specs.Prelude.{◌≡◌};
ghost use Rattle.std.specs.List.{list_all};
ghost use Rattle.words.specs.Bytes.{in_word};
ghost use Rattle.words.specs.Spelling.{name_shape};

use crate::bytes::{ByteClass, is_of};

pub const LONGEST_NAME: usize = 8;

// Whether each byte is a letter or a digit.
fn all_in_word(bytes: &[u8]) -> bool
    ensures { result ≡ list_all in_word bytes.now }
{
    bytes.iter().all(|byte| is_of(*byte, ByteClass::InWord))
}

// Whether a word can be a name: 1 to 8 letters and digits, a letter first.
pub fn is_name(word: &[u8]) -> bool
    ensures { result ≡ name_shape word.now }
{
    match word {
        [b'a'..=b'z', ..] => word.len() <= LONGEST_NAME && all_in_word(word),
        _ => false,
    }
}
