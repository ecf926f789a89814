// The name of a line: 1 to 8 letters and digits, a letter first.
ghost use Rattle.std.specs.Prelude.{◌≡◌, ℕ, List, true, false, [], ◌∷◌, IfOk, Some, MatchOption};
ghost use Rattle.words.specs.Spelling.{name_shape};

use std::alloc::{AllocError, Global};
use std::marker::Model;
use std::{fmt, str};
use words::{PlacedWord, is_name};

// Its bytes are no String: that would only move the one look at whether they are text from the writing of a name to its making,
// and `become_a`, which may take no memory, would push where it writes over a byte.
#[derive(Drop)]
pub struct Name {
    bytes: Vec<u8>,
}

// A contract sees a name as its bytes.
impl Model for Name {
    ghost Value = { List ℕ };

    ghost view = { λ n. n.bytes.items };

    ghost invariant = { λ n. name_shape n.bytes.items ≡ true };
}

impl Name {
    // A name of these bytes; nothing where they are no name.
    pub fn new(heap: Global, word: &[u8]) -> Result<Option<Name>, AllocError>
        ensures { IfOk result (λ o. MatchOption o (name_shape word.now ≡ false) (λ n. n ≡ word.now)) }
    {
        if !is_name(word) {
            return Ok(None);
        }
        let bytes = word.to_vec(heap)?;
        Ok(Some(Name { bytes }))
    }

    // The name that a word of a text is.
    pub fn from_word(heap: Global, word: PlacedWord<'_>) -> Result<Name, AllocError>
        ensures { IfOk result (λ n. n ≡ word.entry.bytes.now) }
    {
        let bytes = word.bytes.to_vec(heap)?;
        Ok(Name { bytes })
    }

    // The name `a`.
    pub fn a(heap: Global) -> Result<Name, AllocError>
        ensures { IfOk result (λ n. n ≡ 97 ∷ []) }
    {
        let bytes = vec![in heap; b'a']?;
        Ok(Name { bytes })
    }

    pub fn bytes(&self) -> &[u8]
        ensures value { result.now ≡ self.now }
        ensures shape { name_shape result.now ≡ true }
    {
        &self.bytes
    }

    // Turns into the name `a`, which takes no memory.
    pub fn become_a(&mut self)
        ensures { self.new ≡ 97 ∷ [] }
    {
        self.bytes.truncate(1);
        self.bytes[0] = b'a';
    }
}

// A name as it is written.
impl fmt::Display for Name {
    ghost output = { λ n. Some n };

    fn fmt<W: fmt::Write>(&self, f: &mut fmt::Formatter<W>) -> fmt::Result {
        f.write_str(str::from_utf8(&self.bytes).unwrap())
    }
}
