// Why a word is not made into what is due.
ghost use Rattle.std.specs.Prelude.{Some, codes};

use std::error::Error;
use std::fmt;

// The word is the name of nothing of that type.
#[derive(Clone, Copy, Debug, PartialEq, Eq)]
pub struct NoSuchName;

impl fmt::Display for NoSuchName {
    ghost output = { λ _. Some (codes "the word names nothing of that type") };

    fn fmt<W: fmt::Write>(&self, f: &mut fmt::Formatter<W>) -> fmt::Result {
        f.write_str("the word names nothing of that type")
    }
}

impl Error for NoSuchName {}
