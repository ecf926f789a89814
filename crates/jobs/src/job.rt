// What a job line asks for.
ghost use Rattle.std.specs.Prelude.{Some};
ghost use Rattle.jobs.specs.Kinds.{kind_text};
ghost use Rattle.jobs.specs.JobLines.{NamesKind, NamesHead};

use faults::StuckAt;
use std::fmt;
use words::NoSuchName;

// A value kind, by its name.
#[derive(Clone, Copy, Debug, PartialEq, Eq)]
pub enum Kind {
    Five,
    Seven,
    Nine,
}

// What a job line asks for.
#[derive(Clone, Copy, Debug, PartialEq, Eq)]
pub enum Job {
    // choose the value kind
    Kind {
        kind: Kind,
    },
    // enter a stuck-at fault, under the kind that was chosen
    Fault {
        kind: Kind,
        fault: StuckAt,
    },
    // look for a test for the entry of that number, in at most so many tries, under the kind that was chosen
    Search {
        kind: Kind,
        number: usize,
        budget: usize,
    },
    // cover by the entry of that number, under the kind that was chosen
    Cover {
        kind: Kind,
        number: usize,
    },
    // list the entries
    List,
}

// The longest head. It is compared by `==`: an arm with a literal as long as this gets no proof.
const SEARCH: &[u8] = b"search";

// The word that a job line begins with.
#[derive(Clone, Copy, Debug, PartialEq, Eq)]
pub enum Head {
    Kind,
    Fault,
    Search,
    Cover,
    List,
}

// A job, and the place where the line after it begins.
#[derive(Clone, Copy, Debug, PartialEq, Eq)]
pub struct JobLine {
    pub job: Job,
    pub next: usize,
}

// The kind of that name.
impl TryFrom<&[u8]> for Kind {
    type Error = NoSuchName;

    ghost try_from_gives = { λ word r. NamesKind word.now r };

    fn try_from(word: &[u8]) -> Result<Kind, NoSuchName> {
        match word {
            b"five" => Ok(Kind::Five),
            b"seven" => Ok(Kind::Seven),
            b"nine" => Ok(Kind::Nine),
            _ => Err(NoSuchName),
        }
    }
}

// The job that a line with that word asks for.
impl TryFrom<&[u8]> for Head {
    type Error = NoSuchName;

    ghost try_from_gives = { λ word r. NamesHead word.now r };

    fn try_from(word: &[u8]) -> Result<Head, NoSuchName> {
        match word {
            b"kind" => Ok(Head::Kind),
            b"fault" => Ok(Head::Fault),
            b"cover" => Ok(Head::Cover),
            b"list" => Ok(Head::List),
            _ if word == SEARCH => Ok(Head::Search),
            _ => Err(NoSuchName),
        }
    }
}

// A kind as it is written.
impl fmt::Display for Kind {
    ghost output = { λ k. Some (kind_text k) };

    fn fmt<W: fmt::Write>(&self, f: &mut fmt::Formatter<W>) -> fmt::Result {
        f.write_str(match self {
            Kind::Five => "five",
            Kind::Seven => "seven",
            Kind::Nine => "nine",
        })
    }
}
