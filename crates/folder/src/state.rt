// What is known of a fault. (The answers of a visit are cases of their own here, and not one case that holds an answer: the project
// has five states by name, and each `match` on one would look into two enums.)
ghost use Rattle.std.specs.Prelude.{◌≡◌, Some};
ghost use Rattle.folder.specs.Entries.{state_cube, state_count, state_word};
ghost use Rattle.folder.specs.Searching.{filed};

use faults::Cube;
use std::fmt;
use visit::Answer;

#[derive(Clone, Copy, Debug, PartialEq, Eq)]
pub enum State {
    // nothing yet
    Open,
    // the tries ran out; the cube is the best that was met
    Spent { cube: Option<Cube>, tries: usize },
    // a test; no cube that the kind shows to be one drives fewer inputs
    Fewest { cube: Cube, tries: usize },
    // no vector detects the fault
    Redundant { tries: usize },
    // the cube of another entry detects it
    Covered { by: usize },
}

impl State {
    // The cube that the state holds, if it holds one.
    pub fn cube(&self) -> Option<Cube>
        ensures { result ≡ state_cube self.now }
    {
        match *self {
            State::Spent { cube, .. } => cube,
            State::Fewest { cube, .. } => Some(cube),
            State::Open | State::Redundant { .. } | State::Covered { .. } => None,
        }
    }

    // The tries made, or the number of the entry that covers; 0 where nothing is known. (One number for the three, as a listing writes
    // it.)
    pub fn count(&self) -> usize
        ensures { result ≡ state_count self.now }
    {
        match *self {
            State::Open => 0,
            State::Spent { tries, .. } | State::Fewest { tries, .. } | State::Redundant { tries } =>
                tries,
            State::Covered { by } => by,
        }
    }
}

// The state that keeps the answer of a visit.
impl From<Answer> for State {
    ghost from_gives = { λ a s. s ≡ filed a };

    fn from(answer: Answer) -> State {
        match answer {
            Answer::Fewest { cube, tries } => State::Fewest { cube, tries },
            Answer::Redundant { tries } => State::Redundant { tries },
            Answer::Spent { best, tries } => State::Spent { cube: best, tries },
        }
    }
}

// The word of a state.
impl fmt::Display for State {
    ghost output = { λ s. Some (state_word s) };

    fn fmt<W: fmt::Write>(&self, f: &mut fmt::Formatter<W>) -> fmt::Result {
        f.write_str(match self {
            State::Open => "open",
            State::Spent { .. } => "spent",
            State::Fewest { .. } => "fewest",
            State::Redundant { .. } => "redundant",
            State::Covered { .. } => "covered",
        })
    }
}
