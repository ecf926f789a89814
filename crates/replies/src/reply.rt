// The reply to a job line.
ghost use Rattle.std.specs.Prelude.{Some};
ghost use Rattle.replies.specs.Replies.{reply_text};

use crate::state_text::StateText;
use folder::State;
use jobs::Kind;
use refusals::Cause;
use std::fmt;
use visit::Answer;

#[derive(Drop)]
pub enum Reply {
    // the kind that was chosen
    Kind { kind: Kind },
    // the number of a new entry
    Entered { number: usize },
    // what was found for the fault of an entry; its cube is written for so many inputs
    Searched { answer: Answer, inputs: usize },
    // how many entries were marked as covered
    Covered { count: usize },
    // a listing, already written out
    Listing { text: String },
    Refused { cause: Cause },
}

impl fmt::Display for Reply {
    ghost output = { λ r. Some (reply_text r) };

    fn fmt<W: fmt::Write>(&self, f: &mut fmt::Formatter<W>) -> fmt::Result {
        match self {
            Reply::Kind { kind } => writeln!(f, "(kind {kind})"),
            Reply::Entered { number } => writeln!(f, "(entry {number})"),
            Reply::Searched { answer, inputs } => {
                let state = StateText {
                    state: State::from(*answer),
                    inputs: *inputs,
                };
                writeln!(f, "({state})")
            }
            Reply::Covered { count } => writeln!(f, "(covered {count})"),
            Reply::Listing { text } => f.write_str(text.as_str()),
            Reply::Refused { cause } => writeln!(f, "(refused {cause})"),
        }
    }
}
