// Opening a session for the circuit of a text.
ghost use Rattle.session.specs.Openings.{Opens, OpensDescribed};

use crate::session::Session;
use circuit::Circuit;
use folder::Folder;
use reader::{Rest, read};
use refusals::Refusal;
use replies::Reply;
use std::alloc::Global;

// What a text opens.
#[derive(Drop)]
pub enum Opening<'a> {
    // a session for its circuit, and the rest of the text: the job lines
    Session { session: Session, rest: Rest<'a> },
    // the reply to a circuit that is refused
    Refused { reply: Reply },
}

// Opens a session for the circuit at the front of the text: its folder is empty, and no kind is chosen.
pub fn open(heap: Global, text: &[u8]) -> Result<Opening<'_>, Refusal>
    ensures opens { Opens text.now result }
    ensures described { OpensDescribed text.now result }
{
    open_in(heap, Circuit::blank(heap)?, text)
}

// The same in a circuit of the caller's, which takes on what the text describes, whatever it was before.
pub fn open_in(heap: Global, circuit: Circuit, text: &[u8]) -> Result<Opening<'_>, Refusal>
    ensures opens { Opens text.now result }
    ensures described { OpensDescribed text.now result }
{
    let mut circuit = circuit;
    match read(heap, text, &mut circuit) {
        Ok(rest) => {
            let session = Session::new(Folder::new(heap, circuit));
            Ok(Opening::Session { session, rest })
        }
        Err(refusal) => {
            let cause = refusal.cause().ok_or(refusal)?;
            let reply = Reply::Refused { cause };
            Ok(Opening::Refused { reply })
        }
    }
}
