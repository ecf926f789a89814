// Performing a call.
ghost use Rattle.std.specs.Prelude.{◌≡◌, length, true};
ghost use Rattle.simulator.specs.Callers.{RowKept, SocketStaysEmpty};
ghost use Rattle.law.specs.Histories.{event_of, takes_memory, Step};
ghost use Rattle.law.specs.Sound.{EntriesStay, KeepsLaw};

use crate::call::{Call, Outcome};
use folder::Folder;
use refusals::Refusal;
use simulator::Socket;
use values::kind::ValueKind;

// Performs a call on the folder, under the kind of the row's values. Its contract says what the call does, by the
// definitions (step), that the law of the folder outlasts it (law), and that settled entries stay as they are (settled). (Socket and
// row are two parameters: each has a clause, and a struct of both would be taken apart for each call.)
pub fn perform<V: ValueKind>(
    folder: &mut Folder,
    call: Call,
    socket: &mut Socket,
    row: &mut [V],
) -> Result<Outcome, Refusal>
    ensures step { Step V.ValueKind.kind folder.old.circuit (event_of call (length row.old) result) folder.old.table folder.new.table }
    ensures law { KeepsLaw V.ValueKind.kind folder.old (event_of call (length row.old) result) folder.new }
    ensures settled { EntriesStay folder.old.table folder.new.table }
    ensures circuit { folder.new.circuit ≡ folder.old.circuit }
    ensures socket { SocketStaysEmpty result socket.old socket.new }
    ensures row { RowKept result row.old row.new }
    ensures untouched { takes_memory call ≡ true → (socket.new ≡ socket.old) × (row.new ≡ row.old) }
{
    match call {
        Call::Enter { fault } => {
            let number = folder.enter(fault)?;
            Ok(Outcome::Entered { number })
        }
        Call::Search { number, budget } => {
            let answer = folder.search(number, budget, socket, row)?;
            Ok(Outcome::Searched { answer })
        }
        Call::Cover { number } => {
            let count = folder.cover(number, socket, row)?;
            Ok(Outcome::Covered { count })
        }
    }
}
