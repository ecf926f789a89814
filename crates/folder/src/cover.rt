// Covering: the cube of one entry against the faults of the others.
ghost use Rattle.std.specs.Prelude.{◌≡◌, ◌≤◌, false, map, length, Some, None};
ghost use Rattle.std.specs.List.{count_by};
ghost use Rattle.simulator.specs.Detection.{detected, verdict};
ghost use Rattle.simulator.specs.Simulation.{drives_beyond};
ghost use Rattle.simulator.specs.Callers.{HasRoom, RowKept, SocketStaysEmpty};
ghost use Rattle.folder.specs.Transitions.{Obeys};
ghost use Rattle.folder.specs.Covering.{fewest_cube, is_covered, marked, cover_entry};

use crate::entry::Entry;
use crate::folder::Folder;
use crate::state::State;
use circuit::Circuit;
use faults::{Cube, Fault};
use refusals::FolderRefusal;
use simulator::{Socket, Verdict, allow_simulation, simulate_fault};
use values::kind::ValueKind;

// The cube of an entry that is fewest.
fn fewest_cube(entry: Entry) -> Result<Cube, FolderRefusal>
    ensures { result ≡ fewest_cube entry.state }
{
    match entry.state() {
        State::Fewest { cube, .. } => Ok(cube),
        _ => Err(FolderRefusal::EntryNotFewest),
    }
}

// The cube of the entry of that number, against the faults of the others. (The row, which each simulation writes, stays a
// parameter: beside it in a struct, each method would have to say that the other parts stay.)
#[derive(Clone, Copy)]
struct Covering<'a> {
    circuit: &'a Circuit,
    number: usize,
    cube: Cube,
    ghost inside: { drives_beyond circuit.now cube ≡ false },
}

impl Covering<'_> {
    // Whether the kind shows the cube to detect the fault.
    fn detects<V: ValueKind>(&self, fault: Fault, socket: &mut Socket, row: &mut [V]) -> bool
        requires { HasRoom self.now.circuit.now row.old }
        ensures value { result ≡ detected V.ValueKind.kind self.now.circuit.now (Some fault) self.now.cube }
        ensures empty { socket.new.fault ≡ None }
    {
        matches!(
            simulate_fault(self.circuit, self.cube, fault, socket, row),
            Ok(Verdict::Shows)
        )
    }

    // Marks the entry as covered, if it is open or spent and the kind shows the cube to detect its fault; whether it was
    // marked.
    fn mark<V: ValueKind>(&self, entry: &mut Entry, socket: &mut Socket, row: &mut [V]) -> bool
        requires { HasRoom self.now.circuit.now row.old }
        ensures value { result ≡ is_covered V.ValueKind.kind self.now.circuit.now self.now.cube entry.old }
        ensures marks { entry.new ≡ marked V.ValueKind.kind self.now.circuit.now self.now.number self.now.cube entry.old }
        ensures socket { socket.old.fault ≡ None → socket.new.fault ≡ None }
    {
        if entry.is_settled() || !self.detects(entry.fault(), socket, row) {
            return false;
        }
        *entry = entry.in_state(State::Covered { by: self.number });
        true
    }

    // Marks each entry that the cube covers, and counts them. (In a loop: of the entries that a chain over `iter_mut` wrote, a
    // proof knows nothing afterwards.)
    fn mark_all<V: ValueKind>(
        &self,
        entries: &mut [Entry],
        socket: &mut Socket,
        row: &mut [V],
    ) -> usize
        requires { HasRoom self.now.circuit.now row.old }
        ensures value { result ≡ count_by (is_covered V.ValueKind.kind self.now.circuit.now self.now.cube) entries.old }
        ensures marks { entries.new ≡ map (marked V.ValueKind.kind self.now.circuit.now self.now.number self.now.cube) entries.old }
        ensures socket { socket.old.fault ≡ None → socket.new.fault ≡ None }
    {
        let mut count = 0;
        for entry in entries.iter_mut() {
            if self.mark(entry, socket, row) {
                count += 1;
            }
        }
        count
    }
}

impl Folder {
    // Marks each open or spent entry whose fault the kind shows the cube of the entry of that number to detect, and
    // answers how many it marked. The row must have room for each line of the circuit.
    pub fn cover<V: ValueKind>(
        &mut self,
        number: usize,
        socket: &mut Socket,
        row: &mut [V],
    ) -> Result<usize, FolderRefusal>
        ensures table { Obeys (cover_entry V.ValueKind.kind self.old number (length row.old)) self.old.table result self.new.table }
        ensures circuit { self.new.circuit ≡ self.old.circuit }
        ensures socket { SocketStaysEmpty result socket.old socket.new }
        ensures row { RowKept result row.old row.new }
    {
        let entry = self.entry_at(number)?;
        let cube = fewest_cube(entry)?;
        allow_simulation(&self.circuit, cube, row.len())?;
        let covering = Covering {
            circuit: &self.circuit,
            number,
            cube,
        };
        Ok(covering.mark_all(self.entries.as_mut_slice(), socket, row))
    }
}
