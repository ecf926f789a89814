// Searching an entry: the visit for its fault, and the answer filed.
ghost use Rattle.std.specs.Prelude.{◌≡◌, ◌<◌, ◌≤◌, length, IfOk, slice_set};
ghost use Rattle.simulator.specs.Callers.{RowKept, SocketEmptied};
ghost use Rattle.visit.specs.Visiting.{answer_tries};
ghost use Rattle.folder.specs.Transitions.{Obeys};
ghost use Rattle.folder.specs.Searching.{filed, budget_in_range, search_allowed, search_entry};

use crate::entry::Entry;
use crate::folder::{Folder, MOST_TRIES};
use crate::state::State;
use refusals::FolderRefusal;
use simulator::Socket;
use values::kind::ValueKind;
use visit::{Answer, visit};

// Whether an entry may be searched with that budget at all.
fn is_in_range(budget: usize) -> bool
    ensures { result ≡ budget_in_range budget }
{
    (1..=MOST_TRIES).contains(&budget)
}

// Whether an entry may be searched with that budget.
fn allow_search(entry: Entry, budget: usize) -> Result<(), FolderRefusal>
    ensures { result ≡ search_allowed entry.state budget }
{
    if entry.is_settled() {
        return Err(FolderRefusal::EntrySettled);
    }
    if !is_in_range(budget) {
        return Err(FolderRefusal::BudgetOutOfRange);
    }
    if budget <= entry.count() {
        return Err(FolderRefusal::BudgetNotAbove);
    }
    Ok(())
}

impl Folder {
    // Searches for a test that drives the fewest inputs, for the fault of the entry of that number, in at most so many
    // tries, and files the answer in the entry. The row must have room for each line of the circuit. (Socket and row are two
    // things of the caller's, each with what becomes of it in a clause: a struct of both would be taken apart in each call.)
    pub fn search<V: ValueKind>(
        &mut self,
        number: usize,
        budget: usize,
        socket: &mut Socket,
        row: &mut [V],
    ) -> Result<Answer, FolderRefusal>
        ensures table { Obeys (search_entry V.ValueKind.kind self.old number budget (length row.old)) self.old.table result self.new.table }
        ensures within { IfOk result (λ a. answer_tries a ≤ budget) }
        ensures circuit { self.new.circuit ≡ self.old.circuit }
        ensures socket { SocketEmptied result socket.old socket.new }
        ensures row { RowKept result row.old row.new }
    {
        let entry = self.entry_at(number)?;
        allow_search(entry, budget)?;
        // by reference: the check does not copy an answer, which holds a cube, where it is passed on and used again
        let answer = &visit(&self.circuit, entry.fault(), budget, socket, row)?;
        self.entries[number] = entry.in_state((*answer).into());
        Ok(*answer)
    }
}
