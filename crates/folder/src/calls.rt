// The calls of a folder.
ghost use Rattle.std.specs.Prelude.{◌≡◌, ◌+◌, ◌<◌, ◌≤◌, [], ◌∷◌, ◌++◌, map, length, is_ok, if◌then◌else◌, vec_len, MatchResult, nat_le};
ghost use Rattle.std.specs.List.{slice_get};
ghost use Rattle.refusals.specs.declared.cause.Refusal.TheVariants.{Memory};
ghost use Rattle.folder.specs.Entries.{opened, has_fault};
ghost use Rattle.folder.specs.Transitions.{Follows, entry_at, enter_fault};

use crate::entry::Entry;
use crate::folder::{Folder, MOST_ENTRIES};
use circuit::Circuit;
use faults::{Fault, StuckAt};
use refusals::{FolderRefusal, Refusal};
use std::alloc::Global;

// Whether some entry has that fault.
fn has_fault(entries: &[Entry], fault: Fault) -> bool
    ensures { result ≡ has_fault entries.now fault }
{
    entries.iter().any(|entry| entry.fault() == fault)
}

// Adds an open entry of the fault at the end, and answers its number.
fn add(entries: &mut Vec<Entry>, fault: Fault) -> Result<usize, Refusal>
    ensures value { MatchResult result (λ n. n ≡ vec_len entries.old) (λ e. e ≡ Memory) }
    ensures items { entries.new.items ≡ (if is_ok result then entries.old.items ++ (opened fault ∷ []) else entries.old.items) }
{
    let number = entries.len();
    entries.push(Entry::new(fault))?;
    Ok(number)
}

impl Folder {
    // An empty folder for that circuit.
    pub fn new(heap: Global, circuit: Circuit) -> Folder
        ensures table { result.table ≡ [] }
        ensures circuit { result.circuit ≡ circuit }
    {
        Folder {
            circuit,
            entries: Vec::new(heap),
        }
    }

    // The circuit that the folder is for.
    pub fn circuit(&self) -> &Circuit
        ensures { result.now ≡ self.now.circuit }
    {
        &self.circuit
    }

    // The table, in the order in which the faults were entered.
    pub fn entries(&self) -> &[Entry]
        ensures value { result.now ≡ self.now.table }
        ensures bound { length result.now ≤ 512 }
    {
        self.entries.as_slice()
    }

    // The entry of that number.
    pub fn entry(&self, number: usize) -> Option<Entry>
        ensures { result ≡ slice_get self.now.table number }
    {
        self.entries.get(number).copied()
    }

    // The entry of that number, or the refusal where there is none.
    pub(crate) fn entry_at(&self, number: usize) -> Result<Entry, FolderRefusal>
        ensures value { result ≡ entry_at self.now.table number }
        ensures inside { MatchResult result (λ _. number < length self.now.table) (λ _. length self.now.table ≤ number) }
    {
        self.entry(number).ok_or(FolderRefusal::NoSuchEntry)
    }

    // Whether the table has no room left.
    fn is_full(&self) -> bool
        ensures { result ≡ nat_le 512 (length self.now.table) }
    {
        self.entries.len() >= MOST_ENTRIES
    }

    // Adds an open entry for the fault that is asked for, and answers its number. (That the circuit stays is a clause by itself
    // in each call, since the definitions say what becomes of the table: a word for it would be no shorter.)
    pub fn enter(&mut self, asked: StuckAt) -> Result<usize, Refusal>
        ensures table { Follows (enter_fault self.old asked.line asked.pin asked.level) self.old.table result self.new.table }
        ensures circuit { self.new.circuit ≡ self.old.circuit }
    {
        let fault = Fault::new(&self.circuit, asked)?;
        if has_fault(&self.entries, fault) {
            return Err(FolderRefusal::AlreadyEntered.into());
        }
        if self.is_full() {
            return Err(FolderRefusal::FolderFull.into());
        }
        add(&mut self.entries, fault)
    }
}
