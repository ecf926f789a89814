// A folder owns the circuit that it is for, and has a table of entries, numbered from 0 as they were entered.
use crate::entry::Entry;
use circuit::Circuit;
use std::marker::Model;

pub const MOST_ENTRIES: usize = 512;

// The largest budget of tries.
pub const MOST_TRIES: usize = 1_000_000;

#[derive(Drop)]
pub struct Folder {
    pub(crate) circuit: Circuit,
    pub(crate) entries: Vec<Entry>,
}

// A contract sees a folder as the definitions speak of it.
impl Model for Folder {
    ghost use Rattle.std.specs.Prelude.{◌≤◌, length};
    ghost use Rattle.folder.specs.Folders.{Folder as Described};

    ghost Value = { Described };

    ghost view = { λ f. record { circuit = f.circuit; table = f.entries.items } };

    ghost invariant = { λ f. length f.entries.items ≤ 512 };
}
