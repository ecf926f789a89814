// An entry of the folder: a fault, and its state.
use crate::state::State;
use faults::Fault;
use std::marker::Model;

#[derive(Clone, Copy, Debug, PartialEq, Eq)]
pub struct Entry {
    pub(crate) fault: Fault,
    pub(crate) state: State,
}

// A contract sees an entry as its two parts. No budget allows more tries than a million.
impl Model for Entry {
    ghost use Rattle.std.specs.Prelude.{◌≤◌};
    ghost use Rattle.folder.specs.Entries.{Entry as Described};

    ghost Value = { Described };

    ghost use Rattle.folder.specs.Tries.{tries};

    ghost view = { λ e. record { fault = e.fault; state = e.state } };

    ghost invariant = { λ e. tries e.state ≤ 1000000 };

    ghost inverse = { λ e. record { fault = e.fault; state = e.state } };
}
