// How entries come to be, and what a caller can ask of one.
ghost use Rattle.std.specs.Prelude.{◌≡◌, ◌≤◌};
ghost use Rattle.folder.specs.Tries.{tries};
ghost use Rattle.folder.specs.Entries.{opened, with_state, state_cube, state_count, state_settled};

use crate::entry::Entry;
use crate::state::State;
use faults::{Cube, Fault};

impl Entry {
    // An open entry of that fault.
    pub(crate) fn new(fault: Fault) -> Entry
        ensures { result ≡ opened fault }
    {
        Entry {
            fault,
            state: State::Open,
        }
    }

    // The entry in another state.
    pub(crate) fn in_state(self, state: State) -> Entry
        requires { tries state ≤ 1000000 }
        ensures { result ≡ with_state self state }
    {
        Entry {
            fault: self.fault,
            state,
        }
    }

    pub fn fault(&self) -> Fault
        ensures { result ≡ self.now.fault }
    {
        self.fault
    }

    // What is known of the fault. Its tries are no more than a budget allows.
    pub fn state(&self) -> State
        ensures value { result ≡ self.now.state }
        ensures few { tries result ≤ 1000000 }
    {
        self.state
    }

    // The cube that the state holds, if it holds one.
    pub fn cube(&self) -> Option<Cube>
        ensures { result ≡ state_cube self.now.state }
    {
        self.state.cube()
    }

    // The tries made, or the number of the entry that covers this one; 0 of an open entry.
    pub fn count(&self) -> usize
        ensures { result ≡ state_count self.now.state }
    {
        self.state.count()
    }

    // Whether nothing is left to do: fewest, redundant or covered.
    pub fn is_settled(&self) -> bool
        ensures { result ≡ state_settled self.now.state }
    {
        matches!(
            self.state,
            State::Fewest { .. } | State::Redundant { .. } | State::Covered { .. }
        )
    }
}
