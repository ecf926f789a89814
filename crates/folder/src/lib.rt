// The folder of a circuit: its faults, each with what is known of it.
#![tactic(auto)]

mod calls;
mod cover;
mod entries;
pub mod entry;
pub mod folder;
mod search;
pub mod state;

pub use entry::Entry;
pub use folder::{Folder, MOST_ENTRIES, MOST_TRIES};
pub use state::State;
