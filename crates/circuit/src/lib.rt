// Circuits of gates: tables of inputs, gates and outputs under the rules that every circuit keeps.
#![tactic(auto)]

mod build;
pub mod circuit;
pub mod gate;
pub mod name;
pub mod op;
mod questions;
mod rules;
pub mod tables;

pub use circuit::Circuit;
pub use gate::Gate;
pub use name::Name;
pub use op::Op;
pub use rules::{MOST_INPUTS, MOST_LINES, MOST_OUTPUTS};
pub use tables::Tables;
