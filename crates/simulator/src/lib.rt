// Simulation of a circuit under a cube, with the fault that is plugged into a socket.
#![tactic(auto)]

mod cursor;
mod excitation;
pub mod fanout;
mod gates;
mod line_set;
pub mod reach;
pub mod resimulation;
pub mod simulation;
pub mod socket;
pub mod verdict;

pub use fanout::{Fanout, FanoutTable, SmallFanoutTable};
pub use reach::reach_end;
pub use resimulation::{reshows, resimulate};
pub use simulation::{
    allow_row, allow_simulation, drives_beyond, levels_are_logic, simulate, simulate_fault,
    simulation_tells,
};
pub use socket::{Plug, Socket};
pub use verdict::Verdict;
