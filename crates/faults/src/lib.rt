// Stuck-at faults of a circuit, and cubes of its inputs.
#![tactic(auto)]

mod build;
pub mod cube;
pub mod fault;
pub mod stuck_at;

pub use cube::Cube;
pub use fault::{Fault, equal_faults_are_one};
pub use stuck_at::StuckAt;
