// Job lines: what they ask for, and how they are read.
#![tactic(auto)]

pub mod job;
mod numbers;
mod parts;
pub mod reading;

pub use job::{Job, JobLine, Kind};
pub use reading::read_job;
