// The visit of cubes that finds a test for a fault which drives as few inputs as any that the value kind shows.
#![tactic(auto)]

pub mod answer;
mod branch;
mod known;
mod progress;
mod setting;
mod trace;
pub mod visiting;

pub use answer::Answer;
pub use known::known_answers;
pub use visiting::visit;
