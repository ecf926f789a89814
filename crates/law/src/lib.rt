// The law of the folder: what its entries say of vectors and cubes, after any calls.
#![tactic(auto)]

pub mod call;
mod known;
mod performing;

pub use call::{Call, Outcome};
pub use known::known_history;
pub use performing::perform;
