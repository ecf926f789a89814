// Reads a circuit from its text.
#![tactic(auto)]

mod gates;
mod head;
mod lines;
mod names;
mod parser;
mod pending;
pub mod reading;
pub mod rest;
mod text;
mod tokens;

pub use reading::read;
pub use rest::Rest;
