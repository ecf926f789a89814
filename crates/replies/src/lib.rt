// What the program writes: one value for each reply, with the bytes it is written as.
#![tactic(auto)]

pub mod cube_text;
pub mod entry_line;
pub mod listing;
pub mod reply;
pub mod state_text;

pub use cube_text::CubeText;
pub use reply::Reply;
