// A session: a folder, the kind that was chosen for it, and the job lines that are answered one after the other.
#![tactic(auto)]

mod answer;
mod lines;
pub mod opening;
pub mod reply;
pub mod session;
mod work;

pub use opening::{Opening, open, open_in};
pub use reply::Answer;
pub use session::Session;
