// Why a call says no: one enum for each layer, and `Refusal` above them.
#![tactic(auto)]

pub mod cause;
pub mod layers;

pub use cause::{Cause, Layer, Refusal};
pub use layers::{CircuitRefusal, FolderRefusal, FormRefusal, TextRefusal};
