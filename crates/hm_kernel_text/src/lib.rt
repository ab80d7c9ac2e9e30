//! Texts of the array language as bytes: their grammar, and reading them with the first refusal.
#![tactic(auto)]

mod errors;
mod laws;
mod lines;
mod names;
mod reading;
mod shape;
mod tree;
mod words;

pub use errors::{KernelErr, KernelKind};
pub use laws::kernel_text_law;
pub use reading::read_kernel;
