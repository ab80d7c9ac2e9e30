//! The items of an array text, its image, and its steps.
#![tactic(auto)]

mod expressions;
mod image;
mod lines;
mod parts;
mod steps;
mod values;

pub use image::{image_law, image_of};
pub use steps::steps_of;
