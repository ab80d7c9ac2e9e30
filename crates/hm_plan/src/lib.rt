//! The planner: the schedule of an image that overlaps instructions wherever it may.
#![tactic(auto)]

mod lines;
mod planning;

pub use planning::plan;
