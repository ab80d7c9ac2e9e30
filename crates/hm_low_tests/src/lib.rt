//! Tests of the crates at the bottom. They stand here, since a crate that has tests is proved twice.
#![tactic(auto)]

#[cfg(test)]
mod tests;
