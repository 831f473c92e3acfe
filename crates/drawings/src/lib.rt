//! Small schemas, and what the verdict and the question say of each.
#![tactic(auto)]

mod given;
pub mod saying;
#[cfg(test)]
mod tests;
pub mod told;
