// Finds the points of a web that a start leads to, and knows nothing of what the points are.
#![tactic(auto)]

pub mod breadth_first;
#[cfg(test)]
mod tests;
mod trail;
pub mod web;
