//! Layers over any sheet: trials, which add rows, and strikes, which hide some; piles of them, and their whole life.
#![tactic(auto)]

pub mod faults;
pub mod layer;
pub mod layered;
pub mod limits;
pub mod loading;
mod looks;
pub mod part;
pub mod pile;
pub mod request;
pub mod strike;
#[cfg(test)]
mod tests;
pub mod trial;
