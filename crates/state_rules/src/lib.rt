//! Rules that the tables of every mounted file system keep, and laws that each step of the model keeps them. Each
//! function does nothing, and its contract is a law.
#![tactic(auto)]

pub mod data;
pub mod names;
pub mod owners;
pub mod points;
pub mod unbroken;
pub mod writing;
pub mod zones;
