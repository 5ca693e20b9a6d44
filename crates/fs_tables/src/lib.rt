//! The tables of a mounted file system in memory, and the steps that change them.
#![tactic(auto)]

mod blocks;
mod changes;
mod files;
mod log_steps;
mod needs;
mod records;
mod release;
mod tables;
mod zone_steps;

pub use blocks::ChangeNeed;
pub use tables::FsTables;
