//! The tables of a file system, read from its log and its zones.
#![tactic(auto)]

mod checks;
mod error;
mod filling;
mod fold;
mod frames;
mod infos;
mod log;
mod log_table;
mod mount;
mod mounted_files;
mod overlap;
mod records;
mod recovered;
mod rules;
mod tables;

pub use error::ReplayError;
pub use mount::{Mounted, replay};
