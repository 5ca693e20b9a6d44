//! A mounted file system.
#![tactic(auto)]

mod beginning;
mod change_names;
mod check;
mod creating;
mod dead_zones;
mod deleting;
mod error;
mod file_system;
mod granting;
mod linking;
mod mount;
mod mount_write;
mod new_log;
mod prepared;
mod queries;
mod reading;
mod renaming;
mod settled_tables;
mod shown;
mod standing;
mod storing;
mod tables;

pub use check::Change;
pub use error::{MountError, ReadError, Refused};
pub use file_system::Fs;
