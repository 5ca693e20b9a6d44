//! The meaning of a mounted file system: its state, the policy of zones, the trace of each
//! operation, and the histories that callers may see.
#![tactic(auto)]

mod error;
pub mod frames;
pub mod laws;
mod operations;
mod policy;
pub mod trees;
mod zones;

pub use error::FsError;
pub use operations::{Changes, Entry, Made, Op, Reply, Step};
pub use policy::{Before, Choice, Plan, Space};
pub use zones::{Move, Owner, ZoneState};
