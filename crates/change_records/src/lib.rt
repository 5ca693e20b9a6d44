//! Laws of the records that a file system writes: the record of each change makes, where it is replayed, exactly the
//! recorded table of the rows after it. Each function does nothing, and its contract is a law.
#![tactic(auto)]

pub mod data;
pub mod grammar;
pub mod names;
pub mod pinned;
pub mod pinned_data;
pub mod trees;
pub mod unrecorded;
