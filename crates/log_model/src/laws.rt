//! Laws of the definitions. Each function does nothing, and its contract is a law, which callers' proofs may cite.

pub mod appends;
pub mod crashes;
pub mod headroom;
pub mod log_changes;
pub mod mounted_logs;
pub mod mounts;
pub mod new_logs;
pub mod scans;
pub mod selection;
pub mod tables;
