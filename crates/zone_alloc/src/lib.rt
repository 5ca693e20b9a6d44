//! The zones of a file system: which one a writer gets, which one is collected, and what space is left.
#![tactic(auto)]

mod choosing;
mod collecting;
mod extent;
mod finishing;
mod space;
mod walks;
mod zone;
mod zone_table;
mod zone_test;

pub use zone_table::ZoneTable;
