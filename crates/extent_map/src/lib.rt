//! The table of files in memory: entries as they are recorded, with what isn't recorded yet.
#![tactic(auto)]

mod apply;
mod change;
mod change_lengths;
mod clearing;
mod copies;
mod create;
mod data_records;
mod error;
mod extent_lengths;
mod extents;
mod holders;
mod lengths;
mod links;
mod locate;
mod lookups;
mod moves;
mod name_lengths;
mod name_lists;
mod name_records;
mod order;
mod place;
mod records;
mod repeated_names;
mod room;
mod row;
mod rows_after;
mod setting;
mod sizes;
mod snapshot;
mod table;
mod taken;
mod valid;

pub use change_lengths::{ChangeLengths, deletion_bytes};
pub use error::{ApplyError, Moved, TableError};
pub use extent_lengths::ExtentLengths;
pub use fs_model::Move;
pub use record_model::{Extent, Extents, FileEntry, Files, Name, Names, Record};
pub use table::FileTable;
