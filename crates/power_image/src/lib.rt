//! Zoned devices kept in an image file that survives a loss of power.
#![tactic(auto)]

mod changes;
mod counts;
mod describing;
mod descriptor;
mod format;
pub mod laws;
mod making;
mod power_file;
mod power_mem;
mod power_zones;
mod reads;
mod scanning;
mod table;

pub use image_backend::{ByteFile, FileFault, SetLenError};
pub use power_file::PowerFile;
pub use power_mem::PowerMem;
pub use power_zones::PowerZones;
