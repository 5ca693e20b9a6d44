//! Zoned devices kept in an image file.
#![tactic(auto)]

mod access;
mod byte_file;
mod changes;
mod counts;
mod disk_file;
mod format;
mod image_zones;
mod making;
mod mem_file;
mod reads;
mod scanning;
mod table;

pub use access::Access;
pub use byte_file::{ByteFile, FileFault, SetLenError};
pub use disk_file::DiskFile;
pub use image_zones::ImageZones;
pub use making::{ImageError, make_image};
pub use mem_file::MemFile;
