//! The commands of `zenfs` that make a device and a file system, over any device and any sink.
#![tactic(auto)]

mod device;
mod error;
mod file_system;
mod settings;

pub use device::make_device;
pub use error::{MakeDeviceError, MakeFsError};
pub use file_system::make_fs;
pub use settings::{Settings, new_superblock};
