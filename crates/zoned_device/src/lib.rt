//! Zoned devices: what a file system may ask of one, and devices in memory.
#![tactic(auto)]

mod calls;
mod counters;
mod device;
mod error;
mod failing;
mod fuse_zones;
mod image_record;
mod mem_zones;
mod memory;
mod step;
mod sure_zones;
mod windows;
mod zone_buffer;

pub use device::ZonedDevice;
pub use error::{DevFault, MakeError, ProbeError};
pub use failing::Failing;
pub use fuse_zones::FuseZones;
pub use mem_zones::MemZones;
pub use sure_zones::SureZones;
pub use windows::{read_blocks, window};
pub use zone_image::{Geometry, Place, ZoneInfo};
