// Why nothing is made.
use thiserror::Error;

/// Why no device is made.
#[derive(Clone, Copy, Debug, PartialEq, Eq, Error)]
pub enum MakeDeviceError {
    /// The device failed.
    #[error("device fault")]
    DeviceFault,
    /// The device is made, and the output failed.
    #[error("output fault")]
    OutputFault,
    /// Memory is wanting.
    #[error("out of memory")]
    NoMemory,
    /// An image is there.
    #[error("image exists")]
    ImageExists,
    /// The five numbers are no geometry.
    #[error("bad geometry")]
    BadGeometry,
}

/// Why no file system is made.
#[derive(Clone, Copy, Debug, PartialEq, Eq, Error)]
pub enum MakeFsError {
    /// The device failed.
    #[error("device fault")]
    DeviceFault,
    /// The file system is made, and the output failed.
    #[error("output fault")]
    OutputFault,
    /// Memory is wanting.
    #[error("out of memory")]
    NoMemory,
    /// No image is there.
    #[error("not a zoned image")]
    NotAnImage,
    /// A metadata zone begins with a superblock's magic number.
    #[error("file system exists in zone {zone}")]
    FsExists {
        /// The lowest such zone.
        zone: u32,
    },
}
