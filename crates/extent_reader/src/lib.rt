//! The bytes of an extent, read from a device.
#![tactic(auto)]

mod extents;
mod parts;
mod zones;

pub use extents::read_extent;
