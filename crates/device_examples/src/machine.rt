// What an example works on.
use crate::rounds::Round;
use image_backend::{ImageZones, MemFile};
use std::alloc::Global;
use zoned_device::{FuseZones, MemZones, SureZones};

/// A device of one of the kinds.
#[derive(Drop)]
pub enum Device {
    /// One in memory, whose calls fail where its list says so.
    Memory(MemZones),
    /// The same behind a fuse.
    Fuse(FuseZones),
    /// One in memory that doesn't fail.
    Sure(SureZones),
    /// One over an image in a file in memory, whose calls fail where its list says so.
    Image(ImageZones<MemFile>),
}

/// What an example works on: a device, and the round within which the steps are.
#[derive(Drop)]
pub struct Machine {
    pub device: Option<Device>,
    pub round: Option<Round>,
}

impl Machine {
    /// Nothing yet.
    pub fn new(_: Global) -> Self {
        Machine {
            device: None,
            round: None,
        }
    }

    /// Begins an example: nothing is left of the one before.
    pub fn begin(&mut self) {
        self.device = None;
        self.round = None;
    }
}
