// What an example works on.
use crate::rounds::{Crashes, Repeat, Stops};
use fs_core::Fs;
use std::alloc::{AllocError, Global};
use zoned_device::{FuseZones, MemZones, ZonedDevice};

/// How many bytes a command prints unless a step says otherwise.
pub const ROOM: usize = 4000;

/// A device that a script has kept under a name.
#[derive(Drop)]
pub struct Saved {
    pub name: String,
    pub dev: MemZones,
}

/// What an example works on: the device or what is mounted of it, what is kept, and how the next steps go.
#[derive(Drop)]
pub struct Machine {
    /// The device, if there is one that isn't mounted.
    pub dev: Option<MemZones>,
    /// The mounted file system, if there is one.
    pub fs: Option<Fs<FuseZones>>,
    /// The devices that are kept, for all examples behind.
    pub saved: Vec<Saved>,
    /// The blocks of the log that is written by hand, and of the one before it.
    pub log: Vec<u8>,
    pub other: Vec<u8>,
    /// The room and the random bits of the next command.
    pub room: usize,
    pub random: u128,
    /// How many calls pass before the device stops.
    pub passes: u64,
    /// Whether it has stopped: the steps up to `leaves` are then left out.
    pub stopped: bool,
    /// A number of calls that was noted.
    pub calls: u64,
    /// The rounds within which the steps are.
    pub repeat: Option<Repeat>,
    pub stops: Option<Stops>,
    pub crashes: Option<Crashes>,
    /// What the last step showed, and how often that was what is counted.
    pub answer: String,
    pub count: u32,
    /// How far a round came: the number of its marks, the last one, the one behind that, and the number in the round before.
    pub marks: u32,
    pub mark: String,
    pub coming: String,
    pub most: u32,
}

impl Machine {
    /// Nothing yet.
    pub fn new(alloc: Global) -> Self {
        Machine {
            dev: None,
            fs: None,
            saved: Vec::new(alloc),
            log: Vec::new(alloc),
            other: Vec::new(alloc),
            room: ROOM,
            random: 0,
            passes: u64::MAX,
            stopped: false,
            calls: 0,
            repeat: None,
            stops: None,
            crashes: None,
            answer: String::new(alloc),
            count: 0,
            marks: 0,
            mark: String::new(alloc),
            coming: String::new(alloc),
            most: 0,
        }
    }

    /// Begins an example: only kept devices are left.
    pub fn begin(&mut self, alloc: Global) {
        self.dev = None;
        self.fs = None;
        self.log = Vec::new(alloc);
        self.other = Vec::new(alloc);
        self.room = ROOM;
        self.random = 0;
        self.count = 0;
        self.most = 0;
        self.end_rounds();
    }

    // Ends all rounds.
    fn end_rounds(&mut self) {
        self.passes = u64::MAX;
        self.stopped = false;
        self.repeat = None;
        self.stops = None;
        self.crashes = None;
    }

    /// The device of which as many calls pass as the round says.
    pub fn fused(&self, dev: MemZones) -> FuseZones {
        let left = self.passes.saturating_sub(dev.tick());
        FuseZones::new(dev, left)
    }

    /// Notes that the device failed, by which a round of stops leaves the work.
    pub fn note_fault(&mut self) {
        if self.passes != u64::MAX {
            self.stopped = true;
        }
    }

    /// Unmounts what is mounted.
    pub fn unmount(&mut self) {
        if let Some(fs) = self.fs.take() {
            self.dev = Some(fs.unmount().into_inner());
        }
    }

    /// A copy of the device, if there is one.
    pub fn copy(&self) -> Result<Option<MemZones>, AllocError> {
        match &self.dev {
            Some(dev) => Ok(Some(dev.copy()?)),
            None => Ok(None),
        }
    }
}
