// What is asked of a mounted file system.
ghost use Rattle.std.specs.Prelude.{◌≡◌, ◌+◌, ◌/◌, ◌%◌, ◌≤◌, ◌<◌, length, IsErr, OnOk};
ghost use Rattle.zone_image.specs.Changes.{bytes_at};
ghost use Rattle.zone_image.specs.Counts.{HasCause};
ghost use Rattle.zone_image.specs.Infos.{info_at};
ghost use Rattle.zone_image.specs.Image.{IsCrash};
ghost use Rattle.zoned_device.specs.Window.{window};
ghost use Rattle.zone_image.specs.Moments.{LeavesOnly};
ghost use Rattle.fs_model.specs.FsState.{collects, zone_states};
ghost use Rattle.fs_model.specs.ZonePolicy.{space};

use crate::file_system::Fs;
use extent_map::FileTable;
use fs_model::Space;
use log_model::Chosen;
use superblock_core::Superblock;
use zone_alloc::ZoneTable;
use zone_image::Geometry;
use zoned_device::{DevFault, ZonedDevice};

impl<D: ZonedDevice> Fs<D> {
    /// The shape of the device.
    pub fn geometry(&self) -> Geometry
        ensures { result ≡ self.now.state.geometry }
    {
        self.tables.geometry()
    }

    /// The files.
    pub fn files(&self) -> &FileTable
        ensures files { result.now.rows ≡ self.now.state.rows }
        ensures greatest { result.now.greatest ≡ self.now.state.greatest }
    {
        self.tables.files()
    }

    /// The zones, with their owners, hints and live blocks and bytes.
    pub fn zones(&self) -> &ZoneTable
        ensures zones { result.now.zones ≡ zone_states self.now.state }
        ensures geometry { result.now.geometry ≡ self.now.state.geometry }
        ensures collect { result.now.collect ≡ collects self.now.state }
    {
        self.tables.zones()
    }

    /// The log as it stands.
    pub fn log(&self) -> &Chosen
        ensures { result.now ≡ self.now.state.log }
    {
        self.tables.log()
    }

    /// The superblock of the log.
    pub fn superblock(&self) -> &Superblock
        ensures { result.now ≡ self.now.state.log.superblock }
    {
        &self.tables.log().superblock
    }

    /// The figures of space.
    pub fn space(&self) -> Space
        ensures { result ≡ space self.now.state.geometry (zone_states self.now.state) }
    {
        self.tables.zones().space()
    }

    /// Whether it is mounted for writing.
    pub fn writing(&self) -> bool
        ensures { result ≡ self.now.writing }
    {
        self.writing
    }

    /// The tick of the device.
    pub fn tick(&self) -> u64
        ensures { result ≡ D.tick self.now.device }
    {
        self.dev.tick()
    }

    /// The device's count of faults.
    pub fn faults(&self) -> u64
        ensures { result ≡ D.faults self.now.device }
    {
        self.dev.faults()
    }

    /// The device's count of failed changes.
    pub fn failed_changes(&self) -> u64
        ensures { result ≡ D.failed_changes self.now.device }
    {
        self.dev.failed_changes()
    }

    /// Gives the device back. Nothing is written.
    pub fn unmount(self) -> D
        ensures device { result ≡ self.device }
        ensures known { D.known result }
    {
        self.dev
    }

    /// Reads whole blocks of a zone, from this block on, at most `zoned_device::window` of them. After a fault the bytes of
    /// `out` are open.
    pub fn read_block(&mut self, zone: u32, block: u32, out: &mut [u8]) -> Result<(), DevFault>
        requires is_zone { zone < self.old.state.geometry.zones }
        requires whole { length out.old % self.old.state.geometry.block ≡ 0 }
        requires written { block + length out.old / self.old.state.geometry.block ≤ (info_at (D.infos self.old.device) zone).written }
        requires window { length out.old / self.old.state.geometry.block ≤ window self.old.state.geometry }
        ensures bytes { OnOk result (D.tells → out.new ≡ bytes_at (D.image self.old.device) zone block (length out.old / self.old.state.geometry.block)) }
        ensures state { self.new.state ≡ self.old.state }
        ensures mode { (self.new.writing ≡ self.old.writing) × (self.new.stopped ≡ self.old.stopped) }
        ensures same_image { D.tells → D.image self.new.device ≡ D.image self.old.device }
        ensures any_moment { LeavesOnly D.tick D.since self.old.device self.new.device (IsCrash (D.image self.old.device)) }
        ensures changes { D.failed_changes self.new.device ≡ D.failed_changes self.old.device }
        ensures cause { HasCause (D.faults self.old.device) (D.faults self.new.device) (IsErr result) }
    {
        self.dev.read(zone, block, out)
    }
}
