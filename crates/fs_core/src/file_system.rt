// The mounted file system.
use fs_tables::FsTables;
use std::marker::Model;
use zoned_device::ZonedDevice;

/// A file system that is mounted on a device, which it owns. Contracts see its state, whether it writes, whether a
/// change of its device has failed (it is stopped then, and writes nothing any more), and the device.
#[derive(Drop)]
pub struct Fs<D: ZonedDevice> {
    pub(crate) dev: D,
    pub(crate) tables: FsTables,
    /// One block, for reads that aren't of whole blocks.
    pub(crate) block: Vec<u8>,
    pub(crate) writing: bool,
    pub(crate) stopped: bool,
}

impl<D: ZonedDevice> Model for Fs<D> {
    ghost use Rattle.std.specs.Prelude.{◌≡◌, length};
    ghost use Rattle.fs_core.specs.FsValue.{FsValue, IsMounted};

    ghost Value = { FsValue D };

    ghost view = { λ f. record {
      state = f.tables.state;
      writing = f.writing;
      stopped = f.stopped;
      device = f.dev;
    } };

    ghost invariant = { λ f.
        IsMounted D.known D.geometry D.infos D.tells D.image (record {
          state = f.tables.state;
          writing = f.writing;
          stopped = f.stopped;
          device = f.dev;
        })
        × (length f.block.items ≡ f.tables.state.geometry.block) };
}
