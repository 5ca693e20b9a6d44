// What is always true of a mounted file system, for its callers' proofs.
ghost use Rattle.std.specs.Prelude.{◌≡◌, ℕ, true, false};
ghost use Rattle.zone_image.specs.Image.{Image};
ghost use Rattle.zone_image.specs.Infos.{IsValidImage};
ghost use Rattle.fs_model.specs.CrashClauses.{Agrees};
ghost use Rattle.change_cover.specs.Rests.{Stands};
ghost use Rattle.fs_tables.specs.MountedTables.{IsSoundState};

use crate::file_system::Fs;
use zoned_device::ZonedDevice;

impl<D: ZonedDevice> Fs<D> {
    /// The files are a table with right sizes, and its zones and its log keep their rules. It does nothing.
    pub fn sound(&self)
        ensures { IsSoundState self.now.state }
    {
        self.tables.valid();
    }

    /// Until a change of the device has failed, the zones and the log are those of the image that stands. It does nothing.
    pub fn agrees(&self)
        ensures { self.now.stopped ≡ false → D.tells → Agrees self.now.state (D.image self.now.device) }
    {
        self.tables.valid();
    }

    /// One that writes stands on its image, until a change of the device has failed: the image has its table at rest, all of
    /// which is shown, and no file has a recovery point. It does nothing.
    pub fn stands(&self)
        ensures { self.now.writing ≡ true → self.now.stopped ≡ false → D.tells → Stands (D.image self.now.device) self.now.state }
    {
        self.tables.valid();
    }

    /// No crash, at whichever moment, finds more zones active than the device's limit, nor a zone with more blocks than its
    /// capacity: what it might have left is an image that a device may have. It does nothing.
    pub fn keeps_limits(&self)
        ensures { (t : ℕ) (j : Image) → D.since self.now.device t j → IsValidImage j }
    {
        self.tables.valid();
    }
}
