// A file system is mounted for writing.
ghost use Rattle.std.specs.Prelude.{◌≡◌, ◌↔◌, true, false, Ok, Err, IfErr, IfOk, IsErrOf, OnErr, OnOk};
ghost use Rattle.zone_image.specs.Counts.{HasCause};
ghost use Rattle.zone_image.specs.Image.{Image, IsCrash};
ghost use Rattle.zone_image.specs.Moments.{LeavesOnly};
ghost use Rattle.log_model.specs.Mounted.{tree_of};
ghost use Rattle.fs_model.specs.CrashClauses.{IsCovered};
ghost use Rattle.fs_model.specs.FsState.{recorded};
ghost use Rattle.fs_model.specs.Trace.{Refines};
ghost use Rattle.fs_model.specs.TreeSteps.{mount_write};
ghost use Rattle.zoned_device.specs.DeviceSteps.{MayCount};
ghost use Rattle.change_cover.specs.MountRoom.{MayMount};
ghost use Rattle.change_cover.specs.SameTrees.{MountsTheSame};
ghost use Rattle.fs_core.specs.Beginning.{IsBeforehand, IsReady, LeftByBeginning, stopped_by};
ghost use Rattle.fs_core.specs.Changing.{IsUnwritten};

use crate::beginning::begin_to_write;
use crate::file_system::Fs;
use crate::new_log::{NewLog, spell_log};
use fs_model::FsError;
use fs_tables::FsTables;
use std::alloc::Global;
use zoned_device::ZonedDevice;

// The memory for a mount that begins to write, where a sequence is left and a log can take the table.
fn prepare_log(alloc: Global, tables: &FsTables) -> Result<NewLog, FsError>
    ensures may { OnOk result (MayMount tables.now.state) }
    ensures ready { IfOk result (λ log. IsReady tables.now.state log.snapshot log.buffer) }
    ensures refused { IfErr result (λ why. Refines mount_write tables.now.state (Err why) tables.now.state) }
    ensures beforehand { IfErr result IsBeforehand }
{
    if tables.at_sequence_end() {
        return Err(FsError::SequenceEnd);
    }
    let need = tables.mount_need();
    let capacity = tables.geometry().capacity;
    if u64::from(capacity) < need {
        return Err(FsError::MetaFull { need, capacity });
    }
    match spell_log(alloc, tables) {
        Ok(log) => Ok(log),
        Err(_) => Err(FsError::NoMemory),
    }
}

impl<D: ZonedDevice> Fs<D> {
    /// Mounts for writing: nothing is pending afterwards, no file has a recovery point, the table is in a new log, and the
    /// zones that nothing needs are empty (clause `steps`). What is mounted stays the same: a crash at any moment is one of the
    /// image at entry, or mounts to exactly its tree (`any_moment`, `stands`), and after Ok each crash mounts to it (`tree`).
    ///
    /// `Stopped` comes exactly where an earlier change has failed. `SequenceEnd` and `MetaFull` come where no sequence is left,
    /// and else where a new log can't take the table with its greatest record; `NoMemory` where memory is wanting. After these
    /// nothing is changed (`unwritten`). `DevFault` comes only where the device's count of faults rose; the mount is stopped
    /// then. What is recorded has its bytes, whatever the answer (`bytes`).
    pub fn mount_write(&mut self, alloc: Global) -> Result<(), FsError>
        requires { self.old.writing ≡ false }
        ensures steps { Refines mount_write self.old.state result self.new.state }
        ensures refuses { IsErrOf result FsError.Stopped ↔ (self.old.stopped ≡ true) }
        ensures writes { OnOk result (self.new.writing ≡ true) }
        ensures reads { OnErr result (self.new.writing ≡ false) }
        ensures stopped { self.new.stopped ≡ stopped_by self.old.stopped result }
        ensures unwritten { IsUnwritten result → (self.new.state ≡ self.old.state) × (self.new.device ≡ self.old.device) }
        ensures cause { HasCause (D.faults self.old.device) (D.faults self.new.device) (IsErrOf result FsError.DevFault) }
        ensures changes { MayCount (D.failed_changes self.old.device) (D.failed_changes self.new.device) (IsErrOf result FsError.DevFault) }
        ensures bytes { D.tells → tree_of (D.image self.new.device) (recorded self.new.state) ≡ tree_of (D.image self.old.device) (recorded self.new.state) }
        ensures any_moment { LeavesOnly D.tick D.since self.old.device self.new.device (λ j. self.old.stopped ≡ false → LeftByBeginning (D.image self.old.device) j) }
        ensures stands { D.tells → (j : Image) → IsCrash (D.image self.new.device) j → self.old.stopped ≡ false → LeftByBeginning (D.image self.old.device) j }
        ensures tree { OnOk result (D.tells → (j : Image) → IsCrash (D.image self.new.device) j → MountsTheSame (D.image self.old.device) j) }
    {
        if self.stopped {
            return Err(FsError::Stopped);
        }
        let mut log = match prepare_log(alloc, &self.tables) {
            Ok(log) => log,
            Err(why) => return Err(why),
        };
        match begin_to_write(&mut self.dev, &mut self.tables, &mut log) {
            Ok(()) => {
                self.writing = true;
                Ok(())
            }
            Err(_) => {
                self.stopped = true;
                Err(FsError::DevFault)
            }
        }
    }

    /// Between two calls of a mount that writes, and whose changes haven't failed, the image covers the state: it agrees with
    /// it and mounts to the tree that is shown, and so does whatever a crash leaves of it.
    pub fn covered(&self)
        requires writing { self.now.writing ≡ true }
        requires running { self.now.stopped ≡ false }
        ensures { D.tells → IsCovered (IsCrash (D.image self.now.device)) self.now.state (D.image self.now.device) }
    {
        self.tables.valid();
    }
}
