// The names of a mounted file system are changed.
ghost use Rattle.std.specs.Prelude.{◌≡◌, ◌↔◌, ◌+◌, ◌≤◌, ◌⊎◌, ◌∷◌, [], true, false, IsErrOf, OnOk};
ghost use Rattle.zone_image.specs.Counts.{HasCause};
ghost use Rattle.zone_image.specs.Image.{Image, IsCrash};
ghost use Rattle.zone_image.specs.Moments.{LeavesOnly};
ghost use Rattle.log_model.specs.FileTree.{apply};
ghost use Rattle.log_model.specs.FileTree.Change.{Create, Link, Rename, Unlink};
ghost use Rattle.log_model.specs.Mounted.{tree_of};
ghost use Rattle.fs_model.specs.CrashClauses.{shown_tree};
ghost use Rattle.fs_model.specs.FsState.{recorded};
ghost use Rattle.fs_model.specs.Trace.{Refines};
ghost use Rattle.fs_model.specs.TreeSteps.{create, delete, link, rename};
ghost use Rattle.zoned_device.specs.DeviceSteps.{MayCount};
ghost use Rattle.fs_core.specs.Beginning.{stopped_by};
ghost use Rattle.fs_core.specs.Changing.{IsUnwritten, LeavesAfter, LeavesBoth};

use crate::creating::create_file;
use crate::deleting::delete_name;
use crate::file_system::Fs;
use crate::linking::link_name;
use crate::renaming::rename_name;
use fs_model::FsError;
use record_model::Name;
use std::alloc::Global;
use zoned_device::ZonedDevice;

// Whether a mount that wrote is stopped after this answer.
fn stops<T>(answer: &Result<T, FsError>) -> bool
    ensures { result ≡ stopped_by false answer.now }
{
    matches!(answer, Err(FsError::DevFault))
}

impl<D: ZonedDevice> Fs<D> {
    /// Makes an empty file of a name, and answers its id, one more than the greatest since the mount.
    ///
    /// `Stopped` comes exactly where an earlier change has failed (`refuses`). `Exists` comes where a file has the
    /// name, and else `IdsEnd` where the greatest id is used. `SequenceEnd` comes where the record has to roll the log
    /// and no sequence is left, `MetaFull` where the change needs more blocks than a log has, and `NoMemory` where
    /// memory is wanting. After these nothing is changed (`unwritten`). `DevFault` comes only where the device's count
    /// of faults rose; the mount is stopped then. What is recorded in the end has its bytes (`bytes`). A crash at any
    /// moment leaves the tree that was shown, or that tree with the change (`any_moment`, `stands`); after Ok that tree
    /// with the change is shown (`shown`) and left (`done`). After a fault a crash leaves it too, or the state is the
    /// old one (`failed`).
    pub fn create(
        &mut self,
        alloc: Global,
        name: Name,
        hint: u32,
        sparse: bool,
        time: u64,
    ) -> Result<u64, FsError>
        requires writing { self.old.writing ≡ true }
        requires hint { hint ≤ 5 }
        ensures steps { Refines (create name hint sparse time) self.old.state result self.new.state }
        ensures refuses { IsErrOf result FsError.Stopped ↔ (self.old.stopped ≡ true) }
        ensures mode { self.new.writing ≡ self.old.writing }
        ensures stopped { self.new.stopped ≡ stopped_by self.old.stopped result }
        ensures unwritten { IsUnwritten result → (self.new.state ≡ self.old.state) × (self.new.device ≡ self.old.device) }
        ensures cause { HasCause (D.faults self.old.device) (D.faults self.new.device) (IsErrOf result FsError.DevFault) }
        ensures changes { MayCount (D.failed_changes self.old.device) (D.failed_changes self.new.device) (IsErrOf result FsError.DevFault) }
        ensures bytes { D.tells → tree_of (D.image self.new.device) (recorded self.new.state) ≡ tree_of (D.image self.old.device) (recorded self.new.state) }
        ensures any_moment { LeavesOnly D.tick D.since self.old.device self.new.device (λ j. self.old.stopped ≡ false → LeavesBoth (D.image self.old.device) self.old.state (Create name (self.old.state.greatest + 1) hint sparse time) j) }
        ensures stands { D.tells → (j : Image) → IsCrash (D.image self.new.device) j → self.old.stopped ≡ false → LeavesBoth (D.image self.old.device) self.old.state (Create name (self.old.state.greatest + 1) hint sparse time) j }
        ensures shown { OnOk result (D.tells → shown_tree (D.image self.new.device) self.new.state ≡ apply (Create name (self.old.state.greatest + 1) hint sparse time) (shown_tree (D.image self.old.device) self.old.state)) }
        ensures done { OnOk result (D.tells → LeavesAfter (D.image self.old.device) self.old.state (Create name (self.old.state.greatest + 1) hint sparse time) (D.image self.new.device)) }
        ensures failed { IsErrOf result FsError.DevFault → D.tells → (self.new.state ≡ self.old.state) ⊎ LeavesAfter (D.image self.old.device) self.old.state (Create name (self.old.state.greatest + 1) hint sparse time) (D.image self.new.device) }
    {
        if self.stopped {
            return Err(FsError::Stopped);
        }
        self.tables.valid();
        let answer = create_file(
            &mut self.dev,
            &mut self.tables,
            alloc,
            name,
            hint,
            sparse,
            time,
        );
        self.stopped = stops(&answer);
        answer
    }

    /// Gives the file of the old name a new name besides.
    ///
    /// `Stopped` comes exactly where an earlier change has failed (`refuses`). `NotFound` comes where no file has the
    /// old name, and else `Exists` where one has the new name. `SequenceEnd` comes where the record has to roll the log
    /// and no sequence is left, `MetaFull` where the change needs more blocks than a log has, and `NoMemory` where
    /// memory is wanting. After these nothing is changed (`unwritten`). `DevFault` comes only where the device's count
    /// of faults rose; the mount is stopped then. What is recorded in the end has its bytes (`bytes`). A crash at any
    /// moment leaves the tree that was shown, or that tree with the change (`any_moment`, `stands`); after Ok that tree
    /// with the change is shown (`shown`) and left (`done`). After a fault a crash leaves it too, or the state is the
    /// old one (`failed`).
    pub fn link(&mut self, alloc: Global, old: &Name, new: Name) -> Result<(), FsError>
        requires writing { self.old.writing ≡ true }
        ensures steps { Refines (link old.now new) self.old.state result self.new.state }
        ensures refuses { IsErrOf result FsError.Stopped ↔ (self.old.stopped ≡ true) }
        ensures mode { self.new.writing ≡ self.old.writing }
        ensures stopped { self.new.stopped ≡ stopped_by self.old.stopped result }
        ensures unwritten { IsUnwritten result → (self.new.state ≡ self.old.state) × (self.new.device ≡ self.old.device) }
        ensures cause { HasCause (D.faults self.old.device) (D.faults self.new.device) (IsErrOf result FsError.DevFault) }
        ensures changes { MayCount (D.failed_changes self.old.device) (D.failed_changes self.new.device) (IsErrOf result FsError.DevFault) }
        ensures bytes { D.tells → tree_of (D.image self.new.device) (recorded self.new.state) ≡ tree_of (D.image self.old.device) (recorded self.new.state) }
        ensures any_moment { LeavesOnly D.tick D.since self.old.device self.new.device (λ j. self.old.stopped ≡ false → LeavesBoth (D.image self.old.device) self.old.state (Link old.now new) j) }
        ensures stands { D.tells → (j : Image) → IsCrash (D.image self.new.device) j → self.old.stopped ≡ false → LeavesBoth (D.image self.old.device) self.old.state (Link old.now new) j }
        ensures shown { OnOk result (D.tells → shown_tree (D.image self.new.device) self.new.state ≡ apply (Link old.now new) (shown_tree (D.image self.old.device) self.old.state)) }
        ensures done { OnOk result (D.tells → LeavesAfter (D.image self.old.device) self.old.state (Link old.now new) (D.image self.new.device)) }
        ensures failed { IsErrOf result FsError.DevFault → D.tells → (self.new.state ≡ self.old.state) ⊎ LeavesAfter (D.image self.old.device) self.old.state (Link old.now new) (D.image self.new.device) }
    {
        if self.stopped {
            return Err(FsError::Stopped);
        }
        self.tables.valid();
        let answer = link_name(&mut self.dev, &mut self.tables, alloc, old, new);
        self.stopped = stops(&answer);
        answer
    }

    /// Puts a new name of a file in the place of the old one. Another file that has it loses it, and is gone where it
    /// has no other.
    ///
    /// `Stopped` comes exactly where an earlier change has failed (`refuses`). `NotFound` comes where no file has the
    /// old name. `SequenceEnd` comes where the record has to roll the log and no sequence is left, `MetaFull` where the
    /// change needs more blocks than a log has, and `NoMemory` where memory is wanting. After these nothing is changed
    /// (`unwritten`). `DevFault` comes only where the device's count of faults rose; the mount is stopped then. What is
    /// recorded in the end has its bytes (`bytes`). A crash at any moment leaves the tree that was shown, or that tree
    /// with the change (`any_moment`, `stands`); after Ok that tree with the change is shown (`shown`) and left
    /// (`done`). After a fault a crash leaves it too, or the state is the old one (`failed`).
    pub fn rename(&mut self, alloc: Global, old: &Name, new: Name) -> Result<(), FsError>
        requires writing { self.old.writing ≡ true }
        ensures steps { Refines (rename old.now new) self.old.state result self.new.state }
        ensures refuses { IsErrOf result FsError.Stopped ↔ (self.old.stopped ≡ true) }
        ensures mode { self.new.writing ≡ self.old.writing }
        ensures stopped { self.new.stopped ≡ stopped_by self.old.stopped result }
        ensures unwritten { IsUnwritten result → (self.new.state ≡ self.old.state) × (self.new.device ≡ self.old.device) }
        ensures cause { HasCause (D.faults self.old.device) (D.faults self.new.device) (IsErrOf result FsError.DevFault) }
        ensures changes { MayCount (D.failed_changes self.old.device) (D.failed_changes self.new.device) (IsErrOf result FsError.DevFault) }
        ensures bytes { D.tells → tree_of (D.image self.new.device) (recorded self.new.state) ≡ tree_of (D.image self.old.device) (recorded self.new.state) }
        ensures any_moment { LeavesOnly D.tick D.since self.old.device self.new.device (λ j. self.old.stopped ≡ false → LeavesBoth (D.image self.old.device) self.old.state (Rename old.now new) j) }
        ensures stands { D.tells → (j : Image) → IsCrash (D.image self.new.device) j → self.old.stopped ≡ false → LeavesBoth (D.image self.old.device) self.old.state (Rename old.now new) j }
        ensures shown { OnOk result (D.tells → shown_tree (D.image self.new.device) self.new.state ≡ apply (Rename old.now new) (shown_tree (D.image self.old.device) self.old.state)) }
        ensures done { OnOk result (D.tells → LeavesAfter (D.image self.old.device) self.old.state (Rename old.now new) (D.image self.new.device)) }
        ensures failed { IsErrOf result FsError.DevFault → D.tells → (self.new.state ≡ self.old.state) ⊎ LeavesAfter (D.image self.old.device) self.old.state (Rename old.now new) (D.image self.new.device) }
    {
        if self.stopped {
            return Err(FsError::Stopped);
        }
        self.tables.valid();
        let answer = rename_name(&mut self.dev, &mut self.tables, alloc, old, new);
        self.stopped = stops(&answer);
        answer
    }

    /// Takes a name from its file, which is gone where it has no other.
    ///
    /// `Stopped` comes exactly where an earlier change has failed (`refuses`). `NotFound` comes where no file has the
    /// name. `SequenceEnd` comes where the record has to roll the log and no sequence is left, never `MetaFull`, and
    /// `NoMemory` where memory is wanting. After these nothing is changed (`unwritten`). `DevFault` comes only where
    /// the device's count of faults rose; the mount is stopped then. What is recorded in the end has its bytes
    /// (`bytes`). A crash at any moment leaves the tree that was shown, or that tree with the change (`any_moment`,
    /// `stands`); after Ok that tree with the change is shown (`shown`) and left (`done`). After a fault a crash leaves
    /// it too, or the state is the old one (`failed`).
    pub fn delete(&mut self, alloc: Global, name: &Name) -> Result<(), FsError>
        requires writing { self.old.writing ≡ true }
        ensures steps { Refines (delete name.now) self.old.state result self.new.state }
        ensures refuses { IsErrOf result FsError.Stopped ↔ (self.old.stopped ≡ true) }
        ensures mode { self.new.writing ≡ self.old.writing }
        ensures stopped { self.new.stopped ≡ stopped_by self.old.stopped result }
        ensures unwritten { IsUnwritten result → (self.new.state ≡ self.old.state) × (self.new.device ≡ self.old.device) }
        ensures cause { HasCause (D.faults self.old.device) (D.faults self.new.device) (IsErrOf result FsError.DevFault) }
        ensures changes { MayCount (D.failed_changes self.old.device) (D.failed_changes self.new.device) (IsErrOf result FsError.DevFault) }
        ensures bytes { D.tells → tree_of (D.image self.new.device) (recorded self.new.state) ≡ tree_of (D.image self.old.device) (recorded self.new.state) }
        ensures any_moment { LeavesOnly D.tick D.since self.old.device self.new.device (λ j. self.old.stopped ≡ false → LeavesBoth (D.image self.old.device) self.old.state (Unlink name.now) j) }
        ensures stands { D.tells → (j : Image) → IsCrash (D.image self.new.device) j → self.old.stopped ≡ false → LeavesBoth (D.image self.old.device) self.old.state (Unlink name.now) j }
        ensures shown { OnOk result (D.tells → shown_tree (D.image self.new.device) self.new.state ≡ apply (Unlink name.now) (shown_tree (D.image self.old.device) self.old.state)) }
        ensures done { OnOk result (D.tells → LeavesAfter (D.image self.old.device) self.old.state (Unlink name.now) (D.image self.new.device)) }
        ensures failed { IsErrOf result FsError.DevFault → D.tells → (self.new.state ≡ self.old.state) ⊎ LeavesAfter (D.image self.old.device) self.old.state (Unlink name.now) (D.image self.new.device) }
    {
        if self.stopped {
            return Err(FsError::Stopped);
        }
        self.tables.valid();
        let answer = delete_name(&mut self.dev, &mut self.tables, alloc, name);
        self.stopped = stops(&answer);
        answer
    }
}
