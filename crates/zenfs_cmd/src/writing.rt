// A change that is written.
ghost use Rattle.std.specs.Prelude.{◌≡◌, [], ◌∷◌, true, false, Ok, OnOk, IfErr, IsErrOf, ◌↔◌};
ghost use Rattle.zone_image.specs.Counts.{HasCause};
ghost use Rattle.zone_image.specs.Moments.{LeavesOnly};
ghost use Rattle.log_model.specs.FileTree.{apply_all};
ghost use Rattle.command_model.specs.Options.{Word};
ghost use Rattle.fs_model.specs.Check.{check};
ghost use Rattle.fs_model.specs.CrashClauses.{shown_tree};
ghost use Rattle.fs_model.specs.Trace.{Refines};
ghost use Rattle.change_cover.specs.Left.{IsLeftOf};
ghost use Rattle.zenfs_cmd.specs.Leaving.{LeavesTheTree, LeftByChange};
ghost use Rattle.zenfs_cmd.specs.Made.{IsMade, IsPlanned};
ghost use Rattle.zenfs_cmd.specs.Names.{command_named};
ghost use Rattle.zenfs_cmd.specs.Plans.{action_of, changes_names, changes_of};
ghost use Rattle.zenfs_cmd.specs.Reasons.{IsFailure};

use fs_core::{Change, Fs};
use fs_model::FsError;
use std::alloc::Global;
use zoned_device::ZonedDevice;

/// Mounts for writing, and makes a change that was judged right. It is refused for want of memory and for a fault of the
/// device alone.
pub(crate) fn write_change<D: ZonedDevice>(
    alloc: Global,
    fs: &mut Fs<D>,
    change: Change,
) -> Result<(), FsError>
    requires idle { fs.old.writing ≡ false }
    requires goes_on { fs.old.stopped ≡ false }
    requires named { (at : Word) → changes_names (command_named at change) ≡ true }
    requires judged { (at : Word) → (check false (action_of (command_named at change)) fs.old.state).answer ≡ Ok tt }
    ensures planned { (at : Word) → OnOk result (IsPlanned (command_named at change) fs.old.state fs.new.state) }
    ensures made { (at : Word) → OnOk result (D.tells → IsMade (command_named at change) (D.image fs.old.device) (D.image fs.new.device) fs.new.state) }
    ensures failed { IfErr result IsFailure }
    ensures cause { HasCause (D.faults fs.old.device) (D.faults fs.new.device) (IsErrOf result FsError.DevFault) }
    ensures tree_stays { IsErrOf result FsError.NoMemory → D.tells → LeavesTheTree (D.image fs.old.device) (D.image fs.new.device) }
    ensures any_moment { (at : Word) → LeavesOnly D.tick D.since fs.old.device fs.new.device (LeftByChange (command_named at change) (D.image fs.old.device)) }
{
    fs.sound();
    match fs.mount_write(alloc) {
        Ok(()) => {}
        Err(error) => return Err(error),
    }
    fs.stands();
    match make_change(alloc, fs, change) {
        Ok(()) => {
            fs.stands();
            fs.agrees();
            Ok(())
        }
        Err(error) => Err(error),
    }
}

// Makes a change on a file system that is mounted for writing.
fn make_change<D: ZonedDevice>(alloc: Global, fs: &mut Fs<D>, change: Change) -> Result<(), FsError>
    requires writing { fs.old.writing ≡ true }
    requires named { (at : Word) → changes_names (command_named at change) ≡ true }
    ensures steps { (at : Word) → Refines (action_of (command_named at change)) fs.old.state result fs.new.state }
    ensures refuses { IsErrOf result FsError.Stopped ↔ (fs.old.stopped ≡ true) }
    ensures mode { fs.new.writing ≡ fs.old.writing }
    ensures goes_on { OnOk result (fs.new.stopped ≡ fs.old.stopped) }
    ensures cause { HasCause (D.faults fs.old.device) (D.faults fs.new.device) (IsErrOf result FsError.DevFault) }
    ensures unwritten { IsErrOf result FsError.NoMemory → fs.new.device ≡ fs.old.device }
    ensures any_moment { (at : Word) → LeavesOnly D.tick D.since fs.old.device fs.new.device (λ j. fs.old.stopped ≡ false
        → IsLeftOf (D.image fs.old.device) (shown_tree (D.image fs.old.device) fs.old.state
        ∷ apply_all (changes_of (command_named at change)) (shown_tree (D.image fs.old.device) fs.old.state) ∷ []) j) }
    ensures tree { (at : Word) → OnOk result (D.tells → shown_tree (D.image fs.new.device) fs.new.state
        ≡ apply_all (changes_of (command_named at change)) (shown_tree (D.image fs.old.device) fs.old.state)) }
{
    match change {
        Change::Create { .. } => unreachable!(),
        Change::Link { old, new } => fs.link(alloc, &old, new),
        Change::Rename { old, new } => fs.rename(alloc, &old, new),
        Change::Unlink { name } => fs.delete(alloc, &name),
    }
}
