// The commands `link`, `rename` and `delete`.
ghost use Rattle.std.specs.Prelude.{◌≡◌, ◌≤◌, false, None, Some, OnOk, IfErr};
ghost use Rattle.zone_image.specs.Counts.{Rose};
ghost use Rattle.zone_image.specs.Moments.{LeavesOnly};
ghost use Rattle.command_model.specs.CommandLine.{bad_name_of};
ghost use Rattle.command_model.specs.Options.{Word};
ghost use Rattle.zenfs_cmd.specs.Leaving.{IsChanged, IsKeptWithoutMemory, LeavesTheTree, LeftByChange};
ghost use Rattle.zenfs_cmd.specs.Made.{IsMade, IsPlanned};
ghost use Rattle.zenfs_cmd.specs.Reasons.{CanBeDone, HasReason, IsRefusedBy, IsUnwritten, IsUnwrittenBut};
ghost use Rattle.zenfs_cmd.specs.Words.{command_asked};

use crate::causes::{cause_of, failure_of};
use crate::mounted::mount;
use crate::names::read_names;
use crate::words::Asked;
use crate::writing::write_change;
use fs_core::Fs;
use fs_report::Cause;
use std::alloc::Global;
use zoned_device::ZonedDevice;

/// Changes names in the file system of a device, durably. Names and the change are judged before anything is written.
pub(crate) fn change_names<'a, D: ZonedDevice>(
    alloc: Global,
    dev: D,
    asked: Asked<'a>,
) -> (Result<(), Cause<'a>>, D)
    ensures done { (at : Word) → OnOk result.0 (D.tells → IsChanged (command_asked at asked.entry) (D.image dev) (D.image result.1)) }
    ensures named { (at : Word) → OnOk result.0 (bad_name_of (command_asked at asked.entry) ≡ None) }
    ensures allowed { (at : Word) → OnOk result.0 (D.tells → CanBeDone (D.absent dev) (D.image dev) (command_asked at asked.entry)) }
    ensures refused { (at : Word) → IfErr result.0 (HasReason (Some (command_asked at asked.entry)) (Rose (D.faults dev) (D.faults result.1)) (λ _. ⊥)
        D.tells (D.absent dev) (D.image dev)) }
    ensures unwritten { (at : Word) → IfErr result.0 (λ cause. IsUnwritten (Some (command_asked at asked.entry)) cause (D.tells → D.image result.1 ≡ D.image dev)) }
    ensures tree_stays { IfErr result.0 (λ cause. IsKeptWithoutMemory cause (D.tells → LeavesTheTree (D.image dev) (D.image result.1))) }
    ensures still_known { D.known dev → D.known result.1 }
    ensures any_moment { (at : Word) → LeavesOnly D.tick D.since dev result.1 (LeftByChange (command_asked at asked.entry) (D.image dev)) }
{
    match mount(alloc, dev) {
        Ok(mut fs) => {
            let ended = change_mounted(alloc, &mut fs, asked);
            (ended, fs.unmount())
        }
        Err((cause, dev)) => (Err(cause), dev),
    }
}

// The same on a file system that is mounted.
fn change_mounted<'a, D: ZonedDevice>(
    alloc: Global,
    fs: &mut Fs<D>,
    asked: Asked<'a>,
) -> Result<(), Cause<'a>>
    requires idle { fs.old.writing ≡ false }
    requires goes_on { fs.old.stopped ≡ false }
    ensures planned { (at : Word) → OnOk result (IsPlanned (command_asked at asked.entry) fs.old.state fs.new.state) }
    ensures made { (at : Word) → OnOk result (D.tells → IsMade (command_asked at asked.entry) (D.image fs.old.device) (D.image fs.new.device) fs.new.state) }
    ensures named { (at : Word) → OnOk result (bad_name_of (command_asked at asked.entry) ≡ None) }
    ensures refused { (at : Word) → IfErr result (IsRefusedBy (command_asked at asked.entry) (Rose (D.faults fs.old.device) (D.faults fs.new.device)) fs.old.state) }
    ensures unwritten { IfErr result (λ cause. IsUnwrittenBut cause (fs.new.device ≡ fs.old.device)) }
    ensures tree_stays { IfErr result (λ cause. IsKeptWithoutMemory cause (D.tells → LeavesTheTree (D.image fs.old.device) (D.image fs.new.device))) }
    ensures never_falls { D.faults fs.old.device ≤ D.faults fs.new.device }
    ensures any_moment { (at : Word) → LeavesOnly D.tick D.since fs.old.device fs.new.device (LeftByChange (command_asked at asked.entry) (D.image fs.old.device)) }
{
    let change = match read_names(alloc, asked) {
        Ok(change) => change,
        Err(cause) => return Err(cause),
    };
    match fs.check(&change) {
        Ok(()) => {}
        Err(error) => return Err(cause_of(asked, error)),
    }
    match write_change(alloc, fs, change) {
        Ok(()) => Ok(()),
        Err(error) => Err(failure_of(error)),
    }
}
