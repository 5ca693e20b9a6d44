// What each command does.
ghost use Rattle.std.specs.Prelude.{◌≡◌, Some, true, false, OnOk, IfErr};
ghost use Rattle.zone_image.specs.Counts.{Rose};
ghost use Rattle.zone_image.specs.Moments.{LeavesOnly};
ghost use Rattle.zenfs_cmd.specs.Leaving.{IsKeptWithoutMemory, Leaves, LeavesTheTree, MayLeave};
ghost use Rattle.zenfs_cmd.specs.Plans.{changes_names};
ghost use Rattle.zenfs_cmd.specs.Printing.{IsCutShort, IsPrinted, IsSilent, output_text};
ghost use Rattle.zenfs_cmd.specs.Reasons.{CanBeDone, HasReason, IsUnwritten};
ghost use Rattle.zenfs_cmd.specs.Words.{HasAuxPath, changes, makes_image, meaning_of};

use crate::change::change_names;
use crate::dump::show_dump;
use crate::info::show_info;
use crate::list::list_files;
use crate::making::{make_file_system, make_image};
use crate::space::show_space;
use crate::words::Built;
use fs_report::{Cause, Sink};
use std::alloc::Global;
use zoned_device::ZonedDevice;

/// Does what a command asks, or is refused, and hands the device back.
pub(crate) fn perform<'a, D: ZonedDevice, O: Sink>(
    alloc: Global,
    command: Built<'a>,
    mut dev: D,
    out: &mut O,
    random: u128,
) -> (Result<(), Cause<'a>>, D)
    requires { HasAuxPath (meaning_of command) }
    ensures left { OnOk result.0 (Leaves D.known D.geometry D.infos D.tells D.image (out.new ≡ out.old) random dev result.1 (meaning_of command.entry)) }
    ensures allowed { OnOk result.0 (D.tells → CanBeDone (D.absent dev) (D.image dev) (meaning_of command.entry)) }
    ensures printed { OnOk result.0 (D.tells → O.tells → IsPrinted (output_text (meaning_of command.entry) (D.image dev)) (O.written out.old) (O.written out.new)) }
    ensures refused { IfErr result.0 (HasReason (Some (meaning_of command.entry))
        (Rose (D.faults dev) (D.faults result.1))
        (IsCutShort (Rose (O.faults out.old) (O.faults out.new)) (Leaves D.known D.geometry D.infos D.tells D.image (out.new ≡ out.old) random dev result.1)
        (D.tells × O.tells) (O.written out.old) (O.written out.new) (D.image dev))
        D.tells (D.absent dev) (D.image dev)) }
    ensures silent { IfErr result.0 (λ cause. IsSilent cause (out.new ≡ out.old)) }
    ensures unwritten { IfErr result.0 (λ cause. IsUnwritten (Some (meaning_of command.entry)) cause (D.tells → D.image result.1 ≡ D.image dev)) }
    ensures unchanged { changes (Some (meaning_of command.entry)) ≡ false → D.tells → D.image result.1 ≡ D.image dev }
    ensures tree_stays { changes_names (meaning_of command.entry) ≡ true
        → IfErr result.0 (λ cause. IsKeptWithoutMemory cause (D.tells → LeavesTheTree (D.image dev) (D.image result.1))) }
    ensures still_known { makes_image (Some (meaning_of command.entry)) ≡ false → D.known dev → D.known result.1 }
    ensures any_moment { makes_image (Some (meaning_of command.entry)) ≡ false → LeavesOnly D.tick D.since dev result.1 (MayLeave random (Some (meaning_of command.entry)) (D.image dev)) }
{
    match command {
        Built::MakeImage {
            geometry,
            force,
            ..
        } => {
            let ended = make_image(alloc, &mut dev, out, &geometry, force);
            (ended, dev)
        }
        Built::MakeFs { options, .. } => {
            let ended = make_file_system(alloc, &mut dev, out, &options, random);
            (ended, dev)
        }
        Built::List { prefix, .. } => list_files(alloc, dev, out, prefix),
        Built::Space { .. } => show_space(alloc, dev, out),
        Built::Dump { .. } => show_dump(alloc, dev, out),
        Built::Info { .. } => show_info(alloc, dev, out),
        Built::Change { change, .. } => change_names(alloc, dev, change),
    }
}
