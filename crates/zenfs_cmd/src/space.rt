// The command `df`.
ghost use Rattle.std.specs.Prelude.{◌≡◌, ℕ, Some, OnOk, IfOk, IfErr};
ghost use Rattle.zone_image.specs.Counts.{Rose};
ghost use Rattle.zone_image.specs.Image.{IsCrash};
ghost use Rattle.zone_image.specs.Moments.{LeavesOnly};
ghost use Rattle.command_model.specs.CommandLine.Command.{ShowSpace};
ghost use Rattle.command_model.specs.Options.{Word};
ghost use Rattle.command_model.specs.ReportTexts.{df_text};
ghost use Rattle.fs_model.specs.FsState.{zone_states};
ghost use Rattle.fs_model.specs.ZonePolicy.{space};
ghost use Rattle.zenfs_cmd.specs.Leaving.{Leaves};
ghost use Rattle.zenfs_cmd.specs.Printing.{IsCutShort, IsPrinted, IsSilent, space_text};
ghost use Rattle.zenfs_cmd.specs.Reasons.{CanBeDone, HasReason};

use crate::mounted::mount;
use fs_core::Fs;
use fs_report::{Cause, Sink, df_text, write_all};
use record_model::Payload;
use std::alloc::{AllocError, Global};
use zoned_device::ZonedDevice;

/// Prints how much space a device's file system has, and how much of it is used and reclaimable.
pub(crate) fn show_space<'a, D: ZonedDevice, O: Sink>(
    alloc: Global,
    dev: D,
    out: &mut O,
) -> (Result<(), Cause<'a>>, D)
    ensures printed { OnOk result.0 (D.tells → O.tells → IsPrinted (space_text (D.image dev)) (O.written out.old) (O.written out.new)) }
    ensures allowed { (at : Word) → OnOk result.0 (D.tells → CanBeDone (D.absent dev) (D.image dev) (ShowSpace at)) }
    ensures refused { (at : Word) (random : ℕ) → IfErr result.0 (HasReason (Some (ShowSpace at))
        (Rose (D.faults dev) (D.faults result.1))
        (IsCutShort (Rose (O.faults out.old) (O.faults out.new)) (Leaves D.known D.geometry D.infos D.tells D.image (out.new ≡ out.old) random dev result.1)
        (D.tells × O.tells) (O.written out.old) (O.written out.new) (D.image dev))
        D.tells (D.absent dev) (D.image dev)) }
    ensures silent { IfErr result.0 (λ cause. IsSilent cause (out.new ≡ out.old)) }
    ensures unchanged { D.tells → D.image result.1 ≡ D.image dev }
    ensures still_known { D.known dev → D.known result.1 }
    ensures any_moment { LeavesOnly D.tick D.since dev result.1 (IsCrash (D.image dev)) }
{
    let (text, dev) = text_of(alloc, dev);
    match text {
        Ok(text) => match write_all(out, text.items()) {
            Ok(()) => (Ok(()), dev),
            Err(_) => (Err(Cause::OutputFault), dev),
        },
        Err(cause) => (Err(cause), dev),
    }
}

// The lines on space.
fn text_of<'a, D: ZonedDevice>(alloc: Global, dev: D) -> (Result<Payload, Cause<'a>>, D)
    ensures text { IfOk result.0 (λ text. D.tells → space_text (D.image dev) ≡ Some text) }
    ensures allowed { (at : Word) → OnOk result.0 (D.tells → CanBeDone (D.absent dev) (D.image dev) (ShowSpace at)) }
    ensures refused { (at : Word) → IfErr result.0 (HasReason (Some (ShowSpace at))
        (Rose (D.faults dev) (D.faults result.1)) (λ _. ⊥) D.tells (D.absent dev) (D.image dev)) }
    ensures unchanged { D.tells → D.image result.1 ≡ D.image dev }
    ensures still_known { D.known dev → D.known result.1 }
    ensures any_moment { LeavesOnly D.tick D.since dev result.1 (IsCrash (D.image dev)) }
{
    match mount(alloc, dev) {
        Ok(fs) => match text_in(alloc, &fs) {
            Ok(text) => (Ok(text), fs.unmount()),
            Err(_) => (Err(Cause::NoMemory), fs.unmount()),
        },
        Err((cause, dev)) => (Err(cause), dev),
    }
}

// The lines on the space of a file system.
fn text_in<D: ZonedDevice>(alloc: Global, fs: &Fs<D>) -> Result<Payload, AllocError>
    ensures { IfOk result (λ text. text ≡ df_text fs.now.state.geometry (space fs.now.state.geometry (zone_states fs.now.state))) }
{
    let geometry = fs.geometry();
    let space = fs.space();
    df_text(alloc, &geometry, &space)
}
