// The command `list`.
ghost use Rattle.std.specs.Prelude.{◌≡◌, ℕ, Some, None, OnOk, IfOk, IfErr};
ghost use Rattle.std.specs.Option.{option_copied};
ghost use Rattle.zone_image.specs.Counts.{Rose};
ghost use Rattle.zone_image.specs.Image.{IsCrash};
ghost use Rattle.zone_image.specs.Moments.{LeavesOnly};
ghost use Rattle.command_model.specs.CommandLine.{bad_name_of};
ghost use Rattle.command_model.specs.CommandLine.Command.{ListFiles};
ghost use Rattle.command_model.specs.Options.{Word};
ghost use Rattle.command_model.specs.ReportTexts.{list_text};
ghost use Rattle.fs_model.specs.FsState.{recorded};
ghost use Rattle.zenfs_cmd.specs.Leaving.{Leaves};
ghost use Rattle.zenfs_cmd.specs.Printing.{IsCutShort, IsPrinted, IsSilent, listed_text};
ghost use Rattle.zenfs_cmd.specs.Reasons.{CanBeDone, HasReason, IsNameRefused};

use crate::lines::lines_of;
use crate::mounted::mount;
use fs_core::Fs;
use fs_report::{Cause, Sink, text_of_lines, write_all};
use record_model::{Name, NameError, Payload};
use std::alloc::Global;
use zoned_device::ZonedDevice;

/// Prints the list of a device's files, or of those whose names begin with the prefix and a slash.
pub(crate) fn list_files<'a, D: ZonedDevice, O: Sink>(
    alloc: Global,
    dev: D,
    out: &mut O,
    prefix: Option<&'a str>,
) -> (Result<(), Cause<'a>>, D)
    ensures printed { OnOk result.0 (D.tells → O.tells → IsPrinted (listed_text (option_copied prefix.entry) (D.image dev)) (O.written out.old) (O.written out.new)) }
    ensures allowed { (at : Word) → OnOk result.0 (D.tells → CanBeDone (D.absent dev) (D.image dev) (ListFiles at (option_copied prefix.entry))) }
    ensures refused { (at : Word) (random : ℕ) → IfErr result.0 (HasReason (Some (ListFiles at (option_copied prefix.entry)))
        (Rose (D.faults dev) (D.faults result.1))
        (IsCutShort (Rose (O.faults out.old) (O.faults out.new)) (Leaves D.known D.geometry D.infos D.tells D.image (out.new ≡ out.old) random dev result.1)
        (D.tells × O.tells) (O.written out.old) (O.written out.new) (D.image dev))
        D.tells (D.absent dev) (D.image dev)) }
    ensures silent { IfErr result.0 (λ cause. IsSilent cause (out.new ≡ out.old)) }
    ensures unchanged { D.tells → D.image result.1 ≡ D.image dev }
    ensures still_known { D.known dev → D.known result.1 }
    ensures any_moment { LeavesOnly D.tick D.since dev result.1 (IsCrash (D.image dev)) }
{
    let (text, dev) = text_of(alloc, dev, prefix);
    match text {
        Ok(text) => match write_all(out, text.items()) {
            Ok(()) => (Ok(()), dev),
            Err(_) => (Err(Cause::OutputFault), dev),
        },
        Err(cause) => (Err(cause), dev),
    }
}

// The text of the list.
fn text_of<'a, D: ZonedDevice>(
    alloc: Global,
    dev: D,
    prefix: Option<&'a str>,
) -> (Result<Payload, Cause<'a>>, D)
    ensures text { IfOk result.0 (λ text. D.tells → listed_text (option_copied prefix.entry) (D.image dev) ≡ Some text) }
    ensures allowed { (at : Word) → OnOk result.0 (D.tells → CanBeDone (D.absent dev) (D.image dev) (ListFiles at (option_copied prefix.entry))) }
    ensures refused { (at : Word) → IfErr result.0 (HasReason (Some (ListFiles at (option_copied prefix.entry)))
        (Rose (D.faults dev) (D.faults result.1)) (λ _. ⊥) D.tells (D.absent dev) (D.image dev)) }
    ensures unchanged { D.tells → D.image result.1 ≡ D.image dev }
    ensures still_known { D.known dev → D.known result.1 }
    ensures any_moment { LeavesOnly D.tick D.since dev result.1 (IsCrash (D.image dev)) }
{
    match mount(alloc, dev) {
        Ok(fs) => {
            let text = text_under(alloc, &fs, prefix);
            (text, fs.unmount())
        }
        Err((cause, dev)) => (Err(cause), dev),
    }
}

// The list of the names of a file system, or of those under a prefix.
fn text_under<'a, D: ZonedDevice>(
    alloc: Global,
    fs: &Fs<D>,
    prefix: Option<&'a str>,
) -> Result<Payload, Cause<'a>>
    ensures text { IfOk result (λ text. text ≡ list_text (recorded fs.now.state) (option_copied prefix.entry)) }
    ensures named { (at : Word) → OnOk result (bad_name_of (ListFiles at (option_copied prefix.entry)) ≡ None) }
    ensures refused { (at : Word) → IfErr result (IsNameRefused (bad_name_of (ListFiles at (option_copied prefix.entry)))) }
{
    let under = match read_prefix(alloc, prefix) {
        Ok(under) => under,
        Err(cause) => return Err(cause),
    };
    let mut lines = match lines_of(alloc, fs) {
        Ok(lines) => lines,
        Err(_) => return Err(Cause::NoMemory),
    };
    match text_of_lines(alloc, &mut lines, under.as_ref()) {
        Ok(text) => Ok(text),
        Err(_) => Err(Cause::NoMemory),
    }
}

// The name of a prefix, if there is one.
#[tactic(auto, unfolding(command_model::specs::CommandLine::bad_name_of))]
fn read_prefix<'a>(alloc: Global, prefix: Option<&'a str>) -> Result<Option<Name>, Cause<'a>>
    ensures read { IfOk result (λ under. under ≡ option_copied prefix.entry) }
    ensures named { (at : Word) → OnOk result (bad_name_of (ListFiles at (option_copied prefix.entry)) ≡ None) }
    ensures refused { (at : Word) → IfErr result (IsNameRefused (bad_name_of (ListFiles at (option_copied prefix.entry)))) }
{
    match prefix {
        None => Ok(None),
        Some(path) => match Name::read(alloc, path) {
            Ok(name) => Ok(Some(name)),
            Err(NameError::BadName) => Err(Cause::BadName(path)),
            Err(NameError::NoMemory) => Err(Cause::NoMemory),
        },
    }
}
