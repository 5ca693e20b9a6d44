// What `zenfs` does.
ghost use Rattle.std.specs.Prelude.{◌≡◌, ◌≢◌, ◌⊎◌, ◌↔◌, ◌++◌, ℕ, Bool, true, false, map, string_bytes, codes, Some, None, OnOk, IfErr, IsErrOf};
ghost use Rattle.zone_image.specs.declared.Geometry.{Geometry};
ghost use Rattle.zone_image.specs.Counts.{Rose};
ghost use Rattle.zone_image.specs.Image.{Image};
ghost use Rattle.zone_image.specs.Infos.{IsValidImage};
ghost use Rattle.zone_image.specs.Moments.{LeavesOnly};
ghost use Rattle.log_model.specs.FileTree.{Tree, apply_all};
ghost use Rattle.log_model.specs.Format.{new_superblock};
ghost use Rattle.log_model.specs.Mounted.{MountsTo};
ghost use Rattle.making_cmd.specs.Made.{IsBlank};
ghost use Rattle.making_cmd.specs.NewFs.{HasNewFs};
ghost use Rattle.fs_report.specs.declared.cause.Cause.{Cause};
ghost use Rattle.fs_report.specs.declared.status.Status.TheVariants as status;
ghost use Rattle.fs_report.specs.Causes.{cause_meant, ending};
ghost use Rattle.command_model.specs.CommandLine as line;
ghost use Rattle.command_model.specs.CommandLine.Command.{MakeImage, MakeFs};
ghost use Rattle.command_model.specs.Options.{Word};
ghost use Rattle.command_model.specs.RefusalTexts.{refusal_text};
ghost use Rattle.zenfs_cmd.specs.Leaving.{IsKeptWithoutMemory, Leaves, LeavesChanged, LeavesTheTree, MayLeave};
ghost use Rattle.zenfs_cmd.specs.Plans.{changes_names, changes_of};
ghost use Rattle.zenfs_cmd.specs.Printing.{IsCutShort, IsPrinted, IsSilent, output_text};
ghost use Rattle.zenfs_cmd.specs.Reasons.{CanBeDone, HasReason, IsUnwritten};
ghost use Rattle.zenfs_cmd.specs.Words.{changes, command_in, makes_image};

use crate::perform::perform;
use crate::refusal::refuse;
use crate::words::built_command;
use fs_report::{Cause, Sink, Status};
use std::alloc::Global;
use zoned_device::ZonedDevice;

/// Does all that `zenfs` does with these words over this device, and hands the device back. Results go
/// to `out`, and the line of a refusal to `err`, of which a fault changes nothing. A new file system's
/// identifier is made of the random bits. Built are `mkimage`, `mkfs`, `list`, `df`, `dump`, `fs-info`,
/// `link`, `rename` and `delete`; the words of every other command are a bad command line.
///
/// `list`, `df`, `dump`, `fs-info`, `link`, `rename` and `delete` mount the image, whatever log and files it has. A change
/// of names is judged before anything is written, and is durable once it ends well (`changed`, `now`). Where it ends in want of
/// memory the tree is as it was (`tree_stays`).
///
/// What a crash leaves is said of all commands but `mkimage` (`any_moment`). A crash within a change of names leaves
/// the tree before it or after it. A crash within `mkfs` over an image whose every crash has a log that counts leaves
/// the old file system, none, or the new one.
pub fn run<D: ZonedDevice, O: Sink, E: Sink>(
    alloc: Global,
    words: &[String],
    dev: D,
    out: &mut O,
    err: &mut E,
    random: u128,
) -> (Status, D)
    // Bad words are refused, and no others.
    ensures words { (result.0 ≡ status.Words) ↔ (command_in (map string_bytes words.now) ≡ None) }

    // What is printed is the text of the command over the image.
    ensures printed { result.0 ≡ status.Ok → (c : line.Command) → command_in (map string_bytes words.now) ≡ Some c
        → D.tells → O.tells → IsPrinted (output_text c (D.image dev)) (O.written out.old) (O.written out.new) }

    // A new image has the stated geometry, and all its zones are empty. A new file system is one superblock and an empty
    // snapshot in zone 0, all durable, and nothing else.
    ensures blank { result.0 ≡ status.Ok → (at : Word) (g : Geometry) (over : Bool) → command_in (map string_bytes words.now) ≡ Some (MakeImage at g over)
        → IsBlank D.known D.geometry D.infos D.tells D.image g result.1 }
    ensures formatted { result.0 ≡ status.Ok → (at aux : Word) (threshold : ℕ) (collect over : Bool)
        → command_in (map string_bytes words.now) ≡ Some (MakeFs at aux threshold collect over)
        → HasNewFs D.known D.geometry D.infos D.tells D.image (λ g. new_superblock g random aux threshold collect) dev result.1 }

    // A change of names is done as a whole, durably, and prints nothing: the image mounts to the tree with the change made,
    // and so does whatever a crash leaves then.
    ensures changed { result.0 ≡ status.Ok → (c : line.Command) → command_in (map string_bytes words.now) ≡ Some c → changes_names c ≡ true
        → LeavesChanged (out.new ≡ out.old) D.tells c (D.image dev) (D.image result.1) }
    ensures now { result.0 ≡ status.Ok → (c : line.Command) → command_in (map string_bytes words.now) ≡ Some c → changes_names c ≡ true
        → (t : Tree) → MountsTo (D.image dev) t → (j : Image) → D.since result.1 (D.tick result.1) j → MountsTo j (apply_all (changes_of c) t) }

    // A change that ends in want of memory leaves the tree, also where the image is mounted for writing by then.
    ensures tree_stays { result.0 ≡ status.Memory → (c : line.Command) → command_in (map string_bytes words.now) ≡ Some c → changes_names c ≡ true
        → D.tells → LeavesTheTree (D.image dev) (D.image result.1) }

    // Every other end has its reason, and its line and no other is said.
    ensures refused { result.0 ≢ status.Ok → (cause : Cause) × (result.0 ≡ ending cause)
        × HasReason (command_in (map string_bytes words.now))
        (Rose (D.faults dev) (D.faults result.1))
        (IsCutShort (Rose (O.faults out.old) (O.faults out.new)) (Leaves D.known D.geometry D.infos D.tells D.image (out.new ≡ out.old) random dev result.1)
        (D.tells × O.tells) (O.written out.old) (O.written out.new) (D.image dev))
        D.tells (D.absent dev) (D.image dev) cause
        × IsSilent cause (out.new ≡ out.old)
        × IsUnwritten (command_in (map string_bytes words.now)) cause (D.tells → D.image result.1 ≡ D.image dev)
        × ((Rose (E.faults err.old) (E.faults err.new) → ⊥) → E.tells → E.written err.new ≡ E.written err.old ++ refusal_text (codes "zenfs") (cause_meant cause)) }

    // What ends well had nothing against it.
    ensures allowed { result.0 ≡ status.Ok → (c : line.Command) → command_in (map string_bytes words.now) ≡ Some c
        → D.tells → CanBeDone (D.absent dev) (D.image dev) c }

    // Words against which nothing stands, and no risen count, end well unless memory is wanting.
    ensures complete { (c : line.Command) → command_in (map string_bytes words.now) ≡ Some c → D.tells → CanBeDone (D.absent dev) (D.image dev) c
        → (Rose (D.faults dev) (D.faults result.1) → ⊥) → (Rose (O.faults out.old) (O.faults out.new) → ⊥)
        → (result.0 ≡ status.Ok) ⊎ (result.0 ≡ status.Memory) }

    // A command that only prints leaves the image as it is. A crash at any moment of one that makes no image leaves a
    // crash of the image at entry, or the tree before or after a change of names, or what formatting leaves.
    ensures unchanged { changes (command_in (map string_bytes words.now)) ≡ false → D.tells → D.image result.1 ≡ D.image dev }
    ensures any_moment { makes_image (command_in (map string_bytes words.now)) ≡ false
        → LeavesOnly D.tick D.since dev result.1 (MayLeave random (command_in (map string_bytes words.now)) (D.image dev)) }

    // No crash finds more zones active than the limit, on a device that had an image at entry.
    ensures limits { makes_image (command_in (map string_bytes words.now)) ≡ false → D.known dev
        → (t : ℕ) (j : Image) → D.since result.1 t j → IsValidImage j }
{
    let (ended, dev) = obey(alloc, words, dev, out, random);
    match ended {
        Ok(()) => (Status::Ok, dev),
        Err(cause) => {
            let status = refuse(err, cause);
            (status, dev)
        }
    }
}

// Does what the words ask, or is refused.
fn obey<'a, D: ZonedDevice, O: Sink>(
    alloc: Global,
    words: &'a [String],
    dev: D,
    out: &mut O,
    random: u128,
) -> (Result<(), Cause<'a>>, D)
    ensures left { (c : line.Command) → command_in (map string_bytes words.now) ≡ Some c
        → OnOk result.0 (Leaves D.known D.geometry D.infos D.tells D.image (out.new ≡ out.old) random dev result.1 c) }
    ensures printed { (c : line.Command) → command_in (map string_bytes words.now) ≡ Some c
        → OnOk result.0 (D.tells → O.tells → IsPrinted (output_text c (D.image dev)) (O.written out.old) (O.written out.new)) }
    ensures allowed { (c : line.Command) → command_in (map string_bytes words.now) ≡ Some c
        → OnOk result.0 (D.tells → CanBeDone (D.absent dev) (D.image dev) c) }
    ensures some { OnOk result.0 (command_in (map string_bytes words.now) ≡ None → ⊥) }
    ensures refused { IfErr result.0 (HasReason (command_in (map string_bytes words.now))
        (Rose (D.faults dev) (D.faults result.1))
        (IsCutShort (Rose (O.faults out.old) (O.faults out.new)) (Leaves D.known D.geometry D.infos D.tells D.image (out.new ≡ out.old) random dev result.1)
        (D.tells × O.tells) (O.written out.old) (O.written out.new) (D.image dev))
        D.tells (D.absent dev) (D.image dev)) }
    ensures words { command_in (map string_bytes words.now) ≡ None → IsErrOf result.0 Cause.Words }
    ensures silent { IfErr result.0 (λ cause. IsSilent cause (out.new ≡ out.old)) }
    ensures unwritten { IfErr result.0 (λ cause. IsUnwritten (command_in (map string_bytes words.now)) cause (D.tells → D.image result.1 ≡ D.image dev)) }
    ensures unchanged { changes (command_in (map string_bytes words.now)) ≡ false → D.tells → D.image result.1 ≡ D.image dev }
    ensures tree_stays { (c : line.Command) → command_in (map string_bytes words.now) ≡ Some c → changes_names c ≡ true
        → IfErr result.0 (λ cause. IsKeptWithoutMemory cause (D.tells → LeavesTheTree (D.image dev) (D.image result.1))) }
    ensures still_known { makes_image (command_in (map string_bytes words.now)) ≡ false → D.known dev → D.known result.1 }
    ensures any_moment { makes_image (command_in (map string_bytes words.now)) ≡ false
        → LeavesOnly D.tick D.since dev result.1 (MayLeave random (command_in (map string_bytes words.now)) (D.image dev)) }
{
    match built_command(alloc, words) {
        Ok(Some(command)) => perform(alloc, command, dev, out, random),
        Ok(None) => (Err(Cause::Words), dev),
        Err(_) => (Err(Cause::NoMemory), dev),
    }
}
