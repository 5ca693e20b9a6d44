// The log that counts on a device.
ghost use Rattle.std.specs.Prelude.{◌≡◌, ◌<◌, ◌≤◌, Ok, IfOk, IfErr, IsErrOf, Err, Result};
ghost use Rattle.zone_image.specs.Counts.{HasCause};
ghost use Rattle.zone_image.specs.Reads.{OnlyReads};
ghost use Rattle.log_model.specs.LogSelection.{selected_log};
ghost use Rattle.log_model.specs.declared.selection.Chosen.{Chosen};
ghost use Rattle.log_model.specs.declared.selection.Refusal.{Refusal};
ghost use Rattle.log_roll.specs.Choosing.{IsSoundChoice};
ghost use Rattle.log_roll.specs.Refusals.{IsRefusedBy};

use crate::error::ChooseError;
use crate::select::select;
use crate::summary::summary_of;
use log_model::{Chosen, Refusal};
use meta_log::LogError;
use std::alloc::Global;
use zone_image::Geometry;
use zoned_device::ZonedDevice;

/// The log that counts on a device: of the logs of zones 0 to 2 the newest that isn't passed over. It
/// only reads.
///
/// Where the device tells its image, the answer is the selected log of that image (`chosen`), or its
/// refusal with its place and values (`refused`):
/// - `Unsupported`, `Differs` or `Damaged` for the lowest zone whose first record is refused;
/// - `Damaged` where two logs have one sequence;
/// - `Damaged` where the newest log that isn't passed over ends bad, or its second record isn't a
///   snapshot. A log without damage and without a second record is passed over;
/// - `NoFileSystem` where no log is left.
///
/// `DevFault` comes only where the device's count of faults rose (`cause`), and `NoMemory` where memory
/// is wanting. The zone is always a metadata zone, and the superblock's flags are ones that
/// `Superblock::decode` accepts.
pub fn choose<D: ZonedDevice>(
    alloc: Global,
    dev: &mut D,
    geometry: &Geometry,
) -> Result<Chosen, ChooseError>
    requires is_known { D.known dev.old }
    requires same_geometry { geometry.now ≡ D.geometry dev.old }
    ensures chosen { IfOk result (λ chosen. D.tells → selected_log (D.image dev.old) ≡ Ok chosen) }
    ensures refused { IfErr result (λ refusal. D.tells → IsRefusedBy (selected_log (D.image dev.old)) refusal) }
    ensures is_metadata { IfOk result (λ chosen. chosen.zone < 3) }
    ensures known_flags { IfOk result (λ chosen. chosen.superblock.flags ≤ 1) }
    ensures device { OnlyReads D.known D.geometry D.infos D.tells D.image D.tick D.since D.failed_changes dev.old dev.new }
    ensures cause { HasCause (D.faults dev.old) (D.faults dev.new) (IsErrOf result ChooseError.DevFault) }
{
    match selected(alloc, dev, geometry) {
        Ok(Ok(chosen)) => Ok(chosen),
        Ok(Err(refusal)) => Err(refused(refusal)),
        Err(LogError::DevFault) => Err(ChooseError::DevFault),
        Err(LogError::NoMemory) => Err(ChooseError::NoMemory),
    }
}

// The answer for a refusal.
fn refused(refusal: Refusal) -> ChooseError
    ensures same { (choice : Result Chosen Refusal) → choice ≡ Err refusal → IsRefusedBy choice result }
    ensures no_fault { result ≡ ChooseError.DevFault → ⊥ }
{
    match refusal {
        Refusal::NoFileSystem => ChooseError::NoFileSystem,
        Refusal::Unsupported {
            zone,
            version,
            flags,
        } => ChooseError::Unsupported {
            zone,
            version,
            flags,
        },
        Refusal::Differs {
            zone,
            block,
            zone_blocks,
            zones,
        } => ChooseError::Differs {
            zone,
            block,
            zone_blocks,
            zones,
        },
        Refusal::Damaged(damage) => ChooseError::Damaged(damage),
    }
}

// The selected log of the image, or its refusal.
fn selected<D: ZonedDevice>(
    alloc: Global,
    dev: &mut D,
    geometry: &Geometry,
) -> Result<Result<Chosen, Refusal>, LogError>
    requires is_known { D.known dev.old }
    requires same_geometry { geometry.now ≡ D.geometry dev.old }
    ensures exact { IfOk result (λ choice. D.tells → choice ≡ selected_log (D.image dev.old)) }
    ensures sound { IfOk result (λ choice. IfOk choice IsSoundChoice) }
    ensures device { OnlyReads D.known D.geometry D.infos D.tells D.image D.tick D.since D.failed_changes dev.old dev.new }
    ensures cause { HasCause (D.faults dev.old) (D.faults dev.new) (IsErrOf result LogError.DevFault) }
{
    let of_first = summary_of(alloc, dev, geometry, 0)?;
    let first = match of_first {
        Ok(log) => log,
        Err(refusal) => return Ok(Err(refusal)),
    };
    let of_second = summary_of(alloc, dev, geometry, 1)?;
    let second = match of_second {
        Ok(log) => log,
        Err(refusal) => return Ok(Err(refusal)),
    };
    let of_third = summary_of(alloc, dev, geometry, 2)?;
    let third = match of_third {
        Ok(log) => log,
        Err(refusal) => return Ok(Err(refusal)),
    };
    Ok(select(first, second, third))
}
