// A device that a command mounts.
ghost use Rattle.std.specs.Prelude.{◌≡◌, ◌≤◌, false, Ok, IfOk, IfErr, OnOk};
ghost use Rattle.zone_image.specs.Counts.{Rose};
ghost use Rattle.zone_image.specs.Image.{IsCrash};
ghost use Rattle.zone_image.specs.Moments.{LeavesOnly};
ghost use Rattle.fs_model.specs.FsState.{state_in};
ghost use Rattle.zenfs_cmd.specs.Reasons.{IsNotMounted};

use fs_core::{Fs, MountError, Refused};
use fs_report::Cause;
use log_model::Refusal;
use std::alloc::Global;
use zoned_device::ZonedDevice;

/// Mounts a device, or hands it back with the cause. Nothing is written.
pub(crate) fn mount<'a, D: ZonedDevice>(alloc: Global, dev: D) -> Result<Fs<D>, (Cause<'a>, D)>
    ensures state { IfOk result (λ f. D.tells → state_in (D.image dev) ≡ Ok f.state) }
    ensures there { OnOk result (D.tells → D.absent dev → ⊥) }
    ensures idle { IfOk result (λ f. f.writing ≡ false) }
    ensures goes_on { IfOk result (λ f. f.stopped ≡ false) }
    ensures refused { IfErr result (λ r. IsNotMounted (Rose (D.faults dev) (D.faults r.1)) D.tells (D.absent dev) (D.image dev) r.0) }
    ensures same_image { IfOk result (λ f. D.tells → D.image f.device ≡ D.image dev) }
    ensures image_stays { IfErr result (λ r. D.tells → D.image r.1 ≡ D.image dev) }
    ensures any_moment { IfOk result (λ f. LeavesOnly D.tick D.since dev f.device (IsCrash (D.image dev))) }
    ensures still_known { IfErr result (λ r. D.known dev → D.known r.1) }
    ensures moments_stay { IfErr result (λ r. LeavesOnly D.tick D.since dev r.1 (IsCrash (D.image dev))) }
    ensures never_falls { IfOk result (λ f. D.faults dev ≤ D.faults f.device) }
{
    match Fs::mount(alloc, dev) {
        Ok(fs) => Ok(fs),
        Err(Refused { dev, why }) => match why {
            MountError::DevFault => Err((Cause::DeviceFault, dev)),
            MountError::NotAnImage => Err((Cause::NotAnImage, dev)),
            MountError::NoFileSystem => Err((Cause::NoMount(Refusal::NoFileSystem), dev)),
            MountError::Unsupported {
                zone,
                version,
                flags,
            } => {
                let refusal = Refusal::Unsupported {
                    zone,
                    version,
                    flags,
                };
                Err((Cause::NoMount(refusal), dev))
            }
            MountError::Differs {
                zone,
                block,
                zone_blocks,
                zones,
            } => {
                let refusal = Refusal::Differs {
                    zone,
                    block,
                    zone_blocks,
                    zones,
                };
                Err((Cause::NoMount(refusal), dev))
            }
            MountError::Damaged(damage) => Err((Cause::NoMount(Refusal::Damaged(damage)), dev)),
            MountError::NoMemory => Err((Cause::NoMemory, dev)),
        },
    }
}
