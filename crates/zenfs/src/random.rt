// Random bits of the system.
ghost use Rattle.std.specs.Prelude.{◌≡◌, IfErr};
ghost use Rattle.fs_report.specs.declared.cause.Cause.TheVariants as Cause;

use std::random::RandomSource;
use zenfs_cmd::Cause;

// 128 random bits. A system that gives none is taken for a device that fails.
pub(crate) fn random_bits(rt: HostRuntime) -> Result<u128, Cause<'static>>
    ensures { IfErr result (λ cause. cause ≡ Cause.DeviceFault) }
{
    let mut bytes = [0; 16];
    match rt.fill_bytes(&mut bytes) {
        Ok(()) => Ok(u128::from_le_bytes(bytes)),
        Err(_) => Err(Cause::DeviceFault),
    }
}
