// The places of the standard streams.
ghost use Rattle.std.specs.Prelude.{◌≡◌, IfErr};
ghost use Rattle.fs_report.specs.declared.cause.Cause.TheVariants as Cause;

use std::fs::File;
use zenfs_cmd::Cause;

/// Files in the places of the standard streams that the program was started without. While they are held, no file that
/// is opened gets the place of a stream, and is written where the program prints.
#[derive(Drop)]
pub(crate) struct HeldPlaces {
    _files: [File; 3],
}

/// Takes the places of all standard streams that are closed. What is written there fails, as it does on a closed stream.
/// A system without the file that is opened for it is taken for a device that fails.
pub(crate) fn hold_places(rt: HostRuntime) -> Result<HeldPlaces, Cause<'static>>
    ensures { IfErr result (λ cause. cause ≡ Cause.DeviceFault) }
{
    Ok(HeldPlaces {
        _files: [unwritable(rt)?, unwritable(rt)?, unwritable(rt)?],
    })
}

// An open file that can't be written, in the lowest place that is free.
fn unwritable(rt: HostRuntime) -> Result<File, Cause<'static>>
    ensures { IfErr result (λ cause. cause ≡ Cause.DeviceFault) }
{
    match File::open(&rt, "/dev/null") {
        Ok(file) => Ok(file),
        Err(_) => Err(Cause::DeviceFault),
    }
}
