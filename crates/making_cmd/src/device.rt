// The command that makes a device.
ghost use Rattle.std.specs.Prelude.{◌≡◌, ◌≤◌, ◌⊎◌, ◌++◌, not, IsTrue, OnOk, IfErr};
ghost use Rattle.zone_image.specs.Address.{is_valid};
ghost use Rattle.zone_image.specs.Counts.{Rose};
ghost use Rattle.command_model.specs.ReportTexts.{made_image_text};
ghost use Rattle.fs_report.specs.Written.{AddsFront};
ghost use Rattle.making_cmd.specs.Made.{HasDeviceReason, IsBlank, IsSilent, StaysUnmade};

use crate::error::MakeDeviceError;
use fs_report::{Sink, made_image_text, write_all};
use std::alloc::Global;
use zone_image::Geometry;
use zoned_device::{MakeError, ProbeError, ZonedDevice};

/// Makes an empty device of this shape, and says so. `ImageExists` comes exactly where the device tells an image
/// and it isn't to be replaced by `force`, and then `BadGeometry` exactly where the numbers are out of their
/// limits. Memory for the text is taken before anything is made. After an output fault the device is made.
pub fn make_device<D: ZonedDevice, O: Sink>(
    alloc: Global,
    dev: &mut D,
    out: &mut O,
    shape: &Geometry,
    force: bool,
) -> Result<(), MakeDeviceError>
    ensures made { OnOk result (IsBlank D.known D.geometry D.infos D.tells D.image shape.now dev.new) }
    ensures said { OnOk result (O.tells → O.written out.new ≡ O.written out.old ++ made_image_text shape.now) }
    ensures may_replace { OnOk result (IsTrue force ⊎ (D.tells → D.absent dev.old)) }
    ensures valid { OnOk result (IsTrue (is_valid shape.now)) }

    ensures refused { IfErr result (HasDeviceReason
        (Rose (D.faults dev.old) (D.faults dev.new))
        (Rose (O.faults out.old) (O.faults out.new) × IsBlank D.known D.geometry D.infos D.tells D.image shape.now dev.new
        × (O.tells → AddsFront (O.written out.old) (made_image_text shape.now) (O.written out.new)))
        (IsTrue (not force) × (D.tells → D.absent dev.old → ⊥))
        ((IsTrue force ⊎ (D.tells → D.absent dev.old)) × IsTrue (not (is_valid shape.now)))) }
    ensures unchanged { IfErr result (StaysUnmade (D.tells → D.image dev.new ≡ D.image dev.old)) }
    ensures silent { IfErr result (IsSilent (out.new ≡ out.old)) }
{
    if !force {
        refuse_image(dev)?;
    }
    if !shape.valid() {
        return Err(MakeDeviceError::BadGeometry);
    }
    let text = match made_image_text(alloc, shape) {
        Ok(text) => text,
        Err(_) => return Err(MakeDeviceError::NoMemory),
    };
    make(dev, shape)?;
    match write_all(out, text.items()) {
        Ok(()) => Ok(()),
        Err(_) => Err(MakeDeviceError::OutputFault),
    }
}

// Refuses where an image is there.
fn refuse_image<D: ZonedDevice>(dev: &mut D) -> Result<(), MakeDeviceError>
    ensures none { OnOk result (D.tells → D.absent dev.old) }
    ensures refused { IfErr result (HasDeviceReason (Rose (D.faults dev.old) (D.faults dev.new)) ⊥ (D.tells → D.absent dev.old → ⊥) ⊥) }
    ensures same_image { D.tells → D.image dev.new ≡ D.image dev.old }
    ensures never_falls { D.faults dev.old ≤ D.faults dev.new }
{
    match dev.probe() {
        Ok(_) => Err(MakeDeviceError::ImageExists),
        Err(ProbeError::NotAnImage) => Ok(()),
        Err(ProbeError::Failed) => Err(MakeDeviceError::DeviceFault),
        Err(ProbeError::NoMemory) => Err(MakeDeviceError::NoMemory),
    }
}

// Makes the device.
fn make<D: ZonedDevice>(dev: &mut D, shape: &Geometry) -> Result<(), MakeDeviceError>
    requires { IsTrue (is_valid shape.now) }
    ensures made { OnOk result (IsBlank D.known D.geometry D.infos D.tells D.image shape.now dev.new) }
    ensures refused { IfErr result (HasDeviceReason (Rose (D.faults dev.old) (D.faults dev.new)) ⊥ ⊥ ⊥) }
    ensures unchanged { IfErr result (StaysUnmade (D.tells → D.image dev.new ≡ D.image dev.old)) }
{
    match dev.make(shape) {
        Ok(()) => Ok(()),
        Err(MakeError::Failed) => Err(MakeDeviceError::DeviceFault),
        Err(MakeError::NoMemory) => Err(MakeDeviceError::NoMemory),
    }
}
