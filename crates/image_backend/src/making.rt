// Writes a new image to a file.
ghost use Rattle.std.specs.Prelude.{◌≡◌, ◌↔◌, ◌+◌, ◌-◌, [], length, replicate, true, false, IfOk, OnOk, IsErr, IsErrOf, IsTrue};
ghost use Rattle.zone_image.specs.Image.{is_valid};
ghost use Rattle.zone_image.specs.Changes.{blank};
ghost use Rattle.zone_image.specs.Counts.{HasCause};
ghost use Rattle.image_backend.specs.Contents.{patched, SameFile};
ghost use Rattle.image_backend.specs.Format.{header_bytes, zones_at, is_image, new_image};
ghost use Rattle.image_backend.specs.ImageState.{HoldsZones};
ghost use Rattle.image_backend.specs.FileImage.{found_image};

use crate::byte_file::{ByteFile, FileFault, SetLenError};
use crate::format::{self, HEADER_BYTES};
use std::alloc::Global;
use thiserror::Error;
use zone_image::Geometry;
use zoned_device::MakeError;

/// Why an image can't be made in a file.
#[derive(Clone, Copy, Debug, PartialEq, Eq, Drop, Error)]
pub enum ImageError {
    /// The geometry isn't valid.
    #[error("the geometry isn't within its limits")]
    BadGeometry,
    /// The file failed. It comes only where the file's count of faults rose.
    #[error("the file failed")]
    Fault,
    /// There is no memory for it; the file's bytes are as they were.
    #[error("out of memory")]
    NoMemory,
}

/// Makes an image of this geometry in a file, in place of what is there: all zones are empty, as `made`, `found` and
/// `empty` say. `BadGeometry` comes exactly where the geometry isn't valid.
pub fn make_image<F: ByteFile>(
    alloc: Global,
    file: &mut F,
    geometry: &Geometry,
) -> Result<(), ImageError>
    ensures bad_geometry { IsErrOf result ImageError.BadGeometry ↔ is_valid geometry.now ≡ false }
    ensures made { OnOk result (F.tells → F.contents file.new ≡ new_image geometry.now (F.contents file.old)) }
    ensures found { OnOk result (F.tells → is_image (F.contents file.new) ≡ true) }
    ensures empty { OnOk result (F.tells → found_image (F.contents file.new) ≡ blank geometry.now) }
    ensures no_memory { IsErrOf result ImageError.NoMemory → F.tells → F.contents file.new ≡ F.contents file.old }
    ensures durable { OnOk result (F.tells → F.is_durable file.new) }
    ensures cause { HasCause (F.faults file.old) (F.faults file.new) (IsErrOf result ImageError.Fault) }
{
    if !geometry.valid() {
        return Err(ImageError::BadGeometry);
    }
    match write_image(alloc, file, geometry) {
        Ok(()) => Ok(()),
        Err(MakeError::Failed) => Err(ImageError::Fault),
        Err(MakeError::NoMemory) => Err(ImageError::NoMemory),
    }
}

/// Writes the length of an image, zeros for its descriptors, and its header last. Where that fails in a file that was
/// made for it, the file is taken away again.
pub(crate) fn write_image<F: ByteFile>(
    alloc: Global,
    file: &mut F,
    geometry: &Geometry,
) -> Result<(), MakeError>
    requires { IsTrue (is_valid geometry.now) }
    ensures holds { OnOk result (HoldsZones F.is_open F.is_sized F.size geometry.now file.new) }
    ensures made { OnOk result (F.tells → F.contents file.new ≡ new_image geometry.now (F.contents file.old)) }
    ensures same { IsErrOf result MakeError.NoMemory → F.is_open file.old
        → SameFile F.is_open F.is_sized F.size F.tells F.contents file.old file.new }
    ensures same_contents { IsErrOf result MakeError.NoMemory → F.tells → F.contents file.new ≡ F.contents file.old }
    ensures durable { OnOk result (F.tells → F.is_durable file.new) }
    ensures cause { HasCause (F.faults file.old) (F.faults file.new) (IsErrOf result MakeError.Failed) }
{
    let size = format::zones_at(geometry) as usize - HEADER_BYTES;
    let zeros = match vec![in alloc; 0u8; size] {
        Ok(zeros) => zeros,
        Err(_) => return Err(MakeError::NoMemory),
    };
    let made = open_or_create(file)?;
    match write_parts(file, geometry, &zeros) {
        Ok(()) => Ok(()),
        Err(error) => {
            take_back(file, made);
            Err(error)
        }
    }
}

// Takes a file away that was made here.
fn take_back<F: ByteFile>(file: &mut F, made: bool)
    ensures gone { IsTrue made → F.tells → F.contents file.new ≡ [] }
    ensures same { made ≡ false → SameFile F.is_open F.is_sized F.size F.tells F.contents file.old file.new }
    ensures no_fault { F.faults file.new ≡ F.faults file.old }
{
    if made {
        file.remove();
    }
}

// Writes the length of an image, zeros for its descriptors, and its header last.
fn write_parts<F: ByteFile>(
    file: &mut F,
    geometry: &Geometry,
    zeros: &[u8],
) -> Result<(), MakeError>
    requires valid { IsTrue (is_valid geometry.now) }
    requires opened { F.is_open file.old }
    requires size { 32 + length zeros.now ≡ zones_at geometry.now }
    requires zeros { zeros.now ≡ replicate (zones_at geometry.now - 32) 0 }
    ensures holds { OnOk result (HoldsZones F.is_open F.is_sized F.size geometry.now file.new) }
    ensures made { OnOk result (F.tells → F.contents file.new ≡ new_image geometry.now (F.contents file.old)) }
    ensures same { IsErrOf result MakeError.NoMemory → SameFile F.is_open F.is_sized F.size F.tells F.contents file.old file.new }
    ensures durable { OnOk result (F.tells → F.is_durable file.new) }
    ensures cause { HasCause (F.faults file.old) (F.faults file.new) (IsErrOf result MakeError.Failed) }
{
    file.set_len(format::image_bytes(geometry))?;
    write_front(file, geometry, zeros)?;
    Ok(())
}

// Writes what stands before the zones, the header last, and makes it durable.
fn write_front<F: ByteFile>(
    file: &mut F,
    geometry: &Geometry,
    zeros: &[u8],
) -> Result<(), FileFault>
    requires valid { IsTrue (is_valid geometry.now) }
    requires holds { HoldsZones F.is_open F.is_sized F.size geometry.now file.old }
    requires size { 32 + length zeros.now ≡ zones_at geometry.now }
    ensures holds { HoldsZones F.is_open F.is_sized F.size geometry.now file.new }
    ensures written { OnOk result (F.tells → F.contents file.new
        ≡ patched 0 (header_bytes geometry.now) (patched 32 zeros.now (F.contents file.old))) }
    ensures durable { OnOk result (F.tells → F.is_durable file.new) }
    ensures cause { HasCause (F.faults file.old) (F.faults file.new) (IsErr result) }
{
    file.write_at(HEADER_BYTES as u64, zeros)?;
    file.write_at(0, &format::header(geometry))?;
    file.sync()
}

// Opens the file, and makes one where none is. It answers whether it made one.
fn open_or_create<F: ByteFile>(file: &mut F) -> Result<bool, FileFault>
    ensures opened { OnOk result (F.is_open file.new) }
    ensures was_none { IfOk result (λ made. IsTrue made → F.is_open file.old → ⊥) }
    ensures was_empty { IfOk result (λ made. IsTrue made → F.tells → F.contents file.old ≡ []) }
    ensures same { OnOk result (F.is_open file.old
        → SameFile F.is_open F.is_sized F.size F.tells F.contents file.old file.new) }
    ensures same_contents { OnOk result (F.tells → F.contents file.new ≡ F.contents file.old) }
    ensures cause { HasCause (F.faults file.old) (F.faults file.new) (IsErr result) }
{
    if file.open()? {
        return Ok(false);
    }
    file.create()?;
    Ok(true)
}

impl From<FileFault> for MakeError {
    ghost use Rattle.zoned_device.specs.declared.error.MakeError.TheVariants.{Failed};
    ghost use Rattle.std.specs.Prelude.{◌≡◌};

    ghost from_gives = { λ _ e. e ≡ Failed };

    fn from(_: FileFault) -> Self {
        MakeError::Failed
    }
}

impl From<SetLenError> for MakeError {
    ghost use Rattle.image_backend.specs.ImageState.{IsSame};

    ghost from_gives = { IsSame };

    fn from(error: SetLenError) -> Self {
        match error {
            SetLenError::Failed => MakeError::Failed,
            SetLenError::NoMemory => MakeError::NoMemory,
        }
    }
}
