// Writes a new image to a file.
ghost use Rattle.std.specs.Prelude.{◌≡◌, ◌↔◌, ◌+◌, ◌-◌, ◌*◌, ◌≤◌, [], length, replicate, true, false, IfOk, OnOk, IsErr, IsErrOf, IsTrue};
ghost use Rattle.zone_image.specs.Image.{is_valid};
ghost use Rattle.zone_image.specs.Counts.{HasCause};
ghost use Rattle.image_backend.specs.Contents.{patched, SameFile};
ghost use Rattle.power_image.specs.Layout.{header_bytes, zones_at};
ghost use Rattle.power_image.specs.Making.{with_gates, blank_front, new_image};
ghost use Rattle.power_image.specs.State.{HoldsZones};

use crate::descriptor::{DESCRIPTOR_BYTES, OPEN_GATE};
use crate::format::{self, HEADER_BYTES, PAGE};
use image_backend::{ByteFile, FileFault};
use std::alloc::{AllocError, Global};
use zone_image::Geometry;
use zoned_device::MakeError;

/// Writes the length of an image, descriptors whose first slot is open and says that the zone is empty, and the header
/// last. Where that fails in a file that was
/// made for it, the file is taken away again.
pub(crate) fn write_image<F: ByteFile>(
    alloc: Global,
    file: &mut F,
    geometry: &Geometry,
) -> Result<(), MakeError>
    requires { IsTrue (is_valid geometry.now) }
    ensures holds { OnOk result (HoldsZones F.is_open F.is_sized F.size geometry.now file.new) }
    ensures made { OnOk result (F.tells → F.contents file.new ≡ new_image geometry.now (F.contents file.old)) }
    ensures same { IsErrOf result MakeError.NoMemory → F.is_open file.old
        → SameFile F.is_open F.is_sized F.size F.tells F.contents file.old file.new }
    ensures same_contents { IsErrOf result MakeError.NoMemory → F.tells → F.contents file.new ≡ F.contents file.old }
    ensures durable { OnOk result (F.tells → F.is_durable file.new) }
    ensures cause { HasCause (F.faults file.old) (F.faults file.new) (IsErrOf result MakeError.Failed) }
{
    let front = match blank_front(alloc, geometry) {
        Ok(front) => front,
        Err(_) => return Err(MakeError::NoMemory),
    };
    let made = open_or_create(file)?;
    match write_parts(file, geometry, &front) {
        Ok(()) => Ok(()),
        Err(error) => {
            take_back(file, made);
            Err(error)
        }
    }
}

// What stands between the header and the zones of a new image.
fn blank_front(alloc: Global, geometry: &Geometry) -> Result<Vec<u8>, AllocError>
    requires { IsTrue (is_valid geometry.now) }
    ensures { IfOk result (λ front. front.items ≡ blank_front geometry.now) }
{
    let size = format::zones_at(geometry) as usize - HEADER_BYTES;
    let mut front = vec![in alloc; 0u8; size]?;
    open_first_gates(&mut front, geometry.zones);
    Ok(front)
}

// Opens the first gate of each zone's descriptor.
fn open_first_gates(front: &mut [u8], zones: u32)
    requires { 4064 + zones * 32 ≤ length front.old }
    ensures { front.new ≡ with_gates zones front.old }
{
    for zone in 0..zones {
        let at = PAGE as usize - HEADER_BYTES + zone as usize * DESCRIPTOR_BYTES;
        front[at] = OPEN_GATE;
    }
}

// Takes a file away that was made here.
fn take_back<F: ByteFile>(file: &mut F, made: bool)
    ensures gone { IsTrue made → F.tells → F.contents file.new ≡ [] }
    ensures same { made ≡ false → SameFile F.is_open F.is_sized F.size F.tells F.contents file.old file.new }
    ensures no_fault { F.faults file.new ≡ F.faults file.old }
{
    if made {
        file.remove();
    }
}

// Writes the length of an image, what stands between header and zones, and the header last.
fn write_parts<F: ByteFile>(
    file: &mut F,
    geometry: &Geometry,
    front: &[u8],
) -> Result<(), MakeError>
    requires valid { IsTrue (is_valid geometry.now) }
    requires opened { F.is_open file.old }
    requires front { front.now ≡ blank_front geometry.now }
    ensures holds { OnOk result (HoldsZones F.is_open F.is_sized F.size geometry.now file.new) }
    ensures made { OnOk result (F.tells → F.contents file.new ≡ new_image geometry.now (F.contents file.old)) }
    ensures same { IsErrOf result MakeError.NoMemory → SameFile F.is_open F.is_sized F.size F.tells F.contents file.old file.new }
    ensures durable { OnOk result (F.tells → F.is_durable file.new) }
    ensures cause { HasCause (F.faults file.old) (F.faults file.new) (IsErrOf result MakeError.Failed) }
{
    file.set_len(format::image_bytes(geometry))?;
    write_front(file, geometry, front)?;
    Ok(())
}

// Writes what stands before the zones, the header last, and makes it durable.
fn write_front<F: ByteFile>(
    file: &mut F,
    geometry: &Geometry,
    front: &[u8],
) -> Result<(), FileFault>
    requires valid { IsTrue (is_valid geometry.now) }
    requires holds { HoldsZones F.is_open F.is_sized F.size geometry.now file.old }
    requires size { 32 + length front.now ≡ zones_at geometry.now }
    ensures holds { HoldsZones F.is_open F.is_sized F.size geometry.now file.new }
    ensures written { OnOk result (F.tells → F.contents file.new
        ≡ patched 0 (header_bytes geometry.now) (patched 32 front.now (F.contents file.old))) }
    ensures durable { OnOk result (F.tells → F.is_durable file.new) }
    ensures cause { HasCause (F.faults file.old) (F.faults file.new) (IsErr result) }
{
    file.write_at(HEADER_BYTES as u64, front)?;
    file.write_at(0, &format::header(geometry))?;
    file.sync()
}

// Opens the file, and makes one where none is. It answers whether it made one.
fn open_or_create<F: ByteFile>(file: &mut F) -> Result<bool, FileFault>
    ensures opened { OnOk result (F.is_open file.new) }
    ensures was_none { IfOk result (λ made. IsTrue made → F.is_open file.old → ⊥) }
    ensures was_empty { IfOk result (λ made. IsTrue made → F.tells → F.contents file.old ≡ []) }
    ensures same { OnOk result (F.is_open file.old
        → SameFile F.is_open F.is_sized F.size F.tells F.contents file.old file.new) }
    ensures same_contents { OnOk result (F.tells → F.contents file.new ≡ F.contents file.old) }
    ensures cause { HasCause (F.faults file.old) (F.faults file.new) (IsErr result) }
{
    if file.open()? {
        return Ok(false);
    }
    file.create()?;
    Ok(true)
}
