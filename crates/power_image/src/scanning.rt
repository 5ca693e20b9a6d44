// Whether a file holds an image, and which zones it has.
ghost use Rattle.std.specs.Prelude.{◌≡◌, ◌*◌, [], true, false, map, length, is_some, IfOk, IfSome, OnOk, IsTrue, IsErrOf};
ghost use Rattle.std.specs.List.{list_all};
ghost use Rattle.zone_image.specs.Image.{is_valid};
ghost use Rattle.zone_image.specs.Changes.{chunks};
ghost use Rattle.zone_image.specs.Counts.{HasCause};
ghost use Rattle.zone_image.specs.Infos.{active_zones};
ghost use Rattle.image_backend.specs.Format.{geometry_of};
ghost use Rattle.image_backend.specs.Table.{slot_of, slot_info};
ghost use Rattle.power_image.specs.Descriptors.{is_descriptor, said_in, told, are_possible, descriptors_in, has_header, is_image};
ghost use Rattle.power_image.specs.Table.{numbers_of, known_of, known_in, IsKnownTable};
ghost use Rattle.power_image.specs.State.{HoldsZones, HoldsTable};

use crate::descriptor::{self, DESCRIPTOR_BYTES, Descriptor};
use crate::format::{self, HEADER_BYTES, PAGE};
use crate::table::{Table, Zone};
use image_backend::{ByteFile, FileFault};
use std::alloc::{AllocError, Global};
use zone_image::Geometry;
use zoned_device::ProbeError;

/// Looks whether a file holds an image, and at its zones.
pub(crate) fn scan<F: ByteFile>(alloc: Global, file: &mut F) -> Result<Table, ProbeError>
    ensures found { IfOk result (λ t. HoldsTable F.is_open F.is_sized F.size t file.new) }
    ensures table { IfOk result (λ t. F.tells → t ≡ known_in (F.contents file.old)) }
    ensures right { OnOk result (F.tells → is_image (F.contents file.old) ≡ true) }
    ensures wrong { IsErrOf result ProbeError.NotAnImage → F.tells → is_image (F.contents file.old) ≡ false }
    ensures same { F.tells → F.contents file.new ≡ F.contents file.old }
    ensures cause { HasCause (F.faults file.old) (F.faults file.new) (IsErrOf result ProbeError.Failed) }
{
    let size = open_file(file)?;
    let geometry = read_geometry(file, size)?;
    read_table(alloc, file, geometry)
}

// Opens the file, and answers its length.
fn open_file<F: ByteFile>(file: &mut F) -> Result<u64, ProbeError>
    ensures opened { OnOk result (F.is_open file.new) }
    ensures known { OnOk result (F.is_sized file.new) }
    ensures size { IfOk result (λ size. size ≡ F.size file.new) }
    ensures absent { IsErrOf result ProbeError.NotAnImage → F.tells → F.contents file.old ≡ [] }
    ensures same { F.tells → F.contents file.new ≡ F.contents file.old }
    ensures cause { HasCause (F.faults file.old) (F.faults file.new) (IsErrOf result ProbeError.Failed) }
{
    if !file.open()? {
        return Err(ProbeError::NotAnImage);
    }
    Ok(file.len()?)
}

// The geometry of a file that is long enough for it.
fn read_geometry<F: ByteFile>(file: &mut F, size: u64) -> Result<Geometry, ProbeError>
    requires opened { F.is_open file.old }
    requires known { F.is_sized file.old }
    requires size { size ≡ F.size file.old }
    ensures valid { IfOk result (λ g. IsTrue (is_valid g)) }
    ensures holds { IfOk result (λ g. HoldsZones F.is_open F.is_sized F.size g file.new) }
    ensures found { IfOk result (λ g. F.tells → g ≡ geometry_of (F.contents file.old)) }
    ensures right { OnOk result (F.tells → has_header (F.contents file.old) ≡ true) }
    ensures wrong { IsErrOf result ProbeError.NotAnImage → F.tells → has_header (F.contents file.old) ≡ false }
    ensures same { F.tells → F.contents file.new ≡ F.contents file.old }
    ensures cause { HasCause (F.faults file.old) (F.faults file.new) (IsErrOf result ProbeError.Failed) }
{
    if size < PAGE {
        return Err(ProbeError::NotAnImage);
    }
    let mut header = [0; HEADER_BYTES];
    file.read_at(0, &mut header)?;
    let geometry = format::geometry(&header).ok_or(ProbeError::NotAnImage)?;
    if size < format::image_bytes(&geometry) {
        return Err(ProbeError::NotAnImage);
    }
    Ok(geometry)
}

// The zones of a file that has descriptors for as many.
fn read_table<F: ByteFile>(
    alloc: Global,
    file: &mut F,
    geometry: Geometry,
) -> Result<Table, ProbeError>
    requires valid { IsTrue (is_valid geometry) }
    requires holds { HoldsZones F.is_open F.is_sized F.size geometry file.old }
    ensures found { IfOk result (λ t. HoldsTable F.is_open F.is_sized F.size t file.new) }
    ensures table { IfOk result (λ t. F.tells → t ≡ known_of geometry (descriptors_in geometry (F.contents file.old))) }
    ensures right { OnOk result (F.tells → are_possible geometry (descriptors_in geometry (F.contents file.old)) ≡ true) }
    ensures wrong { IsErrOf result ProbeError.NotAnImage → F.tells
        → are_possible geometry (descriptors_in geometry (F.contents file.old)) ≡ false }
    ensures same { F.tells → F.contents file.new ≡ F.contents file.old }
    ensures cause { HasCause (F.faults file.old) (F.faults file.new) (IsErrOf result ProbeError.Failed) }
{
    let size = geometry.zones as usize * DESCRIPTOR_BYTES;
    let mut bytes = match vec![in alloc; 0u8; size] {
        Ok(bytes) => bytes,
        Err(_) => return Err(ProbeError::NoMemory),
    };
    file.read_at(PAGE, &mut bytes)?;
    match table_in(alloc, geometry, &bytes) {
        Ok(Some(table)) => Ok(table),
        Ok(None) => Err(ProbeError::NotAnImage),
        Err(_) => Err(ProbeError::NoMemory),
    }
}

// The zones of these descriptors, if they are possible.
fn table_in(alloc: Global, geometry: Geometry, bytes: &[u8]) -> Result<Option<Table>, AllocError>
    requires valid { IsTrue (is_valid geometry) }
    requires size { length bytes.now ≡ geometry.zones * 32 }
    ensures exact { IfOk result (λ table. is_some table ≡ are_possible geometry (chunks 32 geometry.zones bytes.now)) }
    ensures found { IfOk result (λ table. IfSome table (λ t. t ≡ known_of geometry (chunks 32 geometry.zones bytes.now))) }
    ensures possible { IfOk result (λ table. IfSome table IsKnownTable) }
{
    let descriptors = match descriptors_in(alloc, &geometry, bytes)? {
        Some(descriptors) => descriptors,
        None => return Ok(None),
    };
    let zones = zones_of(alloc, &descriptors)?;
    if active_count(&zones) > geometry.active_limit as usize {
        return Ok(None);
    }
    Ok(Some(Table::new(geometry, zones, descriptors)))
}

// What descriptors say, if each of them is right.
fn descriptors_in(
    alloc: Global,
    geometry: &Geometry,
    bytes: &[u8],
) -> Result<Option<Vec<Descriptor>>, AllocError>
    requires { length bytes.now ≡ geometry.now.zones * 32 }
    ensures exact { IfOk result (λ ds. is_some ds ≡ list_all (is_descriptor geometry.now) (chunks 32 geometry.now.zones bytes.now)) }
    ensures found { IfOk result (λ ds. IfSome ds (λ d. d.items ≡ map said_in (chunks 32 geometry.now.zones bytes.now))) }
{
    let mut descriptors = Vec::with_capacity(alloc, geometry.zones as usize)?;
    for zone in 0..geometry.zones {
        let start = zone as usize * DESCRIPTOR_BYTES;
        let part = &bytes[start..start + DESCRIPTOR_BYTES];
        match descriptor::read(geometry, part) {
            Some(descriptor) => descriptors.push(descriptor)?,
            None => return Ok(None),
        }
    }
    Ok(Some(descriptors))
}

// The zones as their descriptors tell them.
fn zones_of(alloc: Global, descriptors: &[Descriptor]) -> Result<Vec<Zone>, AllocError>
    ensures { IfOk result (λ zones. map numbers_of zones.items ≡ map slot_of (map told descriptors.now)) }
{
    let mut zones = Vec::with_capacity(alloc, descriptors.len())?;
    for descriptor in descriptors.iter() {
        zones.push(Zone::of(descriptor.counting.info()))?;
    }
    Ok(zones)
}

// How many zones are active.
fn active_count(zones: &[Zone]) -> usize
    ensures { result ≡ active_zones (map slot_info (map numbers_of zones.now)) }
{
    zones.iter().filter(|zone| zone.is_active()).count()
}
