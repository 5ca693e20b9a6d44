// The header of an image file, and where things stand in it.
ghost use Rattle.std.specs.Prelude.{◌≡◌, ◌+◌, ◌*◌, ◌<◌, ◌≤◌, ◌^◌, ◌++◌, take, length, is_some, IfSome, IsTrue};
ghost use Rattle.zone_image.specs.Image.{is_valid};
ghost use Rattle.image_backend.specs.Format.{u32, geometry_in};
ghost use Rattle.power_image.specs.Layout.{is_marked, header_bytes, is_header, zones_at, image_bytes, block_at, descriptor_at, slot_offset};

use crate::descriptor::{DESCRIPTOR_BYTES, SLOT_BYTES};
use byteorder::{ByteOrder, LittleEndian};
use crc32c_core::{crc32c, mask};
use zone_image::Geometry;

/// The bytes of the header.
pub(crate) const HEADER_BYTES: usize = 32;

/// Where the descriptors begin. The zones begin at a multiple of it.
pub(crate) const PAGE: u64 = 4096;

// The text with which an image begins.
const MAGIC: [u8; 8] = *b"ZNSIMG02";

// The place of each field of the header.
const BLOCK_AT: usize = 8;

const ZONE_BLOCKS_AT: usize = 12;

const CAPACITY_AT: usize = 16;

const ZONES_AT: usize = 20;

const ACTIVE_LIMIT_AT: usize = 24;

const CHECKSUM_AT: usize = 28;

/// The header of an image.
pub(crate) fn header(geometry: &Geometry) -> [u8; HEADER_BYTES]
    ensures { result ≡ header_bytes geometry.now }
{
    let mut header = [0; HEADER_BYTES];
    header[..BLOCK_AT].copy_from_slice(&MAGIC);
    put(&mut header, BLOCK_AT, geometry.block);
    put(&mut header, ZONE_BLOCKS_AT, geometry.zone_blocks);
    put(&mut header, CAPACITY_AT, geometry.capacity);
    put(&mut header, ZONES_AT, geometry.zones);
    put(&mut header, ACTIVE_LIMIT_AT, geometry.active_limit);
    let checksum = mask(crc32c(&header[..CHECKSUM_AT]));
    put(&mut header, CHECKSUM_AT, checksum);
    header
}

// Writes a number at a place.
fn put(out: &mut [u8], at: usize, number: u32)
    requires { at + 4 ≤ length out.old }
    ensures { take (at + 4) out.new ≡ take at out.old ++ u32 number }
{
    LittleEndian::write_u32(&mut out[at..], number);
}

/// The geometry of a header, if the header is right.
pub(crate) fn geometry(header: &[u8; HEADER_BYTES]) -> Option<Geometry>
    ensures exact { is_some result ≡ is_header header.now }
    ensures found { IfSome result (λ g. g ≡ geometry_in header.now) }
{
    if !is_marked(header) {
        return None;
    }
    let geometry = numbers(header);
    if !geometry.valid() {
        return None;
    }
    Some(geometry)
}

// The numbers of a header.
#[tactic(auto, unfolding(image_backend::specs::Format::geometry_in))]
fn numbers(header: &[u8; HEADER_BYTES]) -> Geometry
    ensures { result ≡ geometry_in header.now }
{
    Geometry {
        block: LittleEndian::read_u32(&header[BLOCK_AT..]),
        zone_blocks: LittleEndian::read_u32(&header[ZONE_BLOCKS_AT..]),
        capacity: LittleEndian::read_u32(&header[CAPACITY_AT..]),
        zones: LittleEndian::read_u32(&header[ZONES_AT..]),
        active_limit: LittleEndian::read_u32(&header[ACTIVE_LIMIT_AT..]),
    }
}

// Whether the text and the checksum of a header are right.
#[tactic(auto, unfolding(crate::specs::Layout::is_marked))]
fn is_marked(header: &[u8; HEADER_BYTES]) -> bool
    ensures { result ≡ is_marked header.now }
{
    if header[..BLOCK_AT] != MAGIC[..] {
        return false;
    }
    let stored = LittleEndian::read_u32(&header[CHECKSUM_AT..]);
    let computed = mask(crc32c(&header[..CHECKSUM_AT]));
    stored == computed
}

/// Where the zones begin.
#[tactic(auto, unfolding(crate::specs::Layout::zones_at))]
pub(crate) fn zones_at(geometry: &Geometry) -> u64
    requires { IsTrue (is_valid geometry.now) }
    ensures place { result ≡ zones_at geometry.now }
    ensures past { 4096 ≤ result }
    ensures small { result < 2 ^ 32 }
{
    descriptor_at(geometry.zones).next_multiple_of(PAGE)
}

/// The least length of an image file.
pub(crate) fn image_bytes(geometry: &Geometry) -> u64
    requires { IsTrue (is_valid geometry.now) }
    ensures { result ≡ image_bytes geometry.now }
{
    zones_at(geometry) + geometry.address(geometry.zones, 0)
}

/// Where a block of a zone stands.
pub(crate) fn block_at(geometry: &Geometry, zone: u32, block: u32) -> u64
    requires valid { IsTrue (is_valid geometry.now) }
    requires is_zone { zone < geometry.now.zones }
    requires is_block { block ≤ geometry.now.capacity }
    ensures { result ≡ block_at geometry.now zone block }
{
    zones_at(geometry) + geometry.address(zone, block * geometry.block)
}

/// Where the descriptor of a zone stands.
pub(crate) fn descriptor_at(zone: u32) -> u64
    ensures { result ≡ descriptor_at zone }
{
    PAGE + u64::from(zone) * DESCRIPTOR_BYTES as u64
}

/// Where a slot of a descriptor stands: the first one, or the second.
pub(crate) fn slot_at(zone: u32, second: bool) -> u64
    ensures { result ≡ descriptor_at zone + slot_offset second }
{
    if second {
        descriptor_at(zone) + SLOT_BYTES as u64
    } else {
        descriptor_at(zone)
    }
}
