// The first record of a zone, as a superblock of this device.
ghost use Rattle.std.specs.Prelude.{◌≡◌, ◌+◌, ◌≤◌, length, IfOk, IfSome};
ghost use Rattle.superblock_core.specs.Superblock.{u32_at, superblock_of};
ghost use Rattle.log_roll.specs.Summaries.{fitting, superblock_in, superblock_with, unsupported, HasKnownFlags};

use log_model::{Damage, DamageWhy, Refusal};
use superblock_core::{SUPERBLOCK_BYTES, SbError, Superblock};
use zone_image::Geometry;

// Where the version and the flags stand in a superblock.
const VERSION_AT: usize = 45;

const FLAGS_AT: usize = 49;

/// The superblock of a zone's first payload. None where it has another length or magic number.
pub(crate) fn superblock_in(
    geometry: &Geometry,
    zone: u32,
    payload: &[u8],
) -> Result<Option<Superblock>, Refusal>
    ensures exact { result ≡ superblock_in geometry.now zone payload.now }
    ensures flags { IfOk result (λ found. IfSome found HasKnownFlags) }
{
    if payload.len() != SUPERBLOCK_BYTES {
        return Ok(None);
    }
    let mut bytes = [0; SUPERBLOCK_BYTES];
    bytes.copy_from_slice(payload);
    superblock_with(geometry, zone, payload, Superblock::decode(&bytes))
}

// What the superblock that was decoded of a payload says of its zone.
fn superblock_with(
    geometry: &Geometry,
    zone: u32,
    payload: &[u8],
    decoded: Result<Superblock, SbError>,
) -> Result<Option<Superblock>, Refusal>
    requires whole { length payload.now ≡ 512 }
    requires of_payload { decoded ≡ superblock_of payload.now }
    ensures exact { result ≡ superblock_with geometry.now zone payload.now decoded }
    ensures flags { IfOk result (λ found. IfSome found HasKnownFlags) }
{
    match decoded {
        Ok(superblock) => fitting(geometry, zone, superblock),
        Err(SbError::Magic) => Ok(None),
        Err(SbError::Version { found: _ }) => Err(unsupported(zone, payload)),
        Err(SbError::Flags { found: _ }) => Err(unsupported(zone, payload)),
        Err(SbError::Text { at }) => Err(Refusal::Damaged(Damage {
            zone,
            block: 0,
            why: DamageWhy::Text { at },
        })),
    }
}

// The superblock, if it was written for a device of this shape.
fn fitting(
    geometry: &Geometry,
    zone: u32,
    superblock: Superblock,
) -> Result<Option<Superblock>, Refusal>
    requires { superblock.flags ≤ 1 }
    ensures exact { result ≡ fitting geometry.now zone superblock }
    ensures flags { IfOk result (λ found. IfSome found HasKnownFlags) }
{
    match superblock.fits(geometry) {
        Ok(()) => Ok(Some(superblock)),
        Err(own) => Err(Refusal::Differs {
            zone,
            block: own.block,
            zone_blocks: own.zone_blocks,
            zones: own.zones,
        }),
    }
}

// The refusal of a superblock of another version, or with unknown flags.
fn unsupported(zone: u32, payload: &[u8]) -> Refusal
    requires { length payload.now ≡ 512 }
    ensures { result ≡ unsupported zone payload.now }
{
    Refusal::Unsupported {
        zone,
        version: u32_at(payload, VERSION_AT),
        flags: u32_at(payload, FLAGS_AT),
    }
}

/// The number of the four bytes at a place, the lowest first.
pub(crate) fn u32_at(bytes: &[u8], at: usize) -> u32
    requires { at + 4 ≤ length bytes.now }
    ensures { result ≡ u32_at at bytes.now }
{
    u32::from_le_bytes([bytes[at], bytes[at + 1], bytes[at + 2], bytes[at + 3]])
}
