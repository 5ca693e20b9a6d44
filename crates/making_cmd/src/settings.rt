// The superblock of a new file system.
ghost use Rattle.std.specs.Prelude.{◌≡◌, codes, if◌then◌else◌};
ghost use Rattle.log_model.specs.Format.{identifier_of};
ghost use Rattle.making_cmd.specs.NewFs.{superblock_for};

use superblock_core::{AuxPath, COLLECT_FLAG, Superblock, VersionText};
use zone_image::Geometry;

// 2 to these powers.
const BIT_12: u128 = 1 << 12;

const BIT_62: u128 = 1 << 62;

const BIT_64: u128 = 1 << 64;

const BIT_76: u128 = 1 << 76;

const BIT_80: u128 = 1 << 80;

/// What is chosen for a new file system.
#[derive(Clone, Copy)]
pub struct Settings {
    /// The auxiliary path, of one byte at least.
    pub aux_path: AuxPath,
    /// The part of a zone, in percent, below which it is finished when it is given back with less room.
    pub finish_threshold: u32,
    /// Whether zones are collected.
    pub collect: bool,
}

// The identifier that random bits make: version 4, and the variant with the bits 10.
fn identifier(random: u128) -> u128
    ensures { result ≡ identifier_of random }
{
    let front = random / BIT_80 * BIT_80 + 4 * BIT_76;
    let middle = random / BIT_64 % BIT_12 * BIT_64;
    front + middle + 2 * BIT_62 + random % BIT_62
}

// Bit 0 of the flags: whether zones are collected.
fn flags(collect: bool) -> u32
    ensures { result ≡ if collect then 1 else 0 }
{
    if collect { COLLECT_FLAG } else { 0 }
}

// This project's version text.
fn version_text() -> VersionText
    ensures { result ≡ codes "profile-2" }
{
    match VersionText::read("profile-2") {
        Some(text) => text,
        None => unreachable!(),
    }
}

/// The superblock of a new file system on a device of this shape: its sequence is 1, its identifier is made of the
/// random bits, and its version text is this project's.
pub fn new_superblock(geometry: &Geometry, settings: &Settings, random: u128) -> Superblock
    ensures { result ≡ superblock_for settings.now random geometry.now }
{
    Superblock {
        id: identifier(random),
        sequence: 1,
        flags: flags(settings.collect),
        block: geometry.block,
        zone_blocks: geometry.zone_blocks,
        zones: geometry.zones,
        finish_threshold: settings.finish_threshold,
        aux_path: settings.aux_path,
        version_text: version_text(),
    }
}
