//! CRC-32C (Castagnoli), the checksum of metadata records, and the mask under which it is stored.
#![tactic(auto)]

ghost use Rattle.std.specs.Prelude.{◌≡◌, ℕ, ◌<◌, ◌^◌, List, ◌++◌};
ghost use Rattle.crc32c_core.specs.Checksum.{crc32c, masked};

mod register;
mod tables;

// What the register starts with, and what is added to it at the end.
const ALL_ONES: u32 = 0xFFFF_FFFF;

// What the mask adds to the rotated checksum.
const MASK_DELTA: u32 = 0xA282_EAD8;

// By how many bits the mask rotates the checksum.
const MASK_ROTATION: u32 = 15;

/// The checksum of the bytes.
pub fn crc32c(bytes: &[u8]) -> u32
    ensures { result ≡ crc32c bytes.now }
{
    register::after(ALL_ONES, bytes) ^ ALL_ONES
}

/// The checksum of a text whose front has the checksum `crc`, and whose rest is `bytes`.
pub fn extend(crc: u32, bytes: &[u8]) -> u32
    ensures { (front : List ℕ) → crc ≡ crc32c front → result ≡ crc32c (front ++ bytes.now) }
{
    register::after(crc ^ ALL_ONES, bytes) ^ ALL_ONES
}

/// The form in which a checksum is stored beside the bytes that it covers: so that bytes which
/// hold a checksum of their own aren't a likely match for it.
pub fn mask(crc: u32) -> u32
    ensures { result ≡ masked crc }
{
    crc.rotate_right(MASK_ROTATION).wrapping_add(MASK_DELTA)
}

/// The checksum that is stored as `stored`: the one inverse of `mask`.
pub fn unmask(stored: u32) -> u32
    ensures of_mask { (crc : ℕ) → crc < 2 ^ 32 → stored ≡ masked crc → result ≡ crc }
    ensures to_mask { masked result ≡ stored }
{
    stored.wrapping_sub(MASK_DELTA).rotate_left(MASK_ROTATION)
}
