// What the commands print that make a device and a file system.
ghost use Rattle.std.specs.Prelude.{◌≡◌, ◌++◌, ◌*◌, ◌-◌, codes, decimal, IfOk, OnOk};
ghost use Rattle.command_model.specs.ReportTexts.{line, made_fs_text, made_image_text};

use record_model::Payload;
use std::alloc::{AllocError, Global};
use zone_image::Geometry;

// Adds a number.
fn push_number(alloc: Global, text: &mut Vec<u8>, number: u128) -> Result<(), AllocError>
    ensures { OnOk result (text.new.items ≡ text.old.items ++ decimal number) }
{
    let digits = format!(in alloc; "{number}")?;
    text.extend_from_slice(digits.as_bytes())?;
    Ok(())
}

// A text, and a number.
fn numbered(alloc: Global, label: &str, number: u128) -> Result<Vec<u8>, AllocError>
    ensures { IfOk result (λ text. text.items ≡ label.now ++ decimal number) }
{
    let mut text = Vec::new(alloc);
    text.extend_from_slice(label.as_bytes())?;
    push_number(alloc, &mut text, number)?;
    Ok(text)
}

// How many bytes each zone has.
fn zone_bytes(geometry: &Geometry) -> u128
    ensures { result ≡ geometry.now.zone_blocks * geometry.now.block }
{
    u128::from(geometry.zone_blocks) * u128::from(geometry.block)
}

// How many bytes the data zones have.
fn data_bytes(geometry: &Geometry) -> u128
    ensures { result ≡ (geometry.now.zones - 3) * geometry.now.capacity * geometry.now.block }
{
    let zones = u128::from(geometry.zones.saturating_sub(3));
    zones * u128::from(geometry.capacity) * u128::from(geometry.block)
}

/// What `mkimage` prints: how many zones there are, and how many bytes each of them has.
pub fn made_image_text(alloc: Global, geometry: &Geometry) -> Result<Payload, AllocError>
    ensures { IfOk result (λ text. text ≡ made_image_text geometry.now) }
{
    let mut text = numbered(alloc, "image created: ", u128::from(geometry.zones))?;
    text.extend_from_slice(b" zones of ")?;
    push_number(alloc, &mut text, zone_bytes(geometry))?;
    text.extend_from_slice(b" bytes\n")?;
    Ok(Payload::from_vec(text))
}

/// What `mkfs` prints: how many bytes the data zones have, which are all but the first three.
pub fn made_fs_text(alloc: Global, geometry: &Geometry) -> Result<Payload, AllocError>
    ensures { IfOk result (λ text. text ≡ made_fs_text geometry.now) }
{
    let created = "ZenFS file system created. Free space: ";
    let mut text = numbered(alloc, created, data_bytes(geometry))?;
    text.extend_from_slice(b" bytes\n")?;
    Ok(Payload::from_vec(text))
}
