// What is printed of space.
ghost use Rattle.std.specs.Prelude.{◌≡◌, ◌++◌, ◌*◌, codes, decimal, IfOk, OnOk};
ghost use Rattle.command_model.specs.ReportTexts.{amplification, df_text, number_line, text_line};

use crate::superblock_lines::push_text_line;
use fs_model::Space;
use record_model::Payload;
use std::alloc::{AllocError, Global};
use zone_image::Geometry;

// Adds a line: a label, and a number.
fn push_figure(
    alloc: Global,
    text: &mut Vec<u8>,
    label: &str,
    number: u128,
) -> Result<(), AllocError>
    ensures { OnOk result (text.new.items ≡ text.old.items ++ number_line label.now number) }
{
    let digits = format!(in alloc; "{number}")?;
    push_text_line(text, label, digits.as_bytes())?;
    Ok(())
}

// How many bytes may still be written.
fn free_bytes(geometry: &Geometry, space: &Space) -> u128
    ensures { result ≡ space.now.free * geometry.now.block }
{
    u128::from(space.free) * u128::from(geometry.block)
}

// Adds the line of the bytes that may still be written.
fn push_free(
    alloc: Global,
    text: &mut Vec<u8>,
    geometry: &Geometry,
    space: &Space,
) -> Result<(), AllocError>
    ensures { OnOk result (text.new.items ≡ text.old.items ++ number_line (codes "Free") (space.now.free * geometry.now.block)) }
{
    push_figure(alloc, text, "Free", free_bytes(geometry, space))?;
    Ok(())
}

// Adds the lines of the bytes that are used, and of those that are reclaimable.
fn push_used(alloc: Global, text: &mut Vec<u8>, space: &Space) -> Result<(), AllocError>
    ensures { OnOk result (text.new.items ≡ text.old.items ++ number_line (codes "Used") space.now.used
        ++ number_line (codes "Reclaimable") space.now.reclaimable) }
{
    push_figure(alloc, text, "Used", u128::from(space.used))?;
    push_figure(alloc, text, "Reclaimable", u128::from(space.reclaimable))?;
    Ok(())
}

// How much is reclaimable, in percent of what is used.
fn amplification(space: &Space) -> u128
    ensures { result ≡ amplification space.now.reclaimable space.now.used }
{
    if space.used == 0 {
        return 0;
    }
    100 * u128::from(space.reclaimable) / u128::from(space.used)
}

// A number with the sign of percent.
fn percent_text(alloc: Global, number: u128) -> Result<Vec<u8>, AllocError>
    ensures { IfOk result (λ text. text.items ≡ decimal number ++ codes "%") }
{
    let mut text = Vec::new(alloc);
    let digits = format!(in alloc; "{number}")?;
    text.extend_from_slice(digits.as_bytes())?;
    text.push(b'%')?;
    Ok(text)
}

// Adds the line of how much is reclaimable, in percent of what is used.
fn push_amplification(alloc: Global, text: &mut Vec<u8>, space: &Space) -> Result<(), AllocError>
    ensures { OnOk result (text.new.items ≡ text.old.items
        ++ text_line (codes "Space amplification") (decimal (amplification space.now.reclaimable space.now.used) ++ codes "%")) }
{
    let percent = percent_text(alloc, amplification(space))?;
    push_text_line(text, "Space amplification", &percent)?;
    Ok(())
}

/// What `df` prints of these figures: the bytes that may still be written, those of all live extents, and those of
/// sealed zones that no live extent has; and the last in percent of the second, rounded down, or 0 where nothing is used.
/// `AllocError` comes for want of memory.
pub fn df_text(alloc: Global, geometry: &Geometry, space: &Space) -> Result<Payload, AllocError>
    ensures { IfOk result (λ text. text ≡ df_text geometry.now space.now) }
{
    let mut text = Vec::new(alloc);
    push_free(alloc, &mut text, geometry, space)?;
    push_used(alloc, &mut text, space)?;
    push_amplification(alloc, &mut text, space)?;
    Ok(Payload::from_vec(text))
}
