// What is printed of a superblock.
ghost use Rattle.std.specs.Prelude.{◌≡◌, ◌++◌, codes, IfOk, OnOk};
ghost use Rattle.superblock_core.specs.Superblock.{uuid_text};
ghost use Rattle.command_model.specs.ReportTexts.{info_text, line, number_line, text_line};

use record_model::Payload;
use std::alloc::{AllocError, Global};
use superblock_core::Superblock;
use uuid::Uuid;

/// Adds a line: a label, and a text.
pub(crate) fn push_text_line(
    text: &mut Vec<u8>,
    label: &str,
    value: &[u8],
) -> Result<(), AllocError>
    ensures { OnOk result (text.new.items ≡ text.old.items ++ text_line label.now value.now) }
{
    text.extend_from_slice(label.as_bytes())?;
    text.extend_from_slice(b": ")?;
    text.extend_from_slice(value)?;
    text.push(b'\n')?;
    Ok(())
}

// Adds a line: a label, and a number.
fn push_number_line(
    alloc: Global,
    text: &mut Vec<u8>,
    label: &str,
    number: u32,
) -> Result<(), AllocError>
    ensures { OnOk result (text.new.items ≡ text.old.items ++ number_line label.now number) }
{
    let digits = format!(in alloc; "{number}")?;
    push_text_line(text, label, digits.as_bytes())?;
    Ok(())
}

// Adds the line of the identifier.
fn push_identifier(text: &mut Vec<u8>, id: u128) -> Result<(), AllocError>
    ensures { OnOk result (text.new.items ≡ text.old.items ++ text_line (codes "UUID") (uuid_text id)) }
{
    let mut buffer = [0; 36];
    let identifier = Uuid::from_u128(id).hyphenated().encode_lower(&mut buffer);
    push_text_line(text, "UUID", identifier.as_bytes())?;
    Ok(())
}

// Adds the two lines that name the file system.
fn push_names(text: &mut Vec<u8>, superblock: &Superblock) -> Result<(), AllocError>
    ensures { OnOk result (text.new.items ≡ text.old.items ++ line (codes "Magic: 5a454e46")
        ++ text_line (codes "UUID") (uuid_text superblock.now.id)) }
{
    text.extend_from_slice(b"Magic: 5a454e46\n")?;
    push_identifier(text, superblock.id)?;
    Ok(())
}

// Adds the lines on its sequence, version and flags.
fn push_counts(alloc: Global, text: &mut Vec<u8>, superblock: &Superblock) -> Result<(), AllocError>
    ensures { OnOk result (text.new.items ≡ text.old.items ++ number_line (codes "Sequence") superblock.now.sequence
        ++ number_line (codes "Version") 2 ++ number_line (codes "Flags") superblock.now.flags) }
{
    push_number_line(alloc, text, "Sequence", superblock.sequence)?;
    push_number_line(alloc, text, "Version", 2)?;
    push_number_line(alloc, text, "Flags", superblock.flags)?;
    Ok(())
}

// Adds the lines on the device's shape, and on when zones are finished.
fn push_shape(alloc: Global, text: &mut Vec<u8>, superblock: &Superblock) -> Result<(), AllocError>
    ensures { OnOk result (text.new.items ≡ text.old.items ++ number_line (codes "Block size") superblock.now.block
        ++ number_line (codes "Zone size") superblock.now.zone_blocks ++ number_line (codes "Zone count") superblock.now.zones
        ++ number_line (codes "Finish threshold") superblock.now.finish_threshold) }
{
    push_number_line(alloc, text, "Block size", superblock.block)?;
    push_number_line(alloc, text, "Zone size", superblock.zone_blocks)?;
    push_number_line(alloc, text, "Zone count", superblock.zones)?;
    push_number_line(alloc, text, "Finish threshold", superblock.finish_threshold)?;
    Ok(())
}

// Adds the lines on its two texts.
fn push_texts(text: &mut Vec<u8>, superblock: &Superblock) -> Result<(), AllocError>
    ensures { OnOk result (text.new.items ≡ text.old.items ++ text_line (codes "Auxiliary path") superblock.now.aux_path
        ++ text_line (codes "ZenFS version") superblock.now.version_text) }
{
    push_text_line(text, "Auxiliary path", superblock.aux_path.bytes())?;
    push_text_line(text, "ZenFS version", superblock.version_text.bytes())?;
    Ok(())
}

/// What `fs-info` prints of this superblock: eleven lines, each with a label and a value.
pub fn info_text(alloc: Global, superblock: &Superblock) -> Result<Payload, AllocError>
    ensures { IfOk result (λ text. text ≡ info_text superblock.now) }
{
    let mut text = Vec::new(alloc);
    push_names(&mut text, superblock)?;
    push_counts(alloc, &mut text, superblock)?;
    push_shape(alloc, &mut text, superblock)?;
    push_texts(&mut text, superblock)?;
    Ok(Payload::from_vec(text))
}
