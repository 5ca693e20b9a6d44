//! The encoder: from a record to its payload.

ghost use Rattle.std.specs.Prelude.{◌≡◌, ◌+◌, ◌^◌, ◌<◌, [], ◌++◌, length, OnOk, IfOk, if◌then◌else◌};
ghost use Rattle.std.specs.List.{flat_map};
ghost use Rattle.record_model.specs.Numbers.{u32, u64};
ghost use Rattle.record_model.specs.Encoding.{
  kind_tag,
  field_bytes,
  entry_bytes,
  payload_of,
  slice,
};
ghost use Rattle.record_model.specs.Decoding.{record_of};
ghost use Rattle.record_model.specs.Grammar.{InGrammar, Spells};
ghost use Rattle.record_model.specs.declared.field.Field.TheVariants.{Piece, Linked};

use crate::length::{deletion_len, encoded_len, entry_len, files_len};
use crate::varint::push_varint;
use record_model::{Extent, FieldKind, FileEntry, Name, Payload, Record, RecordKind};
use std::alloc::{AllocError, Global};

/// The payload of the record, in `encoded_len` bytes, which the length before a payload must be able
/// to say. A record out of the grammar, such as a file without a name, is written all the same, but
/// its payload isn't read as that record.
pub fn encode(alloc: Global, value: &Record) -> Result<Payload, AllocError>
    requires { length (payload_of value.now) < 2 ^ 32 }
    ensures written { IfOk result (λ payload. payload ≡ payload_of value.now) }
    // The payload of a record in the grammar spells it, and is read as it again.
    ensures spelled { InGrammar value.now → IfOk result (λ payload. Spells payload value.now) }
    ensures read_again { InGrammar value.now
        → IfOk result (λ payload. record_of payload ≡ Ok value.now) }
{
    let mut out = Vec::with_capacity(alloc, encoded_len(value) as usize)?;
    push_record(&mut out, value)?;
    Ok(Payload::from_vec(out))
}

/// Appends a record.
#[tactic(auto, unfolding(record_model::specs::Encoding::payload_of))]
fn push_record(out: &mut Vec<u8>, value: &Record) -> Result<(), AllocError>
    requires { length (payload_of value.now) < 2 ^ 32 }
    ensures { OnOk result (out.new.items ≡ out.old.items ++ payload_of value.now) }
{
    match value {
        Record::Snapshot(files) => {
            push_u32(out, RecordKind::Snapshot.tag())?;
            push_varint(out, files_len(files.items()))?;
            push_files(out, files.items())
        }
        Record::Update(file) => {
            push_u32(out, RecordKind::Update.tag())?;
            push_sliced_entry(out, file)
        }
        Record::Deletion { id, name } => {
            push_u32(out, RecordKind::Deletion.tag())?;
            push_varint(out, deletion_len(name))?;
            push_u64(out, *id)?;
            push_slice(out, name.items())
        }
        Record::End => push_u32(out, RecordKind::End.tag()),
        Record::Replace(file) => {
            push_u32(out, RecordKind::Replace.tag())?;
            push_sliced_entry(out, file)
        }
    }
}

/// Appends the entries of a snapshot, each as a slice.
fn push_files(out: &mut Vec<u8>, files: &[FileEntry]) -> Result<(), AllocError>
    requires { length (flat_map (λ e. slice (entry_bytes e)) files.now) < 2 ^ 64 }
    ensures { OnOk result
        (out.new.items ≡ out.old.items ++ flat_map (λ e. slice (entry_bytes e)) files.now) }
{
    for file in files {
        push_sliced_entry(out, file)?;
    }
    Ok(())
}

/// Appends an entry as a slice.
fn push_sliced_entry(out: &mut Vec<u8>, file: &FileEntry) -> Result<(), AllocError>
    requires { length (entry_bytes file.now) < 2 ^ 64 }
    ensures { OnOk result (out.new.items ≡ out.old.items ++ slice (entry_bytes file.now)) }
{
    push_varint(out, entry_len(file))?;
    push_entry(out, file)
}

/// Appends the fields of an entry.
fn push_entry(out: &mut Vec<u8>, file: &FileEntry) -> Result<(), AllocError>
    ensures { OnOk result (out.new.items ≡ out.old.items ++ entry_bytes file.now) }
{
    push_wide(out, FieldKind::Id, file.id)?;
    push_wide(out, FieldKind::Size, file.size)?;
    push_narrow(out, FieldKind::Hint, file.hint)?;
    push_extents(out, file.extents.items())?;
    push_wide(out, FieldKind::Time, file.time)?;
    push_wide(out, FieldKind::Active, file.active)?;
    push_sparse(out, file.sparse)?;
    push_names(out, file.names.items())
}

/// Appends a field of a 64-bit number.
fn push_wide(out: &mut Vec<u8>, kind: FieldKind, number: u64) -> Result<(), AllocError>
    ensures { OnOk result (out.new.items ≡ out.old.items ++ (u32 (kind_tag kind) ++ u64 number)) }
{
    push_u32(out, kind.tag())?;
    push_u64(out, number)
}

/// Appends a field of a 32-bit number.
fn push_narrow(out: &mut Vec<u8>, kind: FieldKind, number: u32) -> Result<(), AllocError>
    ensures { OnOk result (out.new.items ≡ out.old.items ++ (u32 (kind_tag kind) ++ u32 number)) }
{
    push_u32(out, kind.tag())?;
    push_u32(out, number)
}

/// Appends the mark of a sparse file, where it is one.
fn push_sparse(out: &mut Vec<u8>, sparse: bool) -> Result<(), AllocError>
    ensures { OnOk result (out.new.items ≡ out.old.items ++ (if sparse then u32 8 else [])) }
{
    if sparse {
        push_u32(out, FieldKind::Sparse.tag())?;
    }
    Ok(())
}

/// Appends the fields of extents.
fn push_extents(out: &mut Vec<u8>, extents: &[Extent]) -> Result<(), AllocError>
    ensures { OnOk result
        (out.new.items ≡ out.old.items ++ flat_map (λ e. field_bytes (Piece e)) extents.now) }
{
    for extent in extents {
        push_extent(out, extent)?;
    }
    Ok(())
}

/// Appends the field of an extent.
#[tactic(auto, unfolding(record_model::specs::Numbers::varint))]
fn push_extent(out: &mut Vec<u8>, extent: &Extent) -> Result<(), AllocError>
    ensures { OnOk result (out.new.items ≡ out.old.items ++ field_bytes (Piece extent.now)) }
{
    push_u32(out, FieldKind::Piece.tag())?;
    push_varint(out, 16)?;
    push_u64(out, extent.start)?;
    push_u64(out, extent.len)
}

/// Appends the fields of names.
fn push_names(out: &mut Vec<u8>, names: &[Name]) -> Result<(), AllocError>
    ensures { OnOk result
        (out.new.items ≡ out.old.items ++ flat_map (λ name. field_bytes (Linked name)) names.now) }
{
    for name in names {
        push_name(out, name)?;
    }
    Ok(())
}

/// Appends the field of a name.
fn push_name(out: &mut Vec<u8>, name: &Name) -> Result<(), AllocError>
    ensures { OnOk result (out.new.items ≡ out.old.items ++ field_bytes (Linked name.now)) }
{
    push_u32(out, FieldKind::Linked.tag())?;
    push_slice(out, name.items())
}

/// Appends a length, and that many bytes.
fn push_slice(out: &mut Vec<u8>, bytes: &[u8]) -> Result<(), AllocError>
    ensures { OnOk result (out.new.items ≡ out.old.items ++ slice bytes.now) }
{
    push_varint(out, bytes.len() as u64)?;
    out.extend_from_slice(bytes)
}

/// Appends four bytes, the lowest first.
fn push_u32(out: &mut Vec<u8>, number: u32) -> Result<(), AllocError>
    ensures { OnOk result (out.new.items ≡ out.old.items ++ u32 number) }
{
    out.extend_from_slice(&number.to_le_bytes())
}

/// Appends eight bytes, the lowest first.
fn push_u64(out: &mut Vec<u8>, number: u64) -> Result<(), AllocError>
    ensures { OnOk result (out.new.items ≡ out.old.items ++ u64 number) }
{
    out.extend_from_slice(&number.to_le_bytes())
}
