//! How many bytes a record is written in.
//!
//! The numbers stop at the greatest 64-bit number, which no payload reaches, so that the length of
//! every record can be asked for before it is written.

ghost use Rattle.std.specs.Prelude.{◌≡◌, ◌+◌, length};
ghost use Rattle.std.specs.List.{flat_map};
ghost use Rattle.record_model.specs.Numbers.{varint};
ghost use Rattle.record_model.specs.Encoding.{field_bytes, entry_bytes, payload_of, slice};
ghost use Rattle.record_model.specs.declared.field.Field.TheVariants.{Linked};
ghost use Rattle.record_codec.specs.Length.{told};

use crate::varint::varint_len;
use record_model::{FileEntry, Name, Record};

/// The bytes of a field's tag.
const TAG_BYTES: u64 = 4;

/// The bytes of a field of a 64-bit number.
const WIDE_FIELD_BYTES: u64 = TAG_BYTES + 8;

/// The bytes of a field of a 32-bit number.
const NARROW_FIELD_BYTES: u64 = TAG_BYTES + 4;

/// The bytes of an extent's field: the tag, the length, and two 64-bit numbers.
const EXTENT_FIELD_BYTES: u64 = TAG_BYTES + 1 + 16;

/// The bytes of an id, a size, a hint, a time and an active start.
const FIXED_FIELDS_BYTES: u64 = 4 * WIDE_FIELD_BYTES + NARROW_FIELD_BYTES;

/// How many bytes the encoder writes for a record: `encode` can be called where they are fewer than
/// 2^32. A record of more than 2^64 - 1 bytes counts as that many.
pub fn encoded_len(value: &Record) -> u64
    ensures { result ≡ told (length (payload_of value.now)) }
{
    match value {
        Record::Snapshot(files) => tagged_len(files_len(files.items())),
        Record::Update(file) => tagged_len(entry_len(file)),
        Record::Deletion { id: _, name } => tagged_len(deletion_len(name)),
        Record::End => TAG_BYTES,
        Record::Replace(file) => tagged_len(entry_len(file)),
    }
}

/// The bytes of a record's tag and of a slice of so many bytes.
fn tagged_len(content: u64) -> u64
    ensures { result ≡ told (4 + (length (varint content) + content)) }
{
    TAG_BYTES.saturating_add(slice_len(content))
}

/// The bytes of a slice of so many bytes.
fn slice_len(content: u64) -> u64
    ensures { result ≡ told (length (varint content) + content) }
{
    varint_len(content).saturating_add(content)
}

/// The bytes of a deletion's slice: an id, and the name as a slice.
pub(crate) fn deletion_len(name: &Name) -> u64
    ensures { result ≡ told (8 + length (slice name.now)) }
{
    slice_len(name.items().len() as u64).saturating_add(8)
}

/// The bytes of the entries of a snapshot, each in a slice.
pub(crate) fn files_len(files: &[FileEntry]) -> u64
    ensures { result ≡ told (length (flat_map (λ e. slice (entry_bytes e)) files.now)) }
{
    let mut len: u64 = 0;
    for file in files {
        len = len.saturating_add(slice_len(entry_len(file)));
    }
    len
}

/// The bytes of an entry.
pub(crate) fn entry_len(file: &FileEntry) -> u64
    ensures { result ≡ told (length (entry_bytes file.now)) }
{
    let extents = EXTENT_FIELD_BYTES.saturating_mul(file.extents.items().len() as u64);
    let sparse = if file.sparse { TAG_BYTES } else { 0 };
    let names = names_len(file.names.items());
    names
        .saturating_add(extents)
        .saturating_add(FIXED_FIELDS_BYTES + sparse)
}

/// The bytes of the fields of names.
fn names_len(names: &[Name]) -> u64
    ensures { result ≡ told (length (flat_map (λ name. field_bytes (Linked name)) names.now)) }
{
    let mut len: u64 = 0;
    for name in names {
        len = len.saturating_add(tagged_len(name.items().len() as u64));
    }
    len
}
