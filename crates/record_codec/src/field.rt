//! Reading one field of an entry.

ghost use Rattle.std.specs.Prelude.{◌≡◌, ◌<◌, ◌≤◌, length, IfOk};
ghost use Rattle.std.specs.Int.{w32, w64};
ghost use Rattle.record_model.specs.FieldDecoding.{once, single, ranged, piece_at, name_at, value_at};
ghost use Rattle.record_model.specs.Encoding.{kind_tag};
ghost use Rattle.record_model.specs.Name.{is_name};
ghost use Rattle.record_codec.specs.Draft.{IsTextOf, has_drafted_tag, has_drafted_name};
ghost use Rattle.record_codec.specs.DraftedField.{drafted_field_at};
ghost use Rattle.record_codec.specs.Outcome.{Returns, GivesField};
ghost use Rattle.record_codec.specs.Place.{place};

use crate::cursor::Cursor;
use crate::draft::Draft;
use crate::error::FieldError;
use crate::value::{slice_at, u32_at, u64_at};
use record_model::{Extent, Field, FieldKind, MAX_ID, Name, NameError, Why};
use std::alloc::Global;

/// The greatest lifetime hint.
const MAX_HINT: u32 = 5;

/// The bytes of an extent's value.
const EXTENT_BYTES: usize = 16;

/// The field here, where these fields stand before it, with the text of a name, and the place behind it.
#[tactic(auto, unfolding(crate::specs::DraftedField::drafted_field_at))]
pub(crate) fn field_at<'a>(
    alloc: Global,
    seen: &Draft<'_>,
    c: Cursor<'a>,
) -> Result<(Field, &'a [u8], Cursor<'a>), FieldError>
    ensures value { GivesField (λ x. (x.0, place x.2)) result (drafted_field_at seen.now (place c.entry)) }
    ensures text { IfOk result (λ x. IsTextOf x.0 x.1.now) }
    ensures forward { IfOk result (λ x. length x.2.rest.now < length c.entry.rest.now) }
{
    let (tag, c) = u32_at(c)?;
    match FieldKind::of_tag(tag) {
        None => Err(FieldError::Bad(Why::Tag(tag))),
        Some(kind) => value_at(alloc, kind, seen, c),
    }
}

/// The value here of a field of this kind, with the text of a name, and none for another.
fn value_at<'a>(
    alloc: Global,
    kind: FieldKind,
    seen: &Draft<'_>,
    c: Cursor<'a>,
) -> Result<(Field, &'a [u8], Cursor<'a>), FieldError>
    ensures value { GivesField (λ x. (x.0, place x.2)) result
        (value_at kind (λ tag. has_drafted_tag tag seen.now) (λ name. has_drafted_name name seen.now) (place c.entry)) }
    ensures text { IfOk result (λ x. IsTextOf x.0 x.1.now) }
    ensures forward { IfOk result (λ x. length x.2.rest.now ≤ length c.entry.rest.now) }
{
    match kind {
        FieldKind::Id => {
            let (id, c) = single_u64(kind, seen, c)?;
            ranged(id <= MAX_ID)?;
            Ok((Field::Id(id), &[], c))
        }
        FieldKind::Size => {
            let (size, c) = single_u64(kind, seen, c)?;
            Ok((Field::Size(size), &[], c))
        }
        FieldKind::Hint => {
            let (hint, c) = single_u32(kind, seen, c)?;
            ranged(hint <= MAX_HINT)?;
            Ok((Field::Hint(hint), &[], c))
        }
        FieldKind::Piece => {
            let (extent, c) = extent_at(c)?;
            Ok((Field::Piece(extent), &[], c))
        }
        FieldKind::Time => {
            let (time, c) = single_u64(kind, seen, c)?;
            Ok((Field::Time(time), &[], c))
        }
        FieldKind::Active => {
            let (active, c) = single_u64(kind, seen, c)?;
            Ok((Field::Active(active), &[], c))
        }
        FieldKind::Sparse => {
            once(kind, seen)?;
            Ok((Field::Sparse, &[], c))
        }
        FieldKind::Linked => name_at(alloc, seen, c),
    }
}

/// The 64-bit number here, where no field of its kind stands before it.
fn single_u64<'a>(
    kind: FieldKind,
    seen: &Draft<'_>,
    c: Cursor<'a>,
) -> Result<(u64, Cursor<'a>), Why>
    ensures value { Returns (λ x. (x.0, place x.1)) result (single w64 (kind_tag kind) (has_drafted_tag (kind_tag kind) seen.now) (place c.entry)) }
    ensures forward { IfOk result (λ x. length x.1.rest.now ≤ length c.entry.rest.now) }
{
    let (number, c) = u64_at(c)?;
    once(kind, seen)?;
    Ok((number, c))
}

/// The 32-bit number here, where no field of its kind stands before it.
fn single_u32<'a>(
    kind: FieldKind,
    seen: &Draft<'_>,
    c: Cursor<'a>,
) -> Result<(u32, Cursor<'a>), Why>
    ensures value { Returns (λ x. (x.0, place x.1)) result (single w32 (kind_tag kind) (has_drafted_tag (kind_tag kind) seen.now) (place c.entry)) }
    ensures forward { IfOk result (λ x. length x.1.rest.now ≤ length c.entry.rest.now) }
{
    let (number, c) = u32_at(c)?;
    once(kind, seen)?;
    Ok((number, c))
}

/// Refuses a field of a kind that is there already.
fn once(kind: FieldKind, seen: &Draft<'_>) -> Result<(), Why>
    ensures { Returns (λ _. kind_tag kind) result (once (kind_tag kind) (has_drafted_tag (kind_tag kind) seen.now)) }
{
    if seen.has(kind) {
        return Err(Why::Twice(kind.tag()));
    }
    Ok(())
}

/// Refuses a value that isn't in its range.
fn ranged(in_range: bool) -> Result<(), Why>
    ensures { Returns (λ x. x) result (ranged in_range tt) }
{
    if !in_range {
        return Err(Why::Range);
    }
    Ok(())
}

/// The extent here.
fn extent_at(c: Cursor<'_>) -> Result<(Extent, Cursor<'_>), Why>
    ensures value { Returns (λ x. (Field.Piece x.0, place x.1)) result (piece_at (place c.entry)) }
    ensures forward { IfOk result (λ x. length x.1.rest.now ≤ length c.entry.rest.now) }
{
    let (bytes, c) = slice_at(c)?;
    ranged(bytes.len() == EXTENT_BYTES)?;
    let (start, len) = bytes.split_at(8);
    let start = u64::from_le_bytes([
        start[0], start[1], start[2], start[3], start[4], start[5], start[6], start[7],
    ]);
    let len = u64::from_le_bytes([
        len[0], len[1], len[2], len[3], len[4], len[5], len[6], len[7],
    ]);
    ranged(0 < len)?;
    Ok((Extent { start, len }, c))
}

/// The name here with its text, where it doesn't stand among these fields.
fn name_at<'a>(
    alloc: Global,
    seen: &Draft<'_>,
    c: Cursor<'a>,
) -> Result<(Field, &'a [u8], Cursor<'a>), FieldError>
    ensures value { GivesField (λ x. (x.0, place x.2)) result
        (name_at (λ name. has_drafted_name name seen.now) (place c.entry)) }
    ensures text { IfOk result (λ x. IsTextOf x.0 x.1.now) }
    ensures forward { IfOk result (λ x. length x.2.rest.now ≤ length c.entry.rest.now) }
{
    let (bytes, c) = slice_at(c)?;
    if seen.has_name(bytes) {
        return Err(FieldError::Bad(Why::Twice(FieldKind::Linked.tag())));
    }
    let name = name_of(alloc, bytes)?;
    Ok((Field::Linked(name), bytes, c))
}

/// The name that these bytes are.
pub(crate) fn name_of(alloc: Global, bytes: &[u8]) -> Result<Name, FieldError>
    ensures { GivesField (λ name. name) result (ranged (is_name bytes.now) bytes.now) }
{
    match Name::from_bytes(alloc, bytes) {
        Ok(name) => Ok(name),
        Err(NameError::BadName) => Err(FieldError::Bad(Why::Range)),
        Err(NameError::NoMemory) => Err(FieldError::NoMemory),
    }
}
