//! The decoder: from a payload to its record, or to its first fault from the left.

ghost use Rattle.std.specs.Prelude.{◌≡◌, ◌<◌, ◌≤◌, ◌^◌, length, Ok, IfOk};
ghost use Rattle.record_model.specs.Decoding.{
  record_of,
  record_with,
  snapshot_at,
  update_at,
  replacement_at,
  deletion_at,
  ended,
};
ghost use Rattle.record_model.specs.Grammar.{InGrammar, Spells};
ghost use Rattle.record_model.specs.declared.types.Record.{Record};
ghost use Rattle.record_codec.specs.Outcome.{Gives};
ghost use Rattle.record_codec.specs.Place.{place};

use crate::cursor::Cursor;
use crate::entry::{entries_at, entry_at, inside_at, placed};
use crate::error::{DecodeError, FieldError};
use crate::field::name_of;
use crate::value::{slice_at, u32_at, u64_at};
use record_model::{DecodeFault, Files, MAX_ID, Record, RecordKind, Why};
use std::alloc::Global;

/// What a payload is refused with that has more bytes than the length before it can say: its first
/// byte past them is out of range.
pub const TOO_LONG: DecodeError = DecodeError::Bad(DecodeFault {
    at: u32::MAX,
    why: Why::Range,
});

/// The record that a payload spells. `Bad` comes exactly where it spells none, with its first fault
/// from the left, and `NoMemory` where memory is wanting.
///
/// A payload has fewer than 2^32 bytes, as the length before it is a 32-bit number. A longer one is
/// refused as out of range at its byte 2^32 - 1, whatever else is wrong with it.
pub fn decode(alloc: Global, payload: &[u8]) -> Result<Record, DecodeError>
    // The value or the fault is the one that the definition of reading gives.
    ensures exact { length payload.now < 2 ^ 32 → Gives result (record_of payload.now) }
    // What is read is spelled so, each byte of it.
    ensures found { IfOk result (Spells payload.now) }
    // What is read has each value in its range, and can be written again.
    ensures valid { IfOk result InGrammar }
    // What is spelled so is read, unless memory is wanting.
    ensures only { (r : Record) → length payload.now < 2 ^ 32 → Spells payload.now r
        → Gives result (Ok r) }
    // A payload that is too long is refused.
    ensures long { 2 ^ 32 ≤ length payload.now → result ≡ Err TOO_LONG }
{
    if payload.len() > u32::MAX as usize {
        return Err(TOO_LONG);
    }
    record_of(alloc, payload)
}

/// The record that a payload spells, where its length is one that stands before a payload.
#[tactic(auto, unfolding(record_model::specs::Decoding::record_of))]
fn record_of(alloc: Global, payload: &[u8]) -> Result<Record, DecodeError>
    requires { length payload.now < 2 ^ 32 }
    ensures { Gives result (record_of payload.now) }
{
    let start = Cursor {
        at: 0,
        rest: payload,
    };
    let (tag, c) = placed(0, u32_at(start))?;
    match RecordKind::of_tag(tag) {
        None => Err(DecodeError::Bad(DecodeFault {
            at: 0,
            why: Why::Tag(tag),
        })),
        Some(kind) => record_with(alloc, tag, kind, c),
    }
}

/// The record of this kind behind its tag.
fn record_with(
    alloc: Global,
    tag: u32,
    kind: RecordKind,
    c: Cursor<'_>,
) -> Result<Record, DecodeError>
    ensures { Gives result (record_with tag (Some kind) (place c.entry)) }
{
    match kind {
        RecordKind::End => ended(Record::End, c),
        RecordKind::Snapshot => {
            let (inside, after) = inside_at(c)?;
            let record = snapshot_at(alloc, inside)?;
            ended(record, after)
        }
        RecordKind::Update => {
            let (inside, after) = inside_at(c)?;
            let file = entry_at(alloc, inside)?;
            ended(Record::Update(file), after)
        }
        RecordKind::Deletion => {
            let (inside, after) = inside_at(c)?;
            let record = deletion_at(alloc, inside)?;
            ended(record, after)
        }
        RecordKind::Replace => {
            let (inside, after) = inside_at(c)?;
            let file = entry_at(alloc, inside)?;
            ended(Record::Replace(file), after)
        }
    }
}

/// The snapshot whose files are all of these bytes.
fn snapshot_at(alloc: Global, c: Cursor<'_>) -> Result<Record, DecodeError>
    ensures { Gives result (snapshot_at (place c.entry)) }
{
    let files = entries_at(alloc, c)?;
    Ok(Record::Snapshot(Files::from_vec(files)))
}

/// The deletion that is all of these bytes: an id and a name.
fn deletion_at(alloc: Global, c: Cursor<'_>) -> Result<Record, DecodeError>
    ensures { Gives result (deletion_at (place c.entry)) }
{
    let (id, after) = placed(c.at, u64_at(c))?;
    if id > MAX_ID {
        return Err(DecodeError::Bad(DecodeFault {
            at: c.at,
            why: Why::Range,
        }));
    }
    let (bytes, end) = placed(after.at, slice_at(after))?;
    match name_of(alloc, bytes) {
        Ok(name) => ended(Record::Deletion { id, name }, end),
        Err(FieldError::Bad(why)) => Err(DecodeError::Bad(DecodeFault { at: after.at, why })),
        Err(FieldError::NoMemory) => Err(DecodeError::NoMemory),
    }
}

/// The record, where nothing follows it.
fn ended(value: Record, c: Cursor<'_>) -> Result<Record, DecodeError>
    ensures { Gives result (ended value (place c.entry)) }
{
    if !c.rest.is_empty() {
        return Err(DecodeError::Bad(DecodeFault {
            at: c.at,
            why: Why::Range,
        }));
    }
    Ok(value)
}
