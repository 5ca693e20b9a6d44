//! The numbers and slices that stand at a place.

ghost use Rattle.std.specs.Prelude.{◌≡◌, ◌+◌, ◌^◌, ◌<◌, ◌≤◌, length, IfOk};
ghost use Rattle.std.specs.Int.{w32, w64};
ghost use Rattle.record_model.specs.FieldDecoding.{number, slice_at};
ghost use Rattle.record_codec.specs.Outcome.{Returns};
ghost use Rattle.record_codec.specs.Place.{place};

use crate::cursor::Cursor;
use crate::varint;
use record_model::Why;

/// The 32-bit number here, and the place behind it.
pub(crate) fn u32_at(c: Cursor<'_>) -> Result<(u32, Cursor<'_>), Why>
    ensures value { Returns (λ x. (x.0, place x.1)) result (number w32 (place c.entry)) }
    ensures forward { IfOk result (λ x. length x.1.rest.now < length c.entry.rest.now) }
{
    if c.rest.len() < 4 {
        return Err(Why::Short);
    }
    let (front, rest) = c.rest.split_at(4);
    let number = u32::from_le_bytes([front[0], front[1], front[2], front[3]]);
    Ok((number, Cursor { at: c.at + 4, rest }))
}

/// The 64-bit number here, and the place behind it.
pub(crate) fn u64_at(c: Cursor<'_>) -> Result<(u64, Cursor<'_>), Why>
    ensures value { Returns (λ x. (x.0, place x.1)) result (number w64 (place c.entry)) }
    ensures forward { IfOk result (λ x. length x.1.rest.now < length c.entry.rest.now) }
{
    if c.rest.len() < 8 {
        return Err(Why::Short);
    }
    let (front, rest) = c.rest.split_at(8);
    let number = u64::from_le_bytes([
        front[0], front[1], front[2], front[3], front[4], front[5], front[6], front[7],
    ]);
    Ok((number, Cursor { at: c.at + 8, rest }))
}

/// The slice here, and the place behind it.
#[tactic(auto, unfolding(record_model::specs::FieldDecoding::slice_at))]
pub(crate) fn slice_at(c: Cursor<'_>) -> Result<(&[u8], Cursor<'_>), Why>
    ensures value { Returns (λ x. (x.0.now, place x.1)) result (slice_at (place c.entry)) }
    ensures forward { IfOk result (λ x. length x.0.now + length x.1.rest.now < length c.entry.rest.now) }
    ensures behind { IfOk result (λ x. length x.0.now ≤ x.1.at) }
{
    let (len, count) = varint::length_at(c.rest)?;
    let whole = count as usize + len as usize;
    if c.rest.len() < whole {
        return Err(Why::Short);
    }
    let (front, rest) = c.rest.split_at(whole);
    let (_, content) = front.split_at(count as usize);
    Ok((
        content,
        Cursor {
            at: c.at + count + len,
            rest,
        },
    ))
}
