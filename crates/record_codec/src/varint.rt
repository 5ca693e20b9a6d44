//! Numbers of varying length: seven bits a byte, the lowest first.

ghost use Rattle.std.specs.Prelude.{◌≡◌, ◌++◌, ◌^◌, ◌<◌, ◌≤◌, length, IfOk, OnOk};
ghost use Rattle.record_model.specs.Numbers.{varint, varint_within};
ghost use Rattle.record_model.specs.FieldDecoding.{varint_at, length_in};
ghost use Rattle.record_codec.specs.Outcome.{Returns};
ghost use Rattle.record_codec.specs.BoundedVarint.{bounded_varint, too_long};

use record_model::Why;
use std::alloc::AllocError;

/// The most bytes that a length's varint has.
const MOST_BYTES: u32 = 5;

/// How many bytes the varint of a number takes, where the number is below 2^35; 5 above.
pub(crate) fn varint_len(number: u64) -> u64
    ensures { result ≡ length (varint number) }
{
    if number < 1 << 7 {
        1
    } else if number < 1 << 14 {
        2
    } else if number < 1 << 21 {
        3
    } else if number < 1 << 28 {
        4
    } else {
        5
    }
}

/// The length that the varint in front of the bytes states, and how many bytes it takes itself.
pub(crate) fn length_at(bytes: &[u8]) -> Result<(u32, u32), Why>
    ensures value { Returns (λ x. x) result (length_in (varint_at bytes.now)) }
    ensures few { IfOk result (λ x. (0 < x.1) × (x.1 ≤ MOST_BYTES)) }
{
    let (number, count) = bounded_varint(bytes, MOST_BYTES)?;
    if u64::from(u32::MAX) < number || varint_len(number) != u64::from(count) {
        return Err(Why::Range);
    }
    Ok((number as u32, count))
}

/// The varint in front of the bytes, of at most that many bytes, and how many it takes.
fn bounded_varint(bytes: &[u8], most: u32) -> Result<(u64, u32), Why>
    requires { most ≤ MOST_BYTES }
    ensures value { Returns (λ x. x) result (bounded_varint most bytes.now) }
    ensures small { IfOk result (λ x. x.0 < 128 ^ most) }
    ensures few { IfOk result (λ x. (0 < x.1) × (x.1 ≤ most)) }
{
    if most == 0 {
        return Err(too_long(bytes));
    }
    match bytes {
        [] => Err(Why::Short),
        [byte, rest @ ..] => {
            if *byte < 128 {
                return Ok((u64::from(*byte), 1));
            }
            let (high, count) = bounded_varint(rest, most - 1)?;
            Ok((u64::from(*byte - 128) + 128 * high, count + 1))
        }
    }
}

/// What is wrong with a varint that has these bytes after the most that it may have.
fn too_long(bytes: &[u8]) -> Why
    ensures { result ≡ too_long bytes.now }
{
    if bytes.iter().any(|b| *b < 128) {
        Why::Range
    } else {
        Why::Short
    }
}

/// Appends the varint of a number.
#[tactic(auto, unfolding(record_model::specs::Numbers::varint))]
pub(crate) fn push_varint(out: &mut Vec<u8>, number: u64) -> Result<(), AllocError>
    ensures { OnOk result (out.new.items ≡ out.old.items ++ varint number) }
{
    push_bounded(out, number, MOST_BYTES)
}

/// Appends the varint of a number, of at most that many bytes.
fn push_bounded(out: &mut Vec<u8>, number: u64, most: u32) -> Result<(), AllocError>
    ensures { OnOk result (out.new.items ≡ out.old.items ++ varint_within most number) }
{
    if most == 0 {
        return Ok(());
    }
    if number < 128 {
        out.push(number as u8)?;
        return Ok(());
    }
    out.push((number % 128 + 128) as u8)?;
    push_bounded(out, number / 128, most - 1)
}
