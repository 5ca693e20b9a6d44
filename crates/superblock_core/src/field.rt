// Pieces of a field or a superblock, at their places.
ghost use Rattle.std.specs.Prelude.{◌≡◌, ◌+◌, ◌<◌, ◌≤◌, ◌^◌, ◌++◌, length, take};
ghost use Rattle.record_model.specs.Numbers.{u32};
ghost use Rattle.superblock_core.specs.Superblock.{u32_at};

/// Writes a piece at a place. What stands behind it is written later.
pub(crate) fn put<const N: usize>(out: &mut [u8], at: usize, piece: &[u8; N])
    requires { at + N ≤ length out.old }
    ensures { take (at + N) out.new ≡ take at out.old ++ piece.now }
{
    out[at..at + N].copy_from_slice(piece);
}

/// Writes a number at a place, in four bytes with the lowest first.
pub(crate) fn put_u32(out: &mut [u8], at: usize, number: u32)
    requires { at + 4 ≤ length out.old }
    ensures bytes { take (at + 4) out.new ≡ take at out.old ++ u32 number }
    ensures fits { number < 2 ^ 32 }
{
    put(out, at, &number.to_le_bytes());
}

/// The number of the four bytes at a place, the lowest first.
pub(crate) fn u32_at(bytes: &[u8], at: usize) -> u32
    requires { at + 4 ≤ length bytes.now }
    ensures { result ≡ u32_at at bytes.now }
{
    u32::from_le_bytes([bytes[at], bytes[at + 1], bytes[at + 2], bytes[at + 3]])
}
