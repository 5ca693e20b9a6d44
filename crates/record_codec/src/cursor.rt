//! Where the decoder is.

ghost use Rattle.std.specs.Prelude.{◌+◌, ◌^◌, ◌<◌, length};

/// A place in a payload, and the bytes from there to the end of what holds them.
#[derive(Clone, Copy)]
pub(crate) struct Cursor<'a> {
    pub(crate) at: u32,
    pub(crate) rest: &'a [u8],
    ghost in_range: { at + length rest.now < 2 ^ 32 },
}
