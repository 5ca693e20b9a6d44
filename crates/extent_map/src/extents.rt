//! Extents that are joined, in room that was made for them.

ghost use Rattle.std.specs.Prelude.{◌≡◌, ◌==◌, ◌+◌, ◌^◌, ◌<◌, ◌≤◌, ◌++◌, length, [], ◌∷◌, false, vec_capacity, IfOk, IsTrue};
ghost use Rattle.log_model.specs.FileTable.{size_of};
ghost use Rattle.fs_model.specs.FileSteps.{extents_with};
ghost use Rattle.extent_map.specs.Sound.{HasRoom};

use crate::room::with_extent;
use record_model::{Extent, Extents};
use std::alloc::{AllocError, Global};

/// Room for all extents of a file.
pub(crate) fn room_for(
    alloc: Global,
    recorded: &[Extent],
    others: &[Extent],
) -> Result<Vec<Extent>, AllocError>
    ensures { IfOk result (λ room. HasRoom (length recorded.now) (length others.now) (vec_capacity room)) }
{
    if others.is_empty() {
        return Ok(Vec::new(alloc));
    }
    match recorded.len().checked_add(others.len()) {
        None => Err(AllocError),
        Some(len) => Vec::with_capacity(alloc, len),
    }
}

/// Adds an extent: it makes the last longer, where it follows it.
pub(crate) fn add_extent(extents: &mut Vec<Extent>, room: Vec<Extent>, extent: Extent)
    requires room { length extents.old.items < vec_capacity room }
    requires sum { size_of extents.old.items + extent.len < 2 ^ 64 }
    ensures { extents.new.items ≡ extents_with extents.old.items extent }
{
    if !lengthens_last(extents, &extent) {
        *extents = with_extent(room, extents, extent);
    }
}

/// Makes the last extent longer, if another one follows it.
fn lengthens_last(extents: &mut Vec<Extent>, extent: &Extent) -> bool
    requires { size_of extents.old.items + extent.now.len < 2 ^ 64 }
    ensures longer { IsTrue result → extents.new.items ≡ extents_with extents.old.items extent.now }
    ensures same { result ≡ false → extents.new.items ≡ extents.old.items }
    ensures apart { result ≡ false → extents.old.items ++ extent.now ∷ [] ≡ extents_with extents.old.items extent.now }
{
    let len = extents.len();
    if len == 0 {
        return false;
    }
    let last = extents[len - 1];
    if !follows(&last, extent) {
        return false;
    }
    extents[len - 1] = Extent {
        start: last.start,
        len: last.len + extent.len,
    };
    true
}

/// Whether an extent begins where another one ends.
fn follows(last: &Extent, extent: &Extent) -> bool
    ensures { result ≡ (last.now.start + last.now.len == extent.now.start) }
{
    last.start <= extent.start && extent.start - last.start == last.len
}

/// The recorded extents of a file and then the others, in this room.
pub(crate) fn joined(mut room: Vec<Extent>, recorded: &[Extent], others: &[Extent]) -> Extents
    requires { length recorded.now + length others.now ≤ vec_capacity room }
    ensures { result ≡ recorded.now ++ others.now }
{
    room.clear();
    let _ = room.extend_from_slice(recorded);
    let _ = room.extend_from_slice(others);
    Extents::from_vec(room)
}
