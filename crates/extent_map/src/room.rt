//! Room for changes, so that they take no memory.

ghost use Rattle.std.specs.Prelude.{◌≡◌, ◌+◌, ◌<◌, ◌++◌, [], ◌∷◌, length, vec_capacity, IfOk};

use record_model::{Extent, Name};
use std::alloc::{AllocError, Global};

/// Room for one more extent of a file.
#[derive(Debug, Drop)]
pub(crate) struct Room {
    pub(crate) id: u64,
    /// For the extents that aren't recorded.
    pub(crate) noted: Vec<Extent>,
    /// For all extents.
    pub(crate) joined: Vec<Extent>,
}

/// Room for one more extent of a file that has these recorded and these other extents.
pub(crate) fn room_for_one(
    alloc: Global,
    id: u64,
    recorded: &[Extent],
    others: &[Extent],
) -> Result<Room, AllocError>
    ensures id { IfOk result (λ room. room.id ≡ id) }
    ensures noted { IfOk result (λ room. length others.now < vec_capacity room.noted) }
    ensures joined { IfOk result (λ room. length recorded.now + length others.now < vec_capacity room.joined) }
{
    let Some(all) = recorded.len().checked_add(others.len()) else {
        return Err(AllocError);
    };
    Ok(Room {
        id,
        noted: with_one_more(alloc, others.len())?,
        joined: with_one_more(alloc, all)?,
    })
}

/// An empty list with room for so many extents and one.
fn with_one_more(alloc: Global, len: usize) -> Result<Vec<Extent>, AllocError>
    ensures { IfOk result (λ room. len < vec_capacity room) }
{
    match len.checked_add(1) {
        None => Err(AllocError),
        Some(len) => Vec::with_capacity(alloc, len),
    }
}

/// Room for these names and one more.
pub(crate) fn room_for_name(alloc: Global, names: &[Name]) -> Result<Vec<Name>, AllocError>
    ensures { IfOk result (λ room. length names.now < vec_capacity room) }
{
    match names.len().checked_add(1) {
        None => Err(AllocError),
        Some(len) => Vec::with_capacity(alloc, len),
    }
}

/// The extents and one more, in this room.
pub(crate) fn with_extent(mut room: Vec<Extent>, extents: &[Extent], extent: Extent) -> Vec<Extent>
    requires { length extents.now < vec_capacity room }
    ensures { result.items ≡ extents.now ++ extent ∷ [] }
{
    room.clear();
    let _ = room.extend_from_slice(extents);
    room.push_reserved(extent);
    room
}
