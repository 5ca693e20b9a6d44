//! Extents that are moved.

ghost use Rattle.std.specs.Prelude.{◌≡◌, map};
ghost use Rattle.fs_model.specs.FileSteps.{moved_extent, moved_start};

use fs_model::Move;
use record_model::Extents;

/// The extents after these moves.
pub(crate) fn moved_extents(extents: Extents, moves: &[Move]) -> Extents
    ensures { result ≡ map (moved_extent moves.now) extents }
{
    let mut list = extents.into_vec();
    for i in 0..list.len() {
        let extent = &mut list[i];
        extent.start = moved_start(moves, extent.start);
    }
    Extents::from_vec(list)
}

/// Where an extent starts after these moves.
fn moved_start(moves: &[Move], start: u64) -> u64
    ensures { result ≡ moved_start moves.now start }
{
    for change in moves {
        if change.from == start {
            return change.to;
        }
    }
    start
}
