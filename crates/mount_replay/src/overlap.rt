// Extents that share a byte.
ghost use Rattle.std.specs.Prelude.{◌≡◌, ℕ, ◌+◌, ◌<◌, ◌≤◌, length, All, true, false};
ghost use Rattle.std.specs.List.Sorted.{IsNonDecreasingBy};
ghost use Rattle.log_model.specs.FileTable.{size_of};
ghost use Rattle.log_model.specs.Mounted.{overlap};
ghost use Rattle.mount_replay.specs.Neighbours.{extent_at, Reaches, IsBehind};

use record_model::Extent;

/// Whether two of these extents share a byte. They are sorted by their starts for it. Where none do, they have no more
/// bytes than there are addresses up to the end of the last (`room`).
pub(crate) fn overlap(extents: &mut [Extent]) -> bool
    requires { All (λ x. 0 < x.len) extents.old }
    ensures exact { result ≡ overlap extents.old }
    ensures room { result ≡ false → (n : ℕ) → All (λ x. x.start + x.len ≤ n) extents.old → size_of extents.old ≤ n }
{
    extents.sort_unstable_by_key(|extent| extent.start);
    reaches_next(extents)
}

// Whether one of these extents, which rise by their starts, reaches the next.
fn reaches_next(extents: &[Extent]) -> bool
    requires { IsNonDecreasingBy (λ x. x.start) extents.now }
    ensures reached { result ≡ true → (i : ℕ) × (i + 1 < length extents.now) × Reaches (extent_at extents.now i) (extent_at extents.now (i + 1)) }
    ensures apart { result ≡ false → (i : ℕ) → i + 1 < length extents.now → IsBehind (extent_at extents.now i) (extent_at extents.now (i + 1)) }
{
    for i in 1..extents.len() {
        let before = extents[i - 1];
        if extents[i].start - before.start < before.len {
            return true;
        }
    }
    false
}
