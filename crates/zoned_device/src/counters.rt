// Counts that stand still at their end.
ghost use Rattle.std.specs.Prelude.{◌≡◌};
ghost use Rattle.zone_image.specs.Counts.{next_count, next_tick};

/// The last tick of a device.
pub(crate) const LAST_TICK: u64 = u64::MAX - 1;

/// The tick after a call.
pub(crate) fn tick_after(tick: u64) -> u64
    ensures { result ≡ next_tick tick }
{
    if tick < LAST_TICK {
        tick + 1
    } else {
        LAST_TICK
    }
}

/// A count after one more.
pub(crate) fn count_after(count: u64) -> u64
    ensures { result ≡ next_count count }
{
    count.saturating_add(1)
}
