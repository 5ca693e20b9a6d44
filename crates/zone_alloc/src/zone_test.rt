// What zones are looked for or counted, and by what they are compared.
ghost use Rattle.std.specs.Prelude.{◌≡◌};
ghost use Rattle.zone_alloc.specs.ZoneTests.{passes, key_of};

use crate::zone::{
    difference, is_collectors, is_empty, is_idle_active, is_open, is_resettable, room_of,
    takes_a_token,
};
use fs_model::ZoneState;

/// Which zones are looked for or counted.
#[derive(Clone, Copy)]
pub(crate) enum ZoneTest {
    /// Those that take one of the active zones that the device allows.
    TakesToken,
    /// The collector's zone.
    Collectors,
    /// The collector's zone while it isn't sealed.
    CollectorsOpen,
    /// Idle zones with nothing in them.
    Empty,
    /// Idle zones with blocks and room.
    IdleActive,
    /// Of these the ones with a lifetime that is a little longer than a file's, or the same where it has none.
    Near { hint: u32 },
    /// Of these the ones with a file's lifetime.
    Equal { hint: u32 },
    /// Of these the ones with room for so many blocks.
    Roomy { capacity: u32, live: u64 },
    /// Idle zones with a block or a seal, and nothing live.
    Resettable,
}

impl ZoneTest {
    /// Whether a zone is one of them.
    pub(crate) fn passes(self, zone: &ZoneState) -> bool
        ensures { result ≡ passes self zone.now }
    {
        match self {
            ZoneTest::TakesToken => takes_a_token(zone),
            ZoneTest::Collectors => is_collectors(zone),
            ZoneTest::CollectorsOpen => is_collectors(zone) && is_open(zone),
            ZoneTest::Empty => is_empty(zone),
            ZoneTest::IdleActive => is_idle_active(zone),
            ZoneTest::Near { hint } => is_idle_active(zone) && difference(zone.hint, hint) < 50,
            ZoneTest::Equal { hint } => is_idle_active(zone) && difference(zone.hint, hint) == 50,
            ZoneTest::Roomy { capacity, live } => {
                is_idle_active(zone) && live <= u64::from(room_of(capacity, zone))
            }
            ZoneTest::Resettable => is_resettable(zone),
        }
    }
}

/// By what zones are compared; the least is best.
#[derive(Clone, Copy)]
pub(crate) enum ZoneKey {
    /// How far the zone's lifetime is from a file's.
    Difference { hint: u32 },
    /// The blocks that may still be written.
    Room { capacity: u32 },
}

impl ZoneKey {
    /// The number of a zone.
    pub(crate) fn of(self, zone: &ZoneState) -> u32
        ensures { result ≡ key_of self zone.now }
    {
        match self {
            ZoneKey::Difference { hint } => difference(zone.hint, hint),
            ZoneKey::Room { capacity } => room_of(capacity, zone),
        }
    }
}
