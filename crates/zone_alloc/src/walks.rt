// Walks over the data zones, by rising or by falling number.
ghost use Rattle.std.specs.Prelude.{◌≡◌, ◌^◌, ◌<◌, ◌≤◌, length, count_by, filter};
ghost use Rattle.fs_model.specs.ZonePolicy.{data_zones, first, least, lesser};
ghost use Rattle.zone_alloc.specs.ZoneTests.{is_wanted, numbered_key};

use crate::zone_test::{ZoneKey, ZoneTest};
use fs_model::ZoneState;

/// The data zones stand behind the three of metadata.
pub(crate) const FIRST_DATA_ZONE: usize = 3;

/// How many data zones there are of some kind.
pub(crate) fn count(zones: &[ZoneState], test: ZoneTest) -> usize
    ensures { result ≡ count_by (is_wanted test) (data_zones zones.now) }
{
    let mut found = 0;
    for i in FIRST_DATA_ZONE..zones.len() {
        if test.passes(&zones[i]) {
            found += 1;
        }
    }
    found
}

/// The lowest data zone of some kind.
pub(crate) fn first(zones: &[ZoneState], test: ZoneTest) -> Option<(u32, ZoneState)>
    requires { length zones.now < 2 ^ 32 }
    ensures { result ≡ first (filter (is_wanted test) (data_zones zones.now)) }
{
    for i in FIRST_DATA_ZONE..zones.len() {
        let zone = zones[i];
        if test.passes(&zone) {
            return Some((i as u32, zone));
        }
    }
    None
}

/// The data zone of some kind with the least key, and of equals the lowest.
pub(crate) fn least(zones: &[ZoneState], test: ZoneTest, key: ZoneKey) -> Option<(u32, ZoneState)>
    requires metadata { 3 ≤ length zones.now }
    requires numbers { length zones.now < 2 ^ 32 }
    ensures { result ≡ least (numbered_key key) (filter (is_wanted test) (data_zones zones.now)) }
{
    let mut best = None;
    for i in (FIRST_DATA_ZONE..zones.len()).rev() {
        let zone = zones[i];
        if test.passes(&zone) {
            best = lesser(key, i as u32, zone, best);
        }
    }
    best
}

// The zone, or the one before where that has a lesser key.
fn lesser(
    key: ZoneKey,
    number: u32,
    zone: ZoneState,
    best: Option<(u32, ZoneState)>,
) -> Option<(u32, ZoneState)>
    ensures { result ≡ lesser (numbered_key key) (number, zone) best }
{
    match best {
        Some((other, state)) => {
            if key.of(&state) < key.of(&zone) {
                Some((other, state))
            } else {
                Some((number, zone))
            }
        }
        None => Some((number, zone)),
    }
}
