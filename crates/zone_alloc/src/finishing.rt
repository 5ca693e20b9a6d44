// Which zone is finished so that one more may be active.
ghost use Rattle.std.specs.Prelude.{◌≡◌, ◌^◌, ◌<◌, ◌≤◌, length};
ghost use Rattle.zone_alloc.specs.Finishing.{zone_to_finish};

use crate::walks::{count, least};
use crate::zone_test::{ZoneKey, ZoneTest};
use fs_model::ZoneState;
use zone_image::Geometry;

/// The active zone with least room, where as many zones are active as the device allows.
pub(crate) fn zone_to_finish(geometry: &Geometry, zones: &[ZoneState]) -> Option<u32>
    requires metadata { 3 ≤ length zones.now }
    requires numbers { length zones.now < 2 ^ 32 }
    ensures { result ≡ zone_to_finish geometry.now zones.now }
{
    let capacity = geometry.capacity;
    if count(zones, ZoneTest::IdleActive) != geometry.active_limit as usize {
        return None;
    }
    match least(zones, ZoneTest::IdleActive, ZoneKey::Room { capacity }) {
        Some((zone, _)) => Some(zone),
        None => None,
    }
}
