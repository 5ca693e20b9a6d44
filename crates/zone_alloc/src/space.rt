// The figures of space. A zone has less than 2^32 bytes, so that the sums over 65,536 zones are less than 2^48.
ghost use Rattle.std.specs.Prelude.{◌≡◌, ◌+◌, ◌*◌, ◌^◌, ◌<◌, ◌≤◌, length, sum_by};
ghost use Rattle.fs_model.specs.ZonePolicy.{data_zones, room_of, free_blocks, free_percent, unused_bytes, space};
ghost use Rattle.zone_alloc.specs.ZoneTableState.{IsZoneTable};

use crate::walks::FIRST_DATA_ZONE;
use crate::zone::{room_of, unused_bytes};
use fs_model::{Space, ZoneState};
use zone_image::Geometry;

/// The blocks of data zones that may still be written.
fn free_blocks(capacity: u32, zones: &[ZoneState]) -> u64
    requires metadata { 3 ≤ length zones.now }
    requires zones { length zones.now ≤ 65536 }
    ensures exact { result ≡ sum_by (λ z. room_of capacity z.1) (data_zones zones.now) }
    ensures small { result + 3 * capacity ≤ length zones.now * capacity }
{
    let mut free = 0;
    for i in FIRST_DATA_ZONE..zones.len() {
        free += u64::from(room_of(capacity, &zones[i]));
    }
    free
}

/// The same in percent of all their blocks.
pub(crate) fn free_percent(geometry: &Geometry, zones: &[ZoneState]) -> u32
    requires { IsZoneTable geometry.now zones.now }
    ensures exact { result ≡ free_percent geometry.now zones.now }
    ensures small { result ≤ 100 }
{
    let total = u64::from(geometry.zones - 3) * u64::from(geometry.capacity);
    (100 * free_blocks(geometry.capacity, zones) / total) as u32
}

/// The bytes of sealed data zones that aren't live.
fn reclaimable_bytes(geometry: &Geometry, zones: &[ZoneState]) -> u64
    requires { IsZoneTable geometry.now zones.now }
    ensures { result ≡ sum_by (unused_bytes geometry.now) (data_zones zones.now) }
{
    let mut unused = 0;
    for i in FIRST_DATA_ZONE..zones.len() {
        unused += unused_bytes(geometry, &zones[i]);
    }
    unused
}

/// The bytes of all live extents.
fn used_bytes(zones: &[ZoneState]) -> u64
    requires { sum_by (λ z. z.live_bytes) zones.now < 2 ^ 64 }
    ensures { result ≡ sum_by (λ z. z.live_bytes) zones.now }
{
    let mut used = 0;
    for zone in zones {
        used += zone.live_bytes;
    }
    used
}

/// The figures of space.
#[tactic(auto, unfolding(fs_model::specs::ZonePolicy::space))]
pub(crate) fn space_of(geometry: &Geometry, zones: &[ZoneState]) -> Space
    requires { IsZoneTable geometry.now zones.now }
    ensures { result ≡ space geometry.now zones.now }
{
    Space {
        free: free_blocks(geometry.capacity, zones),
        used: used_bytes(zones),
        reclaimable: reclaimable_bytes(geometry, zones),
        free_percent: free_percent(geometry, zones),
    }
}
