// What the policy asks of one zone.
ghost use Rattle.std.specs.Prelude.{◌≡◌, ◌*◌, ◌<◌, ◌≤◌};
ghost use Rattle.fs_model.specs.ZonePolicy.{is_idle, is_collectors, has_blocks, is_open, is_empty, is_idle_active, room_of, takes_a_token, difference, unused_bytes};
ghost use Rattle.fs_model.specs.VictimPolicy.{garbage, is_resettable};

use fs_model::{Owner, ZoneState};
use zone_image::Geometry;

/// Nobody holds the zone.
pub(crate) fn is_idle(zone: &ZoneState) -> bool
    ensures { result ≡ is_idle zone.now }
{
    matches!(zone.owner, Owner::Idle)
}

/// The collector holds it, as the zone to which it copies.
pub(crate) fn is_collectors(zone: &ZoneState) -> bool
    ensures { result ≡ is_collectors zone.now }
{
    matches!(zone.owner, Owner::Collector)
}

/// It has a block.
pub(crate) fn has_blocks(zone: &ZoneState) -> bool
    ensures { result ≡ has_blocks zone.now }
{
    0 < zone.info.written
}

/// It isn't sealed.
pub(crate) fn is_open(zone: &ZoneState) -> bool
    ensures { result ≡ is_open zone.now }
{
    !zone.info.sealed
}

/// Nobody holds it, and nothing is in it yet.
pub(crate) fn is_empty(zone: &ZoneState) -> bool
    ensures { result ≡ is_empty (0, zone.now) }
{
    is_idle(zone) && is_open(zone) && !has_blocks(zone)
}

/// Nobody holds it, and it has blocks and room.
pub(crate) fn is_idle_active(zone: &ZoneState) -> bool
    ensures { result ≡ is_idle_active (0, zone.now) }
{
    is_idle(zone) && is_open(zone) && has_blocks(zone)
}

/// It takes one of the active zones that the device allows.
pub(crate) fn takes_a_token(zone: &ZoneState) -> bool
    ensures { result ≡ takes_a_token (0, zone.now) }
{
    is_open(zone) && (has_blocks(zone) || !is_idle(zone))
}

/// Nobody holds it, it has a block or a seal, and nothing in it is live.
pub(crate) fn is_resettable(zone: &ZoneState) -> bool
    ensures { result ≡ is_resettable (0, zone.now) }
{
    is_idle(zone) && (has_blocks(zone) || zone.info.sealed) && zone.live == 0
}

/// The blocks that may still be written.
pub(crate) fn room_of(capacity: u32, zone: &ZoneState) -> u32
    ensures exact { result ≡ room_of capacity zone.now }
    ensures small { result ≤ capacity }
{
    if zone.info.sealed {
        0
    } else {
        capacity.saturating_sub(zone.info.written)
    }
}

/// How far apart the lifetimes of a zone and of a file are.
pub(crate) fn difference(zone: u32, file: u32) -> u32
    ensures { result ≡ difference zone file }
{
    if file <= 1 {
        return if zone == file { 0 } else { 100 };
    }
    if file < zone {
        zone - file
    } else if zone == file {
        50
    } else {
        100
    }
}

/// The part of a zone that isn't live, in percent.
pub(crate) fn garbage(capacity: u32, zone: &ZoneState) -> u32
    requires { 0 < capacity }
    ensures { result ≡ garbage capacity zone.now }
{
    let live = 100 * u128::from(zone.live) / u128::from(capacity);
    100 - live.min(100) as u32
}

/// The bytes of a sealed zone that aren't live.
pub(crate) fn unused_bytes(geometry: &Geometry, zone: &ZoneState) -> u64
    ensures exact { result ≡ unused_bytes geometry.now (0, zone.now) }
    ensures small { result ≤ geometry.now.capacity * geometry.now.block }
{
    if zone.info.sealed {
        (u64::from(geometry.capacity) * u64::from(geometry.block)).saturating_sub(zone.live_bytes)
    } else {
        0
    }
}
