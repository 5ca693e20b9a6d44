// Which zone a writer gets.
ghost use Rattle.std.specs.Prelude.{◌≡◌, ◌^◌, ◌<◌, ◌≤◌, filter, length, ◌&&◌, nat_lt, ◌==◌};
ghost use Rattle.fs_model.specs.ZonePolicy.{data_zones, is_empty, is_idle_active, zone_difference, room_of, first, least, take_zone, fresh_zone, finish_for, token_is_free, empty_is_allowed, choice_among, choice_or, choose_zone};

use crate::walks::{count, first, least};
use crate::zone_test::{ZoneKey, ZoneTest};
use fs_model::{Choice, ZoneState};
use zone_image::Geometry;

// The active zones that are left to the log and to the collector.
const KEPT_TOKENS: usize = 2;

/// A writer may take one more active zone.
pub(crate) fn token_is_free(limit: u32, zones: &[ZoneState]) -> bool
    ensures { result ≡ token_is_free limit (data_zones zones.now) }
{
    let taken = count(zones, ZoneTest::TakesToken);
    let collectors = count(zones, ZoneTest::CollectorsOpen).min(1);
    taken.saturating_sub(collectors) < (limit as usize).saturating_sub(KEPT_TOKENS)
}

/// One empty zone is left to the collector, where there is one.
fn empty_is_allowed(collect: bool, zones: &[ZoneState]) -> bool
    ensures { result ≡ empty_is_allowed collect (data_zones zones.now) }
{
    let least = if collect { 2 } else { 1 };
    least <= count(zones, ZoneTest::Empty)
}

// An active zone whose lifetime is a little longer than the file's, the nearest one.
fn near_zone(zones: &[ZoneState], hint: u32) -> Option<Choice>
    requires metadata { 3 ≤ length zones.now }
    requires numbers { length zones.now < 2 ^ 32 }
    ensures { result ≡ take_zone (least (zone_difference hint) (filter (λ z. is_idle_active z && nat_lt (zone_difference hint z) 50) (data_zones zones.now))) }
{
    take_zone(least(zones, ZoneTest::Near { hint }, ZoneKey::Difference { hint }))
}

// An empty zone, where one may be taken.
fn empty_zone(allowed: bool, zones: &[ZoneState]) -> Option<Choice>
    requires { length zones.now < 2 ^ 32 }
    ensures { result ≡ fresh_zone allowed (first (filter is_empty (data_zones zones.now))) }
{
    if !allowed {
        return None;
    }
    match first(zones, ZoneTest::Empty) {
        Some((zone, _)) => Some(Choice::Fresh { zone }),
        None => None,
    }
}

// An active zone with the file's lifetime.
fn equal_zone(zones: &[ZoneState], hint: u32) -> Option<Choice>
    requires { length zones.now < 2 ^ 32 }
    ensures { result ≡ take_zone (first (filter (λ z. is_idle_active z && (zone_difference hint z == 50)) (data_zones zones.now))) }
{
    take_zone(first(zones, ZoneTest::Equal { hint }))
}

// An empty zone in place of the active one with least room, which is finished.
fn finished_zone(capacity: u32, allowed: bool, zones: &[ZoneState]) -> Option<Choice>
    requires metadata { 3 ≤ length zones.now }
    requires numbers { length zones.now < 2 ^ 32 }
    ensures { result ≡ finish_for allowed (least (λ z. room_of capacity z.1) (filter is_idle_active (data_zones zones.now))) (first (filter is_empty (data_zones zones.now))) }
{
    if !allowed {
        return None;
    }
    match (
        least(zones, ZoneTest::IdleActive, ZoneKey::Room { capacity }),
        first(zones, ZoneTest::Empty),
    ) {
        (Some((finish, _)), Some((zone, _))) => Some(Choice::FinishFresh { finish, zone }),
        _ => None,
    }
}

// Any active zone, the nearest one.
fn any_zone(zones: &[ZoneState], hint: u32) -> Option<Choice>
    requires metadata { 3 ≤ length zones.now }
    requires numbers { length zones.now < 2 ^ 32 }
    ensures { result ≡ take_zone (least (zone_difference hint) (filter is_idle_active (data_zones zones.now))) }
{
    take_zone(least(zones, ZoneTest::IdleActive, ZoneKey::Difference { hint }))
}

// The zone as it is, if there is one.
fn take_zone(found: Option<(u32, ZoneState)>) -> Option<Choice>
    ensures { result ≡ take_zone found }
{
    match found {
        Some((zone, _)) => Some(Choice::Take { zone }),
        None => None,
    }
}

// The zone that the first of the rules names, if one does.
fn choice_among(
    geometry: &Geometry,
    collect: bool,
    zones: &[ZoneState],
    hint: u32,
) -> Option<Choice>
    requires metadata { 3 ≤ length zones.now }
    requires numbers { length zones.now < 2 ^ 32 }
    ensures { result ≡ choice_among geometry.now.capacity geometry.now.active_limit collect hint (data_zones zones.now) }
{
    if let Some(choice) = near_zone(zones, hint) {
        return Some(choice);
    }
    let allowed = empty_is_allowed(collect, zones);
    let free = token_is_free(geometry.active_limit, zones);
    if let Some(choice) = empty_zone(free && allowed, zones) {
        return Some(choice);
    }
    if let Some(choice) = equal_zone(zones, hint) {
        return Some(choice);
    }
    if let Some(choice) = finished_zone(geometry.capacity, allowed, zones) {
        return Some(choice);
    }
    any_zone(zones, hint)
}

/// The zone that a writer with no zone gets for a file of this hint.
#[tactic(auto, unfolding(fs_model::specs::ZonePolicy::choose_zone))]
pub(crate) fn chosen_zone(
    geometry: &Geometry,
    collect: bool,
    zones: &[ZoneState],
    hint: u32,
) -> Choice
    requires metadata { 3 ≤ length zones.now }
    requires numbers { length zones.now < 2 ^ 32 }
    ensures { result ≡ choose_zone geometry.now collect zones.now hint }
{
    match choice_among(geometry, collect, zones, hint) {
        Some(choice) => choice,
        None => no_zone(geometry.active_limit, zones),
    }
}

// No zone, for want of space or of tokens.
fn no_zone(limit: u32, zones: &[ZoneState]) -> Choice
    ensures { result ≡ choice_or (token_is_free limit (data_zones zones.now)) None }
{
    if token_is_free(limit, zones) {
        Choice::NoSpace
    } else {
        Choice::Busy
    }
}
