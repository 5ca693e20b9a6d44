// Which zone is collected, and where its live blocks go.
ghost use Rattle.std.specs.Prelude.{◌≡◌, ◌^◌, ◌<◌, ◌≤◌, filter, length};
ghost use Rattle.fs_model.specs.ZonePolicy.{data_zones, least, lesser};
ghost use Rattle.fs_model.specs.VictimPolicy.{threshold, is_candidate, in_own, finish_own, release_own, room_lost, plan_to, victim_among, victim, resettable};
ghost use Rattle.zone_alloc.specs.ZoneTableState.{IsZoneTable};
ghost use Rattle.zone_alloc.specs.Destinations.{room_bound, place_of, live_percent, is_eligible};

use crate::space::free_percent;
use crate::walks::{FIRST_DATA_ZONE, count, first};
use crate::zone::{garbage, is_idle, is_idle_active, room_of};
use crate::zone_test::ZoneTest;
use fs_model::{Before, Plan, ZoneState};
use zone_image::Geometry;

// Above this part of free blocks, in percent, nothing is collected.
const COLLECTED_TO: u32 = 20;

/// Where the live blocks of a candidate may go.
#[derive(Clone, Copy)]
pub(crate) struct Destinations {
    pub(crate) capacity: u32,
    /// The zone that the collector holds.
    pub(crate) own: Option<(u32, ZoneState)>,
    /// The lowest empty zone, where the collector may open it.
    pub(crate) empty: Option<(u32, ZoneState)>,
    /// One more than the greatest room of an active zone that nobody holds, and 0 where there is none.
    pub(crate) room_bound: u64,
}

impl Destinations {
    ghost use Rattle.zone_alloc.specs.Destinations.{destinations_of, near_destination, gains};

    /// Where live blocks may go among these zones.
    fn new(geometry: &Geometry, zones: &[ZoneState]) -> Destinations
        requires metadata { 3 ≤ length zones.now }
        requires numbers { length zones.now < 2 ^ 32 }
        ensures { result ≡ destinations_of geometry.now.capacity geometry.now.active_limit (data_zones zones.now) }
    {
        let own = first(zones, ZoneTest::Collectors);
        let taken = count(zones, ZoneTest::TakesToken);
        let empty = if own.is_some() || taken < (geometry.active_limit as usize).saturating_sub(1) {
            first(zones, ZoneTest::Empty)
        } else {
            None
        };
        Destinations {
            capacity: geometry.capacity,
            own,
            empty,
            room_bound: room_bound(geometry.capacity, zones),
        }
    }

    /// The collector's own zone, or an empty one.
    fn near(&self, live: u64) -> Option<(u32, Before)>
        ensures { result ≡ near_destination self.now live }
    {
        if let Some(place) = in_own(self.capacity, live, self.own) {
            return Some(place);
        }
        match self.empty {
            Some((zone, _)) => Some((zone, self.finish_own())),
            None => None,
        }
    }

    // The collector's zone is finished first.
    fn finish_own(&self) -> Before
        ensures { result ≡ finish_own self.now.own }
    {
        match self.own {
            Some((zone, _)) => Before::Finish(zone),
            None => Before::Nothing,
        }
    }

    // The collector's zone is given back first.
    fn release_own(&self) -> Before
        ensures { result ≡ release_own self.now.own }
    {
        match self.own {
            Some((zone, _)) => Before::Release(zone),
            None => Before::Nothing,
        }
    }

    /// Whether so many live blocks have a destination at which a block is gained.
    fn gains(&self, live: u64) -> bool
        ensures { result ≡ gains self.now live }
    {
        match self.near(live) {
            Some((_, before)) => {
                let lost = room_lost(self.capacity, before, self.own);
                u128::from(live) + u128::from(lost) < u128::from(self.capacity)
            }
            None => live < self.room_bound && live < u64::from(self.capacity),
        }
    }

    /// Where so many live blocks go: the first active zone with room for them comes last.
    fn place(&self, zones: &[ZoneState], live: u64) -> Option<(u32, Before)>
        requires { length zones.now < 2 ^ 32 }
        ensures { result ≡ place_of self.now (data_zones zones.now) live }
    {
        if let Some(place) = self.near(live) {
            return Some(place);
        }
        match first(
            zones,
            ZoneTest::Roomy {
                capacity: self.capacity,
                live,
            },
        ) {
            Some((zone, _)) => Some((zone, self.release_own())),
            None => None,
        }
    }
}

// In the collector's own zone, where there is room.
fn in_own(capacity: u32, live: u64, own: Option<(u32, ZoneState)>) -> Option<(u32, Before)>
    ensures { result ≡ in_own capacity live own }
{
    match own {
        Some((zone, state)) => {
            if live <= u64::from(room_of(capacity, &state)) {
                Some((zone, Before::Nothing))
            } else {
                None
            }
        }
        None => None,
    }
}

// The room that is lost where the collector's zone is finished.
fn room_lost(capacity: u32, before: Before, own: Option<(u32, ZoneState)>) -> u32
    ensures { result ≡ room_lost capacity before own }
{
    match (before, own) {
        (Before::Finish(_), Some((_, state))) => room_of(capacity, &state),
        _ => 0,
    }
}

// One more than the greatest room of an active zone that nobody holds, or 0.
fn room_bound(capacity: u32, zones: &[ZoneState]) -> u64
    requires { 3 ≤ length zones.now }
    ensures { result ≡ room_bound capacity (data_zones zones.now) }
{
    let mut bound = 0;
    for i in (FIRST_DATA_ZONE..zones.len()).rev() {
        if is_idle_active(&zones[i]) {
            bound = (u64::from(room_of(capacity, &zones[i])) + 1).max(bound);
        }
    }
    bound
}

// The part of a zone that isn't live is above the threshold, and some of it is live.
fn is_candidate(capacity: u32, threshold: u32, zone: &ZoneState) -> bool
    requires { 0 < capacity }
    ensures { result ≡ is_candidate capacity threshold (0, zone.now) }
{
    let garbage = garbage(capacity, zone);
    zone.info.sealed && is_idle(zone) && threshold < garbage && garbage < 100
}

// A candidate that has a destination.
fn is_eligible(threshold: u32, destinations: &Destinations, zone: &ZoneState) -> bool
    requires { 0 < destinations.now.capacity }
    ensures { result ≡ is_eligible threshold destinations.now (0, zone.now) }
{
    is_candidate(destinations.capacity, threshold, zone) && destinations.gains(zone.live)
}

// The candidate, or the one before where that has more garbage.
fn worse(
    capacity: u32,
    number: u32,
    zone: ZoneState,
    other: Option<(u32, ZoneState)>,
) -> (u32, ZoneState)
    requires { 0 < capacity }
    ensures { Some result ≡ lesser (live_percent capacity) (number, zone) other }
{
    match other {
        Some((other_number, state)) => {
            if garbage(capacity, &zone) < garbage(capacity, &state) {
                (other_number, state)
            } else {
                (number, zone)
            }
        }
        None => (number, zone),
    }
}

// The candidate with the most garbage, and of equals the lowest, among those that have a destination.
fn worst_zone(
    threshold: u32,
    destinations: &Destinations,
    zones: &[ZoneState],
) -> Option<(u32, ZoneState)>
    requires some { 0 < destinations.now.capacity }
    requires metadata { 3 ≤ length zones.now }
    requires numbers { length zones.now < 2 ^ 32 }
    ensures { result ≡ least (live_percent destinations.now.capacity) (filter (is_eligible threshold destinations.now) (data_zones zones.now)) }
{
    let mut worst = None;
    for i in (FIRST_DATA_ZONE..zones.len()).rev() {
        let zone = zones[i];
        if is_eligible(threshold, destinations, &zone) {
            worst = Some(worse(destinations.capacity, i as u32, zone, worst));
        }
    }
    worst
}

// The plan for the zone that was picked, if it gains a block.
fn plan_for(
    destinations: &Destinations,
    zones: &[ZoneState],
    victim: u32,
    zone: &ZoneState,
) -> Option<Plan>
    requires { length zones.now < 2 ^ 32 }
    ensures { result ≡ plan_to destinations.now.capacity (victim, zone.now) destinations.now.own (place_of destinations.now (data_zones zones.now) zone.now.live) }
{
    match destinations.place(zones, zone.live) {
        Some((dest, before)) => {
            let lost = room_lost(destinations.capacity, before, destinations.own);
            if u128::from(zone.live) + u128::from(lost) < u128::from(destinations.capacity) {
                Some(Plan {
                    victim,
                    dest,
                    before,
                })
            } else {
                None
            }
        }
        None => None,
    }
}

/// The zone that is collected next, with its destination, if any.
#[tactic(auto, unfolding(fs_model::specs::VictimPolicy::victim))]
pub(crate) fn next_victim(geometry: &Geometry, collect: bool, zones: &[ZoneState]) -> Option<Plan>
    requires { IsZoneTable geometry.now zones.now }
    ensures { result ≡ victim geometry.now collect zones.now }
{
    if !collect {
        return None;
    }
    victim_among(geometry, free_percent(geometry, zones), zones)
}

// The same, where so much is free in percent.
fn victim_among(geometry: &Geometry, percent: u32, zones: &[ZoneState]) -> Option<Plan>
    requires { IsZoneTable geometry.now zones.now }
    ensures { result ≡ victim_among geometry.now.capacity geometry.now.active_limit percent (data_zones zones.now) }
{
    if COLLECTED_TO < percent {
        return None;
    }
    let destinations = Destinations::new(geometry, zones);
    match worst_zone(threshold(percent), &destinations, zones) {
        Some((victim, zone)) => plan_for(&destinations, zones, victim, &zone),
        None => None,
    }
}

/// The garbage that a victim has to have more of, in percent.
pub(crate) fn threshold(percent: u32) -> u32
    requires { percent ≤ 20 }
    ensures { result ≡ threshold percent }
{
    100 - 3 * (COLLECTED_TO - percent)
}

/// The lowest data zone that may be reset.
#[tactic(auto, unfolding(fs_model::specs::VictimPolicy::resettable))]
pub(crate) fn resettable_zone(zones: &[ZoneState]) -> Option<u32>
    requires { length zones.now < 2 ^ 32 }
    ensures { result ≡ resettable zones.now }
{
    match first(zones, ZoneTest::Resettable) {
        Some((zone, _)) => Some(zone),
        None => None,
    }
}
