// The device that every layer above writes to.
ghost use Rattle.std.specs.Prelude.{Option, Bool, None, Some, ◌≡◌, ◌⊎◌, ◌↔◌, ℕ, ◌+◌, ◌-◌, ◌/◌, ◌%◌, ◌<◌, ◌≤◌, List, length, take, false, is_ok, IsTrue, IfOk, OnOk, OnErr, IsErr, IsErrOf};
ghost use Rattle.zone_image.specs.declared.Geometry.{Geometry};
ghost use Rattle.zone_image.specs.declared.ZoneInfo.{ZoneInfo};
ghost use Rattle.zone_image.specs.Image.{Image, IsCrash, is_valid};
ghost use Rattle.zoned_device.specs.Window.{window};
ghost use Rattle.zone_image.specs.Changes.{blocks_in, bytes_at, appended, finished, emptied, synced, blank};
ghost use Rattle.zone_image.specs.Infos.{info_at, active_zones, infos_appended, infos_finished, infos_emptied, infos_blank, IsPossible, IsImage, IsValidImage, Shows, ShowsSome};
ghost use Rattle.zone_image.specs.Moments.{PassedByAppend, PassedByFinish, PassedByReset, LeavesOnly, KeepsMoments};
ghost use Rattle.zone_image.specs.Counts.{next_tick, last_tick, HasCause, Counts};
ghost use Rattle.zoned_device.specs.AsBefore.{IsAsBefore};
ghost use Rattle.zoned_device.specs.Change.{Append, Finish, Reset, Sync, Call, Looking, Making, Changing};

use crate::{DevFault, MakeError, ProbeError};
use zone_image::{Geometry, ZoneInfo};

/// A zoned device. It is known once `probe` or `make` answered Ok, and from then on it tells its geometry and
/// the written number and the seal of each zone. A device may besides tell its blocks, its image, and the images
/// that a crash at some moment might have left.
pub trait ZonedDevice: Drop {
    /// `probe` or `make` answered Ok.
    ghost known: { Self → Type 0 };

    /// The geometry of a known device.
    ghost geometry: { Self → Geometry };

    /// The written number and the seal of each zone of a known device.
    ghost infos: { Self → List ZoneInfo };

    /// The device tells its image.
    ghost tells: { Type 0 };

    /// No image is there; it says nothing of a device that doesn't tell its image.
    ghost absent: { Self → Type 0 };

    /// The image that stands; it says nothing of a device that doesn't tell its image.
    ghost image: { Self → Image };

    /// `since` has every image that a crash might have left.
    ghost tells_moments: { Type 0 };

    /// What a crash at some moment from this tick on might have left. A device that doesn't tell it has none.
    ghost since: { Self → ℕ → Image → Type 0 };

    /// The number of calls so far, up to its end.
    ghost tick: { Self → ℕ };

    /// How often the device failed.
    ghost faults: { Self → ℕ };

    /// How often an append, finish, reset or sync failed.
    ghost failed_changes: { Self → ℕ };

    /// The next call answers a fault only where this holds. It is told whether the call is to change the image, and
    /// how many bytes it then writes. Most devices don't know beforehand.
    ghost may_fail: { Self → Option ℕ → Type 0 } = { λ _ _. Unit {0} };

    /// The next call answers a fault wherever this holds.
    ghost must_fail: { Self → Option ℕ → Type 0 } = { λ _ _. ⊥ };

    /// What a device says besides of a call: of what it was before, the call, whether that answered Ok, and what it is
    /// then. A device in memory says here what is left of its list, its passes and its room, and how much of a call was
    /// done that failed; one over a file, where its faults come from, and what is durable.
    ghost after_call: { Self → Call → Bool → Self → Type 0 } = { λ _ _ _ _. Unit {0} };

    /// Looks whether an image is there, and at its geometry, which is valid. `NotAnImage` comes exactly where the
    /// device tells that no image is there, unless the device fails or memory is wanting.
    fn probe(&mut self) -> Result<Geometry, ProbeError>
        ensures found { OnOk result (known self.new) }
        ensures shape { IfOk result (λ g. g ≡ geometry self.new) }
        ensures present { OnOk result (tells → absent self.old → ⊥) }
        ensures not_an_image { IsErrOf result ProbeError.NotAnImage → tells → absent self.old }

        ensures still_known { known self.old → known self.new }
        ensures same_geometry { known self.old → geometry self.new ≡ geometry self.old }
        ensures same_infos { known self.old → infos self.new ≡ infos self.old }
        ensures same_image { tells → image self.new ≡ image self.old }
        ensures same_absent { tells → absent self.new ↔ absent self.old }
        ensures passes { LeavesOnly tick since self.old self.new (IsCrash (image self.old)) }

        ensures ticks { tick self.new ≡ next_tick (tick self.old) }
        ensures cause { HasCause (faults self.old) (faults self.new) (IsErrOf result ProbeError.Failed) }
        ensures may_fail { IsErrOf result ProbeError.Failed → may_fail self.old None }
        ensures must_fail { must_fail self.old None → IsErrOf result ProbeError.Failed }
        ensures changes { failed_changes self.new ≡ failed_changes self.old }
        ensures after_call { after_call self.old Looking (is_ok result) self.new };

    /// Makes a new image in place of what is there: all zones are empty, and nothing is pending. After `Failed` it
    /// is open which image is there, if any. Nothing is told of the moments inside the call.
    fn make(&mut self, shape: &Geometry) -> Result<(), MakeError>
        requires { IsTrue (is_valid shape.now) }
        ensures made { OnOk result (known self.new) }
        ensures same_shape { OnOk result (geometry self.new ≡ shape.now) }
        ensures empty { OnOk result (infos self.new ≡ infos_blank shape.now) }
        ensures new_image { OnOk result (tells → image self.new ≡ blank shape.now) }

        // After want of memory all is as it was.
        ensures still_known { IsErrOf result MakeError.NoMemory → known self.old → known self.new }
        ensures same_geometry { IsErrOf result MakeError.NoMemory → geometry self.new ≡ geometry self.old }
        ensures same_infos { IsErrOf result MakeError.NoMemory → infos self.new ≡ infos self.old }
        ensures same_image { IsErrOf result MakeError.NoMemory → tells → image self.new ≡ image self.old }
        ensures same_absent { IsErrOf result MakeError.NoMemory → tells → absent self.new ↔ absent self.old }
        ensures passes { IsErrOf result MakeError.NoMemory → LeavesOnly tick since self.old self.new (IsCrash (image self.old)) }

        ensures at_end { tells_moments → tick self.old ≡ last_tick
            → IsAsBefore known geometry infos tells absent image self.old self.new }

        ensures ticks { tick self.new ≡ next_tick (tick self.old) }
        ensures cause { HasCause (faults self.old) (faults self.new) (IsErrOf result MakeError.Failed) }
        ensures may_fail { IsErrOf result MakeError.Failed → may_fail self.old None }
        ensures must_fail { must_fail self.old None → IsErrOf result MakeError.Failed }
        ensures changes { failed_changes self.new ≡ failed_changes self.old }
        ensures after_call { after_call self.old (Making shape.now) (is_ok result) self.new };

    /// The written number and the seal of a zone.
    fn report(&mut self, zone: u32) -> Result<ZoneInfo, DevFault>
        requires is_known { known self.old }
        requires is_zone { zone < (geometry self.old).zones }
        ensures info { IfOk result (λ info. info ≡ info_at (infos self.old) zone) }

        ensures still_known { known self.new }
        ensures same_geometry { geometry self.new ≡ geometry self.old }
        ensures same_infos { infos self.new ≡ infos self.old }
        ensures same_image { tells → image self.new ≡ image self.old }
        ensures passes { LeavesOnly tick since self.old self.new (IsCrash (image self.old)) }

        ensures ticks { tick self.new ≡ next_tick (tick self.old) }
        ensures cause { HasCause (faults self.old) (faults self.new) (IsErr result) }
        ensures may_fail { IsErr result → may_fail self.old None }
        ensures must_fail { must_fail self.old None → IsErr result }
        ensures changes { failed_changes self.new ≡ failed_changes self.old }
        ensures after_call { after_call self.old Looking (is_ok result) self.new };

    /// Reads whole blocks of a zone, from this block on, at most `window` of them. After a fault the bytes of
    /// `out` are open.
    fn read(&mut self, zone: u32, block: u32, out: &mut [u8]) -> Result<(), DevFault>
        requires is_known { known self.old }
        requires is_zone { zone < (geometry self.old).zones }
        requires whole { length out.old % (geometry self.old).block ≡ 0 }
        requires written { block + length out.old / (geometry self.old).block
            ≤ (info_at (infos self.old) zone).written }
        requires window { length out.old / (geometry self.old).block ≤ window (geometry self.old) }
        ensures bytes { OnOk result (tells → out.new
            ≡ bytes_at (image self.old) zone block (length out.old / (geometry self.old).block)) }

        ensures still_known { known self.new }
        ensures same_geometry { geometry self.new ≡ geometry self.old }
        ensures same_infos { infos self.new ≡ infos self.old }
        ensures same_image { tells → image self.new ≡ image self.old }
        ensures passes { LeavesOnly tick since self.old self.new (IsCrash (image self.old)) }

        ensures ticks { tick self.new ≡ next_tick (tick self.old) }
        ensures cause { HasCause (faults self.old) (faults self.new) (IsErr result) }
        ensures may_fail { IsErr result → may_fail self.old None }
        ensures must_fail { must_fail self.old None → IsErr result }
        ensures changes { failed_changes self.new ≡ failed_changes self.old }
        ensures after_call { after_call self.old Looking (is_ok result) self.new };

    /// Writes whole blocks, at least one, at the end of an unsealed zone that has room for them, and answers the
    /// first block's number. The zone is sealed once it is full. An empty zone is written only where fewer zones
    /// are active than the limit. A failed append may have written any number of its blocks, the first ones first.
    fn append(&mut self, zone: u32, bytes: &[u8]) -> Result<u32, DevFault>
        requires is_known { known self.old }
        requires is_zone { zone < (geometry self.old).zones }
        requires some { 0 < length bytes.now }
        requires whole { length bytes.now % (geometry self.old).block ≡ 0 }
        requires unsealed { (info_at (infos self.old) zone).sealed ≡ false }
        requires room { (info_at (infos self.old) zone).written + length bytes.now / (geometry self.old).block
            ≤ (geometry self.old).capacity }
        requires active { (info_at (infos self.old) zone).written ≡ 0
            → active_zones (infos self.old) < (geometry self.old).active_limit }
        ensures first { IfOk result (λ first. first ≡ (info_at (infos self.old) zone).written) }
        ensures new_infos { OnOk result (infos self.new ≡ infos_appended (geometry self.old) (infos self.old) zone
            (length bytes.now / (geometry self.old).block)) }
        ensures new_image { OnOk result (tells → image self.new
            ≡ appended (image self.old) zone (blocks_in (geometry self.old) bytes.now)) }
        ensures after_fault { OnErr result (ShowsSome (geometry self.old) tells zone (blocks_in (geometry self.old) bytes.now)
            (infos self.old) (image self.old) (infos self.new) (image self.new)) }

        ensures still_known { known self.new }
        ensures same_geometry { geometry self.new ≡ geometry self.old }
        ensures passes { LeavesOnly tick since self.old self.new
            (PassedByAppend (image self.old) zone (blocks_in (geometry self.old) bytes.now)) }
        ensures within { (j : Image) → since self.new (tick self.old) j → PassedByAppend (image self.old) zone
            (take ((info_at (infos self.new) zone).written - (info_at (infos self.old) zone).written)
            (blocks_in (geometry self.old) bytes.now)) j }
        ensures passed { (k : ℕ) (j : Image) → tells_moments
            → (info_at (infos self.old) zone).written + k ≤ (info_at (infos self.new) zone).written
            → IsCrash (appended (image self.old) zone (take k (blocks_in (geometry self.old) bytes.now))) j
            → since self.new (tick self.old) j }

        ensures at_end { tells_moments → tick self.old ≡ last_tick
            → Shows tells (infos self.old) (image self.old) (infos self.new) (image self.new) }
        ensures ticks { tick self.new ≡ next_tick (tick self.old) }
        ensures cause { HasCause (faults self.old) (faults self.new) (IsErr result) }
        ensures may_fail { IsErr result → may_fail self.old (Some (length bytes.now)) }
        ensures must_fail { must_fail self.old (Some (length bytes.now)) → IsErr result }
        ensures changes { Counts (failed_changes self.old) (failed_changes self.new) result }
        ensures after_call { after_call self.old (Changing (Append zone (blocks_in (geometry self.old) bytes.now))) (is_ok result) self.new };

    /// Seals a zone. A failed finish was done whole or not at all.
    fn finish(&mut self, zone: u32) -> Result<(), DevFault>
        requires is_known { known self.old }
        requires is_zone { zone < (geometry self.old).zones }
        ensures new_infos { OnOk result (infos self.new ≡ infos_finished (infos self.old) zone) }
        ensures new_image { OnOk result (tells → image self.new ≡ finished (image self.old) zone) }
        ensures after_fault { OnErr result (Shows tells (infos self.old) (image self.old) (infos self.new) (image self.new)
            ⊎ Shows tells (infos_finished (infos self.old) zone) (finished (image self.old) zone) (infos self.new) (image self.new)) }

        ensures still_known { known self.new }
        ensures same_geometry { geometry self.new ≡ geometry self.old }
        ensures passes { LeavesOnly tick since self.old self.new (PassedByFinish (image self.old) zone) }

        ensures at_end { tells_moments → tick self.old ≡ last_tick
            → Shows tells (infos self.old) (image self.old) (infos self.new) (image self.new) }
        ensures ticks { tick self.new ≡ next_tick (tick self.old) }
        ensures cause { HasCause (faults self.old) (faults self.new) (IsErr result) }
        ensures may_fail { IsErr result → may_fail self.old (Some 0) }
        ensures must_fail { must_fail self.old (Some 0) → IsErr result }
        ensures changes { Counts (failed_changes self.old) (failed_changes self.new) result }
        ensures after_call { after_call self.old (Changing (Finish zone)) (is_ok result) self.new };

    /// Empties a zone. A failed reset was done whole or not at all.
    fn reset(&mut self, zone: u32) -> Result<(), DevFault>
        requires is_known { known self.old }
        requires is_zone { zone < (geometry self.old).zones }
        ensures new_infos { OnOk result (infos self.new ≡ infos_emptied (infos self.old) zone) }
        ensures new_image { OnOk result (tells → image self.new ≡ emptied (image self.old) zone) }
        ensures after_fault { OnErr result (Shows tells (infos self.old) (image self.old) (infos self.new) (image self.new)
            ⊎ Shows tells (infos_emptied (infos self.old) zone) (emptied (image self.old) zone) (infos self.new) (image self.new)) }

        ensures still_known { known self.new }
        ensures same_geometry { geometry self.new ≡ geometry self.old }
        ensures passes { LeavesOnly tick since self.old self.new (PassedByReset (image self.old) zone) }

        ensures at_end { tells_moments → tick self.old ≡ last_tick
            → Shows tells (infos self.old) (image self.old) (infos self.new) (image self.new) }
        ensures ticks { tick self.new ≡ next_tick (tick self.old) }
        ensures cause { HasCause (faults self.old) (faults self.new) (IsErr result) }
        ensures may_fail { IsErr result → may_fail self.old (Some 0) }
        ensures must_fail { must_fail self.old (Some 0) → IsErr result }
        ensures changes { Counts (failed_changes self.old) (failed_changes self.new) result }
        ensures after_call { after_call self.old (Changing (Reset zone)) (is_ok result) self.new };

    /// Makes all blocks durable. A failed sync leaves the image as it was.
    fn sync(&mut self) -> Result<(), DevFault>
        requires { known self.old }
        ensures new_image { OnOk result (tells → image self.new ≡ synced (image self.old)) }
        ensures after_fault { OnErr result (tells → image self.new ≡ image self.old) }

        ensures still_known { known self.new }
        ensures same_geometry { geometry self.new ≡ geometry self.old }
        ensures same_infos { infos self.new ≡ infos self.old }
        ensures passes { LeavesOnly tick since self.old self.new (IsCrash (image self.old)) }

        ensures ticks { tick self.new ≡ next_tick (tick self.old) }
        ensures cause { HasCause (faults self.old) (faults self.new) (IsErr result) }
        ensures may_fail { IsErr result → may_fail self.old (Some 0) }
        ensures must_fail { must_fail self.old (Some 0) → IsErr result }
        ensures changes { Counts (failed_changes self.old) (failed_changes self.new) result }
        ensures after_call { after_call self.old (Changing Sync) (is_ok result) self.new };

    /// The tick: the number of calls so far, up to 2^64 - 2. A device that tells its moments fails every call from
    /// there on, as `ends` says, and nothing is done of it, as `at_end`.
    fn tick(&self) -> u64
        ensures { result ≡ tick self.now };

    /// The count of faults. It stands still at its end.
    fn faults(&self) -> u64
        ensures { result ≡ faults self.now };

    /// The count of failed appends, finishes, resets and syncs. It stands still at its end.
    fn failed_changes(&self) -> u64
        ensures { result ≡ failed_changes self.now };

    /// What a device tells of its zones is possible.
    ghost possible: { (d : Self) → known d → IsPossible (geometry d) (infos d) };

    /// The image is one of the geometry, with the written numbers and seals that are told.
    ghost told: { (d : Self) → tells → known d → IsImage (geometry d) (infos d) (image d) };

    /// A known device has an image.
    ghost there: { (d : Self) → tells → known d → absent d → ⊥ };

    /// What is told of an earlier tick holds more, and at the present tick only crashes of the image.
    ghost moments: { KeepsMoments tells image tick since };

    /// Whatever a crash might have left is an image that a device may have: no more zones are active than the limit, no
    /// zone has more blocks than its capacity, and one that has as many is sealed.
    ghost valid_since: { (d : Self) (t : ℕ) (j : Image) → known d → since d t j → IsValidImage j };

    /// A device that tells its moments tells each crash of the image that stands.
    ghost since_all: { (d : Self) (j : Image) → tells_moments → known d → IsCrash (image d) j → since d (tick d) j };

    /// At the last tick each call fails of a device that tells its moments.
    ghost ends: { (d : Self) (call : Option ℕ) → tells_moments → tick d ≡ last_tick → must_fail d call };
}
