// Steps on zones.
ghost use Rattle.std.specs.Prelude.{◌≡◌, ◌<◌, ◌≤◌, [], MatchOption};
ghost use Rattle.zone_image.specs.Infos.{active_zones};
ghost use Rattle.fs_model.specs.FsState.{extents_in};
ghost use Rattle.fs_model.specs.LogSteps.{finish_zone, reset_zone, resettable_zones};
ghost use Rattle.fs_tables.specs.Dead.{IsNextReset};
ghost use Rattle.fs_tables.specs.Steps.{HasSameRoom, infos_in};
ghost use Rattle.fs_tables.specs.Tokens.{FinishesNone, FinishesZone};

use crate::FsTables;

impl FsTables {
    /// A zone was finished: it is sealed.
    pub fn finish(&mut self, zone: u32)
        requires { zone < self.old.state.geometry.zones }
        ensures state { self.new.state ≡ (finish_zone zone self.old.state).last }
        ensures same_room { HasSameRoom self.old self.new }
    {
        self.zones.finished(zone);
    }

    /// The active data zone with least room, where as many data zones are active as the device allows: it is finished when a
    /// file system is mounted for writing, so that its log may be active too. None where fewer are active.
    pub fn zone_to_finish(&self) -> Option<u32>
        requires { active_zones (infos_in self.now.state) ≤ self.now.state.geometry.active_limit }
        ensures { MatchOption result (FinishesNone self.now.state) (λ zone. FinishesZone self.now.state zone) }
    {
        self.zones.zone_to_finish()
    }

    /// The lowest data zone that has a block or a seal and no extent. None where there is none.
    pub fn resettable(&self) -> Option<u32>
        ensures { MatchOption result (resettable_zones self.now.state ≡ []) (λ zone. IsNextReset self.now.state zone) }
    {
        self.zones.resettable()
    }

    /// A zone without extents was reset: it is empty and not sealed.
    pub fn reset(&mut self, zone: u32)
        requires is_zone { zone < self.old.state.geometry.zones }
        requires dead { extents_in self.old.state zone ≡ [] }
        ensures state { self.new.state ≡ (reset_zone zone self.old.state).last }
        ensures same_room { HasSameRoom self.old self.new }
    {
        self.zones.was_reset(zone);
    }
}
