// Steps on the log.
ghost use Rattle.std.specs.Prelude.{◌≡◌, ◌+◌, ◌<◌, ◌≤◌, ⊤, false, MatchBool, Ok};
ghost use Rattle.log_model.specs.Headroom.{superblock_blocks, snapshot_blocks};
ghost use Rattle.fs_model.specs.FsState.{descriptor_at, recorded, room_in};
ghost use Rattle.fs_model.specs.LogSteps.{append_blocks, at_sequence_end, must_roll, next_log, roll};
ghost use Rattle.fs_tables.specs.MountedTables.{AreSound};
ghost use Rattle.fs_tables.specs.Steps.{HasSameRoom, TakesBlocks, TakesRecord, infos_in, rolled_infos, with_emptied_metadata};

use crate::FsTables;
use log_model::Chosen;

impl FsTables {
    /// The log's zone has no room for a record of so many blocks and one more for the end record. Where it has, `room` says so.
    pub fn must_roll(&self, blocks: u64) -> bool
        ensures exact { result ≡ must_roll self.now.state blocks }
        ensures room { MatchBool result ⊤ (TakesRecord self.now.state blocks) }
    {
        u64::from(self.log_room()) <= blocks
    }

    // The blocks that the log's zone may still take.
    fn log_room(&self) -> u32
        ensures { result ≡ room_in self.now.state self.now.state.log.zone }
    {
        let info = self.zones.state(self.log.zone).info;
        if info.sealed {
            0
        } else {
            self.geometry.capacity - info.written
        }
    }

    /// No higher sequence is left for another log.
    pub fn at_sequence_end(&self) -> bool
        ensures { result ≡ at_sequence_end self.now.state }
    {
        self.log.greatest == u32::MAX
    }

    /// A record of so many blocks was added to the log.
    pub fn add_record(&mut self, blocks: u32)
        requires { TakesBlocks self.old.state blocks }
        ensures state { self.new.state ≡ (append_blocks self.old.state.log.zone blocks self.old.state).last }
        ensures same_room { HasSameRoom self.old self.new }
    {
        self.append(self.log.zone, blocks);
    }

    /// The log was rolled: another log begins with so many blocks in the next metadata zone, and the other two metadata zones are
    /// empty. No extent lies in one of these.
    pub fn roll(&mut self, log: Chosen, blocks: u32)
        requires next { log ≡ next_log self.old.state }
        requires blocks { blocks ≡ superblock_blocks self.old.state.geometry.block + snapshot_blocks self.old.state.geometry.block (recorded self.old.state) }
        requires room { blocks < self.old.state.geometry.capacity }
        ensures state { self.new.state ≡ (roll self.old.state).last }
        ensures answer { (roll self.old.state).answer ≡ Ok tt }
        ensures infos { infos_in self.new.state ≡ rolled_infos (infos_in self.old.state) log.zone blocks }
        ensures same_room { HasSameRoom self.old self.new }
    {
        self.reset_metadata();
        self.append(log.zone, blocks);
        self.set_log(log);
    }

    // Another log counts, in a metadata zone and with the same flags.
    fn set_log(&mut self, log: Chosen)
        requires metadata { log.zone < 3 }
        requires flags { log.superblock.flags ≡ self.old.state.log.superblock.flags }
        ensures state { self.new.state ≡ record (self.old.state) { log = log } }
        ensures same_room { HasSameRoom self.old self.new }
    {
        self.log = log;
    }

    // All metadata zones were reset.
    fn reset_metadata(&mut self)
        ensures state { self.new.state ≡ record (self.old.state) { zones = with_emptied_metadata self.old.state.zones } }
        ensures sound { AreSound self.old.state }
        ensures same_room { HasSameRoom self.old self.new }
    {
        self.zones.was_reset(0);
        self.zones.was_reset(1);
        self.zones.was_reset(2);
    }

    // So many blocks were appended to a zone.
    fn append(&mut self, zone: u32, blocks: u32)
        requires unsealed { (descriptor_at self.old.state zone).info.sealed ≡ false }
        requires takes { (descriptor_at self.old.state zone).info.written + blocks ≤ self.old.state.geometry.capacity }
        ensures state { self.new.state ≡ (append_blocks zone blocks self.old.state).last }
        ensures same_room { HasSameRoom self.old self.new }
    {
        self.zones.appended(zone, blocks);
    }
}
