// The tables of a mount that begins to write.
ghost use Rattle.std.specs.Prelude.{◌≡◌, ◌+◌, ◌<◌, map, MatchOption};
ghost use Rattle.log_model.specs.Headroom.{snapshot_blocks, superblock_blocks};
ghost use Rattle.fs_model.specs.LogSteps.{next_log};
ghost use Rattle.fs_model.specs.TreeSteps.{cleared};
ghost use Rattle.log_store.specs.Settling.{infos_sealed};
ghost use Rattle.change_records.specs.Recorded.{entries};
ghost use Rattle.change_cover.specs.MountRoom.{MayMount};
ghost use Rattle.change_cover.specs.Rests.{Becomes};
ghost use Rattle.change_steps.specs.WriteMount.{after_token, settled_state};
ghost use Rattle.fs_tables.specs.Steps.{infos_in, rolled_infos};
ghost use Rattle.fs_tables.specs.Tokens.{FinishesNone, FinishesZone, HasFreeToken};
ghost use Rattle.fs_core.specs.FsValue.{CanWrite};

use fs_tables::FsTables;
use log_model::Chosen;

// Finishes the zone that is to be finished, if there is one.
fn finish_any(tables: &mut FsTables, finish: Option<u32>)
    requires { MatchOption finish (FinishesNone tables.old.state) (FinishesZone tables.old.state) }
    ensures state { tables.new.state ≡ after_token tables.old.state }
    ensures infos { infos_in tables.new.state ≡ infos_sealed (infos_in tables.old.state) finish }
    ensures free { HasFreeToken tables.new.state }
{
    match finish {
        Some(zone) => tables.finish(zone),
        None => {}
    }
}

/// The zone is finished, recovery points are taken away, and the log is the new one, whose zone has so many blocks.
pub(crate) fn settle_tables(tables: &mut FsTables, finish: Option<u32>, log: Chosen, blocks: u32)
    requires finish { MatchOption finish (FinishesNone tables.old.state) (FinishesZone tables.old.state) }
    requires may { MayMount tables.old.state }
    requires log { log ≡ next_log tables.old.state }
    requires blocks { blocks ≡ superblock_blocks tables.old.state.geometry.block
        + snapshot_blocks tables.old.state.geometry.block (entries (map cleared tables.old.state.rows)) }
    requires room { blocks < tables.old.state.geometry.capacity }
    ensures state { tables.new.state ≡ settled_state tables.old.state }
    ensures becomes { Becomes (next_log tables.old.state) (map cleared tables.old.state.rows) tables.new.state }
    ensures infos { infos_in tables.new.state ≡ rolled_infos (infos_sealed (infos_in tables.old.state) finish) log.zone blocks }
    ensures shape { tables.new.state.geometry ≡ tables.old.state.geometry }
    ensures writes { CanWrite tables.new.state }
{
    tables.valid();
    finish_any(tables, finish);
    tables.clear_points();
    tables.valid();
    tables.roll(log, blocks);
    tables.valid();
}
