// A mount begins to write: its table goes into a new log, and nothing is pending behind it.
ghost use Rattle.std.specs.Prelude.{◌≡◌, ◌+◌, false, length, map, MatchOption, Ok, Err, IfOk, OnErr, OnOk, IsErr};
ghost use Rattle.log_model.specs.LogScan.{blocks_of};
ghost use Rattle.log_model.specs.Mounted.{all_extents};
ghost use Rattle.fs_model.specs.declared.error.FsError.TheVariants as FsError;
ghost use Rattle.fs_model.specs.FsState.{FsState, recorded, state_in};
ghost use Rattle.fs_model.specs.Trace.{Refines};
ghost use Rattle.fs_model.specs.LogSteps.{next_log};
ghost use Rattle.fs_model.specs.TreeSteps.{cleared, mount_write};
ghost use Rattle.zoned_device.specs.DeviceSteps.{ChangesDevice};
ghost use Rattle.log_roll.specs.Rolling.{next_chosen, next_zone, rolled_infos};
ghost use Rattle.zoned_device.specs.OtherData.{KeepsBlocks};
ghost use Rattle.log_store.specs.Settling.{infos_sealed, is_sealed_by};
ghost use Rattle.change_steps.specs.WriteMount.{settled_state};
ghost use Rattle.change_cover.specs.MountRoom.{MayMount};
ghost use Rattle.change_cover.specs.Rests.{Becomes, Stands};
ghost use Rattle.change_cover.specs.SameTrees.{MountsTheSame};
ghost use Rattle.fs_tables.specs.Steps.{infos_in};
ghost use Rattle.fs_tables.specs.Tokens.{FinishesNone, FinishesZone};
ghost use Rattle.fs_core.specs.DeadZones.{is_free};
ghost use Rattle.fs_core.specs.FsValue.{CanWrite};
ghost use Rattle.fs_core.specs.Beginning.{IsReady, KeepsWritten, LeftByBeginning};

use crate::dead_zones::reset_dead_zones;
use crate::new_log::{NewLog, log_blocks};
use crate::settled_tables::settle_tables;
use fs_tables::FsTables;
use log_model::Chosen;
use log_store::settle_log;
use zone_image::Geometry;
use zoned_device::{DevFault, ZonedDevice};

// The log's part on the device: it isn't refused where the tables say so.
fn roll_settled<D: ZonedDevice>(
    dev: &mut D,
    tables: &FsTables,
    finish: Option<u32>,
    log: &mut NewLog,
) -> Result<Chosen, DevFault>
    requires is_known { D.known dev.old }
    requires same_geometry { D.geometry dev.old ≡ tables.now.state.geometry }
    requires told { infos_in tables.now.state ≡ D.infos dev.old }
    requires mounted { D.tells → state_in (D.image dev.old) ≡ Ok tables.now.state }
    requires may { MayMount tables.now.state }
    requires ready { IsReady tables.now.state log.old.snapshot log.old.buffer }
    requires finish { MatchOption finish (FinishesNone tables.now.state) (FinishesZone tables.now.state) }
    ensures chosen { IfOk result (λ chosen. chosen ≡ next_chosen tables.now.state.log) }
    ensures infos { OnOk result (D.infos dev.new ≡ rolled_infos (infos_sealed (infos_in tables.now.state) finish) (next_zone tables.now.state.log.zone)
        (blocks_of tables.now.state.geometry.block 512 + blocks_of tables.now.state.geometry.block (length log.old.snapshot))) }
    ensures stands { OnOk result (D.tells → (next : FsState) → Becomes (next_log tables.now.state) (map cleared tables.now.state.rows) next → Stands (D.image dev.new) next) }
    ensures alike { OnOk result (D.tells → MountsTheSame (D.image dev.old) (D.image dev.new)) }
    ensures device { ChangesDevice D.known D.geometry D.tells D.image D.tick D.since D.faults D.failed_changes dev.old dev.new (IsErr result)
        (LeftByBeginning (D.image dev.old)) }
    ensures data_kept { KeepsBlocks D.infos D.tells D.image (is_sealed_by finish) dev.old dev.new }
{
    tables.valid();
    let geometry = tables.geometry();
    let snapshot = log.snapshot.items();
    match settle_log(
        dev,
        &geometry,
        tables.log(),
        finish,
        snapshot,
        &mut log.buffer,
    ) {
        Ok(chosen) => Ok(chosen),
        Err(_) => Err(DevFault),
    }
}

/// Puts the table of a mount that may begin to write into a new log, on the device and in the tables: recovery points are
/// taken away, and where as many zones are active as may be one is finished.
///
/// After Ok the state stands and its image mounts to the same tree. A crash at any moment is one of the image at entry, or
/// mounts to exactly its tree. After `DevFault` the tables are as they were.
pub(crate) fn settle<D: ZonedDevice>(
    dev: &mut D,
    tables: &mut FsTables,
    log: &mut NewLog,
) -> Result<(), DevFault>
    requires is_known { D.known dev.old }
    requires same_geometry { D.geometry dev.old ≡ tables.old.state.geometry }
    requires told { infos_in tables.old.state ≡ D.infos dev.old }
    requires mounted { D.tells → state_in (D.image dev.old) ≡ Ok tables.old.state }
    requires may { MayMount tables.old.state }
    requires ready { IsReady tables.old.state log.old.snapshot log.old.buffer }
    ensures state { OnOk result (tables.new.state ≡ settled_state tables.old.state) }
    ensures same { OnErr result (tables.new ≡ tables.old) }
    ensures told { OnOk result (infos_in tables.new.state ≡ D.infos dev.new) }
    ensures becomes { OnOk result (Becomes (next_log tables.old.state) (map cleared tables.old.state.rows) tables.new.state) }
    ensures shape { OnOk result (tables.new.state.geometry ≡ tables.old.state.geometry) }
    ensures writes { OnOk result (CanWrite tables.new.state) }
    ensures stands { OnOk result (D.tells → Stands (D.image dev.new) tables.new.state) }
    ensures alike { OnOk result (D.tells → MountsTheSame (D.image dev.old) (D.image dev.new)) }
    ensures device { ChangesDevice D.known D.geometry D.tells D.image D.tick D.since D.faults D.failed_changes dev.old dev.new (IsErr result)
        (LeftByBeginning (D.image dev.old)) }
    ensures kept { KeepsWritten D.infos D.tells D.image (λ _. false) dev.old dev.new }
{
    tables.valid();
    let finish = tables.zone_to_finish();
    let blocks = log_blocks(&tables.geometry(), log.snapshot.items().len() as u64);
    match roll_settled(dev, tables, finish, log) {
        Ok(chosen) => {
            settle_tables(tables, finish, chosen, blocks);
            Ok(())
        }
        Err(fault) => Err(fault),
    }
}

/// Lets a mount that may write begin: its table goes into a new log, and the zones that nothing needs are reset. It takes no
/// memory.
///
/// Both together are what mounting for writing is (clauses `done` and `part`). A crash at any moment is one of the image at
/// entry, or mounts to exactly its tree. Whatever the answer, the zones in which something is recorded have the blocks that
/// they had.
pub(crate) fn begin_to_write<D: ZonedDevice>(
    dev: &mut D,
    tables: &mut FsTables,
    log: &mut NewLog,
) -> Result<(), DevFault>
    requires is_known { D.known dev.old }
    requires same_geometry { D.geometry dev.old ≡ tables.old.state.geometry }
    requires told { infos_in tables.old.state ≡ D.infos dev.old }
    requires mounted { D.tells → state_in (D.image dev.old) ≡ Ok tables.old.state }
    requires may { MayMount tables.old.state }
    requires ready { IsReady tables.old.state log.old.snapshot log.old.buffer }
    ensures done { OnOk result (Refines mount_write tables.old.state (Ok tt) tables.new.state) }
    ensures part { OnErr result (Refines mount_write tables.old.state (Err FsError.DevFault) tables.new.state) }
    ensures told { OnOk result (infos_in tables.new.state ≡ D.infos dev.new) }
    ensures writes { OnOk result (CanWrite tables.new.state) }
    ensures stands { OnOk result (D.tells → Stands (D.image dev.new) tables.new.state) }
    ensures alike { OnOk result (D.tells → MountsTheSame (D.image dev.old) (D.image dev.new)) }
    ensures extents { all_extents (recorded tables.new.state) ≡ all_extents (recorded tables.old.state) }
    ensures shape { tables.new.state.geometry ≡ tables.old.state.geometry }
    ensures device { ChangesDevice D.known D.geometry D.tells D.image D.tick D.since D.faults D.failed_changes dev.old dev.new (IsErr result)
        (LeftByBeginning (D.image dev.old)) }
    ensures kept { KeepsWritten D.infos D.tells D.image (is_free tables.old.state.geometry (recorded tables.old.state)) dev.old dev.new }
{
    match settle(dev, tables, log) {
        Ok(()) => {}
        Err(fault) => return Err(fault),
    }
    match reset_dead_zones(dev, tables) {
        Ok(()) => Ok(()),
        Err(fault) => Err(fault),
    }
}
