// A record is stored: on the device, and in the tables.
ghost use Rattle.std.specs.Prelude.{◌≡◌, ◌+◌, ◌<◌, true, false, length, Ok, OnErr, OnOk, IsErr};
ghost use Rattle.fs_model.specs.LogSteps.{at_sequence_end, must_roll};
ghost use Rattle.log_model.specs.LogSelection.{selected_log};
ghost use Rattle.zoned_device.specs.DataKept.{KeepsData};
ghost use Rattle.zoned_device.specs.DeviceSteps.{ChangesDevice};
ghost use Rattle.change_steps.specs.Recording.{after_record};
ghost use Rattle.fs_tables.specs.Steps.{HasSameRoom, infos_in};
ghost use Rattle.change_steps.specs.Endings.{lacks_sequence};
ghost use Rattle.fs_core.specs.Storing.{HasMemory, LeavesChange, StoresChange, TakesAsItIs, TakesRolled, new_log_blocks};
ghost use Rattle.fs_core.specs.Changing.{LogGoesOn};
ghost use Rattle.fs_core.specs.FsValue.{CanWrite};

use crate::prepared::{PreparedRecord, PreparedRoll};
use fs_tables::FsTables;
use log_store::{SpelledRecord, add_record, roll_and_add};
use zoned_device::{DevFault, ZonedDevice};

// Adds a record to the log as it is.
fn store_behind<D: ZonedDevice>(
    dev: &mut D,
    tables: &mut FsTables,
    added: &SpelledRecord,
) -> Result<(), DevFault>
    requires is_known { D.known dev.old }
    requires same_geometry { D.geometry dev.old ≡ tables.old.state.geometry }
    requires told { infos_in tables.old.state ≡ D.infos dev.old }
    requires can_write { CanWrite tables.old.state }
    requires selected { D.tells → selected_log (D.image dev.old) ≡ Ok tables.old.state.log }
    requires same_block { added.now.block ≡ tables.old.state.geometry.block }
    requires takes { TakesAsItIs tables.old.state (length added.now.blocks) }
    ensures state { OnOk result (tables.new.state ≡ after_record (length added.now.blocks) tables.old.state) }
    ensures same { OnErr result (tables.new ≡ tables.old) }
    ensures told { OnOk result (infos_in tables.new.state ≡ D.infos dev.new) }
    ensures spare { HasSameRoom tables.old tables.new }
    ensures stands { OnOk result (D.tells → StoresChange added.now.blocks (D.image dev.old) tables.old.state (D.image dev.new) tables.new.state.log) }
    ensures device { ChangesDevice D.known D.geometry D.tells D.image D.tick D.since D.faults D.failed_changes dev.old dev.new (IsErr result)
        (LeavesChange added.now.blocks (D.image dev.old) tables.old.state) }
    ensures data_kept { KeepsData D.infos D.tells D.image dev.old dev.new }
    ensures goes_on { OnOk result (LogGoesOn tables.new.state) }
{
    tables.valid();
    let geometry = tables.geometry();
    match add_record(dev, &geometry, tables.log(), added) {
        Ok(()) => {
            tables.add_record(added.count());
            Ok(())
        }
        Err(fault) => Err(fault),
    }
}

// Rolls the log, and adds a record behind the snapshot.
fn store_rolled<D: ZonedDevice>(
    dev: &mut D,
    tables: &mut FsTables,
    added: &SpelledRecord,
    rolled: &mut PreparedRoll,
) -> Result<(), DevFault>
    requires is_known { D.known dev.old }
    requires same_geometry { D.geometry dev.old ≡ tables.old.state.geometry }
    requires told { infos_in tables.old.state ≡ D.infos dev.old }
    requires can_write { CanWrite tables.old.state }
    requires selected { D.tells → selected_log (D.image dev.old) ≡ Ok tables.old.state.log }
    requires same_block { added.now.block ≡ tables.old.state.geometry.block }
    requires takes { TakesRolled tables.old.state (length added.now.blocks) rolled.old }
    requires goes_on { at_sequence_end tables.old.state ≡ false }
    requires room { new_log_blocks tables.old.state + length added.now.blocks < tables.old.state.geometry.capacity }
    ensures state { OnOk result (tables.new.state ≡ after_record (length added.now.blocks) tables.old.state) }
    ensures same { OnErr result (tables.new ≡ tables.old) }
    ensures told { OnOk result (infos_in tables.new.state ≡ D.infos dev.new) }
    ensures spare { HasSameRoom tables.old tables.new }
    ensures stands { OnOk result (D.tells → StoresChange added.now.blocks (D.image dev.old) tables.old.state (D.image dev.new) tables.new.state.log) }
    ensures device { ChangesDevice D.known D.geometry D.tells D.image D.tick D.since D.faults D.failed_changes dev.old dev.new (IsErr result)
        (LeavesChange added.now.blocks (D.image dev.old) tables.old.state) }
    ensures data_kept { KeepsData D.infos D.tells D.image dev.old dev.new }
    ensures goes_on { OnOk result (LogGoesOn tables.new.state) }
{
    tables.valid();
    let geometry = tables.geometry();
    let count = added.count();
    match roll_and_add(
        dev,
        &geometry,
        tables.log(),
        rolled.snapshot.items(),
        &mut rolled.buffer,
        added,
    ) {
        Ok(log) => {
            tables.roll(log, rolled.blocks);
            tables.add_record(count);
            Ok(())
        }
        Err(_) => Err(DevFault),
    }
}

/// Stores a record whose memory was taken: on the device, and in the log of the tables. What their files are once it is
/// stored is left to the caller.
pub(crate) fn store_record<D: ZonedDevice>(
    dev: &mut D,
    tables: &mut FsTables,
    mut prepared: PreparedRecord,
) -> Result<(), DevFault>
    requires is_known { D.known dev.old }
    requires same_geometry { D.geometry dev.old ≡ tables.old.state.geometry }
    requires told { infos_in tables.old.state ≡ D.infos dev.old }
    requires can_write { CanWrite tables.old.state }
    requires selected { D.tells → selected_log (D.image dev.old) ≡ Ok tables.old.state.log }
    requires memory { HasMemory tables.old.state prepared }
    requires granted { lacks_sequence tables.old.state (length prepared.added.blocks) ≡ false }
    requires room { new_log_blocks tables.old.state + length prepared.added.blocks < tables.old.state.geometry.capacity }
    ensures state { OnOk result (tables.new.state ≡ after_record (length prepared.added.blocks) tables.old.state) }
    ensures same { OnErr result (tables.new ≡ tables.old) }
    ensures told { OnOk result (infos_in tables.new.state ≡ D.infos dev.new) }
    ensures spare { HasSameRoom tables.old tables.new }
    ensures stands { OnOk result (D.tells → StoresChange prepared.added.blocks (D.image dev.old) tables.old.state (D.image dev.new) tables.new.state.log) }
    ensures device { ChangesDevice D.known D.geometry D.tells D.image D.tick D.since D.faults D.failed_changes dev.old dev.new (IsErr result)
        (LeavesChange prepared.added.blocks (D.image dev.old) tables.old.state) }
    ensures data_kept { KeepsData D.infos D.tells D.image dev.old dev.new }
    ensures goes_on { OnOk result (LogGoesOn tables.new.state) }
{
    match &mut prepared.rolled {
        None => store_behind(dev, tables, &prepared.added),
        Some(rolled) => store_rolled(dev, tables, &prepared.added, rolled),
    }
}
