// A name of a file is deleted.
ghost use Rattle.std.specs.Prelude.{◌≡◌, IfErr, IfOk, OnOk, Ok, Err};
ghost use Rattle.std.specs.Option.{ForSome};
ghost use Rattle.record_model.specs.declared.types.Record.TheVariants.{Deletion};
ghost use Rattle.log_model.specs.FileTree.Change.{Unlink};
ghost use Rattle.log_model.specs.LogSelection.{selected_log};
ghost use Rattle.fs_model.specs.FsState.{row_named};
ghost use Rattle.fs_model.specs.TreeSteps.{delete};
ghost use Rattle.fs_tables.specs.Steps.{infos_in};
ghost use Rattle.fs_core.specs.Changing.{HasStored, MakesChange};
ghost use Rattle.fs_core.specs.FsValue.{CanWrite};
ghost use Rattle.fs_core.specs.NameCalls.{IsRefusal, MayDelete};
ghost use Rattle.fs_core.specs.Storing.{IsPrepared};

use crate::dead_zones::reset_dead_zones;
use crate::granting::grant_sequence;
use crate::prepared::{PreparedRecord, prepare_record};
use crate::storing::store_record;
use fs_model::FsError;
use fs_tables::FsTables;
use record_model::Name;
use std::alloc::{AllocError, Global};
use zoned_device::ZonedDevice;

/// Tests whether a name may be deleted: a file has it, and the record has a sequence.
pub(crate) fn may_delete(tables: &FsTables, name: &Name) -> Result<(), FsError>
    ensures granted { OnOk result (MayDelete tables.now.state name.now) }
    ensures refused { IfErr result (IsRefusal (delete name.now) tables.now.state) }
{
    match tables.files().find(name) {
        None => Err(FsError::NotFound),
        Some(_) => grant_sequence(tables, tables.delete_blocks(name)),
    }
}

// Takes the memory of a deletion.
fn prepare_delete(
    alloc: Global,
    tables: &FsTables,
    name: &Name,
) -> Result<PreparedRecord, AllocError>
    requires may { MayDelete tables.now.state name.now }
    requires can_write { CanWrite tables.now.state }
    ensures { IfOk result (λ p. ForSome (row_named name.now tables.now.state.rows) (λ r. IsPrepared tables.now.state (Deletion r.entry.id name.now) p)) }
{
    tables.valid();
    let deletion = tables.delete_record(alloc, name)?;
    let prepared = prepare_record(alloc, tables, &deletion)?;
    Ok(prepared)
}

// Stores a deletion, on a device and in its tables.
fn store_deletion<D: ZonedDevice>(
    dev: &mut D,
    tables: &mut FsTables,
    alloc: Global,
    name: &Name,
) -> Result<(), FsError>
    requires is_known { D.known dev.old }
    requires same_geometry { D.geometry dev.old ≡ tables.old.state.geometry }
    requires told { infos_in tables.old.state ≡ D.infos dev.old }
    requires can_write { CanWrite tables.old.state }
    requires selected { D.tells → selected_log (D.image dev.old) ≡ Ok tables.old.state.log }
    ensures stored { OnOk result (HasStored D.known D.geometry D.infos D.tells D.image D.tick D.since D.faults D.failed_changes (delete name.now) tt (Unlink name.now) dev.old dev.new tables.old.state tables.new.state) }
    ensures failed { IfErr result (λ why. MakesChange D.known D.geometry D.infos D.tells D.image D.tick D.since D.faults D.failed_changes (delete name.now) (Unlink name.now) dev.old dev.new tables.old.state tables.new.state (Err why)) }
{
    tables.valid();
    match may_delete(tables, name) {
        Ok(()) => {}
        Err(why) => return Err(why),
    }
    let prepared = match prepare_delete(alloc, tables, name) {
        Ok(prepared) => prepared,
        Err(_) => return Err(FsError::NoMemory),
    };
    match store_record(dev, tables, prepared) {
        Ok(()) => {}
        Err(_) => return Err(FsError::DevFault),
    }
    tables.unlink(name);
    tables.valid();
    Ok(())
}

/// Deletes a name, on a device and in its tables. After the tests it takes memory, then it stores the record, and then
/// it resets the zones that nothing needs any more.
pub(crate) fn delete_name<D: ZonedDevice>(
    dev: &mut D,
    tables: &mut FsTables,
    alloc: Global,
    name: &Name,
) -> Result<(), FsError>
    requires is_known { D.known dev.old }
    requires same_geometry { D.geometry dev.old ≡ tables.old.state.geometry }
    requires told { infos_in tables.old.state ≡ D.infos dev.old }
    requires can_write { CanWrite tables.old.state }
    requires selected { D.tells → selected_log (D.image dev.old) ≡ Ok tables.old.state.log }
    ensures { MakesChange D.known D.geometry D.infos D.tells D.image D.tick D.since D.faults D.failed_changes (delete name.now) (Unlink name.now) dev.old dev.new tables.old.state tables.new.state result }
{
    match store_deletion(dev, tables, alloc, name) {
        Ok(()) => {}
        Err(why) => return Err(why),
    }
    match reset_dead_zones(dev, tables) {
        Ok(()) => Ok(()),
        Err(_) => Err(FsError::DevFault),
    }
}
