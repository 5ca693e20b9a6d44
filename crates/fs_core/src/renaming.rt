// A name of a file takes the place of another one.
ghost use Rattle.std.specs.Prelude.{◌≡◌, IfErr, IfOk, OnOk, Ok, Err};
ghost use Rattle.std.specs.Option.{ForSome};
ghost use Rattle.log_model.specs.FileTree.Change.{Rename};
ghost use Rattle.log_model.specs.LogSelection.{selected_log};
ghost use Rattle.fs_model.specs.FsState.{row_named};
ghost use Rattle.fs_model.specs.TreeSteps.{rename};
ghost use Rattle.change_records.specs.NameRecords.{rows_renamed};
ghost use Rattle.fs_tables.specs.Steps.{infos_in};
ghost use Rattle.fs_core.specs.Changing.{HasStored, MakesChange};
ghost use Rattle.fs_core.specs.FsValue.{CanWrite};
ghost use Rattle.fs_core.specs.NameCalls.{IsRefusal, MayRename, rename_update};
ghost use Rattle.fs_core.specs.Storing.{IsPrepared};

use crate::dead_zones::reset_dead_zones;
use crate::granting::grant;
use crate::prepared::{PreparedRecord, prepare_record};
use crate::storing::store_record;
use fs_model::FsError;
use fs_tables::FsTables;
use record_model::Name;
use std::alloc::{AllocError, Global};
use zoned_device::ZonedDevice;

// Tests whether a file may be renamed: it has the old name, and the change has a sequence and room.
fn may_rename(tables: &FsTables, old: &Name, new: &Name) -> Result<(), FsError>
    ensures granted { OnOk result (MayRename tables.now.state old.now new.now) }
    ensures refused { IfErr result (IsRefusal (rename old.now new.now) tables.now.state) }
{
    let _ = new.items();
    match tables.files().find(old) {
        None => Err(FsError::NotFound),
        Some(_) => grant(tables, tables.rename_need(old, new)),
    }
}

// Takes the memory of a rename.
fn prepare_rename(
    alloc: Global,
    tables: &FsTables,
    old: &Name,
    new: &Name,
) -> Result<PreparedRecord, AllocError>
    requires { MayRename tables.now.state old.now new.now }
    ensures { IfOk result (λ p. ForSome (row_named old.now tables.now.state.rows)
        (λ r. IsPrepared tables.now.state (rename_update tables.now.state r old.now new.now) p)) }
{
    tables.valid();
    let update = tables.rename_record(alloc, old, new)?;
    let prepared = prepare_record(alloc, tables, &update)?;
    Ok(prepared)
}

// Stores a rename, on a device and in its tables.
fn store_rename<D: ZonedDevice>(
    dev: &mut D,
    tables: &mut FsTables,
    alloc: Global,
    old: &Name,
    new: Name,
) -> Result<(), FsError>
    requires is_known { D.known dev.old }
    requires same_geometry { D.geometry dev.old ≡ tables.old.state.geometry }
    requires told { infos_in tables.old.state ≡ D.infos dev.old }
    requires can_write { CanWrite tables.old.state }
    requires selected { D.tells → selected_log (D.image dev.old) ≡ Ok tables.old.state.log }
    ensures stored { OnOk result (HasStored D.known D.geometry D.infos D.tells D.image D.tick D.since D.faults D.failed_changes (rename old.now new) tt (Rename old.now new) dev.old dev.new tables.old.state tables.new.state) }
    ensures failed { IfErr result (λ why. MakesChange D.known D.geometry D.infos D.tells D.image D.tick D.since D.faults D.failed_changes (rename old.now new) (Rename old.now new) dev.old dev.new tables.old.state tables.new.state (Err why)) }
{
    tables.valid();
    match may_rename(tables, old, &new) {
        Ok(()) => {}
        Err(why) => return Err(why),
    }
    let prepared = match prepare_rename(alloc, tables, old, &new) {
        Ok(prepared) => prepared,
        Err(_) => return Err(FsError::NoMemory),
    };
    match store_record(dev, tables, prepared) {
        Ok(()) => {}
        Err(_) => return Err(FsError::DevFault),
    }
    tables.rename(old, new);
    tables.valid();
    Ok(())
}

/// Puts a new name of a file in the place of the old one, on a device and in its tables. After the tests it takes memory, then
/// it stores the record, and then it resets the zones that nothing needs any more.
pub(crate) fn rename_name<D: ZonedDevice>(
    dev: &mut D,
    tables: &mut FsTables,
    alloc: Global,
    old: &Name,
    new: Name,
) -> Result<(), FsError>
    requires is_known { D.known dev.old }
    requires same_geometry { D.geometry dev.old ≡ tables.old.state.geometry }
    requires told { infos_in tables.old.state ≡ D.infos dev.old }
    requires can_write { CanWrite tables.old.state }
    requires selected { D.tells → selected_log (D.image dev.old) ≡ Ok tables.old.state.log }
    ensures { MakesChange D.known D.geometry D.infos D.tells D.image D.tick D.since D.faults D.failed_changes (rename old.now new) (Rename old.now new) dev.old dev.new tables.old.state tables.new.state result }
{
    match store_rename(dev, tables, alloc, old, new) {
        Ok(()) => {}
        Err(why) => return Err(why),
    }
    match reset_dead_zones(dev, tables) {
        Ok(()) => Ok(()),
        Err(_) => Err(FsError::DevFault),
    }
}
