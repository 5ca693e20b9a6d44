// A file gets one more name.
ghost use Rattle.std.specs.Prelude.{◌≡◌, ◌≤◌, ◌++◌, ◌∷◌, [], Some, IfErr, IfOk, OnErr, OnOk, Ok, Err};
ghost use Rattle.std.specs.Option.{ForSome};
ghost use Rattle.log_model.specs.FileTree.Change.{Link};
ghost use Rattle.log_model.specs.LogSelection.{selected_log};
ghost use Rattle.fs_model.specs.FsState.{row_named};
ghost use Rattle.fs_model.specs.TreeSteps.{entry_update, link, with_names};
ghost use Rattle.fs_tables.specs.Steps.{infos_in};
ghost use Rattle.fs_core.specs.Changing.{HasStored, MakesChange};
ghost use Rattle.fs_core.specs.FsValue.{CanWrite};
ghost use Rattle.fs_core.specs.NameCalls.{IsRefusal, MayLink};
ghost use Rattle.fs_core.specs.Storing.{IsPrepared};

use crate::dead_zones::reset_dead_zones;
use crate::granting::grant;
use crate::prepared::{PreparedRecord, prepare_record};
use crate::storing::store_record;
use fs_model::FsError;
use fs_tables::FsTables;
use record_model::Name;
use std::alloc::{AllocError, Global};
use zoned_device::{DevFault, ZonedDevice};

// Tests whether a file may get one more name: a file has the old one and none the new one, and the change has a sequence
// and room. It answers the file's id.
fn may_link(tables: &FsTables, old: &Name, new: &Name) -> Result<u64, FsError>
    ensures granted { OnOk result (MayLink tables.now.state old.now new.now) }
    ensures file { IfOk result (λ id. ForSome (row_named old.now tables.now.state.rows) (λ r. r.entry.id ≡ id)) }
    ensures refused { IfErr result (IsRefusal (link old.now new.now) tables.now.state) }
{
    let _ = new.items();
    let id = match tables.files().find(old) {
        None => return Err(FsError::NotFound),
        Some(id) => id,
    };
    match tables.files().find(new) {
        None => {}
        Some(_) => return Err(FsError::Exists),
    }
    match grant(tables, tables.link_need(old, new)) {
        Ok(()) => Ok(id),
        Err(why) => Err(why),
    }
}

// Takes the memory of a link.
fn prepare_link(
    alloc: Global,
    tables: &mut FsTables,
    id: u64,
    old: &Name,
    new: &Name,
) -> Result<PreparedRecord, AllocError>
    requires { MayLink tables.old.state old.now new.now }
    ensures state { tables.new.state ≡ tables.old.state }
    ensures spare { OnOk result (1 ≤ tables.new.names_spare) }
    ensures reserved { OnOk result (tables.new.reserved ≡ Some id) }
    ensures prepared { IfOk result (λ p. ForSome (row_named old.now tables.old.state.rows)
        (λ r. IsPrepared tables.old.state (entry_update (with_names (r.entry.names ++ new.now ∷ []) r).entry) p)) }
{
    tables.valid();
    let update = tables.link_record(alloc, old, new)?;
    let prepared = prepare_record(alloc, tables, &update)?;
    tables.reserve(id)?;
    Ok(prepared)
}

// Stores a link whose memory was taken.
fn store_prepared<D: ZonedDevice>(
    dev: &mut D,
    tables: &mut FsTables,
    prepared: PreparedRecord,
    old: &Name,
    new: Name,
) -> Result<(), DevFault>
    requires is_known { D.known dev.old }
    requires same_geometry { D.geometry dev.old ≡ tables.old.state.geometry }
    requires told { infos_in tables.old.state ≡ D.infos dev.old }
    requires can_write { CanWrite tables.old.state }
    requires selected { D.tells → selected_log (D.image dev.old) ≡ Ok tables.old.state.log }
    requires may { MayLink tables.old.state old.now new }
    requires spare { 1 ≤ tables.old.names_spare }
    requires reserved { ForSome (row_named old.now tables.old.state.rows) (λ r. tables.old.reserved ≡ Some r.entry.id) }
    requires prepared { ForSome (row_named old.now tables.old.state.rows)
        (λ r. IsPrepared tables.old.state (entry_update (with_names (r.entry.names ++ new ∷ []) r).entry) prepared) }
    ensures stored { OnOk result (HasStored D.known D.geometry D.infos D.tells D.image D.tick D.since D.faults D.failed_changes (link old.now new) tt (Link old.now new) dev.old dev.new tables.old.state tables.new.state) }
    ensures failed { OnErr result (MakesChange D.known D.geometry D.infos D.tells D.image D.tick D.since D.faults D.failed_changes (link old.now new) (Link old.now new) dev.old dev.new tables.old.state tables.new.state (Err FsError.DevFault)) }
{
    tables.valid();
    match store_record(dev, tables, prepared) {
        Ok(()) => {}
        Err(fault) => return Err(fault),
    }
    tables.link(old, new);
    tables.valid();
    Ok(())
}

// Stores a link, on a device and in its tables, where it isn't refused and there is memory.
fn store_link<D: ZonedDevice>(
    dev: &mut D,
    tables: &mut FsTables,
    alloc: Global,
    old: &Name,
    new: Name,
) -> Result<(), FsError>
    requires is_known { D.known dev.old }
    requires same_geometry { D.geometry dev.old ≡ tables.old.state.geometry }
    requires told { infos_in tables.old.state ≡ D.infos dev.old }
    requires can_write { CanWrite tables.old.state }
    requires selected { D.tells → selected_log (D.image dev.old) ≡ Ok tables.old.state.log }
    ensures stored { OnOk result (HasStored D.known D.geometry D.infos D.tells D.image D.tick D.since D.faults D.failed_changes (link old.now new) tt (Link old.now new) dev.old dev.new tables.old.state tables.new.state) }
    ensures failed { IfErr result (λ why. MakesChange D.known D.geometry D.infos D.tells D.image D.tick D.since D.faults D.failed_changes (link old.now new) (Link old.now new) dev.old dev.new tables.old.state tables.new.state (Err why)) }
{
    tables.valid();
    let id = match may_link(tables, old, &new) {
        Ok(id) => id,
        Err(why) => return Err(why),
    };
    let prepared = match prepare_link(alloc, tables, id, old, &new) {
        Ok(prepared) => prepared,
        Err(_) => return Err(FsError::NoMemory),
    };
    match store_prepared(dev, tables, prepared, old, new) {
        Ok(()) => Ok(()),
        Err(_) => Err(FsError::DevFault),
    }
}

/// Gives the file of the old name a new one besides, on a device and in its tables. After the tests it takes memory, then it
/// stores the record, and then it resets the zones that nothing needs.
pub(crate) fn link_name<D: ZonedDevice>(
    dev: &mut D,
    tables: &mut FsTables,
    alloc: Global,
    old: &Name,
    new: Name,
) -> Result<(), FsError>
    requires is_known { D.known dev.old }
    requires same_geometry { D.geometry dev.old ≡ tables.old.state.geometry }
    requires told { infos_in tables.old.state ≡ D.infos dev.old }
    requires can_write { CanWrite tables.old.state }
    requires selected { D.tells → selected_log (D.image dev.old) ≡ Ok tables.old.state.log }
    ensures { MakesChange D.known D.geometry D.infos D.tells D.image D.tick D.since D.faults D.failed_changes (link old.now new) (Link old.now new) dev.old dev.new tables.old.state tables.new.state result }
{
    match store_link(dev, tables, alloc, old, new) {
        Ok(()) => {}
        Err(why) => return Err(why),
    }
    match reset_dead_zones(dev, tables) {
        Ok(()) => Ok(()),
        Err(_) => Err(FsError::DevFault),
    }
}
