// A file is made.
ghost use Rattle.std.specs.Prelude.{◌≡◌, ◌+◌, ◌≤◌, ℕ, IfErr, IfOk, OnErr, OnOk, Ok, Err};
ghost use Rattle.record_model.specs.declared.types.Record.TheVariants.{Update};
ghost use Rattle.log_model.specs.FileTree.Change.{Create};
ghost use Rattle.log_model.specs.LogSelection.{selected_log};
ghost use Rattle.fs_model.specs.TreeSteps.{create, new_entry};
ghost use Rattle.fs_tables.specs.Steps.{infos_in};
ghost use Rattle.fs_core.specs.Changing.{HasStored, MakesChange};
ghost use Rattle.fs_core.specs.FsValue.{CanWrite};
ghost use Rattle.fs_core.specs.NameCalls.{IsRefusal, MayCreate};
ghost use Rattle.fs_core.specs.Storing.{IsPrepared};

use crate::dead_zones::reset_dead_zones;
use crate::granting::grant;
use crate::prepared::{PreparedRecord, prepare_record};
use crate::storing::store_record;
use fs_model::FsError;
use fs_tables::FsTables;
use record_model::Name;
use std::alloc::{AllocError, Global};
use zoned_device::{DevFault, ZonedDevice};

// The last id that a file may have.
const LAST_ID: u64 = u64::MAX - 1;

// Tests whether a file of this name may be made: no file has it, an id is left, and the change has a sequence and room.
fn may_create(tables: &FsTables, name: &Name, sparse: bool) -> Result<(), FsError>
    ensures granted { OnOk result ((hint time : ℕ) → MayCreate tables.now.state name.now hint sparse time) }
    ensures refused { IfErr result (λ why. (hint time : ℕ) → IsRefusal (create name.now hint sparse time) tables.now.state why) }
{
    let _ = name.items();
    match tables.files().find(name) {
        None => {}
        Some(_) => return Err(FsError::Exists),
    }
    if tables.files().greatest() == LAST_ID {
        return Err(FsError::IdsEnd);
    }
    match grant(tables, tables.create_need(name, sparse)) {
        Ok(()) => Ok(()),
        Err(why) => Err(why),
    }
}

// Takes the memory of a new file.
fn prepare_create(
    alloc: Global,
    tables: &mut FsTables,
    name: &Name,
    hint: u32,
    sparse: bool,
    time: u64,
) -> Result<PreparedRecord, AllocError>
    requires may { MayCreate tables.old.state name.now hint sparse time }
    requires hint { hint ≤ 5 }
    ensures state { tables.new.state ≡ tables.old.state }
    ensures spare { OnOk result (1 ≤ tables.new.names_spare) }
    ensures prepared { IfOk result (IsPrepared tables.old.state (Update (new_entry (tables.old.state.greatest + 1) name.now hint sparse time))) }
{
    tables.valid();
    tables.files().valid();
    let update = tables.create_record(alloc, name, hint, sparse, time)?;
    let prepared = prepare_record(alloc, tables, &update)?;
    tables.reserve(0)?;
    Ok(prepared)
}

// Stores a new file whose memory was taken, and answers its id.
fn store_prepared<D: ZonedDevice>(
    dev: &mut D,
    tables: &mut FsTables,
    prepared: PreparedRecord,
    name: Name,
    hint: u32,
    sparse: bool,
    time: u64,
) -> Result<u64, DevFault>
    requires is_known { D.known dev.old }
    requires same_geometry { D.geometry dev.old ≡ tables.old.state.geometry }
    requires told { infos_in tables.old.state ≡ D.infos dev.old }
    requires can_write { CanWrite tables.old.state }
    requires selected { D.tells → selected_log (D.image dev.old) ≡ Ok tables.old.state.log }
    requires hint { hint ≤ 5 }
    requires may { MayCreate tables.old.state name hint sparse time }
    requires spare { 1 ≤ tables.old.names_spare }
    requires prepared { IsPrepared tables.old.state (Update (new_entry (tables.old.state.greatest + 1) name hint sparse time)) prepared }
    ensures stored { IfOk result (λ id. HasStored D.known D.geometry D.infos D.tells D.image D.tick D.since D.faults D.failed_changes (create name hint sparse time) id
        (Create name (tables.old.state.greatest + 1) hint sparse time) dev.old dev.new tables.old.state tables.new.state) }
    ensures failed { OnErr result (MakesChange D.known D.geometry D.infos D.tells D.image D.tick D.since D.faults D.failed_changes (create name hint sparse time)
        (Create name (tables.old.state.greatest + 1) hint sparse time) dev.old dev.new tables.old.state tables.new.state (Err FsError.DevFault)) }
{
    tables.valid();
    tables.files().valid();
    match store_record(dev, tables, prepared) {
        Ok(()) => {}
        Err(fault) => return Err(fault),
    }
    let id = tables.create(name, hint, sparse, time);
    tables.valid();
    Ok(id)
}

// Stores a new file, on a device and in its tables, where it isn't refused and there is memory.
fn store_create<D: ZonedDevice>(
    dev: &mut D,
    tables: &mut FsTables,
    alloc: Global,
    name: Name,
    hint: u32,
    sparse: bool,
    time: u64,
) -> Result<u64, FsError>
    requires is_known { D.known dev.old }
    requires same_geometry { D.geometry dev.old ≡ tables.old.state.geometry }
    requires told { infos_in tables.old.state ≡ D.infos dev.old }
    requires can_write { CanWrite tables.old.state }
    requires selected { D.tells → selected_log (D.image dev.old) ≡ Ok tables.old.state.log }
    requires hint { hint ≤ 5 }
    ensures stored { IfOk result (λ id. HasStored D.known D.geometry D.infos D.tells D.image D.tick D.since D.faults D.failed_changes (create name hint sparse time) id
        (Create name (tables.old.state.greatest + 1) hint sparse time) dev.old dev.new tables.old.state tables.new.state) }
    ensures failed { IfErr result (λ why. MakesChange D.known D.geometry D.infos D.tells D.image D.tick D.since D.faults D.failed_changes (create name hint sparse time)
        (Create name (tables.old.state.greatest + 1) hint sparse time) dev.old dev.new tables.old.state tables.new.state (Err why)) }
{
    tables.valid();
    tables.files().valid();
    match may_create(tables, &name, sparse) {
        Ok(()) => {}
        Err(why) => return Err(why),
    }
    let prepared = match prepare_create(alloc, tables, &name, hint, sparse, time) {
        Ok(prepared) => prepared,
        Err(_) => return Err(FsError::NoMemory),
    };
    match store_prepared(dev, tables, prepared, name, hint, sparse, time) {
        Ok(id) => Ok(id),
        Err(_) => Err(FsError::DevFault),
    }
}

/// Makes a file, on a device and in its tables, and answers its id. After the tests it takes memory, then it stores the
/// record, and then it resets the zones that nothing needs.
pub(crate) fn create_file<D: ZonedDevice>(
    dev: &mut D,
    tables: &mut FsTables,
    alloc: Global,
    name: Name,
    hint: u32,
    sparse: bool,
    time: u64,
) -> Result<u64, FsError>
    requires is_known { D.known dev.old }
    requires same_geometry { D.geometry dev.old ≡ tables.old.state.geometry }
    requires told { infos_in tables.old.state ≡ D.infos dev.old }
    requires can_write { CanWrite tables.old.state }
    requires selected { D.tells → selected_log (D.image dev.old) ≡ Ok tables.old.state.log }
    requires hint { hint ≤ 5 }
    ensures { MakesChange D.known D.geometry D.infos D.tells D.image D.tick D.since D.faults D.failed_changes (create name hint sparse time)
        (Create name (tables.old.state.greatest + 1) hint sparse time) dev.old dev.new tables.old.state tables.new.state result }
{
    let id = match store_create(dev, tables, alloc, name, hint, sparse, time) {
        Ok(id) => id,
        Err(why) => return Err(why),
    };
    match reset_dead_zones(dev, tables) {
        Ok(()) => Ok(id),
        Err(_) => Err(FsError::DevFault),
    }
}
