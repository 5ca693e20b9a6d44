// The records of a log, folded into a table.
ghost use Rattle.std.specs.Prelude.{◌≡◌, ◌^◌, ◌<◌, length, Ok, IfOk, OnOk, IfErr, IsErrOf};
ghost use Rattle.log_model.specs.FileTable.{is_end};
ghost use Rattle.extent_map.specs.Applying.{rows_of};
ghost use Rattle.extent_map.specs.Records.{recorded_of};
ghost use Rattle.mount_replay.specs.Folding.{folded, IsDamagedAs};
ghost use Rattle.mount_replay.specs.SoundTables.{IsSoundTable};

use crate::error::ReplayError;
use extent_map::{ApplyError, FileTable};
use log_model::{Damage, DamageWhy};
use record_codec::{DecodeError, decode};
use record_model::Record;
use std::alloc::Global;

/// Where a record stands: its metadata zone, its first block, and whether an end stands before it.
#[derive(Clone, Copy)]
pub(crate) struct RecordPlace {
    pub(crate) zone: u32,
    pub(crate) block: u32,
    pub(crate) ended: bool,
}

/// Makes of a table what a record makes of it, and answers whether the log has ended then. `Damaged` comes exactly
/// where the payload isn't a record, an end stands before it, or it breaks a rule of records, with the first of these.
pub(crate) fn fold_record(
    alloc: Global,
    place: RecordPlace,
    payload: &[u8],
    table: &mut FileTable,
) -> Result<bool, ReplayError>
    requires settled { table.old.rows ≡ rows_of (recorded_of table.old.rows) }
    requires sound { IsSoundTable (recorded_of table.old.rows) }
    requires short { length payload.now < 2 ^ 32 }
    ensures folded { IfOk result (λ ended. folded place.ended (recorded_of table.old.rows) (place.block, payload.now) ≡ Ok (ended, recorded_of table.new.rows)) }
    ensures settled { OnOk result (table.new.rows ≡ rows_of (recorded_of table.new.rows)) }
    ensures sound { OnOk result (IsSoundTable (recorded_of table.new.rows)) }
    ensures damaged { IfErr result (IsDamagedAs place.zone (folded place.ended (recorded_of table.old.rows) (place.block, payload.now))) }
    ensures fault { IsErrOf result ReplayError.DevFault → ⊥ }
{
    let record = match decode(alloc, payload) {
        Ok(record) => record,
        Err(DecodeError::Bad(fault)) => return Err(damaged(place, DamageWhy::Decode(fault))),
        Err(DecodeError::NoMemory) => return Err(ReplayError::NoMemory),
    };
    if place.ended {
        return Err(damaged(place, DamageWhy::Rule(2)));
    }
    match table.apply(&record) {
        Ok(()) => Ok(is_end(&record)),
        Err(ApplyError::Rule(rule)) => Err(damaged(place, DamageWhy::Rule(rule))),
        Err(ApplyError::NoMemory) => Err(ReplayError::NoMemory),
    }
}

// Damage of a record.
fn damaged(place: RecordPlace, why: DamageWhy) -> ReplayError
    ensures { result ≡ ReplayError.Damaged (record { zone = place.zone; block = place.block; why = why }) }
{
    ReplayError::Damaged(Damage {
        zone: place.zone,
        block: place.block,
        why,
    })
}

// Whether a record ends the log.
fn is_end(value: &Record) -> bool
    ensures { result ≡ is_end value.now }
{
    matches!(value, Record::End)
}
