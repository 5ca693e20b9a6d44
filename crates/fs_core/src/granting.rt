// Whether a change of names has a sequence and room.
ghost use Rattle.std.specs.Prelude.{◌≡◌, ◌<◌, None, Some, IfErr, OnOk};
ghost use Rattle.change_steps.specs.Endings.{lacks_sequence};
ghost use Rattle.fs_core.specs.Granting.{IsGranted, IsWanting};

use fs_model::FsError;
use fs_tables::{ChangeNeed, FsTables};

// A record of so many blocks would have to roll the log, and no sequence is left for that.
fn lacks_sequence(tables: &FsTables, blocks: u64) -> bool
    ensures { result ≡ lacks_sequence tables.now.state blocks }
{
    tables.must_roll(blocks) && tables.at_sequence_end()
}

/// Grants a sequence to a record of so many blocks, whose change always has room.
pub(crate) fn grant_sequence(tables: &FsTables, blocks: u64) -> Result<(), FsError>
    ensures granted { OnOk result (IsGranted tables.now.state blocks None) }
    ensures refused { IfErr result (IsWanting tables.now.state blocks None) }
{
    if lacks_sequence(tables, blocks) {
        return Err(FsError::SequenceEnd);
    }
    Ok(())
}

/// Grants a sequence and room to a change.
pub(crate) fn grant(tables: &FsTables, need: ChangeNeed) -> Result<(), FsError>
    ensures granted { OnOk result (IsGranted tables.now.state need.blocks (Some need.need)) }
    ensures refused { IfErr result (IsWanting tables.now.state need.blocks (Some need.need)) }
{
    if lacks_sequence(tables, need.blocks) {
        return Err(FsError::SequenceEnd);
    }
    let capacity = tables.geometry().capacity;
    if u64::from(capacity) < need.need {
        return Err(FsError::MetaFull {
            need: need.need,
            capacity,
        });
    }
    Ok(())
}
