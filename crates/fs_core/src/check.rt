// What a change of the tree would be refused with.
ghost use Rattle.std.specs.Prelude.{◌≡◌, ◌↔◌, IsErrOf, ℕ, Bool, true, false, None, Some, Err, IfErr, OnOk, nat_lt};
ghost use Rattle.fs_model.specs.Check.{check};
ghost use Rattle.fs_model.specs.Trace.{Refines};
ghost use Rattle.fs_model.specs.TreeSteps.{link, rename, delete};
ghost use Rattle.fs_model.specs.LogSteps.{at_sequence_end};
ghost use Rattle.change_steps.specs.Checking.{create_only};
ghost use Rattle.change_steps.specs.Endings.{lacks_sequence};
ghost use Rattle.change_steps.specs.WriteMount.{mount_need};
ghost use Rattle.fs_core.specs.Checking.{AnswersDemand, IsNoFailure, IsRefusedBy, PassesLog, action_of};

use crate::file_system::Fs;
use fs_model::FsError;
use fs_tables::{ChangeNeed, FsTables};
use record_model::Name;
use zoned_device::ZonedDevice;

impl<D: ZonedDevice> Fs<D> {
    /// What a change would answer before any call of the device (`answer`). On a mount that doesn't write yet it is judged
    /// as behind a mount for writing: the names first, then the sequence and the room of that mount, and then the room for
    /// the change. `Stopped` comes exactly where a change of the device has failed (`stopped`). It takes no memory, and is never
    /// refused for want of it, nor for a fault (`early`).
    pub fn check(&self, change: &Change) -> Result<(), FsError>
        ensures stopped { IsErrOf result FsError.Stopped ↔ (self.now.stopped ≡ true) }
        ensures early { IfErr result IsNoFailure }
        ensures answer { self.now.stopped ≡ false → (now : ℕ) → Refines (check self.now.writing (action_of now change.now)) self.now.state result self.now.state }
    {
        if self.stopped {
            return Err(FsError::Stopped);
        }
        check_change(&self.tables, self.writing, change)
    }
}

// The last id that a file may have.
const LAST_ID: u64 = u64::MAX - 1;

/// A change of the tree.
#[derive(Debug, Drop)]
pub enum Change {
    /// A new file.
    Create { name: Name, hint: u32, sparse: bool },
    /// One more name of a file.
    Link { old: Name, new: Name },
    /// A name in the place of another, which is taken from another file that has it.
    Rename { old: Name, new: Name },
    /// A name fewer.
    Unlink { name: Name },
}

/// What a change would answer before any call of the device, on a mount that writes or on one that doesn't, which would
/// have to be mounted for writing before. It takes no memory.
pub(crate) fn check_change(tables: &FsTables, writing: bool, change: &Change) -> Result<(), FsError>
    ensures goes_on { IsErrOf result FsError.Stopped → ⊥ }
    ensures early { IfErr result IsNoFailure }
    ensures answer { (now : ℕ) → Refines (check writing (action_of now change.now)) tables.now.state result tables.now.state }
{
    match change {
        Change::Create { name, sparse, .. } => check_create(tables, writing, name, *sparse),
        Change::Link { old, new } => check_link(tables, writing, old, new),
        Change::Rename { old, new } => check_rename(tables, writing, old, new),
        Change::Unlink { name } => check_unlink(tables, writing, name),
    }
}

// The same of a new file.
fn check_create(tables: &FsTables, writing: bool, name: &Name, sparse: bool) -> Result<(), FsError>
    ensures goes_on { IsErrOf result FsError.Stopped → ⊥ }
    ensures early { IfErr result IsNoFailure }
    ensures answer { (hint now : ℕ) → Refines (check writing (create_only name.now hint sparse now)) tables.now.state result tables.now.state }
{
    if tables.files().find(name).is_some() {
        return Err(FsError::Exists);
    }
    if tables.files().greatest() == LAST_ID {
        return Err(FsError::IdsEnd);
    }
    check_need(tables, writing, tables.create_need(name, sparse))
}

// The same of one more name.
fn check_link(tables: &FsTables, writing: bool, old: &Name, new: &Name) -> Result<(), FsError>
    ensures goes_on { IsErrOf result FsError.Stopped → ⊥ }
    ensures early { IfErr result IsNoFailure }
    ensures answer { Refines (check writing (link old.now new.now)) tables.now.state result tables.now.state }
{
    if tables.files().find(old).is_none() {
        return Err(FsError::NotFound);
    }
    if tables.files().find(new).is_some() {
        return Err(FsError::Exists);
    }
    check_need(tables, writing, tables.link_need(old, new))
}

// The same of another name.
fn check_rename(tables: &FsTables, writing: bool, old: &Name, new: &Name) -> Result<(), FsError>
    ensures goes_on { IsErrOf result FsError.Stopped → ⊥ }
    ensures early { IfErr result IsNoFailure }
    ensures answer { Refines (check writing (rename old.now new.now)) tables.now.state result tables.now.state }
{
    if tables.files().find(old).is_none() {
        return Err(FsError::NotFound);
    }
    check_need(tables, writing, tables.rename_need(old, new))
}

// The same of a deletion, which always has room.
fn check_unlink(tables: &FsTables, writing: bool, name: &Name) -> Result<(), FsError>
    ensures goes_on { IsErrOf result FsError.Stopped → ⊥ }
    ensures early { IfErr result IsNoFailure }
    ensures answer { Refines (check writing (delete name.now)) tables.now.state result tables.now.state }
{
    if tables.files().find(name).is_none() {
        return Err(FsError::NotFound);
    }
    match check_log(tables, writing, tables.delete_blocks(name)) {
        Ok(()) => Ok(()),
        Err(why) => Err(why),
    }
}

// Whether a change that needs this is refused for want of a sequence or of room.
fn check_need(tables: &FsTables, writing: bool, asked: ChangeNeed) -> Result<(), FsError>
    ensures goes_on { IsErrOf result FsError.Stopped → ⊥ }
    ensures early { IfErr result IsNoFailure }
    ensures answer { AnswersDemand (Some asked.need) asked.blocks writing tables.now.state result }
{
    match check_log(tables, writing, asked.blocks) {
        Ok(()) => check_room(tables, writing, asked),
        Err(why) => Err(why),
    }
}

// Whether a change whose record has so many blocks is refused for want of a sequence, or because the log of a mount for
// writing has no room for the table.
fn check_log(tables: &FsTables, writing: bool, blocks: u64) -> Result<(), FsError>
    ensures goes_on { IsErrOf result FsError.Stopped → ⊥ }
    ensures early { IfErr result IsNoFailure }
    ensures refused { IfErr result (IsRefusedBy blocks writing tables.now.state) }
    ensures passes { OnOk result (PassesLog writing blocks tables.now.state) }
{
    if writing {
        return check_record(tables, blocks);
    }
    check_mount(tables)
}

// The same on a mount that writes.
fn check_record(tables: &FsTables, blocks: u64) -> Result<(), FsError>
    ensures goes_on { IsErrOf result FsError.Stopped → ⊥ }
    ensures early { IfErr result IsNoFailure }
    ensures refused { IfErr result (IsRefusedBy blocks true tables.now.state) }
    ensures passes { OnOk result (lacks_sequence tables.now.state blocks ≡ false) }
{
    if tables.must_roll(blocks) && tables.at_sequence_end() {
        return Err(FsError::SequenceEnd);
    }
    Ok(())
}

// The same on a mount that doesn't.
fn check_mount(tables: &FsTables) -> Result<(), FsError>
    ensures goes_on { IsErrOf result FsError.Stopped → ⊥ }
    ensures early { IfErr result IsNoFailure }
    ensures refused { (blocks : ℕ) → IfErr result (IsRefusedBy blocks false tables.now.state) }
    ensures passes { OnOk result ((at_sequence_end tables.now.state ≡ false) × (nat_lt tables.now.state.geometry.capacity (mount_need tables.now.state) ≡ false)) }
{
    if tables.at_sequence_end() {
        return Err(FsError::SequenceEnd);
    }
    let need = tables.mount_need();
    let capacity = tables.geometry().capacity;
    if need > u64::from(capacity) {
        return Err(FsError::MetaFull { need, capacity });
    }
    Ok(())
}

// Whether a change that needs so many blocks, and for which the log has what it takes, is refused for want of room.
fn check_room(tables: &FsTables, writing: bool, asked: ChangeNeed) -> Result<(), FsError>
    requires { PassesLog writing asked.blocks tables.now.state }
    ensures goes_on { IsErrOf result FsError.Stopped → ⊥ }
    ensures early { IfErr result IsNoFailure }
    ensures answer { AnswersDemand (Some asked.need) asked.blocks writing tables.now.state result }
{
    let capacity = tables.geometry().capacity;
    if asked.need > u64::from(capacity) {
        return Err(FsError::MetaFull {
            need: asked.need,
            capacity,
        });
    }
    Ok(())
}
