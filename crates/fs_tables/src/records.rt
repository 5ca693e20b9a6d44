// The records of changes, with memory.
ghost use Rattle.std.specs.Prelude.{◌≡◌, ◌+◌, ◌-◌, ◌^◌, ◌<◌, ◌≤◌, ◌++◌, ◌∷◌, [], None, map, IfOk, IsSome};
ghost use Rattle.std.specs.Option.{ForSome};
ghost use Rattle.record_model.specs.Grammar.{InGrammar};
ghost use Rattle.record_model.specs.declared.types.Record.TheVariants.{Snapshot, Update, Deletion};
ghost use Rattle.fs_model.specs.FsState.{recorded, row_named};
ghost use Rattle.fs_model.specs.TreeSteps.{cleared, entry_in, entry_update, new_entry, renamed_rows, with_names};
ghost use Rattle.extent_map.specs.Records.{recorded_of};

use crate::FsTables;
use record_model::{Name, Record};
use std::alloc::{AllocError, Global};

impl FsTables {
    /// The update that makes an empty file, of the greatest id and one.
    pub fn create_record(
        &self,
        alloc: Global,
        name: &Name,
        hint: u32,
        sparse: bool,
        time: u64,
    ) -> Result<Record, AllocError>
        requires ids { self.now.state.greatest < 2 ^ 64 - 2 }
        requires hint { hint ≤ 5 }
        ensures made { IfOk result (λ update. update ≡ Update (new_entry (self.now.state.greatest + 1) name.now hint sparse time)) }
        ensures grammar { IfOk result InGrammar }
    {
        let _ = name.items();
        let update = self.files.create_record(alloc, name, hint, sparse, time)?;
        Ok(update)
    }

    /// The update that gives the file of a name one more, which no file has.
    pub fn link_record(&self, alloc: Global, old: &Name, new: &Name) -> Result<Record, AllocError>
        requires there { IsSome (row_named old.now self.now.state.rows) }
        requires free { row_named new.now self.now.state.rows ≡ None }
        ensures made { IfOk result (λ update. ForSome (row_named old.now self.now.state.rows) (λ r.
            update ≡ entry_update (with_names (r.entry.names ++ new.now ∷ []) r).entry)) }
        ensures grammar { IfOk result InGrammar }
    {
        let _ = new.items();
        let update = self.files.link_record(alloc, old, new)?;
        Ok(update)
    }

    /// The update that puts a name of a file in the place of another one.
    pub fn rename_record(&self, alloc: Global, old: &Name, new: &Name) -> Result<Record, AllocError>
        requires { IsSome (row_named old.now self.now.state.rows) }
        ensures made { IfOk result (λ update. ForSome (row_named old.now self.now.state.rows) (λ r.
            update ≡ entry_update (entry_in r.entry.id (renamed_rows r (row_named new.now self.now.state.rows) old.now new.now self.now.state.rows) r.entry))) }
        ensures grammar { IfOk result InGrammar }
    {
        let _ = new.items();
        self.files.valid();
        let update = self.files.rename_record(alloc, old, new)?;
        Ok(update)
    }

    /// The deletion of a name.
    pub fn delete_record(&self, alloc: Global, name: &Name) -> Result<Record, AllocError>
        requires { IsSome (row_named name.now self.now.state.rows) }
        ensures made { IfOk result (λ deletion. ForSome (row_named name.now self.now.state.rows) (λ r. deletion ≡ Deletion r.entry.id name.now)) }
        ensures grammar { IfOk result InGrammar }
    {
        let deletion = self.files.delete_record(alloc, name)?;
        Ok(deletion)
    }

    /// The snapshot of what is recorded.
    pub fn snapshot_record(&self, alloc: Global) -> Result<Record, AllocError>
        ensures made { IfOk result (λ snapshot. snapshot ≡ Snapshot (recorded self.now.state)) }
        ensures grammar { IfOk result InGrammar }
    {
        let snapshot = self.files.snapshot(alloc)?;
        Ok(snapshot)
    }

    /// The snapshot of what is recorded, without recovery points.
    pub fn cleared_snapshot(&self, alloc: Global) -> Result<Record, AllocError>
        ensures made { IfOk result (λ snapshot. snapshot ≡ Snapshot (recorded_of (map cleared self.now.state.rows))) }
        ensures grammar { IfOk result InGrammar }
    {
        let snapshot = self.files.cleared_snapshot(alloc)?;
        Ok(snapshot)
    }
}
