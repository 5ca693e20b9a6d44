// What changes need of the metadata zones, in blocks.
ghost use Rattle.std.specs.Prelude.{◌≡◌, ◌++◌, ◌∷◌, [], ℕ, IsSome};
ghost use Rattle.std.specs.Option.{ForSome};
ghost use Rattle.record_model.specs.declared.types.Record.TheVariants.{Update, Deletion};
ghost use Rattle.log_model.specs.Headroom.{blocks_of_record, log_need};
ghost use Rattle.fs_model.specs.FsState.{row_named, working};
ghost use Rattle.fs_model.specs.LogSteps.{block_of};
ghost use Rattle.fs_model.specs.TreeSteps.{entry_in, entry_update, new_entry, new_row, renamed_rows, with_names};
ghost use Rattle.extent_map.specs.Naming.{linked_rows};
ghost use Rattle.fs_tables.specs.Needs.{IsNeed};

use crate::FsTables;
use crate::blocks::{ChangeNeed, log_need, need_of};
use record_model::Name;

impl FsTables {
    /// The blocks that a new log needs for the table and the greatest of its records.
    pub fn mount_need(&self) -> u64
        ensures { result ≡ log_need (block_of self.now.state) (working self.now.state) }
    {
        let snapshot = self.files.snapshot_len();
        let longest = self.files.greatest_record();
        log_need(u64::from(self.geometry.block), snapshot, longest)
    }

    /// The need of a new file of this name, whatever its id, its hint and its time.
    pub fn create_need(&self, name: &Name, sparse: bool) -> ChangeNeed
        ensures { (id hint time : ℕ) → IsNeed result self.now.state (Update (new_entry id name.now hint sparse time))
            (self.now.state.rows ++ new_row (new_entry id name.now hint sparse time) ∷ []) }
    {
        let lengths = self.files.create_lengths(name, sparse);
        let before = self.files.snapshot_len();
        need_of(u64::from(self.geometry.block), before, lengths)
    }

    /// The need of one more name of the file that has the old one.
    pub fn link_need(&self, old: &Name, new: &Name) -> ChangeNeed
        requires { IsSome (row_named old.now self.now.state.rows) }
        ensures { ForSome (row_named old.now self.now.state.rows) (λ r. IsNeed result self.now.state
            (entry_update (with_names (r.entry.names ++ new.now ∷ []) r).entry) (linked_rows new.now r self.now.state.rows)) }
    {
        let lengths = self.files.link_lengths(old, new);
        let before = self.files.snapshot_len();
        need_of(u64::from(self.geometry.block), before, lengths)
    }

    /// The need of a name in the place of another of a file, which is taken from another file that has it.
    pub fn rename_need(&self, old: &Name, new: &Name) -> ChangeNeed
        requires { IsSome (row_named old.now self.now.state.rows) }
        ensures { ForSome (row_named old.now self.now.state.rows) (λ r. IsNeed result self.now.state
            (entry_update (entry_in r.entry.id (renamed_rows r (row_named new.now self.now.state.rows) old.now new.now self.now.state.rows) r.entry))
            (renamed_rows r (row_named new.now self.now.state.rows) old.now new.now self.now.state.rows)) }
    {
        let lengths = self.files.rename_lengths(old, new);
        let before = self.files.snapshot_len();
        need_of(u64::from(self.geometry.block), before, lengths)
    }

    /// The blocks of the record that deletes a name, of whatever file.
    pub fn delete_blocks(&self, name: &Name) -> u64
        ensures record { (id : ℕ) → result ≡ blocks_of_record (block_of self.now.state) (Deletion id name.now) }
        ensures one { result ≡ 1 }
    {
        let _ = &self.geometry;
        let _ = name.items();
        1
    }
}
