// Changes of names, in memory.
ghost use Rattle.std.specs.Prelude.{◌≡◌, ◌+◌, ◌-◌, ◌^◌, ◌<◌, ◌≤◌, ◌++◌, ◌∷◌, [], None, Some, map, IsSome};
ghost use Rattle.std.specs.Option.{ForSome};
ghost use Rattle.fs_model.specs.FsState.{row_named};
ghost use Rattle.fs_model.specs.TreeSteps.{cleared, drop_name, new_entry, new_row, renamed_rows};
ghost use Rattle.extent_map.specs.Naming.{linked_rows};
ghost use Rattle.extent_map.specs.Records.{snapshot_len};

use crate::FsTables;
use crate::release::release;
use record_model::Name;

impl FsTables {
    /// Makes an empty file of a name that no file has, and tells its id, which is the greatest since the mount and one. It takes
    /// no memory.
    pub fn create(&mut self, name: Name, hint: u32, sparse: bool, time: u64) -> u64
        requires spare { 1 ≤ self.old.names_spare }
        requires free { row_named name self.old.state.rows ≡ None }
        requires ids { self.old.state.greatest < 2 ^ 64 - 2 }
        requires hint { hint ≤ 5 }
        requires short { snapshot_len (self.old.state.rows ++ new_row (new_entry (self.old.state.greatest + 1) name hint sparse time) ∷ []) < 2 ^ 62 }
        ensures id { result ≡ self.old.state.greatest + 1 }
        ensures state { self.new.state ≡ record (self.old.state) {
          rows = self.old.state.rows ++ new_row (new_entry (self.old.state.greatest + 1) name hint sparse time) ∷ [];
          greatest = self.old.state.greatest + 1;
        } }
    {
        let _ = name.items();
        self.files.create(name, hint, sparse, time).unwrap()
    }

    /// Gives the file of a name one more, which no file has. It takes no memory.
    pub fn link(&mut self, old: &Name, new: Name)
        requires spare { 1 ≤ self.old.names_spare }
        requires there { IsSome (row_named old.now self.old.state.rows) }
        requires reserved { ForSome (row_named old.now self.old.state.rows) (λ r. self.old.reserved ≡ Some r.entry.id) }
        requires free { row_named new self.old.state.rows ≡ None }
        requires short { ForSome (row_named old.now self.old.state.rows) (λ r. snapshot_len (linked_rows new r self.old.state.rows) < 2 ^ 62) }
        ensures { ForSome (row_named old.now self.old.state.rows) (λ r.
            self.new.state ≡ record (self.old.state) { rows = linked_rows new r self.old.state.rows }) }
    {
        let _ = new.items();
        self.files.link(old, new).unwrap();
    }

    /// Puts a name of a file in the place of another one, and takes it from another file that has it, which is gone where it has
    /// none left. Nothing changes where both names are of one file. It takes no memory.
    pub fn rename(&mut self, old: &Name, new: Name)
        requires there { IsSome (row_named old.now self.old.state.rows) }
        requires short { ForSome (row_named old.now self.old.state.rows) (λ r.
            snapshot_len (renamed_rows r (row_named new self.old.state.rows) old.now new self.old.state.rows) < 2 ^ 62) }
        ensures { ForSome (row_named old.now self.old.state.rows) (λ r. self.new.state ≡ record (self.old.state) {
          rows = renamed_rows r (row_named new self.old.state.rows) old.now new self.old.state.rows;
        }) }
    {
        let _ = new.items();
        self.files.valid();
        if self.files.find(old) == self.files.find(&new) {
            return;
        }
        release(&mut self.zones, self.files.lost_extents(&new));
        self.files.rename(old, new).unwrap();
    }

    /// Takes a name from its file, which is gone where it has none left. It takes no memory.
    pub fn unlink(&mut self, name: &Name)
        requires { IsSome (row_named name.now self.old.state.rows) }
        ensures { self.new.state ≡ record (self.old.state) { rows = drop_name name.now self.old.state.rows } }
    {
        self.files.valid();
        release(&mut self.zones, self.files.lost_extents(name));
        self.files.unlink(name).unwrap();
    }

    /// Takes the recovery points of all files away. It takes no memory.
    pub fn clear_points(&mut self)
        ensures { self.new.state ≡ record (self.old.state) { rows = map cleared self.old.state.rows } }
    {
        self.files.clear_points();
    }
}
