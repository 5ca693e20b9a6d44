// What holds of the files, and room for a change of them.
ghost use Rattle.std.specs.Prelude.{◌≡◌, ◌≤◌, Some, OnOk};
ghost use Rattle.fs_tables.specs.MountedTables.{IsSoundState};

use crate::FsTables;
use std::alloc::AllocError;

impl FsTables {
    /// What holds of every mounted file system into which nobody writes.
    pub fn valid(&self)
        ensures { IsSoundState self.now.state }
    {
        self.files.valid();
    }

    /// Makes room for one more file, and for one more name of the file of this id. After want of memory the state is as before
    /// too.
    pub fn reserve(&mut self, id: u64) -> Result<(), AllocError>
        ensures state { self.new.state ≡ self.old.state }
        ensures names_spare { OnOk result (1 ≤ self.new.names_spare) }
        ensures reserved { OnOk result (self.new.reserved ≡ Some id) }
    {
        self.files.reserve(id)
    }
}
