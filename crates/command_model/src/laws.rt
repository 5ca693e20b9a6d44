// Laws of the definitions. Each is the contract of a function that does nothing, so that it
// counts as proved.

ghost use Rattle.std.specs.Prelude.{◌≡◌, ℕ, List, Option, None};
ghost use Rattle.log_model.specs.FileTree.{Tree};
ghost use Rattle.command_model.specs.Backup.{clash_in, RestoresBackup};
ghost use Rattle.command_model.specs.BackupLaw.{IsProperTree};

/// What a restore makes of the files of a backup has exactly the names that stood under the
/// prefix, with their bytes, hints and marks: for every tree whose names and hints keep their
/// rules, every prefix, and wherever no path clashes with another.
pub fn backup_restores()
    ensures { (tree : Tree) (prefix : Option (List ℕ))
        → IsProperTree tree → clash_in tree prefix ≡ None → RestoresBackup tree prefix }
{}
