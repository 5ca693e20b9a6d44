//! Laws of changes behind the mount for writing that they begin with.
ghost use Rattle.change_steps.specs.Behind.{CreationPassesBehindMount, LinkPassesBehindMount, RenamePassesBehindMount, DeletionPassesBehindMount};

/// What a check passes before the mount for writing isn't refused behind that mount: it keeps names and ids, and makes
/// a log with the table alone, with room for the record and for an end.
pub fn passes_behind_mount()
    ensures creation { CreationPassesBehindMount }
    ensures link { LinkPassesBehindMount }
    ensures rename { RenamePassesBehindMount }
    ensures deletion { DeletionPassesBehindMount }
{}
