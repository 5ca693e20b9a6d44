//! Laws of the answers of a check, in the order of its tests: names, the sequence, the room.
ghost use Rattle.fs_model.specs.declared.error.FsError.TheVariants.{NotFound, Exists, IdsEnd};
ghost use Rattle.change_steps.specs.Checking.{CreateOnlyFindsName, CreateOnlyFindsNoId, CreateOnlyAsks, IsCheckedFirst, WritingAtSequenceEnd, WritingIsFull, WritingPasses, IdleAtSequenceEnd, IdleTableIsFull, IdleIsFull, IdlePasses};

/// A new file whose id isn't answered ends as a new file.
pub fn create_only_ends()
    ensures named { CreateOnlyFindsName }
    ensures ids_end { CreateOnlyFindsNoId }
    ensures asks { CreateOnlyAsks }
{}

/// What a change is refused with for its names comes first.
pub fn names_are_checked()
    ensures missing { IsCheckedFirst NotFound }
    ensures named { IsCheckedFirst Exists }
    ensures ids_end { IsCheckedFirst IdsEnd }
{}

/// On a mount that writes, the sequence comes next, for a record that has to roll, and then the room for the change.
pub fn writing_is_checked()
    ensures sequence_end { WritingAtSequenceEnd }
    ensures full { WritingIsFull }
    ensures passes { WritingPasses }
{}

/// On a mount that doesn't write, the mount for writing comes next: the sequence, and the room for the table. Then
/// comes the room for the change.
pub fn idle_is_checked()
    ensures sequence_end { IdleAtSequenceEnd }
    ensures table_full { IdleTableIsFull }
    ensures full { IdleIsFull }
    ensures passes { IdlePasses }
{}
