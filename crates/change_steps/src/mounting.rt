//! Laws of a mount for writing.
ghost use Rattle.change_steps.specs.WriteMount.{TokenAnswers, TokenKeepsFiles, MountAtSequenceEnd, MountIsFull, MountEnds};

/// A token is freed without a refusal, and without a change of files.
pub fn token_is_freed()
    ensures answers { TokenAnswers }
    ensures keeps { TokenKeepsFiles }
{}

/// A mount for writing is refused at the end of the sequence, then where a log can't take the table. Else it ends with
/// nothing done, or with the log rolled, while dead zones are reset or when all are.
pub fn mount_ends()
    ensures sequence_end { MountAtSequenceEnd }
    ensures full { MountIsFull }
    ensures ends { MountEnds }
{}
