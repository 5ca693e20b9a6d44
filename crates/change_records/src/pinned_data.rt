//! Laws of commits, of recovery points and of replaced extents that are durable.
ghost use Rattle.change_records.specs.PinnedData.{CommitStaysPinned, RecoveryPointStaysPinned, ReplacementStaysPinned};

/// What is recorded after a commit is pinned where the committed extents are durable and share no byte with others.
pub fn commit_stays_pinned()
    ensures { CommitStaysPinned }
{}

/// What is recorded with a recovery point of a sparse file is pinned where the point is durable and the extents that
/// are found again from it share no byte with others.
pub fn recovery_point_stays_pinned()
    ensures { RecoveryPointStaysPinned }
{}

/// What is recorded after a replacement is pinned where the moved extents are durable and share no byte with others.
pub fn replacement_stays_pinned()
    ensures { ReplacementStaysPinned }
{}
