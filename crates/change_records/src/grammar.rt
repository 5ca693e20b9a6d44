//! Laws of the grammar: each record that is written is one of it, and its payload is read as that record again.
ghost use Rattle.change_records.specs.Writable.{PayloadReadsAgain, RecordKeepsWritable, CreateStaysWritable, LinkStaysWritable, RenameStaysWritable, UnlinkStaysWritable, CommitStaysWritable, RecoveryPointStaysWritable, ReplacementStaysWritable};

/// The payload of a record of the grammar, of fewer than 2^32 bytes, is read as that record again.
pub fn payload_reads_again()
    ensures { PayloadReadsAgain }
{}

/// Any record of the grammar, replayed, makes a table that can be written of one that can, whoever wrote it.
pub fn record_keeps_writable()
    ensures { RecordKeepsWritable }
{}

/// The record of a new file is one of the grammar, and what is recorded with it can be written.
pub fn create_stays_writable()
    ensures { CreateStaysWritable }
{}

/// So is the record of a link.
pub fn link_stays_writable()
    ensures { LinkStaysWritable }
{}

/// So is the record of a rename.
pub fn rename_stays_writable()
    ensures { RenameStaysWritable }
{}

/// So is the record of a deletion.
pub fn unlink_stays_writable()
    ensures { UnlinkStaysWritable }
{}

/// So is the record of a commit whose extents each have a byte.
pub fn commit_stays_writable()
    ensures { CommitStaysWritable }
{}

/// So is the record of a recovery point.
pub fn recovery_point_stays_writable()
    ensures { RecoveryPointStaysWritable }
{}

/// So is the record of moved extents.
pub fn replacement_stays_writable()
    ensures { ReplacementStaysWritable }
{}
