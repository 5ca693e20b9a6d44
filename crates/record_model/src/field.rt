//! The fields of which an entry is a list, and what the tags stand for.

ghost use Rattle.std.specs.Prelude.{◌≡◌};

use crate::name::Name;
use crate::types::Extent;

/// One field of an entry.
#[derive(Debug, Drop)]
pub enum Field {
    /// The file's number.
    Id(u64),
    /// The bytes of all its extents.
    Size(u64),
    /// Its lifetime hint.
    Hint(u32),
    /// One extent, in file order.
    Piece(Extent),
    /// Its modification time in seconds.
    Time(u64),
    /// Where its active extent starts.
    Active(u64),
    /// The file is sparse.
    Sparse,
    /// One of its names.
    Linked(Name),
}

/// What a field's tag stands for.
#[derive(Clone, Copy, Debug, PartialEq, Eq)]
pub enum FieldKind {
    Id,
    Size,
    Hint,
    Piece,
    Time,
    Active,
    Sparse,
    Linked,
}

impl FieldKind {
    ghost use Rattle.record_model.specs.Encoding.{kind_tag};
    ghost use Rattle.record_model.specs.FieldDecoding.{kind_of};

    /// The kind of field that has this tag, where there is one.
    pub fn of_tag(tag: u32) -> Option<FieldKind>
        ensures { result ≡ kind_of tag }
    {
        match tag {
            1 => Some(FieldKind::Id),
            3 => Some(FieldKind::Size),
            4 => Some(FieldKind::Hint),
            5 => Some(FieldKind::Piece),
            6 => Some(FieldKind::Time),
            7 => Some(FieldKind::Active),
            8 => Some(FieldKind::Sparse),
            9 => Some(FieldKind::Linked),
            _ => None,
        }
    }

    /// The tag of a field of this kind.
    pub fn tag(self) -> u32
        ensures { result ≡ kind_tag self }
    {
        match self {
            FieldKind::Id => 1,
            FieldKind::Size => 3,
            FieldKind::Hint => 4,
            FieldKind::Piece => 5,
            FieldKind::Time => 6,
            FieldKind::Active => 7,
            FieldKind::Sparse => 8,
            FieldKind::Linked => 9,
        }
    }
}

/// What a record's tag stands for.
#[derive(Clone, Copy, Debug, PartialEq, Eq)]
pub enum RecordKind {
    Snapshot,
    Update,
    Deletion,
    End,
    Replace,
}

impl RecordKind {
    ghost use Rattle.record_model.specs.Decoding.{record_kind_of};
    ghost use Rattle.record_model.specs.Encoding.{record_tag};

    /// The kind of record that has this tag, where there is one.
    pub fn of_tag(tag: u32) -> Option<RecordKind>
        ensures { result ≡ record_kind_of tag }
    {
        match tag {
            1 => Some(RecordKind::Snapshot),
            2 => Some(RecordKind::Update),
            3 => Some(RecordKind::Deletion),
            4 => Some(RecordKind::End),
            5 => Some(RecordKind::Replace),
            _ => None,
        }
    }

    /// The tag of a record of this kind.
    pub fn tag(self) -> u32
        ensures { result ≡ record_tag self }
    {
        match self {
            RecordKind::Snapshot => 1,
            RecordKind::Update => 2,
            RecordKind::Deletion => 3,
            RecordKind::End => 4,
            RecordKind::Replace => 5,
        }
    }
}
