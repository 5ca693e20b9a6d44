//! The table, and how an empty one is made.

ghost use Rattle.std.specs.Prelude.{◌≡◌, []};

use crate::holders::Holders;
use crate::room::Room;
use crate::row::Row;
use record_model::Name;
use std::alloc::Global;
use std::marker::Model;

/// The files of a file system, by rising id: of each its recorded entry, its extents that aren't
/// recorded yet, and the number of its bytes that are shown to readers.
#[derive(Debug, Drop)]
pub struct FileTable {
    pub(crate) rows: Vec<Row>,
    pub(crate) greatest: u64,
    /// The id that `reserve` was last given.
    pub(crate) reserved: Option<u64>,
    /// Room for an extent of that file.
    pub(crate) room: Option<Room>,
    /// Room for the name of a new file.
    pub(crate) first_names: Vec<Name>,
    /// Room for all names of the file that `reserve` was last given, and one more.
    pub(crate) more_names: Vec<Name>,
    /// Who has which name, where nothing was changed since but by records.
    pub(crate) holders: Option<Holders>,
}

impl Model for FileTable {
    ghost use Rattle.extent_map.specs.TableState.{IsTableState, TableState};

    ghost Value = { TableState };

    ghost use Rattle.std.specs.Prelude.{◌-◌, length, min, vec_capacity};
    ghost use Rattle.std.specs.Option.{ForSome};
    ghost use Rattle.extent_map.specs.Holding.{IsKept};
    ghost use Rattle.extent_map.specs.Naming.{names_within, reserved_row};
    ghost use Rattle.extent_map.specs.Spare.{spare_of};

    ghost view = { λ t. record {
      rows = t.rows.items;
      greatest = t.greatest;
      spare = spare_of t.rows.items t.room;
      names_spare = names_within (vec_capacity t.more_names) (reserved_row t.reserved t.rows.items)
          (min (vec_capacity t.rows - length t.rows.items) (vec_capacity t.first_names));
      reserved = t.reserved;
    } };

    ghost invariant = { λ t. IsTableState t.rows.items t.greatest × ForSome t.holders (λ h. IsKept h t.rows.items) };
}

impl FileTable {
    /// A table without files. It takes no memory.
    pub fn new(alloc: Global) -> FileTable
        ensures files { result.rows ≡ [] }
        ensures greatest { result.greatest ≡ 0 }
    {
        FileTable {
            rows: Vec::new(alloc),
            greatest: 0,
            reserved: None,
            room: None,
            first_names: Vec::new(alloc),
            more_names: Vec::new(alloc),
            holders: None,
        }
    }
}
