//! Who has which name, as far as records were applied: names that a record brings are looked up here, and not in every row.

ghost use Rattle.std.specs.Prelude.{◌≡◌, ◌++◌, ℕ, List, [], ◌∷◌, Some, None, OnOk, IfOk, if◌then◌else◌};
ghost use Rattle.std.specs.Str.{bytes_eq};
ghost use Rattle.log_model.specs.FileTable.{Table, is_among};
ghost use Rattle.extent_map.specs.Applying.{AreSettled};
ghost use Rattle.extent_map.specs.Holding.{AreKnown, GivesNames, are_free, are_known_free, holder_of, is_own};
ghost use Rattle.extent_map.specs.Records.{recorded_of};

use crate::row::Row;
use record_model::Name;
use std::alloc::{AllocError, Global};
use std::collections::BTreeMap;

/// For each name of a file the file's id. Names that no file has any more may stand in it, too.
#[derive(Debug, Drop)]
pub(crate) struct Holders {
    ids: BTreeMap<Vec<u8>, u64>,
}

impl Holders {
    /// Nobody has a name.
    fn new(alloc: Global) -> Holders
        ensures { (name : List ℕ) → holder_of name result ≡ None }
    {
        Holders {
            ids: BTreeMap::new(alloc),
        }
    }

    /// Whether none of these names is another file's.
    fn are_free(&self, id: u64, names: &[Name]) -> bool
        ensures { result ≡ are_free self.now id names.now }
    {
        names.iter().all(|name| self.is_free(id, name))
    }

    /// Whether a name is no other file's.
    fn is_free(&self, id: u64, name: &Name) -> bool
        ensures { result ≡ is_own id (holder_of name.now self.now) }
    {
        match self.ids.get(name.items()) {
            None => true,
            Some(holder) => *holder == id,
        }
    }

    /// Gives these names to a file.
    fn give(&mut self, alloc: Global, id: u64, names: &[Name]) -> Result<(), AllocError>
        ensures { OnOk result ((name : List ℕ) → holder_of name self.new ≡ (if is_among names.now name then Some id else holder_of name self.old)) }
    {
        for name in names {
            self.give_one(alloc, id, name)?;
        }
        Ok(())
    }

    /// Gives a name to a file.
    fn give_one(&mut self, alloc: Global, id: u64, name: &Name) -> Result<(), AllocError>
        ensures { OnOk result ((other : List ℕ) → holder_of other self.new ≡ (if bytes_eq name.now other then Some id else holder_of other self.old)) }
    {
        let key = Vec::from_slice(alloc, name.items())?;
        self.ids.insert(key, id)?;
        Ok(())
    }
}

/// Whether none of these names is another file's, as far as it is known.
pub(crate) fn are_free(holders: &Option<Holders>, id: u64, names: &[Name]) -> bool
    ensures { result ≡ are_known_free holders.now id names.now }
{
    match holders {
        None => false,
        Some(known) => known.are_free(id, names),
    }
}

/// Gives these names to a file, where it is known who has which.
pub(crate) fn give(
    holders: Option<Holders>,
    alloc: Global,
    id: u64,
    names: &[Name],
) -> Result<Option<Holders>, AllocError>
    ensures { IfOk result (λ new. GivesNames holders id names.now new) }
{
    match holders {
        None => Ok(None),
        Some(mut known) => {
            known.give(alloc, id, names)?;
            Ok(Some(known))
        }
    }
}

/// Who has which name of these files.
pub(crate) fn holders_of(alloc: Global, rows: &[Row]) -> Result<Option<Holders>, AllocError>
    ensures known { IfOk result (λ holders. AreKnown holders (recorded_of rows.now)) }
    ensures settled { OnOk result (AreSettled rows.now) }
{
    let mut holders = Some(Holders::new(alloc));
    for row in rows {
        holders = with_file(holders, alloc, row)?;
    }
    Ok(holders)
}

/// Gives a file its names, unless one of them is another's: then nothing is known.
fn with_file(
    holders: Option<Holders>,
    alloc: Global,
    row: &Row,
) -> Result<Option<Holders>, AllocError>
    ensures known { IfOk result (λ new. (es : Table) → AreKnown holders es → AreKnown new (es ++ row.now.entry ∷ [])) }
    ensures settled { OnOk result (row.now.unrecorded ≡ [] → row.now.shown ≡ row.now.entry.size) }
{
    let entry = row.entry();
    if are_free(&holders, entry.id, entry.names.items()) {
        give(holders, alloc, entry.id, entry.names.items())
    } else {
        Ok(None)
    }
}
