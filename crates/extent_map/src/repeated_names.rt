//! Whether a name of a snapshot stands in two of its entries.

ghost use Rattle.std.specs.Prelude.{◌≡◌, ℕ, ◌||◌, List, IfOk, OnOk};
ghost use Rattle.std.specs.List.{list_any};
ghost use Rattle.log_model.specs.FileTable.{is_among, repeats_name};
ghost use Rattle.record_codec.specs.NameSets.{has_name};

use record_model::{FileEntry, Name};
use std::alloc::{AllocError, Global};
use std::collections::BTreeSet;

/// Whether a name stands in two entries. From the last entry on, each is compared with all those
/// behind it at once, since their names stand in a set.
pub(crate) fn repeats_name(alloc: Global, files: &[FileEntry]) -> Result<bool, AllocError>
    ensures { IfOk result (λ repeats. repeats ≡ repeats_name files.now) }
{
    let mut seen = BTreeSet::new(alloc);
    for i in 0..files.len() {
        let file = &files[files.len() - 1 - i];
        let names = file.names.items();
        if has_any(&seen, names) {
            return Ok(true);
        }
        add_names(&mut seen, names)?;
    }
    Ok(false)
}

/// Whether one of the names stands in the set.
fn has_any(seen: &BTreeSet<&[u8]>, names: &[Name]) -> bool
    ensures { result ≡ list_any (has_name seen.now) names.now }
{
    names.iter().any(|name| seen.contains(name.items()))
}

/// Puts the names into the set.
fn add_names<'a>(seen: &mut BTreeSet<&'a [u8]>, names: &'a [Name]) -> Result<(), AllocError>
    ensures { OnOk result ((name : List ℕ) → has_name seen.new name ≡ (is_among names.now name || has_name seen.old name)) }
{
    for name in names {
        seen.insert(name.items())?;
    }
    Ok(())
}
