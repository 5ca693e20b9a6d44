//! The bytes of the fields of names, after a change of them.

ghost use Rattle.std.specs.Prelude.{◌≡◌, ◌≤◌, ◌++◌, [], ◌∷◌, List, length};
ghost use Rattle.record_model.specs.Encoding.{field_bytes};
ghost use Rattle.record_model.specs.declared.field.Field.TheVariants.{Linked};
ghost use Rattle.record_codec.specs.Length.{told};
ghost use Rattle.log_model.specs.FileTable.{names_left};
ghost use Rattle.log_model.specs.FileTree.{renamed};
ghost use Rattle.extent_map.specs.RowsAfter.{AreNamesOf};

use crate::lengths::{names_len, tagged_len};
use crate::row::is_among;
use record_model::Name;

/// A name is short.
pub(crate) fn is_short(name: &Name)
    ensures { length name.now ≤ 255 }
{
    let _ = name.items();
}

/// The bytes of the field of a name.
pub(crate) fn name_len(name: &Name) -> u64
    ensures { result ≡ told (length (field_bytes (Linked name.now))) }
{
    tagged_len(name.items().len() as u64)
}

/// The bytes of the fields of these names and of one more.
pub(crate) fn linked_len(names: &[Name], new: &Name) -> u64
    ensures { AreNamesOf result (names.now ++ new.now ∷ []) }
{
    names_len(names).saturating_add(name_len(new))
}

/// The bytes of the fields of these names, with one in the place of another.
pub(crate) fn renamed_len(names: &[Name], old: &Name, new: &Name) -> u64
    ensures { AreNamesOf result (renamed old.now new.now names.now) }
{
    let mut len: u64 = 0;
    for name in names {
        len = len.saturating_add(replaced_len(name, old, new));
    }
    len
}

/// The bytes of the field of a name, or of the new one where it is the old one.
fn replaced_len(name: &Name, old: &Name, new: &Name) -> u64
    ensures { AreNamesOf result (renamed old.now new.now (name.now ∷ [])) }
{
    if name.items() == old.items() {
        name_len(new)
    } else {
        name_len(name)
    }
}

/// The bytes of the fields of the names that aren't taken.
pub(crate) fn left_len(names: &[Name], taken: &[Name]) -> u64
    ensures { AreNamesOf result (names_left taken.now names.now) }
{
    let mut len: u64 = 0;
    for name in names {
        len = len.saturating_add(kept_len(name, taken));
    }
    len
}

/// The bytes of the field of a name, and none where it is taken.
fn kept_len(name: &Name, taken: &[Name]) -> u64
    ensures { AreNamesOf result (names_left taken.now (name.now ∷ [])) }
{
    if is_among(taken, name) {
        0
    } else {
        name_len(name)
    }
}
