//! Lists of names that change in place.

ghost use Rattle.std.specs.Prelude.{◌≡◌, ◌<◌, ◌++◌, [], ◌∷◌, ℕ, List, false, length, nat_lt, slice_index_or, vec_capacity, IfNone, IfSome};
ghost use Rattle.std.specs.List.{list_all};
ghost use Rattle.record_model.specs.Grammar.{AreApart};
ghost use Rattle.log_model.specs.FileTable.{is_among, names_left};
ghost use Rattle.log_model.specs.FileTree.{renamed};

use crate::row::is_among;
use record_model::{Name, Names};

/// The names and one more, in this room.
pub(crate) fn with_name(mut room: Vec<Name>, names: Names, new: Name) -> Names
    requires { length names < vec_capacity room }
    ensures { result ≡ names ++ new ∷ [] }
{
    let mut others = names.into_vec();
    room.clear();
    let _ = room.append(&mut others);
    room.push_reserved(new);
    Names::from_vec(room)
}

/// The names, with one in the place of another.
pub(crate) fn renamed(names: Names, old: &Name, new: Name) -> Names
    requires { AreApart names }
    ensures { result ≡ renamed old.now new names }
{
    let mut list = names.into_vec();
    put_in_place(&mut list, old, new);
    Names::from_vec(list)
}

/// Puts a name in the place of another, if that is there.
fn put_in_place(names: &mut Vec<Name>, old: &Name, new: Name)
    requires { AreApart names.old.items }
    ensures { names.new.items ≡ renamed old.now new names.old.items }
{
    match place_of(names, old) {
        None => {}
        Some(at) => names[at] = new,
    }
}

/// Where a name stands.
fn place_of(names: &[Name], name: &Name) -> Option<usize>
    ensures absent { IfNone result (is_among names.now name.now ≡ false) }
    ensures within { IfSome result (λ at. at < length names.now) }
    ensures there { IfSome result (λ at. (d : List ℕ) → slice_index_or names.now at d ≡ name.now) }
{
    for (i, other) in names.iter().enumerate() {
        if other.items() == name.items() {
            return Some(i);
        }
    }
    None
}

/// The names that aren't among those taken.
pub(crate) fn names_left(names: Names, taken: &[Name]) -> Names
    ensures { result ≡ names_left taken.now names }
{
    let mut list = names.into_vec();
    list.retain(|name| !is_among(taken, name));
    Names::from_vec(list)
}

/// Whether a name is left once these are taken.
pub(crate) fn keeps_name(names: &[Name], taken: &[Name]) -> bool
    ensures { result ≡ nat_lt 0 (length (names_left taken.now names.now)) }
{
    !are_among(names, taken)
}

/// Whether all these names are among others.
fn are_among(names: &[Name], others: &[Name]) -> bool
    ensures { result ≡ list_all (is_among others.now) names.now }
{
    names.iter().all(|name| is_among(others, name))
}
