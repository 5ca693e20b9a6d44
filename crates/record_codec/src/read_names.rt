//! The names of an entry that were read so far.

ghost use Rattle.std.specs.Prelude.{◌≡◌, ◌==◌, ◌++◌, ℕ, List, [], ◌∷◌, length, take, OnOk, OnErr};
ghost use Rattle.std.specs.BTreeSet.{IsUnchanged};
ghost use Rattle.std.specs.List.{list_any};
ghost use Rattle.std.specs.Str.{bytes_eq};
ghost use Rattle.record_codec.specs.NameSets.{HasLater};

use record_model::{Name, Names};
use std::alloc::{AllocError, Global};
use std::collections::BTreeSet;
use std::marker::Model;

/// How many names are compared one by one, so that the usual few take no set.
const FEW: usize = 8;

/// The names in their order. Those behind the first few stand in a set too, by their text in the
/// payload, so that among many a name is found by halves.
#[derive(Drop)]
pub(crate) struct ReadNames<'a> {
    names: Vec<Name>,
    later: BTreeSet<&'a [u8]>,
}

impl<'a> Model for ReadNames<'a> {
    ghost use Rattle.std.specs.Prelude.{List, ℕ};

    ghost Value = { List (List ℕ) };

    ghost use Rattle.record_codec.specs.NameSets.{HasLater};

    ghost view = { λ n. n.names.items };

    ghost invariant = { λ n. HasLater n.names.items n.later };
}

impl<'a> ReadNames<'a> {
    /// No names.
    pub(crate) fn new(alloc: Global) -> ReadNames<'a>
        ensures { result ≡ [] }
    {
        ReadNames {
            names: Vec::new(alloc),
            later: BTreeSet::new(alloc),
        }
    }

    /// Whether this name is there.
    pub(crate) fn has(&self, name: &[u8]) -> bool
        ensures { result ≡ list_any (bytes_eq name.now) self.now }
    {
        is_among(first(&self.names), name) || self.later.contains(name)
    }

    /// Whether no name is there.
    pub(crate) fn is_empty(&self) -> bool
        ensures { result ≡ (length self.now == 0) }
    {
        self.names.is_empty()
    }

    /// Takes a name, which has this text. Where memory is wanting, the name is lost.
    pub(crate) fn add(&mut self, name: Name, text: &'a [u8]) -> Result<(), AllocError>
        requires { name ≡ text.now }
        ensures { OnOk result (self.new ≡ self.old ++ name ∷ []) }
    {
        self.names.reserve(1)?;
        let count = self.names.len();
        add_later(&mut self.later, count, text)?;
        self.names.push_reserved(name);
        Ok(())
    }

    /// The list of the names.
    pub(crate) fn into_names(self) -> Names
        ensures { result ≡ self.entry }
    {
        Names::from_vec(self.names)
    }
}

/// Puts the name that stands behind so many into the set, unless it is one of the first few. Where
/// memory is wanting, the set is as before.
fn add_later<'a>(
    later: &mut BTreeSet<&'a [u8]>,
    count: usize,
    name: &'a [u8],
) -> Result<(), AllocError>
    ensures added { OnOk result ((names : List (List ℕ)) → length names ≡ count → HasLater names later.old
        → HasLater (names ++ name.now ∷ []) later.new) }
    ensures same { OnErr result (IsUnchanged later.old later.new) }
{
    if count < FEW {
        return Ok(());
    }
    later.insert(name)?;
    Ok(())
}

/// Whether a name is one of these.
fn is_among(names: &[Name], name: &[u8]) -> bool
    ensures { result ≡ list_any (bytes_eq name.now) names.now }
{
    names.iter().any(|other| name == other.items())
}

/// The first few names.
fn first(names: &[Name]) -> &[Name]
    ensures { result.now ≡ take 8 names.now }
{
    if names.len() < FEW {
        return names;
    }
    let few = &names[..FEW];
    few
}
