//! Rows that take their place among the others, and the names that they have from these.

ghost use Rattle.std.specs.Prelude.{◌≡◌, ◌<◌, ◌≤◌, [], not, Some, None, OnOk, IfOk, IfErr, OnErr, IsTrue, length, slice_index_or, vec_capacity};
ghost use Rattle.record_model.specs.Grammar.{IsWritable};
ghost use Rattle.log_model.specs.FileTable.{
  grown,
  has_right_size,
  set_entry,
  take_names,
  unless_broken,
  with_entry,
};
ghost use Rattle.log_model.specs.TableLaws.{IdsRise, IsTable};
ghost use Rattle.fs_model.specs.FsState.{TableRow, row_of};
ghost use Rattle.extent_map.specs.Applying.{ArePlain, IsFreeAt, IsPlain, IsRefused};
ghost use Rattle.extent_map.specs.Holding.{AreKnown};
ghost use Rattle.extent_map.specs.Records.{recorded_of};

use crate::copies::{copy_entry, copy_names};
use crate::error::ApplyError;
use crate::holders::{Holders, are_free, give};
use crate::place::put_row;
use crate::row::Row;
use crate::sizes::{grows_right, has_right_size};
use crate::taken::take_names;
use record_model::{FileEntry, Name};
use std::alloc::Global;

/// Puts the entry of a file that isn't there in its place.
pub(crate) fn put_new(
    alloc: Global,
    rows: &mut Vec<Row>,
    holders: Option<Holders>,
    entry: &FileEntry,
) -> Result<Option<Holders>, ApplyError>
    requires plain { ArePlain rows.old.items }
    requires table { IsTable (recorded_of rows.old.items) }
    requires known { AreKnown holders (recorded_of rows.old.items) }
    requires writable { IsWritable entry.now }
    requires absent { row_of entry.now.id rows.old.items ≡ None }
    ensures made { OnOk result (unless_broken (not (has_right_size entry.now)) 5 (set_entry entry.now (recorded_of rows.old.items)) ≡ Ok (recorded_of rows.new.items)) }
    ensures plain { OnOk result (ArePlain rows.new.items) }
    ensures known { IfOk result (λ new. AreKnown new (recorded_of rows.new.items)) }
    ensures refused { IfErr result (IsRefused (unless_broken (not (has_right_size entry.now)) 5 (set_entry entry.now (recorded_of rows.old.items)))) }
    ensures items { OnErr result (rows.new.items ≡ rows.old.items) }
    ensures capacity { OnErr result (vec_capacity rows.new ≡ vec_capacity rows.old) }
{
    if !has_right_size(entry) {
        return Err(ApplyError::Rule(5));
    }
    let row = Row::new(alloc, copy_entry(alloc, entry)?);
    let free = are_free(&holders, entry.id, entry.names.items());
    let known = give(holders, alloc, entry.id, entry.names.items())?;
    rows.reserve(1)?;
    set_row(rows, row, free);
    Ok(known)
}

/// Puts an entry in the place of the one that stands there.
pub(crate) fn put_whole(
    alloc: Global,
    rows: &mut Vec<Row>,
    holders: Option<Holders>,
    at: usize,
    entry: &FileEntry,
) -> Result<Option<Holders>, ApplyError>
    requires plain { ArePlain rows.old.items }
    requires table { IsTable (recorded_of rows.old.items) }
    requires known { AreKnown holders (recorded_of rows.old.items) }
    requires writable { IsWritable entry.now }
    requires within { at < length rows.old.items }
    requires id { (d : TableRow) → (slice_index_or rows.old.items at d).entry.id ≡ entry.now.id }
    ensures made { OnOk result (unless_broken (not (has_right_size entry.now)) 5 (set_entry entry.now (recorded_of rows.old.items)) ≡ Ok (recorded_of rows.new.items)) }
    ensures plain { OnOk result (ArePlain rows.new.items) }
    ensures known { IfOk result (λ new. AreKnown new (recorded_of rows.new.items)) }
    ensures refused { IfErr result (IsRefused (unless_broken (not (has_right_size entry.now)) 5 (set_entry entry.now (recorded_of rows.old.items)))) }
    ensures items { OnErr result (rows.new.items ≡ rows.old.items) }
    ensures capacity { OnErr result (vec_capacity rows.new ≡ vec_capacity rows.old) }
{
    if !has_right_size(entry) {
        return Err(ApplyError::Rule(5));
    }
    let row = Row::new(alloc, copy_entry(alloc, entry)?);
    let free = are_free(&holders, entry.id, entry.names.items());
    let known = give(holders, alloc, entry.id, entry.names.items())?;
    rows[at] = row;
    settle_row(rows, at, free);
    Ok(known)
}

/// Makes the file that stands there grow by what an update adds.
pub(crate) fn grow_row(
    alloc: Global,
    rows: &mut Vec<Row>,
    holders: Option<Holders>,
    at: usize,
    entry: &FileEntry,
) -> Result<Option<Holders>, ApplyError>
    requires plain { ArePlain rows.old.items }
    requires table { IsTable (recorded_of rows.old.items) }
    requires known { AreKnown holders (recorded_of rows.old.items) }
    requires writable { IsWritable entry.now }
    requires within { at < length rows.old.items }
    requires id { (d : TableRow) → (slice_index_or rows.old.items at d).entry.id ≡ entry.now.id }
    ensures made { OnOk result ((d : TableRow) →
        unless_broken (not (has_right_size (grown (Some (slice_index_or rows.old.items at d).entry) entry.now))) 5
        (set_entry (grown (Some (slice_index_or rows.old.items at d).entry) entry.now) (recorded_of rows.old.items)) ≡ Ok (recorded_of rows.new.items)) }
    ensures plain { OnOk result (ArePlain rows.new.items) }
    ensures known { IfOk result (λ new. AreKnown new (recorded_of rows.new.items)) }
    ensures refused { IfErr result (λ e. (d : TableRow) → IsRefused
        (unless_broken (not (has_right_size (grown (Some (slice_index_or rows.old.items at d).entry) entry.now))) 5
        (set_entry (grown (Some (slice_index_or rows.old.items at d).entry) entry.now) (recorded_of rows.old.items))) e) }
    ensures items { OnErr result (rows.new.items ≡ rows.old.items) }
    ensures capacity { OnErr result (vec_capacity rows.new ≡ vec_capacity rows.old) }
{
    if !grows_right(&rows[at], entry) {
        return Err(ApplyError::Rule(5));
    }
    let free = are_free(&holders, entry.id, entry.names.items());
    let known = give(holders, alloc, entry.id, entry.names.items())?;
    let names = copy_names(alloc, &entry.names)?;
    let row = &mut rows[at];
    row.grow(entry, names)?;
    settle_row(rows, at, free);
    Ok(known)
}

/// Takes the names of the row that stands there from the others, unless none of these has one.
fn settle_row(rows: &mut Vec<Row>, at: usize, free: bool)
    requires plain { ArePlain rows.old.items }
    requires ids { IdsRise 0 (recorded_of rows.old.items) }
    requires within { at < length rows.old.items }
    requires free { IsTrue free → IsFreeAt at rows.old.items }
    ensures made { (d : TableRow) → recorded_of rows.new.items ≡ set_entry (slice_index_or rows.old.items at d).entry (recorded_of rows.old.items) }
    ensures plain { ArePlain rows.new.items }
{
    if !free {
        let row = rows.remove(at);
        set_row(rows, row, false);
    }
}

/// Puts a row in its place, for which there is room, and takes its names from the others, unless none of these has one.
fn set_row(rows: &mut Vec<Row>, row: Row, free: bool)
    requires room { length rows.old.items < vec_capacity rows.old }
    requires plain { ArePlain rows.old.items }
    requires ids { IdsRise 0 (recorded_of rows.old.items) }
    requires row { IsPlain row }
    requires free { IsTrue free → take_names row.entry.names (recorded_of rows.old.items) ≡ recorded_of rows.old.items }
    ensures made { recorded_of rows.new.items ≡ with_entry row.entry (take_names row.entry.names (recorded_of rows.old.items)) }
    ensures plain { ArePlain rows.new.items }
{
    make_way(rows, row.entry().names.items(), free);
    let _ = put_row(rows, row);
}

/// Takes these names from all files, unless none has one of them.
fn make_way(rows: &mut Vec<Row>, names: &[Name], free: bool)
    requires { IsTrue free → take_names names.now (recorded_of rows.old.items) ≡ recorded_of rows.old.items }
    ensures recorded { recorded_of rows.new.items ≡ take_names names.now (recorded_of rows.old.items) }
    ensures plain { ArePlain rows.old.items → ArePlain rows.new.items }
    ensures fewer { length rows.new.items ≤ length rows.old.items }
    ensures capacity { vec_capacity rows.new ≡ vec_capacity rows.old }
{
    if !free {
        take_names(rows, names);
    }
}
