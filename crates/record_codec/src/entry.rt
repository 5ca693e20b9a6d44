//! Reading an entry, and the entries of a snapshot.

ghost use Rattle.std.specs.Prelude.{◌≡◌, ◌<◌, [], length, IfOk};
ghost use Rattle.record_model.specs.FieldDecoding.{at_place};
ghost use Rattle.record_model.specs.Decoding.{entry_at, inside_at, sliced_entry_at, entries_at};
ghost use Rattle.record_codec.specs.Draft.{empty_draft};
ghost use Rattle.record_codec.specs.DraftedField.{drafted_step, drafted_fields_at, drafted_entry_at};
ghost use Rattle.record_codec.specs.Outcome.{Fails, Returns, Gives, GivesBy};
ghost use Rattle.record_codec.specs.Place.{place};

use crate::cursor::Cursor;
use crate::draft::Draft;
use crate::error::{DecodeError, FieldError};
use crate::field::field_at;
use crate::value::slice_at;
use record_model::{DecodeFault, FileEntry, Why};
use std::alloc::Global;

/// What was read, or its fault at this place.
pub(crate) fn placed<T>(at: u32, read: Result<T, Why>) -> Result<T, DecodeFault>
    ensures { result ≡ at_place at read }
{
    match read {
        Ok(value) => Ok(value),
        Err(why) => Err(DecodeFault { at, why }),
    }
}

/// The inside of the slice here, and the place behind it.
pub(crate) fn inside_at(c: Cursor<'_>) -> Result<(Cursor<'_>, Cursor<'_>), DecodeFault>
    ensures value { Returns (λ x. (place x.0, place x.1)) result (inside_at (place c.entry)) }
    ensures forward { IfOk result (λ x. length x.1.rest.now < length c.entry.rest.now) }
{
    let (content, after) = placed(c.at, slice_at(c))?;
    let inside = Cursor {
        at: after.at - content.len() as u32,
        rest: content,
    };
    Ok((inside, after))
}

/// The entry that is all of these bytes.
pub(crate) fn entry_at(alloc: Global, c: Cursor<'_>) -> Result<FileEntry, DecodeError>
    ensures { Gives result (entry_at (place c.entry)) }
{
    drafted_entry_at(alloc, c)
}

/// The same, by the definition that keeps the fields by kind.
#[tactic(auto, unfolding(crate::specs::DraftedField::drafted_entry_at))]
fn drafted_entry_at(alloc: Global, c: Cursor<'_>) -> Result<FileEntry, DecodeError>
    ensures { Gives result (drafted_entry_at (place c.entry)) }
{
    let draft = fields_at(alloc, c)?;
    let entry = draft.finish(c.at)?;
    Ok(entry)
}

/// The fields to the end of the bytes.
fn fields_at<'a>(alloc: Global, start: Cursor<'a>) -> Result<Draft<'a>, DecodeError>
    ensures { Gives result
        (drafted_fields_at (length start.entry.rest.now) empty_draft (place start.entry)) }
{
    let mut draft = Draft::new(alloc);
    let mut c = start;
    while !c.rest.is_empty() {
        c = add_field(alloc, &mut draft, c)?;
    }
    Ok(draft)
}

/// Reads one field more, and tells the place behind it.
#[tactic(auto, unfolding(crate::specs::DraftedField::drafted_step))]
fn add_field<'a>(
    alloc: Global,
    draft: &mut Draft<'a>,
    c: Cursor<'a>,
) -> Result<Cursor<'a>, DecodeError>
    ensures value { GivesBy (λ x. (draft.new, place x)) result (drafted_step draft.old (place c.entry)) }
    ensures forward { IfOk result (λ x. length x.rest.now < length c.entry.rest.now) }
{
    match field_at(alloc, draft, c) {
        Ok((field, text, after)) => {
            draft.add(field, text)?;
            Ok(after)
        }
        Err(FieldError::Bad(why)) => Err(DecodeError::Bad(DecodeFault { at: c.at, why })),
        Err(FieldError::NoMemory) => Err(DecodeError::NoMemory),
    }
}

/// The slices to the end of the bytes, each an entry.
pub(crate) fn entries_at(alloc: Global, start: Cursor<'_>) -> Result<Vec<FileEntry>, DecodeError>
    ensures { GivesBy (λ v. v.items) result
        (entries_at (length start.entry.rest.now) [] (place start.entry)) }
{
    let mut files = Vec::new(alloc);
    let mut c = start;
    while !c.rest.is_empty() {
        let (file, after) = sliced_entry_at(alloc, c)?;
        files.push(file)?;
        c = after;
    }
    Ok(files)
}

/// The slice here, an entry, and the place behind it.
fn sliced_entry_at(alloc: Global, c: Cursor<'_>) -> Result<(FileEntry, Cursor<'_>), DecodeError>
    ensures value { GivesBy (λ x. (x.0, place x.1)) result (sliced_entry_at (place c.entry)) }
    ensures forward { IfOk result (λ x. length x.1.rest.now < length c.entry.rest.now) }
{
    let (inside, after) = inside_at(c)?;
    let entry = entry_at(alloc, inside)?;
    Ok((entry, after))
}
