//! The fields of an entry that were read so far, kept by kind.

ghost use Rattle.std.specs.Prelude.{◌≡◌, OnOk};
ghost use Rattle.record_model.specs.Encoding.{kind_tag};
ghost use Rattle.record_codec.specs.Draft.{IsTextOf, empty_draft, with_field, has_drafted_tag, has_drafted_name, finished, missing, required};
ghost use Rattle.record_codec.specs.Outcome.{Returns};

use crate::read_names::ReadNames;
use record_model::{DecodeFault, Extent, Extents, Field, FieldKind, FileEntry, Why};
use std::alloc::{AllocError, Global};
use std::marker::Model;

/// The fields of an entry that were read so far.
#[derive(Drop)]
pub(crate) struct Draft<'a> {
    id: Option<u64>,
    size: Option<u64>,
    hint: Option<u32>,
    time: Option<u64>,
    active: Option<u64>,
    sparse: bool,
    extents: Vec<Extent>,
    names: ReadNames<'a>,
}

impl<'a> Model for Draft<'a> {
    ghost use Rattle.record_codec.specs.Draft.{EntryDraft};

    ghost Value = { EntryDraft };

    ghost view = { λ d. record {
      id = d.id;
      size = d.size;
      hint = d.hint;
      time = d.time;
      active = d.active;
      sparse = d.sparse;
      extents = d.extents.items;
      names = d.names;
    } };
}

impl<'a> Draft<'a> {
    /// No fields.
    pub(crate) fn new(alloc: Global) -> Draft<'a>
        ensures { result ≡ empty_draft }
    {
        Draft {
            id: None,
            size: None,
            hint: None,
            time: None,
            active: None,
            sparse: false,
            extents: Vec::new(alloc),
            names: ReadNames::new(alloc),
        }
    }

    /// Whether a field that may stand once is there.
    pub(crate) fn has(&self, kind: FieldKind) -> bool
        ensures { result ≡ has_drafted_tag (kind_tag kind) self.now }
    {
        match kind {
            FieldKind::Id => self.id.is_some(),
            FieldKind::Size => self.size.is_some(),
            FieldKind::Hint => self.hint.is_some(),
            FieldKind::Time => self.time.is_some(),
            FieldKind::Active => self.active.is_some(),
            FieldKind::Sparse => self.sparse,
            FieldKind::Piece => false,
            FieldKind::Linked => false,
        }
    }

    /// Whether this name is there.
    pub(crate) fn has_name(&self, name: &[u8]) -> bool
        ensures { result ≡ has_drafted_name name.now self.now }
    {
        self.names.has(name)
    }

    /// Takes a field, of which a name has this text. Where memory is wanting, the field is lost.
    pub(crate) fn add(&mut self, field: Field, text: &'a [u8]) -> Result<(), AllocError>
        requires { IsTextOf field text.now }
        ensures { OnOk result (self.new ≡ with_field field self.old) }
    {
        match field {
            Field::Id(id) => self.id = Some(id),
            Field::Size(size) => self.size = Some(size),
            Field::Hint(hint) => self.hint = Some(hint),
            Field::Piece(extent) => self.extents.push(extent)?,
            Field::Time(time) => self.time = Some(time),
            Field::Active(active) => self.active = Some(active),
            Field::Sparse => self.sparse = true,
            Field::Linked(name) => self.names.add(name, text)?,
        }
        Ok(())
    }

    /// The entry that has these fields, or the least tag that is wanting, at the entry's place.
    #[tactic(auto, unfolding(crate::specs::Draft::finished))]
    pub(crate) fn finish(self, at: u32) -> Result<FileEntry, DecodeFault>
        ensures { Returns (λ e. e) result (finished at self.entry) }
    {
        let id = required(at, 1, self.id)?;
        let size = required(at, 3, self.size)?;
        let hint = required(at, 4, self.hint)?;
        let time = required(at, 6, self.time)?;
        let active = required(at, 7, self.active)?;
        if self.names.is_empty() {
            return Err(missing(at, 9));
        }
        Ok(FileEntry {
            id,
            size,
            hint,
            time,
            active,
            sparse: self.sparse,
            extents: Extents::from_vec(self.extents),
            names: self.names.into_names(),
        })
    }
}

/// The fault of an entry in which the field with this tag is wanting.
fn missing(at: u32, tag: u32) -> DecodeFault
    ensures { result ≡ missing at tag }
{
    DecodeFault {
        at,
        why: Why::Missing(tag),
    }
}

/// The number of a field that each entry has.
fn required<N: Copy>(at: u32, tag: u32, number: Option<N>) -> Result<N, DecodeFault>
    ensures { result ≡ required at tag number }
{
    number.ok_or(missing(at, tag))
}
