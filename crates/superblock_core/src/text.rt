//! The texts of a superblock. Each lies in a field of its own, with zeros behind it.

ghost use Rattle.std.specs.Prelude.{◌≡◌, ◌↔◌, ◌≤◌, ◌==◌, IsTrue, IsSome, IfSome, length, position};
ghost use Rattle.std.specs.List.{list_all};
ghost use Rattle.record_model.specs.Name.{is_printable, is_text};
ghost use Rattle.superblock_core.specs.Text.{FitsField, padded, text_in, is_aux_path, is_version_text};

use std::marker::Model;

/// How many bytes the field of an auxiliary path has.
pub(crate) const PATH_FIELD: usize = 256;

/// How many bytes the field of a version's text has.
pub(crate) const VERSION_FIELD: usize = 64;

/// Text in a field of `N` bytes, of which the last is a zero. Contracts see the text's bytes.
#[derive(Clone, Copy, Debug, PartialEq, Eq)]
struct FieldText<const N: usize> {
    field: [u8; N],
    len: usize,
}

impl<const N: usize> Model for FieldText<N> {
    ghost use Rattle.std.specs.Prelude.{◌≡◌, List, ℕ, take, length};

    ghost Value = { List ℕ };

    ghost use Rattle.superblock_core.specs.Text.{FitsField, padded};

    ghost view = { λ t. take t.len t.field };

    ghost invariant = { λ t. (t.len ≡ length (take t.len t.field)) × (t.field ≡ padded N (take t.len t.field)) × FitsField N (take t.len t.field) };

    ghost inverse = { λ bytes. record { field = padded N bytes; len = length bytes } };
}

impl<const N: usize> FieldText<N> {
    fn new(text: &[u8]) -> FieldText<N>
        requires { FitsField N text.now }
        ensures { result ≡ text.now }
    {
        let mut field = [0; N];
        field[..text.len()].copy_from_slice(text);
        FieldText {
            field,
            len: text.len(),
        }
    }

    // The text of a field as it is read: None where it has no zero, or none behind text.
    fn in_field(field: &[u8]) -> Option<FieldText<N>>
        requires { length field.now ≡ N }
        ensures { result ≡ text_in field.now }
    {
        let end = first_zero(field)?;
        let text = &field[..end];
        if is_text(text) {
            Some(FieldText::new(text))
        } else {
            None
        }
    }

    fn bytes(&self) -> &[u8]
        ensures bytes { result.now ≡ self.now }
        ensures fits { FitsField N result.now }
    {
        &self.field[..self.len]
    }

    fn as_str(&self) -> &str
        ensures { result.now ≡ self.now }
    {
        match str::from_utf8(self.bytes()) {
            Ok(text) => text,
            Err(_) => unreachable!(),
        }
    }

    fn field(&self) -> &[u8; N]
        ensures field { result.now ≡ padded N self.now }
        ensures fits { FitsField N self.now }
    {
        &self.field
    }
}

fn first_zero(field: &[u8]) -> Option<usize>
    ensures { result ≡ position (λ b. b == 0) field.now }
{
    field.iter().position(|b| *b == 0)
}

fn is_text(bytes: &[u8]) -> bool
    ensures { result ≡ is_text bytes.now }
{
    match str::from_utf8(bytes) {
        Ok(text) => has_no_control(text),
        Err(_) => false,
    }
}

// Whether no byte is below a space or a delete.
fn has_no_control(text: &str) -> bool
    ensures { result ≡ list_all is_printable text.now }
{
    text.bytes().all(|b| 32 <= b && b != 127)
}

/// The auxiliary path: text of at most 255 bytes without control characters. One that is made by
/// `read` isn't empty; an empty field of an image is taken as it is. Contracts see its bytes.
#[derive(Clone, Copy, Debug, PartialEq, Eq)]
pub struct AuxPath {
    text: FieldText<PATH_FIELD>,
}

impl Model for AuxPath {
    ghost use Rattle.std.specs.Prelude.{List, ℕ};

    ghost Value = { List ℕ };

    ghost view = { λ p. p.text };

    ghost inverse = { λ bytes. record { text = bytes } };
}

impl AuxPath {
    /// The path that this text is: None exactly where it isn't 1 to 255 bytes, or has a byte below
    /// 32 or the byte 127.
    pub fn read(text: &str) -> Option<AuxPath>
        ensures valid { IsSome result ↔ IsTrue (is_aux_path text.now) }
        ensures path { IfSome result (λ path. path ≡ text.now) }
    {
        if text.is_empty() || text.len() >= PATH_FIELD || !has_no_control(text) {
            return None;
        }
        Some(AuxPath {
            text: FieldText::new(text.as_bytes()),
        })
    }

    /// The bytes of the path.
    pub fn bytes(&self) -> &[u8]
        ensures bytes { result.now ≡ self.now }
        ensures text { IsTrue (is_text result.now) }
        ensures room { length result.now ≤ 255 }
    {
        self.text.bytes()
    }

    /// The path as text, to be printed.
    pub fn as_str(&self) -> &str
        ensures { result.now ≡ self.now }
    {
        self.text.as_str()
    }

    // The path of a field as it is read.
    pub(crate) fn in_field(field: &[u8]) -> Option<AuxPath>
        requires { length field.now ≡ 256 }
        ensures { result ≡ text_in field.now }
    {
        let text = FieldText::in_field(field)?;
        Some(AuxPath { text })
    }

    // The field as it is written.
    pub(crate) fn field(&self) -> &[u8; PATH_FIELD]
        ensures field { result.now ≡ padded 256 self.now }
        ensures fits { FitsField 256 self.now }
    {
        self.text.field()
    }
}

/// The text of the version that wrote a superblock: at most 63 bytes without control characters.
/// Contracts see its bytes.
#[derive(Clone, Copy, Debug, PartialEq, Eq)]
pub struct VersionText {
    text: FieldText<VERSION_FIELD>,
}

impl Model for VersionText {
    ghost use Rattle.std.specs.Prelude.{List, ℕ};

    ghost Value = { List ℕ };

    ghost view = { λ v. v.text };

    ghost inverse = { λ bytes. record { text = bytes } };
}

impl VersionText {
    /// The version's text: None exactly where it has more than 63 bytes, or a byte below 32 or the
    /// byte 127.
    pub fn read(text: &str) -> Option<VersionText>
        ensures valid { IsSome result ↔ IsTrue (is_version_text text.now) }
        ensures version { IfSome result (λ version. version ≡ text.now) }
    {
        if text.len() >= VERSION_FIELD || !has_no_control(text) {
            return None;
        }
        Some(VersionText {
            text: FieldText::new(text.as_bytes()),
        })
    }

    /// The bytes of the text.
    pub fn bytes(&self) -> &[u8]
        ensures bytes { result.now ≡ self.now }
        ensures text { IsTrue (is_text result.now) }
        ensures room { length result.now ≤ 63 }
    {
        self.text.bytes()
    }

    /// The text, to be printed.
    pub fn as_str(&self) -> &str
        ensures { result.now ≡ self.now }
    {
        self.text.as_str()
    }

    // The text of a field as it is read.
    pub(crate) fn in_field(field: &[u8]) -> Option<VersionText>
        requires { length field.now ≡ 64 }
        ensures { result ≡ text_in field.now }
    {
        let text = FieldText::in_field(field)?;
        Some(VersionText { text })
    }

    // The field as it is written.
    pub(crate) fn field(&self) -> &[u8; VERSION_FIELD]
        ensures field { result.now ≡ padded 64 self.now }
        ensures fits { FitsField 64 self.now }
    {
        self.text.field()
    }
}
