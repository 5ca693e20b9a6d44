//! Names of files.

ghost use Rattle.std.specs.Prelude.{◌≡◌, ◌↔◌, IfOk, IsErrOf, IsTrue, not};
ghost use Rattle.std.specs.List.{list_all};
ghost use Rattle.std.specs.Str.{is_utf8};
ghost use Rattle.record_model.specs.Name.{is_printable, is_part, is_text, are_parts, is_name};
ghost use Rattle.record_model.specs.declared.name.NameError.TheVariants.{NoMemory};

use std::alloc::{AllocError, Global};
use std::marker::Model;

/// The greatest number of bytes in a name.
pub const MAX_NAME_BYTES: usize = 255;

/// Why text isn't taken as a name.
#[derive(Clone, Copy, Debug, PartialEq, Eq)]
pub enum NameError {
    /// The text breaks the rule of names.
    BadName,
    /// Memory is wanting.
    NoMemory,
}

impl From<AllocError> for NameError {
    ghost from_gives = { λ _ e. e ≡ NoMemory };

    fn from(_e: AllocError) -> NameError {
        NameError::NoMemory
    }
}

/// A name of a file: 1 to 255 bytes of printable UTF-8, with no leading, trailing or doubled `/`,
/// and no part between slashes that is `.` or `..`. Contracts see its bytes.
#[derive(Debug, Drop)]
pub struct Name {
    bytes: Vec<u8>,
}

impl Model for Name {
    ghost use Rattle.std.specs.Prelude.{List, ℕ, IsTrue};

    ghost Value = { List ℕ };

    ghost use Rattle.record_model.specs.Name.{is_name};

    ghost view = { λ n. n.bytes.items };

    ghost invariant = { λ n. IsTrue (is_name n.bytes.items) };
}

impl Name {
    /// The name that this text is. `BadName` comes exactly where the text breaks the rule of names,
    /// and `NoMemory` where memory is wanting.
    pub fn read(alloc: Global, text: &str) -> Result<Name, NameError>
        ensures read { IfOk result (λ name. name ≡ text.now) }
        ensures bad { IsErrOf result NameError.BadName ↔ IsTrue (not (is_name text.now)) }
    {
        Name::from_bytes(alloc, text.as_bytes())
    }

    /// The name that these bytes are. `BadName` comes exactly where they break the rule of names,
    /// and `NoMemory` where memory is wanting.
    pub fn from_bytes(alloc: Global, bytes: &[u8]) -> Result<Name, NameError>
        ensures read { IfOk result (λ name. name ≡ bytes.now) }
        ensures bad { IsErrOf result NameError.BadName ↔ IsTrue (not (is_name bytes.now)) }
    {
        if !is_name(bytes) {
            return Err(NameError::BadName);
        }
        Ok(Name {
            bytes: Vec::from_slice(alloc, bytes)?,
        })
    }

    /// The bytes of the name.
    pub fn items(&self) -> &[u8]
        ensures bytes { result.now ≡ self.now }
        ensures rule { IsTrue (is_name result.now) }
    {
        &self.bytes
    }
}

/// Whether the bytes are a name.
#[tactic(auto, unfolding(crate::specs::Name::is_name))]
fn is_name(bytes: &[u8]) -> bool
    ensures { result ≡ is_name bytes.now }
{
    !bytes.is_empty() && bytes.len() <= MAX_NAME_BYTES && is_text(bytes) && are_parts(bytes)
}

/// Whether the bytes are UTF-8 without control characters.
fn is_text(bytes: &[u8]) -> bool
    ensures { result ≡ is_text bytes.now }
{
    is_utf8(bytes) && are_printable(bytes)
}

/// Whether the bytes are UTF-8.
fn is_utf8(bytes: &[u8]) -> bool
    ensures { result ≡ is_utf8 bytes.now }
{
    str::from_utf8(bytes).is_ok()
}

/// Whether no byte is below a space or a delete.
fn are_printable(bytes: &[u8]) -> bool
    ensures { result ≡ list_all is_printable bytes.now }
{
    bytes.iter().all(|b| is_printable(*b))
}

/// Whether a byte is neither below a space nor a delete.
fn is_printable(byte: u8) -> bool
    ensures { result ≡ is_printable byte }
{
    32 <= byte && byte != 127
}

/// Whether each part between slashes may stand in a name.
fn are_parts(bytes: &[u8]) -> bool
    ensures { result ≡ are_parts bytes.now }
{
    bytes.split(|b| *b == b'/').all(|part| is_part(part))
}

/// Whether a part isn't empty, `.` or `..`.
fn is_part(part: &[u8]) -> bool
    ensures { result ≡ is_part part.now }
{
    !matches!(part, [] | [b'.'] | [b'.', b'.'])
}
