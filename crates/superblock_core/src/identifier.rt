// The identifier of a file system, as the text of a superblock's field.
ghost use Rattle.std.specs.Prelude.{◌≡◌, ◌<◌, ◌^◌, length};
ghost use Rattle.superblock_core.specs.Text.{padded};
ghost use Rattle.superblock_core.specs.Superblock.{uuid_of, uuid_in, uuid_text};

use uuid::Uuid;

// How many bytes the field has: the text, and a zero.
const FIELD: usize = 37;

const TEXT: usize = 36;

/// The identifier of a field: None where its last byte isn't 0, or the others aren't a hyphenated
/// UUID, in whichever case.
pub(crate) fn in_field(field: &[u8]) -> Option<u128>
    requires { length field.now ≡ 37 }
    ensures { result ≡ uuid_in field.now }
{
    if field[TEXT] == 0 {
        from_text(&field[..TEXT])
    } else {
        None
    }
}

fn from_text(text: &[u8]) -> Option<u128>
    requires { length text.now ≡ 36 }
    ensures { result ≡ uuid_of text.now }
{
    match Uuid::try_parse_ascii(text) {
        Ok(id) => Some(id.as_u128()),
        Err(_) => None,
    }
}

/// The field of an identifier: its text in lower case, and a zero.
pub(crate) fn field(id: u128) -> [u8; FIELD]
    ensures text { result ≡ padded 37 (uuid_text id) }
    ensures fits { id < 2 ^ 128 }
{
    let mut buffer = [0; TEXT];
    let text = Uuid::from_u128(id).hyphenated().encode_lower(&mut buffer);
    let mut field = [0; FIELD];
    field[..TEXT].copy_from_slice(text.as_bytes());
    field
}
