//! Metadata records as bytes: the encoder, and the decoder to a record or to the first fault.
#![tactic(auto)]

mod cursor;
mod decoder;
mod draft;
mod encoder;
mod entry;
mod error;
mod field;
mod length;
mod read_names;
mod value;
mod varint;

pub use decoder::{TOO_LONG, decode};
pub use encoder::encode;
pub use error::DecodeError;
pub use length::encoded_len;
pub use record_model::{
    DecodeFault, Extent, Extents, FileEntry, Files, MAX_ID, NO_ACTIVE, Name, NameError, Names,
    Payload, Record, Why,
};
