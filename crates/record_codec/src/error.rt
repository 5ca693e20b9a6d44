//! Why a payload wasn't decoded.

ghost use Rattle.std.specs.Prelude.{◌≡◌};
ghost use Rattle.record_codec.specs.declared.error.DecodeError.TheVariants as decode_errors;
ghost use Rattle.record_codec.specs.declared.error.FieldError.TheVariants as field_errors;

use record_model::{DecodeFault, Why};
use std::alloc::{AllocError, AllocFailed};

/// Why a payload wasn't decoded.
#[derive(Clone, Copy, Debug, PartialEq, Eq)]
pub enum DecodeError {
    /// The payload isn't a record: its first fault from the left.
    Bad(DecodeFault),
    /// Memory is wanting.
    NoMemory,
}

impl From<DecodeFault> for DecodeError {
    ghost from_gives = { λ f e. e ≡ decode_errors.Bad f };

    fn from(fault: DecodeFault) -> DecodeError {
        DecodeError::Bad(fault)
    }
}

impl From<AllocError> for DecodeError {
    ghost from_gives = { λ _ e. e ≡ decode_errors.NoMemory };

    fn from(_e: AllocError) -> DecodeError {
        DecodeError::NoMemory
    }
}

impl<T: Drop> From<AllocFailed<T>> for DecodeError {
    ghost from_gives = { λ _ e. e ≡ decode_errors.NoMemory };

    fn from(_e: AllocFailed<T>) -> DecodeError {
        DecodeError::NoMemory
    }
}

/// Why a field wasn't read: a fault that has no place yet, or want of memory.
#[derive(Clone, Copy, Debug, PartialEq, Eq)]
pub(crate) enum FieldError {
    Bad(Why),
    NoMemory,
}

impl From<Why> for FieldError {
    ghost from_gives = { λ w e. e ≡ field_errors.Bad w };

    fn from(why: Why) -> FieldError {
        FieldError::Bad(why)
    }
}
