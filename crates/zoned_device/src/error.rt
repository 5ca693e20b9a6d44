// What a device answers where it can't do what it is asked.
use std::alloc::AllocError;
use thiserror::Error;

/// The device failed. It comes only where the device's count of faults rose.
#[derive(Clone, Copy, Debug, PartialEq, Eq, Error)]
#[error("the device failed")]
pub struct DevFault;

/// Why a device's image can't be looked at.
#[derive(Clone, Copy, Debug, PartialEq, Eq, Error)]
pub enum ProbeError {
    #[error("the device failed")]
    Failed,
    #[error("no zoned image is there")]
    NotAnImage,
    #[error("out of memory")]
    NoMemory,
}

/// Why an image can't be made.
#[derive(Clone, Copy, Debug, PartialEq, Eq, Error)]
pub enum MakeError {
    #[error("the device failed")]
    Failed,
    #[error("out of memory")]
    NoMemory,
}

impl From<AllocError> for MakeError {
    ghost use Rattle.zoned_device.specs.declared.error.MakeError.TheVariants.{NoMemory};
    ghost use Rattle.std.specs.Prelude.{◌≡◌};

    ghost from_gives = { λ _ e. e ≡ NoMemory };

    fn from(_: AllocError) -> Self {
        MakeError::NoMemory
    }
}
