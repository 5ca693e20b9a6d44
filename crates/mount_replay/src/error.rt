// Why the tables of a file system can't be read.
ghost use Rattle.std.specs.Prelude.{◌≡◌};
ghost use Rattle.mount_replay.specs.declared.error.ReplayError.TheVariants.{NoMemory};
ghost use Rattle.mount_replay.specs.declared.error.ReplayError.TheVariants as causes;

use log_model::Damage;
use std::alloc::AllocError;
use std::fmt;
use thiserror::Error;
use zoned_device::DevFault;

/// Why the tables of a file system can't be read.
#[derive(Clone, Copy, Debug, PartialEq, Eq, Error)]
pub enum ReplayError {
    /// The log is damaged, or its table breaks a rule.
    #[error("the log is damaged")]
    Damaged(Damage),
    /// The device failed; it comes only where the device's count of faults rose.
    #[error("the device failed")]
    DevFault,
    /// Memory is wanting.
    #[error("out of memory")]
    NoMemory,
}

impl From<AllocError> for ReplayError {
    ghost from_gives = { λ _ e. e ≡ NoMemory };

    fn from(_e: AllocError) -> ReplayError {
        ReplayError::NoMemory
    }
}

impl From<DevFault> for ReplayError {
    ghost from_gives = { λ _ e. e ≡ causes.DevFault };

    fn from(_e: DevFault) -> ReplayError {
        ReplayError::DevFault
    }
}
