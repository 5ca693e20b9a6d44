// Why a log can't be read or written.
use std::alloc::AllocError;
use std::fmt;
use thiserror::Error;

/// Why a log can't be read or written.
#[derive(Clone, Copy, Debug, PartialEq, Eq, Error)]
pub enum LogError {
    /// The device failed; it comes only where the device's count of faults rose.
    #[error("the device failed")]
    DevFault,
    /// Memory is wanting.
    #[error("out of memory")]
    NoMemory,
}
