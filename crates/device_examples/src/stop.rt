// Why a step stops before its call, or what the call answers.
use crate::texts::said;
use std::alloc::{AllocError, Global};
use zoned_device::{DevFault, MakeError, ProbeError};

/// Why a step shows no more.
#[derive(Clone, Copy, Debug)]
pub enum Stop {
    Fault,
    NoImage,
    NoMemory,
    NoPlace,
}

impl From<DevFault> for Stop {
    fn from(_: DevFault) -> Self {
        Stop::Fault
    }
}

impl From<ProbeError> for Stop {
    fn from(error: ProbeError) -> Self {
        match error {
            ProbeError::Failed => Stop::Fault,
            ProbeError::NotAnImage => Stop::NoImage,
            ProbeError::NoMemory => Stop::NoMemory,
        }
    }
}

impl From<MakeError> for Stop {
    fn from(error: MakeError) -> Self {
        match error {
            MakeError::Failed => Stop::Fault,
            MakeError::NoMemory => Stop::NoMemory,
        }
    }
}

/// Shows a stop.
pub fn show_stop(alloc: Global, stop: Stop) -> Result<String, AllocError> {
    match stop {
        Stop::Fault => said(alloc, "fault"),
        Stop::NoImage => said(alloc, "no image"),
        Stop::NoMemory => said(alloc, "no memory"),
        Stop::NoPlace => said(alloc, "no place"),
    }
}

/// Shows that a call was done, or why not.
pub fn show_done(alloc: Global, answer: Result<(), Stop>) -> Result<String, AllocError> {
    match answer {
        Ok(()) => said(alloc, "ok"),
        Err(stop) => show_stop(alloc, stop),
    }
}
