//! Records that are added to the log of a device at rest, after a roll where it must.
#![tactic(auto)]

mod adding;
mod calls;
mod resetting;
pub mod rest;
mod rolling;
mod room;
mod settle;
pub mod settling;
mod spelled;

pub use adding::add_record;
pub use log_roll::{RollBuffer, RollError};
pub use resetting::reset_data_zone;
pub use rolling::{roll_and_add, roll_log};
pub use room::must_roll;
pub use settle::settle_log;
pub use spelled::SpelledRecord;
