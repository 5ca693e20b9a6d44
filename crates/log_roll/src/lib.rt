//! Logs over the three metadata zones of a device: which one counts, how one is begun anew or rolled, and how a
//! device is formatted.
#![tactic(auto)]

mod beginnings;
mod buffer;
mod choosing;
mod error;
mod first;
mod formatting;
mod log_end;
mod next;
mod order;
mod records;
mod resets;
mod roll_error;
mod roll_steps;
mod rolling;
mod select;
mod steps;
mod summary;

pub use beginnings::begins;
pub use buffer::RollBuffer;
pub use choosing::choose;
pub use error::ChooseError;
pub use formatting::format;
pub use log_model::{Chosen, Damage, DamageWhy};
pub use meta_log::LogError;
pub use roll_error::RollError;
pub use rolling::{roll, roll_refusal, roll_with};
