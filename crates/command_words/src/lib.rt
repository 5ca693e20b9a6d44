//! The words of the utility: which of them are a command, and its values.
#![tactic(auto)]

mod command;
mod numbers;
mod reading;
mod settings;
mod shapes;
mod splitting;
mod values;

pub use command::Command;
pub use reading::{BadWords, image_path, read};
