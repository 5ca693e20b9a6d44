//! The words of the utility, read by `clap`. Our own test decides which words are a command, and `clap` then reads those.
#![tactic(auto)]

mod found;
mod laws;
mod numbers;
mod options;
mod parser;
mod reading;
mod values;

pub use laws::reads_commands;
pub use reading::read;
