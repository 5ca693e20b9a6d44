//! The utility `zenfs`: its words, and what each command does.
#![tactic(auto)]

mod causes;
mod change;
mod command;
mod dump;
mod dumped;
mod info;
mod lines;
mod list;
mod making;
mod mounted;
mod names;
mod perform;
mod refusal;
mod space;
mod words;
mod writing;

pub use command::run;
pub use command_words::image_path;
pub use fs_report::{Cause, MemSink, OutSink, Sink, SinkFault, Status};
pub use refusal::refuse;
