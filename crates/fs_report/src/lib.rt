//! What the programs print, and where they print it.
#![tactic(auto)]

mod cause;
mod dump;
mod dump_values;
mod listing;
mod making;
mod mem_sink;
mod out_sink;
mod refusal_line;
mod sink;
mod space_lines;
mod status;
mod superblock_lines;

pub use cause::Cause;
pub use dump::Dump;
pub use listing::{Line, list_text, push_lines, text_of_lines};
pub use making::{made_fs_text, made_image_text};
pub use mem_sink::MemSink;
pub use out_sink::OutSink;
pub use refusal_line::say_refusal;
pub use sink::{Sink, SinkFault, write_all};
pub use space_lines::df_text;
pub use status::Status;
pub use superblock_lines::info_text;
