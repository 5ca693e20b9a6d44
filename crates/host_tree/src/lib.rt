//! Files of a host: where backups are written to and read from.
#![tactic(auto)]

mod entries;
mod host_file;
mod host_path;
mod host_tree;
mod listing;
mod mem_tree;
mod real_list;
mod real_open;
mod real_paths;
mod real_tree;

pub use host_file::HostFile;
pub use host_path::HostPath;
pub use host_tree::{HostError, HostTree, OpenMode};
pub use mem_tree::{MemTree, Opened};
pub use real_tree::RealTree;
