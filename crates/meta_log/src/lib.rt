//! Records in the blocks of a metadata zone: how they are read one by one, and how one is added.
#![tactic(auto)]

mod append;
mod error;
mod item;
mod read;
mod reader;
mod record;
mod verdict;

pub use append::add;
pub use error::LogError;
pub use item::LogItem;
pub use log_model::{Damage, DamageWhy};
pub use reader::LogReader;
pub use record::{blocks_of, spell};
