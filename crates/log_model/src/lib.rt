//! Metadata logs, the selection of a log, and what a log and an image stand for.
#![tactic(auto)]

pub mod laws;
mod selection;

pub use selection::{Chosen, Damage, DamageWhy, Refusal};
