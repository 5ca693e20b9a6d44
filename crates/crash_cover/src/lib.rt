//! Laws of what every crash of an image mounts to, while its log and its data zones change step by step. Each function
//! does nothing, and its contract is a law.
#![tactic(auto)]

pub mod data;
pub mod found;
pub mod pinned;
pub mod recovery;
pub mod rest;
pub mod steps;
