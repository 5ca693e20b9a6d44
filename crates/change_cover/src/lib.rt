//! Laws of what every crash leaves while a mounted file system changes names and is mounted for writing. Each function
//! does nothing, and its contract is a law.
#![tactic(auto)]

pub mod covered;
pub mod following;
pub mod left;
pub mod mounting;
pub mod points;
pub mod resets;
pub mod shown;
pub mod stored;
pub mod trees;
