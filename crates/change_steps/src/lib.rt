//! Laws of the states that changes of names and mounts for writing pass, one for each way out of such a call. Each
//! function does nothing, and its contract is a law.
#![tactic(auto)]

pub mod behind;
pub mod checks;
pub mod endings;
pub mod mounting;
pub mod names;
pub mod recording;
pub mod resetting;
