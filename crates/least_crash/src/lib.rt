//! Laws of the crash that loses the most, and of the frames of sparse files that each crash leaves. Each function does
//! nothing, and its contract is a law.
#![tactic(auto)]

pub mod frames;
pub mod growing;
pub mod least;
pub mod recovery;
