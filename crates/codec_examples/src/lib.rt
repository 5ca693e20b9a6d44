//! Examples of codecs: vectors from outside, and what is written and read back. It has tests alone.
#![tactic(auto)]

#[cfg(test)]
mod checksums;
#[cfg(test)]
mod names;
#[cfg(test)]
mod records;
#[cfg(test)]
mod superblocks;
