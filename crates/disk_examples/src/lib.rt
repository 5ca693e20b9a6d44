//! Examples of files on a disk. It has tests alone.
#![tactic(auto)]

#[cfg(test)]
mod files;
