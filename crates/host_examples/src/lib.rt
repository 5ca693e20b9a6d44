//! Examples of files on a host. It has tests alone.
#![tactic(auto)]

#[cfg(test)]
mod real_files;
