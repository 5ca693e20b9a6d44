//! Examples of command lines and printed texts. It has tests alone.
#![tactic(auto)]

#[cfg(test)]
mod clap_lines;
#[cfg(test)]
mod refusals;
#[cfg(test)]
mod texts;
#[cfg(test)]
mod words;
