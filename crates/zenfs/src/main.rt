// The utility `zenfs`: this program reads its words, and `zenfs_cmd` does what they ask.
#![tactic(auto)]

mod access;
mod images;
mod random;
mod streams;
#[cfg(test)]
mod tests;
mod words;

use fs_report::{OutSink, Status};
use images::zones_of;
use random::random_bits;
use std::process::ExitCode;
use streams::hold_places;
use words::words_of;

fn main(rt: HostRuntime) -> ExitCode {
    ExitCode::from(answer(rt).code())
}

// Does what the words ask, over the image file that they name.
fn answer(rt: HostRuntime) -> Status {
    let mut out = OutSink::new(rt.stdout());
    let mut err = OutSink::new(rt.stderr());
    // It comes before any other file is opened, and is held to the end.
    let _places = match hold_places(rt) {
        Ok(places) => places,
        Err(cause) => return zenfs_cmd::refuse(&mut err, cause),
    };
    let words = match words_of(rt) {
        Ok(words) => words,
        Err(cause) => return zenfs_cmd::refuse(&mut err, cause),
    };
    let zones = match zones_of(rt, words.as_slice()) {
        Ok(zones) => zones,
        Err(cause) => return zenfs_cmd::refuse(&mut err, cause),
    };
    let random = match random_bits(rt) {
        Ok(random) => random,
        Err(cause) => return zenfs_cmd::refuse(&mut err, cause),
    };
    let (status, _) = zenfs_cmd::run(
        rt.alloc(),
        words.as_slice(),
        zones,
        &mut out,
        &mut err,
        random,
    );
    status
}
