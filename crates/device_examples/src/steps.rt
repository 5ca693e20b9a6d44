// One line of a script, and what comes of it.
use crate::devices::device_step;
use crate::files::file_step;
use crate::machine::{Device, Machine};
use crate::rounds;
use crate::script::Script;
use crate::shown::show_call;
use crate::texts::{quiet, said};
use std::alloc::{AllocError, Global};

/// Plays the next line, and answers what is to be said of it.
pub fn play(
    alloc: Global,
    script: &mut Script,
    machine: &mut Machine,
) -> Result<String, AllocError> {
    let line = script.next(alloc)?;
    let text = line.as_str().trim();
    if text.is_empty() || text.starts_with('#') {
        return quiet(alloc);
    }
    if let Some(name) = text.strip_prefix("example ") {
        return begin(alloc, script, machine, name);
    }
    if text == "next call" {
        return end_round(alloc, script, machine, text);
    }
    play_step(alloc, script, machine, text)
}

// Begins an example of this name. A round that the one before didn't end is wrong.
fn begin(
    alloc: Global,
    script: &mut Script,
    machine: &mut Machine,
    name: &str,
) -> Result<String, AllocError> {
    script.examples = script.examples.wrapping_add(1);
    if machine.round.is_some() {
        script.wrong = script.wrong.wrapping_add(1);
    }
    machine.begin();
    said(alloc, name)
}

// Ends a round, behind the last one with what they all showed.
fn end_round(
    alloc: Global,
    script: &mut Script,
    machine: &mut Machine,
    text: &str,
) -> Result<String, AllocError> {
    match rounds::end(alloc, script, machine)? {
        Some(seen) => compare(alloc, script, text, seen.as_str()),
        None => quiet(alloc),
    }
}

// Plays a step. What it shows goes to the round, or is what the script wants.
fn play_step(
    alloc: Global,
    script: &mut Script,
    machine: &mut Machine,
    text: &str,
) -> Result<String, AllocError> {
    let found = step(alloc, script, machine, text)?;
    if let Some(round) = &mut machine.round {
        rounds::note(round, found.as_str())?;
        return quiet(alloc);
    }
    compare(alloc, script, text, found.as_str())
}

// Compares what is shown with what the script wants.
fn compare(
    alloc: Global,
    script: &mut Script,
    text: &str,
    found: &str,
) -> Result<String, AllocError> {
    let line = script.at;
    let wanted = script.answer(alloc)?;
    if found == wanted.as_str() {
        return quiet(alloc);
    }
    script.wrong = script.wrong.wrapping_add(1);
    let wanted = wanted.as_str();
    format!(in alloc; "  line {line}: {text}\n  wanted:\n{wanted}  found:\n{found}")
}

// Does what a line says, and answers what it shows.
fn step(
    alloc: Global,
    script: &mut Script,
    machine: &mut Machine,
    text: &str,
) -> Result<String, AllocError> {
    let (word, rest) = text.split_once(' ').unwrap_or((text, ""));
    match word {
        "each" => rounds::begin(alloc, script, machine, rest),
        "memory" | "blank" | "sure" | "image" | "fuse" | "unfuse" | "fails" | "crash" | "put" => {
            device_step(alloc, machine, word, rest)
        }
        "length" | "bytes" | "set" | "reopen" => file_step(alloc, machine, word, rest),
        _ => call_step(alloc, machine, word, rest),
    }
}

// Does a call of the device, whichever kind it is.
fn call_step(
    alloc: Global,
    machine: &mut Machine,
    word: &str,
    rest: &str,
) -> Result<String, AllocError> {
    match &mut machine.device {
        Some(Device::Memory(dev)) => show_call(alloc, dev, word, rest),
        Some(Device::Fuse(dev)) => show_call(alloc, dev, word, rest),
        Some(Device::Sure(dev)) => show_call(alloc, dev, word, rest),
        Some(Device::Image(dev)) => show_call(alloc, dev, word, rest),
        None => said(alloc, "no device"),
    }
}
