// One line of a script, and what comes of it.
use crate::machine::Machine;
use crate::script::Script;
use crate::texts::{number, number64, quiet, said, written_out};
use crate::{blocks, changes, commands, crashes, devices, logs, marks, mounts, rounds};
use std::alloc::{AllocError, Global};

/// Plays the next line, and answers what is to be said of it.
pub fn play(
    alloc: Global,
    script: &mut Script,
    machine: &mut Machine,
) -> Result<String, AllocError> {
    let given = script.next(alloc)?;
    let line = written_out(alloc, given.as_str().trim())?;
    let text = line.as_str();
    if text.is_empty() || text.starts_with('#') {
        return quiet(alloc);
    }
    if let Some(name) = text.strip_prefix("example ") {
        return begin(alloc, script, machine, name);
    }
    if machine.stopped && text != "leaves" {
        return leave_out(alloc, machine, text);
    }
    play_step(alloc, script, machine, text)
}

// Begins an example of this name.
fn begin(
    alloc: Global,
    script: &mut Script,
    machine: &mut Machine,
    name: &str,
) -> Result<String, AllocError> {
    script.examples = script.examples.wrapping_add(1);
    machine.begin(alloc);
    said(alloc, name)
}

// Leaves a step out, since the device has stopped.
fn leave_out(alloc: Global, machine: &mut Machine, text: &str) -> Result<String, AllocError> {
    if let Some(mark) = text.strip_prefix("mark ") {
        marks::note_coming(alloc, machine, mark)?;
    }
    quiet(alloc)
}

// Plays a step. What it shows goes to the next step if that one uses it, and else is what the script wants, unless the device stopped.
fn play_step(
    alloc: Global,
    script: &mut Script,
    machine: &mut Machine,
    text: &str,
) -> Result<String, AllocError> {
    let found = step(alloc, script, machine, text)?;
    if machine.stopped {
        return quiet(alloc);
    }
    if is_used(script.line().trim()) {
        machine.answer = found;
        return quiet(alloc);
    }
    compare(alloc, script, text, found.as_str())
}

// Whether a step uses what the one before it showed.
fn is_used(text: &str) -> bool {
    text == "next crash"
        || text == "next stop"
        || text == "as marked"
        || text == "note"
        || text.starts_with("count ")
        || (text.starts_with("save ") && text.contains(" if "))
}

// Compares what is shown with what the script wants.
fn compare(
    alloc: Global,
    script: &mut Script,
    text: &str,
    found: &str,
) -> Result<String, AllocError> {
    let line = script.at;
    let wanted = script.answer(alloc)?;
    if found == wanted.as_str() {
        return quiet(alloc);
    }
    script.wrong = script.wrong.wrapping_add(1);
    let wanted = wanted.as_str();
    format!(in alloc; "  line {line}: {text}\n  wanted:\n{wanted}  found:\n{found}")
}

// Does what a line says, and answers what it shows.
fn step(
    alloc: Global,
    script: &mut Script,
    machine: &mut Machine,
    text: &str,
) -> Result<String, AllocError> {
    let (word, rest) = text.split_once(' ').unwrap_or((text, ""));
    match word {
        "zenfs" | "room" | "random" => command_step(alloc, machine, word, rest),
        "device" | "blank" | "on" | "save" | "fail" | "put" => {
            device_step(alloc, machine, word, rest)
        }
        "log" | "superblock" | "record" | "block" | "byte" => log_step(alloc, machine, word, rest),
        "blocks" | "seals" | "within" | "shape" | "bytes" | "crash" | "reset" => {
            zone_step(alloc, machine, word, rest)
        }
        "mount" | "write" | "unmount" | "files" | "show" | "chosen" | "ends" | "above" | "calls" =>
            mount_step(alloc, machine, word, rest),
        "create" | "link" | "rename" | "delete" => change_step(alloc, machine, word, rest),
        "mark" | "note" | "as" | "progress" | "count" | "counted" => mark_step(
            alloc, machine, word, rest,
        ),
        _ => round_step(alloc, script, machine, text),
    }
}

// Steps that run a command.
fn command_step(
    alloc: Global,
    machine: &mut Machine,
    word: &str,
    rest: &str,
) -> Result<String, AllocError> {
    match word {
        "zenfs" => commands::run_command(alloc, machine, rest),
        "room" => {
            machine.room = number(rest) as usize;
            quiet(alloc)
        }
        _ => {
            machine.random = u128::MAX;
            quiet(alloc)
        }
    }
}

// Steps that make a device.
fn device_step(
    alloc: Global,
    machine: &mut Machine,
    word: &str,
    rest: &str,
) -> Result<String, AllocError> {
    match word {
        "device" => devices::make_empty(alloc, machine),
        "blank" => devices::make_blank(alloc, machine),
        "on" => devices::take_saved(alloc, machine, rest),
        "save" => {
            devices::save_if(alloc, machine, rest)?;
            quiet(alloc)
        }
        "fail" => devices::set_fail(alloc, machine, rest),
        _ => put_step(alloc, machine, rest),
    }
}

// Steps that put logs on a new device.
fn put_step(alloc: Global, machine: &mut Machine, rest: &str) -> Result<String, AllocError> {
    match rest {
        "the log" => devices::put_log(alloc, machine),
        "both logs" => devices::put_logs(alloc, machine),
        "the log and files" => devices::put_with_files(alloc, machine),
        "the log and all active zones" => devices::put_all_active(alloc, machine),
        _ => said(alloc, "no such logs"),
    }
}

// Steps that write a log by hand.
fn log_step(
    alloc: Global,
    machine: &mut Machine,
    word: &str,
    rest: &str,
) -> Result<String, AllocError> {
    match word {
        "log" => logs::begin_log(alloc, machine),
        "superblock" => logs::add_superblock(alloc, machine, rest),
        "record" => logs::add_digits(alloc, machine, rest),
        "block" => {
            let (zone, block) = rest.split_once(' ').unwrap_or((rest, "0"));
            logs::add_block(alloc, machine, number(zone), number(block))
        }
        _ => logs::set_byte(alloc, machine, rest),
    }
}

// Steps that show or change what is written.
fn zone_step(
    alloc: Global,
    machine: &mut Machine,
    word: &str,
    rest: &str,
) -> Result<String, AllocError> {
    match word {
        "blocks" => crashes::show_blocks(alloc, machine, rest),
        "seals" => crashes::show_seals(alloc, machine, rest),
        "within" => crashes::show_within(alloc, machine, rest),
        "shape" => blocks::show_shape(alloc, machine),
        "bytes" => {
            let (zone, block) = rest.split_once(' ').unwrap_or((rest, "0"));
            blocks::show_block(alloc, machine, number(zone), number(block))
        }
        "crash" => crashes::crash(alloc, machine, rest),
        _ => crashes::reset_zone(alloc, machine, number(rest)),
    }
}

// Steps that mount, and show what is mounted.
fn mount_step(
    alloc: Global,
    machine: &mut Machine,
    word: &str,
    rest: &str,
) -> Result<String, AllocError> {
    match word {
        "mount" => mounts::mount(alloc, machine),
        "write" => mounts::mount_write(alloc, machine),
        "unmount" => {
            machine.unmount();
            quiet(alloc)
        }
        "files" => mounts::show_files(alloc, machine),
        "show" => mounts::show_names(alloc, machine, rest),
        "chosen" => mounts::show_log(alloc, machine),
        "ends" => mounts::show_end(alloc, machine),
        "above" => mounts::show_above(alloc, machine, number(rest)),
        _ => mounts::note_calls(alloc, machine),
    }
}

// Steps that change names of what is mounted.
fn change_step(
    alloc: Global,
    machine: &mut Machine,
    word: &str,
    rest: &str,
) -> Result<String, AllocError> {
    match word {
        "create" => changes::create(alloc, machine, rest),
        "link" => changes::link(alloc, machine, rest),
        "rename" => changes::rename(alloc, machine, rest),
        _ => changes::delete(alloc, machine, rest),
    }
}

// Steps that mark and count.
fn mark_step(
    alloc: Global,
    machine: &mut Machine,
    word: &str,
    rest: &str,
) -> Result<String, AllocError> {
    match word {
        "mark" => marks::set_mark(alloc, machine, rest),
        "note" => marks::note_answer(alloc, machine),
        "as" => marks::show_mark(alloc, machine),
        "progress" => marks::show_progress(alloc, machine),
        "count" => {
            marks::count_answer(machine, rest);
            machine.answer.clone()
        }
        _ => marks::show_count(alloc, machine),
    }
}

// Steps that play others again.
fn round_step(
    alloc: Global,
    script: &mut Script,
    machine: &mut Machine,
    text: &str,
) -> Result<String, AllocError> {
    match text {
        "again" => rounds::again(alloc, script, machine),
        "each stop" => rounds::begin_stops(alloc, script, machine, false),
        "each stop from here" => rounds::begin_stops(alloc, script, machine, true),
        "here" => rounds::stop_from_here(alloc, script, machine),
        "leaves" => rounds::leave_work(alloc, script, machine),
        "next stop" => rounds::next_stop(alloc, script, machine),
        "each crash" => rounds::begin_crashes(alloc, script, machine),
        "next crash" => rounds::next_crash(alloc, script, machine),
        _ => repeat_step(alloc, script, machine, text),
    }
}

// The step that repeats others, or no step.
fn repeat_step(
    alloc: Global,
    script: &Script,
    machine: &mut Machine,
    text: &str,
) -> Result<String, AllocError> {
    match text.strip_prefix("repeat ") {
        Some(times) => rounds::begin_repeat(alloc, script, machine, number64(times)),
        None => said(alloc, "no such step"),
    }
}
