// Steps that are played again: so often, with a stop at each call, or for each crash.
use crate::crashes::{Keep, choices, crashed};
use crate::machine::Machine;
use crate::script::Script;
use crate::texts::{joined, lines, one_line, push_new, quiet, said};
use std::alloc::{AllocError, Global};
use zoned_device::{MemZones, ZonedDevice};

// More calls than any work of a script makes.
const MOST_CALLS: u64 = 2000;

/// Steps that are played so many times more.
#[derive(Drop)]
pub struct Repeat {
    start: usize,
    left: u64,
}

/// Work that is played with a stop after so many calls, from its whole device.
#[derive(Drop)]
pub struct Stops {
    start: usize,
    whole: MemZones,
    passes: u64,
    /// The round seeks the call from which on it stops.
    seeks: bool,
    done: bool,
    seen: Vec<String>,
}

/// Steps that are played for each crash of the whole device.
#[derive(Drop)]
pub struct Crashes {
    start: usize,
    whole: MemZones,
    choices: Vec<Keep>,
    next: usize,
    seen: Vec<String>,
}

/// Begins steps that are played so often.
pub fn begin_repeat(
    alloc: Global,
    script: &Script,
    machine: &mut Machine,
    times: u64,
) -> Result<String, AllocError> {
    machine.repeat = Some(Repeat {
        start: script.at,
        left: times,
    });
    quiet(alloc)
}

/// Ends steps that are repeated, or begins them again.
pub fn again(
    alloc: Global,
    script: &mut Script,
    machine: &mut Machine,
) -> Result<String, AllocError> {
    if let Some(repeat) = &mut machine.repeat {
        if repeat.left > 1 {
            repeat.left = repeat.left.wrapping_sub(1);
            script.at = repeat.start;
        }
    }
    quiet(alloc)
}

/// Begins work that is played with a stop at each call, or at each from the step `here` on.
pub fn begin_stops(
    alloc: Global,
    script: &Script,
    machine: &mut Machine,
    seeks: bool,
) -> Result<String, AllocError> {
    let Some(whole) = machine.copy()? else {
        return said(alloc, "no device");
    };
    machine.stops = Some(Stops {
        start: script.at,
        whole,
        passes: 0,
        seeks,
        done: false,
        seen: Vec::new(alloc),
    });
    machine.passes = if seeks { u64::MAX } else { 0 };
    begin_work(alloc, machine);
    quiet(alloc)
}

// Nothing of the work is done yet.
fn begin_work(alloc: Global, machine: &mut Machine) {
    machine.stopped = false;
    machine.marks = 0;
    machine.mark = String::new(alloc);
    machine.coming = String::new(alloc);
}

/// The stops begin at the next call.
pub fn stop_from_here(
    alloc: Global,
    script: &mut Script,
    machine: &mut Machine,
) -> Result<String, AllocError> {
    let calls = match &machine.fs {
        Some(fs) => fs.tick(),
        None => 0,
    };
    if let Some(stops) = &mut machine.stops {
        if stops.seeks {
            stops.seeks = false;
            stops.passes = calls;
            return restart(alloc, script, machine);
        }
    }
    quiet(alloc)
}

// Begins the work anew, with a stop after as many calls as the round says.
fn restart(
    alloc: Global,
    script: &mut Script,
    machine: &mut Machine,
) -> Result<String, AllocError> {
    machine.fs = None;
    machine.repeat = None;
    if let Some(stops) = &machine.stops {
        script.at = stops.start;
        machine.passes = stops.passes;
        machine.dev = Some(stops.whole.copy()?);
    }
    begin_work(alloc, machine);
    quiet(alloc)
}

/// Ends the work of a round: the device that it leaves has all its calls again. A stop at a call that only reads leaves what one at the
/// next change leaves, so such a round ends here.
pub fn leave_work(
    alloc: Global,
    script: &mut Script,
    machine: &mut Machine,
) -> Result<String, AllocError> {
    machine.unmount();
    machine.passes = u64::MAX;
    machine.repeat = None;
    let done = !machine.stopped;
    machine.stopped = false;
    if let Some(stops) = &mut machine.stops {
        stops.done = done;
    }
    if !done && only_reads_failed(machine) {
        return stop_later(alloc, script, machine);
    }
    quiet(alloc)
}

// Whether no change of the device failed.
fn only_reads_failed(machine: &Machine) -> bool {
    match &machine.dev {
        Some(dev) => dev.failed_changes() == 0,
        None => false,
    }
}

// Begins the round that stops one call later.
fn stop_later(
    alloc: Global,
    script: &mut Script,
    machine: &mut Machine,
) -> Result<String, AllocError> {
    if let Some(stops) = &mut machine.stops {
        stops.passes = stops.passes.wrapping_add(1);
        if stops.passes > MOST_CALLS {
            return said(alloc, "it never ends well");
        }
    }
    restart(alloc, script, machine)
}

/// Ends a round of stops: the next one begins, unless the work was done. It shows what the stopped rounds showed, and what the one that
/// was done showed.
pub fn next_stop(
    alloc: Global,
    script: &mut Script,
    machine: &mut Machine,
) -> Result<String, AllocError> {
    let Some(stops) = &mut machine.stops else {
        return said(alloc, "no stops");
    };
    if !machine.answer.is_empty() {
        let kind = if stops.done { "done" } else { "stopped" };
        let answer = one_line(alloc, machine.answer.as_str())?;
        let text = format!(in alloc; "{kind}: {answer}")?;
        push_new(&mut stops.seen, text)?;
    }
    if stops.done {
        return end_stops(alloc, machine);
    }
    stop_later(alloc, script, machine)
}

// Ends the rounds, and shows what they showed.
fn end_stops(alloc: Global, machine: &mut Machine) -> Result<String, AllocError> {
    match machine.stops.take() {
        Some(stops) => lines(alloc, &stops.seen),
        None => quiet(alloc),
    }
}

/// Begins steps that are played for each crash.
pub fn begin_crashes(
    alloc: Global,
    script: &Script,
    machine: &mut Machine,
) -> Result<String, AllocError> {
    let Some(whole) = machine.copy()? else {
        return said(alloc, "no device");
    };
    let choices = choices(alloc, &whole)?;
    machine.crashes = Some(Crashes {
        start: script.at,
        whole,
        choices,
        next: 0,
        seen: Vec::new(alloc),
    });
    go_on(machine)?;
    quiet(alloc)
}

// The device becomes what the next crash leaves; whether there is one.
fn go_on(machine: &mut Machine) -> Result<bool, AllocError> {
    machine.fs = None;
    let Some(crashes) = &mut machine.crashes else {
        return Ok(false);
    };
    let next = crashes.next;
    crashes.next = next.wrapping_add(1);
    match crashes.choices.get(next) {
        Some(keep) => {
            machine.dev = crashed(&crashes.whole, keep)?;
            Ok(true)
        }
        None => {
            machine.dev = Some(crashes.whole.copy()?);
            Ok(false)
        }
    }
}

/// Ends a round of crashes: the next one begins, or it shows all that they showed.
pub fn next_crash(
    alloc: Global,
    script: &mut Script,
    machine: &mut Machine,
) -> Result<String, AllocError> {
    let Some(crashes) = &mut machine.crashes else {
        return said(alloc, "no crashes");
    };
    let start = crashes.start;
    let text = one_line(alloc, machine.answer.as_str())?;
    push_new(&mut crashes.seen, text)?;
    if go_on(machine)? {
        script.at = start;
        return quiet(alloc);
    }
    end_crashes(alloc, machine)
}

// Ends the rounds, and shows what they showed.
fn end_crashes(alloc: Global, machine: &mut Machine) -> Result<String, AllocError> {
    match machine.crashes.take() {
        Some(crashes) => {
            let mut text = joined(alloc, &crashes.seen, " or ")?;
            text.push_str("\n")?;
            Ok(text)
        }
        None => quiet(alloc),
    }
}
