// Steps that are played again, with each of some calls failing in turn.
use crate::machine::Machine;
use crate::script::Script;
use crate::texts::{number, number64, quiet};
use std::alloc::{AllocError, Global};

/// Steps that are played once for each call that fails.
#[derive(Drop)]
pub struct Round {
    start: usize,
    /// The call that fails, and how much of it is done.
    pub call: u64,
    pub part: u32,
    last: u64,
    line: String,
    seen: String,
}

/// Begins steps that are played with the calls of these numbers failing in turn: the first, the last, and how much is done of them.
pub fn begin(
    alloc: Global,
    script: &Script,
    machine: &mut Machine,
    rest: &str,
) -> Result<String, AllocError> {
    let (first, behind) = rest.split_once(' ').unwrap_or((rest, ""));
    let (last, part) = behind.split_once(' ').unwrap_or((behind, "0"));
    machine.round = Some(Round {
        start: script.at,
        call: number64(first),
        part: number(part),
        last: number64(last),
        line: String::new(alloc),
        seen: String::new(alloc),
    });
    quiet(alloc)
}

/// Notes what a step of a round showed.
pub fn note(round: &mut Round, found: &str) -> Result<(), AllocError> {
    let shown = found.trim_end();
    if shown.is_empty() {
        return Ok(());
    }
    if !round.line.is_empty() {
        round.line.push_str(", ")?;
    }
    round.line.push_str(shown)
}

/// Ends a round. It answers what all rounds showed behind the last one, and else begins the next.
pub fn end(
    alloc: Global,
    script: &mut Script,
    machine: &mut Machine,
) -> Result<Option<String>, AllocError> {
    machine.device = None;
    let Some(mut round) = machine.round.take() else {
        return Ok(Some(String::new(alloc)));
    };
    push_line(alloc, &mut round)?;
    if round.call >= round.last {
        return Ok(Some(round.seen));
    }
    round.call = round.call.wrapping_add(1);
    script.at = round.start;
    machine.round = Some(round);
    Ok(None)
}

// Adds the line of a round to what was seen.
fn push_line(alloc: Global, round: &mut Round) -> Result<(), AllocError> {
    let call = round.call;
    let shown = round.line.as_str();
    let line = format!(in alloc; "{call}: {shown}\n")?;
    round.seen.push_str(line.as_str())?;
    round.line = String::new(alloc);
    Ok(())
}
