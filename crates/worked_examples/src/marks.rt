// What was shown, counted, and how far the work of a round came.
use crate::machine::Machine;
use crate::texts::{quiet, said};
use std::alloc::{AllocError, Global};

/// Counts what the last step showed, if it is this.
pub fn count_answer(machine: &mut Machine, wanted: &str) {
    if machine.answer.as_str().trim_end() == wanted {
        machine.count = machine.count.wrapping_add(1);
    }
}

/// Shows how often that was.
pub fn show_count(alloc: Global, machine: &mut Machine) -> Result<String, AllocError> {
    let count = machine.count;
    format!(in alloc; "{count}\n")
}

/// Marks that the work came so far, and what is then to be shown.
pub fn set_mark(alloc: Global, machine: &mut Machine, text: &str) -> Result<String, AllocError> {
    machine.marks = machine.marks.wrapping_add(1);
    machine.mark = String::from_str(alloc, text)?;
    quiet(alloc)
}

/// What the last step showed becomes the mark.
pub fn note_answer(alloc: Global, machine: &mut Machine) -> Result<String, AllocError> {
    machine.mark = String::from_str(alloc, machine.answer.as_str().trim_end())?;
    quiet(alloc)
}

/// Notes the mark to which a stopped work would have come next.
pub fn note_coming(alloc: Global, machine: &mut Machine, text: &str) -> Result<(), AllocError> {
    if machine.coming.is_empty() {
        machine.coming = String::from_str(alloc, text)?;
    }
    Ok(())
}

/// Shows whether what the last step showed is that of the last mark, or of the next one.
pub fn show_mark(alloc: Global, machine: &mut Machine) -> Result<String, AllocError> {
    let answer = machine.answer.as_str().trim_end();
    if answer == machine.mark.as_str() {
        return said(alloc, "the last mark");
    }
    if answer == machine.coming.as_str() {
        return said(alloc, "the next mark");
    }
    said(alloc, answer)
}

/// Shows nothing if this round came as far as the one before it, or one mark farther.
pub fn show_progress(alloc: Global, machine: &mut Machine) -> Result<String, AllocError> {
    let most = machine.most;
    let marks = machine.marks;
    machine.most = marks;
    if marks >= most && marks <= most.wrapping_add(1) {
        return quiet(alloc);
    }
    format!(in alloc; "from mark {most} to mark {marks}\n")
}
