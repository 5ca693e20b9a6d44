// Commands over the device.
use crate::machine::{Machine, ROOM};
use crate::texts::{push_bytes, words};
use fs_report::{MemSink, Status};
use std::alloc::{AllocError, Global};
use zenfs_cmd::run;
use zoned_device::MemZones;

/// Runs a command with these words over the device. It shows what the command prints and says, and how it ends if it isn't well.
pub fn run_command(alloc: Global, machine: &mut Machine, line: &str) -> Result<String, AllocError> {
    let given = words(alloc, line)?;
    match machine.dev.take() {
        Some(dev) => run_over(alloc, machine, &given, dev),
        None => String::from_str(alloc, "no device\n"),
    }
}

// Runs a command over this device, which the machine gets.
fn run_over(
    alloc: Global,
    machine: &mut Machine,
    given: &[String],
    dev: MemZones,
) -> Result<String, AllocError> {
    let mut out = MemSink::new(alloc, machine.room, Vec::new(alloc))?;
    let mut err = MemSink::new(alloc, ROOM, Vec::new(alloc))?;
    let random = machine.random;
    machine.room = ROOM;
    machine.random = 0;
    let fuse = machine.fused(dev);
    let (status, fuse) = run(alloc, given, fuse, &mut out, &mut err, random);
    if status == Status::Fault {
        machine.note_fault();
    }
    machine.dev = Some(fuse.into_inner());
    shown(alloc, status, out.bytes(), err.bytes())
}

// What is shown of a command.
fn shown(alloc: Global, status: Status, out: &[u8], err: &[u8]) -> Result<String, AllocError> {
    let mut text = String::new(alloc);
    push_bytes(&mut text, out)?;
    if !out.is_empty() && !out.ends_with(b"\n") {
        text.push_str(" (cut)\n")?;
    }
    push_bytes(&mut text, err)?;
    text.push_str(ending(status))?;
    Ok(text)
}

// How a command ends.
fn ending(status: Status) -> &'static str {
    match status {
        Status::Ok => "",
        Status::Refused => "refused\n",
        Status::Words => "bad words\n",
        Status::Fault => "fault\n",
        Status::Memory => "no memory\n",
        Status::Damaged => "damaged\n",
    }
}
