// Which calls of a device in memory fail, and the counts of its calls.
ghost use Rattle.std.specs.Prelude.{◌≡◌, ◌≤◌, nat_le, is_ok, if◌then◌else◌};
ghost use Rattle.zone_image.specs.Counts.{last_tick};
ghost use Rattle.zoned_device.specs.CallState.{IsWithinLimits, fault_of, begun, faulted, change_failed, no_calls, is_used_up, listed_part, one_less};

use crate::DevFault;
use crate::counters::{LAST_TICK, count_after, tick_after};
use std::marker::Model;

/// The call of this number is to fail. Calls are counted from 1, and `tick`, `faults` and `failed_changes` aren't
/// counted. A failing append first writes as many blocks as the least of `part` and its own number of blocks. A
/// failing `finish`, `reset` or `make` is done where `part` isn't 0, a `make` unless memory is wanting for it. Public
/// clauses say this by `after_call` of the device.
#[derive(Clone, Copy, Debug, PartialEq, Eq)]
pub struct Failing {
    pub call: u64,
    pub part: u32,
}

// What is counted of the calls, and which of them fail.
#[derive(Drop)]
pub(crate) struct Calls {
    fails: Vec<Failing>,
    passes: Option<u64>,
    number: u64,
    tick: u64,
    faults: u64,
    failed_changes: u64,
}

impl Model for Calls {
    ghost use Rattle.zoned_device.specs.CallState.{CallState};

    ghost Value = { CallState };

    ghost view = { λ c. record {
      fails = c.fails.items;
      passes = c.passes;
      number = c.number;
      tick = c.tick;
      faults = c.faults;
      failed_changes = c.failed_changes;
    } };

    ghost use Rattle.std.specs.Prelude.{◌≤◌, ◌-◌, ◌^◌};
    ghost use Rattle.zone_image.specs.Counts.{last_tick};

    ghost invariant = { λ c. (c.tick ≤ last_tick) × (c.faults ≤ 2 ^ 64 - 1) };
}

impl Calls {
    /// No call was made yet.
    pub(crate) fn new(fails: Vec<Failing>) -> Self
        ensures { result ≡ no_calls fails.items }
    {
        Calls {
            fails,
            passes: None,
            number: 0,
            tick: 0,
            faults: 0,
            failed_changes: 0,
        }
    }

    /// Begins a call. It answers how much of the call is done before it fails, if it is to fail.
    pub(crate) fn begin(&mut self) -> Option<u32>
        ensures fault { result ≡ fault_of self.old }
        ensures counted { self.new ≡ begun self.old }
        ensures within { IsWithinLimits self.old }
    {
        let number = count_after(self.number);
        let fault = next_fault(&self.fails, self.passes, number, self.tick);
        self.passes = one_less(self.passes);
        self.number = number;
        self.tick = tick_after(self.tick);
        fault
    }

    /// The call failed.
    pub(crate) fn count_fault(&mut self)
        ensures { self.new ≡ faulted self.old }
    {
        self.faults = count_after(self.faults);
    }

    /// Ends an append, finish, reset or sync, which was done whole or fails.
    pub(crate) fn end_change(&mut self, done: bool) -> Result<(), DevFault>
        ensures answer { is_ok result ≡ done }
        ensures counted { self.new ≡ (if done then self.old else change_failed self.old) }
    {
        if done {
            return Ok(());
        }
        self.faults = count_after(self.faults);
        self.failed_changes = count_after(self.failed_changes);
        Err(DevFault)
    }

    pub(crate) fn tick(&self) -> u64
        ensures { result ≡ self.now.tick }
    {
        self.tick
    }

    pub(crate) fn faults(&self) -> u64
        ensures { result ≡ self.now.faults }
    {
        self.faults
    }

    pub(crate) fn failed_changes(&self) -> u64
        ensures { result ≡ self.now.failed_changes }
    {
        self.failed_changes
    }

    /// Other calls are to fail; their numbers start again at 1.
    pub(crate) fn set_fails(&mut self, fails: Vec<Failing>)
        ensures { self.new ≡ record self.old { fails = fails.items; number = 0 } }
    {
        self.fails = fails;
        self.number = 0;
    }

    /// From now on so many calls pass, or all.
    pub(crate) fn set_passes(&mut self, passes: Option<u64>)
        ensures { self.new ≡ record self.old { passes = passes } }
    {
        self.passes = passes;
    }
}

// How much of a call is done before it fails, if it is to fail.
fn next_fault(fails: &[Failing], passes: Option<u64>, number: u64, tick: u64) -> Option<u32>
    ensures { result ≡ (if nat_le last_tick tick then Some 0
        else if is_used_up passes then Some 0
        else listed_part fails.now number) }
{
    if tick >= LAST_TICK || passes == Some(0) {
        Some(0)
    } else {
        part_of(fails, number)
    }
}

// The part of the call of this number, if the list has it.
fn part_of(fails: &[Failing], number: u64) -> Option<u32>
    ensures { result ≡ listed_part fails.now number }
{
    for failing in fails {
        if failing.call == number {
            return Some(failing.part);
        }
    }
    None
}

fn one_less(passes: Option<u64>) -> Option<u64>
    ensures { result ≡ one_less passes }
{
    match passes {
        Some(left) => Some(left.saturating_sub(1)),
        None => None,
    }
}
