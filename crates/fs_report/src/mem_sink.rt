// A sink in memory.
ghost use Rattle.std.specs.Prelude.{◌≡◌, ◌≢◌, ◌≤◌, ◌++◌, [], length, take, IfOk, OnErr, IsErr};
ghost use Rattle.zone_image.specs.Counts.{HasCause, Rose};
ghost use Rattle.fs_report.specs.MemSinkState.{fitting, mem_added, mem_answer, mem_after};

use crate::sink::{Sink, SinkFault};
use std::alloc::{AllocError, Global};
use std::marker::Model;

/// A sink that keeps what is written, up to a number of bytes, and fails at listed calls.
#[derive(Drop)]
pub struct MemSink {
    written: Vec<u8>,
    room: usize,
    calls: u64,
    fails: Vec<u64>,
    faults: u64,
}

impl Model for MemSink {
    ghost use Rattle.std.specs.Prelude.{◌≤◌, length, vec_capacity};
    ghost use Rattle.fs_report.specs.MemSinkState.{MemSinkState};

    ghost Value = { MemSinkState };

    ghost view = { λ s. record { written = s.written.items; room = s.room; calls = s.calls; fails = s.fails.items; faults = s.faults } };

    ghost invariant = { λ s. (length s.written.items ≤ s.room) × (s.room ≤ vec_capacity s.written) };
}

impl MemSink {
    /// An empty sink with room for `room` bytes, whose calls with the numbers in `fails`, counted
    /// from 1, fail. It takes all its memory here.
    pub fn new(alloc: Global, room: usize, fails: Vec<u64>) -> Result<MemSink, AllocError>
        ensures { IfOk result (λ s. s ≡ record { written = []; room = room; calls = 0; fails = fails.items; faults = 0 }) }
    {
        let written = Vec::with_capacity(alloc, room)?;
        Ok(MemSink {
            written,
            room,
            calls: 0,
            fails,
            faults: 0,
        })
    }

    /// What was written.
    pub fn bytes(&self) -> &[u8]
        ensures { result.now ≡ self.now.written }
    {
        &self.written
    }

    // Adds as much of the piece as fits, and counts a fault where nothing of it does.
    fn add(&mut self, piece: &[u8]) -> usize
        ensures taken { result ≡ fitting self.old (length piece.now) }
        ensures after { self.new ≡ mem_added self.old piece.now }
    {
        let taken = piece.len().min(self.room - self.written.len());
        let front = &piece[..taken];
        let _ = self.written.extend_from_slice(front);
        if taken == 0 && !piece.is_empty() {
            self.faults = self.faults.saturating_add(1);
        }
        taken
    }
}

impl Sink for MemSink {
    ghost tells = { Unit {0} };

    ghost written = { λ s. s.written };

    ghost faults = { λ s. s.faults };

    fn write(&mut self, piece: &[u8]) -> Result<usize, SinkFault>
        // A write fails exactly where it is listed to, and takes as much as fits.
        ensures answer { result ≡ mem_answer self.old piece.now }
        ensures after { self.new ≡ mem_after self.old piece.now }

        // The clauses of every sink.
        ensures taken { IfOk result (λ n. n ≤ length piece.now) }
        ensures added { IfOk result (λ n. self.new.written ≡ self.old.written ++ take n piece.now) }
        ensures unchanged { OnErr result (self.new.written ≡ self.old.written) }
        ensures cause { HasCause self.old.faults self.new.faults (IsErr result) }
        ensures stuck { IfOk result (λ n. n ≡ 0 → piece.now ≢ [] → Rose self.old.faults self.new.faults) }
    {
        self.calls = self.calls.saturating_add(1);
        if self.fails.contains(&self.calls) {
            self.faults = self.faults.saturating_add(1);
            return Err(SinkFault);
        }
        Ok(self.add(piece))
    }
}
