// A sink over a real stream.
ghost use Rattle.std.specs.Prelude.{◌≡◌, []};

use crate::sink::{Sink, SinkFault};
use std::io::Write;
use std::marker::Model;

/// A sink over a writer of std. It tells nothing of what was written.
#[derive(Drop)]
pub struct OutSink<W: Write + Drop> {
    writer: W,
    faults: u64,
}

impl<W: Write + Drop> Model for OutSink<W> {
    ghost use Rattle.std.specs.Prelude.{ℕ};

    ghost Value = { ℕ };

    ghost view = { λ s. s.faults };
}

impl<W: Write + Drop> OutSink<W> {
    /// A sink that writes to this writer.
    pub fn new(writer: W) -> OutSink<W>
        ensures { result ≡ 0 }
    {
        OutSink { writer, faults: 0 }
    }
}

impl<W: Write + Drop> Sink for OutSink<W> {
    ghost tells = { ⊥ };

    ghost written = { λ _. [] };

    ghost faults = { λ count. count };

    /// Writes the whole piece and flushes it.
    fn write(&mut self, piece: &[u8]) -> Result<usize, SinkFault> {
        let written = match self.writer.write_all(piece) {
            Ok(()) => self.writer.flush(),
            Err(error) => Err(error),
        };
        match written {
            Ok(()) => Ok(piece.len()),
            Err(_) => {
                self.faults = self.faults.saturating_add(1);
                Err(SinkFault)
            }
        }
    }
}
