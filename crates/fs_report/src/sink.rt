// Where a program prints.
ghost use Rattle.std.specs.Prelude.{◌≡◌, ◌≢◌, ◌≤◌, ◌++◌, List, [], ℕ, length, take, IfOk, OnOk, OnErr, IsErr};
ghost use Rattle.zone_image.specs.Counts.{HasCause, Rose};
ghost use Rattle.fs_report.specs.Written.{AddsFront};

use thiserror::Error;

/// A sink failed, or took nothing of what it was given.
#[derive(Clone, Copy, Debug, PartialEq, Eq, Drop, Error)]
#[error("a write failed")]
pub struct SinkFault;

/// A stream of bytes that a program writes.
pub trait Sink: Drop {
    /// Holds where this kind of sink tells what was written.
    ghost tells: { Type 0 };

    /// The bytes that were written; they mean something only where the sink tells them.
    ghost written: { Self → List ℕ };

    /// How often it has failed.
    ghost faults: { Self → ℕ };

    /// Adds first bytes of the piece at the end, and answers how many. After a fault the bytes are as
    /// before. The count of faults rises in a call that fails, and in one that takes nothing of a
    /// piece that isn't empty.
    fn write(&mut self, piece: &[u8]) -> Result<usize, SinkFault>
        ensures taken { IfOk result (λ n. n ≤ length piece.now) }
        ensures added { IfOk result (λ n. tells → written self.new ≡ written self.old ++ take n piece.now) }
        ensures unchanged { OnErr result (tells → written self.new ≡ written self.old) }
        ensures cause { HasCause (faults self.old) (faults self.new) (IsErr result) }
        ensures stuck { IfOk result (λ n. n ≡ 0 → piece.now ≢ [] → Rose (faults self.old) (faults self.new)) };
}

/// Writes the whole text. After a fault the sink has a front of it. The fault comes only where the
/// count rose: the sink failed, or took nothing.
pub fn write_all<O: Sink>(out: &mut O, text: &[u8]) -> Result<(), SinkFault>
    ensures whole { OnOk result (O.tells → O.written out.new ≡ O.written out.old ++ text.now) }
    ensures front { OnErr result (O.tells → AddsFront (O.written out.old) text.now (O.written out.new)) }
    ensures cause { HasCause (O.faults out.old) (O.faults out.new) (IsErr result) }
{
    let mut at = 0;
    while at < text.len() {
        let rest = &text[at..];
        let taken = out.write(rest)?;
        if taken == 0 {
            return Err(SinkFault);
        }
        at += taken;
    }
    Ok(())
}
