// How a refusal is said.
ghost use Rattle.std.specs.Prelude.{◌≡◌, ◌++◌, codes};
ghost use Rattle.zone_image.specs.Counts.{Rose};
ghost use Rattle.command_model.specs.RefusalTexts.{refusal_text};
ghost use Rattle.fs_report.specs.Causes.{cause_meant, ending};

use fs_report::{Cause, Sink, Status, say_refusal};

/// Says a refusal, of which a fault changes nothing, and tells how the program ends. It takes no memory.
pub fn refuse<E: Sink>(err: &mut E, cause: Cause<'_>) -> Status
    ensures status { result ≡ ending cause.entry }
    ensures said { (Rose (E.faults err.old) (E.faults err.new) → ⊥) → E.tells
        → E.written err.new ≡ E.written err.old ++ refusal_text (codes "zenfs") (cause_meant cause.entry) }
{
    let _ = say_refusal(err, "zenfs", cause);
    cause.status()
}
