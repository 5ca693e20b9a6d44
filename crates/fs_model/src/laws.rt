// Laws of the definitions. Each is the contract of a function that does nothing, so that it
// counts as proved; a proof cites it by a call.

ghost use Rattle.std.specs.Prelude.{◌≡◌, ◌≢◌, ℕ, ◌+◌, ◌<◌, List, ◌∷◌, ◌++◌, Result, Ok, Err, Some, true};
ghost use Rattle.fs_model.specs.FsState.{TableRow, row_of};
ghost use Rattle.fs_model.specs.Trace.{Action, EndsAlike, Refines, each, repeat, on_part, ◌>>=◌ as ◌then◌};
ghost use Rattle.fs_model.specs.LogSteps.{NoValue};
ghost use Rattle.fs_model.specs.WriterSteps.{HasZone, Session, append_bytes, flush_at, take_bytes};
ghost use Rattle.fs_model.specs.Migration.{Collecting, rounds, are_enough};
ghost use Rattle.fs_model.specs.declared.error.FsError.{FsError};

/// Two calls are one call of both: where the first answers Ok the second goes on, and where the
/// first is refused so is the whole.
pub fn calls_compose<S, A, B>()
    ensures goes_on { (m : Action S A) (f : A → Action S B) (before between after : S) (x : A) (answer : Result B FsError)
        → Refines m before (Ok x) between → Refines (f x) between answer after → answer ≢ Err FsError.Stopped
        → Refines (m then f) before answer after }
    ensures stops { (m : Action S A) (f : A → Action S B) (before after : S) (e : FsError)
        → Refines m before (Err e) after → Refines (m then f) before (Err e) after }
{}

/// How operations are grouped doesn't matter, to every state of their trace.
pub fn grouping_is_free<S, A, B, C>()
    ensures { (m : Action S A) (f : A → Action S B) (g : B → Action S C) (s : S)
        → ((m then f) then g) s ≡ (m then (λ x. f x then g)) s }
{}

/// A call on a part of the state is one on the whole state that leaves the other parts alone.
pub fn part_is_lifted<S, P, A>()
    ensures { (get : S → P) (put : S → P → S) (m : Action P A) (s : S) (answer : Result A FsError) (after : P)
        → put s (get s) ≡ s → Refines m (get s) answer after → Refines (on_part get put m) s answer (put s after) }
{}

/// What is done for each of a list may be done for a part of it and then for the rest.
pub fn lists_compose<S, X>()
    ensures goes_on { (f : X → Action S NoValue) (xs ys : List X) (before between after : S) (answer : Result NoValue FsError)
        → Refines (each f xs) before (Ok tt) between → Refines (each f ys) between answer after → answer ≢ Err FsError.Stopped
        → Refines (each f (xs ++ ys)) before answer after }
    ensures stops { (f : X → Action S NoValue) (x : X) (xs ys : List X) (before after : S) (e : FsError)
        → Refines (each f (x ∷ xs)) before (Err e) after → Refines (each f (x ∷ xs ++ ys)) before (Err e) after }
{}

/// What is done so many times may be done some of them, and then the others.
pub fn repeats_compose<S>()
    ensures goes_on { (m : Action S NoValue) (n k : ℕ) (before between after : S) (answer : Result NoValue FsError)
        → Refines (repeat n m) before (Ok tt) between → Refines (repeat k m) between answer after → answer ≢ Err FsError.Stopped
        → Refines (repeat (n + k) m) before answer after }
    ensures stops { (m : Action S NoValue) (n k : ℕ) (before after : S) (e : FsError)
        → Refines (repeat (n + 1) m) before (Err e) after → Refines (repeat (n + 1 + k) m) before (Err e) after }
{}

/// How the bytes of an append are cut into calls doesn't matter.
pub fn appends_compose()
    ensures goes_on { (n k now : ℕ) (before between after : Session) (answer : Result NoValue FsError)
        → Refines (append_bytes n now) before (Ok tt) between → Refines (append_bytes k now) between answer after → answer ≢ Err FsError.Stopped
        → Refines (append_bytes (n + k) now) before answer after }
    ensures stops { (n k now : ℕ) (before after : Session) (e : FsError)
        → Refines (append_bytes (n + 1) now) before (Err e) after → Refines (append_bytes (n + 1 + k) now) before (Err e) after }
{}

/// Bytes that don't fill the buffer may be taken at once, as one extent.
pub fn bytes_are_taken_at_once()
    ensures { (n now : ℕ) (s : Session) (r : TableRow)
        → HasZone s → row_of s.writer.id s.fs.rows ≡ Some r → s.writer.buffered + (n + 1) < flush_at s
        → EndsAlike (append_bytes (n + 1) now) (take_bytes (n + 1)) s }
{}

/// Once the collector's rounds have come to an end, a greater bound on them changes nothing.
pub fn more_rounds_change_nothing()
    ensures { (enough more retired : ℕ) (s : Collecting)
        → are_enough enough s ≡ true → rounds (enough + more) retired s ≡ rounds enough retired s }
{}
