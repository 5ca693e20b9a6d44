// A file that tells what a loss of power may leave of it.
ghost use Rattle.std.specs.Prelude.{◌≡◌, ◌↔◌, ◌≤◌, ℕ, List, length};

use image_backend::ByteFile;

/// A file of bytes that tells what a loss of power may leave of it. Open are the bytes that were written since its last
/// good `sync`, by calls that went well or failed: of each of them a loss of power may leave anything, and all others stay.
pub trait PowerFile: ByteFile {
    /// The file tells what a loss of power may leave.
    ghost tells_power: { Type 0 };

    /// What a loss of power may leave now: bytes of this length that have all that isn't open.
    ghost may: { Self → List ℕ → Type 0 };

    /// What a loss of power might have left at a moment since this tick, also inside a call.
    ghost might: { Self → ℕ → List ℕ → Type 0 };

    /// The number of calls so far.
    ghost tick: { Self → ℕ };

    /// What stands may be left.
    ghost stays: { (f : Self) → tells_power → may f (Self.contents f) };

    /// The length stays.
    ghost long: { (f : Self) (left : List ℕ) → may f left → length left ≡ length (Self.contents f) };

    /// Where all is durable, nothing else may be left than what stands.
    ghost durable: { (f : Self) (left : List ℕ) → tells_power → Self.is_durable f → may f left → left ≡ Self.contents f };

    /// What may be left now might have been left since any tick.
    ghost since_now: { (f : Self) (t : ℕ) (left : List ℕ) → may f left → might f t left };

    /// Since the present tick nothing else might have been left than what may be left now.
    ghost now: { (f : Self) (left : List ℕ) → might f (tick f) left → may f left };

    /// Since an earlier tick more might have been left.
    ghost earlier: { (f : Self) (t u : ℕ) (left : List ℕ) → t ≤ u → might f u left → might f t left };
}
