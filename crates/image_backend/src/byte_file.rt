// The file that an image is kept in.
ghost use Rattle.std.specs.Prelude.{◌≡◌, ◌↔◌, ◌+◌, ◌≤◌, min, ℕ, List, [], length, take, drop, false, IsTrue, IfOk, OnOk, OnErr, IsErr, IsErrOf};
ghost use Rattle.zone_image.specs.Counts.{HasCause};
ghost use Rattle.image_backend.specs.Contents.{resized, patched, SameOutside, SameFile};

use thiserror::Error;

/// The file failed. It comes only where the file's count of faults rose.
#[derive(Clone, Copy, Debug, PartialEq, Eq, Drop, Error)]
#[error("the file failed")]
pub struct FileFault;

/// Why a file can't be given a length.
#[derive(Clone, Copy, Debug, PartialEq, Eq, Drop, Error)]
pub enum SetLenError {
    #[error("the file failed")]
    Failed,
    #[error("out of memory")]
    NoMemory,
}

/// A file of bytes at offsets. Its length is known once `create`, `len` or `set_len` answered Ok. A file may besides
/// tell its bytes.
pub trait ByteFile: Drop {
    /// `open` answered true or `create` answered Ok.
    ghost is_open: { Self → Type 0 };

    /// `open` answered that no file is there.
    ghost is_absent: { Self → Type 0 };

    /// The file's length is known.
    ghost is_sized: { Self → Type 0 };

    /// The length of a file whose length is known.
    ghost size: { Self → ℕ };

    /// The file tells its bytes.
    ghost tells: { Type 0 };

    /// The bytes, none where no file is there; they say nothing of a file that doesn't tell them.
    ghost contents: { Self → List ℕ };

    /// All its bytes stand as the last good `sync` left them, so that a loss of power keeps them; it says nothing of a
    /// file that doesn't tell its bytes.
    ghost is_durable: { Self → Type 0 };

    /// How often the file failed.
    ghost faults: { Self → ℕ };

    /// Opens the file. It answers false exactly where no file is there.
    fn open(&mut self) -> Result<bool, FileFault>
        ensures found { IfOk result (λ there. IsTrue there → is_open self.new) }
        ensures stays { IfOk result (λ there. is_open self.old → IsTrue there) }
        ensures missing { IfOk result (λ there. there ≡ false → is_absent self.new) }
        ensures exact { IfOk result (λ there. tells → (there ≡ false) ↔ is_absent self.old) }
        ensures still_durable { tells → is_durable self.old → is_durable self.new }
        ensures same { SameFile is_open is_sized size tells contents self.old self.new }
        ensures cause { HasCause (faults self.old) (faults self.new) (IsErr result) };

    /// Makes an empty file where none is. After a fault it is open whether a file is there.
    fn create(&mut self) -> Result<(), FileFault>
        requires { is_absent self.old }
        ensures made { OnOk result (is_open self.new) }
        ensures known { OnOk result (is_sized self.new) }
        ensures no_size { OnOk result (size self.new ≡ 0) }
        ensures empty { OnOk result (tells → contents self.new ≡ []) }
        ensures cause { HasCause (faults self.old) (faults self.new) (IsErr result) };

    /// Takes the file that `create` made away again and closes it. Where that fails it stays, with whatever it holds.
    fn remove(&mut self)
        ensures empty { tells → contents self.new ≡ [] }
        ensures no_fault { faults self.new ≡ faults self.old };

    /// The length in bytes.
    fn len(&mut self) -> Result<u64, FileFault>
        requires { is_open self.old }
        ensures known { OnOk result (is_sized self.new) }
        ensures answer { IfOk result (λ count. count ≡ size self.new) }
        ensures still_durable { tells → is_durable self.old → is_durable self.new }
        ensures same { SameFile is_open is_sized size tells contents self.old self.new }
        ensures cause { HasCause (faults self.old) (faults self.new) (IsErr result) };

    /// Cuts the file to a length, or fills it up with zeros. After `Failed` the length and the bytes past the
    /// smaller length are open. After want of memory all is as it was.
    fn set_len(&mut self, count: u64) -> Result<(), SetLenError>
        requires { is_open self.old }
        ensures known { OnOk result (is_sized self.new) }
        ensures new_size { OnOk result (size self.new ≡ count) }
        ensures new_contents { OnOk result (tells → contents self.new ≡ resized count (contents self.old)) }
        ensures front { IsErrOf result SetLenError.Failed → tells
            → take (min count (length (contents self.old))) (contents self.new) ≡ take (min count (length (contents self.old))) (contents self.old) }
        ensures still_open { is_open self.new }
        ensures same { IsErrOf result SetLenError.NoMemory → SameFile is_open is_sized size tells contents self.old self.new }
        ensures cause { HasCause (faults self.old) (faults self.new) (IsErrOf result SetLenError.Failed) };

    /// Reads the bytes from this offset on, all within the length. After a fault the bytes of `out` are open.
    fn read_at(&mut self, at: u64, out: &mut [u8]) -> Result<(), FileFault>
        requires opened { is_open self.old }
        requires known { is_sized self.old }
        requires within { at + length out.old ≤ size self.old }
        ensures bytes { OnOk result (tells → out.new ≡ take (length out.old) (drop at (contents self.old))) }
        ensures still_durable { tells → is_durable self.old → is_durable self.new }
        ensures same { SameFile is_open is_sized size tells contents self.old self.new }
        ensures cause { HasCause (faults self.old) (faults self.new) (IsErr result) };

    /// Writes bytes from this offset on, all within the length. After a fault the bytes of that range are open, and
    /// all else stays.
    fn write_at(&mut self, at: u64, bytes: &[u8]) -> Result<(), FileFault>
        requires opened { is_open self.old }
        requires known { is_sized self.old }
        requires within { at + length bytes.now ≤ size self.old }
        ensures written { OnOk result (tells → contents self.new ≡ patched at bytes.now (contents self.old)) }
        ensures after_fault { OnErr result (tells → SameOutside at (length bytes.now) (contents self.old) (contents self.new)) }
        ensures still_open { is_open self.new }
        ensures still_known { is_sized self.new }
        ensures same_size { size self.new ≡ size self.old }
        ensures cause { HasCause (faults self.old) (faults self.new) (IsErr result) };

    /// Makes all that was written durable.
    fn sync(&mut self) -> Result<(), FileFault>
        requires { is_open self.old }
        ensures durable { OnOk result (tells → is_durable self.new) }
        ensures same { SameFile is_open is_sized size tells contents self.old self.new }
        ensures cause { HasCause (faults self.old) (faults self.new) (IsErr result) };

    /// No bytes are there where no file is.
    ghost none: { (f : Self) → tells → is_absent f → contents f ≡ [] };

    /// The length is that of the bytes.
    ghost told: { (f : Self) → tells → is_sized f → length (contents f) ≡ size f };
}
