// The tree of files that a backup is written to, or read from.
ghost use Rattle.std.specs.Prelude.{◌≡◌, ◌≢◌, ◌+◌, ◌≤◌, ℕ, List, [], ◌++◌, length, take, Option, Some, IsSome, IfOk, OnOk, OnErr, IsErrOf};
ghost use Rattle.zone_image.specs.Counts.{HasCause, Rose};
ghost use Rattle.host_tree.specs.HostFiles.{OpenFile, open_bytes, unread, IsListing, OthersSame, SameOpen, SameFile};

use crate::host_path::HostPath;
use std::alloc::{AllocError, Global};
use thiserror::Error;

/// Why a call of a host tree doesn't end well.
#[derive(Clone, Copy, Debug, PartialEq, Eq, Drop, Error)]
pub enum HostError {
    /// The host failed. It comes only where the count of faults rose.
    #[error("the host failed")]
    Fault,
    /// Memory is wanting.
    #[error("out of memory")]
    NoMemory,
}

impl From<AllocError> for HostError {
    ghost use Rattle.host_tree.specs.declared.host_tree.HostError.TheVariants as host_error;

    ghost from_gives = { λ _ e. e ≡ host_error.NoMemory };

    fn from(_: AllocError) -> HostError {
        HostError::NoMemory
    }
}

/// What a file of a host tree is open for.
#[derive(Clone, Copy, Debug, PartialEq, Eq)]
pub enum OpenMode {
    /// No file is open.
    Closed,
    /// A file is open, and its bytes are read one behind the other.
    Reading,
    /// A file is open, and bytes are added at its end.
    Writing,
}

/// Directories with files of bytes. Each file has a directory and a relative path in it. One file is open at a time.
///
/// `Fault` comes only where the count of faults rose in that call.
pub trait HostTree: Drop {
    ghost use Rattle.host_tree.specs.declared.host_tree.OpenMode.{OpenMode};

    /// Holds where this kind of tree tells its files.
    ghost tells: { Type 0 };

    /// The bytes of the file of a directory and a path, where there is one. They mean something only where the tree
    /// tells them.
    ghost files: { Self → List ℕ → List ℕ → Option (List ℕ) };

    /// What a file is open for.
    ghost mode: { Self → OpenMode };

    /// Which file is open, and the place of the next byte to be read. They mean something only while a file is open,
    /// and where the tree tells its files.
    ghost at: { Self → OpenFile };

    /// How often the host failed.
    ghost faults: { Self → ℕ };

    /// The relative paths of a directory's regular files, each once and in byte order. It changes nothing.
    fn list(&mut self, alloc: Global, dir: &str) -> Result<Vec<HostPath>, HostError>
        ensures listing { IfOk result (λ paths. tells → IsListing (files self.old) dir.now paths.items) }
        ensures same_files { tells → files self.new ≡ files self.old }
        ensures same_open { SameOpen tells (mode self.old) (mode self.new) (at self.old) (at self.new) }
        ensures cause { HasCause (faults self.old) (faults self.new) (IsErrOf result HostError.Fault) };

    /// Opens a file for reading at its start. The file is there, where the tree tells its files. Whatever was open is
    /// no longer; after an error no file is open.
    fn open(&mut self, dir: &str, path: &HostPath) -> Result<(), HostError>
        requires there { tells → IsSome (files self.old dir.now path.now) }
        ensures for_reading { OnOk result (mode self.new ≡ OpenMode.Reading) }
        ensures at_start { OnOk result (tells → at self.new ≡ record { dir = dir.now; path = path.now; place = 0 }) }
        ensures none_open { OnErr result (mode self.new ≡ OpenMode.Closed) }
        ensures same_files { tells → files self.new ≡ files self.old }
        ensures cause { HasCause (faults self.old) (faults self.new) (IsErrOf result HostError.Fault) };

    /// Reads the next bytes of the open file into the first bytes of `out`, and answers how many: none exactly at the
    /// file's end, or where `out` is empty. After an error the place is open, and so are the bytes of `out`.
    fn read(&mut self, out: &mut [u8]) -> Result<usize, HostError>
        requires { mode self.old ≡ OpenMode.Reading }
        ensures within { IfOk result (λ n. n ≤ length out.old) }
        ensures there { IfOk result (λ n. tells → n ≤ length (unread (files self.old) (at self.old))) }
        ensures bytes { IfOk result (λ n. tells → take n out.new ≡ take n (unread (files self.old) (at self.old))) }
        ensures ended { IfOk result (λ n. n ≡ 0 → out.old ≢ [] → tells → unread (files self.old) (at self.old) ≡ []) }
        ensures moved { IfOk result (λ n. tells → at self.new ≡ record (at self.old) { place = (at self.old).place + n }) }
        ensures same_file { SameFile tells (mode self.old) (mode self.new) (at self.old) (at self.new) }
        ensures same_files { tells → files self.new ≡ files self.old }
        ensures cause { HasCause (faults self.old) (faults self.new) (IsErrOf result HostError.Fault) };

    /// Opens an empty file for writing: its parents are made, and a file that is there is emptied. Whatever was open
    /// is no longer; after an error no file is open, and nothing is known of the file. All others stay in any case.
    fn create(&mut self, dir: &str, path: &HostPath) -> Result<(), HostError>
        ensures for_writing { OnOk result (mode self.new ≡ OpenMode.Writing) }
        ensures which_dir { OnOk result (tells → (at self.new).dir ≡ dir.now) }
        ensures which_path { OnOk result (tells → (at self.new).path ≡ path.now) }
        ensures empty { OnOk result (tells → files self.new dir.now path.now ≡ Some []) }
        ensures none_open { OnErr result (mode self.new ≡ OpenMode.Closed) }
        ensures others { tells → OthersSame dir.now path.now (files self.old) (files self.new) }
        ensures cause { HasCause (faults self.old) (faults self.new) (IsErrOf result HostError.Fault) };

    /// Adds first bytes of the piece at the end of the open file, and answers how many. After an error nothing is
    /// known of that file's bytes. All other files stay in any case. The count of faults rises also in a call that
    /// takes nothing of a piece that isn't empty.
    fn write(&mut self, piece: &[u8]) -> Result<usize, HostError>
        requires { mode self.old ≡ OpenMode.Writing }
        ensures within { IfOk result (λ n. n ≤ length piece.now) }
        ensures added { IfOk result (λ n. tells → files self.new (at self.old).dir (at self.old).path
            ≡ Some (open_bytes (files self.old) (at self.old) ++ take n piece.now)) }
        ensures others { tells → OthersSame (at self.old).dir (at self.old).path (files self.old) (files self.new) }
        ensures same_file { SameFile tells (mode self.old) (mode self.new) (at self.old) (at self.new) }
        ensures cause { HasCause (faults self.old) (faults self.new) (IsErrOf result HostError.Fault) }
        ensures stuck { IfOk result (λ n. n ≡ 0 → piece.now ≢ [] → Rose (faults self.old) (faults self.new)) };

    /// Closes the open file. No file is open then, whatever it answers.
    fn close(&mut self) -> Result<(), HostError>
        requires { mode self.old ≢ OpenMode.Closed }
        ensures none_open { mode self.new ≡ OpenMode.Closed }
        ensures same_files { tells → files self.new ≡ files self.old }
        ensures cause { HasCause (faults self.old) (faults self.new) (IsErrOf result HostError.Fault) };
}
