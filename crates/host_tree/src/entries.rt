// The entries of a tree in memory.
ghost use Rattle.std.specs.Prelude.{◌≡◌, ◌<◌, ◌≤◌, [], ◌∷◌, ◌++◌, length, min, take, drop, Some, IfOk, OnOk, OnErr};
ghost use Rattle.host_tree.specs.HostFiles.{OthersSame, open_bytes};
ghost use Rattle.host_tree.specs.MemTreeState.{is_of, file_at, mode_of, open_in, empty_file, grown, extended, IsFound, IsThere};

use crate::host_file::HostFile;
use crate::host_path::HostPath;
use crate::host_tree::OpenMode;
use crate::mem_tree::Opened;
use record_model::Payload;
use std::alloc::{AllocError, Global};

/// The number of the entry that counts for a directory and a path, where there is one: the last that has them.
pub(crate) fn last_of(files: &[HostFile], dir: &str, path: &HostPath) -> Option<usize>
    ensures { IsFound files.now dir.now path.now result }
{
    let mut found = None;
    for (i, file) in files.iter().enumerate() {
        if is_of(file, dir, path) {
            found = Some(i);
        }
    }
    found
}

// Whether an entry is of this directory and path.
fn is_of(file: &HostFile, dir: &str, path: &HostPath) -> bool
    ensures { result ≡ is_of dir.now path.now file.now }
{
    file.dir.items() == dir.as_bytes() && file.path.items() == path.items()
}

// An empty file of a directory and a path.
fn empty_file(alloc: Global, dir: &str, path: &HostPath) -> Result<HostFile, AllocError>
    ensures { IfOk result (λ file. file ≡ empty_file dir.now path.now) }
{
    Ok(HostFile {
        dir: HostPath::from_text(alloc, dir)?,
        path: HostPath::from_text(alloc, path.as_str())?,
        bytes: Payload::from_vec(Vec::new(alloc)),
    })
}

/// Adds an empty file behind all entries, which is then what counts for its directory and path.
pub(crate) fn add_empty(
    alloc: Global,
    files: &mut Vec<HostFile>,
    dir: &str,
    path: &HostPath,
) -> Result<(), AllocError>
    ensures done { OnOk result (files.new.items ≡ files.old.items ++ empty_file dir.now path.now ∷ []) }
    ensures not_done { OnErr result (files.new.items ≡ files.old.items) }
    ensures which { OnOk result (open_in files.new.items Opened.Writing ≡ record { dir = dir.now; path = path.now; place = 0 }) }
    ensures empty { OnOk result (file_at files.new.items dir.now path.now ≡ Some []) }
    ensures others { OnOk result (OthersSame dir.now path.now (file_at files.old.items) (file_at files.new.items)) }
{
    let file = empty_file(alloc, dir, path)?;
    files.push(file)?;
    Ok(())
}

/// Adds bytes at the end of the last entry, which is the file that is written.
pub(crate) fn extend_open(
    alloc: Global,
    files: &mut Vec<HostFile>,
    opened: Opened,
    piece: &[u8],
) -> Result<(), AllocError>
    requires writing { mode_of opened ≡ OpenMode.Writing }
    requires there { IsThere files.old.items opened }
    ensures done { OnOk result (files.new.items ≡ extended files.old.items piece.now) }
    ensures not_done { OnErr result (files.new.items ≡ files.old.items) }
    ensures still_there { IsThere files.new.items opened }
    ensures added { OnOk result (file_at files.new.items (open_in files.old.items opened).dir (open_in files.old.items opened).path
        ≡ Some (open_bytes (file_at files.old.items) (open_in files.old.items opened) ++ piece.now)) }
    ensures others { OnOk result (OthersSame (open_in files.old.items opened).dir (open_in files.old.items opened).path (file_at files.old.items) (file_at files.new.items)) }
    ensures same_file { OnOk result (open_in files.new.items opened ≡ open_in files.old.items opened) }
{
    extend_last(alloc, files, piece)
}

// Adds bytes at the end of the last entry.
fn extend_last(alloc: Global, files: &mut Vec<HostFile>, piece: &[u8]) -> Result<(), AllocError>
    requires { 0 < length files.old.items }
    ensures done { OnOk result (files.new.items ≡ extended files.old.items piece.now) }
    ensures not_done { OnErr result (files.new.items ≡ files.old.items) }
    ensures long { length files.new.items ≡ length files.old.items }
{
    let last = files.len() - 1;
    grow(alloc, &mut files[last], piece)
}

// Adds bytes at the end of an entry.
fn grow(alloc: Global, file: &mut HostFile, piece: &[u8]) -> Result<(), AllocError>
    ensures done { OnOk result (file.new ≡ grown file.old piece.now) }
    ensures not_done { OnErr result (file.new ≡ file.old) }
{
    let bytes = joined(alloc, file.bytes.items(), piece)?;
    file.bytes = Payload::from_vec(bytes);
    Ok(())
}

// Some bytes and a piece behind them.
fn joined(alloc: Global, bytes: &[u8], piece: &[u8]) -> Result<Vec<u8>, AllocError>
    ensures { IfOk result (λ all. all.items ≡ bytes.now ++ piece.now) }
{
    let mut all = Vec::from_slice(alloc, bytes)?;
    all.extend_from_slice(piece)?;
    Ok(all)
}

/// Copies bytes from this place on into the first bytes of `out`, as many as fit, and answers how many.
pub(crate) fn copy_front(bytes: &[u8], place: usize, out: &mut [u8]) -> usize
    requires { place ≤ length bytes.now }
    ensures taken { result ≡ min (length out.old) (length (drop place bytes.now)) }
    ensures copied { take result out.new ≡ take result (drop place bytes.now) }
{
    let rest = &bytes[place..];
    let taken = out.len().min(rest.len());
    let front = &rest[..taken];
    out[..taken].copy_from_slice(front);
    taken
}
