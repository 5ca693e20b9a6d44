// The paths of a directory in memory, in order.
ghost use Rattle.std.specs.Prelude.{◌≡◌, IfOk};
ghost use Rattle.host_tree.specs.HostFiles.{IsListing};
ghost use Rattle.host_tree.specs.MemTreeState.{is_in, file_at, paths_in};

use crate::host_file::HostFile;
use crate::host_path::HostPath;
use std::alloc::{AllocError, Global};

/// The paths of a directory's files in byte order, each once.
pub(crate) fn listing(
    alloc: Global,
    files: &[HostFile],
    dir: &str,
) -> Result<Vec<HostPath>, AllocError>
    ensures { IfOk result (λ paths. IsListing (file_at files.now) dir.now paths.items) }
{
    let mut paths = paths_in(alloc, files, dir)?;
    paths.sort_unstable();
    paths.dedup();
    Ok(paths)
}

// The paths of a directory's entries, as they stand.
fn paths_in(alloc: Global, files: &[HostFile], dir: &str) -> Result<Vec<HostPath>, AllocError>
    ensures { IfOk result (λ paths. paths.items ≡ paths_in files.now dir.now) }
{
    let mut paths = Vec::new(alloc);
    for file in files {
        if is_in(file, dir) {
            paths.push(HostPath::from_text(alloc, file.path.as_str())?)?;
        }
    }
    Ok(paths)
}

// Whether an entry is of this directory.
fn is_in(file: &HostFile, dir: &str) -> bool
    ensures { result ≡ is_in dir.now file.now }
{
    file.dir.items() == dir.as_bytes()
}
