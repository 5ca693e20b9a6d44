//! Copies of what entries hold.

ghost use Rattle.std.specs.Prelude.{◌≡◌, ◌^◌, ◌<◌, IfOk, Some};
ghost use Rattle.log_model.specs.FileTable.{grown, size_of};

use record_model::{Extent, Extents, FileEntry, Name, Names};
use std::alloc::{AllocError, Global};

/// The same name.
pub(crate) fn copy_name(alloc: Global, name: &Name) -> Result<Name, AllocError>
    ensures { IfOk result (λ copy. copy ≡ name.now) }
{
    match Name::from_bytes(alloc, name.items()) {
        Ok(copy) => Ok(copy),
        Err(_) => Err(AllocError),
    }
}

/// The same names.
pub(crate) fn copy_names(alloc: Global, names: &Names) -> Result<Names, AllocError>
    ensures { IfOk result (λ copy. copy ≡ names.now) }
{
    let mut copies = Vec::new(alloc);
    for name in names.items() {
        copies.push(copy_name(alloc, name)?)?;
    }
    Ok(Names::from_vec(copies))
}

/// The list of the same extents.
pub(crate) fn copy_extents(alloc: Global, extents: &[Extent]) -> Result<Extents, AllocError>
    ensures { IfOk result (λ copy. copy ≡ extents.now) }
{
    Ok(Extents::from_vec(Vec::from_slice(alloc, extents)?))
}

/// The same entry.
pub(crate) fn copy_entry(alloc: Global, entry: &FileEntry) -> Result<FileEntry, AllocError>
    ensures { IfOk result (λ copy. copy ≡ entry.now) }
{
    copy_with(alloc, entry, entry.size, entry.extents.items())
}

/// The entry with another size and other extents.
pub(crate) fn copy_with(
    alloc: Global,
    entry: &FileEntry,
    size: u64,
    extents: &[Extent],
) -> Result<FileEntry, AllocError>
    ensures { IfOk result (λ copy. copy ≡ record (entry.now) { size = size; extents = extents.now }) }
{
    Ok(FileEntry {
        id: entry.id,
        size,
        hint: entry.hint,
        time: entry.time,
        active: entry.active,
        sparse: entry.sparse,
        extents: copy_extents(alloc, extents)?,
        names: copy_names(alloc, &entry.names)?,
    })
}

/// The entry with the extents of the file in front of its own.
pub(crate) fn copy_grown(
    alloc: Global,
    file: &FileEntry,
    entry: &FileEntry,
) -> Result<FileEntry, AllocError>
    ensures { IfOk result (λ copy. copy ≡ grown (Some file.now) entry.now) }
{
    let mut extents = Vec::from_slice(alloc, file.extents.items())?;
    extents.extend_from_slice(entry.extents.items())?;
    copy_with(alloc, entry, entry.size, &extents)
}

/// The sum of the lengths.
pub(crate) fn size_of(extents: &[Extent]) -> u64
    requires { size_of extents.now < 2 ^ 64 }
    ensures { result ≡ size_of extents.now }
{
    extents.iter().map(|extent| extent.len).sum()
}
