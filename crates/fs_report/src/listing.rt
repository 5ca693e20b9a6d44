// The list of names.
ghost use Rattle.std.specs.Prelude.{◌≡◌, List, [], ◌∷◌, ◌++◌, map, decimal, flat_map, string_bytes, IfOk, OnOk};
ghost use Rattle.std.specs.Option.{option_copied};
ghost use Rattle.command_model.specs.ReportTexts.{in_twelve, list_line, list_text, listed_in_order, listed_names};
ghost use Rattle.record_model.specs.declared.types.FileEntry.{FileEntry};
ghost use Rattle.fs_report.specs.Lines.{folder_of, listed_of, listed_text};

use record_model::{FileEntry, Name, Payload};
use std::alloc::{AllocError, Global};

/// One line of the list: a name with the size and the time of its file.
#[derive(Clone, Copy, Debug)]
pub struct Line<'a> {
    name: &'a [u8],
    size: u64,
    time: u64,
}

// The lines of some files, in the order in which their names stand.
fn lines_of<'a>(alloc: Global, files: &'a [FileEntry]) -> Result<Vec<Line<'a>>, AllocError>
    ensures { IfOk result (λ lines. map listed_of lines.items ≡ flat_map listed_names files.now) }
{
    let mut lines = Vec::new(alloc);
    for file in files {
        push_lines(&mut lines, file)?;
    }
    Ok(lines)
}

/// Adds the lines of a file, one for each of its names.
pub fn push_lines<'a>(lines: &mut Vec<Line<'a>>, file: &'a FileEntry) -> Result<(), AllocError>
    ensures { OnOk result (map listed_of lines.new.items ≡ map listed_of lines.old.items ++ listed_names file.now) }
{
    for name in file.names.items() {
        lines.push(Line {
            name: name.items(),
            size: file.size,
            time: file.time,
        })?;
    }
    Ok(())
}

// Sorts lines by the bytes of their names; lines of one name keep their order.
fn sort_lines(lines: &mut Vec<Line<'_>>) -> Result<(), AllocError>
    ensures { OnOk result (map listed_of lines.new.items ≡ listed_in_order (map listed_of lines.old.items)) }
{
    lines.sort_by(|a, b| a.name.cmp(b.name))
}

// The size to the right in twelve places, a tab, the time, and a tab.
fn numbers_text(alloc: Global, size: u64, time: u64) -> Result<String, AllocError>
    ensures { IfOk result (λ text. string_bytes text ≡ in_twelve size ++ 9 ∷ decimal time ++ 9 ∷ []) }
{
    format!(in alloc; "{size:>12}\t{time}\t")
}

// Adds a line's text.
fn push_text(alloc: Global, text: &mut Vec<u8>, line: &Line<'_>) -> Result<(), AllocError>
    ensures { OnOk result (text.new.items ≡ text.old.items ++ list_line (listed_of line.now)) }
{
    let numbers = numbers_text(alloc, line.size, line.time)?;
    text.extend_from_slice(numbers.as_bytes())?;
    text.extend_from_slice(line.name)?;
    text.push(b'\n')?;
    Ok(())
}

// What the names begin with that are listed: the prefix and a slash, or nothing.
fn folder_of(alloc: Global, prefix: Option<&Name>) -> Result<Vec<u8>, AllocError>
    ensures { IfOk result (λ folder. folder.items ≡ folder_of (option_copied prefix.entry)) }
{
    let mut folder = Vec::new(alloc);
    if let Some(name) = prefix {
        folder.extend_from_slice(name.items())?;
        folder.push(b'/')?;
    }
    Ok(folder)
}

// Adds a line's text, if its name is listed.
fn push_listed(
    alloc: Global,
    text: &mut Vec<u8>,
    folder: &[u8],
    line: &Line<'_>,
) -> Result<(), AllocError>
    ensures { OnOk result (text.new.items ≡ text.old.items ++ listed_text folder.now (listed_of line.now)) }
{
    if line.name.starts_with(folder) {
        push_text(alloc, text, line)?;
    }
    Ok(())
}

// The texts of those lines that are listed, joined.
fn texts_of(alloc: Global, folder: &[u8], lines: &[Line<'_>]) -> Result<Vec<u8>, AllocError>
    ensures { IfOk result (λ text. text.items ≡ flat_map (λ line. listed_text folder.now (listed_of line)) lines.now) }
{
    let mut text = Vec::new(alloc);
    for line in lines {
        push_listed(alloc, &mut text, folder, line)?;
    }
    Ok(text)
}

/// What `list` prints of these files: for each name, in byte order, a line with the size to the right in
/// twelve places, the time in seconds and the name, with tabs between. With a prefix only those names
/// are listed that begin with it and a slash, whole.
pub fn list_text(
    alloc: Global,
    files: &[FileEntry],
    prefix: Option<&Name>,
) -> Result<Payload, AllocError>
    ensures { IfOk result (λ text. text ≡ list_text files.now (option_copied prefix.entry)) }
{
    let mut lines = lines_of(alloc, files)?;
    text_of_lines(alloc, &mut lines, prefix)
}

/// The same of the lines of some files, in whatever order they were added; they are sorted.
pub fn text_of_lines(
    alloc: Global,
    lines: &mut Vec<Line<'_>>,
    prefix: Option<&Name>,
) -> Result<Payload, AllocError>
    ensures { (files : List FileEntry) → map listed_of lines.old.items ≡ flat_map listed_names files
        → IfOk result (λ text. text ≡ list_text files (option_copied prefix.entry)) }
{
    sort_lines(lines)?;
    let folder = folder_of(alloc, prefix)?;
    Ok(Payload::from_vec(texts_of(alloc, &folder, lines)?))
}
