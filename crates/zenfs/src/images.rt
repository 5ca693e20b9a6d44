// The image file that the words name, and how it is opened.
ghost use Rattle.std.specs.Prelude.{◌≡◌, [], None, false, IfOk, IfErr, map, string_bytes};
ghost use Rattle.std.specs.Option.{unwrap_or};
ghost use Rattle.command_model.specs.CommandLine.{image_path};
ghost use Rattle.image_backend.specs.Accesses.{is_change};
ghost use Rattle.image_backend.specs.ImageState.{no_counts};
ghost use Rattle.zenfs_cmd.specs.Words.{changes, command_in};
ghost use Rattle.fs_report.specs.declared.cause.Cause.TheVariants as Cause;

use crate::access::access_of;
use image_backend::{DiskFile, ImageZones};
use zenfs_cmd::{Cause, image_path};

// A device over the image file that the words name, which isn't opened yet. It is to be changed exactly where the words
// are a command that changes it, and else it is only read.
pub(crate) fn zones_of(
    rt: HostRuntime,
    words: &[String],
) -> Result<ImageZones<DiskFile<HostRuntime>>, Cause<'static>>
    ensures named { IfOk result (λ z. z.file.path ≡ unwrap_or (image_path (map string_bytes words.now)) []) }
    ensures access { IfOk result (λ z. is_change z.file.access ≡ changes (command_in (map string_bytes words.now))) }
    ensures fresh { IfOk result (λ z. z ≡ record { file = record { path = z.file.path; access = z.file.access; opened = false; missing = false; size = None; faults = 0 }; table = None; counts = no_counts }) }
    ensures memory { IfErr result (λ cause. cause ≡ Cause.NoMemory) }
{
    let alloc = rt.alloc();
    let named = image_path(words).unwrap_or("");
    let path = String::from_str(alloc, named).map_err(|_| Cause::NoMemory)?;
    Ok(ImageZones::new(alloc, DiskFile::new(rt, path, access_of(words))))
}
