// The command of a kind, with the values that clap found.
ghost use Rattle.std.specs.Prelude.{◌≡◌, ◌&&◌, length, nat_le, option_map};
ghost use Rattle.std.specs.List.{list_all};
ghost use Rattle.std.specs.Option.{option_copied};
ghost use Rattle.record_model.specs.Name.{is_printable};
ghost use Rattle.superblock_core.specs.Text.{is_aux_path};
ghost use Rattle.command_model.specs.CommandLine as line;
ghost use Rattle.command_model.specs.CommandLine.{command_with, geometry_in, threshold_in};
ghost use Rattle.command_words.specs.Commands.{command_meant};
ghost use Rattle.clap_words.specs.Found.{settings_in};
ghost use Rattle.clap_words.specs.Told.{verb_in};

use crate::found::{is_given, value};
use crate::numbers::{number, percentage};
use clap::ArgMatches;
use command_words::Command;
use zone_image::Geometry;

/// The command that clap found, of the same kind as this one.
pub(crate) fn command_found<'a>(kind: &Command<'_>, found: &ArgMatches<'a>) -> Option<Command<'a>>
    ensures { option_map command_meant result ≡ command_with (verb_in (command_meant kind.now)) (settings_in found.now) }
{
    match kind {
        Command::MakeImage { .. } => make_image(found),
        Command::MakeFs { .. } => make_fs(found),
        Command::ListFiles { .. } => list_files(found),
        Command::ShowSpace { .. } => show_space(found),
        Command::Dump { .. } => dump(found),
        Command::ShowInfo { .. } => show_info(found),
        Command::Backup { .. } => backup(found),
        Command::Restore { .. } => restore(found),
        Command::LinkFile { .. } => link_file(found),
        Command::RenameFile { .. } => rename_file(found),
        Command::DeleteFile { .. } => delete_file(found),
    }
}

fn make_image<'a>(found: &ArgMatches<'a>) -> Option<Command<'a>>
    ensures { option_map command_meant result ≡ command_with line.Mkimage (settings_in found.now) }
{
    let image = value(found, "image")?;
    let geometry = geometry(found)?;
    Some(Command::MakeImage {
        image,
        geometry,
        force: is_given(found, "force"),
    })
}

fn make_fs<'a>(found: &ArgMatches<'a>) -> Option<Command<'a>>
    ensures { option_map command_meant result ≡ command_with line.Mkfs (settings_in found.now) }
{
    let image = value(found, "image")?;
    let aux_path = value(found, "aux_path")?;
    if !is_aux_path(aux_path) {
        return None;
    }
    let finish_threshold = threshold(value(found, "finish_threshold"))?;
    Some(Command::MakeFs {
        image,
        aux_path,
        finish_threshold,
        collect: is_given(found, "enable_gc"),
        force: is_given(found, "force"),
    })
}

fn list_files<'a>(found: &ArgMatches<'a>) -> Option<Command<'a>>
    ensures { option_map command_meant result ≡ command_with line.List_ (settings_in found.now) }
{
    let image = value(found, "image")?;
    Some(Command::ListFiles {
        image,
        prefix: value(found, "path"),
    })
}

fn show_space<'a>(found: &ArgMatches<'a>) -> Option<Command<'a>>
    ensures { option_map command_meant result ≡ command_with line.Df (settings_in found.now) }
{
    let image = value(found, "image")?;
    Some(Command::ShowSpace { image })
}

fn dump<'a>(found: &ArgMatches<'a>) -> Option<Command<'a>>
    ensures { option_map command_meant result ≡ command_with line.Dump_ (settings_in found.now) }
{
    let image = value(found, "image")?;
    Some(Command::Dump { image })
}

fn show_info<'a>(found: &ArgMatches<'a>) -> Option<Command<'a>>
    ensures { option_map command_meant result ≡ command_with line.Info (settings_in found.now) }
{
    let image = value(found, "image")?;
    Some(Command::ShowInfo { image })
}

fn backup<'a>(found: &ArgMatches<'a>) -> Option<Command<'a>>
    ensures { option_map command_meant result ≡ command_with line.Backup_ (settings_in found.now) }
{
    let image = value(found, "image")?;
    let directory = value(found, "path")?;
    Some(Command::Backup {
        image,
        directory,
        prefix: value(found, "backup_path"),
    })
}

fn restore<'a>(found: &ArgMatches<'a>) -> Option<Command<'a>>
    ensures { option_map command_meant result ≡ command_with line.Restore_ (settings_in found.now) }
{
    let image = value(found, "image")?;
    let directory = value(found, "path")?;
    Some(Command::Restore {
        image,
        directory,
        prefix: value(found, "restore_path"),
    })
}

fn link_file<'a>(found: &ArgMatches<'a>) -> Option<Command<'a>>
    ensures { option_map command_meant result ≡ command_with line.Link_ (settings_in found.now) }
{
    let image = value(found, "image")?;
    let source = value(found, "src_file")?;
    let target = value(found, "dst_file")?;
    Some(Command::LinkFile {
        image,
        source,
        target,
    })
}

fn rename_file<'a>(found: &ArgMatches<'a>) -> Option<Command<'a>>
    ensures { option_map command_meant result ≡ command_with line.Rename_ (settings_in found.now) }
{
    let image = value(found, "image")?;
    let source = value(found, "src_file")?;
    let target = value(found, "dst_file")?;
    Some(Command::RenameFile {
        image,
        source,
        target,
    })
}

fn delete_file<'a>(found: &ArgMatches<'a>) -> Option<Command<'a>>
    ensures { option_map command_meant result ≡ command_with line.Delete_ (settings_in found.now) }
{
    let image = value(found, "image")?;
    let path = value(found, "path")?;
    Some(Command::DeleteFile { image, path })
}

// The geometry that five options state.
fn geometry(found: &ArgMatches<'_>) -> Option<Geometry>
    ensures { result ≡ geometry_in (settings_in found.now) }
{
    let block = number(value(found, "block")?)?;
    let zone_blocks = number(value(found, "zone_blocks")?)?;
    let capacity = number(value(found, "capacity")?)?;
    let zones = number(value(found, "zones")?)?;
    let active_limit = number(value(found, "active")?)?;
    Some(Geometry {
        block,
        zone_blocks,
        capacity,
        zones,
        active_limit,
    })
}

// A finish threshold, and 0 where none is given.
fn threshold(word: Option<&str>) -> Option<u32>
    ensures { result ≡ threshold_in (option_copied word.entry) }
{
    match word {
        None => Some(0),
        Some(word) => percentage(word),
    }
}

// Whether a text is an auxiliary path: 1 to 255 bytes without control characters.
fn is_aux_path(word: &str) -> bool
    ensures { result ≡ is_aux_path word.now }
{
    has_path_length(word) && has_no_control(word)
}

// Whether a text has 1 to 255 bytes.
fn has_path_length(word: &str) -> bool
    ensures { result ≡ (nat_le 1 (length word.now) && nat_le (length word.now) 255) }
{
    1 <= word.len() && word.len() <= 255
}

// Whether no byte is below 32 or 127.
fn has_no_control(word: &str) -> bool
    ensures { result ≡ list_all is_printable word.now }
{
    word.bytes().all(|b| 32 <= b && b != 127)
}
