// The command of a kind, with the values of its options.
ghost use Rattle.std.specs.Prelude.{◌≡◌, ◌&&◌, length, nat_le, option_map};
ghost use Rattle.std.specs.List.{list_all};
ghost use Rattle.record_model.specs.Name.{is_printable};
ghost use Rattle.command_model.specs.CommandLine as line;
ghost use Rattle.command_model.specs.CommandLine.{command_with, geometry_in, threshold_in};
ghost use Rattle.std.specs.Option.{option_copied};
ghost use Rattle.superblock_core.specs.Text.{is_aux_path};
ghost use Rattle.command_words.specs.Commands.{command_meant};
ghost use Rattle.command_words.specs.Settings.{settings_in};
ghost use Rattle.command_words.specs.Shapes.{verb_meant};

use crate::command::Command;
use crate::numbers::{number, percentage};
use crate::settings::Settings;
use crate::shapes::Verb;
use zone_image::Geometry;

/// A command of this kind with these options.
pub(crate) fn command_with<'a>(verb: Verb, seen: &Settings<'_, 'a>) -> Option<Command<'a>>
    ensures { option_map command_meant result ≡ command_with (verb_meant verb) (settings_in seen.now) }
{
    match verb {
        Verb::MakeImage => make_image(seen),
        Verb::MakeFs => make_fs(seen),
        Verb::ListFiles => list_files(seen),
        Verb::ShowSpace => show_space(seen),
        Verb::Dump => dump(seen),
        Verb::ShowInfo => show_info(seen),
        Verb::Backup => backup(seen),
        Verb::Restore => restore(seen),
        Verb::LinkFile => link_file(seen),
        Verb::RenameFile => rename_file(seen),
        Verb::DeleteFile => delete_file(seen),
    }
}

fn make_image<'a>(seen: &Settings<'_, 'a>) -> Option<Command<'a>>
    ensures { option_map command_meant result ≡ command_with line.Mkimage (settings_in seen.now) }
{
    let image = seen.value("--image")?;
    let geometry = geometry(seen)?;
    Some(Command::MakeImage {
        image,
        geometry,
        force: seen.is_set("--force"),
    })
}

fn make_fs<'a>(seen: &Settings<'_, 'a>) -> Option<Command<'a>>
    ensures { option_map command_meant result ≡ command_with line.Mkfs (settings_in seen.now) }
{
    let image = seen.value("--image")?;
    let aux_path = seen.value("--aux_path")?;
    if !is_aux_path(aux_path) {
        return None;
    }
    let finish_threshold = threshold(seen.value("--finish_threshold"))?;
    Some(Command::MakeFs {
        image,
        aux_path,
        finish_threshold,
        collect: seen.is_set("--enable_gc"),
        force: seen.is_set("--force"),
    })
}

fn list_files<'a>(seen: &Settings<'_, 'a>) -> Option<Command<'a>>
    ensures { option_map command_meant result ≡ command_with line.List_ (settings_in seen.now) }
{
    let image = seen.value("--image")?;
    Some(Command::ListFiles {
        image,
        prefix: seen.value("--path"),
    })
}

fn show_space<'a>(seen: &Settings<'_, 'a>) -> Option<Command<'a>>
    ensures { option_map command_meant result ≡ command_with line.Df (settings_in seen.now) }
{
    let image = seen.value("--image")?;
    Some(Command::ShowSpace { image })
}

fn dump<'a>(seen: &Settings<'_, 'a>) -> Option<Command<'a>>
    ensures { option_map command_meant result ≡ command_with line.Dump_ (settings_in seen.now) }
{
    let image = seen.value("--image")?;
    Some(Command::Dump { image })
}

fn show_info<'a>(seen: &Settings<'_, 'a>) -> Option<Command<'a>>
    ensures { option_map command_meant result ≡ command_with line.Info (settings_in seen.now) }
{
    let image = seen.value("--image")?;
    Some(Command::ShowInfo { image })
}

fn backup<'a>(seen: &Settings<'_, 'a>) -> Option<Command<'a>>
    ensures { option_map command_meant result ≡ command_with line.Backup_ (settings_in seen.now) }
{
    let image = seen.value("--image")?;
    let directory = seen.value("--path")?;
    Some(Command::Backup {
        image,
        directory,
        prefix: seen.value("--backup_path"),
    })
}

fn restore<'a>(seen: &Settings<'_, 'a>) -> Option<Command<'a>>
    ensures { option_map command_meant result ≡ command_with line.Restore_ (settings_in seen.now) }
{
    let image = seen.value("--image")?;
    let directory = seen.value("--path")?;
    Some(Command::Restore {
        image,
        directory,
        prefix: seen.value("--restore_path"),
    })
}

fn link_file<'a>(seen: &Settings<'_, 'a>) -> Option<Command<'a>>
    ensures { option_map command_meant result ≡ command_with line.Link_ (settings_in seen.now) }
{
    let image = seen.value("--image")?;
    let source = seen.value("--src_file")?;
    let target = seen.value("--dst_file")?;
    Some(Command::LinkFile {
        image,
        source,
        target,
    })
}

fn rename_file<'a>(seen: &Settings<'_, 'a>) -> Option<Command<'a>>
    ensures { option_map command_meant result ≡ command_with line.Rename_ (settings_in seen.now) }
{
    let image = seen.value("--image")?;
    let source = seen.value("--src_file")?;
    let target = seen.value("--dst_file")?;
    Some(Command::RenameFile {
        image,
        source,
        target,
    })
}

fn delete_file<'a>(seen: &Settings<'_, 'a>) -> Option<Command<'a>>
    ensures { option_map command_meant result ≡ command_with line.Delete_ (settings_in seen.now) }
{
    let image = seen.value("--image")?;
    let path = seen.value("--path")?;
    Some(Command::DeleteFile { image, path })
}

// The geometry that five options state.
fn geometry(seen: &Settings<'_, '_>) -> Option<Geometry>
    ensures { result ≡ geometry_in (settings_in seen.now) }
{
    let block = number(seen.value("--block")?)?;
    let zone_blocks = number(seen.value("--zone_blocks")?)?;
    let capacity = number(seen.value("--capacity")?)?;
    let zones = number(seen.value("--zones")?)?;
    let active_limit = number(seen.value("--active")?)?;
    Some(Geometry {
        block,
        zone_blocks,
        capacity,
        zones,
        active_limit,
    })
}

// A finish threshold, and 0 where none is given.
fn threshold(word: Option<&str>) -> Option<u32>
    ensures { result ≡ threshold_in (option_copied word.entry) }
{
    match word {
        None => Some(0),
        Some(word) => percentage(word),
    }
}

// Whether a word is an auxiliary path: 1 to 255 bytes without control characters.
fn is_aux_path(word: &str) -> bool
    ensures { result ≡ is_aux_path word.now }
{
    has_path_length(word) && has_no_control(word)
}

// Whether a word has 1 to 255 bytes.
fn has_path_length(word: &str) -> bool
    ensures { result ≡ (nat_le 1 (length word.now) && nat_le (length word.now) 255) }
{
    1 <= word.len() && word.len() <= 255
}

// Whether no byte is below 32 or 127.
fn has_no_control(word: &str) -> bool
    ensures { result ≡ list_all is_printable word.now }
{
    word.bytes().all(|b| 32 <= b && b != 127)
}
