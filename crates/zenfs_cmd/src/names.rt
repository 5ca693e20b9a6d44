// The names of a change.
ghost use Rattle.std.specs.Prelude.{◌≡◌, [], ◌∷◌, true, None, OnOk, IfOk, IfErr};
ghost use Rattle.record_model.specs.Name.{is_name};
ghost use Rattle.command_model.specs.CommandLine.{bad_name_of, first_bad_name};
ghost use Rattle.command_model.specs.Options.{Word};
ghost use Rattle.zenfs_cmd.specs.Names.{command_named};
ghost use Rattle.zenfs_cmd.specs.Reasons.{IsNameRefused};
ghost use Rattle.zenfs_cmd.specs.Words.{command_asked};

use crate::words::Asked;
use fs_core::Change;
use fs_report::Cause;
use record_model::{Name, NameError};
use std::alloc::Global;

/// Reads the names of a change, the source first. `BadName` comes with the first of them that is none.
#[tactic(auto, unfolding(command_model::specs::CommandLine::bad_name_of))]
pub(crate) fn read_names<'a>(alloc: Global, asked: Asked<'a>) -> Result<Change, Cause<'a>>
    ensures read { (at : Word) → IfOk result (λ change. command_named at change ≡ command_asked at asked.entry) }
    ensures named { (at : Word) → OnOk result (bad_name_of (command_asked at asked.entry) ≡ None) }
    ensures refused { (at : Word) → IfErr result (IsNameRefused (bad_name_of (command_asked at asked.entry))) }
{
    match asked {
        Asked::Link { source, target } => {
            let (old, new) = read_both(alloc, source, target)?;
            Ok(Change::Link { old, new })
        }
        Asked::Rename { source, target } => {
            let (old, new) = read_both(alloc, source, target)?;
            Ok(Change::Rename { old, new })
        }
        Asked::Delete { path } => {
            let name = read_name(alloc, path)?;
            Ok(Change::Unlink { name })
        }
    }
}

// Reads two names.
fn read_both<'a>(alloc: Global, source: &'a str, target: &'a str) -> Result<(Name, Name), Cause<'a>>
    ensures source { IfOk result (λ names. names.0 ≡ source.now) }
    ensures target { IfOk result (λ names. names.1 ≡ target.now) }
    ensures good_source { OnOk result (is_name source.now ≡ true) }
    ensures good_target { OnOk result (is_name target.now ≡ true) }
    ensures refused { IfErr result (IsNameRefused (first_bad_name (source.now ∷ target.now ∷ []))) }
{
    let old = read_name(alloc, source)?;
    let new = read_name(alloc, target)?;
    Ok((old, new))
}

// Reads a name.
fn read_name<'a>(alloc: Global, path: &'a str) -> Result<Name, Cause<'a>>
    ensures name { IfOk result (λ name. name ≡ path.now) }
    ensures good { OnOk result (is_name path.now ≡ true) }
    ensures refused { IfErr result (IsNameRefused (first_bad_name (path.now ∷ []))) }
{
    match Name::read(alloc, path) {
        Ok(name) => Ok(name),
        Err(NameError::BadName) => Err(Cause::BadName(path)),
        Err(NameError::NoMemory) => Err(Cause::NoMemory),
    }
}
