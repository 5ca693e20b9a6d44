// The values of JSON that a dump is built of.
ghost use Rattle.std.specs.Prelude.{◌≡◌, ◌∷◌, ◌++◌, [], true, false, map, IfOk, OnOk, OnErr};
ghost use Rattle.std.specs.List.{list_all};
ghost use Rattle.serde_json.specs.Data.{string};
ghost use Rattle.serde_json.specs.View.{view};
ghost use Rattle.serde_json.specs.Written.{compact_text, has_float};
ghost use Rattle.command_model.specs.DumpText.{dump_file, dump_zone};
ghost use Rattle.fs_report.specs.DumpState.{text_of_parts};
ghost use Rattle.fs_report.specs.DumpValues.{HaveNoFloat, array_data, extent_data, file_data, file_with, is_plain, texts_of, whole_data, zone_data};

use fs_model::ZoneState;
use record_model::{Extent, FileEntry, Name, Payload};
use serde_json::{Value, json};
use std::alloc::{AllocError, Global};

// The value of an extent.
fn extent_value(alloc: Global, extent: &Extent) -> Result<Value, AllocError>
    ensures { IfOk result (λ v. view v ≡ extent_data extent.now) }
{
    json!(in alloc; {"len": extent.len, "start": extent.start})
}

// The value of some extents.
fn extents_value(alloc: Global, extents: &[Extent]) -> Result<Value, AllocError>
    ensures { IfOk result (λ v. view v ≡ array_data (map extent_data extents.now)) }
{
    let mut values = Vec::new(alloc);
    for extent in extents {
        values.push(extent_value(alloc, extent)?)?;
    }
    Ok(Value::from(values))
}

// The text of a name.
fn text_of(name: &Name) -> &str
    ensures text { result.now ≡ name.now }
    ensures plain { is_plain name.now ≡ true }
{
    match str::from_utf8(name.items()) {
        Ok(text) => text,
        Err(_) => unreachable!(),
    }
}

// The value of a name.
fn name_value(alloc: Global, name: &Name) -> Result<Value, AllocError>
    ensures data { IfOk result (λ v. view v ≡ string name.now) }
    ensures plain { is_plain name.now ≡ true }
{
    Value::try_from_str(alloc, text_of(name))
}

// The value of some names.
fn names_value(alloc: Global, names: &[Name]) -> Result<Value, AllocError>
    ensures data { IfOk result (λ v. view v ≡ array_data (map string names.now)) }
    ensures plain { OnOk result (list_all is_plain names.now ≡ true) }
{
    let mut values = Vec::new(alloc);
    for name in names {
        values.push(name_value(alloc, name)?)?;
    }
    Ok(Value::from(values))
}

// The value of a file with these values of its extents and names.
fn file_object(
    alloc: Global,
    file: &FileEntry,
    extents: Value,
    names: Value,
) -> Result<Value, AllocError>
    ensures { IfOk result (λ v. view v ≡ file_with (view extents) (view names) file.now) }
{
    json!(in alloc; {
        "extents": extents,
        "hint": file.hint,
        "id": file.id,
        "names": names,
        "size": file.size,
        "sparse": file.sparse,
        "time": file.time
    })
}

// The value of a file, by its data.
fn file_built(alloc: Global, file: &FileEntry) -> Result<Value, AllocError>
    ensures data { IfOk result (λ v. view v ≡ file_data file.now) }
    ensures plain { OnOk result (list_all is_plain file.now.names ≡ true) }
{
    let extents = extents_value(alloc, file.extents.items())?;
    let names = names_value(alloc, file.names.items())?;
    let value = file_object(alloc, file, extents, names)?;
    Ok(value)
}

/// The value of a file. `AllocError` comes for want of memory.
pub(crate) fn file_value(alloc: Global, file: &FileEntry) -> Result<Value, AllocError>
    ensures text { IfOk result (λ v. compact_text (view v) ≡ dump_file file.now) }
    ensures whole { IfOk result (λ v. has_float (view v) ≡ false) }
{
    let value = file_built(alloc, file)?;
    Ok(value)
}

// The value of a zone with its number, by its data.
fn zone_built(alloc: Global, number: u32, zone: &ZoneState) -> Result<Value, AllocError>
    ensures { IfOk result (λ v. view v ≡ zone_data (number, zone.now)) }
{
    let info = zone.info;
    json!(in alloc; {
        "live": zone.live,
        "sealed": info.sealed,
        "written": info.written,
        "zone": number
    })
}

/// The value of a zone with its number. `AllocError` comes for want of memory.
pub(crate) fn zone_value(alloc: Global, number: u32, zone: &ZoneState) -> Result<Value, AllocError>
    ensures text { IfOk result (λ v. compact_text (view v) ≡ dump_zone (number, zone.now)) }
    ensures whole { IfOk result (λ v. has_float (view v) ≡ false) }
{
    let value = zone_built(alloc, number, zone)?;
    Ok(value)
}

/// Adds a value behind the others. After `AllocError`, which comes for want of memory, they are as before.
pub(crate) fn push_value(values: &mut Vec<Value>, value: Value) -> Result<(), AllocError>
    ensures texts { OnOk result (texts_of values.new.items ≡ texts_of values.old.items ++ compact_text (view value) ∷ []) }
    ensures whole { has_float (view value) ≡ false → HaveNoFloat values.old.items → HaveNoFloat values.new.items }
    ensures unchanged { OnErr result (values.new.items ≡ values.old.items) }
{
    serde_json::push(values, value)?;
    Ok(())
}

// The value of a dump of these files and zones.
fn whole_value(alloc: Global, files: Vec<Value>, zones: Vec<Value>) -> Result<Value, AllocError>
    ensures { IfOk result (λ v. view v ≡ whole_data (map view files.items) (map view zones.items)) }
{
    json!(in alloc; {"files": files, "zones": zones})
}

// The text of a value without floats, and a line feed.
fn line_of(alloc: Global, value: &Value) -> Result<Vec<u8>, AllocError>
    ensures { IfOk result (λ line. has_float (view value.now) ≡ false → line.items ≡ compact_text (view value.now) ++ 10 ∷ []) }
{
    let mut line = value.to_string(alloc)?.into_bytes();
    line.push(b'\n')?;
    Ok(line)
}

/// The text of a dump of these files and zones. `AllocError` comes for want of memory.
pub(crate) fn text_of_values(
    alloc: Global,
    files: Vec<Value>,
    zones: Vec<Value>,
) -> Result<Payload, AllocError>
    requires files { HaveNoFloat files.items }
    requires zones { HaveNoFloat zones.items }
    ensures { IfOk result (λ text. text ≡ text_of_parts (texts_of files.items) (texts_of zones.items)) }
{
    let value = whole_value(alloc, files, zones)?;
    Ok(Payload::from_vec(line_of(alloc, &value)?))
}
