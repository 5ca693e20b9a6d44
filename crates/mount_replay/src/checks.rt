// What is found again of the files of a table, and the rules on where files may lie.
ghost use Rattle.std.specs.Prelude.{◌≡◌, ◌++◌, ◌^◌, ◌<◌, None, length, map, All, IfOk, OnOk, IfErr, IsErrOf, IsTrue};
ghost use Rattle.std.specs.List.{AllZip, list_all};
ghost use Rattle.zone_image.specs.Counts.{HasCause};
ghost use Rattle.zone_image.specs.Image.{is_valid};
ghost use Rattle.zone_image.specs.Reads.{OnlyReads};
ghost use Rattle.log_model.specs.FileTable.{size_of};
ghost use Rattle.log_model.specs.Mounted.{all_extents, broken_rule, recovered_entry};
ghost use Rattle.mount_replay.specs.Payloads.{IsNoDamage};
ghost use Rattle.mount_replay.specs.Rules.{is_written_in, has_point_in, IsWrittenExtent};
ghost use Rattle.mount_replay.specs.Recovering.{IsBrokenAs, IsFound, sized};
ghost use Rattle.mount_replay.specs.SoundTables.{IsSoundTable};

use crate::error::ReplayError;
use crate::overlap::overlap;
use crate::recovered::push_recovered;
use crate::rules::{are_written, is_recovery_point};
use log_model::{Damage, DamageWhy};
use record_model::{Extent, Extents, FileEntry, NO_ACTIVE};
use std::alloc::{AllocError, Global};
use zone_image::{Geometry, ZoneInfo};
use zoned_device::ZonedDevice;

/// Where the rules on where files may lie are judged: a metadata zone, and the first block of the last record there.
#[derive(Clone, Copy)]
pub(crate) struct LastRecord {
    pub(crate) zone: u32,
    pub(crate) block: u32,
}

/// The files of a table get what is found again of them. `Damaged` comes exactly where they break a rule on where
/// files may lie, with the lowest.
pub(crate) fn found_files<D: ZonedDevice>(
    alloc: Global,
    dev: &mut D,
    geometry: &Geometry,
    infos: &[ZoneInfo],
    last: LastRecord,
    files: &mut [FileEntry],
) -> Result<(), ReplayError>
    requires is_known { D.known dev.old }
    requires same_geometry { geometry.now ≡ D.geometry dev.old }
    requires same_infos { infos.now ≡ D.infos dev.old }
    requires sound { IsSoundTable files.old }
    ensures keeps { OnOk result (D.tells → broken_rule (D.image dev.old) files.old ≡ None) }
    ensures found { OnOk result (D.tells → files.new ≡ map (recovered_entry (D.image dev.old)) files.old) }
    ensures sound { OnOk result (IsSoundTable files.new) }
    ensures lie { OnOk result (All (IsWrittenExtent geometry.now infos.now) (all_extents files.new)) }
    ensures fits { OnOk result (size_of (all_extents files.new) < 2 ^ 64) }
    ensures damaged { IfErr result (λ e. D.tells → IsBrokenAs last.zone last.block (broken_rule (D.image dev.old) files.old) e) }
    ensures device { OnlyReads D.known D.geometry D.infos D.tells D.image D.tick D.since D.failed_changes dev.old dev.new }
    ensures cause { HasCause (D.faults dev.old) (D.faults dev.new) (IsErrOf result ReplayError.DevFault) }
{
    if !are_all_written(geometry, infos, files) {
        return Err(broken(last, 8));
    }
    let have_points = have_points(geometry, infos, files);
    match recover_files(alloc, dev, geometry, infos, files) {
        Ok(()) => {}
        Err(e) => return Err(e),
    }
    let mut extents = all_extents(alloc, files)?;
    if overlap(&mut extents) {
        return Err(broken(last, 9));
    }
    if !have_points {
        return Err(broken(last, 10));
    }
    set_sizes(files);
    Ok(())
}

// Damage by a rule.
fn broken(last: LastRecord, rule: u8) -> ReplayError
    ensures { result ≡ ReplayError.Damaged (record { zone = last.zone; block = last.block; why = DamageWhy.Rule rule }) }
{
    ReplayError::Damaged(Damage {
        zone: last.zone,
        block: last.block,
        why: DamageWhy::Rule(rule),
    })
}

// Whether each extent of each file lies within the written part of one data zone.
fn are_all_written(geometry: &Geometry, infos: &[ZoneInfo], files: &[FileEntry]) -> bool
    requires valid { IsTrue (is_valid geometry.now) }
    requires zones { length infos.now ≡ geometry.now.zones }
    ensures { result ≡ list_all (λ e. list_all (is_written_in geometry.now infos.now) e.extents) files.now }
{
    files
        .iter()
        .all(|file| are_written(geometry, infos, file.extents.items()))
}

// Whether each recovery point is one.
fn have_points(geometry: &Geometry, infos: &[ZoneInfo], files: &[FileEntry]) -> bool
    requires valid { IsTrue (is_valid geometry.now) }
    requires zones { length infos.now ≡ geometry.now.zones }
    ensures { result ≡ list_all (has_point_in geometry.now infos.now) files.now }
{
    files.iter().all(|file| has_point(geometry, infos, file))
}

// Whether the recovery point of a file is one, if it has any.
fn has_point(geometry: &Geometry, infos: &[ZoneInfo], file: &FileEntry) -> bool
    requires valid { IsTrue (is_valid geometry.now) }
    requires zones { length infos.now ≡ geometry.now.zones }
    ensures { result ≡ has_point_in geometry.now infos.now file.now }
{
    file.active == NO_ACTIVE || is_recovery_point(geometry, infos, file.active)
}

// Each file gets the extents that are found again from its recovery point.
fn recover_files<D: ZonedDevice>(
    alloc: Global,
    dev: &mut D,
    geometry: &Geometry,
    infos: &[ZoneInfo],
    files: &mut [FileEntry],
) -> Result<(), ReplayError>
    requires is_known { D.known dev.old }
    requires same_geometry { geometry.now ≡ D.geometry dev.old }
    requires same_infos { infos.now ≡ D.infos dev.old }
    ensures only { IfErr result IsNoDamage }
    ensures found { OnOk result (AllZip (IsFound D.tells geometry.now infos.now (D.image dev.old)) files.old files.new) }
    ensures device { OnlyReads D.known D.geometry D.infos D.tells D.image D.tick D.since D.failed_changes dev.old dev.new }
    ensures cause { HasCause (D.faults dev.old) (D.faults dev.new) (IsErrOf result ReplayError.DevFault) }
{
    for i in 0..files.len() {
        let file = &mut files[i];
        recover_file(alloc, dev, geometry, infos, file)?;
    }
    Ok(())
}

// A file gets the extents that are found again from its recovery point.
fn recover_file<D: ZonedDevice>(
    alloc: Global,
    dev: &mut D,
    geometry: &Geometry,
    infos: &[ZoneInfo],
    file: &mut FileEntry,
) -> Result<(), ReplayError>
    requires is_known { D.known dev.old }
    requires same_geometry { geometry.now ≡ D.geometry dev.old }
    requires same_infos { infos.now ≡ D.infos dev.old }
    ensures only { IfErr result IsNoDamage }
    ensures found { OnOk result (IsFound D.tells geometry.now infos.now (D.image dev.old) file.old file.new) }
    ensures device { OnlyReads D.known D.geometry D.infos D.tells D.image D.tick D.since D.failed_changes dev.old dev.new }
    ensures cause { HasCause (D.faults dev.old) (D.faults dev.new) (IsErrOf result ReplayError.DevFault) }
{
    let mut extents = Vec::from_slice(alloc, file.extents.items())?;
    push_recovered(alloc, dev, geometry, infos, file, &mut extents)?;
    file.extents = Extents::from_vec(extents);
    Ok(())
}

// The extents of all files.
fn all_extents(alloc: Global, files: &[FileEntry]) -> Result<Vec<Extent>, AllocError>
    ensures { IfOk result (λ all. all.items ≡ all_extents files.now) }
{
    let mut all = Vec::new(alloc);
    for file in files {
        all.extend_from_slice(file.extents.items())?;
    }
    Ok(all)
}

// Each file gets the size of its extents.
fn set_sizes(files: &mut [FileEntry])
    requires { size_of (all_extents files.old) < 2 ^ 64 }
    ensures { files.new ≡ map sized files.old }
{
    for i in 0..files.len() {
        let file = &mut files[i];
        set_size(file);
    }
}

// A file gets the size of its extents.
fn set_size(file: &mut FileEntry)
    requires { size_of file.old.extents < 2 ^ 64 }
    ensures { file.new ≡ sized file.old }
{
    file.size = size_of(file.extents.items());
}

// The sum of the lengths.
fn size_of(extents: &[Extent]) -> u64
    requires { size_of extents.now < 2 ^ 64 }
    ensures { result ≡ size_of extents.now }
{
    extents.iter().map(|extent| extent.len).sum()
}
