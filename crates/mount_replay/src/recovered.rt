// What is found again of a file from its recovery point.
ghost use Rattle.std.specs.Prelude.{◌≡◌, ◌+◌, ◌-◌, ◌*◌, ◌/◌, ◌^◌, ◌<◌, ◌≤◌, ◌++◌, true, length, All, OnOk, IfErr, IsErrOf, IsTrue};
ghost use Rattle.zone_image.specs.Counts.{HasCause};
ghost use Rattle.zone_image.specs.Image.{is_valid, zone_bytes, zone_of, offset_of};
ghost use Rattle.zone_image.specs.Infos.{info_at};
ghost use Rattle.zone_image.specs.Reads.{OnlyReads};
ghost use Rattle.log_model.specs.Frames.{extent_if_any, recovered_extents};
ghost use Rattle.mount_replay.specs.FrameWalk.{frame_start_of};
ghost use Rattle.mount_replay.specs.Payloads.{IsNoDamage};
ghost use Rattle.mount_replay.specs.Rules.{is_recovery_point_in, is_recovered_in, IsWrittenExtent};

use crate::error::ReplayError;
use crate::frames::{FrameStart, push, walk_frames};
use crate::rules::is_recovery_point;
use record_model::{Extent, FileEntry, NO_ACTIVE};
use std::alloc::{AllocError, Global};
use zone_image::{Geometry, ZoneInfo};
use zoned_device::ZonedDevice;

/// The extents that are found again from a file's recovery point go behind the others: the frames of a sparse file,
/// and of another all blocks that follow.
pub(crate) fn push_recovered<D: ZonedDevice>(
    alloc: Global,
    dev: &mut D,
    geometry: &Geometry,
    infos: &[ZoneInfo],
    entry: &FileEntry,
    extents: &mut Vec<Extent>,
) -> Result<(), ReplayError>
    requires is_known { D.known dev.old }
    requires same_geometry { geometry.now ≡ D.geometry dev.old }
    requires same_infos { infos.now ≡ D.infos dev.old }
    ensures found { OnOk result (D.tells → extents.new.items ≡ extents.old.items ++ recovered_extents (D.image dev.old) entry.now) }
    ensures only { IfErr result IsNoDamage }
    ensures lie { OnOk result (All (IsWrittenExtent geometry.now infos.now) extents.old.items → All (IsWrittenExtent geometry.now infos.now) extents.new.items) }
    ensures device { OnlyReads D.known D.geometry D.infos D.tells D.image D.tick D.since D.failed_changes dev.old dev.new }
    ensures cause { HasCause (D.faults dev.old) (D.faults dev.new) (IsErrOf result ReplayError.DevFault) }
{
    if !is_recovered(geometry, infos, entry) {
        return Ok(());
    }
    let from = frame_start(geometry, infos, entry.active);
    if !entry.sparse {
        push_rest(extents, geometry, from)?;
        return Ok(());
    }
    let mut block = vec![in alloc; 0; geometry.block as usize]?;
    walk_frames(dev, geometry, from, &mut block, extents)?;
    Ok(())
}

// The file has a recovery point, and it is one.
fn is_recovered(geometry: &Geometry, infos: &[ZoneInfo], entry: &FileEntry) -> bool
    requires valid { IsTrue (is_valid geometry.now) }
    requires zones { length infos.now ≡ geometry.now.zones }
    ensures { result ≡ is_recovered_in geometry.now infos.now entry.now }
{
    entry.active != NO_ACTIVE && is_recovery_point(geometry, infos, entry.active)
}

/// The zone of an address of the device.
pub(crate) fn zone_of(geometry: &Geometry, start: u64) -> u32
    requires valid { IsTrue (is_valid geometry.now) }
    requires is_zone { zone_of geometry.now start < geometry.now.zones }
    ensures { result ≡ zone_of geometry.now start }
{
    (start / (u64::from(geometry.zone_blocks) * u64::from(geometry.block))) as u32
}

// The block of its zone in which an address lies.
fn block_of(geometry: &Geometry, start: u64) -> u32
    requires { IsTrue (is_valid geometry.now) }
    ensures { result ≡ offset_of geometry.now start / geometry.now.block }
{
    let size = u64::from(geometry.zone_blocks) * u64::from(geometry.block);
    (start % size / u64::from(geometry.block)) as u32
}

// Where a walk from a recovery point begins.
fn frame_start(geometry: &Geometry, infos: &[ZoneInfo], start: u64) -> FrameStart
    requires valid { IsTrue (is_valid geometry.now) }
    requires zones { length infos.now ≡ geometry.now.zones }
    requires point { is_recovery_point_in geometry.now infos.now start ≡ true }
    ensures exact { result ≡ frame_start_of geometry.now infos.now start }
    ensures is_data { 3 ≤ result.zone }
    ensures is_zone { result.zone < geometry.now.zones }
    ensures place { result.start ≡ result.zone * zone_bytes geometry.now + result.first * geometry.now.block }
    ensures within { result.first ≤ result.written }
    ensures addresses { result.start + (result.written - result.first) * geometry.now.block + 8 < 2 ^ 64 }
{
    let zone = zone_of(geometry, start);
    FrameStart {
        zone,
        first: block_of(geometry, start),
        start,
        written: written_of(infos, zone),
    }
}

/// The written number of a zone.
pub(crate) fn written_of(infos: &[ZoneInfo], zone: u32) -> u32
    requires { zone < length infos.now }
    ensures { result ≡ (info_at infos.now zone).written }
{
    infos[zone as usize].written
}

// All blocks from there on as one extent, where there are any.
fn push_rest(
    extents: &mut Vec<Extent>,
    geometry: &Geometry,
    from: FrameStart,
) -> Result<(), AllocError>
    requires { from.first ≤ from.written }
    ensures { OnOk result (extents.new.items ≡ extents.old.items ++ extent_if_any from.start ((from.written - from.first) * geometry.now.block)) }
{
    let len = u64::from(from.written - from.first) * u64::from(geometry.block);
    if len != 0 {
        let rest = Extent {
            start: from.start,
            len,
        };
        push(extents, rest)?;
    }
    Ok(())
}
