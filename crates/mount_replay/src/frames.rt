// The frames of sparse files, read from a device.
ghost use Rattle.std.specs.Prelude.{◌≡◌, ◌+◌, ◌-◌, ◌*◌, ◌^◌, ◌<◌, ◌≤◌, ◌++◌, ◌∷◌, [], length, drop, take, All, IfOk, OnOk, IfErr, IfSome, IsErr, IsErrOf};
ghost use Rattle.std.specs.Int.{w64, from_le_bytes};
ghost use Rattle.zone_image.specs.Changes.{bytes_at};
ghost use Rattle.zone_image.specs.Counts.{HasCause};
ghost use Rattle.zone_image.specs.Image.{zone_at, zone_bytes};
ghost use Rattle.zone_image.specs.Infos.{info_at};
ghost use Rattle.zone_image.specs.Reads.{OnlyReads};
ghost use Rattle.mount_replay.specs.FrameWalk.{frame_of, frame_in, frames_from, IsFrameWithin};
ghost use Rattle.mount_replay.specs.Payloads.{IsNoDamage};
ghost use Rattle.mount_replay.specs.Rules.{IsWrittenExtent};

use crate::error::ReplayError;
use record_model::Extent;
use std::alloc::AllocError;
use zone_image::Geometry;
use zoned_device::{DevFault, ZonedDevice};

/// A frame: the bytes that it holds, and the blocks that it takes.
#[derive(Clone, Copy)]
pub(crate) struct Frame {
    pub(crate) len: u64,
    pub(crate) blocks: u32,
}

/// Where a walk over frames begins: a block of a zone, its address, and the zone's written number.
#[derive(Clone, Copy)]
pub(crate) struct FrameStart {
    pub(crate) zone: u32,
    pub(crate) first: u32,
    pub(crate) start: u64,
    pub(crate) written: u32,
}

// Reads one block of a zone into a slice of just its length.
fn read_block<D: ZonedDevice>(
    dev: &mut D,
    zone: u32,
    at: u32,
    block: &mut [u8],
) -> Result<(), DevFault>
    requires is_known { D.known dev.old }
    requires is_zone { zone < (D.geometry dev.old).zones }
    requires whole { length block.old ≡ (D.geometry dev.old).block }
    requires written { at + 1 ≤ (info_at (D.infos dev.old) zone).written }
    ensures read { OnOk result (D.tells → block.new ≡ bytes_at (D.image dev.old) zone at 1) }
    ensures device { OnlyReads D.known D.geometry D.infos D.tells D.image D.tick D.since D.failed_changes dev.old dev.new }
    ensures cause { HasCause (D.faults dev.old) (D.faults dev.new) (IsErr result) }
{
    dev.read(zone, at, block)?;
    Ok(())
}

// The number in the first eight bytes.
fn first_number(bytes: &[u8]) -> u64
    requires { 8 ≤ length bytes.now }
    ensures { result ≡ from_le_bytes w64 (take 8 bytes.now) }
{
    let mut first = [0; 8];
    first.copy_from_slice(&bytes[..8]);
    u64::from_le_bytes(first)
}

// The frame of this length, where it fits so many blocks.
fn frame_of(block_size: u32, left: u32, len: u64) -> Option<Frame>
    requires { 0 < block_size }
    ensures exact { result ≡ frame_of block_size left len }
    ensures within { IfSome result (IsFrameWithin block_size left) }
{
    let blocks = (u128::from(len) + 8).div_ceil(u128::from(block_size));
    if len == 0 || u128::from(left) < blocks {
        return None;
    }
    Some(Frame {
        len,
        blocks: blocks as u32,
    })
}

// The frame that begins at a block of a zone, if one does.
fn next_frame<D: ZonedDevice>(
    dev: &mut D,
    geometry: &Geometry,
    zone: u32,
    at: u32,
    written: u32,
    block: &mut [u8],
) -> Result<Option<Frame>, DevFault>
    requires is_known { D.known dev.old }
    requires is_zone { zone < (D.geometry dev.old).zones }
    requires same_geometry { geometry.now ≡ D.geometry dev.old }
    requires whole { length block.old ≡ geometry.now.block }
    requires same_written { written ≡ (info_at (D.infos dev.old) zone).written }
    requires within { at ≤ written }
    ensures frame { IfOk result (λ frame. D.tells → frame ≡ frame_in geometry.now.block (drop at (zone_at (D.image dev.old) zone).blocks)) }
    ensures some { IfOk result (λ frame. IfSome frame (IsFrameWithin geometry.now.block (written - at))) }
    ensures device { OnlyReads D.known D.geometry D.infos D.tells D.image D.tick D.since D.failed_changes dev.old dev.new }
    ensures cause { HasCause (D.faults dev.old) (D.faults dev.new) (IsErr result) }
{
    if at == written {
        return Ok(None);
    }
    read_block(dev, zone, at, block)?;
    Ok(frame_of(geometry.block, written - at, first_number(block)))
}

/// The extents of the frames that stand one behind the other from a block of a zone on go behind the others. `start`
/// is that block's address.
pub(crate) fn walk_frames<D: ZonedDevice>(
    dev: &mut D,
    geometry: &Geometry,
    from: FrameStart,
    block: &mut [u8],
    extents: &mut Vec<Extent>,
) -> Result<(), ReplayError>
    requires is_known { D.known dev.old }
    requires is_data { 3 ≤ from.zone }
    requires is_zone { from.zone < (D.geometry dev.old).zones }
    requires same_geometry { geometry.now ≡ D.geometry dev.old }
    requires whole { length block.old ≡ geometry.now.block }
    requires place { from.start ≡ from.zone * zone_bytes geometry.now + from.first * geometry.now.block }
    requires same_written { from.written ≡ (info_at (D.infos dev.old) from.zone).written }
    requires within { from.first ≤ from.written }
    requires addresses { from.start + (from.written - from.first) * geometry.now.block + 8 < 2 ^ 64 }
    ensures found { OnOk result (D.tells → extents.new.items
        ≡ extents.old.items ++ frames_from geometry.now.block from.start (drop from.first (zone_at (D.image dev.old) from.zone).blocks)) }
    ensures only { IfErr result IsNoDamage }
    ensures lie { OnOk result (All (IsWrittenExtent geometry.now (D.infos dev.old)) extents.old.items
        → All (IsWrittenExtent geometry.now (D.infos dev.old)) extents.new.items) }
    ensures device { OnlyReads D.known D.geometry D.infos D.tells D.image D.tick D.since D.failed_changes dev.old dev.new }
    ensures cause { HasCause (D.faults dev.old) (D.faults dev.new) (IsErrOf result ReplayError.DevFault) }
{
    let mut at = from.first;
    let mut start = from.start;
    while let Some(frame) = next_frame(dev, geometry, from.zone, at, from.written, block)? {
        let extent = Extent {
            start: start + 8,
            len: frame.len,
        };
        push(extents, extent)?;
        at += frame.blocks;
        start += u64::from(frame.blocks) * u64::from(geometry.block);
    }
    Ok(())
}

/// One extent more.
pub(crate) fn push(extents: &mut Vec<Extent>, extent: Extent) -> Result<(), AllocError>
    ensures { OnOk result (extents.new.items ≡ extents.old.items ++ extent ∷ []) }
{
    extents.push(extent)?;
    Ok(())
}
