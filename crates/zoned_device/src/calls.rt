// The changing calls of a device in memory whose image is there: what is done of each, and how it is counted.
ghost use Rattle.std.specs.Prelude.{◌≡◌, ◌+◌, ◌*◌, ◌/◌, ◌%◌, ◌<◌, ◌≤◌, ◌&&◌, false, length, take, None, is_none, is_ok, IfOk, IsTrue};
ghost use Rattle.zone_image.specs.Image.{is_valid};
ghost use Rattle.zone_image.specs.Changes.{blocks_in};
ghost use Rattle.zone_image.specs.Infos.{info_at, infos_of, active_zones};
ghost use Rattle.zoned_device.specs.CallState.{IsWithinLimits};
ghost use Rattle.zoned_device.specs.Content.{Append, Finish, Reset, Sync, has_room, part_of, with_part, content_after, calls_after, is_done};

use crate::DevFault;
use crate::failing::Calls;
use crate::image_record::Record;

/// Writes whole blocks at the end of a zone, and answers the first block's number.
pub(crate) fn append(
    record: &mut Record,
    calls: &mut Calls,
    zone: u32,
    bytes: &[u8],
) -> Result<u32, DevFault>
    requires is_zone { zone < record.old.standing.geometry.zones }
    requires some { 0 < length bytes.now }
    requires whole { length bytes.now % record.old.standing.geometry.block ≡ 0 }
    requires unsealed { (info_at (infos_of record.old.standing) zone).sealed ≡ false }
    requires room { (info_at (infos_of record.old.standing) zone).written + length bytes.now / record.old.standing.geometry.block
        ≤ record.old.standing.geometry.capacity }
    requires active { (info_at (infos_of record.old.standing) zone).written ≡ 0
        → active_zones (infos_of record.old.standing) < record.old.standing.geometry.active_limit }
    ensures content { record.new ≡ content_after calls.old (Append zone (blocks_in record.old.standing.geometry bytes.now)) record.old }
    ensures counts { calls.new ≡ calls_after calls.old (Append zone (blocks_in record.old.standing.geometry bytes.now)) record.old }
    ensures answer { is_ok result ≡ is_done calls.old (Append zone (blocks_in record.old.standing.geometry bytes.now)) record.old }
    ensures first { IfOk result (λ first. first ≡ (info_at (infos_of record.old.standing) zone).written) }
    ensures within { IsWithinLimits calls.old }
{
    let tick = calls.tick();
    let fault = calls.begin();
    let first = record.standing().info(zone).written;
    let kept = append_part(record, tick, fault, zone, bytes);
    calls.end_change(is_whole(fault, kept))?;
    Ok(first)
}

/// Seals a zone.
pub(crate) fn finish(record: &mut Record, calls: &mut Calls, zone: u32) -> Result<(), DevFault>
    requires { zone < record.old.standing.geometry.zones }
    ensures content { record.new ≡ content_after calls.old (Finish zone) record.old }
    ensures counts { calls.new ≡ calls_after calls.old (Finish zone) record.old }
    ensures answer { is_ok result ≡ is_done calls.old (Finish zone) record.old }
    ensures within { IsWithinLimits calls.old }
{
    let tick = calls.tick();
    let fault = calls.begin();
    let kept = finish_part(record, tick, fault, zone);
    calls.end_change(is_whole(fault, kept))
}

/// Empties a zone.
pub(crate) fn reset(record: &mut Record, calls: &mut Calls, zone: u32) -> Result<(), DevFault>
    requires { zone < record.old.standing.geometry.zones }
    ensures content { record.new ≡ content_after calls.old (Reset zone) record.old }
    ensures counts { calls.new ≡ calls_after calls.old (Reset zone) record.old }
    ensures answer { is_ok result ≡ is_done calls.old (Reset zone) record.old }
    ensures within { IsWithinLimits calls.old }
{
    let tick = calls.tick();
    let fault = calls.begin();
    let kept = reset_part(record, tick, fault, zone);
    calls.end_change(is_whole(fault, kept))
}

/// Makes all blocks durable.
pub(crate) fn sync(record: &mut Record, calls: &mut Calls) -> Result<(), DevFault>
    ensures content { record.new ≡ content_after calls.old Sync record.old }
    ensures counts { calls.new ≡ calls_after calls.old Sync record.old }
    ensures answer { is_ok result ≡ is_done calls.old Sync record.old }
    ensures within { IsWithinLimits calls.old }
{
    let tick = calls.tick();
    let fault = calls.begin();
    let kept = sync_part(record, tick, fault);
    calls.end_change(is_whole(fault, kept))
}

// What is done of an append that is to fail after this part. It answers whether there was room for it.
fn append_part(record: &mut Record, tick: u64, fault: Option<u32>, zone: u32, bytes: &[u8]) -> bool
    requires is_zone { zone < record.old.standing.geometry.zones }
    requires some { 0 < length bytes.now }
    requires whole { length bytes.now % record.old.standing.geometry.block ≡ 0 }
    requires unsealed { (info_at (infos_of record.old.standing) zone).sealed ≡ false }
    requires room { (info_at (infos_of record.old.standing) zone).written + length bytes.now / record.old.standing.geometry.block
        ≤ record.old.standing.geometry.capacity }
    requires active { (info_at (infos_of record.old.standing) zone).written ≡ 0
        → active_zones (infos_of record.old.standing) < record.old.standing.geometry.active_limit }
    ensures content { record.new ≡ with_part tick (part_of fault (Append zone (blocks_in record.old.standing.geometry bytes.now))) record.old }
    ensures kept { fault ≡ None → result ≡ has_room record.old (Append zone (blocks_in record.old.standing.geometry bytes.now)) }
{
    match fault {
        None => record.append(tick, zone, bytes),
        Some(part) => {
            if part == 0 {
                return false;
            }
            let block = record.standing().geometry().block;
            record.append(tick, zone, front_blocks(bytes, part, block))
        }
    }
}

// The first blocks of the bytes, at most all.
fn front_blocks(bytes: &[u8], count: u32, block: u32) -> &[u8]
    ensures { result.now ≡ take (count * block) bytes.now }
{
    let end = bytes.len().min(count as usize * block as usize);
    &bytes[..end]
}

// What is done of a finish that is to fail after this part.
fn finish_part(record: &mut Record, tick: u64, fault: Option<u32>, zone: u32) -> bool
    requires { zone < record.old.standing.geometry.zones }
    ensures content { record.new ≡ with_part tick (part_of fault (Finish zone)) record.old }
    ensures kept { fault ≡ None → result ≡ has_room record.old (Finish zone) }
{
    match fault {
        Some(0) => false,
        _ => record.finish(tick, zone),
    }
}

// What is done of a reset that is to fail after this part.
fn reset_part(record: &mut Record, tick: u64, fault: Option<u32>, zone: u32) -> bool
    requires { zone < record.old.standing.geometry.zones }
    ensures content { record.new ≡ with_part tick (part_of fault (Reset zone)) record.old }
    ensures kept { fault ≡ None → result ≡ has_room record.old (Reset zone) }
{
    match fault {
        Some(0) => false,
        _ => record.reset(tick, zone),
    }
}

// What is done of a sync that is to fail: nothing.
fn sync_part(record: &mut Record, tick: u64, fault: Option<u32>) -> bool
    ensures content { record.new ≡ with_part tick (part_of fault Sync) record.old }
    ensures kept { fault ≡ None → result ≡ has_room record.old Sync }
{
    match fault {
        Some(_) => false,
        None => record.sync(tick),
    }
}

// A call is done whole where it isn't to fail and what it did was kept.
fn is_whole(fault: Option<u32>, kept: bool) -> bool
    ensures { result ≡ (is_none fault && kept) }
{
    fault.is_none() && kept
}
