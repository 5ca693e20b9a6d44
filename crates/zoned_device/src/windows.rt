// Blocks of a zone, no more of them at once than a device reads.
ghost use Rattle.std.specs.Prelude.{◌≡◌, ◌+◌, ◌*◌, ◌/◌, ◌%◌, ◌≤◌, ◌<◌, length, take, IfOk, IsErr, OnOk};
ghost use Rattle.zone_image.specs.Changes.{bytes_at};
ghost use Rattle.zone_image.specs.Counts.{HasCause};
ghost use Rattle.zone_image.specs.Infos.{info_at};
ghost use Rattle.zone_image.specs.Reads.{OnlyReads};
ghost use Rattle.zoned_device.specs.Window.{window};

use crate::{DevFault, ZonedDevice};
use zone_image::Geometry;

// The most blocks that are read at once of a zone with room for more.
const MOST_READ: u32 = 64;

/// The most blocks that one read of a device of this geometry may ask for: 64, and no more than a zone can hold.
pub fn window(geometry: &Geometry) -> u32
    ensures { result ≡ window geometry.now }
{
    geometry.capacity.min(MOST_READ)
}

// Reads the first of so many blocks, as many as are read at once, and answers how many these are.
fn read_window<D: ZonedDevice>(
    dev: &mut D,
    block_size: u32,
    most: u32,
    zone: u32,
    block: u32,
    count: u32,
    out: &mut [u8],
) -> Result<u32, DevFault>
    requires is_known { D.known dev.old }
    requires is_zone { zone < (D.geometry dev.old).zones }
    requires same_block { block_size ≡ (D.geometry dev.old).block }
    requires same_window { most ≡ window (D.geometry dev.old) }
    requires some { 0 < count }
    requires whole { length out.old ≡ count * block_size }
    requires written { block + count ≤ (info_at (D.infos dev.old) zone).written }
    ensures some { IfOk result (λ n. 0 < n) }
    ensures fits { IfOk result (λ n. n ≤ count) }
    ensures bytes { IfOk result (λ n. D.tells → take (n * block_size) out.new ≡ bytes_at (D.image dev.old) zone block n) }
    ensures same_len { length out.new ≡ length out.old }
    ensures device { OnlyReads D.known D.geometry D.infos D.tells D.image D.tick D.since D.failed_changes dev.old dev.new }
    ensures cause { HasCause (D.faults dev.old) (D.faults dev.new) (IsErr result) }
{
    let some = count.min(most);
    let size = some as usize * block_size as usize;
    let (front, _) = out.split_at_mut(size);
    dev.read(zone, block, front)?;
    Ok(some)
}

/// Reads whole blocks of a zone, from this block on, as many as `out` has room for, and no more at once than `most`, the
/// device's window. `DevFault` comes only where the device's count of faults rose; the bytes of `out` are open then.
pub fn read_blocks<D: ZonedDevice>(
    dev: &mut D,
    block_size: u32,
    most: u32,
    zone: u32,
    block: u32,
    out: &mut [u8],
) -> Result<(), DevFault>
    requires is_known { D.known dev.old }
    requires is_zone { zone < (D.geometry dev.old).zones }
    requires same_block { block_size ≡ (D.geometry dev.old).block }
    requires same_window { most ≡ window (D.geometry dev.old) }
    requires whole { length out.old % block_size ≡ 0 }
    requires written { block + length out.old / block_size ≤ (info_at (D.infos dev.old) zone).written }
    ensures bytes { OnOk result (D.tells → out.new ≡ bytes_at (D.image dev.old) zone block (length out.old / block_size)) }
    ensures same_len { length out.new ≡ length out.old }
    ensures device { OnlyReads D.known D.geometry D.infos D.tells D.image D.tick D.since D.failed_changes dev.old dev.new }
    ensures cause { HasCause (D.faults dev.old) (D.faults dev.new) (IsErr result) }
{
    let count = (out.len() / block_size as usize) as u32;
    let mut done = 0;
    while done < count {
        let (_, rest) = out.split_at_mut(done as usize * block_size as usize);
        done += read_window(
            dev,
            block_size,
            most,
            zone,
            block + done,
            count - done,
            rest,
        )?;
    }
    Ok(())
}
