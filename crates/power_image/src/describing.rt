// A change of descriptors. Whatever a loss of power leaves of the bytes that a step writes, one slot of each zone counts, and
// it tells the zone's numbers before the change or after it.
ghost use Rattle.std.specs.Prelude.{◌≡◌, ◌+◌, ◌<◌, ◌≤◌, true, false, not, length, OnOk, OnErr, IsErr};
ghost use Rattle.zone_image.specs.Counts.{HasCause};
ghost use Rattle.image_backend.specs.Table.{slot_at, slot_info};
ghost use Rattle.power_image.specs.Layout.{slot_offset};
ghost use Rattle.power_image.specs.Descriptors.{next_slot, closed};
ghost use Rattle.power_image.specs.Table.{descriptor_in, with_descriptor, Turns};
ghost use Rattle.power_image.specs.State.{HoldsZones, HoldsTable, IsSaid, SameZones, AreClosed, ArePrepared, AreSettled, TellsSame, is_pending, with_prepared, with_opened};

use crate::descriptor::{self, CLOSED_GATE, Descriptor, OPEN_GATE};
use crate::format::slot_at;
use crate::table::Table;
use image_backend::{ByteFile, FileFault};

/// Makes the descriptors of the zones from `from` to before `to` tell the numbers that the zones have. Each step is done for
/// all of them, and between two steps all that was written is made durable: the other slot's gate is closed, then its
/// bytes are written, then its gate is opened, and at last that of the slot which counted before is closed. After a fault it
/// is open which of the zones are described.
pub(crate) fn describe<F: ByteFile>(
    file: &mut F,
    table: &mut Table,
    from: u32,
    to: u32,
) -> Result<(), FileFault>
    requires known { HoldsTable F.is_open F.is_sized F.size table.old file.old }
    requires said { IsSaid F.tells table.old (F.contents file.old) }
    requires range { to ≤ table.old.zones.geometry.zones }
    ensures same_numbers { table.new.zones ≡ table.old.zones }
    ensures still_known { HoldsTable F.is_open F.is_sized F.size table.new file.new }
    ensures same_zones { F.tells → SameZones table.old.zones.geometry (F.contents file.old) (F.contents file.new) }
    ensures said { OnOk result (IsSaid F.tells table.new (F.contents file.new)) }
    ensures settled { OnOk result (AreSettled table.new from to) }
    ensures cause { HasCause (F.faults file.old) (F.faults file.new) (IsErr result) }
{
    close_gates(file, table, from, to)?;
    keep(file, table)?;
    prepare_slots(file, table, from, to)?;
    open_gates(file, table, from, to)?;
    close_old_gates(file, table, from, to)
}

// Makes all that was written durable.
fn keep<F: ByteFile>(file: &mut F, table: &Table) -> Result<(), FileFault>
    requires known { HoldsTable F.is_open F.is_sized F.size table.now file.old }
    requires said { IsSaid F.tells table.now (F.contents file.old) }
    ensures still_known { HoldsTable F.is_open F.is_sized F.size table.now file.new }
    ensures said { IsSaid F.tells table.now (F.contents file.new) }
    ensures same_zones { F.tells → SameZones table.now.zones.geometry (F.contents file.old) (F.contents file.new) }
    ensures durable { OnOk result (F.tells → F.is_durable file.new) }
    ensures cause { HasCause (F.faults file.old) (F.faults file.new) (IsErr result) }
{
    let _ = table;
    file.sync()
}

// Closes the gates of the slots that counted before. Those that count now are durable.
fn close_old_gates<F: ByteFile>(
    file: &mut F,
    table: &mut Table,
    from: u32,
    to: u32,
) -> Result<(), FileFault>
    requires known { HoldsTable F.is_open F.is_sized F.size table.old file.old }
    requires said { IsSaid F.tells table.old (F.contents file.old) }
    requires range { to ≤ table.old.zones.geometry.zones }
    requires durable { F.tells → F.is_durable file.old }
    requires settled { AreSettled table.old from to }
    ensures same_numbers { table.new.zones ≡ table.old.zones }
    ensures still_known { HoldsTable F.is_open F.is_sized F.size table.new file.new }
    ensures same_zones { F.tells → SameZones table.old.zones.geometry (F.contents file.old) (F.contents file.new) }
    ensures said { OnOk result (IsSaid F.tells table.new (F.contents file.new)) }
    ensures settled { OnOk result (AreSettled table.new from to) }
    ensures cause { HasCause (F.faults file.old) (F.faults file.new) (IsErr result) }
{
    close_gates(file, table, from, to)
}

// Closes the other gate of each zone of a range that has it open.
fn close_gates<F: ByteFile>(
    file: &mut F,
    table: &mut Table,
    from: u32,
    to: u32,
) -> Result<(), FileFault>
    requires known { HoldsTable F.is_open F.is_sized F.size table.old file.old }
    requires said { IsSaid F.tells table.old (F.contents file.old) }
    requires range { to ≤ table.old.zones.geometry.zones }
    ensures same_numbers { table.new.zones ≡ table.old.zones }
    ensures still_known { HoldsTable F.is_open F.is_sized F.size table.new file.new }
    ensures same_zones { F.tells → SameZones table.old.zones.geometry (F.contents file.old) (F.contents file.new) }
    ensures said { OnOk result (IsSaid F.tells table.new (F.contents file.new)) }
    ensures closed { OnOk result (AreClosed table.new from to) }
    ensures same_told { OnOk result (TellsSame table.old table.new) }
    ensures cause { HasCause (F.faults file.old) (F.faults file.new) (IsErr result) }
{
    for zone in from..to {
        close_gate(file, table, zone)?;
    }
    Ok(())
}

// Writes what is to count next behind the other gate of each pending zone of a range, and makes it durable.
fn prepare_slots<F: ByteFile>(
    file: &mut F,
    table: &mut Table,
    from: u32,
    to: u32,
) -> Result<(), FileFault>
    requires known { HoldsTable F.is_open F.is_sized F.size table.old file.old }
    requires said { IsSaid F.tells table.old (F.contents file.old) }
    requires range { to ≤ table.old.zones.geometry.zones }
    requires durable { F.tells → F.is_durable file.old }
    requires closed { AreClosed table.old from to }
    ensures same_numbers { table.new.zones ≡ table.old.zones }
    ensures still_known { HoldsTable F.is_open F.is_sized F.size table.new file.new }
    ensures same_zones { F.tells → SameZones table.old.zones.geometry (F.contents file.old) (F.contents file.new) }
    ensures said { OnOk result (IsSaid F.tells table.new (F.contents file.new)) }
    ensures closed { OnOk result (AreClosed table.new from to) }
    ensures prepared { OnOk result (ArePrepared table.new from to) }
    ensures durable { OnOk result (F.tells → F.is_durable file.new) }
    ensures cause { HasCause (F.faults file.old) (F.faults file.new) (IsErr result) }
{
    for zone in from..to {
        prepare_slot(file, table, zone)?;
    }
    keep(file, table)
}

// Opens the other gate of each pending zone of a range, and makes it durable.
fn open_gates<F: ByteFile>(
    file: &mut F,
    table: &mut Table,
    from: u32,
    to: u32,
) -> Result<(), FileFault>
    requires known { HoldsTable F.is_open F.is_sized F.size table.old file.old }
    requires said { IsSaid F.tells table.old (F.contents file.old) }
    requires range { to ≤ table.old.zones.geometry.zones }
    requires durable { F.tells → F.is_durable file.old }
    requires closed { AreClosed table.old from to }
    requires prepared { ArePrepared table.old from to }
    ensures same_numbers { table.new.zones ≡ table.old.zones }
    ensures still_known { HoldsTable F.is_open F.is_sized F.size table.new file.new }
    ensures same_zones { F.tells → SameZones table.old.zones.geometry (F.contents file.old) (F.contents file.new) }
    ensures said { OnOk result (IsSaid F.tells table.new (F.contents file.new)) }
    ensures settled { OnOk result (AreSettled table.new from to) }
    ensures durable { OnOk result (F.tells → F.is_durable file.new) }
    ensures cause { HasCause (F.faults file.old) (F.faults file.new) (IsErr result) }
{
    for zone in from..to {
        open_gate(file, table, zone)?;
    }
    keep(file, table)
}

// Closes the other gate of a zone, where it is open.
fn close_gate<F: ByteFile>(file: &mut F, table: &mut Table, zone: u32) -> Result<(), FileFault>
    requires known { HoldsTable F.is_open F.is_sized F.size table.old file.old }
    requires said { IsSaid F.tells table.old (F.contents file.old) }
    requires is_zone { zone < table.old.zones.geometry.zones }
    ensures done { OnOk result (table.new ≡ with_descriptor table.old zone (closed (descriptor_in table.old zone))) }
    ensures not_done { OnErr result (table.new ≡ table.old) }
    ensures still_open { HoldsZones F.is_open F.is_sized F.size table.old.zones.geometry file.new }
    ensures same_zones { F.tells → SameZones table.old.zones.geometry (F.contents file.old) (F.contents file.new) }
    ensures said { OnOk result (IsSaid F.tells table.new (F.contents file.new)) }
    ensures cause { HasCause (F.faults file.old) (F.faults file.new) (IsErr result) }
{
    let descriptor = table.descriptor(zone);
    if !descriptor.other_open {
        return Ok(());
    }
    put(file, table, zone, 0, &[CLOSED_GATE], descriptor.closed())
}

// Writes what is to count next behind the other gate of a zone, where the zone is pending.
fn prepare_slot<F: ByteFile>(file: &mut F, table: &mut Table, zone: u32) -> Result<(), FileFault>
    requires known { HoldsTable F.is_open F.is_sized F.size table.old file.old }
    requires said { IsSaid F.tells table.old (F.contents file.old) }
    requires is_zone { zone < table.old.zones.geometry.zones }
    requires closed { (descriptor_in table.old zone).other_open ≡ false }
    ensures done { OnOk result (table.new ≡ with_prepared table.old zone) }
    ensures not_done { OnErr result (table.new ≡ table.old) }
    ensures still_open { HoldsZones F.is_open F.is_sized F.size table.old.zones.geometry file.new }
    ensures same_zones { F.tells → SameZones table.old.zones.geometry (F.contents file.old) (F.contents file.new) }
    ensures said { OnOk result (IsSaid F.tells table.new (F.contents file.new)) }
    ensures cause { HasCause (F.faults file.old) (F.faults file.new) (IsErr result) }
{
    if !table.is_pending(zone) {
        return Ok(());
    }
    let descriptor = table.descriptor(zone);
    let info = table.zone(zone).info();
    let rest = descriptor::rest(descriptor.next_slot(info));
    put(file, table, zone, 1, &rest, descriptor.prepared(info))
}

// Opens the other gate of a zone, where the zone is pending.
fn open_gate<F: ByteFile>(file: &mut F, table: &mut Table, zone: u32) -> Result<(), FileFault>
    requires known { HoldsTable F.is_open F.is_sized F.size table.old file.old }
    requires said { IsSaid F.tells table.old (F.contents file.old) }
    requires is_zone { zone < table.old.zones.geometry.zones }
    requires closed { (descriptor_in table.old zone).other_open ≡ false }
    requires prepared { is_pending table.old zone ≡ true
        → (descriptor_in table.old zone).other ≡ next_slot (descriptor_in table.old zone) (slot_info (slot_at table.old.zones zone)) }
    ensures done { OnOk result (table.new ≡ with_opened table.old zone) }
    ensures not_done { OnErr result (table.new ≡ table.old) }
    ensures still_open { HoldsZones F.is_open F.is_sized F.size table.old.zones.geometry file.new }
    ensures same_zones { F.tells → SameZones table.old.zones.geometry (F.contents file.old) (F.contents file.new) }
    ensures said { OnOk result (IsSaid F.tells table.new (F.contents file.new)) }
    ensures cause { HasCause (F.faults file.old) (F.faults file.new) (IsErr result) }
{
    if !table.is_pending(zone) {
        return Ok(());
    }
    let descriptor = table.descriptor(zone);
    put(file, table, zone, 0, &[OPEN_GATE], descriptor.opened())
}

// Writes bytes into the other slot of a zone, so that its descriptor says something else.
fn put<F: ByteFile>(
    file: &mut F,
    table: &mut Table,
    zone: u32,
    offset: u32,
    bytes: &[u8],
    after: Descriptor,
) -> Result<(), FileFault>
    requires known { HoldsTable F.is_open F.is_sized F.size table.old file.old }
    requires said { IsSaid F.tells table.old (F.contents file.old) }
    requires is_zone { zone < table.old.zones.geometry.zones }
    requires within { offset + length bytes.now ≤ 16 }
    requires turns { Turns table.old.zones.geometry (slot_offset (not (descriptor_in table.old zone).second) + offset) bytes.now
        (descriptor_in table.old zone) after }
    ensures done { OnOk result (table.new ≡ with_descriptor table.old zone after) }
    ensures not_done { OnErr result (table.new ≡ table.old) }
    ensures still_open { HoldsZones F.is_open F.is_sized F.size table.old.zones.geometry file.new }
    ensures same_zones { F.tells → SameZones table.old.zones.geometry (F.contents file.old) (F.contents file.new) }
    ensures said { OnOk result (IsSaid F.tells table.new (F.contents file.new)) }
    ensures cause { HasCause (F.faults file.old) (F.faults file.new) (IsErr result) }
{
    let second = table.descriptor(zone).second;
    let at = slot_at(zone, !second) + u64::from(offset);
    file.write_at(at, bytes)?;
    table.set_descriptor(zone, after);
    Ok(())
}
