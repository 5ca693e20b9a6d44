// A reader of the records of a zone.
ghost use Rattle.std.specs.Prelude.{◌≡◌, ◌⊎◌, ◌+◌, ◌*◌, ◌^◌, ◌≤◌, ◌<◌, None, [], length, take, drop, IfOk, OnOk, OnErr, IsErrOf};
ghost use Rattle.zone_image.specs.Image.{zone_at};
ghost use Rattle.zone_image.specs.Counts.{HasCause};
ghost use Rattle.zone_image.specs.Infos.{info_at};
ghost use Rattle.zone_image.specs.Reads.{OnlyReads};
ghost use Rattle.zoned_device.specs.Window.{window};
ghost use Rattle.log_model.specs.LogScan.{blocks_of, first_item};
ghost use Rattle.meta_log.specs.Ends.{scan_end};
ghost use Rattle.meta_log.specs.Reader.{IsCounted, IsHeld, IsPlaced, IsSameLog, IsSamePlace, IsShort, end_item, first_of, next_item, payload_at, reader_after, scan_left, with_item};

use crate::error::LogError;
use crate::item::{Found, LogEnd, LogItem};
use crate::read::{begun, copied, read_blocks};
use crate::record::{HEADER, blocks_of, u32_at};
use crate::verdict::judged;
use record_model::Payload;
use std::alloc::Global;
use std::marker::Model;
use zone_image::Geometry;
use zoned_device::ZonedDevice;

/// A reader of the records of a zone, from its first block on. It holds blocks that were read already and stand from
/// the next record on, no more of them than the device's window.
#[derive(Debug, Drop)]
pub struct LogReader {
    zone: u32,
    block_size: u32,
    window: u32,
    written: u32,
    next: u32,
    ended: Option<LogEnd>,
    // The last blocks of the buffer, so many of them, are held.
    kept: u32,
    buffer: Vec<u8>,
}

impl Model for LogReader {
    ghost use Rattle.std.specs.Prelude.{option_map};
    ghost use Rattle.meta_log.specs.Ends.{scan_end};
    ghost use Rattle.meta_log.specs.Reader.{ReaderState, IsReader, last_blocks};

    ghost Value = { ReaderState };

    ghost view = { λ r. record {
      zone = r.zone;
      block_size = r.block_size;
      window = r.window;
      written = r.written;
      next = r.next;
      ended = option_map scan_end r.ended;
      held = last_blocks r.block_size r.kept r.buffer.items;
    } };

    ghost invariant = { λ r. IsReader r.next r.written r.kept r.window r.block_size r.buffer.items };
}

impl LogReader {
    /// A reader at the first block of a zone that has this many written blocks. It holds nothing yet.
    pub fn new(alloc: Global, zone: u32, geometry: &Geometry, written: u32) -> LogReader
        ensures { result ≡ record { zone = zone; block_size = geometry.now.block; window = window geometry.now; written = written; next = 0; ended = None; held = [] } }
    {
        LogReader {
            zone,
            block_size: geometry.block,
            window: zoned_device::window(geometry),
            written,
            next: 0,
            ended: None,
            kept: 0,
            buffer: Vec::new(alloc),
        }
    }

    /// How many blocks it holds: never more than the device's window.
    pub fn held(&self) -> u32
        ensures few { result ≤ self.now.window }
        ensures blocks { length self.now.held ≡ result * self.now.block_size }
    {
        self.kept
    }

    /// What stands next in the log. After an end the same end is answered again, with no call of the
    /// device. After an error the reader keeps its place, and the next call answers for the same item.
    /// `DevFault` comes only where the device's count of faults rose. Memory is taken for no more blocks
    /// than stand in the zone: for the payload, and for one window.
    pub fn next<D: ZonedDevice>(&mut self, alloc: Global, dev: &mut D) -> Result<LogItem, LogError>
        requires is_known { D.known dev.old }
        requires is_zone { self.old.zone < (D.geometry dev.old).zones }
        requires same_block { self.old.block_size ≡ (D.geometry dev.old).block }
        requires same_window { self.old.window ≡ window (D.geometry dev.old) }
        requires same_written { self.old.written ≡ (info_at (D.infos dev.old) self.old.zone).written }
        requires held { D.tells → IsHeld self.old (D.image dev.old) }
        ensures item { IfOk result (λ item. D.tells → item ≡ next_item self.old (zone_at (D.image dev.old) self.old.zone).blocks) }
        ensures scan { IfOk result (λ item. D.tells → scan_left self.old (zone_at (D.image dev.old) self.old.zone).blocks
            ≡ with_item item (scan_left self.new (zone_at (D.image dev.old) self.old.zone).blocks)) }
        ensures short { IfOk result IsShort }
        ensures after { IfOk result (λ item. IsSamePlace (reader_after self.old item) self.new) }
        ensures err { OnErr result (IsSamePlace self.old self.new) }
        ensures same { IsSameLog self.old self.new }
        ensures within { self.new.next ≤ self.new.written }
        ensures held { D.tells → IsHeld self.new (D.image dev.new) }
        ensures device { OnlyReads D.known D.geometry D.infos D.tells D.image D.tick D.since D.failed_changes dev.old dev.new }
        ensures cause { HasCause (D.faults dev.old) (D.faults dev.new) (IsErrOf result LogError.DevFault) }
    {
        if let Some(end) = self.ended {
            return Ok(end_item(end));
        }
        match self.found(alloc, dev)? {
            Found::End(end) => {
                self.ended = Some(end);
                Ok(end_item(end))
            }
            Found::Record { count, bytes } => {
                let block = self.next;
                self.pass(count);
                Ok(LogItem::Payload { block, bytes })
            }
        }
    }

    // What stands at the next block.
    fn found<D: ZonedDevice>(&mut self, alloc: Global, dev: &mut D) -> Result<Found, LogError>
        requires is_known { D.known dev.old }
        requires is_zone { self.old.zone < (D.geometry dev.old).zones }
        requires same_block { self.old.block_size ≡ (D.geometry dev.old).block }
        requires same_window { self.old.window ≡ window (D.geometry dev.old) }
        requires same_written { self.old.written ≡ (info_at (D.infos dev.old) self.old.zone).written }
        requires held { D.tells → IsHeld self.old (D.image dev.old) }
        ensures first { IfOk result (λ found. D.tells
            → first_item self.old.block_size (drop self.old.next (zone_at (D.image dev.old) self.old.zone).blocks) ≡ first_of found) }
        ensures placed { IfOk result (IsPlaced self.old.next) }
        ensures counted { IfOk result (IsCounted self.old) }
        ensures place { IsSamePlace self.old self.new }
        ensures held { D.tells → IsHeld self.new (D.image dev.new) }
        ensures device { OnlyReads D.known D.geometry D.infos D.tells D.image D.tick D.since D.failed_changes dev.old dev.new }
        ensures cause { HasCause (D.faults dev.old) (D.faults dev.new) (IsErrOf result LogError.DevFault) }
    {
        if self.next == self.written {
            return Ok(Found::End(LogEnd::Clean));
        }
        self.hold(dev, 1)?;
        let first = self.first_block();
        let stored = u32_at(first, 0);
        let len = u32_at(first, 4);
        let count = blocks_of(u64::from(len), self.block_size);
        if count > u64::from(self.written - self.next) {
            return Ok(Found::End(LogEnd::Torn { block: self.next }));
        }
        let count = count as u32;
        let payload = self.payload(alloc, dev, len, count)?;
        Ok(judged(self.next, len, count, stored, payload))
    }

    // The payload of the next record, which has this length and so many blocks.
    fn payload<D: ZonedDevice>(
        &mut self,
        alloc: Global,
        dev: &mut D,
        len: u32,
        count: u32,
    ) -> Result<Payload, LogError>
        requires is_known { D.known dev.old }
        requires is_zone { self.old.zone < (D.geometry dev.old).zones }
        requires same_block { self.old.block_size ≡ (D.geometry dev.old).block }
        requires same_window { self.old.window ≡ window (D.geometry dev.old) }
        requires same_written { self.old.written ≡ (info_at (D.infos dev.old) self.old.zone).written }
        requires held { D.tells → IsHeld self.old (D.image dev.old) }
        requires first { self.old.block_size ≤ length self.old.held }
        requires some { 0 < count }
        requires room { HEADER + len ≤ count * self.old.block_size }
        requires written { self.old.next + count ≤ self.old.written }
        ensures payload { IfOk result (λ payload. D.tells → payload ≡ payload_at self.old (D.image dev.old) len count) }
        ensures len { IfOk result (λ payload. length payload ≡ len) }
        ensures place { IsSamePlace self.old self.new }
        ensures held { D.tells → IsHeld self.new (D.image dev.new) }
        ensures device { OnlyReads D.known D.geometry D.infos D.tells D.image D.tick D.since D.failed_changes dev.old dev.new }
        ensures cause { HasCause (D.faults dev.old) (D.faults dev.new) (IsErrOf result LogError.DevFault) }
    {
        if count > self.window {
            return self.long_payload(alloc, dev, len, count);
        }
        self.hold(dev, count)?;
        copied(alloc, self.blocks(), len)
    }

    // The payload of a record of more blocks than are held at once: behind its first block the others are read into the
    // payload's own buffer.
    fn long_payload<D: ZonedDevice>(
        &self,
        alloc: Global,
        dev: &mut D,
        len: u32,
        count: u32,
    ) -> Result<Payload, LogError>
        requires is_known { D.known dev.old }
        requires is_zone { self.now.zone < (D.geometry dev.old).zones }
        requires same_block { self.now.block_size ≡ (D.geometry dev.old).block }
        requires same_window { self.now.window ≡ window (D.geometry dev.old) }
        requires same_written { self.now.written ≡ (info_at (D.infos dev.old) self.now.zone).written }
        requires held { D.tells → IsHeld self.now (D.image dev.old) }
        requires first { self.now.block_size ≤ length self.now.held }
        requires some { 0 < count }
        requires room { HEADER + len ≤ count * self.now.block_size }
        requires written { self.now.next + count ≤ self.now.written }
        ensures payload { IfOk result (λ payload. D.tells → payload ≡ payload_at self.now (D.image dev.old) len count) }
        ensures len { IfOk result (λ payload. length payload ≡ len) }
        ensures device { OnlyReads D.known D.geometry D.infos D.tells D.image D.tick D.since D.failed_changes dev.old dev.new }
        ensures cause { HasCause (D.faults dev.old) (D.faults dev.new) (IsErrOf result LogError.DevFault) }
    {
        let size = count as usize * self.block_size as usize;
        let mut bytes = begun(alloc, self.first_block(), size)?;
        read_blocks(
            dev,
            self.zone,
            self.next + 1,
            count - 1,
            self.block_size,
            self.window,
            &mut bytes,
        )?;
        bytes.truncate(len as usize);
        Ok(Payload::from_vec(bytes))
    }

    // Holds so many blocks at least: no more than the window, and no more than are left.
    fn hold<D: ZonedDevice>(&mut self, dev: &mut D, count: u32) -> Result<(), LogError>
        requires is_known { D.known dev.old }
        requires is_zone { self.old.zone < (D.geometry dev.old).zones }
        requires same_block { self.old.block_size ≡ (D.geometry dev.old).block }
        requires same_window { self.old.window ≡ window (D.geometry dev.old) }
        requires same_written { self.old.written ≡ (info_at (D.infos dev.old) self.old.zone).written }
        requires held { D.tells → IsHeld self.old (D.image dev.old) }
        requires few { count ≤ self.old.window }
        requires written { self.old.next + count ≤ self.old.written }
        ensures enough { OnOk result (count * self.new.block_size ≤ length self.new.held) }
        ensures place { IsSamePlace self.old self.new }
        ensures held { D.tells → IsHeld self.new (D.image dev.new) }
        ensures device { OnlyReads D.known D.geometry D.infos D.tells D.image D.tick D.since D.failed_changes dev.old dev.new }
        ensures cause { HasCause (D.faults dev.old) (D.faults dev.new) (IsErrOf result LogError.DevFault) }
    {
        if self.kept >= count {
            return Ok(());
        }
        let more = self.window.min(self.written - self.next);
        self.kept = 0;
        self.buffer.clear();
        read_blocks(
            dev,
            self.zone,
            self.next,
            more,
            self.block_size,
            self.window,
            &mut self.buffer,
        )?;
        self.kept = more;
        Ok(())
    }

    // The blocks that are held.
    fn blocks(&self) -> &[u8]
        ensures { result.now ≡ self.now.held }
    {
        let size = self.kept as usize * self.block_size as usize;
        let from = self.buffer.len() - size;
        &self.buffer[from..]
    }

    // The first block that is held.
    fn first_block(&self) -> &[u8]
        requires { self.now.block_size ≤ length self.now.held }
        ensures { result.now ≡ take self.now.block_size self.now.held }
    {
        let blocks = self.blocks();
        &blocks[..self.block_size as usize]
    }

    // Passes over so many blocks.
    fn pass(&mut self, count: u32)
        requires { self.old.next + count ≤ self.old.written }
        ensures { self.new ≡ record self.old { next = self.old.next + count; held = drop (count * self.old.block_size) self.old.held } }
    {
        self.next += count;
        self.kept -= count.min(self.kept);
    }
}

// An end as an item.
fn end_item(end: LogEnd) -> LogItem
    ensures { result ≡ end_item (scan_end end) }
{
    match end {
        LogEnd::Clean => LogItem::Clean,
        LogEnd::Torn { block } => LogItem::Torn { block },
        LogEnd::Bad {
            block,
            len,
            stored,
            computed,
        } => LogItem::Bad {
            block,
            len,
            stored,
            computed,
        },
    }
}
