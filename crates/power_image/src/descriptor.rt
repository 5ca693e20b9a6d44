// The descriptor of a zone: two slots, of which one counts.
ghost use Rattle.std.specs.Prelude.{◌≡◌, ◌+◌, ◌≤◌, not, length, is_some, IfSome};
ghost use Rattle.power_image.specs.Descriptors.{is_open, slot_in, half_in, info_of, is_possible, next_turn, counts, descriptor_of, is_descriptor, said_in, rest_bytes, next_slot, closed, prepared, opened};

use byteorder::{ByteOrder, LittleEndian};
use zone_image::{Geometry, ZoneInfo};

/// The bytes of a descriptor.
pub(crate) const DESCRIPTOR_BYTES: usize = 32;

/// The bytes of a slot.
pub(crate) const SLOT_BYTES: usize = 16;

/// The bytes of a slot behind its gate.
pub(crate) const REST_BYTES: usize = 15;

/// The gate of a slot that is open. Any other closes it.
pub(crate) const OPEN_GATE: u8 = 0xA5;

/// The gate that is written to close a slot.
pub(crate) const CLOSED_GATE: u8 = 0;

// The place of each field of a slot, and those of the part behind the gate.
const TURN_AT: usize = 1;

const SEAL_AT: usize = 2;

const WRITTEN_AT: usize = 4;

const REST_WRITTEN_AT: usize = 3;

/// What a slot says behind its gate: whose turn it is, of three, and the numbers of its zone.
#[derive(Clone, Copy)]
pub(crate) struct Slot {
    pub(crate) turn: u8,
    pub(crate) seal: u8,
    pub(crate) written: u32,
}

/// What a descriptor says: which slot counts, what both say, and whether the other one is open too.
#[derive(Clone, Copy)]
pub(crate) struct Descriptor {
    pub(crate) second: bool,
    pub(crate) counting: Slot,
    pub(crate) other: Slot,
    pub(crate) other_open: bool,
}

/// An empty zone's slot in a new image.
const NO_SLOT: Slot = Slot {
    turn: 0,
    seal: 0,
    written: 0,
};

/// An empty zone's descriptor in a new image.
pub(crate) const NO_DESCRIPTOR: Descriptor = Descriptor {
    second: false,
    counting: NO_SLOT,
    other: NO_SLOT,
    other_open: false,
};

impl Slot {
    /// Its number and seal.
    pub(crate) fn info(self) -> ZoneInfo
        ensures { result ≡ info_of self }
    {
        ZoneInfo {
            written: self.written,
            sealed: self.seal == 1,
        }
    }

    // Whether its number and seal are possible.
    fn is_possible(self, geometry: &Geometry) -> bool
        ensures { result ≡ is_possible geometry.now self }
    {
        self.written <= geometry.capacity
            && self.seal <= 1
            && (self.written != geometry.capacity || self.seal == 1)
    }
}

impl Descriptor {
    /// With the gate of the other slot closed.
    pub(crate) fn closed(self) -> Descriptor
        ensures { result ≡ closed self }
    {
        Descriptor {
            second: self.second,
            counting: self.counting,
            other: self.other,
            other_open: false,
        }
    }

    /// The slot that is to count next, with other numbers.
    pub(crate) fn next_slot(self, info: ZoneInfo) -> Slot
        ensures { result ≡ next_slot self info }
    {
        Slot {
            turn: next_turn(self.counting.turn),
            seal: u8::from(info.sealed),
            written: info.written,
        }
    }

    /// With other bytes behind the gate of the other slot.
    pub(crate) fn prepared(self, info: ZoneInfo) -> Descriptor
        ensures { result ≡ prepared info self }
    {
        Descriptor {
            second: self.second,
            counting: self.counting,
            other: self.next_slot(info),
            other_open: self.other_open,
        }
    }

    /// With that gate opened, so that the slot behind it counts.
    pub(crate) fn opened(self) -> Descriptor
        ensures { result ≡ opened self }
    {
        Descriptor {
            second: !self.second,
            counting: self.other,
            other: self.counting,
            other_open: true,
        }
    }
}

// The turn after this one.
fn next_turn(turn: u8) -> u8
    ensures { result ≡ next_turn turn }
{
    let next = (u32::from(turn) + 1) % 3;
    next as u8
}

// Whether a slot is open.
fn is_open(slot: &[u8]) -> bool
    requires { 16 ≤ length slot.now }
    ensures { result ≡ is_open slot.now }
{
    slot[0] == OPEN_GATE
}

// What a slot says.
fn read_slot(bytes: &[u8]) -> Slot
    requires { length bytes.now ≡ 16 }
    ensures { result ≡ slot_in bytes.now }
{
    Slot {
        turn: bytes[TURN_AT],
        seal: bytes[SEAL_AT],
        written: LittleEndian::read_u32(&bytes[WRITTEN_AT..]),
    }
}

// Whether a slot counts beside another.
fn counts(this: &[u8], other: &[u8]) -> bool
    requires this { length this.now ≡ 16 }
    requires other { length other.now ≡ 16 }
    ensures { result ≡ counts (half_in this.now) (half_in other.now) }
{
    is_open(this) && (!is_open(other) || read_slot(this).turn == next_turn(read_slot(other).turn))
}

// What a descriptor says by its slot that counts.
fn described(second: bool, this: &[u8], other: &[u8]) -> Descriptor
    requires this { length this.now ≡ 16 }
    requires other { length other.now ≡ 16 }
    ensures { result ≡ descriptor_of second (half_in this.now) (half_in other.now) }
{
    Descriptor {
        second,
        counting: read_slot(this),
        other: read_slot(other),
        other_open: is_open(other),
    }
}

/// What a descriptor says, if one of its slots counts and is possible.
#[tactic(auto, unfolding(crate::specs::Descriptors::is_descriptor, crate::specs::Descriptors::said_in))]
pub(crate) fn read(geometry: &Geometry, bytes: &[u8]) -> Option<Descriptor>
    requires { length bytes.now ≡ 32 }
    ensures exact { is_some result ≡ is_descriptor geometry.now bytes.now }
    ensures found { IfSome result (λ d. d ≡ said_in bytes.now) }
{
    let first = &bytes[..SLOT_BYTES];
    let second = &bytes[SLOT_BYTES..];
    if counts(second, first) {
        return possible(geometry, described(true, second, first));
    }
    if counts(first, second) {
        return possible(geometry, described(false, first, second));
    }
    None
}

// A descriptor, if the numbers of its slot that counts are possible.
fn possible(geometry: &Geometry, descriptor: Descriptor) -> Option<Descriptor>
    ensures exact { is_some result ≡ is_possible geometry.now descriptor.counting }
    ensures found { IfSome result (λ d. d ≡ descriptor) }
{
    if descriptor.counting.is_possible(geometry) {
        Some(descriptor)
    } else {
        None
    }
}

/// The bytes of a slot behind its gate.
pub(crate) fn rest(slot: Slot) -> [u8; REST_BYTES]
    ensures { result ≡ rest_bytes slot }
{
    let mut bytes = [0; REST_BYTES];
    bytes[0] = slot.turn;
    bytes[1] = slot.seal;
    LittleEndian::write_u32(&mut bytes[REST_WRITTEN_AT..], slot.written);
    bytes
}
