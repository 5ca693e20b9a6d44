// The limits of a geometry, and byte addresses.
ghost use Rattle.std.specs.Prelude.{◌≡◌, ◌↔◌, ◌≤◌, IsTrue, IsNone, IfSome};
ghost use Rattle.zone_image.specs.Address.{is_valid, device_bytes, address_of, IsPlaceOf, IsZoneBytes};

use crate::{Geometry, Place};

impl Geometry {
    /// Whether the five numbers are within their limits.
    pub fn valid(&self) -> bool
        ensures { IsTrue result ↔ IsTrue (is_valid self.now) }
    {
        (self.block == 512 || self.block == 4096)
            && 8 <= self.capacity
            && self.capacity <= self.zone_blocks
            && 32 <= self.zones
            && self.zones <= 65536
            && 3 <= self.active_limit
            && self.active_limit <= self.zones
            && (self.zone_blocks as u64) * (self.block as u64) < 4_294_967_296
    }

    /// The byte address of an offset in a zone, counted from the start of zone 0.
    pub fn address(&self, zone: u32, offset: u32) -> u64
        requires { IsTrue (is_valid self.now) }
        ensures { result ≡ address_of self.now zone offset }
    {
        u64::from(zone) * self.zone_bytes() + u64::from(offset)
    }

    /// The zone and offset of a byte address. None exactly where the address is past the last zone.
    pub fn place(&self, address: u64) -> Option<Place>
        requires { IsTrue (is_valid self.now) }
        ensures past { IsNone result ↔ (device_bytes self.now ≤ address) }
        ensures found { IfSome result (IsPlaceOf self.now address) }
    {
        let size = self.zone_bytes();
        let zone = address / size;
        if zone < u64::from(self.zones) {
            Some(Place {
                zone: zone as u32,
                offset: (address % size) as u32,
            })
        } else {
            None
        }
    }

    fn zone_bytes(&self) -> u64
        requires { IsTrue (is_valid self.now) }
        ensures { IsZoneBytes self.now result }
    {
        u64::from(self.zone_blocks) * u64::from(self.block)
    }
}
