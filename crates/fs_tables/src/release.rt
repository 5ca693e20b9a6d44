// Extents that are live no more.
ghost use Rattle.std.specs.Prelude.{◌≡◌};
ghost use Rattle.fs_tables.specs.Released.{AreLive, released};

use record_model::Extent;
use zone_alloc::ZoneTable;

/// Takes these extents out of the live blocks and bytes of their zones.
pub(crate) fn release(zones: &mut ZoneTable, extents: &[Extent])
    requires { AreLive extents.now zones.old }
    ensures { zones.new ≡ released extents.now zones.old }
{
    for extent in extents {
        zones.live_remove(*extent);
    }
}
