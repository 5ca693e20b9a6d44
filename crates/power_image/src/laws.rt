//! Laws of files and images under a loss of power. Each function does nothing, and its contract is the law.
ghost use Rattle.std.specs.Prelude.{◌≡◌, ℕ, ◌<◌, ◌≤◌, ◌==◌, Bool, true, List, length, map, slice_index_or, slice_set};
ghost use Rattle.zone_image.specs.declared.Geometry.{Geometry};
ghost use Rattle.zone_image.specs.declared.ZoneInfo.{ZoneInfo};
ghost use Rattle.zone_image.specs.Infos.{info_at, active_zones};
ghost use Rattle.image_backend.specs.Format.{geometry_of};
ghost use Rattle.power_image.specs.declared.descriptor.Descriptor.{Descriptor};
ghost use Rattle.power_image.specs.OpenBytes.{filled, taken, MayLeave};
ghost use Rattle.power_image.specs.Descriptors.{info_of, told, is_image};
ghost use Rattle.power_image.specs.Table.{no_descriptor, Describes};
ghost use Rattle.power_image.specs.Cuts.{LeftOf, TellsOldOrNew, FitsHowever, Grows, infos_found};

/// Whatever fills the open places may be left, and whatever may be left fills them.
pub fn fillings_are_left()
    ensures may { (flags : List Bool) (bytes fill : List ℕ) → MayLeave flags bytes (filled flags bytes fill) }
    ensures each { (flags : List Bool) (bytes left : List ℕ) → length flags ≡ length bytes → MayLeave flags bytes left
        → filled flags bytes (taken flags left) ≡ left }
{}

/// Whatever a loss of power leaves of a file within a change of descriptors holds an image, and each zone is told as before the
/// change or, where it is being opened, as after it. What it leaves is the header and, of each descriptor, all but what was
/// written since the file was last made durable: one gate, or the bytes behind a gate that is closed. The numbers of active zones
/// are to fit however the zones are told.
pub fn cut_changes_leave_an_image()
    ensures found { (g : Geometry) (opening : ℕ → Bool) (ds : List Descriptor) (bytes left : List ℕ)
        → Describes bytes g ds → LeftOf g opening ds bytes left → FitsHowever g opening ds → is_image left ≡ true }
    ensures shape { (g : Geometry) (opening : ℕ → Bool) (ds : List Descriptor) (bytes left : List ℕ)
        → Describes bytes g ds → LeftOf g opening ds bytes left → geometry_of left ≡ g }
    ensures each { (g : Geometry) (opening : ℕ → Bool) (ds : List Descriptor) (bytes left : List ℕ)
        → Describes bytes g ds → LeftOf g opening ds bytes left → TellsOldOrNew g opening ds (infos_found g left) }
{}

/// A change of one zone's descriptor fits however the zone is told, where the numbers before the change and after it do. A change
/// of several fits where none that is active becomes inactive, and the numbers after it do.
pub fn changes_fit()
    ensures one { (g : Geometry) (zone : ℕ) (ds : List Descriptor) → length ds ≡ g.zones → zone < g.zones
        → active_zones (map told ds) ≤ g.active_limit
        → active_zones (slice_set (map told ds) zone (info_of (slice_index_or ds zone no_descriptor).other)) ≤ g.active_limit
        → FitsHowever g (λ n. n == zone) ds }
    ensures several { (g : Geometry) (opening : ℕ → Bool) (ds : List Descriptor) (after : List ZoneInfo)
        → length after ≡ g.zones → active_zones after ≤ g.active_limit
        → ((n : ℕ) → n < g.zones → Grows (opening n) (slice_index_or ds n no_descriptor) (info_at after n)) → FitsHowever g opening ds }
{}
