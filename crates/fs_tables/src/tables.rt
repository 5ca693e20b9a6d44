// The tables of a mounted file system.
ghost use Rattle.std.specs.Prelude.{◌≡◌};
ghost use Rattle.fs_model.specs.FsState.{collects, zone_states};
ghost use Rattle.fs_tables.specs.MountedTables.{AreMounted, AreSound, state_from};

use extent_map::FileTable;
use log_model::Chosen;
use std::marker::Model;
use zone_alloc::ZoneTable;
use zone_image::Geometry;

/// The files, the zones and the log of a mounted file system, into which nobody writes. Contracts see them as its state, with
/// the room that was made for changes of names.
#[derive(Drop)]
pub struct FsTables {
    pub(crate) geometry: Geometry,
    pub(crate) log: Chosen,
    pub(crate) files: FileTable,
    pub(crate) zones: ZoneTable,
}

impl Model for FsTables {
    ghost use Rattle.fs_tables.specs.MountedTables.{AreMounted, MountedTables, state_from};

    ghost Value = { MountedTables };

    ghost view = { λ t. record {
      state = state_from t.geometry t.log t.files t.zones;
      names_spare = t.files.names_spare;
      reserved = t.files.reserved;
    } };

    ghost invariant = { λ t. AreMounted t.geometry t.log t.files t.zones };
}

impl FsTables {
    /// The file system of these tables.
    pub fn new(geometry: Geometry, log: Chosen, files: FileTable, zones: ZoneTable) -> FsTables
        requires { AreMounted geometry log files zones }
        ensures state { result.state ≡ state_from geometry log files zones }
        ensures names_spare { result.names_spare ≡ files.names_spare }
        ensures reserved { result.reserved ≡ files.reserved }
    {
        FsTables {
            geometry,
            log,
            files,
            zones,
        }
    }

    /// The shape of the device, and what is known of the state of all tables.
    pub fn geometry(&self) -> Geometry
        ensures value { result ≡ self.now.state.geometry }
        ensures sound { AreSound self.now.state }
    {
        self.geometry
    }

    /// The log as it stands.
    pub fn log(&self) -> &Chosen
        ensures { result.now ≡ self.now.state.log }
    {
        &self.log
    }

    /// The files.
    pub fn files(&self) -> &FileTable
        ensures files { result.now.rows ≡ self.now.state.rows }
        ensures greatest { result.now.greatest ≡ self.now.state.greatest }
    {
        &self.files
    }

    /// The zones, with their live blocks and bytes.
    pub fn zones(&self) -> &ZoneTable
        ensures zones { result.now.zones ≡ zone_states self.now.state }
        ensures geometry { result.now.geometry ≡ self.now.state.geometry }
        ensures collect { result.now.collect ≡ collects self.now.state }
    {
        &self.zones
    }
}
