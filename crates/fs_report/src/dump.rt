// The dump of a file system's tables.
ghost use Rattle.std.specs.Prelude.{◌≡◌, ◌∷◌, ◌++◌, [], IfOk, OnOk, OnErr};
ghost use Rattle.command_model.specs.DumpText.{dump_file};
ghost use Rattle.fs_report.specs.DumpState.{text_of_parts, zone_part};

use crate::dump_values::{file_value, push_value, text_of_values, zone_value};
use fs_model::ZoneState;
use record_model::{FileEntry, Payload};
use serde_json::Value;
use std::alloc::{AllocError, Global};
use std::marker::Model;

/// A dump as it is built: the files and the zones that it has so far, as values of JSON. Contracts see their texts.
#[derive(Drop)]
pub struct Dump {
    files: Vec<Value>,
    zones: Vec<Value>,
}

impl Model for Dump {
    ghost use Rattle.fs_report.specs.DumpState.{DumpState};
    ghost use Rattle.fs_report.specs.DumpValues.{HaveNoFloat, texts_of};

    ghost Value = { DumpState };

    ghost view = { λ d. record { files = texts_of d.files.items; zones = texts_of d.zones.items } };

    ghost invariant = { λ d. HaveNoFloat d.files.items × HaveNoFloat d.zones.items };
}

impl Dump {
    /// A dump without files and zones.
    pub fn new(alloc: Global) -> Dump
        ensures files { result.files ≡ [] }
        ensures zones { result.zones ≡ [] }
    {
        Dump {
            files: Vec::new(alloc),
            zones: Vec::new(alloc),
        }
    }

    /// Adds a file behind the others. After `AllocError`, which comes for want of memory, the dump is as before.
    pub fn add_file(&mut self, alloc: Global, file: &FileEntry) -> Result<(), AllocError>
        ensures added { OnOk result (self.new.files ≡ self.old.files ++ dump_file file.now ∷ []) }
        ensures unchanged { OnErr result (self.new.files ≡ self.old.files) }
        ensures zones { self.new.zones ≡ self.old.zones }
    {
        let value = file_value(alloc, file)?;
        push_value(&mut self.files, value)?;
        Ok(())
    }

    /// Adds a zone behind the others, if it has a block or a seal. After `AllocError`, which comes for want of memory,
    /// the dump is as before.
    pub fn add_zone(
        &mut self,
        alloc: Global,
        number: u32,
        zone: &ZoneState,
    ) -> Result<(), AllocError>
        ensures added { OnOk result (self.new.zones ≡ self.old.zones ++ zone_part (number, zone.now)) }
        ensures unchanged { OnErr result (self.new.zones ≡ self.old.zones) }
        ensures files { self.new.files ≡ self.old.files }
    {
        let info = zone.info;
        if info.written == 0 && !info.sealed {
            return Ok(());
        }
        let value = zone_value(alloc, number, zone)?;
        push_value(&mut self.zones, value)?;
        Ok(())
    }

    /// The text of the dump: one line of compact JSON, the keys of each object in the order of their bytes.
    /// `AllocError` comes for want of memory.
    pub fn text(self, alloc: Global) -> Result<Payload, AllocError>
        ensures { IfOk result (λ text. text ≡ text_of_parts self.files self.zones) }
    {
        let Dump { files, zones } = self;
        let text = text_of_values(alloc, files, zones)?;
        Ok(text)
    }
}
