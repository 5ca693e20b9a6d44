// The directories of a real host.
ghost use Rattle.std.specs.Prelude.{◌≡◌, ◌≤◌, None, length, IfOk, OnOk, OnErr, IsErrOf};
ghost use Rattle.zone_image.specs.Counts.{HasCause};
ghost use Rattle.host_tree.specs.RealTreeState.{nowhere};

use crate::host_path::HostPath;
use crate::host_tree::{HostError, HostTree, OpenMode};
use crate::real_list::files_below;
use crate::real_open::{create_file, open_file};
use crate::real_paths::cause;
use std::alloc::{Alloc, Global};
use std::fs::File;
use std::io::{ErrorKind, Read, Write};
use std::marker::Model;
use std::rt::Files;

/// The directories of the host. It tells nothing of their files.
///
/// A directory is followed to wherever its path leads, and below it no link is: files behind one are neither listed nor
/// read, and nothing is written through one. `create` answers a fault, with nothing changed there, where a part of the
/// path is a link, or isn't a directory, or is listed by another name, as on a host that takes small letters and capital
/// ones as the same; where the file that stands there isn't a regular one or has other names too; and where the path is
/// absolute or has a part that is empty, `.` or `..`. A name that isn't UTF-8 is a fault of `list`. Nobody else changes
/// the directories meanwhile.
#[derive(Drop)]
pub struct RealTree<R: Files<File = File> + Alloc + Clone + Drop> {
    alloc: Global,
    runtime: R,
    file: Option<File>,
    mode: OpenMode,
    faults: u64,
}

impl<R: Files<File = File> + Alloc + Clone + Drop> Model for RealTree<R> {
    ghost use Rattle.std.specs.Prelude.{◌≢◌, IsSome};
    ghost use Rattle.host_tree.specs.declared.host_tree.OpenMode.TheVariants as open_mode;
    ghost use Rattle.host_tree.specs.RealTreeState.{RealTreeState};

    ghost Value = { RealTreeState };

    ghost view = { λ t. record { mode = t.mode; faults = t.faults } };

    ghost invariant = { λ t. t.mode ≢ open_mode.Closed → IsSome t.file };
}

impl<R: Files<File = File> + Alloc + Clone + Drop> RealTree<R> {
    /// The directories that this runtime reaches. Nothing is open.
    pub fn new(alloc: Global, runtime: R) -> RealTree<R>
        ensures { result ≡ record { mode = OpenMode.Closed; faults = 0 } }
    {
        RealTree {
            alloc,
            runtime,
            file: None,
            mode: OpenMode::Closed,
            faults: 0,
        }
    }

    // Counts a fault, and gives the error back.
    fn counted(&mut self, error: HostError) -> HostError
        ensures answer { result ≡ error }
        ensures same { self.new.mode ≡ self.old.mode }
        ensures cause { HasCause self.old.faults self.new.faults (error ≡ HostError.Fault) }
    {
        if error == HostError::Fault {
            self.faults = self.faults.saturating_add(1);
        }
        error
    }

    // Takes a file that was opened, or closes all.
    fn take(&mut self, answer: Result<File, HostError>, mode: OpenMode) -> Result<(), HostError>
        ensures opened { OnOk result (self.new.mode ≡ mode) }
        ensures closed { OnErr result (self.new.mode ≡ OpenMode.Closed) }
        ensures cause { HasCause self.old.faults self.new.faults (IsErrOf result HostError.Fault) }
    {
        match answer {
            Ok(file) => {
                self.file = Some(file);
                self.mode = mode;
                Ok(())
            }
            Err(error) => {
                self.mode = OpenMode::Closed;
                self.file = None;
                Err(self.counted(error))
            }
        }
    }
}

impl<R: Files<File = File> + Alloc + Clone + Drop> HostTree for RealTree<R> {
    ghost tells = { ⊥ };

    ghost files = { λ _ _ _. None };

    ghost mode = { λ t. t.mode };

    ghost at = { λ _. nowhere };

    ghost faults = { λ t. t.faults };

    fn list(&mut self, alloc: Global, dir: &str) -> Result<Vec<HostPath>, HostError> {
        match files_below(&self.runtime, alloc, dir) {
            Ok(paths) => Ok(paths),
            Err(error) => Err(self.counted(error)),
        }
    }

    fn open(&mut self, dir: &str, path: &HostPath) -> Result<(), HostError> {
        let answer = open_file(&self.runtime, self.alloc, dir, path.as_str());
        self.take(answer, OpenMode::Reading)
    }

    fn read(&mut self, out: &mut [u8]) -> Result<usize, HostError> {
        let answer = match &mut self.file {
            Some(file) => read_some(file, out),
            None => unreachable!(),
        };
        match answer {
            Ok(count) => Ok(count),
            Err(error) => Err(self.counted(error)),
        }
    }

    fn create(&mut self, dir: &str, path: &HostPath) -> Result<(), HostError> {
        let answer = create_file(&self.runtime, self.alloc, dir, path.as_str());
        self.take(answer, OpenMode::Writing)
    }

    // The whole piece is written.
    fn write(&mut self, piece: &[u8]) -> Result<usize, HostError> {
        let answer = match &mut self.file {
            Some(file) => file.write_all(piece),
            None => unreachable!(),
        };
        match answer {
            Ok(()) => Ok(piece.len()),
            Err(error) => Err(self.counted(cause(error))),
        }
    }

    // What was written is made durable first.
    fn close(&mut self) -> Result<(), HostError> {
        let answer = match &self.file {
            Some(file) => kept(file, self.mode),
            None => unreachable!(),
        };
        self.mode = OpenMode::Closed;
        self.file = None;
        match answer {
            Ok(()) => Ok(()),
            Err(error) => Err(self.counted(error)),
        }
    }
}

// Reads the next bytes; a read that a signal interrupts is done anew.
fn read_some(file: &mut File, out: &mut [u8]) -> Result<usize, HostError>
    ensures { IfOk result (λ n. n ≤ length out.old) }
{
    for _ in 0..u64::MAX {
        match file.read(out) {
            Ok(count) => return Ok(count),
            Err(error) if error.kind() == ErrorKind::Interrupted => {}
            Err(error) => return Err(cause(error)),
        }
    }
    Err(HostError::Fault)
}

// Makes a file that was written durable.
fn kept(file: &File, mode: OpenMode) -> Result<(), HostError> {
    if mode == OpenMode::Writing {
        file.sync_all().map_err(cause)?;
    }
    Ok(())
}
