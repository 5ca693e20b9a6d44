// Why a program is refused, and how it ends then.
ghost use Rattle.std.specs.Prelude.{◌≡◌};
ghost use Rattle.command_model.specs.RefusalTexts.{status_of};
ghost use Rattle.fs_report.specs.Causes.{cause_meant, ending, mount_ending};
ghost use Rattle.fs_report.specs.ExitCode.{exit_code};

use crate::status::Status;
use log_model::Refusal;

/// Why a program is refused.
#[derive(Clone, Copy, Debug, PartialEq, Eq)]
pub enum Cause<'a> {
    /// The words are no command.
    Words,
    /// The device failed.
    DeviceFault,
    /// Standard output failed.
    OutputFault,
    /// Memory is wanting.
    NoMemory,
    /// The file is no image of a zoned device.
    NotAnImage,
    /// An image is there already.
    ImageExists,
    /// The five numbers are no geometry.
    BadGeometry,
    /// A file system is there already.
    FsExists {
        /// The lowest metadata zone that begins with a superblock's magic number.
        zone: u32,
    },
    /// The image mounts to no tree.
    NoMount(Refusal),
    /// This breaks the rule of names.
    BadName(&'a str),
    /// No file has this name.
    NotFound(&'a str),
    /// A file has this name already.
    NameExists(&'a str),
    /// No higher id of a file is left.
    IdsEnd,
    /// No higher sequence of a log is left.
    SequenceEnd,
    /// A log of one zone has no room for the table and the change.
    MetaFull {
        /// The blocks that it would need.
        need: u64,
        /// The blocks that a zone has.
        capacity: u32,
    },
    /// No zone has room for bytes.
    NoSpace,
}

impl Cause<'_> {
    /// How the program ends: with the exit status of the cause (`code`).
    #[tactic(auto, unfolding(command_model::specs::RefusalTexts::status_of))]
    pub fn status(self) -> Status
        ensures exact { result ≡ ending self.entry }
        ensures code { exit_code result ≡ status_of (cause_meant self.entry) }
    {
        match self {
            Cause::Words => Status::Words,
            Cause::DeviceFault => Status::Fault,
            Cause::OutputFault => Status::Fault,
            Cause::NoMemory => Status::Memory,
            Cause::NotAnImage => Status::Refused,
            Cause::ImageExists => Status::Refused,
            Cause::BadGeometry => Status::Refused,
            Cause::FsExists { .. } => Status::Refused,
            Cause::NoMount(refusal) => mount_status(refusal),
            Cause::BadName(_) => Status::Refused,
            Cause::NotFound(_) => Status::Refused,
            Cause::NameExists(_) => Status::Refused,
            Cause::IdsEnd => Status::Refused,
            Cause::SequenceEnd => Status::Refused,
            Cause::MetaFull { .. } => Status::Refused,
            Cause::NoSpace => Status::Refused,
        }
    }
}

// How a program ends where an image doesn't mount.
fn mount_status(refusal: Refusal) -> Status
    ensures { result ≡ mount_ending refusal }
{
    match refusal {
        Refusal::NoFileSystem => Status::Refused,
        Refusal::Unsupported { .. } => Status::Refused,
        Refusal::Differs { .. } => Status::Refused,
        Refusal::Damaged(_) => Status::Damaged,
    }
}
