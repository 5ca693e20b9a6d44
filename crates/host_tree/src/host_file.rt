// A file of a host tree in memory.
ghost use Rattle.std.specs.Prelude.{◌≡◌};

use crate::host_path::HostPath;
use record_model::Payload;

/// A file of a host: its directory, its path in it, and its bytes.
#[derive(Debug, Drop)]
pub struct HostFile {
    pub dir: HostPath,
    pub path: HostPath,
    pub bytes: Payload,
}
