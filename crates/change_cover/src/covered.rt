//! The law of what a mounted file system promises between two calls.
ghost use Rattle.change_cover.specs.Covered.{RestIsCovered};

/// Where the image is at rest and has the geometry and the zones of the state, where all is recorded and shown and no
/// file has a recovery point, the image covers the state: it mounts to the tree that is shown, and so does every crash.
pub fn rest_is_covered()
    ensures { RestIsCovered }
{}
