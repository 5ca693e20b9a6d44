// What each call leaves alone. Each law is the contract of a function that does nothing.

ghost use Rattle.std.specs.Prelude.{◌≡◌, ◌⊎◌, ℕ, ◌+◌, Bool, List, [], ◌∷◌, Err};
ghost use Rattle.record_model.specs.declared.types.Extent.{Extent};
ghost use Rattle.fs_model.specs.declared.error.FsError.{FsError};
ghost use Rattle.fs_model.specs.declared.policy.Plan.{Plan};
ghost use Rattle.fs_model.specs.declared.zones.Move.{Move};
ghost use Rattle.fs_model.specs.FsState.{FsState};
ghost use Rattle.fs_model.specs.LogSteps.{append_blocks, roll};
ghost use Rattle.fs_model.specs.TreeSteps as tree;
ghost use Rattle.fs_model.specs.FileSteps as file;
ghost use Rattle.fs_model.specs.Untouched.{LosesNoFile, OnlyTouches, zones_of_plan};

/// A change of the tree, in every state that it passes, leaves alone each data zone that somebody
/// holds and the data of each file; only a new file comes in, and files without names go.
pub fn tree_changes_touch_names()
    ensures create { (name : List ℕ) (hint : ℕ) (sparse : Bool) (now : ℕ) (s : FsState)
        → OnlyTouches [] ((s.greatest + 1) ∷ []) (tree.create name hint sparse now) s }
    ensures link { (old new : List ℕ) (s : FsState) → OnlyTouches [] [] (tree.link old new) s }
    ensures rename { (old new : List ℕ) (s : FsState) → OnlyTouches [] [] (tree.rename old new) s }
    ensures delete { (name : List ℕ) (s : FsState) → OnlyTouches [] [] (tree.delete name) s }
    ensures roll { (s : FsState) → OnlyTouches [] [] roll s }
{}

/// A call on a file leaves alone each zone that somebody holds and every other file; a zone that is
/// taken is one that nobody held.
pub fn file_calls_touch_their_file()
    ensures commit { (id now : ℕ) (s : FsState) → OnlyTouches [] (id ∷ []) (file.commit id now) s }
    ensures take_zone { (id : ℕ) (s : FsState) → OnlyTouches [] (id ∷ []) (file.take_zone id) s }
    ensures note_extent { (id : ℕ) (x : Extent) (s : FsState) → OnlyTouches [] (id ∷ []) (file.note_extent id x) s }
    ensures show { (id now : ℕ) (s : FsState) → OnlyTouches [] (id ∷ []) (file.show id now) s }
    ensures replace { (id : ℕ) (moves : List Move) (s : FsState) → OnlyTouches [] (id ∷ []) (file.replace id moves) s }
{}

/// A call on a zone, or on the zones of a plan, leaves alone every other zone that somebody holds
/// and every file.
pub fn zone_calls_touch_their_zone()
    ensures put_blocks { (zone blocks : ℕ) (s : FsState) → OnlyTouches (zone ∷ []) [] (append_blocks zone blocks) s }
    ensures give_back { (zone : ℕ) (close : Bool) (s : FsState) → OnlyTouches (zone ∷ []) [] (file.give_back zone close) s }
    ensures hold { (p : Plan) (s : FsState) → OnlyTouches (zones_of_plan p) [] (file.hold p) s }
    ensures reset_victim { (zone : ℕ) (s : FsState) → OnlyTouches (zone ∷ []) [] (file.reset_victim zone) s }
{}

/// A call on a file or on a zone loses no file and makes none, in every state that it passes.
pub fn calls_lose_no_file()
    ensures commit { (id now : ℕ) → LosesNoFile (file.commit id now) }
    ensures take_zone { (id : ℕ) → LosesNoFile (file.take_zone id) }
    ensures note_extent { (id : ℕ) (x : Extent) → LosesNoFile (file.note_extent id x) }
    ensures show { (id now : ℕ) → LosesNoFile (file.show id now) }
    ensures replace { (id : ℕ) (moves : List Move) → LosesNoFile (file.replace id moves) }
    ensures put_blocks { (zone blocks : ℕ) → LosesNoFile (append_blocks zone blocks) }
    ensures give_back { (zone : ℕ) (close : Bool) → LosesNoFile (file.give_back zone close) }
    ensures hold { (p : Plan) → LosesNoFile (file.hold p) }
    ensures reset_victim { (zone : ℕ) → LosesNoFile (file.reset_victim zone) }
{}

/// A deletion, a commit and a collector's replacement are never refused for want of room: only
/// where the name or the file isn't there, or at the end of the sequence.
pub fn records_that_always_fit()
    ensures delete { (name : List ℕ) (s : FsState) (e : FsError)
        → (tree.delete name s).answer ≡ Err e → (e ≡ FsError.NotFound) ⊎ (e ≡ FsError.SequenceEnd) }
    ensures commit { (id now : ℕ) (s : FsState) (e : FsError)
        → (file.commit id now s).answer ≡ Err e → (e ≡ FsError.Gone) ⊎ (e ≡ FsError.SequenceEnd) }
    ensures replace { (id : ℕ) (moves : List Move) (s : FsState) (e : FsError)
        → (file.replace id moves s).answer ≡ Err e → (e ≡ FsError.Gone) ⊎ (e ≡ FsError.SequenceEnd) }
{}
