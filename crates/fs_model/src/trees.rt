// What each call makes of the tree that is shown. Each law is the contract of a function that
// does nothing.

ghost use Rattle.std.specs.Prelude.{◌≡◌, ℕ, ◌+◌, ◌≤◌, Bool, List, Some, Ok};
ghost use Rattle.std.specs.List.{AllByRecursion};
ghost use Rattle.zone_image.specs.Image.{Image};
ghost use Rattle.log_model.specs.FileTree.{apply};
ghost use Rattle.log_model.specs.FileTree.Change.{Create, Grow, Link, Rename, Unlink};
ghost use Rattle.fs_model.specs.FsState.{FsState, TableRow, row_of};
ghost use Rattle.fs_model.specs.TreeSteps as tree;
ghost use Rattle.fs_model.specs.FileSteps as file;
ghost use Rattle.fs_model.specs.ValidRows.{AreApart};
ghost use Rattle.fs_model.specs.CrashClauses.{all_bytes, shown_tree};

/// A change of the tree that answers Ok makes just that change of the tree that is shown.
pub fn changes_are_shown()
    ensures create { (i : Image) (name : List ℕ) (hint : ℕ) (sparse : Bool) (now : ℕ) (s : FsState) (id : ℕ)
        → (tree.create name hint sparse now s).answer ≡ Ok id
        → shown_tree i (tree.create name hint sparse now s).last ≡ apply (Create name (s.greatest + 1) hint sparse now) (shown_tree i s) }
    ensures link { (i : Image) (old new : List ℕ) (s : FsState) → AreApart s.rows → (tree.link old new s).answer ≡ Ok tt
        → shown_tree i (tree.link old new s).last ≡ apply (Link old new) (shown_tree i s) }
    ensures rename { (i : Image) (old new : List ℕ) (s : FsState) → AreApart s.rows → (tree.rename old new s).answer ≡ Ok tt
        → shown_tree i (tree.rename old new s).last ≡ apply (Rename old new) (shown_tree i s) }
    ensures delete { (i : Image) (name : List ℕ) (s : FsState) → (tree.delete name s).answer ≡ Ok tt
        → shown_tree i (tree.delete name s).last ≡ apply (Unlink name) (shown_tree i s) }
{}

/// A commit that answers Ok, and a device sync of a sparse file, show all bytes of the file; the
/// time of a commit that shows nothing new stays.
pub fn bytes_are_shown()
    ensures commit { (i : Image) (id now : ℕ) (s : FsState) → AreApart s.rows → (file.commit id now s).answer ≡ Ok tt
        → (r : TableRow) × (row_of id s.rows ≡ Some r)
        × (shown_tree i (file.commit id now s).last ≡ apply (Grow id (all_bytes i r) (file.commit_time now r)) (shown_tree i s)) }
    ensures show { (i : Image) (id now : ℕ) (s : FsState) (r : TableRow) → AreApart s.rows → row_of id s.rows ≡ Some r
        → shown_tree i (file.show id now s).last ≡ apply (Grow id (all_bytes i r) now) (shown_tree i s) }
{}

/// A change of the tree that answers Ok keeps the files apart: no id comes to stand twice, and no
/// name in two files.
pub fn files_stay_apart()
    ensures create { (name : List ℕ) (hint : ℕ) (sparse : Bool) (now : ℕ) (s : FsState) (id : ℕ)
        → AreApart s.rows → AllByRecursion (λ r. r.entry.id ≤ s.greatest) s.rows → (tree.create name hint sparse now s).answer ≡ Ok id
        → AreApart (tree.create name hint sparse now s).last.rows }
    ensures link { (old new : List ℕ) (s : FsState) → AreApart s.rows → (tree.link old new s).answer ≡ Ok tt
        → AreApart (tree.link old new s).last.rows }
    ensures rename { (old new : List ℕ) (s : FsState) → AreApart s.rows → (tree.rename old new s).answer ≡ Ok tt
        → AreApart (tree.rename old new s).last.rows }
    ensures delete { (name : List ℕ) (s : FsState) → AreApart s.rows → (tree.delete name s).answer ≡ Ok tt
        → AreApart (tree.delete name s).last.rows }
{}
