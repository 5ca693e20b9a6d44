// Paths of a host.
ghost use Rattle.std.specs.Prelude.{◌≡◌, Some, refl, IfOk, string_bytes, nat_eq};
ghost use Rattle.std.specs.Cmp.{partial_equiv_from_equiv};
ghost use Rattle.std.specs.Cmp.Lexicographic.{pointwise, slice_cmp, nat_list_cmp_total, nat_list_eq_equiv, texts_ties, texts_po};
ghost use Rattle.std.specs.Ordering.{nat_cmp};

use std::alloc::{AllocError, Global};
use std::cmp::Ordering;
use std::marker::Model;

/// A path on a host: that of a directory, or of a file below one. It is UTF-8, and any text is taken.
/// Contracts see its bytes.
#[derive(Debug, Drop)]
pub struct HostPath {
    text: String,
}

impl Model for HostPath {
    ghost use Rattle.std.specs.Prelude.{List, ℕ, string_bytes};

    ghost Value = { List ℕ };

    ghost view = { λ p. string_bytes p.text };
}

impl HostPath {
    /// The path that this text is. It takes no memory.
    pub fn new(text: String) -> HostPath
        ensures { result ≡ string_bytes text }
    {
        HostPath { text }
    }

    /// The bytes of the path.
    pub fn items(&self) -> &[u8]
        ensures { result.now ≡ self.now }
    {
        self.text.as_bytes()
    }

    /// The path as a text.
    pub fn as_str(&self) -> &str
        ensures { result.now ≡ self.now }
    {
        self.text.as_str()
    }

    // The path that this text is, in memory of its own.
    pub(crate) fn from_text(alloc: Global, text: &str) -> Result<HostPath, AllocError>
        ensures { IfOk result (λ path. path ≡ text.now) }
    {
        Ok(HostPath::new(String::from_str(alloc, text)?))
    }
}

impl PartialEq for HostPath {
    ghost eq = { pointwise nat_eq };

    ghost laws = { partial_equiv_from_equiv nat_list_eq_equiv };

    fn eq(&self, other: &HostPath) -> bool {
        self.items() == other.items()
    }
}

impl Eq for HostPath {
    ghost laws = { nat_list_eq_equiv };
}

/// Paths are in the order of their bytes.
impl Ord for HostPath {
    ghost cmp = { slice_cmp nat_cmp };

    ghost total = { nat_list_cmp_total };

    ghost matches_partial_cmp = { λ _ _. refl };

    ghost matches_eq = { texts_ties };

    fn cmp(&self, other: &HostPath) -> Ordering {
        self.items().cmp(other.items())
    }
}

impl PartialOrd for HostPath {
    ghost partial_cmp = { λ a b. Some (slice_cmp nat_cmp a b) };

    ghost laws = { texts_po };

    fn partial_cmp(&self, other: &HostPath) -> Option<Ordering> {
        Some(self.cmp(other))
    }
}
