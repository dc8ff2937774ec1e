//! What the header of `packed-refs` says (`git pack-refs`).
/// Which records name the object that a tag ends at. As gix-ref's private `packed::decode::Peeled`.
#[derive(Clone, Copy, Debug, PartialEq, Eq)]
pub enum Peeled {
    /// The header says nothing of it.
    Unspecified,
    /// Those of `refs/tags/`.
    Partial,
    /// All that name a tag.
    Fully,
}

/// What the header says. As gix-ref's private `packed::decode::Header`.
#[derive(Clone, Copy, Debug, PartialEq, Eq)]
pub struct Header {
    /// Which records name the object that a tag ends at.
    pub peeled: Peeled,
    /// Whether the records are sorted by name.
    pub sorted: bool,
}

/// The header that says nothing: unspecified, and not sorted.
impl Default for Header {
    ghost use Rattle.std.specs.Prelude.{◌≡◌};
    ghost use Rattle.gix_ref_packed_text.specs.HeaderGrammar.{silent};

    ghost is_default = { λ h. h ≡ silent };

    fn default() -> Header {
        Header {
            peeled: Peeled::Unspecified,
            sorted: false,
        }
    }
}
