//! What is proved of shown names, as the contract of a function that does nothing.
ghost use Rattle.std.specs.Prelude.{◌≡◌, List, ℕ};
ghost use Rattle.std.specs.Str.{IsUtf8};
ghost use Rattle.std.specs.Str.Lossy.{utf8_lossy};
ghost use Rattle.gix_ref_hash.specs.Bytes.{shown};

/// What is shown of a name: its bytes where they are UTF-8, and else their text with U+FFFD for each invalid piece
/// (`String::from_utf8_lossy`).
pub fn shown_names()
    ensures text { (bytes : List ℕ) → IsUtf8 bytes → shown bytes ≡ bytes }
    ensures lossy { (bytes : List ℕ) → shown bytes ≡ utf8_lossy bytes }
{}
