//! Helpers on texts of bytes that names and the formats share: fronts, cuts at a byte, spaces and line ends.
ghost use Rattle.std.specs.Prelude.{◌≡◌, ◌≢◌, ◌++◌, ◌↔◌, List, ℕ, IsTrue, MatchOption};
ghost use Rattle.gix_ref_hash.specs.Bytes.{BeginsWith, NoByte, Cuts, CutsLast, SkipsSpaces, CutsLine, ends_line};

use bstr::ByteSlice;

mod search;

pub use search::{find_tab_or_lf, first_place, last_place};

/// What follows `front` in the text, or `None` where the text does not begin with it (`slice::strip_prefix`).
pub fn strip_front<'a>(text: &'a [u8], front: &[u8]) -> Option<&'a [u8]>
    ensures { MatchOption result ((rest : List ℕ) → text.now ≢ front.now ++ rest)
        (λ rest. text.now ≡ front.now ++ rest.now) }
{
    text.strip_prefix(front)
}

/// Whether the text begins with `front` (`slice::starts_with`).
pub fn begins_with(text: &[u8], front: &[u8]) -> bool
    ensures { IsTrue result ↔ BeginsWith text.now front.now }
{
    strip_front(text, front).is_some()
}

/// The text before the first such byte and the text after it, or `None` where the text has none (`str::split_once`).
#[inline(always)]
pub fn cut(text: &[u8], byte: u8) -> Option<(&[u8], &[u8])>
    ensures { MatchOption result (NoByte byte text.now) (λ p. Cuts byte text.now p.0.now p.1.now) }
{
    match first_place(text, byte) {
        Some(i) => Some((&text[..i], &text[i + 1..])),
        None => None,
    }
}

/// The text before the last such byte and the text after it, or `None` where the text has none (`str::rsplit_once`).
#[inline(always)]
pub fn cut_last(text: &[u8], byte: u8) -> Option<(&[u8], &[u8])>
    ensures { MatchOption result (NoByte byte text.now)
        (λ p. CutsLast byte text.now p.0.now p.1.now) }
{
    match last_place(text, byte) {
        Some(i) => Some((&text[..i], &text[i + 1..])),
        None => None,
    }
}

/// The first component of a path and what follows its slash, or `None` where there is no slash.
pub fn split_component(path: &[u8]) -> Option<(&[u8], &[u8])>
    ensures { MatchOption result (NoByte 47 path.now) (λ p. Cuts 47 path.now p.0.now p.1.now) }
{
    cut(path, b'/')
}

/// What follows the spaces at the front of the text.
pub fn after_spaces(text: &[u8]) -> &[u8]
    ensures { SkipsSpaces text.now result.now }
{
    for (i, byte) in text.iter().enumerate() {
        if *byte != b' ' {
            return &text[i..];
        }
    }
    &text[text.len()..]
}

/// Whether the byte ends a line: NUL, LF or CR.
fn is_line_end(byte: u8) -> bool
    ensures { result ≡ ends_line byte }
{
    matches!(byte, 0 | b'\n' | b'\r')
}

/// The text before its first NUL, CR or LF, or the whole text where it has none.
pub fn up_to_line_end(text: &[u8]) -> &[u8]
    ensures { CutsLine text.now result.now }
{
    for (i, byte) in text.iter().enumerate() {
        if is_line_end(*byte) {
            return &text[..i];
        }
    }
    text
}
