//! Lines that end in LF or CRLF, and where they begin.
ghost use Rattle.std.specs.Prelude.{◌<◌, ◌≤◌, ℕ, List, MatchOption, length};
ghost use Rattle.gix_ref_packed_text.specs.RecordGrammar.{Newline, Line};
ghost use Rattle.gix_ref_packed_text.specs.Positions.{LineOf, SameLine};

use memchr::{memchr, memchr2, memrchr};
use std::cmp::Ordering;

/// What follows a newline at the front of the text.
pub fn after_newline(text: &[u8]) -> Option<&[u8]>
    ensures { MatchOption result ((rest : List ℕ) → Newline text.now rest → ⊥)
        (λ rest. Newline text.now rest.now) }
{
    match text {
        [b'\n', rest @ ..] => Some(rest),
        [b'\r', b'\n', rest @ ..] => Some(rest),
        _ => None,
    }
}

/// The line at the front of the text, without its newline, and what follows it.
pub fn take_line(text: &[u8]) -> Option<(&[u8], &[u8])>
    ensures { MatchOption result ((line rest : List ℕ) → Line text.now line rest → ⊥)
        (λ p. Line text.now p.0.now p.1.now) }
{
    let Some(end) = memchr2(b'\n', b'\r', text) else {
        return None;
    };
    let Some(rest) = after_newline(&text[end..]) else {
        return None;
    };
    Some((&text[..end], rest))
}

/// Where the line that the byte is in begins; at the end of the text, where the last line does.
pub fn line_start(text: &[u8], offset: usize) -> usize
    requires { offset ≤ length text.now }
    ensures { LineOf text.now result offset }
{
    match memrchr(b'\n', &text[..offset]) {
        Some(last) => last + 1,
        None => 0,
    }
}

/// A place after the byte, and no further than the beginning of the next line: no line begins between.
pub fn line_end(text: &[u8], offset: usize) -> usize
    requires { offset < length text.now }
    ensures beyond { offset < result }
    ensures within { result ≤ length text.now }
    ensures line { SameLine text.now offset result }
{
    match memchr(b'\n', &text[offset..]) {
        Some(after) => offset + after + 1,
        None => text.len(),
    }
}

/// Where a search may go on after the byte, once it has compared the name there: no line begins between. It goes on there
/// only where the name is too low or absent; else this is the next byte, which costs nothing. So it is where the end of
/// the line is not near enough to what is left to be worth its search.
#[inline(always)]
pub fn next_place(text: &[u8], offset: usize, order: Option<Ordering>, near: bool) -> usize
    requires { offset < length text.now }
    ensures beyond { offset < result }
    ensures within { result ≤ length text.now }
    ensures line { SameLine text.now offset result }
{
    if !near {
        return offset + 1;
    }
    match order {
        Some(Ordering::Equal | Ordering::Greater) => offset + 1,
        Some(Ordering::Less) | None => line_end(text, offset),
    }
}
