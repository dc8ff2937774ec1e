//! What an iterator over packed references asks of lines and names.
ghost use Rattle.std.specs.Prelude.{◌≡◌, ◌<◌, ◌≤◌, ℕ, List, length, nat_eq, true};
ghost use Rattle.std.specs.Bool.{OnTrue};
ghost use Rattle.std.specs.List.{starts_with};
ghost use Rattle.std.specs.Option.{option_map};
ghost use Rattle.gix_ref_target.specs.PackedRecords.{Record};
ghost use Rattle.gix_ref_packed_text.specs.RecordGrammar.{Takes};
ghost use Rattle.gix_ref_packed.specs.Items.{CutsAtFeed, FirstLine, has_prefix, line_feeds, line_without_cr};

use gix_ref_hash::bytes::cut;
use gix_ref_hash::hash::Kind;
use gix_ref_packed_text::packed::decode::take_record;
use memchr::memchr_iter;

/// The line at the front of the text, up to its LF, and what follows it; the whole text where it has no LF.
pub fn cut_line(text: &[u8]) -> (&[u8], &[u8])
    ensures { CutsAtFeed text.now result.0.now result.1.now }
{
    match cut(text, b'\n') {
        Some((line, rest)) => (line, rest),
        None => (text, &text[text.len()..]),
    }
}

/// A line without the CR of a CRLF.
fn strip_cr(line: &[u8]) -> &[u8]
    ensures { result.now ≡ line_without_cr line.now }
{
    if line.ends_with(b"\r") {
        &line[..line.len().saturating_sub(1)]
    } else {
        line
    }
}

/// The first line without its LF or CRLF.
pub fn first_line(text: &[u8]) -> &[u8]
    ensures { FirstLine text.now result.now }
{
    match cut(text, b'\n') {
        Some((line, _)) => strip_cr(line),
        None => text,
    }
}

/// Whether the name begins with the prefix, where there is one.
pub fn begins_with_prefix(name: &[u8], prefix: &Option<Vec<u8>>) -> bool
    ensures { result ≡ has_prefix (option_map (λ p. p.items) prefix.now) name.now }
{
    match prefix {
        Some(prefix) => name.starts_with(prefix.as_slice()),
        None => true,
    }
}

/// Whether a record is at the front of the text, and its name begins with the prefix.
pub fn begins_with_record(text: &[u8], kind: Kind, prefix: &[u8]) -> bool
    ensures { OnTrue result ((r : Record) × (rest : List ℕ) × Takes kind text.now r rest
        × (starts_with nat_eq r.name prefix.now ≡ true)) }
{
    match take_record(text, kind) {
        Some((reference, _)) => reference.name.to_path().starts_with(prefix),
        None => false,
    }
}

/// How many lines end in the text.
pub fn count_line_feeds(text: &[u8]) -> u64
    ensures count { result ≡ line_feeds text.now }
    ensures few { result ≤ length text.now }
{
    memchr_iter(b'\n', text).count() as u64
}
