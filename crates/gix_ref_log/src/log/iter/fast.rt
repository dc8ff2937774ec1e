//! The fast path for lines of the common form: ids of SHA-1, a time of ten digits, and a tab.
ghost use Rattle.std.specs.Prelude.{◌<◌, ℕ, List, length, IfSome};
ghost use Rattle.gix_ref_hash.specs.Bytes.{NoByte, Cuts};
ghost use Rattle.gix_ref_log.specs.LogIds.{IdFront};
ghost use Rattle.gix_ref_log.specs.LogLines.{IsLine, line_ref_parts};
ghost use Rattle.gix_ref_log.specs.internal.LogFast.{HasFront, BeginsWithLine};

use crate::actor::SignatureRef;
use crate::log::line::LineRef;
use crate::log::lines::strip_cr;
use gix_ref_hash::bytes::{cut, find_tab_or_lf};
use gix_ref_hash::hash::are_hex;

/// The ids of a SHA-1 at the front, and what follows the space after them. `None` says nothing.
#[inline(always)]
fn sha1_ids(text: &[u8]) -> Option<(&[u8], &[u8], &[u8])>
    ensures { IfSome result (λ p. (ids : List ℕ) × IdFront text.now p.0.now ids
        × IdFront ids p.1.now p.2.now) }
{
    if text.len() < 82 || text[40] != b' ' || text[81] != b' ' {
        return None;
    }
    let previous = &text[..40];
    let new = &text[41..81];
    let rest = &text[82..];
    if !(are_hex(previous) & are_hex(new)) {
        return None;
    }
    Some((previous, new, rest))
}

/// The text before the first tab and the text after it, where no LF comes before the tab. `None` says nothing.
#[inline(always)]
fn cut_at_tab(text: &[u8]) -> Option<(&[u8], &[u8])>
    ensures { IfSome result (λ p. Cuts 9 text.now p.0.now p.1.now × NoByte 10 p.0.now) }
{
    let place = find_tab_or_lf(text)?;
    if text[place] != b'\t' {
        return None;
    }
    Some((&text[..place], &text[place + 1..]))
}

/// The line of a text, where it has the common form: the message is all that follows the tab. Without LF in the text it is
/// the line of the text. Of another text `None` says nothing.
#[inline(always)]
pub(super) fn fast_decode<'a>(text: &'a [u8]) -> Option<LineRef<'a>>
    ensures front { IfSome result (λ line. HasFront text.now (line_ref_parts line)) }
    ensures line { NoByte 10 text.now → IfSome result
        (λ line. IsLine text.now (line_ref_parts line)) }
{
    let (previous_oid, new_oid, rest) = sha1_ids(text)?;
    let (head, message) = cut_at_tab(rest)?;
    let signature = SignatureRef::decode_fast(head)?;
    Some(LineRef {
        previous_oid,
        new_oid,
        signature,
        message,
    })
}

/// The first line of a log, where it has the common form, and what follows it. The ids are read first, and then the
/// signature up to its tab, so that no byte of them is searched for LF. Of another log `None` says nothing.
#[inline(always)]
pub(super) fn fast_first_line<'a>(log: &'a [u8]) -> Option<(LineRef<'a>, &'a [u8])>
    ensures line { IfSome result (λ p. BeginsWithLine log.now p.0 p.1.now) }
    ensures shorter { IfSome result (λ p. length p.1.now < length log.now) }
{
    let line = fast_decode(log)?;
    let (message, rest) = cut(line.message, b'\n')?;
    let first = LineRef {
        previous_oid: line.previous_oid,
        new_oid: line.new_oid,
        signature: line.signature,
        message: strip_cr(message, true),
    };
    Some((first, rest))
}
