//! The record at the front of a text, by its lines alone.
ghost use Rattle.std.specs.Prelude.{◌≡◌, List, ℕ, MatchOption, IfSome};
ghost use Rattle.std.specs.Bool.{OnTrue};
ghost use Rattle.gix_ref_name.specs.NameGrammar.{IsFullName};
ghost use Rattle.gix_ref_target.specs.PackedRecords.{Record};
ghost use Rattle.gix_ref_packed_text.specs.RecordGrammar.{Takes};
ghost use Rattle.gix_ref_packed_text.specs.OpenedText.{lines_of};
ghost use Rattle.gix_ref_packed_text.specs.Views.{record_of};

use crate::packed::Reference;
use crate::packed::decode::{begins_with_caret, take_record};
use gix_ref_hash::bytes::{cut, strip_front};
use gix_ref_hash::hash::{Kind, split_id};
use gix_ref_name::name::FullNameRef;

/// How many lines the record has.
pub fn line_count(reference: &Reference<'_>) -> u64
    ensures { result ≡ lines_of (record_of reference.now) }
{
    match reference.object {
        Some(_) => 2,
        None => 1,
    }
}

/// Whether the text is a valid full name.
fn is_full_name(text: &[u8]) -> bool
    ensures { OnTrue result (IsFullName text.now) }
{
    FullNameRef::try_from(text).is_ok()
}

/// What follows the record at the front of the text, where that is one line that ends in LF, the common case; `None` for
/// others. It costs less than to decode the record.
fn after_one_line(text: &[u8], kind: Kind) -> Option<&[u8]>
    ensures { IfSome result (λ after. (r : Record) × Takes kind text.now r after.now
        × (lines_of r ≡ 1)) }
{
    let Some((_, rest)) = split_id(text, kind) else {
        return None;
    };
    let Some(line) = strip_front(rest, b" ") else {
        return None;
    };
    let Some((name, after)) = cut(line, b'\n') else {
        return None;
    };
    if !is_full_name(name) || begins_with_caret(after) {
        return None;
    }
    Some(after)
}

/// What follows the record at the front of the text, and how many lines it has.
#[inline(always)]
pub fn after_record(text: &[u8], kind: Kind) -> Option<(&[u8], u64)>
    ensures { MatchOption result ((r : Record) (rest : List ℕ) → Takes kind text.now r rest → ⊥)
        (λ p. (r : Record) × Takes kind text.now r p.0.now × (p.1 ≡ lines_of r)) }
{
    if let Some(after) = after_one_line(text, kind) {
        return Some((after, 1));
    }
    let Some((reference, after)) = take_record(text, kind) else {
        return None;
    };
    Some((after, line_count(&reference)))
}
