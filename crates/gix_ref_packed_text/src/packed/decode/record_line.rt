//! Reading a record of `packed-refs`.
ghost use Rattle.std.specs.Bool.{OnTrue};
ghost use Rattle.std.specs.Prelude.{◌≡◌, ◌≢◌, ◌*◌, ◌<◌, ℕ, List, [], false, length, take, slice_index, Option, MatchOption, MatchBool, IfOk, IfErr, IfSome, OnErr};
ghost use Rattle.std.specs.Cmp.Lexicographic.{slice_cmp};
ghost use Rattle.std.specs.Ordering.{nat_cmp};
ghost use Rattle.std.specs.declared.cmp.Ordering.TheVariants.{Equal};
ghost use Rattle.std.specs.Option.{option_map};
ghost use Rattle.gix_ref_hash.specs.Bytes.{StopsAt};
ghost use Rattle.gix_ref_hash.specs.Ids.{IsHexOf, kind_len};
ghost use Rattle.gix_ref_target.specs.PackedRecords.{Record};
ghost use Rattle.gix_ref_packed_text.specs.RecordGrammar.{RecordLine, Takes, OptionalPeeledLine, is_caret};
ghost use Rattle.gix_ref_packed_text.specs.Positions.{NameAt, Compares, IsPlain, OrdersIfNamed};
ghost use Rattle.gix_ref_packed_text.specs.Views.{record_of};

use crate::packed::Reference;
use crate::packed::lines::{after_newline, take_line};
use gix_ref_hash::bytes::strip_front;
use gix_ref_hash::hash::{Kind, split_id};
use gix_ref_name::name::FullNameRef;
use std::cmp::Ordering;

/// The bytes in the places of id and name, and what follows their line. Neither is checked.
pub fn split_record_line(text: &[u8], kind: Kind) -> Option<(&[u8], &[u8], &[u8])>
    ensures { MatchOption result ((digits name rest : List ℕ) → RecordLine kind text.now digits name
        rest → ⊥) (λ p. RecordLine kind text.now p.0.now p.1.now p.2.now) }
{
    let len = kind.len_in_hex();
    match text.get(len) {
        Some(b' ') => {}
        _ => return None,
    }
    let Some((name, rest)) = take_line(&text[len + 1..]) else {
        return None;
    };
    Some((&text[..len], name, rest))
}

/// Whether a text as long as the digits of an id of the kind is that.
fn is_id(text: &[u8], kind: Kind) -> bool
    requires { length text.now ≡ 2 * kind_len kind }
    ensures { MatchBool result (IsHexOf kind text.now) (IsHexOf kind text.now → ⊥) }
{
    match split_id(text, kind) {
        Some(_) => true,
        None => false,
    }
}

/// The object of a line with `^`, if one follows a record, and what follows it.
fn take_peeled(text: &[u8], kind: Kind) -> Option<(Option<&[u8]>, &[u8])>
    ensures { MatchOption result ((object : Option (List ℕ)) (rest : List ℕ) →
        OptionalPeeledLine kind text.now object rest → ⊥)
        (λ p. OptionalPeeledLine kind text.now (option_map (λ o. o.now) p.0) p.1.now) }
{
    let Some(line) = strip_front(text, b"^") else {
        return Some((None, text));
    };
    let Some((object, after)) = split_id(line, kind) else {
        return None;
    };
    let Some(rest) = after_newline(after) else {
        return None;
    };
    Some((Some(object), rest))
}

/// The record at the front of the text with its peeled line, and what follows it.
pub fn take_record<'a>(text: &'a [u8], kind: Kind) -> Option<(Reference<'a>, &'a [u8])>
    ensures { MatchOption result ((r : Record) (rest : List ℕ) → Takes kind text.now r rest → ⊥)
        (λ p. Takes kind text.now (record_of p.0) p.1.now) }
{
    let Some((target, name, after)) = split_record_line(text, kind) else {
        return None;
    };
    if !is_id(target, kind) {
        return None;
    }
    let Ok(name) = FullNameRef::try_from(name) else {
        return None;
    };
    let Some((object, rest)) = take_peeled(after, kind) else {
        return None;
    };
    let reference = Reference {
        name,
        target,
        object,
    };
    Some((reference, rest))
}

/// Reads the record at the front of the input, which then begins after it: an id of the kind in hex digits, a space, a
/// valid full name, and LF or CRLF; where a `^` follows, that, an id of the kind, and LF or CRLF. The error, where no
/// record is there, leaves the input where it was. As gix-ref's private `packed::decode::reference` (`git pack-refs`).
///
/// ```text
/// let mut text = b"1111111111111111111111111111111111111111 refs/heads/a\n".as_slice();
/// let record = reference(&mut text, Kind::Sha1)?; // of `refs/heads/a`; the text is empty
/// ```
pub fn reference<'a>(input: &mut &'a [u8], kind: Kind) -> Result<Reference<'a>, ()>
    ensures taken { IfOk result (λ r. Takes kind input.old.now (record_of r) input.new.now) }
    ensures refused { IfErr result (λ _. (r : Record) (rest : List ℕ) →
        Takes kind input.old.now r rest → ⊥) }
    ensures left { OnErr result (input.new ≡ input.old) }
{
    match take_record(input, kind) {
        Some((reference, rest)) => {
            *input = rest;
            Ok(reference)
        }
        None => Err(()),
    }
}

/// Whether the text begins with `^`.
#[inline(always)]
pub fn begins_with_caret(text: &[u8]) -> bool
    ensures { MatchBool result (StopsAt is_caret text.now → ⊥) (StopsAt is_caret text.now) }
{
    match text {
        [b'^', ..] => true,
        _ => false,
    }
}

/// The bytes in the place of the name, where a record begins; `None` where no line of a record's form is there, it begins
/// with `^`, or the name is empty. Neither id nor name is checked. As gix-ref's private
/// `packed::decode::name_at_record_start`.
pub fn name_at_record_start(text: &[u8], kind: Kind) -> Option<&[u8]>
    ensures { MatchOption result ((name : List ℕ) → name ≢ [] → NameAt kind text.now name → ⊥)
        (λ name. (name.now ≢ []) × NameAt kind text.now name.now) }
{
    let Some((_, name, _)) = split_record_line(text, kind) else {
        return None;
    };
    if name.is_empty() || begins_with_caret(text) {
        return None;
    }
    Some(name)
}

/// Whether no byte up to CR is in the name.
pub fn has_no_control(name: &[u8]) -> bool
    ensures { MatchBool result (IsPlain name.now) (IsPlain name.now → ⊥) }
{
    let mut least = u8::MAX;
    for byte in name {
        if *byte < least {
            least = *byte;
        }
    }
    least > b'\r'
}

/// Whether LF follows a name in the text, where the text begins with it; an empty name does not count.
#[inline(always)]
fn ends_in_line_feed(text: &[u8], name: &[u8]) -> bool
    ensures { OnTrue result ((name.now ≢ []) × (length name.now < length text.now)
        × (slice_index text.now (length name.now) ≡ 10)) }
{
    match text.get(name.len()) {
        Some(b'\n') => !name.is_empty(),
        _ => false,
    }
}

/// How the name at the front of a record, of which the part may be a beginning, compares with the one that is wanted;
/// `None` where the part does not decide. Whether the line of another name ends is not looked at: a line's end is
/// below each byte of a plain name.
#[inline(always)]
pub fn fast_compare(part: &[u8], kind: Kind, wanted: &[u8]) -> Option<Ordering>
    requires { IsPlain wanted.now }
    ensures compares { IfSome result (λ order. (text name : List ℕ) →
        part.now ≡ take (length part.now) text → NameAt kind text name →
        order ≡ slice_cmp nat_cmp name wanted.now) }
    ensures named { IfSome result (λ order. order ≡ Equal → (text : List ℕ) → part.now
        ≡ take (length part.now) text → (name : List ℕ) × NameAt kind text name × (name ≢ [])) }
{
    let len = kind.len_in_hex();
    match part.get(len) {
        Some(b' ') => {}
        _ => return None,
    }
    let after = &part[len + 1..];
    let len = after.len().min(wanted.len());
    match after[..len].cmp(&wanted[..len]) {
        Ordering::Equal => if ends_in_line_feed(after, wanted) && !begins_with_caret(part) {
            Some(Ordering::Equal)
        } else {
            None
        },
        Ordering::Less => Some(Ordering::Less),
        Ordering::Greater => Some(Ordering::Greater),
    }
}

/// How the name at the front of a record compares with the one that is wanted. Where `sure` does not hold, and bytes
/// decide, it does not look whether the name's line ends.
#[inline(always)]
pub fn order_at(text: &[u8], kind: Kind, wanted: &[u8], sure: bool) -> Option<Ordering>
    requires { sure ≡ false → IsPlain wanted.now }
    ensures { OrdersIfNamed kind text.now wanted.now sure result }
{
    if !sure {
        if let Some(order) = fast_compare(text, kind, wanted) {
            return Some(order);
        }
    }
    name_order(text, kind, wanted)
}

/// How the name at the front of a record compares with the one that is wanted.
fn name_order(text: &[u8], kind: Kind, wanted: &[u8]) -> Option<Ordering>
    ensures { Compares kind text.now wanted.now result }
{
    let Some(name) = name_at_record_start(text, kind) else {
        return None;
    };
    Some(name.cmp(wanted))
}
