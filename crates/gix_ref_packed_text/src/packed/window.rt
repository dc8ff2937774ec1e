//! Looking at a record in a window of a text, where the window has enough of it.
ghost use Rattle.std.specs.Prelude.{◌≡◌, ◌≤◌, ◌<◌, ◌+◌, ◌^◌, ℕ, List, true, false, length, take, drop, IfSome, IsSome};
ghost use Rattle.gix_ref_packed_text.specs.Shown.{IfHere, IsHere};
ghost use Rattle.std.specs.Option.{option_map};
ghost use Rattle.std.specs.Cmp.Lexicographic.{slice_cmp};
ghost use Rattle.std.specs.Ordering.{nat_cmp};
ghost use Rattle.gix_ref_packed_text.specs.RecordGrammar.{RecordLine};
ghost use Rattle.gix_ref_packed_text.specs.Positions.{NameAt, IsPlain, OrdersIfNamed};
ghost use Rattle.gix_ref_packed_text.specs.Windows.{ShowsLine, ShowsRecord, ShowsName, IsWindow, IsFound, FrontIs};
ghost use Rattle.gix_ref_packed_text.specs.Probed.{IsProbeAt};
ghost use Rattle.gix_ref_packed_text.specs.Views.{record_of};

use crate::packed::Reference;
use crate::packed::decode::{begins_with_caret, fast_compare, split_record_line, take_record};
use crate::packed::lines::next_place;
use crate::packed::searchable::{Probe, ProbeMode};
use gix_ref_hash::hash::{Kind, ObjectId};
use memchr::{memchr2, memrchr};
use std::cmp::Ordering;

/// What a window shows of a text.
#[derive(Clone, Copy)]
pub enum InWindow<T> {
    /// It ends, or begins, too early.
    NeedMore,
    /// This.
    Here(T),
}

/// The ids of a record that was found.
#[derive(Clone, Copy, Debug, PartialEq, Eq)]
pub struct Found {
    /// The id.
    pub target: ObjectId,
    /// The id of the object that a tag ends at, if the record has it.
    pub object: Option<ObjectId>,
}

/// Where the line that the byte is in begins, if that is in the window, which begins with the text where `at_start` holds.
#[inline(always)]
fn line_start_in(window: &[u8], at: usize, at_start: bool) -> Option<usize>
    requires { at ≤ length window.now }
    ensures below { IfSome result (λ start. start ≤ at) }
    ensures shows { ShowsLine at_start window.now at result }
    ensures sure { at_start ≡ true → IsSome result }
{
    match memrchr(b'\n', &window[..at]) {
        Some(last) => Some(last + 1),
        None => { if at_start { Some(0) } else { None } }
    }
}

/// Where the record that the byte is in begins, if that is in the window.
#[inline(always)]
pub fn record_start_in(window: &[u8], at: usize, at_start: bool) -> Option<usize>
    requires { at < length window.now }
    ensures below { IfSome result (λ start. start ≤ at) }
    ensures shows { ShowsRecord at_start window.now at result }
    ensures sure { at_start ≡ true → IsSome result }
{
    let Some(line) = line_start_in(window, at, at_start) else {
        return None;
    };
    if window[line] != b'^' {
        return Some(line);
    }
    if line > 0 {
        return line_start_in(window, line - 1, at_start);
    }
    if at_start { Some(0) } else { None }
}

/// Whether a part of a text without a record's line at its front shows that the text has none there either.
fn lacks_name(part: &[u8], kind: Kind, at_eof: bool) -> bool
    requires { (digits name rest : List ℕ) → RecordLine kind part.now digits name rest → ⊥ }
    ensures lacks { result ≡ true → (text : List ℕ) → part.now ≡ take (length part.now) text →
        (at_eof ≡ true → part.now ≡ text) → (n : List ℕ) → NameAt kind text n → ⊥ }
    ensures sure { at_eof ≡ true → result ≡ true }
{
    if at_eof {
        return true;
    }
    let len = kind.len_in_hex();
    if part.len() <= len {
        return false;
    }
    if part[len] != b' ' {
        return true;
    }
    let after = &part[len + 1..];
    match memchr2(b'\n', b'\r', after) {
        Some(end) => end + 1 < after.len(),
        None => false,
    }
}

/// The name at the front of a record, of which the part may be a beginning; it is the whole text where `at_eof` holds. An
/// empty name is no name, and a line that begins with `^` has none.
pub fn name_in(part: &[u8], kind: Kind, at_eof: bool) -> InWindow<Option<&[u8]>>
    ensures shows { ShowsName kind at_eof part.now result }
    ensures sure { at_eof ≡ true → IsHere result }
{
    let Some((_, name, _)) = split_record_line(part, kind) else {
        if lacks_name(part, kind, at_eof) {
            return InWindow::Here(None);
        }
        return InWindow::NeedMore;
    };
    if name.is_empty() || begins_with_caret(part) {
        return InWindow::Here(None);
    }
    InWindow::Here(Some(name))
}

/// How the name at the front of a record compares with the one that is wanted, if the part shows it, as in `name_in`. Where
/// `sure` does not hold, and bytes decide, it does not look whether the name's line ends.
#[inline(always)]
pub fn order_in(
    part: &[u8],
    kind: Kind,
    at_eof: bool,
    wanted: &[u8],
    sure: bool,
) -> InWindow<Option<Ordering>>
    requires { sure ≡ false → IsPlain wanted.now }
    ensures shows { IfHere result (λ order. (text : List ℕ) → part.now ≡ take (length part.now)
        text → (at_eof ≡ true → part.now ≡ text) → OrdersIfNamed kind text wanted.now sure order) }
    ensures sure { at_eof ≡ true → IsHere result }
{
    if !sure {
        if let Some(order) = fast_compare(part, kind, wanted) {
            return InWindow::Here(Some(order));
        }
    }
    match name_in(part, kind, at_eof) {
        InWindow::Here(name) => InWindow::Here(order_of(name, wanted)),
        InWindow::NeedMore => InWindow::NeedMore,
    }
}

/// How a name compares with the one that is wanted.
#[inline(always)]
fn order_of(name: Option<&[u8]>, wanted: &[u8]) -> Option<Ordering>
    ensures { result ≡ option_map (λ n. slice_cmp nat_cmp n.now wanted.now) name.entry }
{
    match name {
        Some(name) => Some(name.cmp(wanted)),
        None => None,
    }
}

/// What a probe at a byte of the window sees, if the window shows it. The window begins at the place `from` of the text,
/// and the text ends with it where `at_eof` holds.
#[inline(always)]
pub fn probe_in(
    window: &[u8],
    from: u64,
    at: usize,
    at_eof: bool,
    kind: Kind,
    wanted: &[u8],
    look: ProbeMode,
) -> Option<Probe>
    requires plain { look.sure ≡ false → IsPlain wanted.now }
    requires inside { at < length window.now }
    requires fits { from + length window.now < 2 ^ 64 }
    ensures below { IfSome result (λ probe. probe.start ≤ from + at) }
    ensures beyond { IfSome result (λ probe. from + at < probe.next) }
    ensures probed { (text : List ℕ) → IsWindow text from window.now →
        (at_eof ≡ true → from + length window.now ≡ length text) →
        IfSome result (IsProbeAt kind text wanted.now look.sure (from + at)) }
    ensures sure { from ≡ 0 → at_eof ≡ true → IsSome result }
{
    let Some(start) = record_start_in(window, at, from == 0) else {
        return None;
    };
    let part = &window[start..];
    let InWindow::Here(order) = order_in(part, kind, at_eof, wanted, look.sure) else {
        return None;
    };
    let next = from + next_place(window, at, order, look.near) as u64;
    let start = from + start as u64;
    Some(Probe { start, order, next })
}

/// The ids of a record.
pub fn ids_of(reference: Reference<'_>) -> Found
    ensures { IsFound (record_of reference.entry) result }
{
    Found {
        target: reference.target(),
        object: reference.peeled(),
    }
}

/// The ids of the record at the front of a text, of which the part may be a beginning; it is the whole text where `at_eof`
/// holds. `Here(None)` where no record is there.
fn found_in(part: &[u8], kind: Kind, at_eof: bool) -> InWindow<Option<Found>>
    ensures front { (text : List ℕ) → part.now ≡ take (length part.now) text →
        (at_eof ≡ true → part.now ≡ text) → IfHere result (FrontIs kind text) }
    ensures sure { at_eof ≡ true → IsHere result }
{
    let Some((reference, rest)) = take_record(part, kind) else {
        if at_eof {
            return InWindow::Here(None);
        }
        return InWindow::NeedMore;
    };
    if at_eof {
        return InWindow::Here(Some(ids_of(reference)));
    }
    if rest.is_empty() {
        return InWindow::NeedMore;
    }
    InWindow::Here(Some(ids_of(reference)))
}

/// The ids of the record that begins at a byte of the window; `Here(None)` where no record is there. The window begins at
/// the place `from` of the text, and the text ends with it where `at_eof` holds.
pub fn record_in(
    window: &[u8],
    from: u64,
    at: usize,
    at_eof: bool,
    kind: Kind,
) -> InWindow<Option<Found>>
    requires inside { at < length window.now }
    requires fits { from + length window.now < 2 ^ 64 }
    ensures front { (text : List ℕ) (start : ℕ) → IsWindow text from window.now →
        (at_eof ≡ true → from + length window.now ≡ length text) → start ≡ from + at →
        IfHere result (FrontIs kind (drop start text)) }
    ensures sure { at_eof ≡ true → IsHere result }
{
    found_in(&window[at..], kind, at_eof)
}
