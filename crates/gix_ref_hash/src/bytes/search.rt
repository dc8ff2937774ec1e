//! The place of a byte in a text of some tens of bytes, as a line is or a field of one. It looks at 16 bytes at a time, in
//! place; the searches of the crate `memchr`, which are made for long texts, cost more before they begin.
ghost use Rattle.std.specs.Prelude.{◌+◌, ◌≤◌, length, IfSome, Some};
ghost use Rattle.memchr.specs.Find.{IsFirst, IsLast, IsFirstByte, IsLastByte, Passes, is_byte};
ghost use Rattle.gix_ref_hash.specs.Bytes.{is_break};

use std::simd::prelude::*;

/// How many bytes are looked at at a time.
const LANES: usize = 16;

/// The first such byte of the 16 from `start` on.
#[inline(always)]
fn first_of_lanes(text: &[u8], start: usize, byte: u8) -> Option<usize>
    requires { start + 16 ≤ length text.now }
    ensures { IsFirst (Passes (is_byte byte) text.now) start (start + 16) result }
{
    let marks = u8x16::from_slice(&text[start..])
        .simd_eq(u8x16::splat(byte))
        .to_bitmask();
    if marks == 0 {
        return None;
    }
    Some(start + marks.trailing_zeros() as usize)
}

/// The first such byte from `start` on, looked for one by one.
#[inline(always)]
fn first_by_one(text: &[u8], start: usize, byte: u8) -> Option<usize>
    requires { start ≤ length text.now }
    ensures { IsFirst (Passes (is_byte byte) text.now) start (length text.now) result }
{
    for i in start..text.len() {
        if text[i] == byte {
            return Some(i);
        }
    }
    None
}

/// The place of the first such byte, or `None` where the text has none (`memchr::memchr`).
#[inline(always)]
pub fn first_place(text: &[u8], byte: u8) -> Option<usize>
    ensures { IsFirstByte (is_byte byte) text.now result }
{
    if text.len() < LANES {
        return first_by_one(text, 0, byte);
    }
    let last = text.len() - LANES;
    let mut start = 0;
    while start <= last {
        let found = first_of_lanes(text, start, byte);
        if found.is_some() {
            return found;
        }
        start += LANES;
    }
    first_by_one(text, start, byte)
}

/// The first of the 16 bytes from `start` on that is LF or less.
#[inline(always)]
fn first_break_of_lanes(text: &[u8], start: usize) -> Option<usize>
    requires { start + 16 ≤ length text.now }
    ensures { IsFirst (Passes is_break text.now) start (start + 16) result }
{
    let marks = u8x16::from_slice(&text[start..])
        .simd_lt(u8x16::splat(11))
        .to_bitmask();
    if marks == 0 {
        return None;
    }
    Some(start + marks.trailing_zeros() as usize)
}

/// The place of the first byte that is LF or less, as a tab is. Only whole runs of 16 bytes are looked at, so `None` says
/// nothing. It stays a call: among the code of a caller, its loop would keep more places in step than the call costs.
#[inline(never)]
pub fn find_tab_or_lf(text: &[u8]) -> Option<usize>
    ensures { IfSome result (λ place. IsFirstByte is_break text.now (Some place)) }
{
    let last = text.len().checked_sub(LANES)?;
    let mut start = 0;
    while start <= last {
        let found = first_break_of_lanes(text, start);
        if found.is_some() {
            return found;
        }
        start += LANES;
    }
    None
}

/// The last such byte of the 16 from `start` on.
#[inline(always)]
fn last_of_lanes(text: &[u8], start: usize, byte: u8) -> Option<usize>
    requires { start + 16 ≤ length text.now }
    ensures { IsLast (Passes (is_byte byte) text.now) start (start + 16) result }
{
    let marks = u8x16::from_slice(&text[start..])
        .simd_eq(u8x16::splat(byte))
        .to_bitmask();
    if marks == 0 {
        return None;
    }
    Some(start + marks.ilog2() as usize)
}

/// The last such byte before `end`, looked for one by one.
#[inline(always)]
fn last_by_one(text: &[u8], end: usize, byte: u8) -> Option<usize>
    requires { end ≤ length text.now }
    ensures { IsLast (Passes (is_byte byte) text.now) 0 end result }
{
    let mut i = end;
    while i > 0 {
        i -= 1;
        if text[i] == byte {
            return Some(i);
        }
    }
    None
}

/// The place of the last such byte, or `None` where the text has none (`memchr::memrchr`).
#[inline(always)]
pub fn last_place(text: &[u8], byte: u8) -> Option<usize>
    ensures { IsLastByte (is_byte byte) text.now result }
{
    let mut end = text.len();
    while LANES <= end {
        let found = last_of_lanes(text, end - LANES, byte);
        if found.is_some() {
            return found;
        }
        end -= LANES;
    }
    last_by_one(text, end, byte)
}
