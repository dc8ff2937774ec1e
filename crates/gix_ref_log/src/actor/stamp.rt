//! The time at the end of most signatures: `> `, seconds of ten digits, as they are from 2001 to 2286, a space and a zone. Its
//! digits are looked at all at once, and made into numbers two by two.
ghost use Rattle.std.specs.Prelude.{◌≡◌, ◌+◌, ◌-◌, ◌*◌, ◌<◌, ◌⊎◌, ◌==◌, if◌then◌else◌, ℕ, pos, neg_ℤ, length, slice_index, IfSome};
ghost use Rattle.std.specs.Int.{bit_at};
ghost use Rattle.gix_ref_log.specs.Signatures.{IsDigit, IsStamp};

use super::Time;
use std::simd::prelude::*;

/// The bits of the digits among the last 16 bytes: ten, four after a space and a sign.
const DIGITS: u64 = 0b1111_0011_1111_1111;

/// Which of the last 16 bytes are decimal digits, the first by the lowest bit.
#[inline(always)]
fn digit_marks(text: &[u8]) -> u64
    requires { length text.now ≡ 18 }
    ensures { (k : ℕ) → k < 16 → bit_at result k ≡ 1 → IsDigit (slice_index text.now (k + 2)) }
{
    (u8x16::from_slice(&text[2..]) - u8x16::splat(b'0'))
        .simd_lt(u8x16::splat(10))
        .to_bitmask()
}

/// The numbers that the last 16 bytes are, two by two, where they are digits.
#[inline(always)]
fn pairs(text: &[u8]) -> [u16; 8]
    requires { length text.now ≡ 18 }
    ensures { (k : ℕ) → k < 8 → IsDigit (slice_index text.now (2 * k + 2)) →
        IsDigit (slice_index text.now (2 * k + 3)) → slice_index result k
        ≡ 10 * (slice_index text.now (2 * k + 2) - 48) + (slice_index text.now (2 * k + 3) - 48) }
{
    let values = u16x8::from_le_bytes(u8x16::from_slice(&text[2..]) - u8x16::splat(b'0'));
    let tens = values & u16x8::splat(255);
    let ones = values >> u16x8::splat(8);
    (tens * u16x8::splat(10) + ones).to_array()
}

/// The offset of a zone of this sign, so many hours and minutes.
#[inline(always)]
fn offset_of(sign: u8, hours: u16, minutes: u16) -> Option<i32>
    ensures { IfSome result (λ n. ((sign ≡ 43) ⊎ (sign ≡ 45)) × (n ≡ (if sign == 45 then neg_ℤ
        (pos (hours * 3600 + minutes * 60)) else pos (hours * 3600 + minutes * 60)))) }
{
    let size = (u32::from(hours) * 3600 + u32::from(minutes) * 60) as i32;
    match sign {
        b'+' => Some(size),
        b'-' => Some(-size),
        _ => None,
    }
}

/// The seconds that five pairs of digits are.
#[inline(always)]
fn seconds_of(pairs: &[u16; 8]) -> u64
    ensures { result
        ≡ (((slice_index pairs.now 0 * 100 + slice_index pairs.now 1) * 100 + slice_index pairs.now
        2) * 100 + slice_index pairs.now 3) * 100 + slice_index pairs.now 4 }
{
    let &[a, b, c, d, e, ..] = pairs;
    let front = (u64::from(a) * 100 + u64::from(b)) * 100 + u64::from(c);
    (front * 100 + u64::from(d)) * 100 + u64::from(e)
}

/// The time that these bytes give, if they have the common form.
#[inline(always)]
pub(super) fn time_of(text: &[u8; 18]) -> Option<Time>
    ensures { IfSome result (λ time. IsStamp text.now time.seconds time.offset) }
{
    if text[0] != b'>' || text[1] != b' ' || text[12] != b' ' || digit_marks(text) != DIGITS {
        return None;
    }
    let pairs = pairs(text);
    let offset = offset_of(text[13], pairs[6], pairs[7])?;
    Some(Time {
        seconds: seconds_of(&pairs) as i64,
        offset,
    })
}
