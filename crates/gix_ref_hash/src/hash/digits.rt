//! The hex digits of a SHA-1: whether they are such, the bytes that they are, and those of some bytes.
ghost use Rattle.std.specs.Prelude.{◌≡◌, ◌+◌, ◌*◌, ◌<◌, ℕ, true, Ok, Some, length, slice_index, get_or};
ghost use Rattle.std.specs.List.{list_all};
ghost use Rattle.hex.specs.Hex.{decode_of, encode_lower, is_hex_digit, hex_digit_value, lower_digits};
ghost use Rattle.gix_ref_hash.specs.Digits.{IsPair, lower_hex};

use std::simd::prelude::*;

/// Whether a byte is a hex digit, of either case. The bit that is set here is all that sets the cases apart, and each range
/// is moved to the greatest signed bytes, so that one comparison of vectors tests it.
#[inline(always)]
fn is_folded_hex(byte: u8) -> bool
    ensures { result ≡ is_hex_digit byte }
{
    let digit = byte.wrapping_add(127 - b'9').cast_signed();
    let letter = (byte | 0x20).wrapping_add(127 - b'f').cast_signed();
    digit > 127 - 10 || letter > 127 - 6
}

/// Whether these are hex digits, of either case. Three runs of 16 cover them, of which the last two overlap, so that all
/// is done in vectors.
#[inline(always)]
pub fn are_sha1_digits(digits: &[u8; 40]) -> bool
    ensures { result ≡ list_all is_hex_digit digits.now }
{
    let mut are_digits = true;
    for i in 0..16 {
        are_digits &= is_folded_hex(digits[i]);
        are_digits &= is_folded_hex(digits[i + 16]);
        are_digits &= is_folded_hex(digits[i + 24]);
    }
    are_digits
}

/// The places of the first digits of the pairs among 32.
const FIRST: [usize; 16] = [0, 2, 4, 6, 8, 10, 12, 14, 16, 18, 20, 22, 24, 26, 28, 30];

/// The places of the second digits.
const SECOND: [usize; 16] = [1, 3, 5, 7, 9, 11, 13, 15, 17, 19, 21, 23, 25, 27, 29, 31];

/// The values of hex digits, of either case: the low four bits of a digit, and nine more for a letter.
#[inline(always)]
fn digit_values(digits: u8x16) -> u8x16
    ensures { (k : ℕ) → k < 16 → is_hex_digit (get_or digits k 0) ≡ true →
        hex_digit_value (get_or digits k 0) ≡ Some (get_or result k 0) }
{
    (digits & u8x16::splat(15)) + (digits >> u8x16::splat(6)) * u8x16::splat(9)
}

/// The bytes of pairs of hex digits.
#[inline(always)]
fn bytes_of_pairs(first: u8x16, second: u8x16) -> u8x16
    ensures { (k : ℕ) → k < 16 → IsPair (get_or first k 0) (get_or second k 0) (get_or result k 0) }
{
    digit_values(first) * u8x16::splat(16) + digit_values(second)
}

/// The bytes of which these are the 32 hex digits, of either case. Other bytes than digits give some bytes.
#[inline(always)]
fn sixteen_bytes(digits: &[u8]) -> [u8; 16]
    requires { length digits.now ≡ 32 }
    ensures { (k : ℕ) → k < 16 → IsPair (slice_index digits.now (2 * k))
        (slice_index digits.now (2 * k + 1)) (slice_index result k) }
{
    let front = u8x16::from_slice(digits);
    let back = u8x16::from_slice(&digits[16..]);
    bytes_of_pairs(front.shuffle(back, FIRST), front.shuffle(back, SECOND)).to_array()
}

/// The bytes of a SHA-1 of which these are the hex digits, of either case. Other bytes than digits give some bytes.
#[inline(always)]
pub fn sha1_of_digits(digits: &[u8; 40]) -> [u8; 20]
    ensures { list_all is_hex_digit digits.now ≡ true → decode_of digits.now ≡ Ok result }
{
    let front = sixteen_bytes(&digits[..32]);
    let back = sixteen_bytes(&digits[8..]);
    let mut bytes = [0u8; 20];
    for i in 0..20 {
        bytes[i] = if i < 16 { front[i] } else { back[i - 4] };
    }
    bytes
}

/// These digits in lower case, made in vectors.
#[inline(always)]
pub fn lower_sha1_digits(digits: &[u8; 40]) -> [u8; 40]
    ensures { result ≡ lower_hex digits.now }
{
    let mut lower = [0u8; 40];
    for i in 0..40 {
        lower[i] = digits[i].to_ascii_lowercase();
    }
    lower
}

/// The lower-case hex digit of a value below 16. A letter is 39 above the digit that would follow the nine.
#[inline(always)]
fn digit_of(value: u8) -> u8
    requires { value < 16 }
    ensures { result ≡ slice_index lower_digits value }
{
    let letter = (value + 6) >> 4;
    value + b'0' + letter * 39
}

/// The hex digits of the bytes of a SHA-1, in lower case. The digits of the high and of the low halves are made apart and then
/// put together, so that both is done in vectors.
#[inline(always)]
pub fn digits_of_sha1(bytes: &[u8; 20]) -> [u8; 40]
    ensures { result ≡ encode_lower bytes.now }
{
    let mut high = [0u8; 20];
    let mut low = [0u8; 20];
    for i in 0..20 {
        high[i] = digit_of(bytes[i] >> 4);
        low[i] = digit_of(bytes[i] & 15);
    }
    let mut digits = [0u8; 40];
    for i in 0..20 {
        digits[2 * i] = high[i];
        digits[2 * i + 1] = low[i];
    }
    digits
}
