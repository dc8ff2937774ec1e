//! Decimal numbers of few digits, read without a test for each sum.
ghost use Rattle.std.specs.Prelude.{IfSome};
ghost use Rattle.gix_ref_hash.specs.Digits.{IsNumber};

/// The number that one to 18 decimal digits are; none for any other text.
#[inline(always)]
pub fn parse_short_decimal(text: &[u8]) -> Option<u64>
    ensures { IfSome result (IsNumber text.now) }
{
    if text.is_empty() || text.len() > 18 {
        return None;
    }
    let mut number = 0u64;
    for byte in text {
        let digit = byte.wrapping_sub(b'0');
        if digit > 9 {
            return None;
        }
        number = number * 10 + u64::from(digit);
    }
    Some(number)
}
