//! What a word of a command line is: an option, or a number.
ghost use Rattle.std.specs.Prelude.{◌≡◌, ℕ, MatchOption};
ghost use Rattle.gix_ref_queries.specs.Arguments.{IsCount, is_option};

/// A number in decimal digits; `None` for other bytes, and for one that does not fit.
pub fn count(digits: &[u8]) -> Option<u32>
    ensures { MatchOption result ((n : ℕ) → IsCount digits.now n → ⊥) (IsCount digits.now) }
{
    if digits.first() == Some(&b'+') {
        return None;
    }
    match str::from_utf8(digits) {
        Ok(text) => text.parse::<u32>().ok(),
        Err(_) => None,
    }
}

/// Whether a word is an option.
pub fn is_option(word: &[u8]) -> bool
    ensures { result ≡ is_option word.now }
{
    match word.split_first() {
        Some((first, _)) => *first == b'-',
        None => false,
    }
}
