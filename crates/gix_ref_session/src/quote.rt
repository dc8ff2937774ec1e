//! Words in quotes, as C writes texts (`core.quotePath` of `git help config`).
ghost use Rattle.std.specs.Prelude.{◌≡◌, ◌≢◌, ◌++◌, ◌∷◌, [], List, ℕ, IfOk, MatchOption, IsTrue, false};
ghost use Rattle.gix_ref_session.specs.Commands.{texts};
ghost use Rattle.gix_ref_session.specs.Quotes.{ArePlain, IsEscape, IsOctal, IsPlain, Unquotes, escaped, plain_texts};

use gix_ref_hash::bytes::strip_front;
use std::alloc::{AllocError, Global};

/// The byte that a letter after a backslash is for.
fn escaped(letter: u8) -> Option<u8>
    ensures { result ≡ escaped letter }
{
    match letter {
        b'a' => Some(7),
        b'b' => Some(8),
        b't' => Some(9),
        b'n' => Some(10),
        b'v' => Some(11),
        b'f' => Some(12),
        b'r' => Some(13),
        b'"' => Some(34),
        b'\\' => Some(92),
        _ => None,
    }
}

/// The byte of three octal digits, if it is not NUL.
fn octal(high: u8, middle: u8, low: u8) -> Option<u8>
    ensures { MatchOption result ((byte : ℕ) → IsOctal high middle low byte → ⊥)
        (IsOctal high middle low) }
{
    if !(b'0'..=b'3').contains(&high)
        || !(b'0'..=b'7').contains(&middle)
        || !(b'0'..=b'7').contains(&low)
    {
        return None;
    }
    match (high - b'0') * 64 + (middle - b'0') * 8 + (low - b'0') {
        0 => None,
        byte => Some(byte),
    }
}

/// The byte that the text after a backslash is for, and what follows it.
fn escape(text: &[u8]) -> Option<(u8, &[u8])>
    ensures { MatchOption result ((byte : ℕ) (rest : List ℕ) → IsEscape text.now byte rest → ⊥)
        (λ r. IsEscape text.now r.0 r.1.now) }
{
    let (letter, rest) = text.split_first()?;
    if let Some(byte) = escaped(*letter) {
        return Some((byte, rest));
    }
    match text {
        [high, middle, low, rest @ ..] => Some((octal(*high, *middle, *low)?, rest)),
        _ => None,
    }
}

/// The bytes that a text between quotes is for; `None` where it is badly quoted.
fn unquote(alloc: Global, quoted: &[u8]) -> Result<Option<Vec<u8>>, AllocError>
    ensures { IfOk result (λ plain. MatchOption plain ((p : List ℕ) → Unquotes quoted.now p → ⊥)
        (λ p. Unquotes quoted.now p.items)) }
{
    let mut plain = Vec::new(alloc);
    let mut rest = quoted;
    while let Some((byte, after)) = rest.split_first() {
        if *byte == b'"' {
            return Ok(None);
        }
        if *byte == b'\\' {
            let Some((byte, after)) = escape(after) else {
                return Ok(None);
            };
            plain.push(byte)?;
            rest = after;
        } else {
            plain.push(*byte)?;
            rest = after;
        }
    }
    Ok(Some(plain))
}

/// The text before a quote at its end.
fn before_quote(text: &[u8]) -> Option<&[u8]>
    ensures { MatchOption result ((front : List ℕ) → text.now ≢ front ++ 34 ∷ [])
        (λ front. text.now ≡ front.now ++ 34 ∷ []) }
{
    let (last, front) = text.split_last()?;
    if *last == b'"' { Some(front) } else { None }
}

/// The bytes that a word is for; `None` where it is badly quoted.
fn unquote_word(alloc: Global, word: &[u8]) -> Result<Option<Vec<u8>>, AllocError>
    ensures { IfOk result (λ plain. MatchOption plain ((p : List ℕ) → IsPlain word.now p → ⊥)
        (λ p. IsPlain word.now p.items)) }
{
    let Some(rest) = strip_front(word, b"\"") else {
        return Ok(Some(word.to_vec(alloc)?));
    };
    match before_quote(rest) {
        Some(quoted) => unquote(alloc, quoted),
        None => Ok(None),
    }
}

/// Whether a word is in quotes.
fn is_quoted(word: &[u8]) -> bool
    ensures { result ≡ false → IsPlain word.now word.now }
{
    match word.split_first() {
        Some((byte, _)) => *byte == b'"',
        None => false,
    }
}

/// Whether one of these words is in quotes.
pub(crate) fn has_quotes(words: &[&[u8]]) -> bool
    ensures { result ≡ false → ArePlain (texts words.now) (texts words.now) }
{
    for word in words {
        if is_quoted(word) {
            return true;
        }
    }
    false
}

/// Puts the bytes that words are for into a list, in place of what it holds; false where one is badly quoted.
pub(crate) fn unquote_words(
    alloc: Global,
    words: &[&[u8]],
    plain: &mut Vec<Vec<u8>>,
) -> Result<bool, AllocError>
    ensures unquoted { IfOk result (λ good. IsTrue good →
        ArePlain (texts words.now) (plain_texts plain.new.items)) }
    ensures refused { IfOk result (λ good. good ≡ false → (plain : List (List ℕ)) →
        ArePlain (texts words.now) plain → ⊥) }
{
    plain.clear();
    for word in words {
        let Some(word) = unquote_word(alloc, word)? else {
            return Ok(false);
        };
        plain.push(word)?;
    }
    Ok(true)
}

/// The slices of a list of texts.
pub(crate) fn lend(alloc: Global, plain: &[Vec<u8>]) -> Result<Vec<&[u8]>, AllocError>
    ensures { IfOk result (λ lent. texts lent.items ≡ plain_texts plain.now) }
{
    let mut lent = Vec::new(alloc);
    for word in plain {
        lent.push(word.as_slice())?;
    }
    Ok(lent)
}
