//! Patterns of references: a name, a front of one up to a slash, or with `*` and `?` (`git help for-each-ref`).
ghost use Rattle.std.specs.Prelude.{◌≡◌, ◌==◌, ◌&&◌, ◌||◌, not, [], ◌+◌, ℕ, List, Bool, length, IfOk, false};
ghost use Rattle.gix_ref_queries.specs.Patterns.{IsRow, fits, ends_in_slash, has_other_sign, is_asked_by, is_at_or_below, is_boundary, is_glob_of, matches, sign_then, any_bytes, one_sign, texts};

use std::alloc::{AllocError, Global};

/// Whether a pattern has a sign that is not supported: `[`, `\`, or two `*` in a row.
pub fn has_other_sign(pattern: &[u8]) -> bool
    ensures { result ≡ has_other_sign false pattern.now }
{
    let mut after_star = false;
    for sign in pattern {
        if *sign == b'[' || *sign == b'\\' || (*sign == b'*' && after_star) {
            return true;
        }
        after_star = *sign == b'*';
    }
    false
}

/// Whether a text ends with a slash.
fn ends_in_slash(text: &[u8]) -> bool
    ensures { result ≡ ends_in_slash text.now }
{
    match text.last() {
        Some(byte) => *byte == b'/',
        None => false,
    }
}

/// Whether a name goes on like this after the whole pattern: not at all, or with a component of its own.
fn is_boundary(pattern: &[u8], rest: &[u8]) -> bool
    ensures { result ≡ is_boundary pattern.now rest.now }
{
    match rest.split_first() {
        Some((byte, _)) => *byte == b'/' || ends_in_slash(pattern),
        None => true,
    }
}

/// Whether a pattern is the name, or a front of it up to a slash.
fn is_at_or_below(pattern: &[u8], name: &[u8]) -> bool
    ensures { result ≡ is_at_or_below pattern.now name.now }
{
    match name.strip_prefix(pattern) {
        Some(rest) => is_boundary(pattern, rest),
        None => false,
    }
}

/// Whether a `*` matches a name, of whose first byte this is: the rest of the pattern matches the name, or the `*` has the byte and
/// matches what comes after it.
fn any_or_here(here: bool, byte: u8, after: bool) -> bool
    ensures { result ≡ (here || (not (byte == 47) && after)) }
{
    here || (byte != b'/' && after)
}

/// Puts a `*` before a pattern: `row[i]` is whether the name from `i` on is matched.
fn put_star(row: &mut [bool], name: &[u8])
    requires { length row.old ≡ length name.now + 1 }
    ensures { (rest : List ℕ → Bool) → IsRow rest name.now row.old →
        IsRow (any_bytes rest) name.now row.new }
{
    for i in (0..name.len()).rev() {
        row[i] = any_or_here(row[i], name[i], row[i + 1]);
    }
}

/// Whether a sign other than `*` is this byte.
fn fits(sign: u8, byte: u8) -> bool
    ensures { result ≡ fits sign byte }
{
    if sign == b'?' {
        byte != b'/'
    } else {
        sign == byte
    }
}

/// Puts a sign other than `*` before a pattern.
fn put_sign(row: &mut [bool], sign: u8, name: &[u8])
    requires { length row.old ≡ length name.now + 1 }
    ensures { (rest : List ℕ → Bool) → IsRow rest name.now row.old →
        IsRow (one_sign sign rest) name.now row.new }
{
    for i in 0..name.len() {
        row[i] = fits(sign, name[i]) && row[i + 1];
    }
    row[name.len()] = false;
}

/// Puts a sign before a pattern.
fn put(row: &mut [bool], sign: u8, name: &[u8])
    requires { length row.old ≡ length name.now + 1 }
    ensures { (rest : List ℕ → Bool) → IsRow rest name.now row.old →
        IsRow (sign_then sign rest) name.now row.new }
{
    if sign == b'*' {
        put_star(row, name);
    } else {
        put_sign(row, sign, name);
    }
}

/// Puts the signs of a pattern before an empty one, the last one first.
fn put_all(row: &mut [bool], pattern: &[u8], name: &[u8])
    requires { IsRow (is_glob_of []) name.now row.old }
    ensures { IsRow (is_glob_of pattern.now) name.now row.new }
{
    for i in (0..pattern.len()).rev() {
        put(row, pattern[i], name);
    }
}

/// Whether a pattern with `*` and `?` matches the whole name. The error reports that there was no memory.
fn is_glob_of(alloc: Global, pattern: &[u8], name: &[u8]) -> Result<bool, AllocError>
    ensures { IfOk result (λ is. is ≡ is_glob_of pattern.now name.now) }
{
    let mut row = vec![in alloc; false; name.len()]?;
    row.push(true)?;
    put_all(&mut row, pattern, name);
    Ok(row[0])
}

/// Whether a pattern matches a name. Costs at most the product of their lengths. The error reports that there was no memory.
pub fn matches(alloc: Global, pattern: &[u8], name: &[u8]) -> Result<bool, AllocError>
    ensures { IfOk result (λ is. is ≡ matches pattern.now name.now) }
{
    if is_at_or_below(pattern, name) {
        return Ok(true);
    }
    is_glob_of(alloc, pattern, name)
}

/// Whether a name is asked for: one of the patterns matches it, or there is no pattern. The error reports that there was no memory.
pub fn is_asked_by(alloc: Global, patterns: &[&[u8]], name: &[u8]) -> Result<bool, AllocError>
    ensures { IfOk result (λ is. is ≡ is_asked_by (texts patterns.now) name.now) }
{
    if patterns.is_empty() {
        return Ok(true);
    }
    for pattern in patterns {
        if matches(alloc, pattern, name)? {
            return Ok(true);
        }
    }
    Ok(false)
}
