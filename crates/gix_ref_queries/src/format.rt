//! The format of a row of `for-each-ref`: `%(refname)`, `%(refname:short)`, `%(objectname)`, `%(symref)`, `%%`, `%xx`, and other bytes as
//! they are.
ghost use Rattle.std.specs.Prelude.{◌≡◌, ◌==◌, ◌<◌, ◌≤◌, ◌+◌, ◌++◌, length, IfOk, IfSome, OnOk, Ok, Err, MatchResult};
ghost use Rattle.hex.specs.Hex.{hex_digit_value};
ghost use Rattle.gix_ref_queries.specs.Formats.{after_percent, digits_at, field_named, field_to, first_part, format_parts, hex_byte, part_text, row_text, shows_short, IsUnread};
ghost use Rattle.std.specs.List.{position};

use gix_ref_hash::hash::ObjectId;
use std::alloc::{AllocError, AllocFailed, Global};

/// A part of a format.
#[derive(Clone, Copy, Debug, PartialEq, Eq)]
pub enum Part {
    /// A byte that is shown as it is.
    Byte(u8),
    /// `%(refname)`: the name of the reference.
    Refname,
    /// `%(refname:short)`: its short name.
    Short,
    /// `%(objectname)`: the id to which the reference leads.
    Objectname,
    /// `%(symref)`: the last name to which a symbolic reference leads, and nothing for another one.
    Symref,
}

/// Why a format is not read.
#[derive(Debug, Drop)]
pub enum FormatError<'f> {
    /// This field is not supported: `(NAME)`, without its `%`, or `(` and all after it where no `)` comes.
    Field(&'f [u8]),
    /// There was no memory.
    Memory,
}

impl From<AllocFailed<Part>> for FormatError<'_> {
    ghost use Rattle.std.specs.Prelude.{◌≡◌};
    ghost use Rattle.gix_ref_queries.specs.declared.format.FormatError.TheVariants.{Memory};

    ghost from_gives = { λ _ e. e ≡ Memory };

    fn from(_error: AllocFailed<Part>) -> Self {
        FormatError::Memory
    }
}

/// The value of a hex digit.
fn digit_value(digit: u8) -> Option<u8>
    ensures value { result ≡ hex_digit_value digit }
    ensures small { IfSome result (λ value. value < 16) }
{
    match digit {
        b'0'..=b'9' => Some(digit - b'0'),
        b'A'..=b'F' => Some(digit - b'A' + 10),
        b'a'..=b'f' => Some(digit - b'a' + 10),
        _ => None,
    }
}

/// The byte of two hex digits.
fn hex_byte(high: u8, low: u8) -> Option<u8>
    ensures { result ≡ hex_byte high low }
{
    let high = digit_value(high)?;
    let low = digit_value(low)?;
    Some(high * 16 + low)
}

/// The field of a name, if it is supported.
fn field_named(name: &[u8]) -> Option<Part>
    ensures { result ≡ field_named name.now }
{
    if name == b"refname".as_slice() {
        return Some(Part::Refname);
    }
    if name == b"refname:short".as_slice() {
        return Some(Part::Short);
    }
    if name == b"objectname".as_slice() {
        return Some(Part::Objectname);
    }
    if name == b"symref".as_slice() {
        return Some(Part::Symref);
    }
    None
}

/// Where the first `)` is.
fn closing(text: &[u8]) -> Option<usize>
    ensures place { result ≡ position (λ b. b == 41) text.now }
    ensures within { IfSome result (λ end. end < length text.now) }
{
    text.iter().position(|byte| *byte == b')')
}

/// The field that begins a text, which is `(` and what comes after it, and how many bytes it takes.
fn field<'f>(text: &'f [u8], after: &[u8]) -> Result<(Part, usize), &'f [u8]>
    requires { length text.now ≡ length after.now + 1 }
    ensures read { MatchResult result
        (λ p. field_to (position (λ b. b == 41) after.now) text.now after.now ≡ Ok p)
        (λ e. field_to (position (λ b. b == 41) after.now) text.now after.now ≡ Err e.now) }
    ensures within { IfOk result (λ p. p.1 ≤ length text.now) }
{
    let Some(end) = closing(after) else {
        return Err(text);
    };
    match field_named(&after[..end]) {
        Some(part) => Ok((part, end + 2)),
        None => Err(&text[..end + 2]),
    }
}

/// What `%` and two more bytes stand for, if both are digits; else `%` stands for itself.
fn byte_or_percent(high: u8, after: &[u8]) -> (Part, usize)
    ensures read { digits_at high after.now ≡ Ok result }
    ensures within { result.1 ≤ length after.now + 1 }
{
    let Some((low, _)) = after.split_first() else {
        return (Part::Byte(b'%'), 0);
    };
    match hex_byte(high, *low) {
        Some(byte) => (Part::Byte(byte), 2),
        None => (Part::Byte(b'%'), 0),
    }
}

/// What `%` begins before this text, and how many bytes of it.
fn after_percent(text: &[u8]) -> Result<(Part, usize), &[u8]>
    ensures read { MatchResult result (λ p. after_percent text.now ≡ Ok p)
        (λ e. after_percent text.now ≡ Err e.now) }
    ensures within { IfOk result (λ p. p.1 ≤ length text.now) }
{
    match text.split_first() {
        None => Ok((Part::Byte(b'%'), 0)),
        Some((b'(', after)) => field(text, after),
        Some((b'%', _)) => Ok((Part::Byte(b'%'), 1)),
        Some((sign, after)) => Ok(byte_or_percent(*sign, after)),
    }
}

/// The part that a byte begins, and how many bytes of the rest.
fn first_part(first: u8, rest: &[u8]) -> Result<(Part, usize), &[u8]>
    ensures read { MatchResult result (λ p. first_part first rest.now ≡ Ok p)
        (λ e. first_part first rest.now ≡ Err e.now) }
    ensures within { IfOk result (λ p. p.1 ≤ length rest.now) }
{
    if first == b'%' {
        after_percent(rest)
    } else {
        Ok((Part::Byte(first), 0))
    }
}

/// The parts of a format. The error names the first field that is not supported, or reports that there was no memory.
pub fn parse<'f>(alloc: Global, format: &'f [u8]) -> Result<Vec<Part>, FormatError<'f>>
    ensures { MatchResult result (λ parts. format_parts format.now ≡ Ok parts.items)
        (IsUnread (format_parts format.now)) }
{
    let mut parts = Vec::new(alloc);
    let mut rest = format;
    while let Some((first, after)) = rest.split_first() {
        match first_part(*first, after) {
            Ok((part, len)) => {
                parts.push(part)?;
                rest = &after[len..];
            }
            Err(field) => return Err(FormatError::Field(field)),
        }
    }
    Ok(parts)
}

/// Adds a part of a row.
fn push_part(
    text: &mut Vec<u8>,
    part: Part,
    name: &[u8],
    short: &[u8],
    id: &ObjectId,
    symref: &[u8],
) -> Result<(), AllocError>
    ensures { OnOk result (text.new.items ≡ text.old.items ++ part_text (record {
      name = name.now;
      short = short.now;
      id = id.now;
      symref = symref.now;
    }) part) }
{
    match part {
        Part::Byte(byte) => text.push(byte)?,
        Part::Refname => text.extend_from_slice(name)?,
        Part::Short => text.extend_from_slice(short)?,
        Part::Objectname => id.push_hex(text)?,
        Part::Symref => text.extend_from_slice(symref)?,
    }
    Ok(())
}

/// Whether a format shows the short name.
pub(crate) fn shows_short(parts: &[Part]) -> bool
    ensures { result ≡ shows_short parts.now }
{
    for part in parts {
        if matches!(part, Part::Short) {
            return true;
        }
    }
    false
}

/// The row of a reference, without a line feed.
pub fn row(
    alloc: Global,
    parts: &[Part],
    name: &[u8],
    short: &[u8],
    id: &ObjectId,
    symref: &[u8],
) -> Result<Vec<u8>, AllocError>
    ensures { IfOk result (λ text. text.items ≡ row_text parts.now (record {
      name = name.now;
      short = short.now;
      id = id.now;
      symref = symref.now;
    })) }
{
    let mut text = Vec::new(alloc);
    for part in parts {
        push_part(&mut text, *part, name, short, id, symref)?;
    }
    Ok(text)
}
