//! Who made a change, and when: the signatures in reflogs, as `git commit-tree` writes them.
ghost use Rattle.std.specs.Prelude.{◌≡◌, ◌+◌, ◌-◌, ◌*◌, ◌↔◌, IsTrue, ℤ, pos, MatchOption, IfSome};
ghost use Rattle.gix_ref_log.specs.Signatures.{Who, IsSeconds, IsZone, IsDigit, IsPlainText, IsSignature, IsWritableOffset, CanWrite, is_mark, offset_text, signature_text, trimmed, without_space};

use crate::writer::{push_parts, write_parts};
use gix_ref_hash::bytes::{cut, cut_last};
use std::alloc::{AllocError, Global};
use std::io;
use thiserror::Error;

mod number;
mod stamp;

use number::parse_short_decimal;
use stamp::time_of;

/// A moment, and the zone in which it was recorded. As gix-date's `Time`.
#[derive(Clone, Copy, Debug, PartialEq, Eq, PartialOrd, Ord, Hash)]
pub struct Time {
    /// Seconds since the beginning of 1970, in UTC.
    pub seconds: i64,
    /// How many seconds the zone is east of UTC.
    pub offset: i32,
}

/// Who made a change, and when. As gix-actor's `Signature` (`git commit-tree`).
#[derive(Debug, PartialEq, Eq, PartialOrd, Ord, Hash, Clone, Drop)]
pub struct Signature {
    /// The name, as bytes.
    pub name: Vec<u8>,
    /// The email, without `<` and `>`.
    pub email: Vec<u8>,
    /// When the change was made.
    pub time: Time,
}

/// A lent signature. As gix-actor's `SignatureRef`, with a `Time` in the place of text.
#[derive(Clone, Copy, Debug, PartialEq, Eq, PartialOrd, Ord, Hash)]
pub struct SignatureRef<'a> {
    /// The name, as bytes.
    pub name: &'a [u8],
    /// The email, without `<` and `>`.
    pub email: &'a [u8],
    /// When the change was made.
    pub time: Time,
}

/// Why a signature was not written.
#[derive(Debug, Drop, Error)]
pub enum WriteError {
    /// The name or the email holds `<`, `>` or LF, or the offset is no whole minute or past 99:59. Nothing was written.
    #[error("the name, the email or the offset of the signature cannot be written")]
    SignatureUnwritable,
    /// The writer failed; it holds a beginning of the signature, and not all of it.
    #[error("the signature could not be written: {0}")]
    Io(io::Error),
}

/// The seconds of a text: an optional `-` and decimal digits. A number of at most 18 digits takes the fast path.
#[inline(always)]
fn seconds(text: &[u8]) -> Option<i64>
    ensures { MatchOption result ((n : ℤ) → IsSeconds text.now n → ⊥) (IsSeconds text.now) }
{
    match parse_short_decimal(text) {
        Some(number) => Some(number as i64),
        None => parse_seconds_general(text),
    }
}

/// The seconds of a text of any length.
fn parse_seconds_general(text: &[u8]) -> Option<i64>
    ensures { MatchOption result ((n : ℤ) → IsSeconds text.now n → ⊥) (IsSeconds text.now) }
{
    if text.first() == Some(&b'+') {
        return None;
    }
    match str::from_utf8(text) {
        Ok(text) => text.parse::<i64>().ok(),
        Err(_) => None,
    }
}

/// The number that two digits are.
#[inline(always)]
fn two_digits(tens: u8, ones: u8) -> Option<i32>
    ensures { MatchOption result (IsDigit tens → IsDigit ones → ⊥)
        (λ n. IsDigit tens × IsDigit ones × (n ≡ pos (10 * (tens - 48) + (ones - 48)))) }
{
    match (tens, ones) {
        (b'0'..=b'9', b'0'..=b'9') => Some((10 * (tens - b'0') + (ones - b'0')) as i32),
        _ => None,
    }
}

/// The offset that a sign and four digits are, in seconds.
#[inline(always)]
fn zone(text: &[u8]) -> Option<i32>
    ensures { MatchOption result ((n : ℤ) → IsZone text.now n → ⊥) (IsZone text.now) }
{
    let &[sign, a, b, c, d] = text else {
        return None;
    };
    let hours = two_digits(a, b)?;
    let minutes = two_digits(c, d)?;
    let offset = hours * 3600 + minutes * 60;
    match sign {
        b'+' => Some(offset),
        b'-' => Some(-offset),
        _ => None,
    }
}

/// A name less one space at its end.
#[inline(always)]
fn before_space(name: &[u8]) -> &[u8]
    ensures { result.now ≡ without_space name.now }
{
    let len = name.len();
    if len == 0 || name[len - 1] != b' ' {
        return name;
    }
    &name[..len - 1]
}

/// Whether a byte cannot be in a name or an email: `<`, `>` or LF.
fn is_mark(byte: u8) -> bool
    ensures { result ≡ is_mark byte }
{
    matches!(byte, b'<' | b'>' | b'\n')
}

/// Whether a name or an email can be written: it holds no `<`, no `>` and no LF.
fn is_plain(text: &[u8]) -> bool
    ensures { IsTrue result ↔ IsPlainText text.now }
{
    for byte in text {
        if is_mark(*byte) {
            return false;
        }
    }
    true
}

/// A sign, hours and minutes, where the offset is of whole minutes and fits.
fn zone_text(offset: i32) -> Option<[u8; 5]>
    ensures { MatchOption result (IsWritableOffset offset → ⊥)
        (λ zone. IsWritableOffset offset × (zone ≡ offset_text offset)) }
{
    let size = offset.unsigned_abs();
    if size % 60 != 0 || size >= 360000 {
        return None;
    }
    let hours = (size / 60 / 60) as u8;
    let minutes = (size / 60 % 60) as u8;
    let sign = if offset < 0 { b'-' } else { b'+' };
    Some([
        sign,
        b'0' + hours / 10,
        b'0' + hours % 10,
        b'0' + minutes / 10,
        b'0' + minutes % 10,
    ])
}

/// The text without space, tab, LF, FF and CR at its ends.
fn trim(text: &[u8]) -> &[u8]
    ensures { result.now ≡ trimmed text.now }
{
    text.trim_ascii()
}

impl Signature {
    ghost use Rattle.gix_ref_log.specs.Signatures.{signature_who, signature_ref_who};

    /// This signature, lent. As gix-actor's `Signature::to_ref`.
    pub fn to_ref(&self) -> SignatureRef<'_>
        ensures { signature_ref_who result ≡ signature_who self.now }
    {
        SignatureRef {
            name: &self.name,
            email: &self.email,
            time: self.time,
        }
    }
}

impl<'a> SignatureRef<'a> {
    ghost use Rattle.std.specs.Prelude.{◌++◌, OnOk, IfOk, IfErr, IsErrOf};
    ghost use Rattle.std.specs.Io.KnownBytes.{Appends};
    ghost use Rattle.gix_ref_log.specs.Writers.{StopsShort};
    ghost use Rattle.gix_ref_log.specs.Signatures.{trimmed_who, signature_who, signature_ref_who};

    /// Reads a signature, `name <email> seconds +hhmm`: the name is all before the first `<`, less one space at its end,
    /// and the email lies between that and the last `>`. `None` for any other text; nothing may follow. As gix-actor's
    /// `SignatureRef::from_bytes`.
    ///
    /// ```text
    /// SignatureRef::decode(b"A U Thor <a@example.com> 1234567890 +0800")
    /// // the name `A U Thor`, the email `a@example.com`, 1234567890 seconds, an offset of 28800 seconds
    /// ```
    #[inline(always)]
    pub fn decode(text: &'a [u8]) -> Option<SignatureRef<'a>>
        ensures { MatchOption result ((who : Who) → IsSignature text.now who → ⊥)
            (λ s. IsSignature text.now (signature_ref_who s)) }
    {
        match SignatureRef::decode_fast(text) {
            Some(signature) => Some(signature),
            None => SignatureRef::decode_general(text),
        }
    }

    /// Reads a signature whose seconds have ten digits: its time is the last 18 bytes, and only `<` is searched for. Of a
    /// signature with other seconds `None` says nothing.
    #[inline(always)]
    pub(crate) fn decode_fast(text: &'a [u8]) -> Option<SignatureRef<'a>>
        ensures { IfSome result (λ s. IsSignature text.now (signature_ref_who s)) }
    {
        let (front, end) = text.split_last_chunk::<18>()?;
        let time = time_of(end)?;
        let (name, email) = cut(front, b'<')?;
        Some(SignatureRef {
            name: before_space(name),
            email,
            time,
        })
    }

    /// The signature, whatever the length of its parts.
    #[inline(never)]
    fn decode_general(text: &'a [u8]) -> Option<SignatureRef<'a>>
        ensures { MatchOption result ((who : Who) → IsSignature text.now who → ⊥)
            (λ s. IsSignature text.now (signature_ref_who s)) }
    {
        let (front, behind_name) = cut(text, b'<')?;
        let (email, behind_email) = cut_last(behind_name, b'>')?;
        let (space, time) = behind_email.split_first()?;
        if *space != b' ' {
            return None;
        }
        let (digits, zone_digits) = cut(time, b' ')?;
        let seconds = seconds(digits)?;
        let offset = zone(zone_digits)?;
        Some(SignatureRef {
            name: before_space(front),
            email,
            time: Time { seconds, offset },
        })
    }

    /// The same signature without space, tab, LF, FF and CR at the ends of its name and email. As gix-actor's
    /// `SignatureRef::trim`.
    ///
    /// ```text
    /// let committer = SignatureRef { name: b" A U Thor ", email: b"a@example.com", time };
    /// committer.trim().name // `A U Thor`
    /// ```
    pub fn trim(self) -> SignatureRef<'a>
        ensures { signature_ref_who result ≡ trimmed_who (signature_ref_who self.entry) }
    {
        SignatureRef {
            name: trim(self.name),
            email: trim(self.email),
            time: self.time,
        }
    }

    /// Whether the signature can be written: name and email hold no `<`, no `>` and no LF, and the offset is of whole
    /// minutes and not past 99:59 either way. As the checks of gix-actor's `SignatureRef::write_to`.
    pub fn is_writable(self) -> bool
        ensures { IsTrue result ↔ CanWrite (signature_ref_who self.entry) }
    {
        self.writable_zone().is_some()
    }

    /// The text of the offset, where the signature can be written.
    pub(crate) fn writable_zone(self) -> Option<[u8; 5]>
        ensures { MatchOption result (CanWrite (signature_ref_who self.entry) → ⊥) (λ zone. CanWrite
            (signature_ref_who self.entry) × (zone ≡ offset_text self.entry.time.offset)) }
    {
        if !is_plain(self.name) || !is_plain(self.email) {
            return None;
        }
        zone_text(self.time.offset)
    }

    /// Writes the signature, of whose offset this is the text.
    fn write_stamped<W: io::Write>(self, zone: &[u8], out: &mut W) -> io::Result<()>
        requires { zone.now ≡ offset_text self.time.offset }
        ensures written { OnOk result (Appends (W.contents out.old) (W.contents out.new)
            (signature_text (signature_ref_who self.entry))) }
        ensures stopped { IfErr result (StopsShort (W.contents out.old) (W.contents out.new)
            (signature_text (signature_ref_who self.entry))) }
    {
        let mut digits = itoa::Buffer::new();
        let seconds = digits.format(self.time.seconds).as_bytes();
        write_parts(
            out,
            &[self.name, b" <", self.email, b"> ", seconds, b" ", zone],
        )
    }

    /// Adds the signature, of whose offset this is the text, to a text.
    pub(crate) fn push_stamped(self, zone: &[u8], text: &mut Vec<u8>) -> Result<(), AllocError>
        requires { zone.now ≡ offset_text self.time.offset }
        ensures { OnOk result (text.new.items ≡ text.old.items
            ++ signature_text (signature_ref_who self.entry)) }
    {
        let mut digits = itoa::Buffer::new();
        let seconds = digits.format(self.time.seconds).as_bytes();
        push_parts(
            text,
            &[self.name, b" <", self.email, b"> ", seconds, b" ", zone],
        )
    }

    /// Writes `name <email> seconds +hhmm`, as it is: nothing is trimmed. `SignatureUnwritable` comes before the first
    /// byte. After `Io` the writer holds a beginning of the signature, and not all of it; a write that a signal interrupts
    /// is tried again. As gix-actor's `SignatureRef::write_to`.
    ///
    /// ```text
    /// let time = Time { seconds: 1234567890, offset: 28800 };
    /// let committer = SignatureRef { name: b"A U Thor", email: b"a@example.com", time };
    /// committer.write_to(&mut out)?; // A U Thor <a@example.com> 1234567890 +0800
    /// ```
    pub fn write_to<W: io::Write>(self, out: &mut W) -> Result<(), WriteError>
        ensures written { OnOk result (CanWrite (signature_ref_who self.entry) × Appends (W.contents
            out.old) (W.contents out.new) (signature_text (signature_ref_who self.entry))) }
        ensures refused { IsErrOf result WriteError.SignatureUnwritable
            ↔ (CanWrite (signature_ref_who self.entry) → ⊥) }
        ensures untouched { IsErrOf result WriteError.SignatureUnwritable → out.new ≡ out.old }
        ensures stopped { (error : _) → IsErrOf result (WriteError.Io error) →
            StopsShort (W.contents out.old) (W.contents out.new)
            (signature_text (signature_ref_who self.entry)) error }
    {
        let Some(zone) = self.writable_zone() else {
            return Err(WriteError::SignatureUnwritable);
        };
        match self.write_stamped(&zone, out) {
            Ok(()) => Ok(()),
            Err(error) => Err(WriteError::Io(error)),
        }
    }

    /// An owned copy; the error says that there was no memory for it. As gix-actor's `SignatureRef::to_owned`.
    #[inline(always)]
    pub fn to_owned(self, alloc: Global) -> Result<Signature, AllocError>
        ensures { IfOk result (λ owned. signature_who owned ≡ signature_ref_who self.entry) }
    {
        Ok(Signature {
            name: Vec::from_slice(alloc, self.name)?,
            email: Vec::from_slice(alloc, self.email)?,
            time: self.time,
        })
    }
}
