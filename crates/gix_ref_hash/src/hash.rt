//! Ids of objects and their hex digits.
ghost use Rattle.std.specs.Prelude.{◌≡◌, ◌↔◌, ◌++◌, List, MatchOption, ◌*◌, ℕ, length, take, take_while, IsTrue, IfSome, IfNone, OnOk, OnErr};
ghost use Rattle.std.specs.List.{list_all};
ghost use Rattle.hex.specs.Hex.{encode_lower, is_hex_digit, IsBytes};
ghost use Rattle.gix_ref_hash.specs.Bytes.{IsNewline};
ghost use Rattle.gix_ref_hash.specs.Digits.{lower_hex};
ghost use Rattle.gix_ref_hash.specs.declared.hash.ObjectId.{ObjectId};
ghost use Rattle.gix_ref_hash.specs.Ids.{id_bytes, id_kind, kind_len, null_id, IsWhole, ReadsId, IsHexOf, IsHex, IsIdText, HexRun};

use hex::FromHex;
use std::alloc::AllocError;
use std::fmt;

mod digits;

use digits::{digits_of_sha1, lower_sha1_digits, sha1_of_digits};

/// The hash functions whose ids are known (`git init --object-format`). As gix-hash's `Kind`.
#[derive(Clone, Copy, Debug, PartialEq, Eq, PartialOrd, Ord, Hash)]
pub enum Kind {
    /// SHA-1: 20 bytes, 40 hex digits.
    Sha1,
    /// SHA-256: 32 bytes, 64 hex digits.
    Sha256,
}

/// The id of an object. Ids are ordered by their kind and then by their bytes. As gix-hash's `ObjectId`.
///
/// ```text
/// let id = ObjectId::from_hex(b"1111111111111111111111111111111111111111");
/// if let Some(id) = id {
///     println!(rt; "{id}")?; // the forty digits
/// }
/// ```
#[derive(Clone, Copy, Debug, PartialEq, Eq, PartialOrd, Ord, Hash)]
pub enum ObjectId {
    /// The 20 bytes of a SHA-1.
    Sha1([u8; 20]),
    /// The 32 bytes of a SHA-256.
    Sha256([u8; 32]),
}

/// These bytes, of which each is below 256: a fact that is known of a slice, and not of an array in an enum.
fn as_read(bytes: &[u8]) -> &[u8]
    ensures same { result.now ≡ bytes.now }
    ensures bytes { IsBytes bytes.now }
{
    bytes
}

impl Kind {
    /// The number of bytes of an id: 20 or 32. As gix-hash's `Kind::len_in_bytes`.
    pub fn len_in_bytes(self) -> usize
        ensures { result ≡ kind_len self }
    {
        match self {
            Kind::Sha1 => 20,
            Kind::Sha256 => 32,
        }
    }

    /// The number of hex digits of an id: 40 or 64. As gix-hash's `Kind::len_in_hex`.
    pub fn len_in_hex(self) -> usize
        ensures { result ≡ 2 * kind_len self }
    {
        2 * self.len_in_bytes()
    }

    /// The id of this kind whose bytes are all zero. As gix-hash's `Kind::null`.
    ///
    /// ```text
    /// let none = Kind::Sha1.null(); // forty zeros, which `git update-ref` takes as the old value of a new reference
    /// ```
    pub fn null(self) -> ObjectId
        ensures { result ≡ null_id self }
    {
        match self {
            Kind::Sha1 => ObjectId::Sha1([0; 20]),
            Kind::Sha256 => ObjectId::Sha256([0; 32]),
        }
    }
}

impl ObjectId {
    /// Reads an id from exactly 40 or 64 hex digits, of either case; `None` for any other text. As gix-hash's
    /// `ObjectId::from_hex`, whose error is `None` here.
    ///
    /// ```text
    /// ObjectId::from_hex(b"1111111111111111111111111111111111111111") // an id of 20 bytes
    /// ObjectId::from_hex(b"11")                                       // None
    /// ```
    pub fn from_hex(text: &[u8]) -> Option<ObjectId>
        ensures { MatchOption result (IsHex text.now → ⊥) (ReadsId text.now) }
    {
        match text.len() {
            40 => match <[u8; 20] as FromHex>::from_hex(text) {
                Ok(bytes) => Some(ObjectId::Sha1(bytes)),
                Err(_) => None,
            },
            64 => match <[u8; 32] as FromHex>::from_hex(text) {
                Ok(bytes) => Some(ObjectId::Sha256(bytes)),
                Err(_) => None,
            },
            _ => None,
        }
    }

    /// The id of the kind whose bytes are all zero. As gix-hash's `ObjectId::null`.
    pub fn null(kind: Kind) -> ObjectId
        ensures { result ≡ null_id kind }
    {
        kind.null()
    }

    /// The hash function of the id. As gix-hash's `ObjectId::kind`.
    pub fn kind(&self) -> Kind
        ensures { result ≡ id_kind self.now }
    {
        match self {
            ObjectId::Sha1(_) => Kind::Sha1,
            ObjectId::Sha256(_) => Kind::Sha256,
        }
    }

    /// The bytes of the id, 20 or 32 of them. As gix-hash's `ObjectId::as_bytes`.
    ///
    /// ```text
    /// let id = Kind::Sha1.null();
    /// let bytes = id.as_bytes(); // twenty bytes 0
    /// ```
    pub fn as_bytes(&self) -> &[u8]
        ensures bytes { result.now ≡ id_bytes self.now }
        ensures len { length result.now ≡ kind_len (id_kind self.now) }
        ensures whole { IsWhole self.now }
    {
        match self {
            ObjectId::Sha1(bytes) => as_read(&bytes[..]),
            ObjectId::Sha256(bytes) => as_read(&bytes[..]),
        }
    }

    /// Adds the 40 or 64 hex digits of the id to the text, in lower case. The error reports that the text could not grow, and
    /// leaves it as it was. As `write!` of the id into a text.
    pub fn push_hex(&self, text: &mut Vec<u8>) -> Result<(), AllocError>
        ensures added { OnOk result (text.new.items
            ≡ text.old.items ++ encode_lower (id_bytes self.now)) }
        ensures left { OnErr result (text.new.items ≡ text.old.items) }
    {
        match self {
            ObjectId::Sha1(bytes) => text.extend_from_slice(&digits_of_sha1(bytes)),
            ObjectId::Sha256(_) => {
                let mut digits = [0u8; 64];
                hex::encode_to_slice(self.as_bytes(), &mut digits).unwrap();
                text.extend_from_slice(&digits)
            }
        }
    }

    /// Whether the id is the null id of its kind. As gix-hash's `ObjectId::is_null`.
    pub fn is_null(&self) -> bool
        ensures { IsTrue result ↔ (self.now ≡ null_id (id_kind self.now)) }
    {
        *self == self.kind().null()
    }
}

/// Writes the 40 or 64 hex digits in lower case.
impl fmt::Display for ObjectId {
    ghost use Rattle.std.specs.Prelude.{Some};
    ghost use Rattle.hex.specs.Hex.{encode_lower};
    ghost use Rattle.gix_ref_hash.specs.Ids.{id_bytes};

    ghost output = { λ id. Some (encode_lower (id_bytes id)) };

    fn fmt<W: fmt::Write>(&self, f: &mut fmt::Formatter<W>) -> fmt::Result {
        let mut room = [0u8; 64];
        let digits = &mut room[..self.kind().len_in_hex()];
        hex::encode_to_slice(self.as_bytes(), digits).unwrap();
        f.write_str(str::from_utf8(digits).unwrap())
    }
}

/// The id of which these are the hex digits, 40 or 64 of them, of either case. As `ObjectId::from_hex` of a text that
/// is known to be one.
#[inline(always)]
pub fn id_of_digits(digits: &[u8]) -> ObjectId
    requires { IsIdText digits.now }
    ensures { ReadsId digits.now result }
{
    match <&[u8; 40]>::try_from(digits) {
        Ok(digits) => ObjectId::Sha1(sha1_of_digits(digits)),
        Err(_) => ObjectId::from_hex(digits).unwrap(),
    }
}

/// Adds the 40 or 64 hex digits of an id, of either case, to the text in lower case. The error reports that the text could not
/// grow, and leaves it as it was. As `ObjectId::push_hex` of the id that they are, which is not made.
#[inline(always)]
pub fn push_lower_hex(digits: &[u8], text: &mut Vec<u8>) -> Result<(), AllocError>
    requires { IsIdText digits.now }
    ensures added { OnOk result (text.new.items ≡ text.old.items ++ lower_hex digits.now) }
    ensures left { OnErr result (text.new.items ≡ text.old.items) }
{
    match <&[u8; 40]>::try_from(digits) {
        Ok(digits) => text.extend_from_slice(&lower_sha1_digits(digits)),
        Err(_) => id_of_digits(digits).push_hex(text),
    }
}

/// Whether a byte is a hex digit, of either case. As `u8::is_ascii_hexdigit`.
pub fn is_hex(byte: u8) -> bool
    ensures { result ≡ is_hex_digit byte }
{
    matches!(byte, b'0'..=b'9' | b'A'..=b'F' | b'a'..=b'f')
}

/// Whether all bytes are hex digits, of either case. All are looked at, which is faster here than to stop at the first
/// that is not one.
fn are_hex_of_any_length(text: &[u8]) -> bool
    ensures { result ≡ list_all is_hex_digit text.now }
{
    let mut are_digits = true;
    for byte in text {
        are_digits &= is_hex(*byte);
    }
    are_digits
}

/// Whether all bytes are hex digits, of either case. Those of a SHA-1 are looked at as an array, which is faster.
#[inline(always)]
pub fn are_hex(text: &[u8]) -> bool
    ensures { result ≡ list_all is_hex_digit text.now }
{
    match <&[u8; 40]>::try_from(text) {
        Ok(digits) => digits::are_sha1_digits(digits),
        Err(_) => are_hex_of_any_length(text),
    }
}

/// The hex digits of an id of the kind at the front of the text, of either case, and what follows them; `None` where the text
/// does not begin with that many digits. As `hex_hash`, which moves its input on.
///
/// ```text
/// let text = b"1111111111111111111111111111111111111111 refs/heads/a".as_slice();
/// split_id(text, Kind::Sha1) // the 40 digits, and ` refs/heads/a`
/// ```
pub fn split_id(text: &[u8], kind: Kind) -> Option<(&[u8], &[u8])>
    ensures { MatchOption result ((digits rest : List ℕ) → IsHexOf kind digits → text.now
        ≡ digits ++ rest → ⊥) (λ p. IsHexOf kind p.0.now × (text.now ≡ p.0.now ++ p.1.now)) }
{
    let len = kind.len_in_hex();
    if text.len() < len {
        return None;
    }
    let (digits, rest) = text.split_at(len);
    if !are_hex(digits) {
        return None;
    }
    Some((digits, rest))
}

/// Takes the hex digits of an id of the kind from the front of the input. `None` leaves the input, where it does not
/// begin with that many digits. As gix-ref's private `hex_hash`.
///
/// ```text
/// let mut text = b"1111111111111111111111111111111111111111 refs/heads/a".as_slice();
/// let digits = hex_hash(&mut text, Kind::Sha1); // the 40 digits; the text is ` refs/heads/a`
/// ```
pub fn hex_hash<'a>(input: &mut &'a [u8], kind: Kind) -> Option<&'a [u8]>
    ensures taken { IfSome result (λ digits. IsHexOf kind digits.now
        × (input.old.now ≡ digits.now ++ input.new.now)) }
    ensures refused { IfNone result ((digits rest : List ℕ) → IsHexOf kind digits →
        input.old.now ≡ digits ++ rest → ⊥) }
    ensures left { IfNone result (input.new ≡ input.old) }
{
    let (digits, rest) = split_id(input, kind)?;
    *input = rest;
    Some(digits)
}

/// The number of hex digits at the front of the text, 64 at the most.
fn hex_run(text: &[u8]) -> usize
    ensures { result ≡ length (take_while is_hex_digit (take 64 text.now)) }
{
    text.iter()
        .take(64)
        .take_while(|byte| is_hex(**byte))
        .count()
}

/// The run of hex digits at the front of the text, where it is 40 or 64 digits long, and what follows it.
fn any_id(text: &[u8]) -> Option<(&[u8], &[u8])>
    ensures { MatchOption result ((digits rest : List ℕ) → HexRun text.now digits rest →
        IsHex digits → ⊥) (λ p. HexRun text.now p.0.now p.1.now × IsHex p.0.now) }
{
    let len = hex_run(text);
    match len {
        40 | 64 => Some(text.split_at(len)),
        _ => None,
    }
}

/// Takes the hex digits of an id of any kind from the front of the input: the run of hex digits, cut at 64, which
/// must be 40 or 64 digits long. `None` leaves the input. As gix-ref's private `hex_hash_any`.
///
/// ```text
/// let mut text = b"1111111111111111111111111111111111111111 refs/heads/a".as_slice();
/// let digits = hex_hash_any(&mut text); // the 40 digits; the text is ` refs/heads/a`
/// ```
pub fn hex_hash_any<'a>(input: &mut &'a [u8]) -> Option<&'a [u8]>
    ensures taken { IfSome result (λ digits. HexRun input.old.now digits.now input.new.now
        × IsHex digits.now) }
    ensures refused { IfNone result ((digits rest : List ℕ) → HexRun input.old.now digits rest →
        IsHex digits → ⊥) }
    ensures left { IfNone result (input.new ≡ input.old) }
{
    let (digits, rest) = any_id(input)?;
    *input = rest;
    Some(digits)
}

/// Takes a newline, LF or CR and LF, from the front of the input. `None`, and the input as it was, if it does
/// not begin with one. As gix-ref's private `newline`.
///
/// ```text
/// let mut text = b"\r\nnext".as_slice();
/// let end = newline(&mut text); // `\r\n`; the text is `next`
/// ```
pub fn newline<'a>(input: &mut &'a [u8]) -> Option<&'a [u8]>
    ensures taken { IfSome result (λ end. IsNewline end.now
        × (input.old.now ≡ end.now ++ input.new.now)) }
    ensures refused { IfNone result ((end rest : List ℕ) → IsNewline end →
        input.old.now ≡ end ++ rest → ⊥) }
    ensures left { IfNone result (input.new ≡ input.old) }
{
    let len = match *input {
        [b'\n', ..] => 1,
        [b'\r', b'\n', ..] => 2,
        _ => return None,
    };
    let (end, rest) = input.split_at(len);
    *input = rest;
    Some(end)
}
