//! The rules for names: one scan of the bytes, and the first rule that is broken.
ghost use Rattle.std.specs.Prelude.{◌≡◌, ◌≤◌, ◌+◌, length, ◌==◌, ◌&&◌, codes, IfOk, IfErr, OnOk, IfNone, Some, None, Ok, Err, find, false};
ghost use Rattle.std.specs.Bool.{OnTrue};
ghost use Rattle.std.specs.List.{list_any, list_all};
ghost use Rattle.gix_ref_hash.specs.Bytes.{is_slash, occurs, components};
ghost use Rattle.gix_ref_name.specs.NameGrammar.{AllFollow, is_plain, may_follow, is_invalid, is_pseudo_byte, is_dotted, is_locked, byte_error, IsPartialName, partial_error, full_error};

use crate::name::Error;

/// What a scan of a name found.
#[derive(Clone, Copy)]
struct Faults {
    repeated_slash: bool,
    starts_with_dot: bool,
    repeated_dot: bool,
    lock_file_suffix: bool,
    reflog_portion: bool,
}

/// For each byte a letter. Its low bits say what the byte is: 1 a slash, 2 a dot, 4 a byte that no name has, or `@`. The
/// same bits four places higher say which of these it may not follow, or that only the scan decides. So the slash has
/// `Q`, the dot `r`, the byte with which `lock` begins "`", a byte that no name has `D`, and any other `@`.
static LETTERS: [u8; 256] = *b"\
    DDDDDDDDDDDDDDDDDDDDDDDDDDDDDDDD\
    D@@@@@@@@@D@@@rQ@@@@@@@@@@D@@@@D\
    D@@@@@@@@@@@@@@@@@@@@@@@@@@DD@D@\
    @@@@@@@@@@@@`@@@@@@@@@@@@@@@@@DD\
    @@@@@@@@@@@@@@@@@@@@@@@@@@@@@@@@\
    @@@@@@@@@@@@@@@@@@@@@@@@@@@@@@@@\
    @@@@@@@@@@@@@@@@@@@@@@@@@@@@@@@@\
    @@@@@@@@@@@@@@@@@@@@@@@@@@@@@@@@";

/// Whether a name keeps all rules for partial names, as far as two bytes in a row show that: most names do. It looks at
/// all bytes without an early exit, and takes less than half of the time of the scan.
fn is_plainly_partial(name: &[u8]) -> bool
    ensures { OnTrue result (IsPartialName name.now) }
{
    let mut clashes = 0;
    let mut before = LETTERS[b'/' as usize];
    for byte in name {
        let letter = LETTERS[*byte as usize];
        clashes |= letter & (before << 4);
        before = letter;
    }
    clashes == 0 && before & 7 == 0
}

/// Whether a byte may follow another one in any name: no rule concerns it, or it is a slash after another byte.
#[inline(always)]
fn may_follow(before: u8, byte: u8) -> bool
    ensures { result ≡ may_follow before byte }
{
    is_plain_byte(byte) | ((byte == b'/') & (before != b'/'))
}

/// Whether each of the 16 bytes from `start` on may follow the one before it. All are looked at, in vectors.
#[inline(always)]
fn follow_in_lanes(name: &[u8], start: usize) -> bool
    requires first { 1 ≤ start }
    requires within { start + 16 ≤ length name.now }
    ensures { OnTrue result (AllFollow name.now start (start + 16)) }
{
    let Ok(before) = <&[u8; 16]>::try_from(&name[start - 1..start + 15]) else {
        return false;
    };
    let Ok(bytes) = <&[u8; 16]>::try_from(&name[start..start + 16]) else {
        return false;
    };
    let mut follow = true;
    for i in 0..16 {
        follow &= may_follow(before[i], bytes[i]);
    }
    follow
}

/// Whether a name of 17 bytes or more is of bytes that no rule concerns and of single slashes between them. False says nothing.
/// It takes a third of the time of `is_plainly_partial`.
fn is_plain_path(name: &[u8]) -> bool
    ensures { OnTrue result (IsPartialName name.now) }
{
    if name.len() < 17 {
        return false;
    }
    let last = name.len() - 16;
    let mut start = 1;
    while start < last {
        if !follow_in_lanes(name, start) {
            return false;
        }
        start += 16;
    }
    follow_in_lanes(name, last) && is_plain_byte(name[0]) && name[name.len() - 1] != b'/'
}

/// Whether no name has this byte.
fn is_invalid_byte(byte: u8) -> bool
    ensures { result ≡ is_invalid byte }
{
    matches!(
        byte,
        0..=b' ' | b'*' | b':' | b'?' | b'[' | b'\\' | b'^' | b'~' | 0x7f
    )
}

/// Whether no rule concerns this byte, whatever is around it: the common case.
#[inline(always)]
fn is_plain_byte(byte: u8) -> bool
    ensures value { result ≡ is_plain byte }
    ensures valid { OnTrue result (is_invalid byte ≡ false) }
    ensures slash { OnTrue result ((47 == byte) ≡ false) }
    ensures dot { OnTrue result ((46 == byte) ≡ false) }
    ensures brace { OnTrue result ((123 == byte) ≡ false) }
{
    matches!(byte, b'-' | b'0'..=b'9' | b'A'..=b'Z' | b'_' | b'a'..=b'z')
}

/// The error for a byte that no name has.
fn error_of_byte(byte: u8) -> Error
    ensures { result ≡ byte_error byte }
{
    match byte {
        b'*' => Error::Asterisk,
        _ => Error::InvalidByte { byte },
    }
}

/// Whether a pseudo name may have this byte.
fn is_pseudo_name_byte(byte: u8) -> bool
    ensures { result ≡ is_pseudo_byte byte }
{
    byte.is_ascii_uppercase() || byte == b'_'
}

/// Whether a name has only bytes of a pseudo name. As gix-ref's rule for `Category::PseudoRef`.
///
/// ```text
/// is_pseudo_name(b"FETCH_HEAD") // true
/// is_pseudo_name(b"FETCH-HEAD") // false
/// ```
pub fn is_pseudo_name(name: &[u8]) -> bool
    ensures { result ≡ list_all is_pseudo_byte name.now }
{
    name.iter().all(|byte| is_pseudo_name_byte(*byte))
}

/// Whether two bytes in a row are the two given ones.
fn is_pair(previous: u8, byte: u8, first: u8, second: u8) -> bool
    ensures { result ≡ ((first == previous) && (second == byte)) }
{
    previous == first && byte == second
}

/// Reads the name once; an `Err` is its first invalid byte.
fn scan(name: &[u8]) -> Result<Faults, u8>
    ensures valid { OnOk result (find is_invalid name.now ≡ None) }
    ensures invalid { IfErr result (λ b. find is_invalid name.now ≡ Some b) }
    ensures repeated_slash { IfOk result (λ s. s.repeated_slash ≡ occurs (codes "//") name.now) }
    ensures repeated_dot { IfOk result (λ s. s.repeated_dot ≡ occurs (codes "..") name.now) }
    ensures reflog_portion { IfOk result (λ s. s.reflog_portion ≡ occurs (codes "@{") name.now) }
    ensures starts_with_dot { IfOk result
        (λ s. s.starts_with_dot ≡ list_any is_dotted (components name.now)) }
    ensures lock_file_suffix { IfOk result
        (λ s. s.lock_file_suffix ≡ list_any is_locked (components name.now)) }
{
    let mut seen = Faults {
        repeated_slash: false,
        starts_with_dot: false,
        repeated_dot: false,
        lock_file_suffix: false,
        reflog_portion: false,
    };
    let mut previous = 0;
    let mut start = 0;
    for (i, byte) in name.iter().enumerate() {
        let byte = *byte;
        if is_plain_byte(byte) {
            previous = byte;
            continue;
        }
        if is_invalid_byte(byte) {
            return Err(byte);
        }
        seen.repeated_slash |= is_pair(previous, byte, b'/', b'/');
        seen.repeated_dot |= is_pair(previous, byte, b'.', b'.');
        seen.reflog_portion |= is_pair(previous, byte, b'@', b'{');
        if byte == b'/' {
            let component = &name[start..i];
            seen.starts_with_dot |= component.starts_with(b".");
            seen.lock_file_suffix |= component.ends_with(b".lock");
            start = i + 1;
        }
        previous = byte;
    }
    let component = &name[start..];
    seen.starts_with_dot |= component.starts_with(b".");
    seen.lock_file_suffix |= component.ends_with(b".lock");
    Ok(seen)
}

/// The first of the rules for partial names that the name breaks (`git check-ref-format`). As gix-validate's
/// `reference::name_partial`.
///
/// ```text
/// broken_partial_rule(b"main")  // None
/// broken_partial_rule(b"a..b")  // Some(Error::RepeatedDot)
/// ```
#[tactic(auto, unfolding(crate::specs::NameGrammar::partial_error))]
pub fn broken_partial_rule(name: &[u8]) -> Option<Error>
    ensures { result ≡ partial_error name.now }
{
    if is_plain_path(name) || is_plainly_partial(name) {
        return None;
    }
    if name.is_empty() {
        return Some(Error::Empty);
    }
    let seen = match scan(name) {
        Ok(seen) => seen,
        Err(byte) => return Some(error_of_byte(byte)),
    };
    if name.starts_with(b"/") {
        Some(Error::StartsWithSlash)
    } else if name.ends_with(b"/") {
        Some(Error::EndsWithSlash)
    } else if seen.repeated_slash {
        Some(Error::RepeatedSlash)
    } else if seen.starts_with_dot {
        Some(Error::StartsWithDot)
    } else if name.ends_with(b".") {
        Some(Error::EndsWithDot)
    } else if seen.repeated_dot {
        Some(Error::RepeatedDot)
    } else if seen.lock_file_suffix {
        Some(Error::LockFileSuffix)
    } else if seen.reflog_portion {
        Some(Error::ReflogPortion)
    } else if name == b"@".as_slice() {
        Some(Error::SingleAt)
    } else {
        None
    }
}

/// Whether a name has a slash. Most full names begin with `refs/`, which is seen at once.
#[tactic(auto, using(crate::proofs::CandidateNames::refs_slash))]
fn has_slash(name: &[u8]) -> bool
    ensures { result ≡ list_any is_slash name.now }
{
    matches!(name, [b'r', b'e', b'f', b's', b'/', ..]) || name.contains(&b'/')
}

/// The first of the rules for full names that the name breaks (`git check-ref-format`). As gix-validate's
/// `reference::name`.
#[tactic(auto, unfolding(crate::specs::NameGrammar::full_error))]
pub fn broken_full_rule(name: &[u8]) -> Option<Error>
    ensures value { result ≡ full_error name.now }
    ensures partial { IfNone result (IsPartialName name.now) }
{
    if let Some(error) = broken_partial_rule(name) {
        return Some(error);
    }
    if has_slash(name) || is_pseudo_name(name) {
        None
    } else {
        Some(Error::SomeLowercase)
    }
}
