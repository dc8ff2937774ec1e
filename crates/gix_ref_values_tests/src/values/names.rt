//! Names: the grammar, with the results of `git check-ref-format`, and what names are made of.
use crate::made::{copy, full, partial};
use crate::values::made::{bytes, full_name, partial_name, shown};
use gix_ref_name::name::{Error, FullName, FullNameRef, PartialName};
use std::alloc::{AllocError, Global};
use std::collections::HashSet;
use std::test::Fail;
use std::time::{Duration, Instant};

/// `refs/`, so many times `a/`, and an `a`.
fn long_name(alloc: Global, count: usize) -> Result<Vec<u8>, AllocError> {
    let mut name = b"refs/".to_vec(alloc)?;
    for _ in 0..count {
        name.extend_from_slice(b"a/")?;
    }
    name.extend_from_slice(b"a")?;
    Ok(name)
}

#[test]
fn long_names_in_one_pass(rt: HostRuntime) -> Result<(), Fail> {
    let long = long_name(rt.alloc(), 99_997)?;
    let start = Instant::now(&rt)?;
    assert!(rt; FullNameRef::try_from(&long).is_ok(), "200,000 bytes");
    let time = start.elapsed(&rt)?;
    assert!(rt; time < Duration::from_secs(5), "in one pass");
    Ok(())
}

#[test]
fn owned_full_names(rt: HostRuntime) {
    let alloc = rt.alloc();
    let name = full_name(&rt, alloc, "refs/heads/main");
    assert!(rt;
        name.as_ref() == full(&rt, "refs/heads/main"),
        "the bytes of the view"
    );
    assert!(rt; copy(&rt, &name) == name, "a copy");
    let again = FullName::try_from(bytes(&rt, alloc, "refs/heads/main"));
    assert!(rt; again == Ok(name), "made from its bytes");
    let error = FullName::try_from(bytes(&rt, alloc, "main")).err();
    assert_eq!(rt; error, Some(Error::SomeLowercase), "made from other bytes");
}

#[test]
fn owned_partial_names(rt: HostRuntime) {
    let alloc = rt.alloc();
    let name = partial_name(&rt, alloc, "heads/main");
    assert!(rt;
        name.as_ref() == partial(&rt, "heads/main"),
        "the bytes of the view"
    );
    assert!(rt; copy(&rt, &name) == name, "a copy");
    let again = PartialName::try_from(shown(&rt, alloc, &name));
    assert!(rt; again == Ok(name), "made from its text");
}

#[test]
fn names_that_are_not_utf8(rt: HostRuntime) -> Result<(), Fail> {
    let torn = FullNameRef::try_from(b"refs/heads/\xc3(".as_slice())?;
    let text = shown(&rt, rt.alloc(), &torn);
    assert_eq!(rt;
        text.as_str(),
        "refs/heads/\u{fffd}(",
        "a replacement character"
    );
    let text = shown(&rt, rt.alloc(), &torn.as_partial_name());
    assert_eq!(rt; text.as_str(), "refs/heads/\u{fffd}(", "as a partial name");
    Ok(())
}

#[test]
fn names_in_a_set(rt: HostRuntime) -> Result<(), Fail> {
    let mut names = HashSet::new(rt.alloc());
    for text in ["refs/heads/b", "refs/heads/a", "refs/heads/b"] {
        names.insert(full(&rt, text))?;
    }
    assert_eq!(rt; names.len(), 2, "equal names have one hash");
    Ok(())
}

/// The rule that `refs/heads/a` breaks with this byte in this place, by `git check-ref-format`; which of two is told first is ours.
fn broken(place: usize, byte: u8) -> Option<Error> {
    match (byte, place) {
        (b'*', _) => Some(Error::Asterisk),
        (0..=0x20 | 0x7f | b'~' | b'^' | b':' | b'?' | b'[' | b'\\', _) => {
            Some(Error::InvalidByte { byte })
        }
        (b'/', 0) => Some(Error::StartsWithSlash),
        (b'/', 11) => Some(Error::EndsWithSlash),
        (b'/', 3 | 5 | 9) => Some(Error::RepeatedSlash),
        (b'.', 0 | 5 | 11) => Some(Error::StartsWithDot),
        _ => None,
    }
}

#[test]
fn any_byte_anywhere(rt: HostRuntime) {
    for place in 0..12usize {
        for byte in 0..=255u8 {
            let mut text = *b"refs/heads/a";
            text[place] = byte;
            let error = FullNameRef::try_from(text.as_slice()).err();
            assert_eq!(rt; error, broken(place, byte), "{byte} at {place}");
        }
    }
}
