//! What a partial name may be short for, devices of Windows, and the forms of Unicode.
use crate::made::partial;
use crate::uses::candidates_of;
use crate::values::made::full_name;
use gix_ref_name::name::candidates::remote_head;
use gix_ref_name::name::compose::{compose, decompose};
use gix_ref_name::name::device::{has_device_name, is_device_name};
use std::test::Fail;

#[test]
fn candidates_in_turn(rt: HostRuntime) -> Result<(), Fail> {
    let alloc = rt.alloc();
    let found = candidates_of(alloc, partial(&rt, "main"))?;
    assert_eq!(rt; found.len(), 4);
    assert!(rt; found[0].eq_bytes(b"refs/main"));
    assert!(rt; found[2].eq_bytes(b"refs/heads/main"));
    let found = candidates_of(alloc, partial(&rt, "HEAD"))?;
    assert_eq!(rt; found.len(), 5);
    assert!(rt; found[0].eq_bytes(b"HEAD"));
    let found = candidates_of(alloc, partial(&rt, "refs/heads/x"))?;
    assert_eq!(rt; found.len(), 4);
    assert!(rt; found[0].eq_bytes(b"refs/heads/x"));
    assert!(rt; found[1].eq_bytes(b"tags/refs/heads/x"));
    Ok(())
}

#[test]
fn heads_of_remotes(rt: HostRuntime) -> Result<(), Fail> {
    let alloc = rt.alloc();
    assert!(rt; remote_head(alloc, partial(&rt, "HEAD"))?.is_none());
    let origin = remote_head(alloc, partial(&rt, "origin"))?;
    assert!(rt; origin.is_some_and(|name| name.eq_bytes(b"refs/remotes/origin/HEAD")));
    let refs = remote_head(alloc, partial(&rt, "refs"))?;
    assert!(rt; refs.is_some_and(|name| name.eq_bytes(b"remotes/refs/HEAD")));
    Ok(())
}

#[test]
fn devices(rt: HostRuntime) {
    assert!(rt; is_device_name(b"Aux.tar.gz"));
    assert!(rt; !is_device_name(b"COM0"));
    assert!(rt; has_device_name(b"refs/heads/lpt9"));
    assert!(rt; !has_device_name(b"refs/heads/main"));
}

#[test]
fn forms(rt: HostRuntime) -> Result<(), Fail> {
    let alloc = rt.alloc();
    let composed = compose(alloc, partial(&rt, "refs/heads/e\u{301}"))?;
    assert!(rt; composed.is_some_and(|name| name.eq_bytes("refs/heads/\u{e9}".as_bytes())));
    assert!(rt; compose(alloc, partial(&rt, "refs/heads/\u{e9}"))?.is_none());
    assert!(rt; compose(alloc, partial(&rt, "refs/heads/e"))?.is_none());
    let decomposed = decompose(alloc, full_name(&rt, alloc, "refs/heads/\u{e9}"))?;
    assert!(rt; decomposed.eq_bytes("refs/heads/e\u{301}".as_bytes()));
    Ok(())
}
