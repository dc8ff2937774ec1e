//! A hundred thousand records, out of their order: opened, listed and searched.
use crate::made::{ONES, full};
use gix_ref_hash::hash::Kind;
use gix_ref_packed::packed::Buffer;
use gix_ref_packed::packed::written::push_record;
use std::alloc::Global;
use std::process::Abort;

/// So many records, the last name first.
fn descending(rt: &impl Abort, alloc: Global, count: u32) -> Vec<u8> {
    let mut text = Vec::new(alloc);
    for i in 0..count {
        let name = format!(in alloc; "refs/heads/branch-{:06}", count - i).expect(rt, "memory");
        push_record(&mut text, name.as_bytes(), ONES, None).expect(rt, "memory");
    }
    text
}

#[test]
fn a_hundred_thousand(rt: HostRuntime) {
    let alloc = rt.alloc();
    let text = descending(&rt, alloc, 100_000);
    let packed = Buffer::from_bytes(alloc, text, Kind::Sha1).expect(&rt, "a buffer");
    let mut listed: u64 = 0;
    for item in packed.iter() {
        assert!(rt; item.is_ok());
        listed = listed.saturating_add(1);
    }
    assert_eq!(rt; listed, 100_000);
    for name in [
        "refs/heads/branch-000001",
        "refs/heads/branch-050000",
        "refs/heads/branch-100000",
    ] {
        let found = packed
            .try_find_key(full(&rt, name))
            .expect(&rt, "an answer");
        assert!(rt; found.is_some(), "{name}");
    }
    for name in [
        "refs/heads/branch-000000",
        "refs/heads/branch-0500000",
        "refs/heads/zzz",
    ] {
        let found = packed
            .try_find_key(full(&rt, name))
            .expect(&rt, "an answer");
        assert!(rt; found.is_none(), "{name}");
    }
}
