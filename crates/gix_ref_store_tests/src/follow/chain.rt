//! Following references to an object.
use crate::follow::made::{found, is_at, store};
use gix_ref_follow::ReferenceExt;
use gix_ref_store::file::find::existing;

/// One step, among loose files and records.
#[test]
fn steps(rt: HostRuntime) {
    let alloc = rt.alloc();
    let packed = "1111111111111111111111111111111111111111 refs/heads/p\n";
    let texts = [
        ("/r/HEAD", "ref: refs/heads/p\n"),
        ("/r/packed-refs", packed),
    ];
    let mut store = store(&rt, alloc, &texts);
    let head = found(&rt, alloc, &mut store, "HEAD");
    let next = match head.follow(alloc, &mut store) {
        Some(Ok(next)) => next,
        _ => panic!(rt; "HEAD leads on"),
    };
    assert!(rt; is_at(&next, "refs/heads/p"), "the record of the target");
    assert!(rt; next.follow(alloc, &mut store).is_none(), "an object");
    let alone = head.follow_packed(alloc, &mut store, None);
    assert!(rt;
        matches!(&alone, Some(Err(existing::Error::NotFound { .. }))),
        "no record is asked without a buffer"
    );
    let Ok(buffer) = store.open_packed_buffer(alloc) else {
        panic!(rt; "the file is a good one");
    };
    let held = head.follow_packed(alloc, &mut store, buffer.as_ref());
    assert!(rt; matches!(&held, Some(Ok(_))), "the record of the buffer");
    let mut head = head;
    let id = head.follow_to_object_in_place_packed(alloc, &mut store, buffer.as_ref());
    assert!(rt; id.is_ok() && is_at(&head, "refs/heads/p"), "in place");
}
