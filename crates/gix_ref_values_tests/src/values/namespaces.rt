//! Namespaces, as Git expands them (`gitnamespaces`).
use crate::values::made::{full_name, namespace};

#[test]
fn prefixed(rt: HostRuntime) {
    let alloc = rt.alloc();
    let foo = namespace(&rt, alloc, "foo");
    let mut name = full_name(&rt, alloc, "refs/heads/main");
    assert!(rt; name.prefix_namespace(alloc, &foo).is_ok(), "in front");
    assert!(rt;
        name.eq_bytes(b"refs/namespaces/foo/refs/heads/main"),
        "in front"
    );
    assert!(rt; name.prefix_namespace(alloc, &foo).is_ok(), "once only");
    assert!(rt;
        name.eq_bytes(b"refs/namespaces/foo/refs/heads/main"),
        "once only"
    );
    let prefix = foo.into_namespaced_prefix(alloc, b"refs/heads/");
    let prefix = prefix.expect(&rt, "memory");
    let want = b"refs/namespaces/foo/refs/heads/".as_slice();
    assert!(rt; prefix.as_slice() == want, "of a listing");
}
