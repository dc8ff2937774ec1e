//! References as values: made of a record, copied, and inside of a namespace.
use crate::made::{full, id, partial};
use crate::packed::made::{NAMES, TEXT, buffer};
use gix_ref_name::namespace::expand;
use gix_ref_packed::raw::Reference;
use gix_ref_target::target::{Kind, Target};
use std::alloc::Global;
use std::process::Abort;

fn symbolic(rt: &impl Abort, alloc: Global, name: &str, target: &str) -> Reference {
    Reference {
        name: full(rt, name).to_owned(alloc).expect(rt, "memory"),
        target: Target::Symbolic(full(rt, target).to_owned(alloc).expect(rt, "memory")),
        peeled: None,
    }
}

#[test]
fn of_records(rt: HostRuntime) {
    let alloc = rt.alloc();
    let packed = buffer(&rt, alloc, TEXT);
    for name in NAMES {
        let record = packed
            .try_find_key(full(&rt, name))
            .expect(&rt, "an answer")
            .expect(&rt, "a record");
        let value = Reference::from_packed(alloc, record).expect(&rt, "memory");
        assert!(rt; value.eq_bytes(name.as_bytes()), "{name}");
        assert!(rt; value.kind() == Kind::Object, "{name}");
        assert!(rt; value.target.try_id() == Some(record.target()), "{name}");
        assert!(rt; value.peeled == record.peeled(), "{name}");
        assert!(rt;
            value.clone().expect(&rt, "memory") == value,
            "a copy of {name}"
        );
    }
    let tag = packed
        .try_find_key(full(&rt, "refs/tags/v1"))
        .expect(&rt, "an answer")
        .expect(&rt, "a record");
    assert!(rt;
        tag.object() == id(&rt, b"3333333333333333333333333333333333333333"),
        "peeled"
    );
}

#[test]
fn in_a_namespace(rt: HostRuntime) {
    let alloc = rt.alloc();
    let foo = expand(alloc, partial(&rt, "foo")).expect(&rt, "memory");
    let rows: &[(&str, Option<&[u8]>, &str)] = &[
        (
            "refs/namespaces/foo/refs/heads/a",
            Some(b"refs/heads/a"),
            "a name inside",
        ),
        ("refs/namespaces/foo/@", None, "the rest is no valid name"),
        ("refs/heads/a", None, "a name outside"),
    ];
    for &(name, want, meaning) in rows {
        let mut value = symbolic(&rt, alloc, name, "refs/namespaces/foo/refs/heads/b");
        assert!(rt; value.kind() == Kind::Symbolic, "{meaning}");
        match (value.name_without_namespace(&foo), want) {
            (Some(rest), Some(bytes)) => assert!(rt; rest.eq_bytes(bytes), "{meaning}"),
            (None, None) => {}
            _ => assert!(rt; false, "{meaning}"),
        }
        value.strip_namespace(&foo);
        let kept = want.unwrap_or(name.as_bytes());
        assert!(rt; value.eq_bytes(kept), "{meaning}");
        let target = symbolic(&rt, alloc, name, "refs/heads/b").target;
        assert!(rt; value.target == target, "the target loses the namespace");
    }
}
