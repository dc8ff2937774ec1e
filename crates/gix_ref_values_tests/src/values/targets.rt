//! Targets of references.
use crate::made::{copy, full, id};
use crate::values::made::{full_name, shown};
use gix_ref_hash::hash::ObjectId;
use gix_ref_target::target::{Target, TargetRef};

const ONES: &str = "1111111111111111111111111111111111111111";

#[test]
fn objects(rt: HostRuntime) {
    let id = id(&rt, ONES.as_bytes());
    let target = Target::from(id);
    assert!(rt; copy(&rt, &target) == target, "a copy");
    assert_eq!(rt;
        shown(&rt, rt.alloc(), &target).as_str(),
        ONES,
        "its digits"
    );
    let owned = target.to_ref().into_owned(rt.alloc());
    assert!(rt; owned.as_ref() == Ok(&target), "owned again");
    assert!(rt; ObjectId::try_from(target) == Ok(id), "its id");
}

#[test]
fn names(rt: HostRuntime) {
    let main = TargetRef::Symbolic(full(&rt, "refs/heads/main"));
    let target = Target::from(full_name(&rt, rt.alloc(), "refs/heads/main"));
    assert!(rt; copy(&rt, &target) == target, "a copy");
    let text = shown(&rt, rt.alloc(), &target);
    assert_eq!(rt; text.as_str(), "ref: refs/heads/main", "as in a file");
    let owned = main.into_owned(rt.alloc());
    assert!(rt; owned.as_ref() == Ok(&target), "owned again");
    let back = target.try_into_id().err();
    assert!(rt; back.is_some_and(|back| back.eq_ref(main)), "it has no id");
}
