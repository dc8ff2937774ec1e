//! The reflogs of references.
use crate::follow::made::{found, store};
use crate::texts::LINE;
use gix_ref_follow::{LooseReferenceExt, ReferenceExt};
use gix_ref_memory::memory::Memory;
use gix_ref_store::file::{Store, loose};
use gix_ref_store::raw::Reference;
use std::alloc::Global;

/// Whether the log of a reference is read forward.
fn is_forward(alloc: Global, store: &mut Store<Memory>, reference: &Reference) -> bool {
    let mut platform = ReferenceExt::log_iter(reference, alloc, store);
    let lines = platform.all(alloc);
    matches!(&lines, Ok(Some(_)))
}

/// Whether it is read backward.
fn is_backward(alloc: Global, store: &mut Store<Memory>, reference: &Reference) -> bool {
    let mut platform = ReferenceExt::log_iter(reference, alloc, store);
    let lines = platform.rev(alloc);
    matches!(&lines, Ok(Some(_)))
}

/// Whether the log of a loose reference is read forward.
fn is_loose_forward(
    alloc: Global,
    store: &mut Store<Memory>,
    reference: &loose::Reference,
) -> bool {
    let mut buf = Vec::new(alloc);
    let lines = LooseReferenceExt::log_iter(reference, alloc, store, &mut buf);
    matches!(&lines, Ok(Some(_)))
}

/// Whether it is read backward.
fn is_loose_backward(
    alloc: Global,
    store: &mut Store<Memory>,
    reference: &loose::Reference,
) -> bool {
    let mut buf = [0; 4096];
    let lines = reference.log_iter_rev(alloc, store, &mut buf);
    matches!(&lines, Ok(Some(_)))
}

#[test]
fn logs(rt: HostRuntime) {
    let alloc = rt.alloc();
    let id = "1111111111111111111111111111111111111111\n";
    let texts = [
        ("/r/refs/heads/a", id),
        ("/r/refs/heads/b", id),
        ("/r/logs/refs/heads/a", LINE),
    ];
    for (name, want) in [("a", true), ("b", false)] {
        let mut store = store(&rt, alloc, &texts);
        let reference = found(&rt, alloc, &mut store, name);
        let exists = ReferenceExt::log_exists(&reference, alloc, &mut store);
        assert_eq!(rt; exists.unwrap_or(!want), want, "{name} has a log");
        assert_eq!(rt; is_forward(alloc, &mut store, &reference), want, "{name}");
        assert_eq!(rt; is_backward(alloc, &mut store, &reference), want, "{name}");
        let reference = loose::Reference::from(reference);
        let exists = LooseReferenceExt::log_exists(&reference, alloc, &mut store);
        assert_eq!(rt; exists.unwrap_or(!want), want, "{name} has a log");
        assert_eq!(rt;
            is_loose_forward(alloc, &mut store, &reference),
            want,
            "{name}"
        );
        assert_eq!(rt;
            is_loose_backward(alloc, &mut store, &reference),
            want,
            "{name}"
        );
    }
}
