//! Peeling references.
use crate::follow::made::{found, is_at, numbered, store};
use crate::follow::objects::{Changing, Last, Tags, number_of};
use gix_ref_follow::ReferenceExt;
use gix_ref_follow::peel::to_id;
use gix_ref_hash::hash::ObjectId;
use gix_ref_object::object::Never;
use gix_ref_target::target::Target;
use std::cell::Cell;

/// A loose text with the id of the number 0.
const FIRST: &str = "0000000000000000000000000000000000000000\n";

/// What a peeling returns.
#[derive(Clone, Copy, Debug, PartialEq, Eq)]
enum Answer {
    /// The id of this number.
    Object(u16),
    /// There is no object of this number.
    NotFound(u16),
    TooLong,
    Find,
    Memory,
    Other,
}

fn answer_of(peeled: &Result<ObjectId, to_id::Error>, name: &str) -> Answer {
    match peeled {
        Ok(id) => Answer::Object(number_of(id)),
        Err(to_id::Error::NotFound { oid, name: of }) if of.eq_bytes(name.as_bytes()) => {
            Answer::NotFound(number_of(oid))
        }
        Err(to_id::Error::TagChainTooLong) => Answer::TooLong,
        Err(to_id::Error::Find) => Answer::Find,
        Err(to_id::Error::Memory) => Answer::Memory,
        Err(_) => Answer::Other,
    }
}

#[test]
fn tags(rt: HostRuntime) {
    let alloc = rt.alloc();
    let rows: &[(&str, u16, Last, Answer)] = &[
        ("a commit", 0, Last::Commit, Answer::Object(0)),
        ("one tag", 1, Last::Commit, Answer::Object(1)),
        ("1,000 tags", 1000, Last::Commit, Answer::Object(1000)),
        ("1,001 tags", 1001, Last::Commit, Answer::TooLong),
        ("a tag of itself", 2, Last::Itself, Answer::TooLong),
        ("another first line", 3, Last::BadTag, Answer::NotFound(3)),
        ("a missing object", 4, Last::Missing, Answer::NotFound(4)),
        ("one that cannot be read", 5, Last::Failed, Answer::Find),
        ("no memory for one", 6, Last::NoMemory, Answer::Memory),
    ];
    let texts = [
        ("/r/HEAD", "ref: refs/heads/a\n"),
        ("/r/refs/heads/a", FIRST),
    ];
    for &(meaning, count, last, want) in rows {
        let objects = Tags { alloc, count, last };
        let mut store = store(&rt, alloc, &texts);
        let mut head = found(&rt, alloc, &mut store, "HEAD");
        let peeled = head.peel_to_id(alloc, &mut store, &objects);
        assert_eq!(rt; answer_of(&peeled, "refs/heads/a"), want, "{meaning}");
        assert!(rt; is_at(&head, "refs/heads/a"), "{meaning}: the branch");
        let end = peeled.unwrap_or(numbered(0));
        assert!(rt; head.target == Target::Object(end), "{meaning}: the target");
        let mut again = found(&rt, alloc, &mut store, "HEAD");
        let peeled = again.peel_to_id_in_place(alloc, &mut store, &objects);
        assert_eq!(rt;
            answer_of(&peeled, "refs/heads/a"),
            want,
            "{meaning}, in place"
        );
        let mut packed = found(&rt, alloc, &mut store, "HEAD");
        let peeled = packed.peel_to_id_packed(alloc, &mut store, &objects, None);
        assert_eq!(rt;
            answer_of(&peeled, "refs/heads/a"),
            want,
            "{meaning}, packed"
        );
        let mut packed = found(&rt, alloc, &mut store, "HEAD");
        let peeled = packed.peel_to_id_in_place_packed(alloc, &mut store, &objects, None);
        assert_eq!(rt;
            answer_of(&peeled, "refs/heads/a"),
            want,
            "{meaning}, packed in place"
        );
    }
}

/// The peeled id of a record is returned, and no object is looked for.
#[test]
fn at_once(rt: HostRuntime) {
    let alloc = rt.alloc();
    let record =
        "# pack-refs with: peeled fully-peeled sorted \n1111111111111111111111111111111111111111 refs/tags/v\n^2222222222222222222222222222222222222222\n";
    let texts = [
        ("/r/packed-refs", record),
        ("/r/HEAD", "ref: refs/tags/v\n"),
    ];
    let mut store = store(&rt, alloc, &texts);
    let two = ObjectId::Sha1([0x22; 20]);
    let mut tag = found(&rt, alloc, &mut store, "v");
    let peeled = tag.peel_to_id(alloc, &mut store, &Never);
    assert_eq!(rt;
        answer_of(&peeled, ""),
        Answer::Object(0x2222),
        "the id of the record"
    );
    assert!(rt; tag.target == Target::Object(two), "and the target");

    // Behind a symbolic reference the tag itself is peeled, as the object that it points to.
    let mut head = found(&rt, alloc, &mut store, "HEAD");
    let peeled = head.peel_to_id(alloc, &mut store, &Never);
    assert_eq!(rt;
        answer_of(&peeled, "refs/tags/v"),
        Answer::NotFound(0x1111),
        "HEAD"
    );
}

/// A finder that reports something else at each call: each call returns, and a refused one leaves the branch as it is.
#[test]
fn changing_finder(rt: HostRuntime) {
    let alloc = rt.alloc();
    let texts = [
        ("/r/HEAD", "ref: refs/heads/a\n"),
        ("/r/refs/heads/a", FIRST),
    ];
    let mut store = store(&rt, alloc, &texts);
    let objects = Changing {
        alloc,
        calls: Cell::new(0),
    };
    for want in [
        Answer::NotFound(0),
        Answer::NotFound(0),
        Answer::Find,
        Answer::NotFound(0),
    ] {
        let mut head = found(&rt, alloc, &mut store, "HEAD");
        let peeled = head.peel_to_id(alloc, &mut store, &objects);
        assert_eq!(rt; answer_of(&peeled, "refs/heads/a"), want);
        assert!(rt; head.target == Target::Object(numbered(0)), "as followed");
        assert!(rt; head.peeled.is_none(), "not peeled");
    }
}
