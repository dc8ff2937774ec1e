//! Peeling ids by a finder of any type, a boxed one too.
use gix_ref_hash::hash::{self, ObjectId};
use gix_ref_object::object::{Data, Find, FindError, Kind, Never};
use gix_ref_object::peel::{PeelError, peel_to_end};
use std::test::Fail;

/// A tag under the null id, which names itself, and a commit under any other id.
#[derive(Drop)]
struct Ring;

impl Find for Ring {
    ghost use Rattle.gix_ref_object.specs.Objects.Stored.{Absent};

    ghost meaning = { λ _ id. Absent };

    ghost claims = { λ _. ⊥ };

    fn try_find<'b>(
        &self,
        id: &ObjectId,
        buf: &'b mut Vec<u8>,
    ) -> Result<Option<Data<'b>>, FindError> {
        buf.clear();
        if buf
            .extend_from_slice(b"object 0000000000000000000000000000000000000000\ntype tag\n")
            .is_err()
        {
            return Err(FindError::Memory);
        }
        Ok(Some(Data {
            kind: if id.is_null() {
                Kind::Tag
            } else {
                Kind::Commit
            },
            bytes: buf.as_slice(),
            object_hash: id.kind(),
        }))
    }
}

#[test]
fn peels_by_any_finder(rt: HostRuntime) -> Result<(), Fail> {
    let alloc = rt.alloc();
    let null = ObjectId::null(hash::Kind::Sha1);
    let other = ObjectId::Sha1([7; 20]);
    assert_eq!(rt;
        peel_to_end(alloc, &Never, null),
        Err(PeelError::NotFound { oid: null })
    );
    assert_eq!(rt;
        peel_to_end(alloc, &Ring, null),
        Err(PeelError::TagChainTooLong)
    );
    let boxed: Box<dyn Find> = Box::new(alloc, Ring)?;
    assert_eq!(rt; peel_to_end(alloc, &boxed, other), Ok(other));
    Ok(())
}
