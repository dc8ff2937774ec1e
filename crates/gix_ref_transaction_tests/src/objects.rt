//! The objects of a repository: a tag, to whose id there are forty digits `a`, of the object of forty digits 3; the null id has none, and each
//! other id is that of a commit.
use gix_ref_hash::hash::ObjectId;
use gix_ref_object::object::{Data, Find, FindError, Kind};

/// A finder of these objects.
#[derive(Debug, Drop)]
pub struct Objects;

impl Find for Objects {
    ghost use Rattle.gix_ref_object.specs.Objects.Stored.{Absent};

    ghost meaning = { λ _ id. Absent };

    ghost claims = { λ _. ⊥ };

    fn try_find<'b>(
        &self,
        id: &ObjectId,
        _buf: &'b mut Vec<u8>,
    ) -> Result<Option<Data<'b>>, FindError> {
        let (kind, bytes): (Kind, &[u8]) = match id.as_bytes().first() {
            Some(0) => return Ok(None),
            Some(0xaa) => (
                Kind::Tag,
                b"object 3333333333333333333333333333333333333333\n",
            ),
            _ => (Kind::Commit, b""),
        };
        Ok(Some(Data {
            kind,
            bytes,
            object_hash: id.kind(),
        }))
    }
}
