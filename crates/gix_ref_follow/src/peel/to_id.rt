//! Why a reference is not peeled to an object that is no tag.
use crate::peel::to_object;
use gix_ref_hash::hash::ObjectId;
use gix_ref_name::name::FullName;
use std::alloc::AllocError;
use thiserror::Error;

/// The errors of following a reference to an object and peeling its tags.
#[derive(Debug, Drop, Error)]
pub enum Error {
    /// The reference was not followed to an object.
    #[error("the reference could not be followed to an object: {0}")]
    FollowToObject(to_object::Error),
    /// An object could not be read.
    #[error("an object could not be read")]
    Find,
    /// There is no object of this id, or it is a tag whose first line names no object. The name is that of the reference that
    /// leads there.
    #[error("there is no object {oid}, to which {name} leads, or it is a tag that names no object")]
    NotFound { oid: ObjectId, name: FullName },
    /// There are more than 1,000 tags in a row.
    #[error("there are more than 1000 tags in a row")]
    TagChainTooLong,
    /// There was no memory for an object or a name.
    #[error("out of memory")]
    Memory,
}

impl From<AllocError> for Error {
    ghost use Rattle.std.specs.Prelude.{◌≡◌};
    ghost use Rattle.gix_ref_follow.specs.declared.peel.to_id.Error.TheVariants.{Memory};

    ghost from_gives = { λ _ e. e ≡ Memory };

    fn from(_error: AllocError) -> Error {
        Error::Memory
    }
}

impl From<to_object::Error> for Error {
    ghost use Rattle.std.specs.Prelude.{◌≡◌};
    ghost use Rattle.gix_ref_follow.specs.declared.peel.to_id.Error.TheVariants.{FollowToObject};

    ghost from_gives = { λ error e. e ≡ FollowToObject error };

    fn from(error: to_object::Error) -> Error {
        Error::FollowToObject(error)
    }
}
