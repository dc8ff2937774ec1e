//! Why a reference is not followed to an object, and why the tags of that object are not peeled.
pub mod to_id;
pub mod to_object;
