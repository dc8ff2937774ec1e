//! What a walk found.

use gix_ref_files::files::FileError;
use gix_ref_name::name::FullName;
use std::collections::BTreeMap;

/// What a walk found under a key.
#[derive(Debug, Drop)]
pub enum Found {
    /// The file of a name, at this path. The key is the bytes of the name.
    File { name: FullName, path: Vec<u8> },
    /// The folder at this path, which could not be listed. The key is the front, with its last slash, that the names below the
    /// folder have.
    Unlisted { path: Vec<u8>, source: FileError },
}

/// What a walk found, by ascending keys.
pub type FoundByKey = BTreeMap<Vec<u8>, Found>;
