//! `pack-refs [--all] [--no-prune|--prune] [--peeled FILE]`: packs loose references.

use bstr::ByteSlice;
use gix_ref_files::files::{FileError, Files, Node};
use gix_ref_pack::objects::{Objects, TableError};
use gix_ref_pack::pack::{Packed, pack_refs};
use gix_ref_pack::words::Asked;
use gix_ref_queries::answer::Answer;
use gix_ref_store::file::Store;
use std::alloc::{AllocError, Global};

/// An error in Git's form.
fn fatal(alloc: Global, message: String) -> Result<Answer, AllocError> {
    Ok(Answer {
        text: Vec::new(alloc),
        errors: format!(in alloc; "fatal: {message}\n")?.into_bytes(),
        status: 128,
    })
}

/// The objects of the table that is asked for; or why it is not read.
pub fn read_objects<F: Files>(
    alloc: Global,
    files: &mut F,
    asked: &Asked<'_>,
) -> Result<Result<Objects, Answer>, AllocError> {
    let Some(path) = asked.peeled else {
        return Ok(Ok(Objects::new(alloc)));
    };
    let mut text = Vec::new(alloc);
    match files.read(alloc, path, &mut text) {
        Ok(Node::File) => {}
        Err(FileError::Memory) => return Err(AllocError),
        _ => {
            let message = format!(in alloc; "cannot read '{}'", path.as_bstr())?;
            return Ok(Err(fatal(alloc, message)?));
        }
    }
    match Objects::read(alloc, &text) {
        Ok(objects) => Ok(Ok(objects)),
        Err(TableError::Memory) => Err(AllocError),
        Err(TableError::Line(number)) => {
            let message = format!(in alloc; "line {number} of '{}' is no object", path.as_bstr())?;
            Ok(Err(fatal(alloc, message)?))
        }
    }
}

/// The answer for what became of a packing.
fn answer_of(alloc: Global, packed: Packed) -> Result<Answer, AllocError> {
    let Packed {
        result,
        broken,
        locks_left,
    } = packed;
    let mut errors = String::new(alloc);
    for fault in &broken {
        errors.push_str(&format!(in alloc; "error: {fault}\n")?)?;
    }
    let mut status = 0;
    if let Err(error) = &result {
        status = 128;
        errors.push_str(&format!(in alloc; "fatal: {error}\n")?)?;
    }
    for path in &locks_left {
        errors.push_str(&format!(in alloc; "lock left: {}\n", path.as_slice().as_bstr())?)?;
    }
    Ok(Answer {
        text: Vec::new(alloc),
        errors: errors.into_bytes(),
        status,
    })
}

/// Packs what is asked for: nothing is printed but errors. A line `error: REASON` for each broken reference, which stays loose; and
/// `fatal: REASON` with status 128 where it was not done, with a line `lock left: PATH` for each lock that could not be removed.
pub fn pack<F: Files>(
    alloc: Global,
    store: &mut Store<F>,
    asked: &Asked<'_>,
    objects: Objects,
) -> Result<Answer, AllocError> {
    let packed = pack_refs(alloc, store, asked.is_all, asked.prune, objects);
    answer_of(alloc, packed)
}
