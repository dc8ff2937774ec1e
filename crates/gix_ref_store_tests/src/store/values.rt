//! Ids, names, files and stores. `None` is for a text that is not what it has to be, and for a want of memory.
use gix_ref_hash::hash::{Kind, ObjectId};
use gix_ref_memory::memory::Memory;
use gix_ref_name::name::{FullName, FullNameRef, PartialNameRef};
use gix_ref_name::namespace::expand;
use gix_ref_store::file::Store;
use gix_ref_target::target::Target;
use std::alloc::Global;

/// Ids of one digit.
#[derive(Clone, Copy, Debug, PartialEq, Eq)]
pub enum Id {
    /// Forty digits `1`.
    One,
    /// Forty digits `2`.
    Two,
    /// Sixty-four digits `3`.
    Long,
}

/// The hex digits of an id.
pub fn digits(id: Id) -> &'static str {
    match id {
        Id::One => "1111111111111111111111111111111111111111",
        Id::Two => "2222222222222222222222222222222222222222",
        Id::Long => "3333333333333333333333333333333333333333333333333333333333333333",
    }
}

/// The target of an id.
pub fn object(id: Id) -> Option<Target> {
    match ObjectId::from_hex(digits(id).as_bytes()) {
        Some(id) => Some(Target::Object(id)),
        None => None,
    }
}

pub fn partial(text: &str) -> Option<PartialNameRef<'_>> {
    PartialNameRef::try_from(text).ok()
}

pub fn full_name(alloc: Global, text: &str) -> Option<FullName> {
    FullNameRef::try_from(text).ok()?.to_owned(alloc).ok()
}

pub fn bytes(alloc: Global, text: &str) -> Option<Vec<u8>> {
    text.as_bytes().to_vec(alloc).ok()
}

/// Files in memory: one with this text at the path, or none where the path is empty.
pub fn files(alloc: Global, path: &str, text: &[u8]) -> Option<Memory> {
    let mut memory = Memory::new(alloc);
    if !path.is_empty() && !memory.put(path.as_bytes(), text).ok()? {
        return None;
    }
    Some(memory)
}

/// The store in `/r`, or in a linked worktree of it, in a namespace if there is one.
pub fn store(
    alloc: Global,
    files: Memory,
    worktree: &str,
    namespace: &str,
) -> Option<Store<Memory>> {
    let common = bytes(alloc, "/r")?;
    let made = if worktree.is_empty() {
        Store::at(files, common, Kind::Sha1)
    } else {
        Store::for_linked_worktree(files, bytes(alloc, worktree)?, common, Kind::Sha1)
    };
    let mut store = made.ok()?;
    if !namespace.is_empty() {
        store.namespace = Some(expand(alloc, partial(namespace)?).ok()?);
    }
    Some(store)
}
