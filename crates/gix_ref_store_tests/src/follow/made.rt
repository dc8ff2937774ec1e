//! Values for tests. A text that is not what a test means it to be ends the test.
use gix_ref_hash::hash::{Kind, ObjectId};
use gix_ref_memory::memory::Memory;
use gix_ref_name::name::PartialNameRef;
use gix_ref_store::file::Store;
use gix_ref_store::raw::Reference;
use std::alloc::Global;
use std::process::Abort;

/// Files in memory, with these texts.
pub fn files(rt: &impl Abort, alloc: Global, texts: &[(&str, &str)]) -> Memory {
    let mut memory = Memory::new(alloc);
    for (path, text) in texts {
        let put = memory.put(path.as_bytes(), text.as_bytes());
        assert!(rt; put.expect(rt, "memory"), "{path}");
    }
    memory
}

/// The store in `/r`.
pub fn store(rt: &impl Abort, alloc: Global, texts: &[(&str, &str)]) -> Store<Memory> {
    let folder = b"/r".to_vec(alloc).expect(rt, "memory");
    match Store::at(files(rt, alloc, texts), folder, Kind::Sha1) {
        Ok(store) => store,
        Err(_) => panic!(rt; "a clean folder"),
    }
}

/// The reference of this name.
pub fn found(rt: &impl Abort, alloc: Global, store: &mut Store<Memory>, name: &str) -> Reference {
    let partial = PartialNameRef::try_from(name).expect(rt, "a partial name");
    match store.find(alloc, partial) {
        Ok(reference) => reference,
        Err(_) => panic!(rt; "{name} is there"),
    }
}

/// The id of this number.
pub fn numbered(number: u16) -> ObjectId {
    let [high, low] = number.to_be_bytes();
    let mut bytes = [0; 20];
    bytes[0] = high;
    bytes[1] = low;
    ObjectId::Sha1(bytes)
}

/// Whether the reference has this name.
pub fn is_at(reference: &Reference, name: &str) -> bool {
    reference.eq_bytes(name.as_bytes())
}
