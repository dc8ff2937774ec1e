//! Lookups among loose files alone and among the records of a buffer, and the buffer of `packed-refs`.
use crate::store::values::{Id, files, object, partial, store};
use gix_ref_files::files::FileError;
use gix_ref_hash::hash::Kind;
use gix_ref_memory::memory::Memory;
use gix_ref_packed::packed::Buffer;
use gix_ref_packed::packed::buffer::open;
use gix_ref_store::file::Store;
use gix_ref_store::file::find::existing;
use std::alloc::Global;
use std::io::ErrorKind;
use std::process::Abort;

/// A loose text.
const ID: &[u8] = b"1111111111111111111111111111111111111111\n";

/// A record of `refs/heads/p`.
const PACKED: &[u8] =
    b"# pack-refs with: peeled fully-peeled sorted \n1111111111111111111111111111111111111111 refs/heads/p\n";

/// A record of `refs/heads/q`.
const OTHER: &[u8] = b"1111111111111111111111111111111111111111 refs/heads/q\n";

/// A line that is no header.
const NO_HEADER: &[u8] = b"# foo\n";

/// A store with the loose file `refs/heads/l` and this `packed-refs`, or without one where the text is empty. The given call
/// of files fails.
fn store_with(rt: &impl Abort, alloc: Global, packed: &[u8], fails: u64) -> Store<Memory> {
    let mut memory = files(alloc, "/r/refs/heads/l", ID).expect(rt, "memory");
    if !packed.is_empty() {
        let done = memory.put(b"/r/packed-refs", packed).expect(rt, "memory");
        assert!(rt; done, "packed-refs");
    }
    memory.fail_at(fails);
    store(alloc, memory, "", "").expect(rt, "a store")
}

#[test]
fn among_the_records_of_a_buffer(rt: HostRuntime) {
    let alloc = rt.alloc();
    let text = OTHER.to_vec(alloc).expect(&rt, "memory");
    let buffer = Buffer::from_bytes(alloc, text, Kind::Sha1).expect(&rt, "a buffer");
    let mut store = store_with(&rt, alloc, PACKED, 100);
    for (name, is_held, found) in [
        ("q", true, "refs/heads/q"),
        ("l", true, "refs/heads/l"),
        ("p", true, ""),
        ("q", false, ""),
        ("l", false, "refs/heads/l"),
        ("p", false, ""),
    ] {
        let packed = if is_held { Some(&buffer) } else { None };
        match store.find_packed(alloc, partial(name).expect(&rt, "a partial name"), packed) {
            Ok(reference) => {
                assert!(rt;
                    reference.name.eq_bytes(found.as_bytes()),
                    "{name} is {found}"
                );
            }
            Err(existing::Error::NotFound { name: asked }) => {
                assert!(rt;
                    found.is_empty() && asked.eq_bytes(name.as_bytes()),
                    "{name}"
                );
            }
            Err(_) => panic!(rt; "{name}: no call fails"),
        }
    }
    match store.try_find_packed(
        alloc,
        partial("p").expect(&rt, "a partial name"),
        Some(&buffer),
    ) {
        Ok(found) => assert!(rt; found.is_none(), "a record of the file alone"),
        Err(_) => panic!(rt; "no call fails"),
    }
}

/// Whether there is a buffer.
fn is_some(opened: Result<Option<Buffer>, open::Error>) -> Result<bool, open::Error> {
    match opened {
        Ok(buffer) => Ok(buffer.is_some()),
        Err(error) => Err(error),
    }
}

#[test]
fn buffers(rt: HostRuntime) {
    let alloc = rt.alloc();
    let fault = open::Error::Io(FileError::Device(ErrorKind::Other));
    let rows: &[(&str, &[u8], u64, Result<bool, open::Error>)] = &[
        ("no file", b"", 100, Ok(false)),
        ("a file", PACKED, 100, Ok(true)),
        ("no header", NO_HEADER, 100, Err(open::Error::HeaderParsing)),
        ("a fault", PACKED, 1, Err(fault)),
    ];
    for &(meaning, packed, fails, want) in rows {
        let mut store = store_with(&rt, alloc, packed, fails);
        let opened = is_some(store.open_packed_buffer(alloc));
        assert_eq!(rt; opened, want, "{meaning}");
        let mut store = store_with(&rt, alloc, packed, fails);
        let cached = is_some(store.cached_packed_buffer(alloc));
        assert_eq!(rt; cached, want, "{meaning}: cached");
        let mut store = store_with(&rt, alloc, packed, fails);
        let refreshed = store.force_refresh_packed_buffer(alloc);
        assert_eq!(rt; refreshed.err(), want.err(), "{meaning}: refreshed");
    }
}

#[test]
fn a_buffer_of_the_store(rt: HostRuntime) {
    let alloc = rt.alloc();
    let mut store = store_with(&rt, alloc, PACKED, 100);
    let before = store.set_packed_buffer_mmap_threshold(1);
    let opened = store.open_packed_buffer(alloc).expect(&rt, "it is opened");
    let after = store.set_packed_buffer_mmap_threshold(before);
    assert!(rt; before == 32_768 && after == 1);
    match store.find_packed(
        alloc,
        partial("p").expect(&rt, "a partial name"),
        opened.as_ref(),
    ) {
        Ok(reference) => assert!(rt; reference.target == object(Id::One).expect(&rt, "an id")),
        Err(_) => panic!(rt; "the record is there"),
    }
}
