//! Values for tests of packed references.
use gix_ref_hash::hash::Kind;
use gix_ref_memory::memory::Memory;
use gix_ref_packed::packed::Buffer;
use std::alloc::Global;
use std::process::Abort;

/// Two branches and tags, one of them with a peeled line: 207 bytes.
pub const TEXT: &[u8] = b"1111111111111111111111111111111111111111 refs/heads/main\n\
2222222222222222222222222222222222222222 refs/tags/v1\n\
^3333333333333333333333333333333333333333\n\
4444444444444444444444444444444444444444 refs/tags/v2\n";

/// The same with CRLF.
pub const CRLF: &[u8] = b"1111111111111111111111111111111111111111 refs/heads/main\r\n\
2222222222222222222222222222222222222222 refs/tags/v1\r\n\
^3333333333333333333333333333333333333333\r\n\
4444444444444444444444444444444444444444 refs/tags/v2\r\n";

/// The names in them.
pub const NAMES: &[&str] = &["refs/heads/main", "refs/tags/v1", "refs/tags/v2"];

/// The header that says sorted.
pub const SORTED: &[u8] = b"# pack-refs with: peeled fully-peeled sorted \n";

pub fn copied(rt: &impl Abort, alloc: Global, text: &[u8]) -> Vec<u8> {
    text.to_vec(alloc).expect(rt, "memory")
}

/// The text after the header that says sorted.
pub fn sorted(rt: &impl Abort, alloc: Global, text: &[u8]) -> Vec<u8> {
    let mut whole = copied(rt, alloc, SORTED);
    whole.extend_from_slice(text).expect(rt, "memory");
    whole
}

pub fn buffer(rt: &impl Abort, alloc: Global, text: &[u8]) -> Buffer {
    Buffer::from_bytes(alloc, copied(rt, alloc, text), Kind::Sha1).expect(rt, "a buffer")
}

/// Files with one `packed-refs` in them, below the folder `r`.
pub fn stored(rt: &impl Abort, alloc: Global, text: &[u8]) -> Memory {
    let mut memory = Memory::new(alloc);
    let done = memory.put(b"r/packed-refs", text).expect(rt, "memory");
    assert!(rt; done, "it is put");
    memory
}
