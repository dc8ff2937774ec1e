//! Rows of `list`: the files, the words, what is printed, and the status.
use crate::program::ran::Full;
use crate::texts::{ONE, TWO};
use gix_ref_files::files::Files;
use gix_ref_memory::memory::Memory;
use gix_ref_program::run::run;
use gix_ref_store::file::transaction::PackedRefs;
use std::alloc::Global;
use std::io;
use std::process::Abort;

/// A file and its text.
pub type File = (&'static str, &'static str);

/// Loose files, a lock, and records, of which one is hidden by a loose file.
pub const FILES: &[File] = &[
    ("r/HEAD", "ref: refs/heads/a/b\n"),
    ("r/config", "[core]\n"),
    ("r/refs/heads/a-b", ONE),
    ("r/refs/heads/a.b", "ref: refs/heads/a0\n"),
    ("r/refs/heads/a/b", ONE),
    ("r/refs/heads/a0", "xyz"),
    ("r/refs/heads/a0.lock", ""),
    (
        "r/packed-refs",
        "# pack-refs with: peeled fully-peeled sorted \n2222222222222222222222222222222222222222 refs/heads/a/b\n2222222222222222222222222222222222222222 refs/heads/z\n2222222222222222222222222222222222222222 refs/tags/v\n^1111111111111111111111111111111111111111\n",
    ),
];

pub const WHOLE: &str =
    "1111111111111111111111111111111111111111 refs/heads/a-b\nref: refs/heads/a0 refs/heads/a.b\n1111111111111111111111111111111111111111 refs/heads/a/b\nfault: ReferenceCreation\n2222222222222222222222222222222222222222 refs/heads/z\n2222222222222222222222222222222222222222 refs/tags/v\n";

/// Puts the files.
fn put(rt: &impl Abort, memory: &mut Memory, files: &[File]) {
    for (path, text) in files {
        let done = memory.put(path.as_bytes(), text.as_bytes());
        assert!(rt; done.expect(rt, "memory"), "{path}");
    }
}

/// Files in memory.
pub fn memory_of(rt: &impl Abort, alloc: Global, files: &[File]) -> Memory {
    let mut memory = Memory::new(alloc);
    put(rt, &mut memory, files);
    memory
}

#[test]
fn a_writer_that_fails(rt: HostRuntime) {
    let alloc = rt.alloc();
    let mut memory = memory_of(&rt, alloc, FILES);
    // A line of each has 253 bytes, and a block some 260 lines.
    for number in 0..600u32 {
        let path = format!(in alloc; "r/refs/heads/{number:0200}").expect(&rt, "memory");
        let done = memory.put(path.as_bytes(), TWO.as_bytes());
        assert!(&rt; done.expect(&rt, "memory"), "{path}");
    }
    let calls = memory.calls();
    let mut words = Vec::new(alloc);
    for word in ["r", "list"] {
        let word = String::from_str(alloc, word).expect(&rt, "memory");
        words.push(word).expect(&rt, "memory");
    }
    let mut out = Full {
        room: 70_000,
        kept: 0,
    };
    let ran = run(alloc, memory, PackedRefs::default(), &words, &mut out);
    match ran.status {
        Ok(_) => panic!(&rt; "the writer failed"),
        Err(error) => assert_eq!(&rt; error.kind(), io::ErrorKind::StorageFull),
    }
    let mut memory = ran.files;
    // The second block fails, so the files of the third are not read.
    assert!(&rt;
        out.kept > 65_000 && memory.calls() < calls.saturating_add(580),
        "it ends there"
    );
    assert!(&rt;
        memory.remove_file(b"r/refs/heads/a0.lock") == Ok(true),
        "nothing else is changed"
    );
}
