//! Whole transactions over the disk, in a folder that the test fills, reads and removes by `std::fs` itself: each file is then as the
//! row says, there is no other, and so it is in memory.
use crate::made::{Edit, Expect, To, Who, given, signature};
use crate::random::uses;
use crate::stores::Puts;
use gix_ref_files::disk::Disk;
use gix_ref_files::files::Files;
use gix_ref_hash::hash::Kind;
use gix_ref_memory::memory::Memory;
use gix_ref_store::file::Store;
use gix_ref_store::store::WriteReflog;
use std::alloc::Global;
use std::fs;
use std::process::Abort;
use std::test::Fail;

/// Files before, a folder that is there too, edits, and the files afterwards, each a path and its text.
struct Row {
    before: &'static [(&'static str, &'static str)],
    folder: &'static str,
    puts: Puts,
    mode: WriteReflog,
    edits: &'static [(&'static str, Option<char>, bool)],
    after: &'static [(&'static str, &'static str)],
    meaning: &'static str,
}

const MAIN: &str = "ref: refs/heads/main\n";

/// Loose texts of two ids.
const ONE: &str = "1111111111111111111111111111111111111111\n";

const TWO: &str = "2222222222222222222222222222222222222222\n";

/// A line of a log.
const LINE: &str =
    "0000000000000000000000000000000000000000 1111111111111111111111111111111111111111 C <c@example.com> 1234 +0800\tm\n";

const ROWS: &[Row] = &[
    Row {
        before: &[],
        folder: "d",
        puts: Puts::Nothing,
        mode: WriteReflog::Disable,
        edits: &[("refs/heads/a", Some('1'), false)],
        after: &[("d/refs/heads/a", ONE)],
        meaning: "a first branch",
    },
    Row {
        before: &[("d/HEAD", MAIN)],
        folder: "d",
        puts: Puts::Nothing,
        mode: WriteReflog::Normal,
        edits: &[("HEAD", Some('1'), true)],
        after: &[
            ("d/HEAD", MAIN),
            ("d/logs/HEAD", LINE),
            ("d/logs/refs/heads/main", LINE),
            ("d/refs/heads/main", ONE),
        ],
        meaning: "HEAD leads to a branch that is not there yet",
    },
    Row {
        before: &[("d/HEAD", ONE)],
        folder: "d",
        puts: Puts::UpdatesAlone,
        mode: WriteReflog::Disable,
        edits: &[
            ("HEAD", Some('2'), false),
            ("refs/tags/v", Some('a'), false),
        ],
        after: &[
            ("d/HEAD", TWO),
            (
                "d/packed-refs",
                "# pack-refs with: peeled fully-peeled sorted \naaaaaaaaaaaaaaaaaaaaaaaaaaaaaaaaaaaaaaaa refs/tags/v\n^3333333333333333333333333333333333333333\n",
            ),
        ],
        meaning: "a tag that is packed alone",
    },
    Row {
        before: &[(
            "d/packed-refs",
            "# pack-refs with: peeled fully-peeled sorted \n1111111111111111111111111111111111111111 refs/heads/a\n",
        )],
        folder: "d/refs/heads/a",
        puts: Puts::Nothing,
        mode: WriteReflog::Normal,
        edits: &[("refs/heads/a", None, false)],
        after: &[],
        meaning: "the only record, with an empty folder in its place",
    },
];

/// Commits the edits of a row over these files.
fn commit<F: Files + Drop>(rt: &impl Abort, alloc: Global, files: F, row: &Row) -> F {
    let git = b"d".to_vec(alloc).expect(rt, "memory");
    let Ok(mut store) = Store::at(files, git, Kind::Sha1) else {
        panic!(rt; "a clean folder");
    };
    store.write_reflog = row.mode;
    let mut edits = Vec::new(alloc);
    for (name, digit, deref) in row.edits {
        let edit = Edit {
            name,
            new: digit.map(|digit| To::Object(digit)),
            expect: Expect::Any,
            is_of_log: false,
            is_forced: false,
            message: "m",
            deref: *deref,
            parent: None,
            found: None,
        };
        edits.push(edit).expect(rt, "memory");
    }
    let transaction = store.transaction().packed_refs(uses(row.puts));
    let Ok(prepared) = transaction.prepare(alloc, given(rt, alloc, &edits)) else {
        panic!(rt; "refused: {}", row.meaning);
    };
    let is_done = prepared.commit(alloc, signature(Who::C)).is_ok();
    assert!(rt; is_done, "{}", row.meaning);
    store.into_files()
}

/// The number of files below a folder of the disk.
fn count_files(rt: &HostRuntime, alloc: Global) -> Result<usize, Fail> {
    let mut folders = vec![in alloc; String::from_str(alloc, "d")?]?;
    let mut count = 0usize;
    for _ in 0..100u32 {
        let Some(folder) = folders.pop() else {
            return Ok(count);
        };
        for entry in fs::read_dir(rt, folder.as_str())? {
            let entry = entry?;
            if entry.file_type()?.is_dir() {
                let name = entry.file_name();
                folders.push(format!(in alloc; "{folder}/{name}")?)?;
            } else {
                count = count.saturating_add(1);
            }
        }
    }
    Ok(count)
}

#[test]
fn the_same_bytes_as_in_memory(rt: HostRuntime) -> Result<(), Fail> {
    let alloc = rt.alloc();
    for row in ROWS {
        let mut memory = Memory::new(alloc);
        fs::create_dir_all(&rt, row.folder)?;
        memory.make_folders(row.folder.as_bytes())?;
        for (path, text) in row.before {
            fs::write(&rt, path, text.as_bytes())?;
            memory.put(path.as_bytes(), text.as_bytes())?;
        }
        commit(&rt, alloc, Disk::new(rt.clone()?), row);
        let memory = commit(&rt, alloc, memory, row);
        let count = count_files(&rt, alloc)?;
        let mut is_same = count == row.after.len();
        for (path, text) in row.after {
            let read = fs::read(&rt, path)?;
            is_same = is_same && read.as_slice() == text.as_bytes();
            is_same = is_same && memory.get(path.as_bytes()) == Some(text.as_bytes());
        }
        fs::remove_dir_all(&rt, "d")?;
        assert!(rt; is_same, "{}", row.meaning);
    }
    Ok(())
}
