//! Files in memory: the table, and faults and stops at each call of a run, compared with a slow replay.

ghost use Rattle.std.specs.Prelude.{◌≡◌, IfOk};

use crate::files::table;
use crate::publish::{Place, publish_both};
use gix_ref_files::files::{Create, FileError, Files, Node, ReadAt};
use gix_ref_files::lock::{Acquire, Commit, Lock, Unspent};
use gix_ref_files::steps::{Action, Cause, Ended, Planned, Settle, run_steps};
use gix_ref_memory::memory::Memory;
use std::alloc::Global;
use std::io::ErrorKind;
use std::process::Abort;
use std::test::Fail;

const FAULT: FileError = FileError::Device(ErrorKind::Other);

#[test]
fn answers_as_the_table_says(rt: HostRuntime) -> Result<(), Fail> {
    let alloc = rt.alloc();
    let mut memory = Memory::new(alloc);
    assert!(rt; memory.put(b"t/full/x", b"")?, "it makes the folders");
    assert!(rt; memory.put(b"t/file", b"abc")?);
    assert!(rt; memory.make_folders(b"t/empty")?);
    table::look_at_all(&rt, alloc, &mut memory)?;
    assert_eq!(rt; memory.get(b"t/new"), Some(b"abcde".as_slice()));
    assert!(rt; !memory.put(b"t/a", b"")?, "onto a folder");
    assert!(rt; !memory.put(b"t/new/below", b"")?, "with a file in the way");
    assert!(rt; memory.get(b"t/a").is_none(), "a folder has no bytes");
    Ok(())
}

#[test]
fn an_absolute_path_needs_no_root(rt: HostRuntime) -> Result<(), Fail> {
    let mut memory = Memory::new(rt.alloc());
    assert!(rt; memory.make_folders(b"/r/refs/heads")?);
    assert_eq!(rt; memory.create_new(b"/r/refs/heads/a"), Ok(Create::Made));
    assert_eq!(rt; memory.kind(b"/r"), Ok(Node::Folder));
    Ok(())
}

/// Makes folders, a file in them, adds bytes and moves it: four calls.
fn run_four(memory: &mut Memory) -> Result<(), FileError> {
    memory.make_folders(b"r/a")?;
    memory.create_new(b"r/a/f")?;
    memory.append(b"r/a/f", b"abc")?;
    memory.rename(b"r/a/f", b"r/g")?;
    Ok(())
}

/// The tree after the first so many of these calls, and so many parts of the next.
fn replayed(alloc: Global, calls: u64, parts: usize) -> Result<Memory, Fail> {
    let mut memory = Memory::new(alloc);
    if calls > 0 {
        memory.make_folders(b"r/a")?;
    } else if parts == 1 {
        memory.make_folders(b"r")?;
    } else if parts > 1 {
        memory.make_folders(b"r/a")?;
    }
    if calls > 1 {
        memory.create_new(b"r/a/f")?;
    }
    if calls > 2 {
        memory.append(b"r/a/f", b"abc")?;
    } else if calls == 2 && parts < 3 {
        memory.append(b"r/a/f", &b"abc"[..parts])?;
    } else if calls == 2 {
        memory.append(b"r/a/f", b"abc")?;
    }
    if calls > 3 || calls == 3 && parts > 0 {
        memory.rename(b"r/a/f", b"r/g")?;
    }
    Ok(memory)
}

/// The two hold the same at each path of the run.
fn assert_same(rt: &impl Abort, memory: &mut Memory, other: &mut Memory) {
    assert_eq!(rt; memory.kind(b"r"), other.kind(b"r"));
    assert_eq!(rt; memory.kind(b"r/a"), other.kind(b"r/a"));
    assert_eq!(rt; memory.get(b"r/a/f"), other.get(b"r/a/f"));
    assert_eq!(rt; memory.get(b"r/g"), other.get(b"r/g"));
}

#[test]
fn stops_at_each_call(rt: HostRuntime) -> Result<(), Fail> {
    let alloc = rt.alloc();
    for k in 1..=4u64 {
        for n in 0..=4usize {
            let mut memory = Memory::new(alloc);
            memory.stop_at(k, n);
            assert_eq!(rt; run_four(&mut memory), Err(FAULT), "stopped at {k}");
            assert_eq!(rt; memory.calls(), k);
            assert_eq!(rt; memory.kind(b"r"), Err(FAULT), "and so is every later call");
            memory.restart();
            let parts = if k == 2 { 0 } else { n };
            let mut expected = replayed(alloc, k - 1, parts)?;
            assert_same(&rt, &mut memory, &mut expected);
            let mut text = Vec::new(alloc);
            memory.read(alloc, b"r", &mut text)?;
        }
    }
    Ok(())
}

#[test]
fn fails_at_each_call(rt: HostRuntime) -> Result<(), Fail> {
    let alloc = rt.alloc();
    for k in 1..=4u64 {
        let mut memory = Memory::new(alloc);
        memory.fail_at(k);
        assert_eq!(rt; run_four(&mut memory), Err(FAULT), "failed at {k}");
        let mut expected = replayed(alloc, k - 1, 0)?;
        assert_same(&rt, &mut memory, &mut expected);
    }
    Ok(())
}

#[test]
fn a_reader_counts_on(rt: HostRuntime) -> Result<(), Fail> {
    let alloc = rt.alloc();
    let mut memory = Memory::new(alloc);
    memory.put(b"f", b"abc")?;
    memory.fail_at(3);
    let reader = memory.open(alloc, b"f")?;
    let mut reader = reader.ok_or("no reader")?;
    let mut one = [0];
    memory.append(b"f", b"d")?;
    reader.read_exact_at(2, &mut one)?;
    assert_eq!(rt; one, [b'c'], "the first read is the second call");
    assert_eq!(rt; reader.len(), 3, "its bytes are a copy");
    assert_eq!(rt;
        reader.read_exact_at(0, &mut one),
        Err(FAULT),
        "the second is the third"
    );
    Ok(())
}

/// What became of a text that was to be published.
#[derive(Clone, Copy, Debug, PartialEq, Eq)]
enum Published {
    Moved,
    FolderStands,
    Standing,
    Blocked,
    Failed,
}

/// Removes a lock, or gives it up where that fails.
fn give_up(memory: &mut Memory, lock: Lock) {
    if let Err(Unspent { error: _, lock }) = lock.remove(memory) {
        let _path = lock.into_path();
    }
}

/// Renames a lock to its place.
fn commit(memory: &mut Memory, lock: Lock) -> Published {
    match lock.commit(memory) {
        Ok(Commit::Moved) => Published::Moved,
        Ok(Commit::FolderStands(lock)) => {
            give_up(memory, lock);
            Published::FolderStands
        }
        Err(Unspent { error: _, lock }) => {
            give_up(memory, lock);
            Published::Failed
        }
    }
}

/// Takes the lock of a path, writes a text to it and commits it.
fn publish(alloc: Global, memory: &mut Memory, path: &[u8], text: &[u8]) -> Published {
    match Lock::acquire(alloc, memory, path) {
        Err(_) => Published::Failed,
        Ok(Acquire::Standing) => Published::Standing,
        Ok(Acquire::Blocked) => Published::Blocked,
        Ok(Acquire::Held(lock)) => {
            if lock.write(memory, text) == Ok(true) {
                return commit(memory, lock);
            }
            give_up(memory, lock);
            Published::Failed
        }
    }
}

/// Where a text is to be published, and what becomes of it.
const PUBLISHED: &[(&[u8], Published, &str)] = &[
    (b"/r/refs/a", Published::Moved, "nothing is there"),
    (b"/r/refs", Published::FolderStands, "a folder is there"),
    (b"/r/refs/a/b", Published::Blocked, "a file is in the path"),
    (b"/r/refs/b", Published::Standing, "another holds the lock"),
];

#[test]
fn a_lock_is_renamed_to_its_place(rt: HostRuntime) -> Result<(), Fail> {
    let alloc = rt.alloc();
    let mut memory = Memory::new(alloc);
    memory.put(b"/r/refs/b.lock", b"")?;
    for &(path, want, what) in PUBLISHED {
        assert_eq!(rt; publish(alloc, &mut memory, path, b"1"), want, "{what}");
    }
    assert_eq!(rt; memory.get(b"/r/refs/a"), Some(b"1".as_slice()), "its text");
    assert_eq!(rt;
        memory.kind(b"/r/refs/a.lock"),
        Ok(Node::Nothing),
        "its lock"
    );
    Ok(())
}

#[test]
fn steps_run_to_the_first_that_fails(rt: HostRuntime) -> Result<(), Fail> {
    let alloc = rt.alloc();
    let mut memory = Memory::new(alloc);
    memory.put(b"f", b"a")?;
    let first = Action::Append {
        path: b"f",
        bytes: b"b",
    };
    let second = Action::RemoveFile { path: b"none" };
    let third = Action::Append {
        path: b"none",
        bytes: b"c",
    };
    let plan = [
        Planned {
            action: first,
            settle: Settle::Nothing,
            about: 1,
        },
        Planned {
            action: second,
            settle: Settle::Nothing,
            about: 2,
        },
        Planned {
            action: third,
            settle: Settle::Nothing,
            about: 3,
        },
        Planned {
            action: Action::End,
            settle: Settle::Nothing,
            about: 4,
        },
    ];
    let ended = run_steps(&mut memory, &plan);
    assert_eq!(rt;
        ended,
        Err(Ended {
            at: 2,
            cause: Cause::Unexpected
        })
    );
    assert_eq!(rt; memory.get(b"f"), Some(b"ab".as_slice()));
    let steps = plan.as_slice();
    assert_eq!(rt; run_steps(&mut memory, &steps[..2]), Ok(()));
    assert_eq!(rt;
        run_steps(&mut memory, &steps[3..]),
        Err(Ended {
            at: 0,
            cause: Cause::Asked
        })
    );
    memory.fail_at(2);
    assert_eq!(rt;
        run_steps(&mut memory, &plan),
        Err(Ended {
            at: 1,
            cause: Cause::File(FAULT)
        })
    );
    Ok(())
}

/// A step whose sync fails is done, and the run ends there.
#[test]
fn a_sync_that_fails_ends_a_run_behind_its_step(rt: HostRuntime) -> Result<(), Fail> {
    let mut memory = Memory::new(rt.alloc());
    let plan = [
        Planned {
            action: Action::MakeFolders { path: b"d" },
            settle: Settle::Nothing,
            about: (),
        },
        Planned {
            action: Action::Create { path: b"d/a" },
            settle: Settle::Nothing,
            about: (),
        },
        Planned {
            action: Action::Rename {
                from: b"d/a",
                to: b"d/b",
            },
            settle: Settle::UpTo { root: 1 },
            about: (),
        },
    ];
    memory.fail_at(4);
    assert_eq!(rt;
        run_steps(&mut memory, &plan),
        Err(Ended {
            at: 2,
            cause: Cause::Sync(FAULT)
        })
    );
    assert_eq!(rt; memory.get(b"d/b"), Some(b"".as_slice()));
    Ok(())
}

#[test]
fn a_missing_log_is_made_and_appended_to(rt: HostRuntime) -> Result<(), Fail> {
    let alloc = rt.alloc();
    let mut memory = Memory::new(alloc);
    let make = Action::Create { path: b"log" };
    let add = Action::Append {
        path: b"log",
        bytes: b"line",
    };
    let plan = [
        Planned {
            action: make,
            settle: Settle::Nothing,
            about: (),
        },
        Planned {
            action: add,
            settle: Settle::Nothing,
            about: (),
        },
    ];
    assert_eq!(rt; run_steps(&mut memory, &plan), Ok(()));
    assert_eq!(rt; memory.get(b"log"), Some(b"line".as_slice()));
    let cause = Cause::Unexpected;
    assert_eq!(rt; run_steps(&mut memory, &plan), Err(Ended { at: 0, cause }));
    Ok(())
}

/// A place and its lock.
fn place(alloc: Global, path: &[u8], lock: &[u8]) -> Result<Place, Fail>
    ensures { IfOk result (λ place. (place.path.items ≡ path.now) × (place.lock.items ≡ lock.now)) }
{
    let path = path.to_vec(alloc)?;
    let lock = lock.to_vec(alloc)?;
    Ok(Place { path, lock })
}

#[test]
fn two_files_are_published_in_order(rt: HostRuntime) -> Result<(), Fail> {
    let alloc = rt.alloc();
    let rows: &[(u64, usize, bool, bool)] = &[
        (1, 0, false, false),
        (1, 1, true, false),
        (2, 0, true, false),
        (2, 1, true, true),
        (3, 0, true, true),
    ];
    for &(k, n, first, second) in rows {
        let mut memory = Memory::new(alloc);
        memory.put(b"a.lock", b"1")?;
        memory.put(b"b.lock", b"2")?;
        memory.stop_at(k, n);
        let a = place(alloc, b"a", b"a.lock")?;
        let b = place(alloc, b"b", b"b.lock")?;
        let done = publish_both(&mut memory, a, b).is_ok();
        assert_eq!(rt; done, k == 3, "stopped at {k}");
        assert_eq!(rt;
            memory.get(b"a").is_some(),
            first,
            "the first, stopped at {k}"
        );
        assert_eq!(rt;
            memory.get(b"b").is_some(),
            second,
            "the second, stopped at {k}"
        );
    }
    Ok(())
}
