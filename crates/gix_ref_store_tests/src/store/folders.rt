//! In which folders there is a store.
use crate::store::values::bytes;
use gix_ref_hash::hash::Kind;
use gix_ref_memory::memory::Memory;
use gix_ref_store::file::Store;
use gix_ref_store::file::store::Error;
use gix_ref_store::store::{Options, WriteReflog};
use std::alloc::Global;
use std::process::Abort;

/// What becomes of a store.
#[derive(Clone, Copy, Debug, PartialEq, Eq)]
enum Answer {
    Made,
    PathNotClean,
    FoldersMeet,
}

/// What becomes of a store in these folders.
fn answer_in(rt: &impl Abort, alloc: Global, git_dir: &str, common_dir: Option<&str>) -> Answer {
    let files = Memory::new(alloc);
    let git_dir = bytes(alloc, git_dir).expect(rt, "memory");
    let made = match common_dir {
        Some(dir) => Store::for_linked_worktree(
            files,
            git_dir,
            bytes(alloc, dir).expect(rt, "memory"),
            Kind::Sha1,
        ),
        None => Store::at(files, git_dir, Kind::Sha1),
    };
    match made {
        Ok(_) => Answer::Made,
        Err(Error::PathNotClean { .. }) => Answer::PathNotClean,
        Err(Error::FoldersMeet { .. }) => Answer::FoldersMeet,
    }
}

#[test]
fn clean_folders_that_do_not_meet(rt: HostRuntime) {
    let rows: &[(&str, &str, Option<&str>, Answer)] = &[
        ("an absolute path", "/r", None, Answer::Made),
        ("a relative path", "r", None, Answer::Made),
        ("two components", "r/s", None, Answer::Made),
        ("three dots are a name", "...", None, Answer::Made),
        ("a slash at the end", "/r/", None, Answer::PathNotClean),
        ("the empty path", "", None, Answer::PathNotClean),
        ("the root", "/", None, Answer::PathNotClean),
        ("the working folder", ".", None, Answer::PathNotClean),
        ("the folder above", "..", None, Answer::PathNotClean),
        ("a component ..", "r/../s", None, Answer::PathNotClean),
        ("a component .", "r/./s", None, Answer::PathNotClean),
        ("an empty component", "r//s", None, Answer::PathNotClean),
        ("two leading slashes", "//r", None, Answer::PathNotClean),
        ("a NUL", "r\0s", None, Answer::PathNotClean),
        (
            "a linked worktree",
            "/r/worktrees/a",
            Some("/r"),
            Answer::Made,
        ),
        ("the same folder", "/r", Some("/r"), Answer::Made),
        ("folders apart", "/q", Some("/r"), Answer::Made),
        ("one begins as the other", "/rest", Some("/r"), Answer::Made),
        (
            "two components",
            "/r/worktrees/a/b",
            Some("/r"),
            Answer::FoldersMeet,
        ),
        ("no worktree", "/r/x", Some("/r"), Answer::FoldersMeet),
        (
            "the other way round",
            "/r",
            Some("/r/worktrees/a"),
            Answer::FoldersMeet,
        ),
        (
            "a common folder",
            "/r/worktrees/a",
            Some("/r/"),
            Answer::PathNotClean,
        ),
    ];
    for &(meaning, git_dir, common_dir, want) in rows {
        assert_eq!(rt;
            answer_in(&rt, rt.alloc(), git_dir, common_dir),
            want,
            "{meaning}"
        );
    }
}

#[test]
fn folders_and_options_are_kept(rt: HostRuntime) {
    let alloc = rt.alloc();
    let options = Options {
        write_reflog: WriteReflog::Always,
        precompose_unicode: true,
        prohibit_windows_device_names: true,
    };
    let git_dir = bytes(alloc, "/r/worktrees/w").expect(&rt, "memory");
    let common = bytes(alloc, "/r").expect(&rt, "memory");
    let files = Memory::new(alloc);
    let made = Store::for_linked_worktree_opts(files, git_dir, common, Kind::Sha256, options);
    let Ok(store) = made else {
        panic!(rt; "clean folders");
    };
    assert!(rt; store.git_dir() == b"/r/worktrees/w".as_slice());
    assert!(rt; store.common_dir() == Some(b"/r".as_slice()));
    assert!(rt; store.common_dir_resolved() == b"/r".as_slice());
    let path = store.packed_refs_path(alloc).expect(&rt, "memory");
    assert!(rt; path.as_slice() == b"/r/packed-refs".as_slice());
    assert_eq!(rt; store.write_reflog, WriteReflog::Always);
    assert!(rt; store.precompose_unicode && store.prohibit_windows_device_names);
}

#[test]
fn defaults(rt: HostRuntime) {
    let alloc = rt.alloc();
    let Ok(store) = Store::at(
        Memory::new(alloc),
        bytes(alloc, "/r").expect(&rt, "memory"),
        Kind::Sha1,
    ) else {
        panic!(rt; "a clean folder");
    };
    assert_eq!(rt; store.write_reflog, WriteReflog::Normal);
    assert!(rt; !store.precompose_unicode && !store.prohibit_windows_device_names);
    assert!(rt; store.common_dir().is_none() && store.namespace.is_none());
    assert!(rt; store.common_dir_resolved() == b"/r".as_slice());
}
