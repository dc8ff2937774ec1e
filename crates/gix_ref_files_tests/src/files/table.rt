//! What each call returns on a file, on a folder, on nothing, and below a file. The caller has made, in the folder `t`:
//! the file `file` with the bytes `abc`, the folder `full` with the empty file `x`, and the folder `empty`.
//!
//! Each function makes one call, in a loop over its rows, and has no clause, so that its caller carries none of what the
//! calls ensure.

use gix_ref_files::files::{Create, FileError, Files, Node, ReadAt, Rename};
use std::alloc::Global;
use std::io::ErrorKind;
use std::process::Abort;
use std::test::Fail;

/// A path, what a call returns there, and what is there.
type Row<T> = (&'static [u8], T, &'static str);

const NO_FOLDER: FileError = FileError::Device(ErrorKind::NotFound);

const KINDS: &[Row<Node>] = &[
    (b"t/file", Node::File, "a file"),
    (b"t/full", Node::Folder, "a folder"),
    (b"t/none", Node::Nothing, "nothing"),
    (b"t/file/below", Node::Blocked, "below a file"),
];

fn see_kinds<F: Files>(rt: &impl Abort, files: &mut F, rows: &[Row<Node>]) {
    for (path, want, what) in rows {
        assert_eq!(rt; files.kind(path), Ok(*want), "{what}");
    }
}

/// The length of what is read at a path.
const READ: &[Row<usize>] = &[
    (b"t/file", 3, "a file's bytes"),
    (b"t/full", 0, "a folder"),
    (b"t/none", 0, "nothing"),
    (b"t/file/below", 0, "below a file"),
];

fn read_bytes<F: Files>(rt: &impl Abort, alloc: Global, files: &mut F) {
    let mut buf = b"old".to_vec(alloc).expect(rt, "memory");
    for &(path, len, what) in READ {
        assert!(rt; files.read(alloc, path, &mut buf).is_ok(), "{what}");
        assert!(rt; buf.as_slice() == &b"abc"[..len.min(3)], "{what}");
    }
}

fn read_at_places<F: Files>(rt: &impl Abort, alloc: Global, files: &mut F) -> Result<(), Fail> {
    let reader = files.open(alloc, b"t/file")?;
    let mut reader = reader.ok_or("no reader of a file")?;
    assert_eq!(rt; reader.len(), 3, "the length");
    let mut two = [0; 2];
    reader.read_exact_at(1, &mut two)?;
    assert_eq!(rt; two, [b'b', b'c'], "the bytes from 1 on");
    let past = reader.read_exact_at(2, &mut two);
    let end = FileError::Device(ErrorKind::UnexpectedEof);
    assert_eq!(rt; past, Err(end), "past the end");
    Ok(())
}

fn open_no_file<F: Files>(rt: &impl Abort, alloc: Global, files: &mut F) {
    for (path, _, what) in &KINDS[1..] {
        let reader = files.open(alloc, path).expect(rt, "an answer");
        assert!(rt; reader.is_none(), "{what}");
    }
}

/// The number of entries, if there is a folder.
const LISTED: &[Row<Option<usize>>] = &[
    (b"t", Some(3), "a folder of three"),
    (b"t/full", Some(1), "a folder of one"),
    (b"t/empty", Some(0), "an empty folder"),
    (b"t/file", None, "a file"),
    (b"t/none", None, "nothing"),
    (b"t/file/below", None, "below a file"),
];

fn list_folders<F: Files>(rt: &impl Abort, alloc: Global, files: &mut F) {
    for &(path, want, what) in LISTED {
        let listed = files.list(alloc, path).expect(rt, "an answer");
        assert_eq!(rt; listed.map(|entries| entries.len()), want, "{what}");
    }
}

/// The entries of `t` are its one file and its two folders.
fn list_names<F: Files>(rt: &impl Abort, alloc: Global, files: &mut F) {
    let entries = files.list(alloc, b"t").expect(rt, "an answer");
    for entry in entries.expect(rt, "a folder") {
        let is_file = entry.name.as_slice() == b"file".as_slice();
        assert_eq!(rt; entry.is_folder, !is_file, "a file or a folder");
    }
}

const CREATED: &[Row<Result<Create, FileError>>] = &[
    (b"t/file", Ok(Create::Standing), "a file"),
    (b"t/full", Ok(Create::Standing), "a folder"),
    (b"t/file/below", Ok(Create::Blocked), "below a file"),
    (b"t/none/new", Err(NO_FOLDER), "in no folder"),
    (b"t/new", Ok(Create::Made), "nothing"),
];

fn make_files<F: Files>(rt: &impl Abort, files: &mut F) {
    for &(path, want, what) in CREATED {
        assert_eq!(rt; files.create_new(path), want, "{what}");
    }
}

const FOLDERS: &[Row<bool>] = &[
    (b"t/full", true, "a folder"),
    (b"t/file", false, "a file"),
    (b"t/file/below", false, "a file in the path"),
    (b"t/a/b", true, "two folders"),
];

fn make_folders<F: Files>(rt: &impl Abort, files: &mut F) {
    for &(path, want, what) in FOLDERS {
        assert_eq!(rt; files.make_folders(path), Ok(want), "{what}");
    }
}

const APPENDED: &[Row<bool>] = &[
    (b"t/full", false, "a folder"),
    (b"t/none", false, "nothing"),
    (b"t/file/below", false, "below a file"),
    (b"t/file", true, "a file"),
];

fn append_bytes<F: Files>(rt: &impl Abort, files: &mut F) {
    for &(path, want, what) in APPENDED {
        assert_eq!(rt; files.append(path, b"de"), Ok(want), "{what}");
    }
}

/// From where, to where, and the result; `None` for a fault of the device. They leave `abcde` at `t/new`.
const RENAMED: &[(&[u8], &[u8], Option<Rename>, &str)] = &[
    (
        b"t/file",
        b"t/full",
        Some(Rename::FolderStands),
        "onto a folder",
    ),
    (
        b"t/file",
        b"t/empty",
        Some(Rename::FolderStands),
        "onto an empty folder",
    ),
    (b"t/none", b"t/other", None, "nothing"),
    (b"t/empty", b"t/other", None, "a folder"),
    (b"t/file", b"t/none/x", None, "into no folder"),
    (b"t/file", b"t/new/x", None, "below a file"),
    (b"t/file", b"t/new", Some(Rename::Moved), "onto a file"),
];

fn rename_files<F: Files>(rt: &impl Abort, files: &mut F) {
    for &(from, to, want, what) in RENAMED {
        assert_eq!(rt; files.rename(from, to).ok(), want, "{what}");
    }
}

const REMOVED: &[Row<bool>] = &[
    (b"t/full", false, "a folder"),
    (b"t/none", false, "nothing"),
    (b"t/new/below", false, "below a file"),
    (b"t/full/x", true, "a file"),
];

fn remove_files<F: Files>(rt: &impl Abort, files: &mut F) {
    for &(path, want, what) in REMOVED {
        assert_eq!(rt; files.remove_file(path), Ok(want), "{what}");
    }
}

const REMOVED_FOLDERS: &[Row<bool>] = &[
    (b"t/new", false, "a file"),
    (b"t/none", false, "nothing"),
    (b"t/a", false, "a folder that is not empty"),
    (b"t/full", true, "an empty folder"),
];

fn remove_folders<F: Files>(rt: &impl Abort, files: &mut F) {
    for &(path, want, what) in REMOVED_FOLDERS {
        assert_eq!(rt; files.remove_folder(path), Ok(want), "{what}");
    }
}

/// What is left after all calls.
const LEFT: &[Row<Node>] = &[
    (b"t/file", Node::Nothing, "it was moved"),
    (b"t/new", Node::File, "to here"),
    (b"t/empty", Node::Folder, "it stays"),
    (b"t/a/b", Node::Folder, "it was made"),
    (b"t/full", Node::Nothing, "it was removed"),
];

/// All of the table, in its order.
pub fn look_at_all<F: Files>(rt: &impl Abort, alloc: Global, files: &mut F) -> Result<(), Fail> {
    see_kinds(rt, files, &KINDS);
    read_bytes(rt, alloc, files);
    read_at_places(rt, alloc, files)?;
    open_no_file(rt, alloc, files);
    list_folders(rt, alloc, files);
    list_names(rt, alloc, files);
    make_files(rt, files);
    make_folders(rt, files);
    append_bytes(rt, files);
    rename_files(rt, files);
    remove_files(rt, files);
    remove_folders(rt, files);
    see_kinds(rt, files, &LEFT);
    Ok(())
}
