//! What a loss of power leaves of files in memory: after each call, each sync and each order of two changes.

use gix_ref_files::files::{FileError, Files, Node};
use gix_ref_files::lock::{Acquire, Commit, Lock, Unspent};
use gix_ref_memory::memory::Memory;
use std::alloc::Global;
use std::io::ErrorKind;
use std::process::Abort;
use std::test::Fail;

/// A call of files, or a file that is put.
#[derive(Clone, Copy, Debug)]
enum Call<'a> {
    Put(&'a [u8], &'a [u8]),
    Create(&'a [u8]),
    Append(&'a [u8], &'a [u8]),
    Rename(&'a [u8], &'a [u8]),
    Remove(&'a [u8]),
    Folders(&'a [u8]),
    RemoveFolder(&'a [u8]),
    SyncFile(&'a [u8]),
    SyncFolder(&'a [u8]),
}

/// Does a call.
fn make(memory: &mut Memory, call: Call<'_>) -> Result<(), FileError> {
    match call {
        Call::Put(path, bytes) => {
            memory.put(path, bytes)?;
        }
        Call::Create(path) => {
            memory.create_new(path)?;
        }
        Call::Append(path, bytes) => {
            memory.append(path, bytes)?;
        }
        Call::Rename(from, to) => {
            memory.rename(from, to)?;
        }
        Call::Remove(path) => {
            memory.remove_file(path)?;
        }
        Call::Folders(path) => {
            memory.make_folders(path)?;
        }
        Call::RemoveFolder(path) => {
            memory.remove_folder(path)?;
        }
        Call::SyncFile(path) => {
            memory.sync_file(path)?;
        }
        Call::SyncFolder(path) => {
            memory.sync_folder(path)?;
        }
    }
    Ok(())
}

/// What is left after these calls and a loss of power.
fn after_loss(alloc: Global, calls: &[Call<'_>], pick: u64) -> Result<Memory, Fail> {
    let mut memory = Memory::new(alloc);
    for &call in calls {
        make(&mut memory, call)?;
    }
    memory.lose_power(pick)?;
    Ok(memory)
}

/// What is at a path: a folder is `/`.
fn seen<'m>(memory: &'m mut Memory, path: &[u8]) -> Option<&'m [u8]> {
    if memory.kind(path) == Ok(Node::Folder) {
        return Some(b"/");
    }
    memory.get(path)
}

/// Whether this is at a path, as `seen` shows it.
fn is_seen(memory: &mut Memory, path: &[u8], wanted: Option<&[u8]>) -> bool {
    match (seen(memory, path), wanted) {
        (Some(text), Some(wanted)) => text == wanted,
        (None, None) => true,
        _ => false,
    }
}

#[test]
fn each_call_is_lost_or_kept(rt: HostRuntime) -> Result<(), Fail> {
    let alloc = rt.alloc();
    let grown = [Call::Put(b"f", b"a"), Call::Append(b"f", b"bc")];
    let made = [Call::Create(b"f"), Call::Append(b"f", b"bc")];
    let moved = [
        Call::Put(b"l", b"new"),
        Call::Put(b"p", b"old"),
        Call::Rename(b"l", b"p"),
    ];
    let gone = [Call::Put(b"f", b"a"), Call::Remove(b"f")];
    let folders = [Call::Folders(b"d/e"), Call::Create(b"d/e/f")];
    let no_folder = [
        Call::Put(b"d/f", b""),
        Call::Remove(b"d/f"),
        Call::SyncFolder(b"d"),
        Call::RemoveFolder(b"d"),
    ];
    let rows: &[(&str, &[Call<'_>], u64, &[u8], Option<&[u8]>)] = &[
        ("an unsynced end", &grown, 0, b"f", Some(b"a??")),
        ("the end kept", &grown, 1, b"f", Some(b"abc")),
        ("a file that was made", &made, 0, b"f", None),
        (
            "its entry kept, and not its end",
            &made,
            1,
            b"f",
            Some(b"??"),
        ),
        ("its end kept, and not its entry", &made, 2, b"f", None),
        ("both kept", &made, 3, b"f", Some(b"bc")),
        ("a rename: the old path", &moved, 0, b"l", Some(b"new")),
        ("a rename: the new path", &moved, 0, b"p", Some(b"old")),
        ("neither", &moved, 1, b"l", None),
        ("the new path old", &moved, 1, b"p", Some(b"old")),
        ("under both names", &moved, 2, b"l", Some(b"new")),
        ("and so at the place", &moved, 2, b"p", Some(b"new")),
        ("the rename kept", &moved, 3, b"l", None),
        ("at its place", &moved, 3, b"p", Some(b"new")),
        ("a removal", &gone, 0, b"f", Some(b"a")),
        ("the removal kept", &gone, 1, b"f", None),
        ("folders", &folders, 0, b"d", None),
        ("the outer one", &folders, 1, b"d", Some(b"/")),
        ("without the inner one", &folders, 1, b"d/e", None),
        (
            "the inner one goes with the outer one",
            &folders,
            6,
            b"d/e",
            None,
        ),
        ("a file goes with its folder", &folders, 5, b"d/e/f", None),
        ("all of it", &folders, 7, b"d/e/f", Some(b"")),
        ("a folder that was removed", &no_folder, 0, b"d", Some(b"/")),
        ("with what was synced in it", &no_folder, 0, b"d/f", None),
        ("the removal kept", &no_folder, 1, b"d", None),
    ];
    for &(meaning, calls, pick, path, left) in rows {
        let mut memory = after_loss(alloc, calls, pick)?;
        assert!(rt; is_seen(&mut memory, path, left), "{meaning}, by {pick}");
        if pick == 7 {
            let mut all = after_loss(alloc, calls, u64::MAX)?;
            assert!(rt; is_seen(&mut all, path, left), "{meaning}, by all ones");
        }
    }
    Ok(())
}

#[test]
fn each_sync_settles_what_it_names(rt: HostRuntime) -> Result<(), Fail> {
    let alloc = rt.alloc();
    let file = [
        Call::Put(b"r/f", b"a"),
        Call::Append(b"r/f", b"b"),
        Call::SyncFile(b"r/f"),
        Call::Append(b"r/f", b"c"),
    ];
    let entry = [
        Call::Put(b"r/l", b"new"),
        Call::Rename(b"r/l", b"r/p"),
        Call::SyncFolder(b"r"),
    ];
    let other = [
        Call::Put(b"r/l", b"new"),
        Call::Put(b"q/f", b""),
        Call::Rename(b"r/l", b"r/p"),
        Call::SyncFolder(b"q"),
        Call::SyncFile(b"r/p"),
    ];
    let no_bytes = [
        Call::Folders(b"r"),
        Call::Create(b"r/f"),
        Call::Append(b"r/f", b"a"),
        Call::SyncFolder(b"r"),
    ];
    let no_entry = [
        Call::Put(b"r/g", b""),
        Call::Create(b"r/f"),
        Call::Append(b"r/f", b"a"),
        Call::SyncFile(b"r/f"),
    ];
    let moved = [
        Call::Put(b"r/l", b"a"),
        Call::Append(b"r/l", b"b"),
        Call::Rename(b"r/l", b"r/p"),
        Call::SyncFolder(b"r"),
    ];
    let unsynced_lock = [
        Call::Create(b"a.lock"),
        Call::Append(b"a.lock", b"I"),
        Call::Rename(b"a.lock", b"a"),
    ];
    let put = [
        Call::Create(b"f"),
        Call::Append(b"f", b"a"),
        Call::Put(b"f", b"b"),
    ];
    let rows: &[(&str, &[Call<'_>], u64, &[u8], Option<&[u8]>)] = &[
        ("bytes up to the sync", &file, 0, b"r/f", Some(b"ab?")),
        ("and those after it", &file, 1, b"r/f", Some(b"abc")),
        ("entries of the folder", &entry, 0, b"r/p", Some(b"new")),
        ("all of them", &entry, 0, b"r/l", None),
        (
            "another folder settles none",
            &other,
            0,
            b"r/l",
            Some(b"new"),
        ),
        ("the bytes settle no entry", &other, 0, b"r/p", None),
        (
            "the folder itself is not settled",
            &no_bytes,
            0,
            b"r/f",
            None,
        ),
        (
            "a folder settles no bytes",
            &no_bytes,
            1,
            b"r/f",
            Some(b"?"),
        ),
        ("a file settles no entry", &no_entry, 0, b"r/f", None),
        ("an end goes with its file", &moved, 0, b"r/p", Some(b"a?")),
        (
            "a lock that was not synced",
            &unsynced_lock,
            5,
            b"a",
            Some(b"?"),
        ),
        ("what is put is synced", &put, 0, b"f", Some(b"b")),
    ];
    for &(meaning, calls, pick, path, left) in rows {
        let mut memory = after_loss(alloc, calls, pick)?;
        assert!(rt; is_seen(&mut memory, path, left), "{meaning}, by {pick}");
    }
    Ok(())
}

#[test]
fn numbers_follow_the_first_unsynced_changes(rt: HostRuntime) -> Result<(), Fail> {
    let alloc = rt.alloc();
    let two = [Call::Create(b"a"), Call::Create(b"b")];
    let other = [Call::Create(b"b"), Call::Create(b"a")];
    let again = [
        Call::Create(b"a"),
        Call::Create(b"b"),
        Call::Remove(b"a"),
        Call::Create(b"a"),
    ];
    let rows: &[(&[Call<'_>], u64, bool, bool)] = &[
        (&two, 0, false, false),
        (&two, 1, true, false),
        (&two, 2, false, true),
        (&two, 3, true, true),
        (&other, 1, false, true),
        (&other, 2, true, false),
        (&again, 1, true, false),
        (&again, 2, false, true),
    ];
    for &(calls, pick, a, b) in rows {
        let memory = after_loss(alloc, calls, pick)?;
        assert_eq!(rt; memory.get(b"a").is_some(), a, "a by {pick} of {calls:?}");
        assert_eq!(rt; memory.get(b"b").is_some(), b, "b by {pick} of {calls:?}");
    }
    let mut many = Memory::new(alloc);
    for i in 0..70u8 {
        many.create_new(&[b'a', 100 + i])?;
    }
    many.lose_power(2)?;
    for i in 0..70u8 {
        let kept = i == 1 || i == 65;
        assert_eq!(rt;
            many.get(&[b'a', 100 + i]).is_some(),
            kept,
            "bits come again, {i}"
        );
    }
    Ok(())
}

#[test]
fn a_loss_restarts_and_leaves_all_synced(rt: HostRuntime) -> Result<(), Fail> {
    let mut memory = Memory::new(rt.alloc());
    memory.stop_at(2, 0);
    memory.create_new(b"a")?;
    assert!(rt; memory.create_new(b"b").is_err(), "stopped");
    memory.lose_power(u64::MAX)?;
    assert_eq!(rt; memory.calls(), 2, "the calls are counted on");
    assert!(rt; memory.create_new(b"b").is_ok(), "restarted");
    assert!(rt; memory.get(b"a").is_some());
    memory.lose_power(0)?;
    assert!(rt; memory.get(b"a").is_some(), "what was left is synced");
    assert!(rt; memory.get(b"b").is_none());
    Ok(())
}

#[test]
fn syncs_answer_what_is_there(rt: HostRuntime) -> Result<(), Fail> {
    let mut memory = Memory::new(rt.alloc());
    memory.put(b"r/f", b"a")?;
    assert_eq!(rt; memory.sync_file(b"r/f"), Ok(true));
    assert_eq!(rt; memory.sync_file(b"r"), Ok(false), "a folder");
    assert_eq!(rt; memory.sync_file(b"none"), Ok(false));
    assert_eq!(rt; memory.sync_folder(b"r"), Ok(true));
    assert_eq!(rt; memory.sync_folder(b"r/f"), Ok(false), "a file");
    assert_eq!(rt; memory.sync_folder(b"none"), Ok(false));
    let fault = Err(FileError::Device(ErrorKind::Other));
    memory.append(b"r/f", b"b")?;
    memory.fail_at(1);
    assert_eq!(rt; memory.sync_file(b"r/f"), fault);
    memory.stop_at(1, 9);
    assert_eq!(rt; memory.sync_file(b"r/f"), fault, "a stop syncs nothing");
    memory.lose_power(0)?;
    assert_eq!(rt;
        memory.get(b"r/f"),
        Some(b"a?".as_slice()),
        "a fault settles nothing"
    );
    Ok(())
}

#[test]
fn a_lock_is_whole_at_its_place(rt: HostRuntime) -> Result<(), Fail> {
    let alloc = rt.alloc();
    for pick in [0, 1, 2, 3, u64::MAX] {
        let mut memory = Memory::new(alloc);
        memory.put(b"r/a", b"old")?;
        match Lock::acquire(alloc, &mut memory, b"r/a")? {
            Acquire::Held(lock) => {
                assert_eq!(rt; lock.write(&mut memory, b"new"), Ok(true));
                match lock.commit(&mut memory) {
                    Ok(Commit::Moved) => {}
                    Ok(Commit::FolderStands(lock)) => {
                        let _path = lock.into_path();
                    }
                    Err(Unspent { error: _, lock }) => {
                        let _path = lock.into_path();
                    }
                }
            }
            Acquire::Standing | Acquire::Blocked => return Err("no lock".into()),
        }
        memory.lose_power(pick)?;
        let left = memory.get(b"r/a");
        let whole = left == Some(b"old".as_slice()) || left == Some(b"new".as_slice());
        assert!(rt; whole, "old or new, by {pick}");
    }
    Ok(())
}
