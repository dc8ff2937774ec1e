//! The disk, in folders of the tests' own, which put and look with std's files themselves.

use crate::files::table;
use gix_ref_files::disk::Disk;
use gix_ref_files::files::{Create, FileError, Files, Node, Rename};
use std::fs;
use std::io::ErrorKind;
use std::os::unix::fs::symlink;
use std::test::Fail;

#[test]
fn answers_as_the_table_says(rt: HostRuntime) -> Result<(), Fail> {
    let alloc = rt.alloc();
    fs::create_dir_all(&rt, "t/full")?;
    fs::create_dir_all(&rt, "t/empty")?;
    fs::write(&rt, "t/full/x", b"")?;
    fs::write(&rt, "t/file", b"abc")?;
    let mut disk = Disk::new(rt.clone()?);
    table::look_at_all(&rt, alloc, &mut disk)?;
    let left = fs::read(&rt, "t/new")?;
    fs::remove_dir_all(&rt, "t")?;
    assert_eq!(rt;
        left.as_slice(),
        b"abcde".as_slice(),
        "what std's files see"
    );
    Ok(())
}

#[test]
fn sees_what_others_put(rt: HostRuntime) -> Result<(), Fail> {
    let alloc = rt.alloc();
    fs::create_dir_all(&rt, "u/folder")?;
    fs::write(&rt, "u/file", b"abc")?;
    symlink(&rt, "file", "u/link")?;
    let mut disk = Disk::new(rt.clone()?);
    let mut buf = Vec::new(alloc);
    let through = disk.read(alloc, b"u/link", &mut buf);
    let listed = disk.list(alloc, b"u");
    let no_text = disk.kind(b"u/\xff");
    fs::write(&rt, "u/file", b"other")?;
    let mut new = Vec::new(alloc);
    let again = disk.read(alloc, b"u/file", &mut new);
    fs::remove_dir_all(&rt, "u")?;
    assert_eq!(rt; through, Ok(Node::File), "a link is followed");
    assert_eq!(rt;
        buf.as_slice(),
        b"abc".as_slice(),
        "to the bytes of its file"
    );
    let listed = listed?.ok_or("no listing")?;
    assert_eq!(rt; listed.len(), 2, "and it is no entry");
    assert_eq!(rt;
        no_text,
        Err(FileError::NotUtf8),
        "a name that is not UTF-8"
    );
    assert_eq!(rt; again, Ok(Node::File));
    assert_eq!(rt;
        new.as_slice(),
        b"other".as_slice(),
        "what was written meanwhile"
    );
    Ok(())
}

#[test]
fn makes_a_known_folder_anew_where_it_is_gone(rt: HostRuntime) -> Result<(), Fail> {
    let mut disk = Disk::new(rt.clone()?);
    let found = disk.make_folders(b"known/folder");
    fs::remove_dir_all(&rt, "known")?;
    let known = disk.make_folders(b"known/folder");
    let made = disk.create_new(b"known/folder/file");
    let kind = disk.kind(b"known/folder/file");
    let other = disk.create_new(b"known/other/file");
    disk.remove_file(b"known/folder/file")?;
    let removed = disk.remove_folder(b"known/folder");
    let seen = disk.make_folders(b"known/folder");
    let again = disk.kind(b"known/folder");
    fs::remove_dir_all(&rt, "known")?;
    assert_eq!(rt; found, Ok(true), "made");
    assert_eq!(rt; known, Ok(true), "not looked at again");
    assert_eq!(rt; made, Ok(Create::Made), "in a folder that was made anew");
    assert_eq!(rt; kind, Ok(Node::File));
    assert_eq!(rt;
        other,
        Err(FileError::Device(ErrorKind::NotFound)),
        "a folder that was not asked for"
    );
    assert_eq!(rt; removed, Ok(true), "removed by the disk itself");
    assert_eq!(rt; seen, Ok(true), "so made again");
    assert_eq!(rt; again, Ok(Node::Folder));
    Ok(())
}

#[test]
fn appends_to_the_file_that_was_seen_last(rt: HostRuntime) -> Result<(), Fail> {
    fs::create_dir(&rt, "seen")?;
    fs::write(&rt, "seen/f", b"a")?;
    let mut disk = Disk::new(rt.clone()?);
    let kind = disk.kind(b"seen/f");
    let appended = disk.append(b"seen/f", b"bc");
    let left = fs::read(&rt, "seen/f")?;
    disk.kind(b"seen/f")?;
    fs::remove_file(&rt, "seen/f")?;
    let gone = disk.append(b"seen/f", b"d");
    fs::write(&rt, "seen/f", b"e")?;
    disk.kind(b"seen/f")?;
    fs::remove_file(&rt, "seen/f")?;
    fs::create_dir(&rt, "seen/f")?;
    let a_folder = disk.append(b"seen/f", b"g");
    let looked = disk.append(b"seen/f", b"h");
    fs::remove_dir_all(&rt, "seen")?;
    assert_eq!(rt; kind, Ok(Node::File));
    assert_eq!(rt; appended, Ok(true));
    assert_eq!(rt; left.as_slice(), b"abc".as_slice());
    assert_eq!(rt; gone, Ok(false), "it was removed since");
    assert_eq!(rt; a_folder, Ok(false), "a folder came in its place");
    assert_eq!(rt; looked, Ok(false), "after a look");
    Ok(())
}

#[test]
fn renames_and_removes_what_it_made(rt: HostRuntime) -> Result<(), Fail> {
    fs::create_dir(&rt, "made")?;
    let mut disk = Disk::new(rt.clone()?);
    disk.create_new(b"made/a.lock")?;
    disk.create_new(b"made/b.lock")?;
    disk.create_new(b"made/c.lock")?;
    disk.create_new(b"made/d.lock")?;
    let known = disk.rename(b"made/b.lock", b"made/b");
    fs::remove_file(&rt, "made/c.lock")?;
    fs::create_dir(&rt, "made/c.lock")?;
    let a_folder = disk.remove_file(b"made/c.lock");
    let removed = disk.remove_file(b"made/d.lock");
    let gone = disk.remove_file(b"made/d.lock");
    let looked = disk.rename(b"made/a.lock", b"made/a");
    let moved = disk.kind(b"made/a");
    let no_file = disk.rename(b"made/c.lock", b"made/c");
    fs::remove_dir_all(&rt, "made")?;
    assert_eq!(rt; known, Ok(Rename::Moved), "without a look");
    assert_eq!(rt; a_folder, Ok(false), "a folder came in its place");
    assert_eq!(rt; removed, Ok(true));
    assert_eq!(rt; gone, Ok(false), "it was removed");
    assert_eq!(rt; looked, Ok(Rename::Moved), "one that was forgotten");
    assert_eq!(rt; moved, Ok(Node::File));
    assert_eq!(rt;
        no_file,
        Err(FileError::Device(ErrorKind::IsADirectory)),
        "a folder is not moved"
    );
    Ok(())
}

#[test]
fn reads_a_large_file_whole(rt: HostRuntime) -> Result<(), Fail> {
    let alloc = rt.alloc();
    let bytes = vec![in alloc; 7u8; 5000]?;
    fs::write(&rt, "large", &bytes)?;
    let mut disk = Disk::new(rt.clone()?);
    let mut buf = Vec::new(alloc);
    let read = disk.read(alloc, b"large", &mut buf);
    fs::remove_file(&rt, "large")?;
    assert_eq!(rt; read, Ok(Node::File));
    assert_eq!(rt; buf.as_slice(), bytes.as_slice());
    Ok(())
}

#[test]
fn both_makers_leave_the_same_bytes(rt: HostRuntime) -> Result<(), Fail> {
    let mut with = Disk::new(rt.clone()?);
    let mut without = Disk::without_syncs(rt.clone()?);
    let first = write_and_sync(&mut with, b"with", b"with/f");
    let second = write_and_sync(&mut without, b"without", b"without/f");
    let none = with.sync_file(b"with/none");
    let a_folder = with.sync_file(b"with");
    let a_file = with.sync_folder(b"with/f");
    let left = fs::read(&rt, "with/f");
    let same = fs::read(&rt, "without/f");
    fs::remove_dir_all(&rt, "with")?;
    fs::remove_dir_all(&rt, "without")?;
    assert_eq!(rt; first, Ok(true), "synced");
    assert_eq!(rt; second, Ok(true), "not synced, and true");
    assert_eq!(rt; none, Ok(false), "no file");
    assert_eq!(rt; a_folder, Ok(false), "a folder is no file");
    assert_eq!(rt; a_file, Ok(false), "a file is no folder");
    assert_eq!(rt; left?.as_slice(), b"abc".as_slice());
    assert_eq!(rt; same?.as_slice(), b"abc".as_slice());
    Ok(())
}

/// Makes a folder and a file with bytes, and syncs both.
fn write_and_sync(disk: &mut Disk, folder: &[u8], file: &[u8]) -> Result<bool, FileError> {
    disk.make_folders(folder)?;
    disk.create_new(file)?;
    disk.append(file, b"abc")?;
    Ok(disk.sync_file(file)? && disk.sync_folder(folder)?)
}
