//! The program over the disk, in a folder that the test makes and removes.
use crate::program::listings::{FILES, WHOLE, memory_of};
use crate::program::ran::{I1, I2, run_words};
use crate::texts::ONE;
use gix_ref_files::disk::Disk;
use gix_ref_files::files::{Create, Files, Node};
use gix_ref_program::run::run;
use gix_ref_store::file::transaction::PackedRefs;
use std::os::unix::fs::symlink;
use std::test::Fail;
use std::{fs, io};

/// A writer that takes no byte.
#[derive(Drop)]
struct Closed;

impl io::Write for Closed {
    fn write(&mut self, _buf: &[u8]) -> io::Result<usize> {
        Err(io::Error::from(io::ErrorKind::BrokenPipe))
    }

    fn flush(&mut self) -> io::Result<()> {
        Ok(())
    }
}

#[test]
fn updates_shows_and_refuses(rt: HostRuntime) -> Result<(), Fail> {
    let alloc = rt.alloc();
    let rows: &[(&[&str], &str)] = &[
        (&["v/git", "show", "refs/heads/a"], "refused: NotFound\n"),
        (&["v/git", "update", "refs/heads/a", I1], ""),
        (
            &["v/git", "show", "refs/heads/a"],
            "1111111111111111111111111111111111111111 refs/heads/a\n",
        ),
        (
            &["v/git", "update", "refs/heads/a", I2, I2],
            "refused: ReferenceOutOfDate\n",
        ),
        (
            &["v/git", "update", "refs/heads/a/b", I1],
            "refused: PathCollision\n",
        ),
        (
            &["v/git", "update", "refs/heads", I1],
            "refused: FolderInPlace\n",
        ),
        (
            &["v/git", "update", "logs/HEAD", I1],
            "refused: UnsafeName\n",
        ),
    ];
    for &(words, output) in rows {
        let ran = run_words(&rt, alloc, Disk::new(rt.clone()?), words);
        assert!(rt; ran.output.as_slice() == output.as_bytes(), "{output}");
    }
    let text = fs::read(&rt, "v/git/refs/heads/a")?;
    let lock = fs::metadata(&rt, "v/git/refs/heads/a.lock");
    fs::remove_dir_all(&rt, "v")?;
    assert!(rt; text.as_slice() == ONE.as_bytes(), "the file");
    assert!(rt; lock.is_err(), "no lock");
    Ok(())
}

/// The folder that a file is in.
fn folder_of(path: &str) -> &str {
    match path.rsplit_once('/') {
        Some((folder, _)) => folder,
        None => "",
    }
}

#[test]
fn lists_the_same_as_in_memory(rt: HostRuntime) -> Result<(), Fail> {
    let alloc = rt.alloc();
    for (path, text) in FILES {
        fs::create_dir_all(&rt, folder_of(path))?;
        fs::write(&rt, path, text.as_bytes())?;
    }
    fs::create_dir_all(&rt, "r/refs/heads/empty/er")?;
    let lines: &[&[&str]] = &[
        &["r", "list"],
        &["r", "list", "refs/heads/a"],
        &["r", "--namespace", "n", "list"],
    ];
    let mut same = true;
    for words in lines {
        let there = run_words(&rt, alloc, Disk::new(rt.clone()?), words);
        let here = run_words(&rt, alloc, memory_of(&rt, alloc, FILES), words);
        same = same && there.output.as_slice() == here.output.as_slice();
        same = same && there.status == here.status;
    }
    let whole = run_words(&rt, alloc, Disk::new(rt.clone()?), &["r", "list"]);
    fs::remove_dir_all(&rt, "r")?;
    assert!(rt; same, "as in memory");
    assert!(rt; whole.output.as_slice() == WHOLE.as_bytes(), "on the disk");
    Ok(())
}

#[test]
fn a_device_counts_as_nothing(rt: HostRuntime) -> Result<(), Fail> {
    let alloc = rt.alloc();
    fs::create_dir_all(&rt, "w/refs/heads")?;
    // `/dev/zero` has no end: a program that reads it does not come back.
    symlink(&rt, "/dev/zero", "w/refs/heads/x")?;
    let shown = run_words(
        &rt,
        alloc,
        Disk::new(rt.clone()?),
        &["w", "show", "refs/heads/x"],
    );
    let mut disk = Disk::new(rt.clone()?);
    let mut text = Vec::new(alloc);
    let read = disk.read(alloc, b"w/refs/heads/x", &mut text);
    let opened = disk.open(alloc, b"w/refs/heads/x");
    let appended = disk.append(b"w/refs/heads/x", b"1");
    let created = disk.create_new(b"w/refs/heads/x");
    let removed = disk.remove_file(b"w/refs/heads/x");
    let kind = disk.kind(b"w/refs/heads/x");
    fs::remove_dir_all(&rt, "w")?;
    assert!(rt; shown.output.as_slice() == b"refused: NotFound\n".as_slice());
    assert!(rt; read == Ok(Node::Nothing) && text.is_empty() && kind == Ok(Node::Nothing));
    assert!(rt; matches!(&opened, Ok(None)) && appended == Ok(false) && removed == Ok(false));
    assert!(rt; created == Ok(Create::Standing), "something is there");
    Ok(())
}

#[test]
fn a_fault_of_the_writer_is_answered(rt: HostRuntime) -> Result<(), Fail> {
    let files = Disk::new(rt.clone()?);
    let ran = run(rt.alloc(), files, PackedRefs::default(), &[], &mut Closed);
    match ran.status {
        Ok(_) => panic!(rt; "no byte can be printed"),
        Err(error) => assert_eq!(rt; error.kind(), io::ErrorKind::BrokenPipe),
    }
    Ok(())
}
