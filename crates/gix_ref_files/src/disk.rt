//! The disk, by std's files. It counts its faults and claims no honesty.
ghost use Rattle.std.specs.Prelude.{◌≡◌, OnOk, IfErr};
ghost use Rattle.gix_ref_files.specs.Files.{counted};
ghost use Rattle.gix_ref_files.specs.FaultCounts.{counts_of};
ghost use Rattle.gix_ref_files.specs.declared.files.FileError.TheVariants.{Device, NotUtf8};

use crate::faults::Faults;
use crate::files::{Create, Entry, FileError, Files, Node, ReadAt, Rename};
use crate::made::MadeFiles;
use crate::paths;
use std::alloc::{AllocError, Global};
use std::fs::{DirEntry, File, OpenOptions};
use std::io::{ErrorKind, Read, Write};
use std::os::unix::fs::FileExt;
use std::{fmt, fs, io};

/// The disk. A path is one of the system's, so a relative one begins at the working folder. Symbolic links are
/// followed, but a listing leaves them out, as it does all that is neither a file nor a folder. As `std::fs`.
///
/// A path has to be UTF-8; any other is the fault `NotUtf8`. A listing does not tell names that are not UTF-8, since std's folders
/// do not: where there are such, it has one file more, named by the byte 0xFF, which no call can open.
///
/// A FIFO, a socket or a device is never opened: it counts as nothing, and as `Standing` for `create_new`. So no call
/// waits for another program. What a path names is asked before it is opened; another program that puts a FIFO there
/// between the two can still make a call wait.
///
/// Where another program writes meanwhile, a reader has one file to its end, the one that was there when it was opened; and a listing leaves
/// out what is gone before it was looked at. A file that another machine replaces while it is opened or read, so that a network file system
/// returns `StaleNetworkFileHandle`, is opened once more by its name.
///
/// The file that `create_new` made last stays open until a file is renamed or removed, or another one is made: so what is added to it and
/// synced is one system call each. Nor are lock files that it made looked at before they are renamed or removed in the order in which
/// they were made, or from the last one back.
///
/// The folder that `make_folders` found or made last is not looked at again. Where another program has removed it since, `create_new`
/// makes it anew. Nor does `append` look again at the file that `kind` found last.
#[derive(Drop)]
pub struct Disk {
    rt: HostRuntime,
    faults: Faults,
    syncs: bool,
    made: MadeFiles,
    folder: Option<Vec<u8>>,
    seen: String,
}

impl fmt::Debug for Disk {
    fn fmt<W: fmt::Write>(&self, f: &mut fmt::Formatter<W>) -> fmt::Result {
        f.write_str("Disk")
    }
}

/// A file of the disk that is open for reading. As `File`.
#[derive(Drop)]
pub struct DiskReader {
    file: File,
    len: u64,
    faults: Faults,
}

/// Counts a fault of the device, and returns it.
fn fault(faults: &mut Faults, kind: ErrorKind) -> FileError
    ensures error { result ≡ Device kind }
    ensures counted { counts_of faults.new ≡ counted (Device kind) (counts_of faults.old) }
{
    faults.add_device(kind);
    FileError::Device(kind)
}

/// The path as text. A path that is not UTF-8 is a fault, and is counted.
fn text_of<'p>(faults: &mut Faults, path: &'p [u8]) -> Result<&'p str, FileError>
    ensures text { OnOk result (counts_of faults.new ≡ counts_of faults.old) }
    ensures counted { IfErr result (λ error. (error ≡ NotUtf8)
        × (counts_of faults.new ≡ counted NotUtf8 (counts_of faults.old))) }
{
    match std::str::from_utf8(path) {
        Ok(path) => Ok(path),
        Err(_) => {
            faults.add_not_utf8();
            Err(FileError::NotUtf8)
        }
    }
}

/// The disk of the process, with no fault counted and no file made.
fn new_disk(rt: HostRuntime, syncs: bool) -> Disk {
    let alloc = rt.alloc();
    Disk {
        rt,
        faults: Faults::new(),
        syncs,
        made: MadeFiles::new(alloc),
        folder: None,
        seen: String::new(alloc),
    }
}

impl Disk {
    /// The disk of the process, with no fault counted. Its calls are those of `std::fs`.
    ///
    /// ```text
    /// let files = Disk::new(rt.clone()?);
    /// let store = Store::at(files, b".git".to_vec(alloc)?, Kind::Sha1)?;
    /// ```
    pub fn new(rt: HostRuntime) -> Self {
        new_disk(rt, true)
    }

    /// The disk of the process, whose `sync_file` and `sync_folder` return true without a system call, as Git does by
    /// default for loose references. After a loss of power a reference that was updated may then be missing or hold any
    /// bytes, and a deletion may show before an update: nothing that is said of losses of power is promised. What is said of
    /// stops of the process stays. As Git with `core.fsync=none`.
    ///
    /// ```text
    /// let files = Disk::without_syncs(rt.clone()?); // for tests, and for repositories that can be fetched again
    /// ```
    pub fn without_syncs(rt: HostRuntime) -> Self {
        new_disk(rt, false)
    }
}

impl Disk {
    ghost use Rattle.gix_ref_files.specs.Files.{CountsCall};

    /// Whether a path is that of the folder that `make_folders` found or made last.
    fn knows(&self, path: &[u8]) -> bool {
        match &self.folder {
            Some(folder) => folder.as_slice() == path,
            None => false,
        }
    }

    /// Makes a file whose folder was known and is gone, and the folder first.
    fn make_again(&mut self, path: &str) -> io::Result<File>
        ensures { counts_of self.new.faults ≡ counts_of self.old.faults }
    {
        if let Some(folder) = self.folder.take() {
            fs::create_dir_all(&self.rt, std::str::from_utf8(&folder).unwrap_or(""))?;
        }
        make_file(&self.rt, path)
    }

    /// Syncs a file or a folder, whichever is asked for, after a look; false where there is no such thing.
    fn sync(&mut self, path: &[u8], what: Node) -> Result<bool, FileError>
        ensures { CountsCall result (counts_of self.old.faults) (counts_of self.new.faults) }
    {
        let path = text_of(&mut self.faults, path)?;
        let synced = sync_at(&self.rt, path, what);
        self.synced(synced)
    }

    /// Whether a sync was done; false where there is no such thing. Another error is counted.
    fn synced(&mut self, synced: io::Result<bool>) -> Result<bool, FileError>
        ensures { CountsCall result (counts_of self.old.faults) (counts_of self.new.faults) }
    {
        match synced {
            Ok(synced) => Ok(synced),
            Err(error) => match error.kind() {
                ErrorKind::NotFound | ErrorKind::NotADirectory => Ok(false),
                kind => Err(fault(&mut self.faults, kind)),
            },
        }
    }
}

impl ReadAt for DiskReader {
    ghost use Rattle.gix_ref_files.specs.Unknown.{no_bytes};

    ghost honest = { ⊥ };

    ghost bytes = { λ reader. no_bytes };

    ghost size = { λ reader. reader.len };

    ghost faults = { λ reader. counts_of reader.faults };

    fn len(&self) -> u64 {
        self.len
    }

    fn read_exact_at(&mut self, place: u64, buf: &mut [u8]) -> Result<(), FileError> {
        match self.file.read_exact_at(buf, place) {
            Ok(()) => Ok(()),
            Err(error) => Err(fault(&mut self.faults, error.kind())),
        }
    }
}

impl Files for Disk {
    ghost use Rattle.gix_ref_files.specs.Unknown.{no_meaning};

    type Reader = DiskReader;

    ghost honest = { ⊥ };

    ghost means = { λ disk. no_meaning };

    ghost faults = { λ disk. counts_of disk.faults };

    ghost tree_is_left = { λ disk t honest le. absurd honest };

    ghost only_now = { λ disk T honest left. absurd honest };

    ghost disk_is_found = { λ disk t honest le. absurd honest };

    ghost only_disk = { λ disk D honest found. absurd honest };

    ghost shaped = { λ disk honest. absurd honest };

    /// One system call.
    fn kind(&mut self, path: &[u8]) -> Result<Node, FileError> {
        self.seen.clear();
        let path = text_of(&mut self.faults, path)?;
        match fs::metadata(&self.rt, path) {
            Ok(about) => {
                if about.is_file() && self.seen.push_str(path).is_err() {
                    self.seen.clear();
                }
                Ok(node_of(&about))
            }
            Err(error) => match error.kind() {
                ErrorKind::NotFound => Ok(Node::Nothing),
                ErrorKind::NotADirectory => Ok(Node::Blocked),
                kind => Err(fault(&mut self.faults, kind)),
            },
        }
    }

    /// Four system calls for a small file: a look at what is there, open, read and close.
    fn read(&mut self, _alloc: Global, path: &[u8], buf: &mut Vec<u8>) -> Result<Node, FileError> {
        buf.clear();
        let path = text_of(&mut self.faults, path)?;
        let error = match read_again_if_stale(&self.rt, path, buf) {
            Ok(Node::File) => return Ok(Node::File),
            Ok(node) => {
                buf.clear();
                return Ok(node);
            }
            Err(error) => error,
        };
        buf.clear();
        match error.kind() {
            ErrorKind::NotFound => Ok(Node::Nothing),
            ErrorKind::NotADirectory => Ok(Node::Blocked),
            ErrorKind::OutOfMemory => Err(FileError::Memory),
            kind => Err(fault(&mut self.faults, kind)),
        }
    }

    /// Three system calls, and one when the reader is dropped.
    fn open(&mut self, _alloc: Global, path: &[u8]) -> Result<Option<DiskReader>, FileError> {
        let path = text_of(&mut self.faults, path)?;
        match open_again_if_stale(&self.rt, path) {
            Ok(reader) => Ok(reader),
            Err(error) => match error.kind() {
                ErrorKind::NotFound | ErrorKind::NotADirectory => Ok(None),
                kind => Err(fault(&mut self.faults, kind)),
            },
        }
    }

    /// Four system calls or some more for a large folder, and one for each entry.
    fn list(&mut self, alloc: Global, path: &[u8]) -> Result<Option<Vec<Entry>>, FileError> {
        let path = text_of(&mut self.faults, path)?;
        match list_in(&self.rt, alloc, path) {
            Ok(entries) => Ok(Some(entries)),
            Err(error) => match error.kind() {
                ErrorKind::NotFound | ErrorKind::NotADirectory => Ok(None),
                ErrorKind::OutOfMemory => Err(FileError::Memory),
                kind => Err(fault(&mut self.faults, kind)),
            },
        }
    }

    /// One system call, and one to close the file that was made before.
    fn create_new(&mut self, path: &[u8]) -> Result<Create, FileError> {
        let name = text_of(&mut self.faults, path)?;
        self.made.close();
        let made = match make_file(&self.rt, name) {
            Err(error) if error.kind() == ErrorKind::NotFound && self.knows(paths::folder(path)) =>
                { self.make_again(name) }
            made => made,
        };
        match made {
            Ok(file) => {
                self.made.keep(self.rt.alloc(), name, file);
                Ok(Create::Made)
            }
            Err(error) => match error.kind() {
                ErrorKind::AlreadyExists => Ok(Create::Standing),
                ErrorKind::NotADirectory => Ok(Create::Blocked),
                kind => Err(fault(&mut self.faults, kind)),
            },
        }
    }

    /// One system call where the folder exists, and none for the one that was asked for last.
    fn make_folders(&mut self, path: &[u8]) -> Result<bool, FileError> {
        if self.knows(path) {
            return Ok(true);
        }
        let name = text_of(&mut self.faults, path)?;
        match make_folders_at(&self.rt, name) {
            Ok(true) => {
                self.folder = path.to_vec(self.rt.alloc()).ok();
                Ok(true)
            }
            Ok(false) => Ok(false),
            Err(error) => match error.kind() {
                ErrorKind::AlreadyExists | ErrorKind::NotADirectory => Ok(false),
                kind => Err(fault(&mut self.faults, kind)),
            },
        }
    }

    /// Four system calls; three for the file that `kind` found last, and one for the file that was made last.
    fn append(&mut self, path: &[u8], bytes: &[u8]) -> Result<bool, FileError> {
        let appended = match self.made.write(path, bytes) {
            Some(Ok(())) => Ok(true),
            Some(Err(error)) => Err(error),
            None if self.seen.as_bytes() == path => append_to_seen(&self.rt, &self.seen, bytes),
            None => append_to(&self.rt, text_of(&mut self.faults, path)?, bytes),
        };
        match appended {
            Ok(appended) => Ok(appended),
            Err(error) => match error.kind() {
                ErrorKind::NotFound | ErrorKind::NotADirectory | ErrorKind::IsADirectory => {
                    Ok(false)
                }
                kind => Err(fault(&mut self.faults, kind)),
            },
        }
    }

    /// Two system calls: the first one looks whether it is a file, since the second would move a folder too. For a file that was made last,
    /// and for lock files in the order that `Disk` tells, the second alone. One more closes the file that was made last.
    fn rename(&mut self, from: &[u8], to: &[u8]) -> Result<Rename, FileError> {
        let renamed = match &self.made.take(from) {
            Some(from) => move_file(&self.rt, from, text_of(&mut self.faults, to)?),
            None => {
                let from = text_of(&mut self.faults, from)?;
                rename_file(&self.rt, from, text_of(&mut self.faults, to)?)
            }
        };
        match renamed {
            Ok(rename) => Ok(rename),
            Err(error) => Err(fault(&mut self.faults, error.kind())),
        }
    }

    /// Two system calls: the first one looks whether it is a file. For a file that was made last, and for lock files in the order that
    /// `Disk` tells, the second alone. One more closes the file that was made last.
    fn remove_file(&mut self, path: &[u8]) -> Result<bool, FileError> {
        let removed = match &self.made.take(path) {
            Some(path) => remove_made(&self.rt, path),
            None => remove_if_file(&self.rt, text_of(&mut self.faults, path)?),
        };
        match removed {
            Ok(removed) => Ok(removed),
            Err(error) => match error.kind() {
                ErrorKind::NotFound | ErrorKind::NotADirectory | ErrorKind::IsADirectory => {
                    Ok(false)
                }
                kind => Err(fault(&mut self.faults, kind)),
            },
        }
    }

    /// Four system calls: a look at what is there, open, `fsync` and close; one for the file that was made last, and none for a disk
    /// `without_syncs`.
    fn sync_file(&mut self, path: &[u8]) -> Result<bool, FileError> {
        if !self.syncs {
            return Ok(true);
        }
        match self.made.sync(path) {
            Some(Ok(())) => Ok(true),
            Some(Err(error)) => Err(fault(&mut self.faults, error.kind())),
            None => self.sync(path, Node::File),
        }
    }

    /// Three system calls: open, `fsync` and close; none for a disk `without_syncs`. The slash at the end of what is opened has the
    /// system refuse all that is no folder.
    fn sync_folder(&mut self, path: &[u8]) -> Result<bool, FileError> {
        if !self.syncs {
            return Ok(true);
        }
        if path.is_empty() {
            return Ok(false);
        }
        match with_slash(self.rt.alloc(), path) {
            Ok(folder) => {
                let folder = text_of(&mut self.faults, &folder)?;
                let synced = sync_open(&self.rt, folder);
                self.synced(synced)
            }
            Err(_) => self.sync(path, Node::Folder),
        }
    }

    /// One system call.
    fn remove_folder(&mut self, path: &[u8]) -> Result<bool, FileError> {
        self.folder = None;
        let path = text_of(&mut self.faults, path)?;
        match fs::remove_dir(&self.rt, path) {
            Ok(()) => Ok(true),
            Err(error) => match error.kind() {
                ErrorKind::NotFound | ErrorKind::NotADirectory | ErrorKind::DirectoryNotEmpty => {
                    Ok(false)
                }
                kind => Err(fault(&mut self.faults, kind)),
            },
        }
    }
}

/// What a path names. A FIFO, a socket and a device count as nothing.
fn node_of(about: &fs::Metadata) -> Node {
    if about.is_file() {
        Node::File
    } else if about.is_dir() {
        Node::Folder
    } else {
        Node::Nothing
    }
}

/// Reads a file into an empty buffer, after a look at what is there. A read that gives fewer bytes than were asked for
/// has come to the end of the file, so a small file takes one read.
fn read_into(rt: &HostRuntime, path: &str, buf: &mut Vec<u8>) -> io::Result<Node> {
    let about = fs::metadata(rt, path)?;
    let node = node_of(&about);
    if node != Node::File {
        return Ok(node);
    }
    let mut file = File::open(rt, path)?;
    let mut small = [0; 512];
    let len = file.read(&mut small)?;
    if len < small.len() {
        buf.extend_from_slice(&small[..len])?;
        return Ok(Node::File);
    }
    buf.reserve(about.len() as usize)?;
    buf.extend_from_slice(&small)?;
    file.read_to_end(buf)?;
    Ok(Node::File)
}

/// Whether this is the error of a network file system for a file that another machine has replaced since it was looked up.
fn is_stale(error: &io::Error) -> bool {
    error.kind() == ErrorKind::StaleNetworkFileHandle
}

/// Reads a file into an empty buffer; once more by its name where it was replaced meanwhile.
fn read_again_if_stale(rt: &HostRuntime, path: &str, buf: &mut Vec<u8>) -> io::Result<Node> {
    match read_into(rt, path, buf) {
        Err(error) if is_stale(&error) => {
            buf.clear();
            read_into(rt, path, buf)
        }
        read => read,
    }
}

/// Opens a file; once more by its name where it was replaced meanwhile.
fn open_again_if_stale(rt: &HostRuntime, path: &str) -> io::Result<Option<DiskReader>> {
    match open_file(rt, path) {
        Err(error) if is_stale(&error) => open_file(rt, path),
        opened => opened,
    }
}

/// Opens a file; `None` for what is no file.
fn open_file(rt: &HostRuntime, path: &str) -> io::Result<Option<DiskReader>> {
    let about = fs::metadata(rt, path)?;
    if !about.is_file() {
        return Ok(None);
    }
    let file = File::open(rt, path)?;
    // The length of the file that is open: another program may have put a new one in its place since the look.
    let len = file.metadata()?.len();
    Ok(Some(DiskReader {
        file,
        len,
        faults: Faults::new(),
    }))
}

/// Makes a file; an error where there is something.
fn make_file(rt: &HostRuntime, path: &str) -> io::Result<File> {
    OpenOptions::new()
        .append(true)
        .create_new(true)
        .open(rt, path)
}

/// Makes a folder and those above it, after a look; false where there is something else.
fn make_folders_at(rt: &HostRuntime, path: &str) -> io::Result<bool> {
    if let Ok(about) = fs::metadata(rt, path) {
        return Ok(about.is_dir());
    }
    fs::create_dir_all(rt, path)?;
    Ok(true)
}

/// Appends to a file; false where there is something else.
fn append_to(rt: &HostRuntime, path: &str, bytes: &[u8]) -> io::Result<bool> {
    if !fs::metadata(rt, path)?.is_file() {
        return Ok(false);
    }
    append_to_seen(rt, path, bytes)
}

/// Appends to what was seen to be a file.
fn append_to_seen(rt: &HostRuntime, path: &str, bytes: &[u8]) -> io::Result<bool> {
    let mut file = OpenOptions::new().append(true).open(rt, path)?;
    file.write_all(bytes)?;
    Ok(true)
}

/// The path with a slash after it.
fn with_slash(alloc: Global, path: &[u8]) -> Result<Vec<u8>, AllocError> {
    let mut slashed = Vec::with_capacity(alloc, path.len() + 1)?;
    slashed.extend_from_slice(path)?;
    slashed.push(b'/')?;
    Ok(slashed)
}

/// Syncs what is at a path; false where it is something else than what is asked for.
fn sync_at(rt: &HostRuntime, path: &str, what: Node) -> io::Result<bool> {
    if node_of(&fs::metadata(rt, path)?) != what {
        return Ok(false);
    }
    sync_open(rt, path)
}

/// Opens what is at a path and syncs it.
fn sync_open(rt: &HostRuntime, path: &str) -> io::Result<bool> {
    File::open(rt, path)?.sync_all()?;
    Ok(true)
}

/// Removes a file; false where there is something else.
fn remove_if_file(rt: &HostRuntime, path: &str) -> io::Result<bool> {
    if !fs::metadata(rt, path)?.is_file() {
        return Ok(false);
    }
    remove_made(rt, path)
}

/// Removes what is known to be a file.
fn remove_made(rt: &HostRuntime, path: &str) -> io::Result<bool> {
    fs::remove_file(rt, path)?;
    Ok(true)
}

/// Renames a file; an error where there is something else.
fn rename_file(rt: &HostRuntime, from: &str, to: &str) -> io::Result<Rename> {
    if !fs::metadata(rt, from)?.is_file() {
        return Err(io::Error::from(ErrorKind::IsADirectory));
    }
    move_file(rt, from, to)
}

/// Renames what is known to be a file.
fn move_file(rt: &HostRuntime, from: &str, to: &str) -> io::Result<Rename> {
    match fs::rename(rt, from, to) {
        Ok(()) => Ok(Rename::Moved),
        Err(error) if error.kind() == ErrorKind::IsADirectory => Ok(Rename::FolderStands),
        Err(error) => Err(error),
    }
}

/// The name in a listing of all entries whose names are not UTF-8: a byte that is in no UTF-8.
const NOT_UTF8: &[u8] = b"\xff";

/// Lists a folder. Entries whose names are not UTF-8 are one file, `NOT_UTF8`.
fn list_in(rt: &HostRuntime, alloc: Global, path: &str) -> io::Result<Vec<Entry>> {
    let mut entries = Vec::new(alloc);
    let mut has_other_names = false;
    for entry in fs::read_dir(rt, path)? {
        match entry {
            Ok(entry) => add_entry(alloc, &entry, &mut entries)?,
            Err(error) if error.kind() == ErrorKind::InvalidFilename => has_other_names = true,
            Err(error) => return Err(error),
        }
    }
    if has_other_names {
        let name = NOT_UTF8.to_vec(alloc)?;
        entries.push(Entry {
            name,
            is_folder: false,
        })?;
    }
    Ok(entries)
}

/// Adds an entry of a folder to a listing, if it is a file or a folder.
fn add_entry(
    alloc: Global,
    entry: &DirEntry<HostRuntime>,
    entries: &mut Vec<Entry>,
) -> io::Result<()> {
    let kind = match entry.file_type() {
        Ok(kind) => kind,
        // Another program has removed or renamed it since the folder was read.
        Err(error) if error.kind() == ErrorKind::NotFound => return Ok(()),
        Err(error) => return Err(error),
    };
    if kind.is_dir() || kind.is_file() {
        let name = entry.file_name().as_bytes().to_vec(alloc)?;
        let is_folder = kind.is_dir();
        entries.push(Entry { name, is_folder })?;
    }
    Ok(())
}
