//! The trait of a small file system: what each call returns, what it makes of the tree, what a stop could leave, and what a
//! loss of power could.
//!
//! A path is bytes, separated by slashes. Files mean a DISK (the tree, that is what is at each path, and what of it is
//! not synced), a CLOCK, and for each moment that has come the disks that a stop or a loss of power since then could have
//! found: a stop leaves the tree of such a disk, and a loss of power what may remain of it. HONEST files keep this meaning:
//! listings, kinds and reads show the tree, a call changes the disk as its contract says and in no other way, and nobody
//! else does. All that a contract says of the tree, of stops and of losses of power it says of honest files. What it says of the count of faults, of
//! want of memory and of buffers holds of all files. Whether a type's files are honest is said by the type: files
//! in memory are, and no program can know it of a disk.
ghost use Rattle.std.specs.Prelude.{◌≡◌, ℕ, IfOk, OnOk, MatchResult, length};

use std::alloc::Global;
use std::io::ErrorKind;
use thiserror::Error;

/// Why a call of files failed. As `io::Error`.
#[derive(Clone, Copy, Debug, PartialEq, Eq, Error)]
pub enum FileError {
    /// The device failed, or it cannot do what was asked. Counted.
    #[error("device fault: {0:?}")]
    Device(ErrorKind),
    /// A path or a name that is not UTF-8, on a device that takes only such. Counted.
    #[error("a name that is not UTF-8")]
    NotUtf8,
    /// An allocation of the caller was refused. Not counted, and returned only by calls that take an allocator.
    #[error("out of memory")]
    Memory,
}

/// What is at a path. As `fs::FileType`.
#[derive(Clone, Copy, Debug, PartialEq, Eq)]
pub enum Node {
    /// A file.
    File,
    /// A folder.
    Folder,
    /// Nothing, and no file in the path.
    Nothing,
    /// Nothing, since a file is in the path.
    Blocked,
}

/// The results of `create_new`. As the results of `File::create_new`.
#[derive(Clone, Copy, Debug, PartialEq, Eq)]
pub enum Create {
    /// An empty file was made.
    Made,
    /// Something is there already.
    Standing,
    /// A file is in the path.
    Blocked,
}

/// The results of `rename`. As the results of `fs::rename`.
#[derive(Clone, Copy, Debug, PartialEq, Eq)]
pub enum Rename {
    /// The file was moved.
    Moved,
    /// A folder is where it was to go.
    FolderStands,
}

/// A file or a folder in a listing. As `fs::DirEntry`.
#[derive(Debug, Drop)]
pub struct Entry {
    /// Its name in the folder: at least one byte, and no slash.
    pub name: Vec<u8>,
    /// It is a folder, and else a file.
    pub is_folder: bool,
}

/// A file that is open for reading at any place. As `FileExt` of `std::os::unix::fs`.
pub trait ReadAt {
    ghost use Rattle.std.specs.Prelude.{List};
    ghost use Rattle.gix_ref_files.specs.Files.{FaultCounts, CountsCall};
    ghost use Rattle.gix_ref_files.specs.Calls.{IsRead};

    /// Reads return the bytes.
    ghost honest: { Type 0 };

    /// The bytes of the file.
    ghost bytes: { Self → List ℕ };

    /// How many bytes there are, as the reader learned when it was opened.
    ghost size: { Self → ℕ };

    /// The faults that this reader met.
    ghost faults: { Self → FaultCounts };

    /// The number of bytes, known since the file was opened. As `Metadata::len`.
    fn len(&self) -> u64
        ensures size { result ≡ size self.now }
        ensures bytes { honest → result ≡ length (bytes self.now) };

    /// Fills the buffer with the bytes from a place on (`FileExt::read_exact_at`). Where the file ends before the
    /// buffer is full, or the device fails, this is a `Device` fault, and the buffer may hold anything.
    fn read_exact_at(&mut self, place: u64, buf: &mut [u8]) -> Result<(), FileError>
        ensures bytes { honest → OnOk result (IsRead (bytes self.old) place buf.new) }
        ensures same { bytes self.new ≡ bytes self.old }
        ensures size { size self.new ≡ size self.old }
        ensures count { CountsCall result (faults self.old) (faults self.new) };
}

/// A small file system. As the functions of `std::fs`.
///
/// A call that takes an allocator returns `Memory` where an allocation was refused; no other call does. A `Device` fault
/// comes where the device fails, and where the tree allows no other result, as for a file to be made in a folder
/// that is not there. It and `NotUtf8` count one fault.
///
/// ```text
/// match files.read(alloc, b".git/HEAD", &mut buf)? {
///     Node::File => println!(rt; "{}", buf.as_slice().as_bstr())?,
///     Node::Folder | Node::Nothing | Node::Blocked => println!(rt; "no file")?,
/// }
/// ```
pub trait Files {
    ghost use Rattle.std.specs.Prelude.{◌≤◌};
    ghost use Rattle.gix_ref_files.specs.Tree.{Tree, IsShaped, node_at, is_file, is_folder};
    ghost use Rattle.gix_ref_files.specs.Disk.{Disk, file_synced, folder_synced};
    ghost use Rattle.gix_ref_files.specs.DiskCalls.{Untouched, after_create, CreatingOn, after_folders, MakingFoldersOn, after_append, AppendingOn, after_rename, RenamingOn, after_removal, RemovingFileOn, RemovingFolderOn, Syncs, SyncingOn};
    ghost use Rattle.gix_ref_files.specs.Files.{Meaning, disk_of, left_since, AtEveryStop, Adds, OnEveryDisk, AddsDisks, FaultCounts, CountsCall, count_after, DiskBecomes};
    ghost use Rattle.gix_ref_files.specs.Calls.{Unchanged, Reads, emptied, Opens, Creates, Creating, MakesFolders, MakingFolders, Appends, Appending, Renames, Renaming, RemovesFile, RemovingFile, RemovesFolder, RemovingFolder, Lists};

    /// A file of these, open for reading.
    type Reader: ReadAt + Drop;

    /// These files keep their meaning.
    ghost honest: { Type 0 };

    /// The disk, the clock, and the disks that a stop or a loss of power could have found.
    ghost means: { Self → Meaning };

    /// The faults that there were.
    ghost faults: { Self → FaultCounts };

    /// Returns what is at a path. As `fs::metadata`.
    ///
    /// ```text
    /// files.kind(b".git/refs/heads")? // Node::Folder
    /// ```
    fn kind(&mut self, path: &[u8]) -> Result<Node, FileError>
        ensures answer { honest → IfOk result
            (λ node. node ≡ node_at (means self.old).tree path.now) }
        ensures leaves { honest → AtEveryStop means self.old self.new Unchanged }
        ensures passes { honest → OnEveryDisk means self.old self.new Untouched }
        ensures count { CountsCall result (faults self.old) (faults self.new) };

    /// Returns what is at a path, and where it is a file replaces the content of the buffer with its bytes
    /// (`fs::read`). With every other result, and after an error, the buffer is empty.
    fn read(&mut self, alloc: Global, path: &[u8], buf: &mut Vec<u8>) -> Result<Node, FileError>
        ensures answer { honest →
            IfOk result (Reads (means self.old).tree path.now buf.new.items) }
        ensures emptied { emptied result buf.new.items }
        ensures leaves { honest → AtEveryStop means self.old self.new Unchanged }
        ensures passes { honest → OnEveryDisk means self.old self.new Untouched }
        ensures count { faults self.new ≡ count_after result (faults self.old) };

    /// Opens a file for reading (`File::open`); `None` where there is no file.
    fn open(&mut self, alloc: Global, path: &[u8]) -> Result<Option<Self::Reader>, FileError>
        ensures answer { honest → IfOk result (λ reader. Opens Self.Reader.honest Self.Reader.bytes
            (means self.old).tree path.now reader) }
        ensures leaves { honest → AtEveryStop means self.old self.new Unchanged }
        ensures passes { honest → OnEveryDisk means self.old self.new Untouched }
        ensures count { faults self.new ≡ count_after result (faults self.old) };

    /// Lists the files and folders in a folder, each once, in an unspecified order (`fs::read_dir`); `None` where there
    /// is no folder.
    fn list(&mut self, alloc: Global, path: &[u8]) -> Result<Option<Vec<Entry>>, FileError>
        ensures answer { honest → IfOk result (Lists (means self.old).tree path.now) }
        ensures leaves { honest → AtEveryStop means self.old self.new Unchanged }
        ensures passes { honest → OnEveryDisk means self.old self.new Untouched }
        ensures count { faults self.new ≡ count_after result (faults self.old) };

    /// Makes an empty file where there is nothing and folders lead there (`File::create_new`). A fault leaves all as
    /// before.
    fn create_new(&mut self, path: &[u8]) -> Result<Create, FileError>
        ensures answer { honest → MatchResult result
            (Creates (means self.old).tree path.now (means self.new).tree)
            (λ _. (means self.new).tree ≡ (means self.old).tree) }
        ensures leaves { honest → AtEveryStop means self.old self.new (λ T. Creating T path.now) }
        ensures disk { honest → IfOk result
            (λ create. DiskBecomes means self.old self.new (λ D. after_create D path.now create)) }
        ensures passes { honest → OnEveryDisk means self.old self.new (λ D. CreatingOn D path.now) }
        ensures count { CountsCall result (faults self.old) (faults self.new) };

    /// Makes the folders that lead to a path, and one there, where they do not exist (`fs::create_dir_all`); false
    /// where a file is in the way. A fault leaves a beginning of them, the outermost first.
    fn make_folders(&mut self, path: &[u8]) -> Result<bool, FileError>
        ensures answer { honest → IfOk result
            (MakesFolders (means self.old).tree path.now (means self.new).tree) }
        ensures leaves { honest → AtEveryStop means self.old self.new
            (λ T. MakingFolders T path.now) }
        ensures adds { honest → OnOk result (Adds (means self.old) (means self.new)
            (MakingFolders (means self.old).tree path.now)) }
        ensures disk { honest → IfOk result
            (λ made. DiskBecomes means self.old self.new (λ D. after_folders D path.now made)) }
        ensures passes { honest → OnEveryDisk means self.old self.new
            (λ D. MakingFoldersOn D path.now) }
        ensures adds_disks { honest → OnOk result (AddsDisks (means self.old) (means self.new)
            (MakingFoldersOn (disk_of (means self.old)) path.now)) }
        ensures count { CountsCall result (faults self.old) (faults self.new) };

    /// Adds bytes to the end of a file; false where there is no file. A fault leaves any beginning of them there. As
    /// `Write::write_all` to a file that is open for appending.
    fn append(&mut self, path: &[u8], bytes: &[u8]) -> Result<bool, FileError>
        ensures answer { honest → IfOk result
            (Appends (means self.old).tree path.now bytes.now (means self.new).tree) }
        ensures leaves { honest → AtEveryStop means self.old self.new
            (λ T. Appending T path.now bytes.now) }
        ensures adds { honest → OnOk result (Adds (means self.old) (means self.new)
            (Appending (means self.old).tree path.now bytes.now)) }
        ensures disk { honest → IfOk result (λ there. DiskBecomes means self.old self.new
            (λ D. after_append D path.now bytes.now there)) }
        ensures passes { honest → OnEveryDisk means self.old self.new
            (λ D. AppendingOn D path.now bytes.now) }
        ensures adds_disks { honest → OnOk result (AddsDisks (means self.old) (means self.new)
            (AppendingOn (disk_of (means self.old)) path.now bytes.now)) }
        ensures count { CountsCall result (faults self.old) (faults self.new) };

    /// Moves a file, also onto a file (`fs::rename`). A fault leaves the tree before or the tree after.
    fn rename(&mut self, from: &[u8], to: &[u8]) -> Result<Rename, FileError>
        ensures answer { honest → IfOk result
            (Renames (means self.old).tree from.now to.now (means self.new).tree) }
        ensures leaves { honest → AtEveryStop means self.old self.new
            (λ T. Renaming T from.now to.now) }
        ensures disk { honest → IfOk result (λ rename. DiskBecomes means self.old self.new
            (λ D. after_rename D from.now to.now rename)) }
        ensures passes { honest → OnEveryDisk means self.old self.new
            (λ D. RenamingOn D from.now to.now) }
        ensures count { CountsCall result (faults self.old) (faults self.new) };

    /// Removes a file (`fs::remove_file`); false where there is no file. A fault leaves the tree before or the tree
    /// after.
    fn remove_file(&mut self, path: &[u8]) -> Result<bool, FileError>
        ensures answer { honest → IfOk result
            (RemovesFile (means self.old).tree path.now (means self.new).tree) }
        ensures leaves { honest → AtEveryStop means self.old self.new
            (λ T. RemovingFile T path.now) }
        ensures disk { honest → IfOk result (λ removed. DiskBecomes means self.old self.new
            (λ D. after_removal D path.now removed)) }
        ensures passes { honest → OnEveryDisk means self.old self.new
            (λ D. RemovingFileOn D path.now) }
        ensures count { CountsCall result (faults self.old) (faults self.new) };

    /// Removes an empty folder (`fs::remove_dir`); false where there is no empty folder. A fault leaves the tree before
    /// or the tree after.
    fn remove_folder(&mut self, path: &[u8]) -> Result<bool, FileError>
        ensures answer { honest → IfOk result
            (RemovesFolder (means self.old).tree path.now (means self.new).tree) }
        ensures leaves { honest → AtEveryStop means self.old self.new
            (λ T. RemovingFolder T path.now) }
        ensures disk { honest → IfOk result (λ removed. DiskBecomes means self.old self.new
            (λ D. after_removal D path.now removed)) }
        ensures passes { honest → OnEveryDisk means self.old self.new
            (λ D. RemovingFolderOn D path.now) }
        ensures count { CountsCall result (faults self.old) (faults self.new) };

    /// Makes sure of the bytes of a file (`File::sync_all`): a loss of power leaves those that it has now. False where there is
    /// no file. A fault makes sure of nothing.
    fn sync_file(&mut self, path: &[u8]) -> Result<bool, FileError>
        ensures answer { honest → Syncs (is_file ((means self.old).tree path.now))
            (disk_of (means self.old)) (file_synced (disk_of (means self.old)) path.now)
            (disk_of (means self.new)) result }
        ensures leaves { honest → AtEveryStop means self.old self.new Unchanged }
        ensures passes { honest → OnEveryDisk means self.old self.new
            (λ D. SyncingOn (is_file ((means self.old).tree path.now)) D (file_synced D path.now)) }
        ensures count { CountsCall result (faults self.old) (faults self.new) };

    /// Makes sure of the entries of a folder (`File::sync_all` on the folder): a loss of power that leaves the folder leaves
    /// them as they are now. False where there is no folder. A fault makes sure of nothing.
    fn sync_folder(&mut self, path: &[u8]) -> Result<bool, FileError>
        ensures answer { honest → Syncs (is_folder ((means self.old).tree path.now))
            (disk_of (means self.old)) (folder_synced (disk_of (means self.old)) path.now)
            (disk_of (means self.new)) result }
        ensures leaves { honest → AtEveryStop means self.old self.new Unchanged }
        ensures passes { honest → OnEveryDisk means self.old self.new (λ D. SyncingOn
            (is_folder ((means self.old).tree path.now)) D (folder_synced D path.now)) }
        ensures count { CountsCall result (faults self.old) (faults self.new) };

    /// The tree is in every set of a moment that has come.
    ghost tree_is_left: { (files : Self) (t : ℕ) → honest → t ≤ (means files).moment →
        left_since (means files) t (means files).tree };

    /// Since this moment there is no other.
    ghost only_now: { (files : Self) (T : Tree) → honest →
        left_since (means files) (means files).moment T → T ≡ (means files).tree };

    /// The disk is among those that are found since any moment that has come.
    ghost disk_is_found: { (files : Self) (t : ℕ) → honest → t ≤ (means files).moment →
        (means files).found_since t (disk_of (means files)) };

    /// Since this moment no other disk is found.
    ghost only_disk: { (files : Self) (D : Disk) → honest →
        (means files).found_since (means files).moment D → D ≡ disk_of (means files) };

    /// Every proper front of a path that exists is a folder.
    ghost shaped: { (files : Self) → honest → IsShaped (means files).tree };
}
