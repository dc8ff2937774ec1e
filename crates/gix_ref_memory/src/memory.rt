//! Files in memory, which keep every change, and fail or stop at a call that the caller chooses.
ghost use Rattle.std.specs.Prelude.{◌≡◌};
ghost use Rattle.gix_ref_files.specs.Tree.{IsShaped, no_tree};
ghost use Rattle.gix_ref_files.specs.Disk.{no_disk};
ghost use Rattle.gix_ref_memory.specs.Changes.{after_changes};

mod births;
mod changes;
mod edits;
mod folders;
mod listing;
mod power;
mod reader;
mod sure;
mod turns;

use changes::{Change, Present, find, is_below_file, is_folder_at};
use edits::{
    append_now, append_some, create_now, put_now, remove_file_now, remove_folder_now, rename_now,
    sync_file_now, sync_folder_now,
};
use folders::{make_folders_now, make_some_folders};
use gix_ref_files::faults::Faults;
use gix_ref_files::files::{Create, Entry, FileError, Files, Node, Rename};
use listing::list_now;
use power::left_by_loss;
pub use reader::MemoryReader;
use std::alloc::Global;
use std::fmt;
use std::io::ErrorKind;
use turns::{Plan, Turn, Turns};

/// Files in memory. They are honest: they keep the contract of `Files` and claim to. Not in gix-ref, whose tests use
/// the disk.
///
/// They start as an empty tree and keep every change and every sync since, so that the clock, and what a stop or a loss of
/// power could have left, are functions of what they hold. A look-up costs time in proportion to the changes, a listing to their square: this is
/// the file system of tests.
#[derive(Drop)]
pub struct Memory {
    alloc: Global,
    changes: Vec<Change>,
    turns: Turns,
    ghost shaped: { IsShaped (after_changes changes.items no_tree) },
}

impl fmt::Debug for Memory {
    fn fmt<W: fmt::Write>(&self, f: &mut fmt::Formatter<W>) -> fmt::Result {
        f.write_str("Memory")
    }
}

impl Memory {
    ghost use Rattle.std.specs.Prelude.{◌+◌, ◌<◌, ◌-◌, ◌^◌, Some, OnOk, IfOk, IfSome, IfNone, false, if◌then◌else◌, min};
    ghost use Rattle.gix_ref_files.specs.Tree.{is_file};
    ghost use Rattle.gix_ref_files.specs.Tree.Content.{File};
    ghost use Rattle.gix_ref_files.specs.Disk.{Lost};
    ghost use Rattle.gix_ref_files.specs.Losing.{lost_by};
    ghost use Rattle.gix_ref_files.specs.Files.{disk_of, no_faults};
    ghost use Rattle.gix_ref_memory.specs.Changes.{Puts, placed_on};
    ghost use Rattle.gix_ref_memory.specs.Memory.{meaning, tree_in, calls_of, faults_of, plan_of, KeepsFiles, KeepsCounts, FailsOnlyForMemory, IsStartedAgain};
    ghost use Rattle.gix_ref_memory.specs.declared.memory.turns.Plan.TheVariants.{Runs, FailsAt, StopsAt};

    /// An empty tree, all of it synced, of which no call fails. The allocator is kept for the tree and its record.
    ///
    /// ```text
    /// let mut files = Memory::new(alloc);
    /// files.put(b"/r/refs/heads/main", b"1111111111111111111111111111111111111111\n")?;
    /// let store = Store::at(files, b"/r".to_vec(alloc)?, Kind::Sha1)?;
    /// ```
    pub fn new(alloc: Global) -> Self
        ensures tree { tree_in result ≡ no_tree }
        ensures disk { disk_of (meaning result) ≡ no_disk }
        ensures calls { calls_of result ≡ 0 }
        ensures faults { faults_of result ≡ no_faults }
        ensures plan { plan_of result ≡ Runs }
    {
        let turns = Turns {
            plan: Plan::Runs,
            calls: 0,
            faults: Faults::new(),
        };
        Memory {
            alloc,
            changes: Vec::new(alloc),
            turns,
        }
    }

    /// Puts a file with these bytes at a path, in place of a file that is there, and makes the folders that lead
    /// to it, all of it synced; false, and nothing changed, where a folder is at the path or a file in it. It is no call of files,
    /// so it is not counted, and no plan has it fail. `Memory` where an allocation was refused; then nothing has changed. As
    /// `fs::write` after `fs::create_dir_all`.
    ///
    /// ```text
    /// let mut files = Memory::new(alloc);
    /// files.put(b"/r/HEAD", b"ref: refs/heads/main\n")?; // makes the folder `/r` too
    /// ```
    pub fn put(&mut self, path: &[u8], bytes: &[u8]) -> Result<bool, FileError>
        ensures answer { IfOk result
            (Puts (tree_in self.old) path.now bytes.now (tree_in self.new)) }
        ensures disk { IfOk result (λ put. disk_of (meaning self.new) ≡ (if put then placed_on
            (disk_of (meaning self.old)) path.now bytes.now else disk_of (meaning self.old))) }
        ensures failed { FailsOnlyForMemory self.old self.new result }
        ensures counts { KeepsCounts self.old self.new }
        ensures plan { plan_of self.new ≡ plan_of self.old }
    {
        match put_now(self.alloc, &mut self.changes, path, bytes) {
            Ok(put) => Ok(put),
            Err(_) => Err(FileError::Memory),
        }
    }

    /// The bytes of the file at a path; `None` where there is no file. As `fs::read`, lent.
    ///
    /// ```text
    /// let files = store.into_files();
    /// files.get(b"/r/HEAD") // Some(b"ref: refs/heads/main\n")
    /// ```
    pub fn get(&self, path: &[u8]) -> Option<&[u8]>
        ensures found { IfSome result (λ bytes. tree_in self.now path.now ≡ Some (File bytes.now)) }
        ensures none { IfNone result (is_file (tree_in self.now path.now) ≡ false) }
    {
        match find(&self.changes, path) {
            Some(Present::FileOf(bytes)) => Some(bytes),
            _ => None,
        }
    }

    /// The number of calls of files so far, of those that failed too.
    pub fn calls(&self) -> u64
        ensures { result ≡ calls_of self.now }
    {
        self.turns.calls
    }

    /// Has the kth call from now fail, and do nothing. This takes the place of an earlier plan.
    ///
    /// ```text
    /// files.fail_at(3); // two calls more are done, and the third fails
    /// ```
    pub fn fail_at(&mut self, k: u64)
        ensures plan { plan_of self.new ≡ FailsAt (min (calls_of self.old + k) (2 ^ 64 - 1)) }
        ensures same { KeepsFiles self.old self.new }
    {
        self.turns.plan = Plan::FailsAt(self.turns.calls.saturating_add(k));
    }

    /// Has the kth call from now do its first n parts and fail, and every later call fail. Parts are the bytes of an
    /// append or the folders that lead to a path and the one there, also those that exist; any other call that changes
    /// the tree does all of it where n is not 0, and nothing where it is, and `create_new` and the syncs always nothing.
    /// This takes the place of an earlier plan.
    ///
    /// ```text
    /// files.stop_at(3, 5); // the third call, an append, writes five bytes; then the process is dead
    /// ```
    pub fn stop_at(&mut self, k: u64, n: usize)
        ensures plan { plan_of self.new ≡ StopsAt (min (calls_of self.old + k) (2 ^ 64 - 1)) n }
        ensures same { KeepsFiles self.old self.new }
    {
        self.turns.plan = Plan::StopsAt(self.turns.calls.saturating_add(k), n);
    }

    /// Loses power, between calls or after a stop, and starts again as `restart` does. `Memory` where an allocation was refused; then
    /// nothing has changed.
    ///
    /// Entries of folders that are unsynced, and ends of files that are, are numbered from 0 in the order of their first
    /// unsynced change; of one rename the old path comes before the new one. Number i keeps its new state where bit `i mod 64`
    /// of `pick` is 1; else an entry is as its folder's last sync found it, and the bytes that were not synced become as many
    /// bytes 0x3F. With a folder's own entry goes all below it. What is left is synced.
    ///
    /// ```text
    /// files.append(b"/r/HEAD", b"more")?;
    /// files.lose_power(0)?; // of `more` four question marks are left
    /// ```
    pub fn lose_power(&mut self, pick: u64) -> Result<(), FileError>
        ensures lost { OnOk result (Lost (disk_of (meaning self.old)) (tree_in self.new)) }
        ensures none { pick ≡ 0 → OnOk result
            (tree_in self.new ≡ lost_by (λ p. false) (λ p. false) (disk_of (meaning self.old))) }
        ensures started { OnOk result (IsStartedAgain self.new) }
        ensures failed { FailsOnlyForMemory self.old self.new result }
        ensures counts { KeepsCounts self.old self.new }
    {
        match left_by_loss(self.alloc, &self.changes, pick) {
            Ok(left) => {
                self.changes = left;
                self.turns.plan = Plan::Runs;
                Ok(())
            }
            Err(_) => Err(FileError::Memory),
        }
    }

    /// Has no call fail or stop any more, as after the process was started again. The tree stays.
    ///
    /// ```text
    /// files.restart(); // and look at what the stop left
    /// ```
    pub fn restart(&mut self)
        ensures plan { plan_of self.new ≡ Runs }
        ensures same { KeepsFiles self.old self.new }
    {
        self.turns.plan = Plan::Runs;
    }
}

impl Files for Memory {
    ghost use Rattle.std.specs.Prelude.{take, false, true, IfOk, IfSome, MatchResult};
    ghost use Rattle.gix_ref_files.specs.Tree.{node_at, is_file, appended, moved, removed, is_folder, folders_to, with_folders, IsEmptyFolder};
    ghost use Rattle.gix_ref_files.specs.Files.{disk_of, Leaves, Passes};
    ghost use Rattle.gix_ref_files.specs.Disk.{file_synced, folder_synced};
    ghost use Rattle.gix_ref_files.specs.DiskCalls.{Untouched, after_create, CreatingOn, after_folders, MakingFoldersOn, after_append, AppendingOn, after_rename, RenamingOn, after_removal, RemovingFileOn, RemovingFolderOn, Syncs, SyncingOn};
    ghost use Rattle.gix_ref_files.specs.Calls.{Unchanged, Reads, emptied, Opens, Creates, Creating, MakesFolders, MakingFolders, is_in_the_way, Appends, Appending, Renames, Renaming, IsMovable, RemovesFile, RemovingFile, RemovesFolder, RemovingFolder, Lists};
    ghost use Rattle.gix_ref_memory.specs.Laws.{tree_is_left, only_tree, disk_is_found, only_disk};
    ghost use Rattle.gix_ref_memory.specs.Turns.{NeverFails, CannotGrow, CannotCreate, CannotRename, AsBefore, InOneStep, IsDone};
    ghost use Rattle.gix_ref_memory.specs.Memory.{meaning, tree_in, faults_of, TakesTurn, TakesTurnToCopy};
    ghost use Rattle.gix_ref_memory.specs.Calls.{LeavesEach, PassesEach};
    ghost use Rattle.gix_ref_memory.specs.Reader.{reader_bytes, IsJustOpened};

    type Reader = MemoryReader;

    ghost honest = { Unit {0} };

    ghost means = { meaning };

    ghost faults = { faults_of };

    ghost tree_is_left = { λ m t honest le. tree_is_left m.changes.items t };

    ghost only_now = { λ m T honest left. only_tree m.changes.items T left };

    ghost disk_is_found = { λ m t honest le. disk_is_found m.changes.items t };

    ghost only_disk = { λ m D honest found. only_disk m.changes.items D found };

    ghost shaped = { λ m honest. m.shaped };

    fn kind(&mut self, path: &[u8]) -> Result<Node, FileError>
        ensures answer { IfOk result (λ node. node ≡ node_at (tree_in self.old) path.now) }
        ensures leaves { Leaves (meaning self.old) (meaning self.new)
            (Unchanged (tree_in self.old)) }
        ensures passes { Passes (meaning self.old) (meaning self.new)
            (Untouched (disk_of (meaning self.old))) }
        ensures turn { TakesTurn NeverFails NeverFails (AsBefore (tree_in self.old))
            self.old self.new result }
    {
        if self.turns.next() != Turn::Go {
            return Err(self.turns.fault(ErrorKind::Other));
        }
        Ok(match find(&self.changes, path) {
            Some(Present::FileOf(_)) => Node::File,
            Some(Present::FolderOf) => Node::Folder,
            None if is_below_file(&self.changes, path) => Node::Blocked,
            None => Node::Nothing,
        })
    }

    fn read(&mut self, _alloc: Global, path: &[u8], buf: &mut Vec<u8>) -> Result<Node, FileError>
        ensures answer { IfOk result (Reads (tree_in self.old) path.now buf.new.items) }
        ensures emptied { emptied result buf.new.items }
        ensures leaves { Leaves (meaning self.old) (meaning self.new)
            (Unchanged (tree_in self.old)) }
        ensures passes { Passes (meaning self.old) (meaning self.new)
            (Untouched (disk_of (meaning self.old))) }
        ensures turn { TakesTurnToCopy self.old self.new result }
    {
        buf.clear();
        if self.turns.next() != Turn::Go {
            return Err(self.turns.fault(ErrorKind::Other));
        }
        match find(&self.changes, path) {
            Some(Present::FileOf(bytes)) => match buf.extend_from_slice(bytes) {
                Ok(()) => Ok(Node::File),
                Err(_) => Err(FileError::Memory),
            },
            Some(Present::FolderOf) => Ok(Node::Folder),
            None if is_below_file(&self.changes, path) => Ok(Node::Blocked),
            None => Ok(Node::Nothing),
        }
    }

    fn open(&mut self, alloc: Global, path: &[u8]) -> Result<Option<MemoryReader>, FileError>
        ensures answer { IfOk result
            (λ reader. Opens (Unit {0}) reader_bytes (tree_in self.old) path.now reader) }
        ensures leaves { Leaves (meaning self.old) (meaning self.new)
            (Unchanged (tree_in self.old)) }
        ensures passes { Passes (meaning self.old) (meaning self.new)
            (Untouched (disk_of (meaning self.old))) }
        ensures turn { TakesTurnToCopy self.old self.new result }
        ensures opened { IfOk result (λ reader. IfSome reader (IsJustOpened self.new)) }
    {
        if self.turns.next() != Turn::Go {
            return Err(self.turns.fault(ErrorKind::Other));
        }
        let Some(Present::FileOf(bytes)) = find(&self.changes, path) else {
            return Ok(None);
        };
        let turns = Turns {
            faults: Faults::new(),
            ..self.turns
        };
        match bytes.to_vec(alloc) {
            Ok(bytes) => Ok(Some(MemoryReader { bytes, turns })),
            Err(_) => Err(FileError::Memory),
        }
    }

    fn list(&mut self, alloc: Global, path: &[u8]) -> Result<Option<Vec<Entry>>, FileError>
        ensures answer { IfOk result (Lists (tree_in self.old) path.now) }
        ensures leaves { Leaves (meaning self.old) (meaning self.new)
            (Unchanged (tree_in self.old)) }
        ensures passes { Passes (meaning self.old) (meaning self.new)
            (Untouched (disk_of (meaning self.old))) }
        ensures turn { TakesTurnToCopy self.old self.new result }
    {
        if self.turns.next() != Turn::Go {
            return Err(self.turns.fault(ErrorKind::Other));
        }
        if !is_folder_at(&self.changes, path) {
            return Ok(None);
        }
        match list_now(alloc, &self.changes, path) {
            Ok(entries) => Ok(Some(entries)),
            Err(_) => Err(FileError::Memory),
        }
    }

    fn create_new(&mut self, path: &[u8]) -> Result<Create, FileError>
        ensures answer { MatchResult result
            (Creates (tree_in self.old) path.now (tree_in self.new))
            (λ error. tree_in self.new ≡ tree_in self.old) }
        ensures leaves { Leaves (meaning self.old) (meaning self.new)
            (Creating (tree_in self.old) path.now) }
        ensures disk { IfOk result (λ create. disk_of (meaning self.new)
            ≡ after_create (disk_of (meaning self.old)) path.now create) }
        ensures passes { Passes (meaning self.old) (meaning self.new)
            (CreatingOn (disk_of (meaning self.old)) path.now) }
        ensures turn { TakesTurn (CannotCreate (tree_in self.old) path.now) NeverFails
            (AsBefore (tree_in self.old)) self.old self.new result }
    {
        if self.turns.next() != Turn::Go {
            return Err(self.turns.fault(ErrorKind::Other));
        }
        match create_now(self.alloc, &mut self.changes, path) {
            Ok(Some(create)) => Ok(create),
            Ok(None) => Err(self.turns.fault(ErrorKind::NotFound)),
            Err(_) => Err(self.turns.fault(ErrorKind::OutOfMemory)),
        }
    }

    fn make_folders(&mut self, path: &[u8]) -> Result<bool, FileError>
        ensures answer { IfOk result (MakesFolders (tree_in self.old) path.now (tree_in self.new)) }
        ensures leaves { LeavesEach (meaning self.old) (meaning self.new)
            (MakingFolders (tree_in self.old) path.now) result }
        ensures disk { IfOk result (λ made. disk_of (meaning self.new)
            ≡ after_folders (disk_of (meaning self.old)) path.now made) }
        ensures passes { PassesEach (meaning self.old) (meaning self.new)
            (MakingFoldersOn (disk_of (meaning self.old)) path.now) result }
        ensures turn { TakesTurn CannotGrow CannotGrow
            (λ n. IsDone (tree_in self.old) (is_in_the_way (tree_in self.old) path.now ≡ false)
            (with_folders (tree_in self.old) (take n (folders_to path.now))))
            self.old self.new result }
    {
        match self.turns.next() {
            Turn::Go => match make_folders_now(self.alloc, &mut self.changes, path) {
                Ok(made) => Ok(made),
                Err(_) => Err(self.turns.fault(ErrorKind::OutOfMemory)),
            },
            Turn::Stop(n) => match make_some_folders(self.alloc, &mut self.changes, path, n) {
                Ok(()) => Err(self.turns.fault(ErrorKind::Other)),
                Err(_) => Err(self.turns.fault(ErrorKind::OutOfMemory)),
            },
            Turn::Fail => Err(self.turns.fault(ErrorKind::Other)),
        }
    }

    fn append(&mut self, path: &[u8], bytes: &[u8]) -> Result<bool, FileError>
        ensures answer { IfOk result
            (Appends (tree_in self.old) path.now bytes.now (tree_in self.new)) }
        ensures leaves { LeavesEach (meaning self.old) (meaning self.new)
            (Appending (tree_in self.old) path.now bytes.now) result }
        ensures disk { IfOk result (λ there. disk_of (meaning self.new)
            ≡ after_append (disk_of (meaning self.old)) path.now bytes.now there) }
        ensures passes { PassesEach (meaning self.old) (meaning self.new)
            (AppendingOn (disk_of (meaning self.old)) path.now bytes.now) result }
        ensures turn { TakesTurn CannotGrow CannotGrow
            (λ n T. T ≡ appended (tree_in self.old) path.now (take n bytes.now))
            self.old self.new result }
    {
        match self.turns.next() {
            Turn::Go => match append_now(self.alloc, &mut self.changes, path, bytes) {
                Ok(there) => Ok(there),
                Err(_) => Err(self.turns.fault(ErrorKind::OutOfMemory)),
            },
            Turn::Stop(n) => match append_some(self.alloc, &mut self.changes, path, bytes, n) {
                Ok(()) => Err(self.turns.fault(ErrorKind::Other)),
                Err(_) => Err(self.turns.fault(ErrorKind::OutOfMemory)),
            },
            Turn::Fail => Err(self.turns.fault(ErrorKind::Other)),
        }
    }

    fn rename(&mut self, from: &[u8], to: &[u8]) -> Result<Rename, FileError>
        ensures answer { IfOk result
            (Renames (tree_in self.old) from.now to.now (tree_in self.new)) }
        ensures leaves { Leaves (meaning self.old) (meaning self.new)
            (Renaming (tree_in self.old) from.now to.now) }
        ensures disk { IfOk result (λ rename. disk_of (meaning self.new)
            ≡ after_rename (disk_of (meaning self.old)) from.now to.now rename) }
        ensures passes { Passes (meaning self.old) (meaning self.new)
            (RenamingOn (disk_of (meaning self.old)) from.now to.now) }
        ensures turn { TakesTurn (CannotRename (tree_in self.old) from.now to.now) CannotGrow
            (InOneStep (tree_in self.old) (IsMovable (tree_in self.old) from.now to.now)
            (moved (tree_in self.old) from.now to.now)) self.old self.new result }
    {
        match self.turns.next() {
            Turn::Go => match rename_now(self.alloc, &mut self.changes, from, to) {
                Ok(Some(rename)) => Ok(rename),
                Ok(None) => Err(self.turns.fault(ErrorKind::NotFound)),
                Err(_) => Err(self.turns.fault(ErrorKind::OutOfMemory)),
            },
            Turn::Fail | Turn::Stop(0) => Err(self.turns.fault(ErrorKind::Other)),
            Turn::Stop(_) => match rename_now(self.alloc, &mut self.changes, from, to) {
                Ok(_) => Err(self.turns.fault(ErrorKind::Other)),
                Err(_) => Err(self.turns.fault(ErrorKind::OutOfMemory)),
            },
        }
    }

    fn remove_file(&mut self, path: &[u8]) -> Result<bool, FileError>
        ensures answer { IfOk result (RemovesFile (tree_in self.old) path.now (tree_in self.new)) }
        ensures leaves { Leaves (meaning self.old) (meaning self.new)
            (RemovingFile (tree_in self.old) path.now) }
        ensures disk { IfOk result (λ removed. disk_of (meaning self.new)
            ≡ after_removal (disk_of (meaning self.old)) path.now removed) }
        ensures passes { Passes (meaning self.old) (meaning self.new)
            (RemovingFileOn (disk_of (meaning self.old)) path.now) }
        ensures turn { TakesTurn CannotGrow CannotGrow (InOneStep (tree_in self.old)
            (is_file (tree_in self.old path.now) ≡ true) (removed (tree_in self.old) path.now))
            self.old self.new result }
    {
        match self.turns.next() {
            Turn::Go => match remove_file_now(self.alloc, &mut self.changes, path) {
                Ok(removed) => Ok(removed),
                Err(_) => Err(self.turns.fault(ErrorKind::OutOfMemory)),
            },
            Turn::Fail | Turn::Stop(0) => Err(self.turns.fault(ErrorKind::Other)),
            Turn::Stop(_) => match remove_file_now(self.alloc, &mut self.changes, path) {
                Ok(_) => Err(self.turns.fault(ErrorKind::Other)),
                Err(_) => Err(self.turns.fault(ErrorKind::OutOfMemory)),
            },
        }
    }

    fn remove_folder(&mut self, path: &[u8]) -> Result<bool, FileError>
        ensures answer { IfOk result
            (RemovesFolder (tree_in self.old) path.now (tree_in self.new)) }
        ensures leaves { Leaves (meaning self.old) (meaning self.new)
            (RemovingFolder (tree_in self.old) path.now) }
        ensures disk { IfOk result (λ removed. disk_of (meaning self.new)
            ≡ after_removal (disk_of (meaning self.old)) path.now removed) }
        ensures passes { Passes (meaning self.old) (meaning self.new)
            (RemovingFolderOn (disk_of (meaning self.old)) path.now) }
        ensures turn { TakesTurn CannotGrow CannotGrow (InOneStep (tree_in self.old)
            (IsEmptyFolder (tree_in self.old) path.now) (removed (tree_in self.old) path.now))
            self.old self.new result }
    {
        match self.turns.next() {
            Turn::Go => match remove_folder_now(self.alloc, &mut self.changes, path) {
                Ok(removed) => Ok(removed),
                Err(_) => Err(self.turns.fault(ErrorKind::OutOfMemory)),
            },
            Turn::Fail | Turn::Stop(0) => Err(self.turns.fault(ErrorKind::Other)),
            Turn::Stop(_) => match remove_folder_now(self.alloc, &mut self.changes, path) {
                Ok(_) => Err(self.turns.fault(ErrorKind::Other)),
                Err(_) => Err(self.turns.fault(ErrorKind::OutOfMemory)),
            },
        }
    }

    fn sync_file(&mut self, path: &[u8]) -> Result<bool, FileError>
        ensures answer { Syncs (is_file (tree_in self.old path.now)) (disk_of (meaning self.old))
            (file_synced (disk_of (meaning self.old)) path.now)
            (disk_of (meaning self.new)) result }
        ensures leaves { Leaves (meaning self.old) (meaning self.new)
            (Unchanged (tree_in self.old)) }
        ensures passes { Passes (meaning self.old) (meaning self.new)
            (SyncingOn (is_file (tree_in self.old path.now)) (disk_of (meaning self.old))
            (file_synced (disk_of (meaning self.old)) path.now)) }
        ensures turn { TakesTurn CannotGrow NeverFails (AsBefore (tree_in self.old))
            self.old self.new result }
    {
        if self.turns.next() != Turn::Go {
            return Err(self.turns.fault(ErrorKind::Other));
        }
        match sync_file_now(self.alloc, &mut self.changes, path) {
            Ok(synced) => Ok(synced),
            Err(_) => Err(self.turns.fault(ErrorKind::OutOfMemory)),
        }
    }

    fn sync_folder(&mut self, path: &[u8]) -> Result<bool, FileError>
        ensures answer { Syncs (is_folder (tree_in self.old path.now)) (disk_of (meaning self.old))
            (folder_synced (disk_of (meaning self.old)) path.now)
            (disk_of (meaning self.new)) result }
        ensures leaves { Leaves (meaning self.old) (meaning self.new)
            (Unchanged (tree_in self.old)) }
        ensures passes { Passes (meaning self.old) (meaning self.new)
            (SyncingOn (is_folder (tree_in self.old path.now)) (disk_of (meaning self.old))
            (folder_synced (disk_of (meaning self.old)) path.now)) }
        ensures turn { TakesTurn CannotGrow NeverFails (AsBefore (tree_in self.old))
            self.old self.new result }
    {
        if self.turns.next() != Turn::Go {
            return Err(self.turns.fault(ErrorKind::Other));
        }
        match sync_folder_now(self.alloc, &mut self.changes, path) {
            Ok(synced) => Ok(synced),
            Err(_) => Err(self.turns.fault(ErrorKind::OutOfMemory)),
        }
    }
}
