//! Files in memory, of which one call more may fail than those that `Memory` plans.
ghost use Rattle.std.specs.Prelude.{◌≡◌};
ghost use Rattle.gix_ref_memory.specs.Memory.{faults_of};

use gix_ref_files::files::{Create, Entry, FileError, Files, Node, Rename};
use gix_ref_memory::memory::{Memory, MemoryReader};
use std::alloc::Global;

/// The files, and the number, of all calls so far, of the call that fails too; 0 for none.
#[derive(Drop)]
pub struct Twice {
    pub memory: Memory,
    pub second: u64,
}

impl Twice {
    pub fn new(alloc: Global) -> Twice {
        Twice {
            memory: Memory::new(alloc),
            second: 0,
        }
    }

    /// Has no call fail or stop any more.
    pub fn restart(&mut self) {
        self.second = 0;
        self.memory.restart();
    }

    /// Has the next call fail, if it is the second.
    fn arm(&mut self)
        ensures { faults_of self.new.memory ≡ faults_of self.old.memory }
    {
        if self.memory.calls().saturating_add(1) == self.second {
            self.memory.fail_at(1);
        }
    }
}

impl Files for Twice {
    ghost use Rattle.gix_ref_files.specs.Unknown.{no_meaning};

    type Reader = MemoryReader;

    ghost honest = { ⊥ };

    ghost means = { λ files. no_meaning };

    ghost faults = { λ files. faults_of files.memory };

    ghost tree_is_left = { λ files t honest le. absurd honest };

    ghost only_now = { λ files T honest left. absurd honest };

    ghost disk_is_found = { λ files t honest le. absurd honest };

    ghost only_disk = { λ files D honest found. absurd honest };

    ghost shaped = { λ files honest. absurd honest };

    fn kind(&mut self, path: &[u8]) -> Result<Node, FileError> {
        self.arm();
        self.memory.kind(path)
    }

    fn read(&mut self, alloc: Global, path: &[u8], buf: &mut Vec<u8>) -> Result<Node, FileError> {
        self.arm();
        self.memory.read(alloc, path, buf)
    }

    fn open(&mut self, alloc: Global, path: &[u8]) -> Result<Option<MemoryReader>, FileError> {
        self.arm();
        self.memory.open(alloc, path)
    }

    fn list(&mut self, alloc: Global, path: &[u8]) -> Result<Option<Vec<Entry>>, FileError> {
        self.arm();
        self.memory.list(alloc, path)
    }

    fn create_new(&mut self, path: &[u8]) -> Result<Create, FileError> {
        self.arm();
        self.memory.create_new(path)
    }

    fn make_folders(&mut self, path: &[u8]) -> Result<bool, FileError> {
        self.arm();
        self.memory.make_folders(path)
    }

    fn append(&mut self, path: &[u8], bytes: &[u8]) -> Result<bool, FileError> {
        self.arm();
        self.memory.append(path, bytes)
    }

    fn rename(&mut self, from: &[u8], to: &[u8]) -> Result<Rename, FileError> {
        self.arm();
        self.memory.rename(from, to)
    }

    fn remove_file(&mut self, path: &[u8]) -> Result<bool, FileError> {
        self.arm();
        self.memory.remove_file(path)
    }

    fn remove_folder(&mut self, path: &[u8]) -> Result<bool, FileError> {
        self.arm();
        self.memory.remove_folder(path)
    }

    fn sync_file(&mut self, path: &[u8]) -> Result<bool, FileError> {
        self.arm();
        self.memory.sync_file(path)
    }

    fn sync_folder(&mut self, path: &[u8]) -> Result<bool, FileError> {
        self.arm();
        self.memory.sync_folder(path)
    }
}
