//! The logs that have a line due and are not there, by their paths, and what lies in the path of a log.
ghost use Rattle.std.specs.Prelude.{◌≡◌, ◌||◌, OnOk, bytes_eq, false};
ghost use Rattle.std.specs.List.{list_any};
ghost use Rattle.gix_ref_files.specs.Tree.{fronts, Path};
ghost use Rattle.gix_ref_reflog.specs.internal.SeenLogs.{due_paths, last_path, IsBounded};
ghost use Rattle.gix_ref_transaction.specs.OwnLocks.{is_in};

use std::alloc::{AllocError, Global};
use std::collections::HashSet;

/// The logs that have a line due and are not there, by their paths.
#[derive(Drop)]
pub struct DueLogs {
    /// All but the one that was added last: so a transaction of one edit hashes none.
    earlier: HashSet<Vec<u8>>,
    /// The one that was added last.
    last: Option<Vec<u8>>,
    /// None of the paths has fewer bytes.
    shortest: usize,
}

impl DueLogs {
    /// No log.
    pub fn new(alloc: Global) -> DueLogs
        ensures none { (q : Path) → is_in (due_paths result) q ≡ false }
        ensures bounded { IsBounded result }
    {
        DueLogs {
            earlier: HashSet::new(alloc),
            last: None,
            shortest: usize::MAX,
        }
    }

    /// Whether this is the path that was added last.
    fn is_last(&self, path: &[u8]) -> bool
        ensures { result ≡ is_in (last_path self.now.last) path.now }
    {
        match &self.last {
            Some(last) => last.as_slice() == path,
            None => false,
        }
    }

    /// Whether the log at this path has a line due.
    pub fn contains(&self, path: &[u8]) -> bool
        ensures { result ≡ is_in (due_paths self.now) path.now }
    {
        self.is_last(path) || self.earlier.contains(path)
    }

    /// Adds the log at this path.
    pub fn insert(&mut self, path: Vec<u8>) -> Result<(), AllocError>
        ensures added { OnOk result ((q : Path) → is_in (due_paths self.new) q
            ≡ (bytes_eq path.items q || is_in (due_paths self.old) q)) }
        ensures bounded { IsBounded self.old → OnOk result (IsBounded self.new) }
    {
        let len = path.len();
        if let Some(before) = self.last.replace(path) {
            self.earlier.insert(before)?;
        }
        self.shortest = self.shortest.min(len);
        Ok(())
    }

    /// Whether such a log is in a path, as a file where a folder would be.
    pub fn is_above(&self, path: &[u8]) -> bool
        requires { IsBounded self.now }
        ensures { result ≡ list_any (is_in (due_paths self.now)) (fronts path.now) }
    {
        if path.len() <= self.shortest {
            return false;
        }
        for i in 1..path.len() {
            if path[i] == b'/' && i >= self.shortest && self.contains(&path[..i]) {
                return true;
            }
        }
        false
    }
}
