//! The lock files that a disk made and has neither renamed nor removed: that they are files needs no look.
use std::alloc::Global;
use std::collections::VecDeque;
use std::fs::File;
use std::io::{self, Write};

/// A file that was made and is open.
#[derive(Drop)]
struct OpenFile {
    path: String,
    file: File,
}

impl OpenFile {
    /// Closes the file. Returns its path.
    fn close(self) -> String {
        let OpenFile { path, file: _ } = self;
        path
    }
}

/// The file that was made last, which is open, and the paths of the lock files that were made before it, oldest first.
#[derive(Drop)]
pub(crate) struct MadeFiles {
    last: Option<OpenFile>,
    before: VecDeque<String>,
}

/// Whether a path ends as that of a lock file, and as no name may (`git check-ref-format`).
fn is_lock(path: &[u8]) -> bool {
    path.ends_with(b".lock")
}

/// Takes a path out of these: the newest alone, or any other and those before it. `None` where it is not among them: then all are gone.
fn take_from(paths: &mut VecDeque<String>, path: &[u8]) -> Option<String> {
    if paths.back().is_some_and(|made| made.as_bytes() == path) {
        return paths.pop_back();
    }
    for _ in 0..paths.len() {
        let made = paths.pop_front()?;
        if made.as_bytes() == path {
            return Some(made);
        }
    }
    None
}

impl MadeFiles {
    /// No files.
    pub(crate) fn new(alloc: Global) -> Self {
        MadeFiles {
            last: None,
            before: VecDeque::new(alloc),
        }
    }

    /// Keeps the path of a lock file. Any other file stays where it is. Where there is no memory, it is one that needs a look.
    fn remember(&mut self, path: String) {
        if is_lock(path.as_bytes()) {
            self.before.push_back(path).ok();
        }
    }

    /// Closes the file that was made last.
    pub(crate) fn close(&mut self) {
        if let Some(last) = self.last.take() {
            self.remember(last.close());
        }
    }

    /// Closes the file that was made last, and keeps this one open, which was made after it. Where there is no memory for its path, it
    /// is closed, and is one that needs a look.
    pub(crate) fn keep(&mut self, alloc: Global, path: &str, file: File) {
        self.close();
        self.last = match String::from_str(alloc, path) {
            Ok(path) => Some(OpenFile { path, file }),
            Err(_) => None,
        };
    }

    /// Adds bytes to the file of this path, if it was made last.
    pub(crate) fn write(&mut self, path: &[u8], bytes: &[u8]) -> Option<io::Result<()>> {
        match &mut self.last {
            Some(made) if made.path.as_bytes() == path => Some(made.file.write_all(bytes)),
            _ => None,
        }
    }

    /// Syncs the file of this path, if it was made last.
    pub(crate) fn sync(&self, path: &[u8]) -> Option<io::Result<()>> {
        match &self.last {
            Some(made) if made.path.as_bytes() == path => Some(made.file.sync_all()),
            _ => None,
        }
    }

    /// Closes the file that was made last, and takes out the file of this path, which is to be renamed or removed: its path. `None` where it
    /// is not one of these. So lock files are taken out in the order in which they were made, or from the last one back. The lock files
    /// before one that is taken out in neither order are forgotten, and so are all of them at a lock file that is not one of these.
    pub(crate) fn take(&mut self, path: &[u8]) -> Option<String> {
        if let Some(last) = self.last.take() {
            let made = last.close();
            if made.as_bytes() == path {
                return Some(made);
            }
            self.remember(made);
        }
        if !is_lock(path) {
            return None;
        }
        take_from(&mut self.before, path)
    }
}
