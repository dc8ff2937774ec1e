//! What was changed, the oldest first, and what is at a path after all of it.
ghost use Rattle.std.specs.Prelude.{◌≡◌, Some, length};
ghost use Rattle.gix_ref_files.specs.Tree.{no_tree, bytes_of, has_folders, is_blocked, is_file, is_folder};
ghost use Rattle.gix_ref_files.specs.Disk.{DiskItem, nothing};
ghost use Rattle.gix_ref_memory.specs.Changes.{found_content, found_item, content_after, content_of, item_after, place_of, after_changes, items};

/// What a change puts at a path.
#[derive(Drop)]
pub enum Stored {
    Bytes(Vec<u8>),
    Folder,
}

/// A change of the disk.
#[derive(Drop)]
pub enum Change {
    /// This is at a path from now on, or nothing is; and it counts as synced, or not.
    Put {
        path: Vec<u8>,
        stored: Option<Stored>,
        synced: bool,
    },
    /// A file that had so many bytes has these.
    Append {
        path: Vec<u8>,
        whole: Vec<u8>,
        had: usize,
    },
    /// A file with these bytes, so many of them synced, is no longer at one path, but at another.
    Move {
        from: Vec<u8>,
        to: Vec<u8>,
        bytes: Vec<u8>,
        synced: usize,
    },
    /// The bytes of a file were synced.
    SyncFile {
        path: Vec<u8>,
    },
    /// The entries of a folder were synced.
    SyncFolder {
        path: Vec<u8>,
    },
}

/// What is at a path.
#[derive(Clone, Copy)]
pub enum Present<'a> {
    FileOf(&'a [u8]),
    FolderOf,
}

/// What is at a path, and how many bytes of it are synced.
#[derive(Clone, Copy)]
pub struct Known<'a> {
    pub content: Option<Present<'a>>,
    pub synced: usize,
}

impl Present<'_> {
    /// It is a folder.
    pub fn is_folder(self) -> bool
        ensures { result ≡ is_folder (found_content (Some self.entry)) }
    {
        match self {
            Present::FileOf(_) => false,
            Present::FolderOf => true,
        }
    }
}

pub fn present_of(stored: &Option<Stored>) -> Option<Present<'_>>
    ensures { found_content result ≡ content_of stored.now }
{
    match stored {
        None => None,
        Some(Stored::Bytes(bytes)) => Some(Present::FileOf(bytes)),
        Some(Stored::Folder) => Some(Present::FolderOf),
    }
}

/// What is at a path after a change, if this was there before.
fn found_after<'a>(
    change: &'a Change,
    path: &[u8],
    found: Option<Present<'a>>,
) -> Option<Present<'a>>
    ensures { found_content result ≡ content_after change.now path.now (found_content found.entry) }
{
    match change {
        Change::Put {
            path: at,
            stored,
            ..
        } => {
            if at.as_slice() == path {
                present_of(stored)
            } else {
                found
            }
        }
        Change::Append {
            path: at,
            whole,
            ..
        } => {
            if at.as_slice() == path {
                Some(Present::FileOf(whole))
            } else {
                found
            }
        }
        Change::Move {
            from,
            to,
            bytes,
            ..
        } => {
            if to.as_slice() == path {
                Some(Present::FileOf(bytes))
            } else if from.as_slice() == path {
                None
            } else {
                found
            }
        }
        Change::SyncFile { .. } | Change::SyncFolder { .. } => found,
    }
}

/// What is at a path after the changes.
pub fn find<'a>(changes: &'a [Change], path: &[u8]) -> Option<Present<'a>>
    ensures { found_content result ≡ after_changes changes.now no_tree path.now }
{
    let mut found = None;
    for change in changes {
        found = found_after(change, path, found);
    }
    found
}

/// How many bytes there are.
pub fn len_of(content: Option<Present<'_>>) -> usize
    ensures { result ≡ length (bytes_of (found_content content.entry)) }
{
    match content {
        Some(Present::FileOf(bytes)) => bytes.len(),
        _ => 0,
    }
}

/// How many bytes are synced of what is at a path after a change, if so many were before.
fn synced_after(change: &Change, path: &[u8], content: Option<Present<'_>>, synced: usize) -> usize
    ensures { (known : DiskItem) → known.synced ≡ synced →
        found_content content.entry ≡ content_after change.now path.now known.content →
        result ≡ (item_after change.now path.now known).synced }
{
    match change {
        Change::Put {
            path: at,
            synced: whole,
            ..
        } => {
            if at.as_slice() != path {
                synced
            } else if *whole {
                len_of(content)
            } else {
                0
            }
        }
        Change::Move {
            from,
            to,
            synced: moved,
            ..
        } => {
            if to.as_slice() == path {
                *moved
            } else if from.as_slice() == path {
                0
            } else {
                synced
            }
        }
        Change::SyncFile { path: at } => {
            if at.as_slice() == path {
                len_of(content)
            } else {
                synced
            }
        }
        Change::Append { .. } | Change::SyncFolder { .. } => synced,
    }
}

/// What is at a path after a change, and how many bytes of it are synced, if this was known before.
pub fn known_after<'a>(change: &'a Change, path: &[u8], known: Known<'a>) -> Known<'a>
    ensures { found_item result ≡ item_after change.now path.now (found_item known.entry) }
{
    let content = found_after(change, path, known.content);
    Known {
        content,
        synced: synced_after(change, path, content, known.synced),
    }
}

/// What is at a path after the changes, and how many bytes of it are synced.
pub fn item_at<'a>(changes: &'a [Change], path: &[u8]) -> Known<'a>
    ensures { found_item result ≡ items changes.now path.now nothing }
{
    let mut known = Known {
        content: None,
        synced: 0,
    };
    for change in changes {
        known = known_after(change, path, known);
    }
    known
}

/// The path at which a change puts something, or that it syncs.
pub fn place(change: &Change) -> &[u8]
    ensures { result.now ≡ place_of change.now }
{
    match change {
        Change::Put { path, .. } => path,
        Change::Append { path, .. } => path,
        Change::Move { to, .. } => to,
        Change::SyncFile { path } => path,
        Change::SyncFolder { path } => path,
    }
}

/// Whether a file is at a path.
pub fn is_file_at(changes: &[Change], path: &[u8]) -> bool
    ensures { result ≡ is_file (after_changes changes.now no_tree path.now) }
{
    match find(changes, path) {
        Some(Present::FileOf(_)) => true,
        _ => false,
    }
}

/// Whether a folder is at a path.
pub fn is_folder_at(changes: &[Change], path: &[u8]) -> bool
    ensures { result ≡ is_folder (after_changes changes.now no_tree path.now) }
{
    match find(changes, path) {
        Some(present) => present.is_folder(),
        None => false,
    }
}

/// Whether a file is in the path.
pub fn is_below_file(changes: &[Change], path: &[u8]) -> bool
    ensures { result ≡ is_blocked (after_changes changes.now no_tree) path.now }
{
    for i in 1..path.len() {
        if path[i] == b'/' && is_file_at(changes, &path[..i]) {
            return true;
        }
    }
    false
}

/// Whether folders are at all proper fronts of a path.
pub fn is_in_folders(changes: &[Change], path: &[u8]) -> bool
    ensures { result ≡ has_folders (after_changes changes.now no_tree) path.now }
{
    for i in 1..path.len() {
        if path[i] == b'/' && !is_folder_at(changes, &path[..i]) {
            return false;
        }
    }
    true
}
