//! What is known of an entry of a folder in memory: what it is now, and what it was when its folder was last synced.
ghost use Rattle.std.specs.Prelude.{◌≡◌};
ghost use Rattle.gix_ref_files.specs.Disk.{folder_of};
ghost use Rattle.gix_ref_memory.specs.Changes.{found_item};
ghost use Rattle.gix_ref_memory.specs.internal.Power.{disk_entry, entry_after, entered, settled, no_entry, sure_entry};

use super::changes::{Change, Known, known_after};
use gix_ref_files::paths;

/// What is known of an entry: what it is now, what it was when its folder was last synced, and whether it is unsynced.
#[derive(Clone, Copy)]
pub struct Sure<'a> {
    pub now: Known<'a>,
    pub last: Known<'a>,
    pub is_new: bool,
}

/// Nothing.
fn known_nothing<'a>() -> Known<'a>
    ensures { found_item result ≡ no_entry.now }
{
    Known {
        content: None,
        synced: 0,
    }
}

/// The entry becomes another, and is unsynced from then on.
fn entered<'a>(sure: Sure<'a>, now: Known<'a>) -> Sure<'a>
    ensures { sure_entry result ≡ entered (found_item now.entry) (sure_entry sure.entry) }
{
    let last = if sure.is_new { sure.last } else { sure.now };
    Sure {
        now,
        last,
        is_new: true,
    }
}

/// The entry is synced.
fn settled(now: Known<'_>) -> Sure<'_>
    ensures { sure_entry result ≡ settled (found_item now.entry) }
{
    Sure {
        now,
        last: now,
        is_new: false,
    }
}

/// The entry after a change of it.
fn entry_after<'a>(change: &'a Change, path: &[u8], folder: &[u8], sure: Sure<'a>) -> Sure<'a>
    requires { folder.now ≡ folder_of path.now }
    ensures { sure_entry result ≡ entry_after change.now path.now (sure_entry sure.entry) }
{
    let now = known_after(change, path, sure.now);
    match change {
        Change::Put {
            path: at,
            synced,
            ..
        } => {
            if at.as_slice() != path {
                sure
            } else if *synced {
                settled(now)
            } else {
                entered(sure, now)
            }
        }
        Change::Move { from, to, .. } => {
            let gone = if from.as_slice() == path {
                entered(sure, known_nothing())
            } else {
                sure
            };
            if to.as_slice() == path {
                entered(gone, now)
            } else {
                gone
            }
        }
        Change::SyncFolder { path: at } => {
            if at.as_slice() == folder {
                settled(sure.now)
            } else {
                sure
            }
        }
        Change::Append { path: at, .. } | Change::SyncFile { path: at } => {
            if at.as_slice() == path {
                Sure { now, ..sure }
            } else {
                sure
            }
        }
    }
}

/// What is known of an entry after all changes.
pub fn sure_at<'a>(changes: &'a [Change], path: &[u8]) -> Sure<'a>
    ensures { sure_entry result ≡ disk_entry changes.now path.now no_entry }
{
    let folder = paths::folder(path);
    let mut sure = settled(known_nothing());
    for change in changes {
        sure = entry_after(change, path, folder, sure);
    }
    sure
}
