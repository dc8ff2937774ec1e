//! In which order entries and ends of files became unsynced.
ghost use Rattle.std.specs.Prelude.{◌≡◌, ◌≤◌, false, length};

use super::changes::{Change, place};
use gix_ref_files::paths;
use std::alloc::{AllocError, Global};

/// The first unsynced change of an entry or of the end of a file: its place among the changes, and for a rename whether it is
/// that of the new path. These are numbered in this order.
#[derive(Clone, Copy, PartialEq, Eq)]
pub struct Birth {
    at: usize,
    second: bool,
}

/// The first unsynced change of an entry, if it is unsynced.
fn entry_birth(changes: &[Change], path: &[u8]) -> Option<Birth> {
    let folder = paths::folder(path);
    let mut birth = None;
    for at in 0..changes.len() {
        birth = birth_after(&changes[at], at, path, folder, birth);
    }
    birth
}

/// The same after one change more.
fn birth_after(
    change: &Change,
    at: usize,
    path: &[u8],
    folder: &[u8],
    birth: Option<Birth>,
) -> Option<Birth> {
    let first = Some(Birth { at, second: false });
    let second = Some(Birth { at, second: true });
    match change {
        Change::Put {
            path: place,
            synced,
            ..
        } => {
            if place.as_slice() != path {
                birth
            } else if *synced {
                None
            } else {
                birth.or(first)
            }
        }
        Change::Move { from, to, .. } => {
            if from.as_slice() == path {
                birth.or(first)
            } else if to.as_slice() == path {
                birth.or(second)
            } else {
                birth
            }
        }
        Change::SyncFolder { path: place } => {
            if place.as_slice() == folder {
                None
            } else {
                birth
            }
        }
        Change::Append { .. } => birth,
        Change::SyncFile { .. } => birth,
    }
}

/// The first unsynced append to the file at a path, which is followed to the names that it had before; `None` where all of its
/// bytes are synced.
fn end_birth<'a>(changes: &'a [Change], path: &'a [u8]) -> Option<Birth> {
    let mut path = path;
    let mut birth = None;
    for later in 0..changes.len() {
        let at = changes.len() - 1 - later;
        match &changes[at] {
            Change::Append { path: place, .. } => {
                if place.as_slice() == path {
                    birth = Some(Birth { at, second: false });
                }
            }
            Change::Move { from, to, .. } => {
                if to.as_slice() == path {
                    path = from;
                }
            }
            Change::Put { path: place, .. } => {
                if place.as_slice() == path {
                    return birth;
                }
            }
            Change::SyncFile { path: place } => {
                if place.as_slice() == path {
                    return birth;
                }
            }
            Change::SyncFolder { .. } => {}
        }
    }
    birth
}

/// The births of one path: of its entry, of the end of its file, and of the end of the file that was there when its folder was
/// last synced.
#[derive(Clone, Copy)]
pub struct Births {
    /// Of the entry, if it is unsynced.
    pub entry: Option<Birth>,
    /// Of the end of the file.
    pub end: Option<Birth>,
    /// Of the end of the file that was there.
    pub last_end: Option<Birth>,
}

/// The births of a path.
pub fn births_of(changes: &[Change], path: &[u8]) -> Births {
    let entry = entry_birth(changes, path);
    let last_end = match entry {
        Some(birth) => end_birth(&changes[..birth.at.min(changes.len())], path),
        None => None,
    };
    let end = end_birth(changes, path);
    Births {
        entry,
        end,
        last_end,
    }
}

/// Adds a birth to a list, unless it is there.
fn add(births: &mut Vec<Birth>, birth: Option<Birth>) -> Result<(), AllocError> {
    if let Some(birth) = birth {
        if !births.contains(&birth) {
            births.push(birth)?;
        }
    }
    Ok(())
}

/// Adds the births of a path.
fn add_all(births: &mut Vec<Birth>, changes: &[Change], path: &[u8]) -> Result<(), AllocError> {
    let of = births_of(changes, path);
    add(births, of.entry)?;
    add(births, of.end)?;
    add(births, of.last_end)
}

/// All births, each once.
pub fn all_births(alloc: Global, changes: &[Change]) -> Result<Vec<Birth>, AllocError> {
    let mut births = Vec::new(alloc);
    for change in changes {
        if let Change::Move { from, .. } = change {
            add_all(&mut births, changes, from)?;
        }
        add_all(&mut births, changes, place(change))?;
    }
    Ok(births)
}

/// Whether one birth comes before another.
fn comes_before(birth: Birth, other: Birth) -> bool {
    birth.at < other.at || birth.at == other.at && !birth.second && other.second
}

/// How many births come before this one: its number.
fn number_of(births: &[Birth], birth: Birth) -> usize
    ensures { result ≤ length births.now }
{
    let mut number = 0;
    for &other in births {
        if comes_before(other, birth) {
            number += 1;
        }
    }
    number
}

/// Whether a choice keeps what was born then: the bit of its number. What is synced has no number, and is kept as it is.
pub fn keeps(pick: u64, births: &[Birth], birth: Option<Birth>) -> bool
    ensures { pick ≡ 0 → result ≡ false }
{
    match birth {
        Some(birth) => {
            let bit = number_of(births, birth) as u64 % 64;
            pick != 0 && (pick >> bit) & 1 == 1
        }
        None => false,
    }
}
