//! The modes that measure lookups in a repository: names come from its file `peers-names.txt`, one a line.
use gix_ref_files::files::Files;
use gix_ref_hash::hash::Kind;
use gix_ref_name::name::PartialName;
use gix_ref_store::file::Store;
use std::alloc::Global;

/// The name of a line, with this after it.
fn name_of(alloc: Global, line: &[u8], behind: &[u8]) -> Option<PartialName> {
    let mut text = line.to_vec(alloc).ok()?;
    text.extend_from_slice(behind).ok()?;
    PartialName::try_from(text).ok()
}

/// The names of the file, each with this after it; a line that is no name is passed over.
fn names_in<F: Files>(
    alloc: Global,
    files: &mut F,
    folder: &str,
    behind: &[u8],
) -> Option<Vec<PartialName>> {
    let path = format!(in alloc; "{folder}/peers-names.txt").ok()?;
    let mut text = Vec::new(alloc);
    files.read(alloc, path.as_bytes(), &mut text).ok()?;
    let mut names = Vec::new(alloc);
    for line in text.split(|byte| *byte == b'\n') {
        if let Some(name) = name_of(alloc, line, behind) {
            names.push(name).ok()?;
        }
    }
    Some(names)
}

/// The name of a turn.
fn name_at(names: &[PartialName], turn: u64) -> Option<&PartialName> {
    let count = names.len() as u64;
    if count == 0 {
        return None;
    }
    names.get((turn % count) as usize)
}

/// Looks up a name in each turn, in a store that is open and a buffer that is held.
fn find_held<F: Files + Drop>(
    alloc: Global,
    mut files: F,
    folder: &str,
    turns: u64,
    behind: &[u8],
) -> Option<u64> {
    let names = names_in(alloc, &mut files, folder, behind)?;
    let mut store = Store::at(files, folder.as_bytes().to_vec(alloc).ok()?, Kind::Sha1).ok()?;
    let packed = store.open_packed_buffer(alloc).ok()?;
    let mut hits: u64 = 0;
    for turn in 0..turns {
        if let Some(name) = name_at(&names, turn) {
            if let Ok(Some(_)) = store.try_find_packed(alloc, name.as_ref(), packed.as_ref()) {
                hits = hits.saturating_add(1);
            }
        }
    }
    Some(hits)
}

/// Opens a store, looks up a name and drops the store, in each turn.
fn open_and_find<F: Files + Drop>(
    alloc: Global,
    mut files: F,
    folder: &str,
    turns: u64,
) -> Option<u64> {
    let names = names_in(alloc, &mut files, folder, b"")?;
    let mut hits: u64 = 0;
    for turn in 0..turns {
        let mut store = Store::at(files, folder.as_bytes().to_vec(alloc).ok()?, Kind::Sha1).ok()?;
        if let Some(name) = name_at(&names, turn) {
            if let Ok(Some(_)) = store.try_find(alloc, name.as_ref()) {
                hits = hits.saturating_add(1);
            }
        }
        files = store.into_files();
    }
    Some(hits)
}

/// The modes over a repository; `None` for an unknown mode.
pub fn run<F: Files + Drop>(
    alloc: Global,
    files: F,
    mode: &str,
    folder: &str,
    turns: u64,
) -> Option<u64> {
    match mode {
        "find-hit" => find_held(alloc, files, folder, turns, b""),
        "find-miss" => find_held(alloc, files, folder, turns, b"x"),
        "open-find" => open_and_find(alloc, files, folder, turns),
        _ => None,
    }
}
