//! The modes that measure listings and reflogs in a repository: `list`, `list-prefix` (of the prefix in its file
//! `peers-prefix.txt`), `log10` and `logall` (of `refs/heads/main`, newest first).
use gix_ref_files::files::Files;
use gix_ref_hash::hash::Kind;
use gix_ref_name::name::FullNameRef;
use gix_ref_store::file::Store;
use std::alloc::Global;

/// The prefix in the file: its first line.
fn prefix_in<F: Files>(alloc: Global, files: &mut F, folder: &str) -> Option<Vec<u8>> {
    let path = format!(in alloc; "{folder}/peers-prefix.txt").ok()?;
    let mut text = Vec::new(alloc);
    files.read(alloc, path.as_bytes(), &mut text).ok()?;
    let line = text.split(|byte| *byte == b'\n').next()?;
    line.to_vec(alloc).ok()
}

/// How many items the listing of a prefix has; `packed-refs` is read for it.
fn count_listed<F: Files>(alloc: Global, store: &mut Store<F>, prefix: &[u8]) -> Option<u64> {
    let packed = store.open_packed_prefixed(alloc, prefix).ok()?;
    let items = store
        .iter_prefixed_packed(alloc, prefix, packed.as_ref())
        .ok()?;
    let mut hits: u64 = 0;
    for _item in items {
        hits = hits.saturating_add(1);
    }
    Some(hits)
}

/// How many lines of the log of `refs/heads/main` there are, newest first, of at most so many.
fn count_lines<F: Files>(alloc: Global, store: &mut Store<F>, most: u64) -> Option<u64> {
    let name = FullNameRef::try_from("refs/heads/main").ok()?;
    let mut buf = [0; 4096];
    let lines = store.reflog_iter_rev(alloc, name, &mut buf).ok()??;
    let mut hits: u64 = 0;
    for _line in lines {
        hits = hits.saturating_add(1);
        if hits >= most {
            return Some(hits);
        }
    }
    Some(hits)
}

/// The modes; `None` for an unknown mode, or where the repository cannot be read.
pub fn run<F: Files + Drop>(
    alloc: Global,
    mut files: F,
    mode: &str,
    folder: &str,
    turns: u64,
) -> Option<u64> {
    let prefix = match mode {
        "list" => b"refs/".to_vec(alloc).ok()?,
        "list-prefix" => prefix_in(alloc, &mut files, folder)?,
        "log10" | "logall" => Vec::new(alloc),
        _ => return None,
    };
    let most = if mode == "log10" { 10 } else { u64::MAX };
    let mut store = Store::at(files, folder.as_bytes().to_vec(alloc).ok()?, Kind::Sha1).ok()?;
    let mut hits: u64 = 0;
    for _ in 0..turns {
        let more = if prefix.is_empty() {
            count_lines(alloc, &mut store, most)?
        } else {
            count_listed(alloc, &mut store, &prefix)?
        };
        hits = hits.saturating_add(more);
    }
    Some(hits)
}
