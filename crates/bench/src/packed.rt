//! The modes that measure packed references. A record is a line of 70 bytes.
use gix_ref_files::files::{Files, ReadAt};
use gix_ref_hash::hash::Kind;
use gix_ref_name::name::{self, FullName, FullNameRef};
use gix_ref_packed::packed::Buffer;
use gix_ref_packed::packed::sorted_file::SortedFile;
use gix_ref_packed::packed::written::{push_header, push_record};
use std::alloc::{AllocError, Global};

const ID: &[u8] = b"0123456789abcdef0123456789abcdef01234567";

/// The bytes of the header that is written, and of a record.
const HEADER: u64 = 46;

const RECORD: u64 = 70;

/// How many names are asked for before the first is asked for again.
const ASKED: u64 = 1_000;

/// The name of a record: 28 bytes.
fn name_of(alloc: Global, number: u64) -> Result<String, AllocError> {
    format!(in alloc; "refs/heads/branch-{number:010}")
}

/// The text of so many records; where they are not sorted it says so, and the last name comes first.
fn text_of(alloc: Global, count: u64, sorted: bool) -> Result<Vec<u8>, AllocError> {
    let mut text = Vec::new(alloc);
    if sorted {
        push_header(&mut text)?;
    }
    for i in 0..count {
        let number = if sorted { i } else { count - 1 - i };
        let name = name_of(alloc, number)?;
        push_record(&mut text, name.as_bytes(), ID, None)?;
    }
    Ok(text)
}

/// Writes the file; the hits are its records.
fn make<F: Files>(alloc: Global, files: &mut F, path: &[u8], count: u64, sorted: bool) -> u64 {
    let Ok(text) = text_of(alloc, count, sorted) else {
        return 0;
    };
    let _ = files.remove_file(path);
    let _ = files.create_new(path);
    match files.append(path, text.as_slice()) {
        Ok(true) => count,
        _ => 0,
    }
}

/// Opens the file so many times; a hit is a buffer.
fn open<F: Files>(alloc: Global, files: &mut F, path: &[u8], turns: u64) -> u64 {
    let mut hits: u64 = 0;
    for _ in 0..turns {
        if let Ok(Some(_)) = Buffer::open(alloc, files, path, 32_768, Kind::Sha1) {
            hits = hits.saturating_add(1);
        }
    }
    hits
}

/// Goes over all records so many times; a hit is a record.
fn list<F: Files>(alloc: Global, files: &mut F, path: &[u8], turns: u64) -> u64 {
    let Ok(Some(packed)) = Buffer::open(alloc, files, path, 32_768, Kind::Sha1) else {
        return 0;
    };
    let mut hits: u64 = 0;
    for _ in 0..turns {
        for item in packed.iter() {
            if item.is_ok() {
                hits = hits.saturating_add(1);
            }
        }
    }
    hits
}

/// The names that are asked for in turn, of records all over a file of so many. They are made and checked before the
/// turns, whose work is the search alone.
fn asked_names(alloc: Global, count: u64) -> Result<Vec<FullName>, name::Error> {
    let mut names = Vec::new(alloc);
    if count == 0 {
        return Ok(names);
    }
    for i in 0..ASKED {
        let text = name_of(alloc, i * 7_919 % count)?;
        if names.push(FullName::try_from(text)?).is_err() {
            return Err(name::Error::Memory);
        }
    }
    Ok(names)
}

/// The name that is asked for in a turn.
fn asked(names: &[FullName], turn: u64) -> Option<FullNameRef<'_>> {
    let name = names.get((turn % ASKED) as usize)?;
    Some(name.as_ref())
}

/// Asks a buffer for a name in each turn.
fn find<F: Files>(alloc: Global, files: &mut F, path: &[u8], turns: u64) -> u64 {
    let Ok(Some(packed)) = Buffer::open(alloc, files, path, 32_768, Kind::Sha1) else {
        return 0;
    };
    let Ok(names) = asked_names(alloc, packed.as_bytes().len() as u64 / RECORD) else {
        return 0;
    };
    let mut hits: u64 = 0;
    for turn in 0..turns {
        let Some(name) = asked(&names, turn) else {
            continue;
        };
        if let Ok(Some(_)) = packed.try_find_key(name) {
            hits = hits.saturating_add(1);
        }
    }
    hits
}

/// How many records the file has.
fn count_in_file<F: Files>(alloc: Global, files: &mut F, path: &[u8]) -> u64 {
    match files.open(alloc, path) {
        Ok(Some(reader)) => reader.len().saturating_sub(HEADER) / RECORD,
        _ => 0,
    }
}

/// Asks a file for a name in each turn, and opens it each time.
fn find_in_file<F: Files>(alloc: Global, files: &mut F, path: &[u8], turns: u64) -> u64 {
    let Ok(names) = asked_names(alloc, count_in_file(alloc, files, path)) else {
        return 0;
    };
    let mut hits: u64 = 0;
    for turn in 0..turns {
        let Some(name) = asked(&names, turn) else {
            continue;
        };
        let Ok(Some(reader)) = files.open(alloc, path) else {
            continue;
        };
        let mut records = SortedFile::new(alloc, reader, HEADER);
        if let Ok(Some(_)) = records.find(Kind::Sha1, name) {
            hits = hits.saturating_add(1);
        }
    }
    hits
}

/// The modes over the `packed-refs` of a folder. An unknown mode, or a file that is not there, has no hit.
pub fn run<F: Files>(alloc: Global, files: &mut F, mode: &str, folder: &str, turns: u64) -> u64 {
    let Ok(path) = format!(in alloc; "{folder}/packed-refs") else {
        return 0;
    };
    let path = path.as_bytes();
    match mode {
        "packed-make" => make(alloc, files, path, turns, true),
        "packed-make-unsorted" => make(alloc, files, path, turns, false),
        "packed-open" => open(alloc, files, path, turns),
        "packed-list" => list(alloc, files, path, turns),
        "packed-find" => find(alloc, files, path, turns),
        "packed-file" => find_in_file(alloc, files, path, turns),
        _ => 0,
    }
}

/// Each mode once, over so many records and turns: five hits for each.
pub fn tiny<F: Files>(alloc: Global, files: &mut F, turns: u64) -> u64 {
    let _ = files.make_folders(b"r");
    let path = b"r/packed-refs";
    let mut hits = make(alloc, files, path, turns, true);
    hits = hits.saturating_add(open(alloc, files, path, turns));
    hits = hits.saturating_add(list(alloc, files, path, 1));
    hits = hits.saturating_add(find(alloc, files, path, turns));
    hits.saturating_add(find_in_file(alloc, files, path, turns))
}
