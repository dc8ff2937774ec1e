//! Files as a plain list of paths and texts. Folders are there where files are below them.
use std::alloc::Global;
use std::process::Abort;

/// A file.
#[derive(Debug, Drop)]
pub struct Held {
    pub path: String,
    pub text: String,
}

/// An owned text.
pub fn text(rt: &impl Abort, alloc: Global, text: &str) -> String {
    String::from_str(alloc, text).expect(rt, "memory")
}

/// Whether a path lies below a folder.
fn is_below(path: &str, folder: &str) -> bool {
    match path.strip_prefix(folder) {
        Some(rest) => rest.starts_with('/'),
        None => false,
    }
}

/// What a file holds, if it is there.
pub fn get<'f>(files: &'f [Held], path: &str) -> Option<&'f str> {
    for held in files {
        if held.path.as_str() == path {
            return Some(held.text.as_str());
        }
    }
    None
}

/// Whether a file is in the path.
pub fn is_blocked(files: &[Held], path: &str) -> bool {
    for held in files {
        if is_below(path, held.path.as_str()) {
            return true;
        }
    }
    false
}

/// Whether a folder is at the path.
pub fn is_folder(files: &[Held], path: &str) -> bool {
    for held in files {
        if is_below(held.path.as_str(), path) {
            return true;
        }
    }
    false
}

/// Whether a file or a folder is at the path.
pub fn is_taken(files: &[Held], path: &str) -> bool {
    get(files, path).is_some() || is_folder(files, path)
}

/// Removes a file, if it is there.
pub fn remove(files: &mut Vec<Held>, path: &str) {
    files.retain(|held| held.path.as_str() != path);
}

/// Puts a file in place of what is there.
pub fn put(rt: &impl Abort, alloc: Global, files: &mut Vec<Held>, path: &str, bytes: String) {
    remove(files, path);
    let held = Held {
        path: text(rt, alloc, path),
        text: bytes,
    };
    files.push(held).expect(rt, "memory");
}

/// A copy.
pub fn copied(rt: &impl Abort, alloc: Global, files: &[Held]) -> Vec<Held> {
    let mut copy = Vec::with_capacity(alloc, files.len()).expect(rt, "memory");
    for held in files {
        let path = text(rt, alloc, held.path.as_str());
        let text = text(rt, alloc, held.text.as_str());
        copy.push(Held { path, text }).expect(rt, "memory");
    }
    copy
}
