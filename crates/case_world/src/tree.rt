//! All files of a world, to compare.
use crate::texts::shown;
use crate::twice::Twice;
use anyhow::{Context, Result, bail};
use bstr::ByteSlice;
use gix_ref_files::files::Files;
use std::alloc::Global;

/// A file: its path and its text.
#[derive(Drop)]
pub struct FileText {
    pub path: Vec<u8>,
    pub text: Vec<u8>,
}

/// The files below the folders `/r` and `/w`.
#[derive(Drop)]
pub struct Tree {
    alloc: Global,
    files: Vec<FileText>,
}

/// A path in a folder.
fn below(alloc: Global, folder: &[u8], name: &[u8]) -> Result<Vec<u8>> {
    let mut path = folder.to_vec(alloc)?;
    path.push(b'/')?;
    path.extend_from_slice(name)?;
    Ok(path)
}

impl Tree {
    /// The files as they are. Calls of files that fail or stop by plan go before: the plan is dropped.
    pub fn of(alloc: Global, files: &mut Twice) -> Result<Tree> {
        files.restart();
        let mut tree = Tree {
            alloc,
            files: Vec::new(alloc),
        };
        let mut folders = Vec::new(alloc);
        folders.push(b"/r".to_vec(alloc)?)?;
        folders.push(b"/w".to_vec(alloc)?)?;
        for _ in 0..1_000_000u32 {
            let Some(path) = folders.pop() else {
                return Ok(tree);
            };
            tree.add(files, path, &mut folders)?;
        }
        bail!("too many files")
    }

    /// Adds the file at a path, or what is in the folder there.
    fn add(&mut self, files: &mut Twice, path: Vec<u8>, folders: &mut Vec<Vec<u8>>) -> Result<()> {
        let alloc = self.alloc;
        if let Some(text) = files.memory.get(path.as_slice()) {
            let text = text.to_vec(alloc)?;
            self.files.push(FileText { path, text })?;
            return Ok(());
        }
        let listed = files.list(alloc, path.as_slice()).ok().context("memory")?;
        if let Some(entries) = listed {
            for entry in entries.as_slice() {
                folders.push(below(alloc, path.as_slice(), entry.name.as_slice())?)?;
            }
        }
        Ok(())
    }

    /// The files.
    pub fn files(&self) -> &[FileText] {
        self.files.as_slice()
    }

    /// What a file holds.
    pub fn text_at(&self, path: &[u8]) -> Option<&[u8]> {
        for file in self.files.as_slice() {
            if file.path.as_slice() == path {
                return Some(file.text.as_slice());
            }
        }
        None
    }

    /// Takes a file out.
    pub fn remove(&mut self, path: &[u8]) {
        self.files.retain(|file| file.path.as_slice() != path);
    }

    /// Puts a file in, in place of one of the same path.
    pub fn put(&mut self, path: Vec<u8>, text: Vec<u8>) -> Result<()> {
        self.remove(path.as_slice());
        self.files.push(FileText { path, text })?;
        Ok(())
    }

    /// What is at a path, in words.
    fn words_at(&self, path: &[u8]) -> Result<String> {
        match self.text_at(path) {
            Some(text) => shown(self.alloc, text),
            None => Ok("no file".to_string(self.alloc)?),
        }
    }

    /// The first file in which another tree differs from this one, the expected one.
    pub fn difference(&self, other: &Tree) -> Result<Option<String>> {
        for file in self.files.as_slice().iter().chain(other.files.as_slice()) {
            let path = file.path.as_slice();
            if self.text_at(path) != other.text_at(path) {
                return Ok(Some(format!(in self.alloc;
                    "expected {}: {}\n  came     {}",
                    path.as_bstr(),
                    self.words_at(path)?,
                    other.words_at(path)?
                )?));
            }
        }
        Ok(None)
    }
}
