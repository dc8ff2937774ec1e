//! Runs of the program in tests.
use gix_ref_files::files::Files;
use gix_ref_program::run::run;
use gix_ref_store::file::transaction::PackedRefs;
use std::alloc::Global;
use std::io;
use std::process::Abort;

pub const I1: &str = "1111111111111111111111111111111111111111";

pub const I2: &str = "2222222222222222222222222222222222222222";

/// The path of a branch, and its lock.
pub const A: &str = "/r/refs/heads/a";

/// A writer that takes so many bytes, and then fails.
#[derive(Drop)]
pub struct Full {
    pub room: usize,
    pub kept: usize,
}

impl io::Write for Full {
    fn write(&mut self, buf: &[u8]) -> io::Result<usize> {
        if buf.len() > self.room {
            return Err(io::Error::from(io::ErrorKind::StorageFull));
        }
        self.room -= buf.len();
        self.kept = self.kept.saturating_add(buf.len());
        Ok(buf.len())
    }

    fn flush(&mut self) -> io::Result<()> {
        Ok(())
    }
}

/// What a run printed, and its status.
#[derive(Drop)]
pub struct Printed<F> {
    pub files: F,
    pub output: Vec<u8>,
    pub status: u8,
}

/// Runs the program with these words.
pub fn run_words<F: Files>(rt: &impl Abort, alloc: Global, files: F, words: &[&str]) -> Printed<F> {
    let mut line = Vec::new(alloc);
    for word in words {
        let word = String::from_str(alloc, word).expect(rt, "memory");
        line.push(word).expect(rt, "memory");
    }
    let mut output = Vec::new(alloc);
    let ran = run(alloc, files, PackedRefs::default(), &line, &mut output);
    Printed {
        files: ran.files,
        output,
        status: ran.status.expect(rt, "a writer that does not fail"),
    }
}
