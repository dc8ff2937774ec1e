//! A reader of bytes in memory whose nth read fails, and which counts what is read.
ghost use Rattle.std.specs.Prelude.{length};
ghost use Rattle.gix_ref_files.specs.FaultCounts.{counts_of};

use gix_ref_files::faults::Faults;
use gix_ref_files::files::{FileError, ReadAt};
use std::cell::Cell;
use std::io::ErrorKind;

/// What was read.
#[derive(Drop)]
pub struct Tally {
    /// The read with this number fails; 0 for none.
    pub fails_at: u64,
    /// How many reads there were, with the one that failed.
    pub reads: Cell<u64>,
    /// How many bytes they asked for.
    pub bytes: Cell<u64>,
}

impl Tally {
    pub fn new(fails_at: u64) -> Tally {
        Tally {
            fails_at,
            reads: Cell::new(0),
            bytes: Cell::new(0),
        }
    }
}

/// Reads the text.
#[derive(Drop)]
pub struct Counted<'a> {
    pub text: &'a [u8],
    pub tally: &'a Tally,
    pub faults: Faults,
}

impl<'a> Counted<'a> {
    /// A reader of the text, which counts its reads in the tally.
    pub fn new(text: &'a [u8], tally: &'a Tally) -> Counted<'a> {
        Counted {
            text,
            tally,
            faults: Faults::new(),
        }
    }
}

impl<'a> ReadAt for Counted<'a> {
    ghost honest = { ⊥ };

    ghost bytes = { λ s. s.text.now };

    ghost size = { λ s. length s.text.now };

    ghost faults = { λ s. counts_of s.faults };

    fn len(&self) -> u64 {
        self.text.len() as u64
    }

    fn read_exact_at(&mut self, place: u64, buf: &mut [u8]) -> Result<(), FileError> {
        let reads = self.tally.reads.get().saturating_add(1);
        self.tally.reads.set(reads);
        let bytes = self.tally.bytes.get().saturating_add(buf.len() as u64);
        self.tally.bytes.set(bytes);
        let (from, len) = (place as usize, buf.len());
        if reads == self.tally.fails_at || from > self.text.len() || self.text.len() - from < len {
            self.faults.add_device(ErrorKind::Other);
            return Err(FileError::Device(ErrorKind::Other));
        }
        buf.copy_from_slice(&self.text[from..from + len]);
        Ok(())
    }
}
