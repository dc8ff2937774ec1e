//! A reader of a file in memory, which owns a copy of the bytes.
ghost use Rattle.std.specs.Prelude.{◌≡◌, length, OnOk};
ghost use Rattle.gix_ref_files.specs.Calls.{IsRead};

use super::turns::{Turn, Turns};
use gix_ref_files::files::{FileError, ReadAt};
use std::io::ErrorKind;

/// A file of `Memory` that is open for reading. It goes by the plan that the files had when it was opened, and counts
/// its calls on from theirs.
#[derive(Drop)]
pub struct MemoryReader {
    pub(super) bytes: Vec<u8>,
    pub(super) turns: Turns,
}

impl ReadAt for MemoryReader {
    ghost use Rattle.gix_ref_memory.specs.Reader.{reader_bytes, reader_faults, ReadTakesTurn};

    ghost honest = { Unit {0} };

    ghost bytes = { reader_bytes };

    ghost size = { λ reader. length (reader_bytes reader) };

    ghost faults = { reader_faults };

    fn len(&self) -> u64 {
        self.bytes.len() as u64
    }

    /// It reads only where its turn is to go, and then fails only past the end.
    fn read_exact_at(&mut self, place: u64, buf: &mut [u8]) -> Result<(), FileError>
        ensures bytes { OnOk result (IsRead (reader_bytes self.old) place buf.new) }
        ensures same { reader_bytes self.new ≡ reader_bytes self.old }
        ensures turn { ReadTakesTurn place (length buf.old) self.old self.new result }
    {
        if self.turns.next() != Turn::Go {
            return Err(self.turns.fault(ErrorKind::Other));
        }
        let len = self.bytes.len();
        let place = place as usize;
        if place > len || buf.len() > len - place {
            return Err(self.turns.fault(ErrorKind::UnexpectedEof));
        }
        buf.copy_from_slice(&self.bytes[place..place + buf.len()]);
        Ok(())
    }
}
