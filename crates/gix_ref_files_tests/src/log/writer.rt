//! A writer that takes a byte at a time, and that a signal interrupts before each.
use std::alloc::Global;
use std::io;

/// What it took.
#[derive(Drop)]
pub struct Slow {
    pub taken: Vec<u8>,
    is_interrupted: bool,
}

impl Slow {
    pub fn new(alloc: Global) -> Slow {
        Slow {
            taken: Vec::new(alloc),
            is_interrupted: false,
        }
    }
}

impl io::Write for Slow {
    fn write(&mut self, buf: &[u8]) -> io::Result<usize> {
        self.is_interrupted = !self.is_interrupted;
        if self.is_interrupted {
            return Err(io::Error::from(io::ErrorKind::Interrupted));
        }
        let count = buf.len().min(1);
        self.taken.extend_from_slice(&buf[..count])?;
        Ok(count)
    }

    fn flush(&mut self) -> io::Result<()> {
        Ok(())
    }
}
