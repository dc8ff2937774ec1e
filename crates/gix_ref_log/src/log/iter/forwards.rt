//! The lines of a log, oldest first.
ghost use Rattle.std.specs.Iterator.{at_most};
ghost use Rattle.std.specs.Prelude.{◌+◌, ◌<◌, ◌^◌, length};

use super::decode::{Error, LineNumber};
use super::fast::fast_first_line;
use crate::log::line::LineRef;
use crate::log::line::decode::decode_line;
use crate::log::lines::cut_line;

/// The lines of a log, oldest first.
#[derive(Drop)]
pub struct Forward<'a> {
    pub(super) rest: &'a [u8],
    pub(super) count: u64,
    ghost counts: { count + length rest.now < 2 ^ 64 },
}

impl<'a> Iterator for Forward<'a> {
    ghost use Rattle.gix_ref_log.specs.LogForward.{ForwardStep};

    type Item = Result<LineRef<'a>, Error>;

    ghost remaining = { λ s. at_most (length s.rest.now) };

    ghost next_gives = { ForwardStep };

    #[inline(always)]
    fn next(&mut self) -> Option<Result<LineRef<'a>, Error>> {
        if let Some((line, rest)) = fast_first_line(self.rest) {
            self.rest = rest;
            self.count += 1;
            return Some(Ok(line));
        }
        if self.rest.is_empty() {
            return None;
        }
        let (line, rest) = cut_line(self.rest);
        self.rest = rest;
        self.count += 1;
        match decode_line(line) {
            Some(line) => Some(Ok(line)),
            None => Some(Err(Error {
                line: LineNumber::FromStart(self.count),
            })),
        }
    }
}
