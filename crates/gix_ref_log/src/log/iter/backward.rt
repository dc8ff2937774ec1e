//! The lines of a log, newest first, through a window that moves towards the front of the file.
ghost use Rattle.std.specs.Iterator.{at_most};
ghost use Rattle.std.specs.Option.{option_len};
ghost use Rattle.memchr.specs.Find.{IsLastByte, is_byte};
ghost use Rattle.std.specs.Prelude.{◌≡◌, ◌≢◌, ◌+◌, ◌-◌, ◌≤◌, ◌<◌, ◌==◌, ◌⊎◌, min, length, take, slice_index, slice_range, Some, None, IfOk, IfSome, OnOk, Err};
ghost use Rattle.gix_ref_hash.specs.Bytes.{NoByte};
ghost use Rattle.gix_ref_log.specs.LogStages.{text_of_line, IsDoneAfter};
ghost use Rattle.gix_ref_log.specs.LogItems.{GivesLine, LineGives, ReadsLent, count_of};

use super::decode;
use super::error::ReverseError;
use super::fast::fast_decode;
use super::stage::{Place, Stage};
use crate::log::line::decode::decode_line;
use crate::log::line::{Line, LineRef};
use crate::log::lines::strip_cr;
use gix_ref_files::files::{FileError, ReadAt};
use gix_ref_hash::bytes::last_place;
use std::alloc::Global;

/// The lines of a log, newest first.
///
/// `buf[..end]` holds the bytes of the file from `pos` on. While it reads, the LF after the window was passed, and is not
/// in it.
#[derive(Drop)]
pub struct Reverse<'a, F> {
    pub(super) buf: &'a mut [u8],
    pub(super) reader: F,
    pub(super) stage: Stage,
    pub(super) pos: u64,
    pub(super) end: usize,
    pub(super) number: u64,
    pub(super) alloc: Global,
    ghost in_buffer: { end ≤ length buf.now },
    ghost has_room: { 0 < length buf.now },
}

/// The line that a text is, which has this number from the end.
#[inline(never)]
fn line_of(text: &[u8], number: u64) -> Result<LineRef<'_>, ReverseError>
    requires { NoByte 10 text.now }
    ensures line { LineGives ReadsLent number text.now result }
    ensures memory { result ≢ Err ReverseError.Memory }
{
    match decode_line(text) {
        Some(line) => Ok(line),
        None => Err(ReverseError::Decode(decode::Error {
            line: decode::LineNumber::FromEnd(number),
        })),
    }
}

impl<'a, F: ReadAt> Reverse<'a, F> {
    ghost use Rattle.gix_ref_log.specs.LogWindows.{StepOf, NextRefStep, ReadsPlace, IsInWindow, SameFileAndBuffer, OnlyWindowMoves, KeepsWindow, CountsReaderFault, BeginsAtEnd, IsOpen, open_items, items_left, IsTied, most_left};
    ghost use mir.Syntax.{named};
    ghost use Rattle.std.specs.Prelude.{[]};
    ghost use Rattle.std.specs.Borrow.{sem};
    ghost use Rattle.std.specs.Io.BufRead.{Rests};
    ghost use Rattle.gix_ref_log.specs.contracts.log.iter.backward.Reverse.{the_row};

    /// Moves the bytes of the window to the end of the buffer, and reads the bytes before them in the file.
    fn widen(&mut self) -> Result<(), FileError>
        ensures only { OnlyWindowMoves F.bytes self.old self.new }
        ensures counts { CountsReaderFault F.faults result self.old self.new }
        ensures end { OnOk result (self.new.end
            ≡ self.old.end + min self.old.pos (length self.old.buf.now - self.old.end)) }
        ensures pos { OnOk result (self.new.pos + self.new.end ≡ self.old.pos + self.old.end) }
        ensures window { OnOk result (F.honest → KeepsWindow F.bytes self.old self.new) }
    {
        let room = (self.buf.len() - self.end) as u64;
        let more = self.pos.min(room) as usize;
        self.buf.copy_within(..self.end, more);
        let pos = self.pos - more as u64;
        self.reader.read_exact_at(pos, &mut self.buf[..more])?;
        self.pos = pos;
        self.end += more;
        Ok(())
    }

    /// The place of the last line feed in the window.
    fn last_newline(&self) -> Option<usize>
        ensures { IsLastByte (is_byte 10) (take self.now.end self.now.buf.now) result }
    {
        last_place(&self.buf[..self.end], b'\n')
    }

    /// Whether the window ends with a line feed.
    fn ends_with_feed(&self) -> bool
        requires { 0 < self.now.end }
        ensures { result ≡ (slice_index self.now.buf.now (self.now.end - 1) == 10) }
    {
        self.buf[self.end - 1] == b'\n'
    }

    /// Reads the last bytes of the file, and says whether they end with a line feed, which it passes.
    fn begin(&mut self) -> Result<bool, FileError>
        requires { 0 < self.old.pos }
        ensures only { OnlyWindowMoves F.bytes self.old self.new }
        ensures counts { CountsReaderFault F.faults result self.old self.new }
        ensures nearer { OnOk result (self.new.pos + self.new.end ≤ self.old.pos + self.old.end) }
        ensures begins { F.honest → self.old.end ≡ 0 →
            self.old.pos ≡ length (F.bytes self.old.reader) → IfOk result
            (BeginsAtEnd (F.bytes self.old.reader) self.new.buf.now self.new.pos self.new.end) }
    {
        self.widen()?;
        let ends = self.ends_with_feed();
        if ends {
            self.end -= 1;
        }
        Ok(ends)
    }

    /// The place of the last line feed in the window, which is widened where it has none.
    fn find_start(&mut self) -> Result<Option<usize>, FileError>
        ensures only { OnlyWindowMoves F.bytes self.old self.new }
        ensures counts { CountsReaderFault F.faults result self.old self.new }
        ensures pos { OnOk result (self.new.pos + self.new.end ≡ self.old.pos + self.old.end) }
        ensures window { OnOk result (F.honest → KeepsWindow F.bytes self.old self.new) }
        ensures found { IfOk result (IsLastByte (is_byte 10) (take self.new.end self.new.buf.now)) }
        ensures full { IfOk result (λ start. start ≡ None → (self.new.pos ≡ 0)
            ⊎ (self.new.end ≡ length self.new.buf.now)) }
    {
        if let Some(start) = self.last_newline() {
            return Ok(Some(start));
        }
        if self.pos > 0 && self.end < self.buf.len() {
            self.widen()?;
        }
        Ok(self.last_newline())
    }

    /// The line at a place of the window. One of the common form takes the fast path.
    #[inline(always)]
    fn line_at(&self, place: Place) -> Result<LineRef<'_>, ReverseError>
        requires { IsInWindow self.now.buf.now place }
        ensures line { LineGives ReadsLent place.number (text_of_line place.ends
            (slice_range self.now.buf.now place.start place.end)) result }
        ensures memory { result ≢ Err ReverseError.Memory }
    {
        let text = strip_cr(&self.buf[place.start..place.end], place.ends);
        match fast_decode(text) {
            Some(line) => Ok(line),
            None => line_of(text, place.number),
        }
    }

    /// Passes the next line, which a line feed follows or not, and says where it is.
    #[inline(always)]
    fn pass_line(&mut self, ends: bool) -> Result<Place, ReverseError>
        ensures log { SameFileAndBuffer F.bytes self.old self.new }
        ensures nearer { most_left self.new ≤ self.old.pos + self.old.end }
        ensures counts { F.faults self.new.reader
            ≡ count_of (Some result) (F.faults self.old.reader) }
        ensures done { IsDoneAfter (Some result) self.new.stage }
        ensures place { IfOk result (IsInWindow self.new.buf.now) }
        ensures memory { result ≢ Err ReverseError.Memory }
        ensures step { F.honest → IsOpen F.bytes ends self.old →
            GivesLine (ReadsPlace self.new.buf.now) (open_items F.bytes ends self.old)
            (Some result) (items_left F.bytes self.new) × IsTied F.bytes self.new }
    {
        let number = self.number;
        match self.find_start() {
            Err(error) => {
                self.stage = Stage::Done;
                Err(ReverseError::Io(error))
            }
            Ok(Some(start)) => {
                let end = self.end;
                self.end = start;
                self.number = number.saturating_add(1);
                self.stage = Stage::Reading;
                Ok(Place {
                    start: start + 1,
                    end,
                    ends,
                    number,
                })
            }
            Ok(None) => {
                self.stage = Stage::Done;
                if self.pos > 0 {
                    return Err(ReverseError::BufferTooSmall);
                }
                Ok(Place {
                    start: 0,
                    end: self.end,
                    ends,
                    number,
                })
            }
        }
    }

    /// Passes the next line, and says where it is.
    #[inline(always)]
    fn advance(&mut self) -> Option<Result<Place, ReverseError>>
        ensures step { StepOf (ReadsPlace self.new.buf.now) F.honest F.bytes F.faults self.old
            result self.new }
        ensures place { IfSome result (λ r. IfOk r (IsInWindow self.new.buf.now)) }
        ensures memory { result ≢ Some (Err ReverseError.Memory) }
        ensures left { option_len result + most_left self.new ≤ most_left self.old }
    {
        match self.stage {
            Stage::Done => None,
            Stage::Reading => Some(self.pass_line(true)),
            Stage::Unread => {
                if self.pos == 0 {
                    self.stage = Stage::Done;
                    return None;
                }
                match self.begin() {
                    Ok(ends) => Some(self.pass_line(ends)),
                    Err(error) => {
                        self.stage = Stage::Done;
                        Some(Err(ReverseError::Io(error)))
                    }
                }
            }
        }
    }

    /// The next line, lent from the buffer until the next call. `next` gives the same line owned, and the two can be mixed.
    /// It takes no memory, so that it never returns `Memory`, and reads no id. `None` is the end, and so is each later call.
    ///
    /// `Io` where the log cannot be read, `Decode` where a line is not in the form of one, `BufferTooSmall` where the buffer
    /// has no room for a line. After `Io` and `BufferTooSmall` it has ended. Costs time in proportion to the line. Not in
    /// gix-ref.
    ///
    /// ```text
    /// let mut lines = reverse(alloc, reader, &mut buf)?;
    /// while let Some(line) = lines.next_ref() {
    ///     println!(rt; "{}", line?.message.as_bstr())?; // the newest first
    /// }
    /// ```
    #[inline(always)]
    pub fn next_ref(&mut self) -> Option<Result<LineRef<'_>, ReverseError>>
        ensures* steps { sem 𝓛 (Rests
            (the_row (record { mir = named 0; lft = [] }) F.row) self.entry
            (λ t. NextRefStep F.honest F.bytes F.faults self.old result t
            × (option_len result + most_left t ≤ most_left self.old))) }
        ensures memory { result ≢ Some (Err ReverseError.Memory) }
    {
        match self.advance() {
            None => None,
            Some(Err(error)) => Some(Err(error)),
            Some(Ok(place)) => Some(self.line_at(place)),
        }
    }
}

impl<'a, F: ReadAt + Drop> Iterator for Reverse<'a, F> {
    ghost use Rattle.gix_ref_log.specs.LogWindows.{NextStep, most_left};

    type Item = Result<Line, ReverseError>;

    ghost remaining = { λ s. at_most (most_left s) };

    ghost next_gives = { λ s r t. NextStep F.honest F.bytes F.faults s r t };

    #[inline(always)]
    fn next(&mut self) -> Option<Result<Line, ReverseError>> {
        match self.advance() {
            None => None,
            Some(Err(error)) => Some(Err(error)),
            Some(Ok(place)) => match self.line_at(place) {
                Err(error) => Some(Err(error)),
                Ok(line) => match line.to_owned(self.alloc) {
                    Ok(line) => Some(Ok(line)),
                    Err(_) => {
                        self.stage = Stage::Done;
                        Some(Err(ReverseError::Memory))
                    }
                },
            },
        }
    }
}
