//! The records of a `packed-refs` that is not in memory: probed at windows of its file.
ghost use Rattle.std.specs.Prelude.{◌≡◌, ◌+◌, ◌-◌, ◌<◌, ◌≤◌, ◌^◌, length, take, drop, OnOk, IfErr};
ghost use Rattle.gix_ref_packed.specs.FileSearches.{IsNoChange, count_part};
ghost use Rattle.gix_ref_packed_text.specs.Windows.{IsWindow};
ghost use Rattle.gix_ref_packed.specs.declared.packed.sorted_file.TheConstants.{MAX_WINDOW_DOUBLINGS};

use gix_ref_files::files::{FileError, ReadAt};
use gix_ref_hash::hash::Kind;
use gix_ref_name::name::FullNameRef;
use gix_ref_packed_text::packed::Probes;
use gix_ref_packed_text::packed::search::{SearchError, search};
use gix_ref_packed_text::packed::searchable::{Probe, ProbeMode, SearchableRecords};
use gix_ref_packed_text::packed::window::{Found, InWindow, probe_in, record_in};
use std::alloc::{AllocError, Global};
use std::marker::Brand;
use std::sync::ledger::{Blank, Ledger};
use thiserror::Error;

/// Why a source cannot be looked at.
#[derive(Clone, Copy, Debug, PartialEq, Eq, Error)]
pub enum ReadError {
    /// The file cannot be read.
    #[error("packed-refs cannot be read: {0}")]
    Io(FileError),
    /// There was no memory for a window.
    #[error("there was no memory for a window of packed-refs")]
    Memory,
    /// The reader gave other bytes than its length and its earlier reads say.
    #[error("packed-refs changed while it was read")]
    Changed,
}

/// How many bytes a window has, if no line is longer than half of that. A larger one costs more to make than the reads
/// that it saves: four times the size saves two of them.
pub(crate) const WINDOW: u64 = 1024;

/// How often a window is read anew.
pub(crate) const MAX_WINDOW_DOUBLINGS: u32 = 54;

/// The size of the window that is read after so many others, each twice as large as the one before; the last holds any
/// file.
#[inline(always)]
pub(crate) fn window_size(turn: u32) -> u64
    ensures { turn + 1 ≡ MAX_WINDOW_DOUBLINGS → result ≡ 2 ^ 64 - 1 }
{
    if turn < MAX_WINDOW_DOUBLINGS - 1 {
        WINDOW << turn
    } else {
        u64::MAX
    }
}

impl From<AllocError> for ReadError {
    ghost use Rattle.std.specs.Prelude.{◌≡◌};
    ghost use Rattle.gix_ref_packed.specs.declared.packed.sorted_file.ReadError.TheVariants.{Memory};

    ghost from_gives = { λ _ e. e ≡ Memory };

    fn from(_error: AllocError) -> ReadError {
        ReadError::Memory
    }
}

/// Why a record is not found in a source.
#[derive(Clone, Copy, Debug, PartialEq, Eq, Error)]
pub enum FindError {
    /// The source cannot be looked at.
    #[error("{0}")]
    Read(ReadError),
    /// A malformed line was met and nothing was found, or the record that was found cannot be read.
    #[error("a record of packed-refs cannot be read")]
    Parse,
}

/// Where a window of that size around a place begins: at the front where the size holds any file.
fn window_from(offset: u64, size: u64) -> u64
    ensures before { result ≤ offset }
    ensures front { size ≡ 2 ^ 64 - 1 → result ≡ 0 }
{
    if size == u64::MAX {
        return 0;
    }
    offset.saturating_sub(size / 2)
}

/// The records of a file after its header, where they ascend. A window of the file is kept: a probe that lies in it
/// reads nothing.
#[derive(Drop)]
pub struct SortedFile<R: ReadAt + Drop> {
    /// The file.
    pub reader: R,
    /// Where the records begin in the file.
    pub base: u64,
    window: Vec<u8>,
    /// Where the window begins among the records.
    from: u64,
    pub ghost window_is: { R.honest → IsWindow (drop base (R.bytes reader)) from window.items },
    pub ghost fits: { from + length window.items < 2 ^ 64 },
}

/// Reads a window of the file, from that place on.
pub(crate) fn read_window<R: ReadAt>(
    reader: &mut R,
    window: &mut Vec<u8>,
    place: u64,
    len: usize,
) -> Result<(), ReadError>
    ensures same { (R.bytes reader.new ≡ R.bytes reader.old)
        × (R.size reader.new ≡ R.size reader.old) }
    ensures count { R.faults reader.new ≡ count_part result (R.faults reader.old) }
    ensures stays { IfErr result IsNoChange }
    ensures len { OnOk result (length window.new.items ≡ len) }
    ensures read { R.honest → OnOk result (window.new.items
        ≡ take (length window.new.items) (drop place (R.bytes reader.old))) }
{
    window.resize(len, 0)?;
    match reader.read_exact_at(place, window.as_mut_slice()) {
        Ok(()) => Ok(()),
        Err(error) => Err(ReadError::Io(error)),
    }
}

impl<R: ReadAt + Drop> SortedFile<R> {
    ghost use Rattle.std.specs.Prelude.{◌≡◌, ◌≤◌, ◌<◌, ◌+◌, ◌^◌, false, length, drop, IfOk, IfErr, IfSome, IsSome};
    ghost use Rattle.gix_ref_name.specs.Names.{full_ref_bytes};
    ghost use Rattle.gix_ref_packed_text.specs.SearchCosts.{CountsProbes};
    ghost use Rattle.gix_ref_packed_text.specs.Windows.{FrontIs};
    ghost use Rattle.gix_ref_packed_text.specs.Positions.{IsPlain};
    ghost use Rattle.gix_ref_packed_text.specs.Probed.{IsProbeAt};
    ghost use Rattle.gix_ref_packed_text.specs.Shown.{IfHere, IsHere};
    ghost use Rattle.gix_ref_packed.specs.FileSearches.{IsNoChange, FindsInFile, count_part, count_found};
    ghost use Rattle.gix_ref_packed.specs.OpenFiles.{IsSameFile};

    /// The records of a file from that place on, in bytes. Nothing is read yet. Not in gix-ref, which maps the file into memory.
    pub fn new(alloc: Global, reader: R, base: u64) -> SortedFile<R>
        ensures reader { result.reader ≡ reader }
        ensures base { result.base ≡ base }
    {
        SortedFile::with_window_memory(Vec::new(alloc), reader, base)
    }

    /// The same, with the memory of a vector for windows.
    pub(crate) fn with_window_memory(mut window: Vec<u8>, reader: R, base: u64) -> SortedFile<R>
        ensures reader { result.reader ≡ reader }
        ensures base { result.base ≡ base }
    {
        window.clear();
        SortedFile {
            reader,
            base,
            window,
            from: 0,
        }
    }

    /// The number of bytes of the records.
    pub(crate) fn records_len(&self) -> u64
        ensures len { R.honest → result ≡ length (drop self.now.base (R.bytes self.now.reader)) }
        ensures fits { R.honest → length (R.bytes self.now.reader) < 2 ^ 64 }
    {
        self.reader.len().saturating_sub(self.base)
    }

    /// Reads a window of that size around the place; all where the size holds any file.
    fn fill(&mut self, offset: u64, size: u64) -> Result<(), ReadError>
        ensures same { IsSameFile self.old self.new }
        ensures count { R.faults self.new.reader ≡ count_part result (R.faults self.old.reader) }
        ensures whole { R.honest → size ≡ 2 ^ 64 - 1 →
            IfOk result (λ _. (self.new.from ≡ 0) × (length self.new.window.items
            ≡ length (drop self.old.base (R.bytes self.old.reader)))) }
        ensures stays { R.honest → offset < length (drop self.old.base (R.bytes self.old.reader)) →
            IfErr result IsNoChange }
    {
        let from = window_from(offset, size);
        let len = size.min(self.records_len().saturating_sub(from));
        let Some(place) = self.base.checked_add(from) else {
            return Err(ReadError::Changed);
        };
        self.from = from;
        match read_window(&mut self.reader, &mut self.window, place, len as usize) {
            Ok(()) => Ok(()),
            Err(error) => {
                self.window.clear();
                Err(error)
            }
        }
    }

    /// What a probe at the place sees, if the window shows it.
    #[inline(always)]
    fn probe_in_window(
        &self,
        kind: Kind,
        offset: u64,
        wanted: &[u8],
        look: ProbeMode,
    ) -> Option<Probe>
        requires { look.sure ≡ false → IsPlain wanted.now }
        ensures below { IfSome result (λ probe. probe.start ≤ offset) }
        ensures beyond { IfSome result (λ probe. offset < probe.next) }
        ensures probed { R.honest → IfSome result (IsProbeAt kind
            (drop self.now.base (R.bytes self.now.reader)) wanted.now look.sure offset) }
        ensures sure { R.honest → self.now.from ≡ 0 →
            length self.now.window.items ≡ length (drop self.now.base (R.bytes self.now.reader)) →
            offset < length self.now.window.items → IsSome result }
    {
        let len = self.window.len() as u64;
        if offset < self.from || offset - self.from >= len {
            return None;
        }
        let at = (offset - self.from) as usize;
        let at_eof = self.from + len == self.records_len();
        probe_in(
            self.window.as_slice(),
            self.from,
            at,
            at_eof,
            kind,
            wanted,
            look,
        )
    }

    /// The record that begins at the place, if the window shows it; `Here(None)` where none is there.
    fn record_in_window(&self, kind: Kind, start: u64) -> InWindow<Option<Found>>
        ensures front { R.honest → IfHere result
            (FrontIs kind (drop start (drop self.now.base (R.bytes self.now.reader)))) }
        ensures sure { R.honest → self.now.from ≡ 0 →
            length self.now.window.items ≡ length (drop self.now.base (R.bytes self.now.reader)) →
            start < length self.now.window.items → IsHere result }
    {
        let len = self.window.len() as u64;
        if start < self.from || start - self.from >= len {
            return InWindow::NeedMore;
        }
        let at = (start - self.from) as usize;
        let at_eof = self.from + len == self.records_len();
        record_in(self.window.as_slice(), self.from, at, at_eof, kind)
    }

    /// The record that begins at the place, if one does.
    fn record_at(&mut self, kind: Kind, start: u64) -> Result<Option<Found>, ReadError>
        ensures same { IsSameFile self.old self.new }
        ensures count { R.faults self.new.reader ≡ count_part result (R.faults self.old.reader) }
        ensures front { R.honest → IfOk result
            (FrontIs kind (drop start (drop self.old.base (R.bytes self.old.reader)))) }
        ensures stays { R.honest → start < length (drop self.old.base (R.bytes self.old.reader)) →
            IfErr result IsNoChange }
    {
        for turn in 0..MAX_WINDOW_DOUBLINGS {
            if let InWindow::Here(found) = self.record_in_window(kind, start) {
                return Ok(found);
            }
            self.fill(start, window_size(turn))?;
        }
        match self.record_in_window(kind, start) {
            InWindow::Here(found) => Ok(found),
            InWindow::NeedMore => Err(ReadError::Changed),
        }
    }

    /// The record of a full name, by halving, for a file whose header says that it is sorted. Each probe is counted as a
    /// probe; a probe reads a window of 1 KB, or none where the last window has the place, and grows it for a longer
    /// line. So a name among a million costs some seventeen reads. `None` where the records have no such name. `Read`
    /// is returned where the file could not be read, `Parse` where a malformed line was met and nothing was found, or the
    /// record that was found cannot be read.
    pub fn try_find_full<L: Ledger>(
        &mut self,
        kind: Kind,
        name: FullNameRef<'_>,
        probes: &mut Probes<L>,
    ) -> Result<Option<Found>, FindError>
        ensures same { IsSameFile self.old self.new }
        ensures probes { probes.old ≤ probes.new }
        ensures cost { R.honest → CountsProbes
            (length (drop self.old.base (R.bytes self.old.reader))) probes.old probes.new }
        ensures finds { R.honest → FindsInFile kind (drop self.old.base (R.bytes self.old.reader))
            (full_ref_bytes name.entry) result }

        // The reader counts a fault where the file could not be read, and no other.
        ensures count { R.faults self.new.reader ≡ count_found result (R.faults self.old.reader) }
    {
        let start = match search(self, kind, name.to_path(), probes) {
            Ok(Some(start)) => start,
            Ok(None) => return Ok(None),
            Err(SearchError::Read(error)) => return Err(FindError::Read(error)),
            Err(SearchError::Parse) => return Err(FindError::Parse),
        };
        match self.record_at(kind, start) {
            Ok(Some(found)) => Ok(Some(found)),
            Ok(None) => Err(FindError::Parse),
            Err(error) => Err(FindError::Read(error)),
        }
    }

    /// The record of a full name, where the ledger of the count is new.
    fn find_blank<L: Ledger>(
        &mut self,
        kind: Kind,
        name: FullNameRef<'_>,
        blank: Blank,
    ) -> Result<Option<Found>, FindError>
        requires name { blank.name ≡ L.name }
        requires parts { blank.parts ≡ L.parts }
        requires some { 0 < blank.parts }
        ensures same { IsSameFile self.old self.new }
        ensures finds { R.honest → FindsInFile kind (drop self.old.base (R.bytes self.old.reader))
            (full_ref_bytes name.entry) result }
        ensures count { R.faults self.new.reader ≡ count_found result (R.faults self.old.reader) }
    {
        let mut probes = Probes::<L>::new(blank);
        self.try_find_full(kind, name, &mut probes)
    }

    /// The ids of the record of a full name, as `try_find_full` finds it, for a caller who does not count. As gix-ref's
    /// `packed::Buffer::try_find`.
    pub fn find(&mut self, kind: Kind, name: FullNameRef<'_>) -> Result<Option<Found>, FindError>
        ensures same { IsSameFile self.old self.new }
        ensures finds { R.honest → FindsInFile kind (drop self.old.base (R.bytes self.old.reader))
            (full_ref_bytes name.entry) result }

        // The reader counts a fault where the file could not be read, and nowhere else.
        ensures count { R.faults self.new.reader ≡ count_found result (R.faults self.old.reader) }
    {
        self.find_blank::<Brand>(kind, name, Blank::new(1))
    }
}

/// What is said of the text holds where the reader is honest.
impl<R: ReadAt + Drop> SearchableRecords for SortedFile<R> {
    ghost use Rattle.std.specs.Prelude.{drop};
    ghost use Rattle.gix_ref_packed.specs.FileSearches.{IsNoChange, count_read};
    ghost use Rattle.gix_ref_files.specs.Files.{FaultCounts};

    ghost honest = { R.honest };

    ghost bytes = { λ s. drop s.base (R.bytes s.reader) };

    ghost frame = { λ s. (R.bytes s.reader, s.base, R.size s.reader) };

    ghost met = { FaultCounts };

    ghost faults = { λ s. R.faults s.reader };

    type Error = ReadError;

    ghost can_fail = { IsNoChange };

    ghost count = { count_read };

    fn len(&self) -> u64 {
        self.records_len()
    }

    #[inline(always)]
    fn probe(
        &mut self,
        kind: Kind,
        offset: u64,
        wanted: &[u8],
        look: ProbeMode,
    ) -> Result<Probe, ReadError> {
        for turn in 0..MAX_WINDOW_DOUBLINGS {
            if let Some(probe) = self.probe_in_window(kind, offset, wanted, look) {
                return Ok(probe);
            }
            self.fill(offset, window_size(turn))?;
        }
        match self.probe_in_window(kind, offset, wanted, look) {
            Some(probe) => Ok(probe),
            None => Err(ReadError::Changed),
        }
    }
}
