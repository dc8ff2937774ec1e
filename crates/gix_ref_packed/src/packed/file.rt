//! A `packed-refs` that is searched where it is: opening it, and the search for a full name.
ghost use Rattle.std.specs.Prelude.{◌≡◌, ◌≤◌, ℕ, List, true, drop, IfOk, IfErr, Err};
ghost use Rattle.gix_ref_hash.specs.declared.hash.Kind.{Kind};
ghost use Rattle.gix_ref_files.specs.Files.{FaultCounts};
ghost use Rattle.gix_ref_target.specs.PackedRecords.{Record};
ghost use Rattle.gix_ref_packed_text.specs.RecordGrammar.{Records, Rising};
ghost use Rattle.gix_ref_packed.specs.Buffers.{IsRefusedBytes, count_open};
ghost use Rattle.gix_ref_packed.specs.FileSearches.{IsNoChange, count_read};
ghost use Rattle.gix_ref_packed.specs.OpenFiles.{OpenedFile, FailsByRead};
ghost use Rattle.gix_ref_packed.specs.internal.Parts.{IsUnread};

use crate::packed::buffer::Buffer;
use crate::packed::buffer::open::Error;
use crate::packed::file_header::file_header;
use crate::packed::order::{ReadRecords, read_records};
use crate::packed::parts::read_part;
use crate::packed::sorted_file::{FindError, ReadError, SortedFile};
use crate::packed::unsorted::Unsorted;
use gix_ref_files::files::{FileError, Files, ReadAt};
use gix_ref_hash::hash::Kind;
use gix_ref_name::name::FullNameRef;
use gix_ref_packed_text::packed::decode::Header;
use gix_ref_packed_text::packed::header_end::{HeaderEnd, first_line_behind, says_sorted};
use gix_ref_packed_text::packed::window::Found;
use std::alloc::Global;

/// A `packed-refs` that is open for searches. Not in gix-ref, which maps the file into memory, and sorts the records at once where
/// the header does not say that they are sorted.
#[derive(Drop)]
pub enum PackedFile<R: ReadAt + Drop> {
    /// The header says that the records are sorted, or no name is below the one before it: a search reads the parts of the
    /// file that it needs.
    InFile {
        source: SortedFile<R>,
        kind: Kind,
        header: Option<Header>,
    },
    /// The names of the records do not rise: a search reads the file up to the record.
    Unsorted(Unsorted<R>),
}

/// The error of opening for one of reading; a file that is opened has no earlier reads from which it could differ.
fn refusal(error: ReadError) -> Error
    requires { IsNoChange error }
    ensures refused { (kind : Kind) (bytes : List ℕ) → IsRefusedBytes kind bytes result }
    ensures unread { (kind : Kind) (first : ℕ) (text : List ℕ) → IsUnread kind first text result }
    ensures counts { (n : FaultCounts) → count_read error n ≡ count_open (Err result) n }
{
    match error {
        ReadError::Io(error) => Error::Io(error),
        ReadError::Memory => Error::Memory,
        ReadError::Changed => unreachable!(),
    }
}

/// Reads each record of a file from that place on, in parts; whether no name is below the one before it. The first line has the
/// number `first`. `Iter` at the first line that is no record, `Io` and `Memory`.
fn file_order<R: ReadAt>(
    alloc: Global,
    reader: &mut R,
    part: &mut Vec<u8>,
    start: u64,
    kind: Kind,
    first: u64,
) -> Result<bool, Error>
    requires { first ≤ 2 }
    ensures same { (R.bytes reader.new ≡ R.bytes reader.old)
        × (R.size reader.new ≡ R.size reader.old) }
    ensures failed { IfErr result (FailsByRead R.faults) }
    ensures order { R.honest → IfOk result (λ rises. (rs : List Record)
        × Records kind (drop start (R.bytes reader.old)) rs × (rises ≡ true → Rising rs)) }
    ensures refused { R.honest →
        IfErr result (IsUnread kind first (drop start (R.bytes reader.old))) }
{
    let mut place = start;
    let mut line = first;
    let mut last = Vec::new(alloc);
    let mut rises = true;
    while place < reader.len() {
        match read_part(reader, part, place) {
            Ok(()) => {}
            Err(error) => return Err(refusal(error)),
        }
        let before = ReadRecords {
            line,
            last: last.as_slice(),
            rises,
        };
        let read = read_records(before, part.as_slice(), kind)?;
        place += part.len() as u64;
        line = read.line;
        rises = read.rises;
        last = read.last.to_vec(alloc)?;
    }
    Ok(rises)
}

/// Opens the file of a reader.
fn open_reader<R: ReadAt + Drop>(
    alloc: Global,
    mut reader: R,
    kind: Kind,
) -> Result<PackedFile<R>, Error>
    ensures opened { R.honest → IfOk result (OpenedFile kind (R.bytes reader)) }
    ensures refused { R.honest → IfErr result (IsRefusedBytes kind (R.bytes reader)) }
    ensures failed { IfErr result (FailsByRead R.faults) }
{
    let mut window = Vec::new(alloc);
    let HeaderEnd { header, start } = match file_header(&mut window, &mut reader) {
        Ok(Some(heading)) => heading,
        Ok(None) => return Err(Error::HeaderParsing),
        Err(error) => return Err(refusal(error)),
    };
    let start = start as u64;
    if !says_sorted(header) {
        let first = first_line_behind(header);
        let rises = file_order(alloc, &mut reader, &mut window, start, kind, first)?;
        if !rises {
            let records = Unsorted::new(reader, start, kind, header, window);
            return Ok(PackedFile::Unsorted(records));
        }
    }
    let source = SortedFile::with_window_memory(window, reader, start);
    Ok(PackedFile::InFile {
        source,
        kind,
        header,
    })
}

impl<R: ReadAt + Drop> PackedFile<R> {
    ghost use Rattle.std.specs.Prelude.{◌≡◌, IfOk, IfErr, MatchOption, true, false};
    ghost use Rattle.gix_ref_name.specs.Names.{full_ref_bytes};
    ghost use Rattle.gix_ref_files.specs.Tree.{is_file, bytes_of};
    ghost use Rattle.gix_ref_files.specs.Files.{AtEveryStop, OnEveryDisk};
    ghost use Rattle.gix_ref_files.specs.Calls.{Unchanged};
    ghost use Rattle.gix_ref_files.specs.DiskCalls.{Untouched};
    ghost use Rattle.gix_ref_packed.specs.Buffers.{IsRefusedFile};
    ghost use Rattle.gix_ref_packed.specs.OpenFiles.{OpenedFile, CountsRefusal, packed_file_text, packed_file_kind, packed_file_line, packed_file_faults, FailsFindByRead, HasSameRecords};
    ghost use Rattle.gix_ref_packed.specs.FilePrefixes.{BufferHoldsAsked, HoldsPrefix, FailsReadBy};
    ghost use Rattle.gix_ref_packed_text.specs.Prefixes.{NamesAscend};
    ghost use Rattle.gix_ref_packed.specs.FileSearches.{FindsInFile, IsNoChange, count_found};

    /// Opens the file at a path, whose ids are of the kind; `None` where no file is there. In place of the memory map of gix-ref's
    /// `packed::Buffer::open`.
    ///
    /// ```text
    /// if let Some(mut packed) = PackedFile::open(alloc, &mut files, b".git/packed-refs", Kind::Sha1)? {
    ///     let found = packed.find(FullNameRef::try_from("refs/tags/v1.0")?)?;
    /// }
    /// ```
    ///
    /// Of a file whose header says `sorted` only the first 1 KB is read, and more where the header's line is longer; any
    /// other file is read to its end, in parts of 64 KB, to learn whether its names rise. `Io` where the file cannot be read,
    /// `HeaderParsing` where it begins with `#` and has no header, `Iter` at the first line that is no record where the
    /// header does not say `sorted`, and `Memory` where there was no memory for what is read.
    pub fn open<F: Files<Reader = R>>(
        alloc: Global,
        files: &mut F,
        path: &[u8],
        kind: Kind,
    ) -> Result<Option<PackedFile<R>>, Error>
        ensures opened { F.honest → IfOk result
            (λ found. MatchOption found (is_file ((F.means files.old).tree path.now) ≡ false)
            (λ p. R.honest × (is_file ((F.means files.old).tree path.now) ≡ true)
            × OpenedFile kind (bytes_of ((F.means files.old).tree path.now)) p)) }
        ensures refused { F.honest → IfErr result
            (IsRefusedFile kind ((F.means files.old).tree path.now)) }
        ensures leaves { F.honest → AtEveryStop F.means files.old files.new Unchanged }
        ensures passes { F.honest → OnEveryDisk F.means files.old files.new Untouched }
        ensures no_fault { IfOk result (λ _. F.faults files.new ≡ F.faults files.old) }
        ensures failed { IfErr result
            (CountsRefusal R.faults (F.faults files.old) (F.faults files.new)) }
    {
        match files.open(alloc, path) {
            Ok(Some(reader)) => match open_reader(alloc, reader, kind) {
                Ok(file) => Ok(Some(file)),
                Err(error) => Err(error),
            },
            Ok(None) => Ok(None),
            Err(FileError::Memory) => Err(Error::Memory),
            Err(error) => Err(Error::Io(error)),
        }
    }

    /// The ids of the record of a full name; `None` where there is no such record. By halving: a name among a million
    /// records costs some seventeen reads of 1 KB. In records that are not in the order of their names, one after the other in
    /// parts of 64 KB, which costs as much as a fifteenth of sorting them; the seventeenth search reads the whole and sorts
    /// it, so that many searches cost twice the sorting at most. `Read` where the file cannot be read, or there was no memory
    /// for what is read; `Parse` where a line is malformed and nothing was found, or the record that was found cannot be
    /// read. As `Buffer::try_find_key`, without the text in memory.
    ///
    /// ```text
    /// if let Some(found) = packed.find(FullNameRef::try_from("refs/tags/v1.0")?)? {
    ///     println!(rt; "{}", found.target)?;
    /// }
    /// ```
    pub fn find(&mut self, name: FullNameRef<'_>) -> Result<Option<Found>, FindError>
        ensures same { HasSameRecords self.old self.new }
        ensures finds { R.honest → FindsInFile (packed_file_kind self.old)
            (packed_file_text self.old) (full_ref_bytes name.entry) result }

        // A fault is counted where the file could not be read, and no other.
        ensures count { packed_file_faults self.new
            ≡ count_found result (packed_file_faults self.old) }
        ensures failed { IfErr result (FailsFindByRead R.faults) }
    {
        match self {
            PackedFile::InFile { source, kind, .. } => source.find(*kind, name),
            PackedFile::Unsorted(records) => records.find(name),
        }
    }

    /// The records of the prefix, in a buffer that is asked by `iter_prefixed` of that prefix; other records may be in it.
    /// Of a sorted file only their lines are read, or the whole where they are more than an eighth of it, where a line
    /// among them is no record, or where halving met one that has not the form of a record: so lines are numbered as in the
    /// file. `Io` where the file could not be read, and `Memory` where there was no memory for what is read. Not in gix-ref.
    ///
    /// ```text
    /// let packed = file.into_prefixed(alloc, b"refs/tags/")?;
    /// for tag in packed.iter_prefixed(b"refs/tags/".to_vec(alloc)?) {
    ///     println!(rt; "{}", tag?.name)?;
    /// }
    /// ```
    pub fn into_prefixed(self, alloc: Global, prefix: &[u8]) -> Result<Buffer, ReadError>
        ensures holds { R.honest → IfOk result (HoldsPrefix (packed_file_kind self)
            (packed_file_text self) (packed_file_line self) prefix.now) }

        // Whatever the lines are, where names ascend: each line with a name of the prefix is in it.
        ensures asked { R.honest → NamesAscend (packed_file_kind self) (packed_file_text self) →
            IfOk result (BufferHoldsAsked (packed_file_kind self) (packed_file_text self)
            prefix.now) }
        ensures refused { R.honest → IfErr result IsNoChange }
        ensures failed { IfErr result (FailsReadBy R.faults) }
    {
        match self {
            PackedFile::InFile {
                mut source,
                kind,
                header,
            } => source.read_prefixed(alloc, kind, prefix, first_line_behind(header)),
            PackedFile::Unsorted(records) => records.into_sorted(),
        }
    }
}
