//! A `packed-refs` whose names do not rise: its file is searched line by line, until so many searches are made that sorting its
//! records is cheaper.
ghost use Rattle.std.specs.Prelude.{◌≡◌, ◌≤◌, ℕ, List, true, length, drop, Option, IfErr, IfOk};
ghost use Rattle.std.specs.Option.{ForSome, option_map};
ghost use Rattle.gix_ref_files.specs.Files.{FaultCounts};
ghost use Rattle.gix_ref_hash.specs.declared.hash.Kind.{Kind};
ghost use Rattle.gix_ref_name.specs.Names.{full_ref_bytes};
ghost use Rattle.gix_ref_target.specs.PackedRecords.{Record, record_named};
ghost use Rattle.gix_ref_packed_text.specs.OpenedText.{line_behind};
ghost use Rattle.gix_ref_packed_text.specs.RecordGrammar.{PeeledForm, Records};
ghost use Rattle.gix_ref_packed_text.specs.Views.{record_of};
ghost use Rattle.gix_ref_packed_text.specs.Windows.{AreFound};
ghost use Rattle.gix_ref_packed.specs.Buffers.{IsStuck, buffer_text, buffer_kind, buffer_line};
ghost use Rattle.gix_ref_packed.specs.FileSearches.{FindsInFile, IsNoChange, count_part, count_read};
ghost use Rattle.gix_ref_packed.specs.InOrder.{are_records, in_order};

use crate::packed::buffer::{Buffer, open};
use crate::packed::find::ParseError;
use crate::packed::parts::read_part;
use crate::packed::sorted_file::{FindError, ReadError, read_window};
use crate::packed::sorting::sorted_text;
use gix_ref_files::files::ReadAt;
use gix_ref_hash::hash::Kind;
use gix_ref_name::name::FullNameRef;
use gix_ref_packed_text::packed::Reference;
use gix_ref_packed_text::packed::decode::{Header, split_record_line, take_record};
use gix_ref_packed_text::packed::header_end::first_line_behind;
use gix_ref_packed_text::packed::lines::take_line;
use gix_ref_packed_text::packed::window::{Found, ids_of};
use std::alloc::Global;

/// After how many searches the records are sorted, at about the cost of so many searches more.
const SEARCHES: u8 = 16;

/// What follows the line with `^` at the front of a text, if one is there.
fn after_peeled(text: &[u8]) -> &[u8]
    ensures after { (object : Option (List ℕ)) (rest : List ℕ) →
        PeeledForm text.now object rest → result.now ≡ rest }
    ensures shorter { length result.now ≤ length text.now }
{
    let Some((b'^', line)) = text.split_first() else {
        return text;
    };
    match take_line(line) {
        Some((_, rest)) => rest,
        None => line,
    }
}

/// The first record of the name.
fn first_named<'a>(text: &'a [u8], kind: Kind, wanted: &[u8]) -> Option<Reference<'a>>
    ensures { (rs : List Record) → Records kind text.now rs →
        option_map record_of result ≡ record_named wanted.now rs }
{
    let mut rest = text;
    while let Some((_, name, after)) = split_record_line(rest, kind) {
        if name == wanted {
            return match take_record(rest, kind) {
                Some((record, _)) => Some(record),
                None => None,
            };
        }
        rest = after_peeled(after);
    }
    None
}

/// The ids of the first record of the name in a file, whose records begin at that place.
fn find_first<R: ReadAt>(
    reader: &mut R,
    part: &mut Vec<u8>,
    start: u64,
    kind: Kind,
    wanted: &[u8],
) -> Result<Option<Found>, ReadError>
    ensures same { (R.bytes reader.new ≡ R.bytes reader.old)
        × (R.size reader.new ≡ R.size reader.old) }
    ensures count { R.faults reader.new ≡ count_part result (R.faults reader.old) }
    ensures stays { IfErr result IsNoChange }
    ensures found { R.honest → (rs : List Record) →
        Records kind (drop start (R.bytes reader.old)) rs →
        IfOk result (AreFound (record_named wanted.now rs)) }
{
    let mut place = start;
    while place < reader.len() {
        read_part(reader, part, place)?;
        if let Some(reference) = first_named(part.as_slice(), kind, wanted) {
            return Ok(Some(ids_of(reference)));
        }
        place += part.len() as u64;
    }
    Ok(None)
}

/// The error of reading for one of sorting: records that were read before are read again.
fn not_sorted(error: open::Error) -> ReadError
    ensures no_change { (kind : Kind) (first : ℕ) (text : List ℕ) →
        are_records kind text ≡ true → IsStuck kind first text error → IsNoChange result }
    ensures no_fault { (n : FaultCounts) → count_read result n ≡ n }
{
    match error {
        open::Error::Memory => ReadError::Memory,
        open::Error::Iter { .. } => ReadError::Changed,
        open::Error::HeaderParsing => ReadError::Changed,
        open::Error::Io(_) => ReadError::Changed,
    }
}

/// The ids of the record of a full name in a buffer; `None` where there is no such record. `Parse` where a malformed line was met
/// and nothing was found, or the record that was found cannot be read. As `Buffer::try_find_key`, for a caller that keeps the
/// ids and not the buffer.
pub fn find_in_order(records: &Buffer, name: FullNameRef<'_>) -> Result<Option<Found>, FindError>
    ensures finds { FindsInFile (buffer_kind records.now) (buffer_text records.now)
        (full_ref_bytes name.entry) result }
    ensures parse { IfErr result (λ error. error ≡ FindError.Parse) }
{
    match records.try_find_key(name) {
        Ok(Some(reference)) => Ok(Some(ids_of(reference))),
        Ok(None) => Ok(None),
        Err(ParseError) => Err(FindError::Parse),
    }
}

/// The records of a `packed-refs`, each of which was read, in the order of their lines.
#[derive(Drop)]
pub struct Unsorted<R: ReadAt + Drop> {
    reader: R,
    /// Where the records begin in the file.
    start: u64,
    kind: Kind,
    header: Option<Header>,
    /// Memory for what is read.
    part: Vec<u8>,
    /// How many searches went through the file.
    searches: u8,
    /// The records in the order of their names, once they were sorted.
    sorted: Option<Buffer>,
    pub ghost are_records: { R.honest →
        are_records kind (drop start (R.bytes reader)) ≡ true },
    pub ghost sorted_kind: { ForSome sorted (λ b. (buffer_kind b ≡ kind)
        × (buffer_line b ≡ line_behind header)) },
    pub ghost sorted_text: { R.honest → ForSome sorted
        (λ b. buffer_text b ≡ in_order kind (drop start (R.bytes reader))) },
}

impl<R: ReadAt + Drop> Unsorted<R> {
    ghost use Rattle.std.specs.Prelude.{◌≡◌, IfOk, IfErr, true, drop};
    ghost use Rattle.gix_ref_name.specs.Names.{full_ref_bytes};
    ghost use Rattle.gix_ref_packed.specs.Buffers.{buffer_text};
    ghost use Rattle.gix_ref_packed.specs.FileSearches.{FindsInFile, IsNoChange, count_found, count_part};
    ghost use Rattle.gix_ref_packed.specs.FilePrefixes.{FailsReadBy};
    ghost use Rattle.gix_ref_packed.specs.InOrder.{are_records};
    ghost use Rattle.gix_ref_packed.specs.Unsorted.{IsNumberedLike, IsSameUnsorted, unsorted_kind, unsorted_text};

    /// The records of a file from that place on, with memory for what is read.
    pub(crate) fn new(
        reader: R,
        start: u64,
        kind: Kind,
        header: Option<Header>,
        part: Vec<u8>,
    ) -> Unsorted<R>
        requires { R.honest → are_records kind (drop start (R.bytes reader)) ≡ true }
        ensures reader { result.reader ≡ reader }
        ensures start { result.start ≡ start }
        ensures kind { result.kind ≡ kind }
        ensures header { result.header ≡ header }
    {
        Unsorted {
            reader,
            start,
            kind,
            header,
            part,
            searches: 0,
            sorted: None,
        }
    }

    /// The records in the order of their names, which the file is read for as a whole.
    fn read_sorted(&mut self) -> Result<Buffer, ReadError>
        ensures same { IsSameUnsorted self.old self.new }
        ensures count { R.faults self.new.reader ≡ count_part result (R.faults self.old.reader) }
        ensures text { R.honest → IfOk result (λ b. buffer_text b ≡ unsorted_text self.old) }
        ensures numbered { IfOk result (IsNumberedLike self.old) }
        ensures stays { R.honest → IfErr result IsNoChange }
    {
        let alloc = *self.part.allocator();
        let len = self.reader.len().saturating_sub(self.start);
        let mut text = Vec::new(alloc);
        read_window(&mut self.reader, &mut text, self.start, len as usize)?;
        let first_line = first_line_behind(self.header);
        match sorted_text(alloc, text.as_slice(), self.kind, first_line) {
            Ok(sorted) => Ok(Buffer::from_start(sorted, 0, self.kind, first_line)),
            Err(error) => Err(not_sorted(error)),
        }
    }

    /// Sorts records that were searched so often that their order is worth it. Where there was no memory for that, they
    /// stay as they are.
    fn sort_if_worn(&mut self) -> Result<(), ReadError>
        ensures same { IsSameUnsorted self.old self.new }
        ensures count { R.faults self.new.reader ≡ count_part result (R.faults self.old.reader) }
        ensures stays { R.honest → IfErr result IsNoChange }
    {
        if self.searches < SEARCHES || self.sorted.is_some() {
            return Ok(());
        }
        match self.read_sorted() {
            Ok(sorted) => {
                self.sorted = Some(sorted);
                Ok(())
            }
            Err(ReadError::Memory) => Ok(()),
            Err(error) => Err(error),
        }
    }

    /// The ids of the first record of the name, after a look at each record before it, or by halving once the records were
    /// sorted.
    pub(crate) fn find(&mut self, name: FullNameRef<'_>) -> Result<Option<Found>, FindError>
        ensures same { IsSameUnsorted self.old self.new }
        ensures finds { R.honest → FindsInFile (unsorted_kind self.old) (unsorted_text self.old)
            (full_ref_bytes name.entry) result }
        ensures count { R.faults self.new.reader ≡ count_found result (R.faults self.old.reader) }
    {
        match self.sort_if_worn() {
            Ok(()) => {}
            Err(error) => return Err(FindError::Read(error)),
        }
        if let Some(records) = &self.sorted {
            return find_in_order(records, name);
        }
        self.searches = self.searches.saturating_add(1);
        let wanted = name.to_path();
        match find_first(
            &mut self.reader,
            &mut self.part,
            self.start,
            self.kind,
            wanted,
        ) {
            Ok(found) => Ok(found),
            Err(error) => Err(FindError::Read(error)),
        }
    }

    /// The records in the order of their names.
    pub(crate) fn into_sorted(mut self) -> Result<Buffer, ReadError>
        ensures text { R.honest → IfOk result (λ b. buffer_text b ≡ unsorted_text self) }
        ensures numbered { IfOk result (IsNumberedLike self) }
        ensures stays { R.honest → IfErr result IsNoChange }
        ensures failed { IfErr result (FailsReadBy R.faults) }
    {
        match self.sorted.take() {
            Some(sorted) => Ok(sorted),
            None => self.read_sorted(),
        }
    }
}
