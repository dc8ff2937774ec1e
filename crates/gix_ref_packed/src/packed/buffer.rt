//! `packed-refs` in memory: opening it, and the text of its records.
ghost use Rattle.std.specs.Prelude.{◌≤◌, ◌<◌, vec_len};

pub mod open;

use crate::packed::order::read_order;
use crate::packed::sorting::sorted_text;
use gix_ref_files::files::{FileError, Files, Node};
use gix_ref_hash::hash::Kind;
use gix_ref_packed_text::packed::header_end::{
    HeaderEnd, first_line_behind, read_header_end, says_sorted,
};
use open::Error;
use std::alloc::Global;

/// The records of a `packed-refs` in memory, in the order of their names. As gix-ref's `packed::Buffer`.
#[derive(Debug, Drop)]
pub struct Buffer {
    bytes: Vec<u8>,
    /// Where the records begin in the bytes.
    start: usize,
    kind: Kind,
    /// The number of the records' first line in the file, from 1.
    first_line: u64,
    pub ghost inside: { start ≤ vec_len bytes },
    pub ghost early: { first_line < 3 },
}

impl Buffer {
    ghost use Rattle.std.specs.Prelude.{◌≡◌, ◌≤◌, ◌<◌, IfOk, IfErr, IsErrOf, MatchOption, true, false, vec_len, drop};
    ghost use Rattle.gix_ref_files.specs.Tree.{is_file, bytes_of};
    ghost use Rattle.gix_ref_files.specs.Files.{AtEveryStop, OnEveryDisk};
    ghost use Rattle.gix_ref_files.specs.Calls.{Unchanged};
    ghost use Rattle.gix_ref_files.specs.DiskCalls.{Untouched};
    ghost use Rattle.gix_ref_packed_text.specs.OpenedText.{Keeps};
    ghost use Rattle.gix_ref_packed.specs.Buffers.{buffer_text, buffer_kind, buffer_line, Opened, IsRefusedText, IsRefusedFile, IsStuck, count_open};

    /// Opens the file at a path, whose ids are of the kind; `None` where no file is there. `Io` where it cannot be
    /// read, and else an error of `from_bytes`. The threshold, from which on other stores map the file into memory, has
    /// no effect. The file is read once, into memory. As gix-ref's `packed::Buffer::open`.
    ///
    /// ```text
    /// if let Some(packed) = Buffer::open(alloc, &mut files, b".git/packed-refs", 32_768, Kind::Sha1)? {
    ///     println!(rt; "{} bytes of records", packed.as_bytes().len())?;
    /// }
    /// ```
    pub fn open<F: Files>(
        alloc: Global,
        files: &mut F,
        path: &[u8],
        _threshold: u64,
        kind: Kind,
    ) -> Result<Option<Buffer>, Error>
        ensures opened { F.honest → IfOk result
            (λ found. MatchOption found (is_file ((F.means files.old).tree path.now) ≡ false)
            (λ b. (is_file ((F.means files.old).tree path.now) ≡ true)
            × Opened kind (bytes_of ((F.means files.old).tree path.now)) b)) }
        ensures refused { F.honest → IfErr result
            (IsRefusedFile kind ((F.means files.old).tree path.now)) }
        ensures leaves { F.honest → AtEveryStop F.means files.old files.new Unchanged }
        ensures passes { F.honest → OnEveryDisk F.means files.old files.new Untouched }
        ensures count { F.faults files.new ≡ count_open result (F.faults files.old) }
        ensures memory { IsErrOf result (Error.Io FileError.Memory) → ⊥ }
    {
        let mut bytes = Vec::new(alloc);
        match files.read(alloc, path, &mut bytes) {
            Ok(Node::File) => {}
            Ok(_) => return Ok(None),
            Err(FileError::Memory) => return Err(Error::Memory),
            Err(error) => return Err(Error::Io(error)),
        }
        match Buffer::from_bytes(alloc, bytes, kind) {
            Ok(buffer) => Ok(Some(buffer)),
            Err(error) => Err(error),
        }
    }

    /// Opens a text, which it keeps. `HeaderParsing` where it begins with `#` and has no header. Where its header says
    /// that it is sorted, nothing but that line is looked at. Else each record is read, at a cost of n log n for n
    /// records: `Iter` reports the first line that is no record. Where a name is below an earlier one, the records are put in
    /// the order of their names, those of one name in their old order, and `Memory` reports that there was no memory for
    /// that (`git pack-refs`). As gix-ref's `packed::Buffer::from_bytes`.
    ///
    /// ```text
    /// let text = fs::read(&rt, ".git/packed-refs")?;
    /// let packed = Buffer::from_bytes(alloc, text, Kind::Sha1)?;
    /// ```
    pub fn from_bytes(alloc: Global, bytes: Vec<u8>, kind: Kind) -> Result<Buffer, Error>
        ensures opened { IfOk result (Opened kind bytes.items) }
        ensures refused { IfErr result (IsRefusedText kind bytes.items) }
    {
        let Some(HeaderEnd { header, start }) = read_header_end(&bytes) else {
            return Err(Error::HeaderParsing);
        };
        let first_line = first_line_behind(header);
        if says_sorted(header) {
            return Ok(Buffer::from_start(bytes, start, kind, first_line));
        }
        Buffer::sorted(alloc, bytes, start, kind, first_line)
    }

    /// The buffer of a text whose records begin at a byte, the first line of them having that number in the file.
    pub(crate) fn from_start(bytes: Vec<u8>, start: usize, kind: Kind, first_line: u64) -> Buffer
        requires inside { start ≤ vec_len bytes }
        requires line { first_line ≤ 2 }
        ensures text { buffer_text result ≡ drop start bytes.items }
        ensures kind { buffer_kind result ≡ kind }
        ensures line { buffer_line result ≡ first_line }
    {
        Buffer {
            bytes,
            start,
            kind,
            first_line,
        }
    }

    /// The allocator of its bytes.
    pub(crate) fn alloc(&self) -> Global {
        *self.bytes.allocator()
    }

    /// The buffer of a text whose records are to be sorted.
    fn sorted(
        alloc: Global,
        bytes: Vec<u8>,
        start: usize,
        kind: Kind,
        first_line: u64,
    ) -> Result<Buffer, Error>
        requires inside { start ≤ vec_len bytes }
        requires line { first_line ≤ 2 }
        ensures keeps { IfOk result
            (λ b. Keeps kind false (drop start bytes.items) (buffer_text b)) }
        ensures kind { IfOk result (λ b. buffer_kind b ≡ kind) }
        ensures line { IfOk result (λ b. buffer_line b ≡ first_line) }
        ensures refused { IfErr result (IsStuck kind first_line (drop start bytes.items)) }
    {
        let text = &bytes[start..];
        let rises = read_order(text, kind, first_line)?;
        if rises {
            return Ok(Buffer::from_start(bytes, start, kind, first_line));
        }
        let sorted = sorted_text(alloc, text, kind, first_line)?;
        Ok(Buffer::from_start(sorted, 0, kind, first_line))
    }

    /// The text of the records, without the header. As gix-ref's `packed::Buffer::as_ref`.
    pub fn as_bytes(&self) -> &[u8]
        ensures { result.now ≡ buffer_text self.now }
    {
        &self.bytes[self.start..]
    }

    /// The kind of the ids. Not in gix-ref.
    pub fn kind(&self) -> Kind
        ensures { result ≡ buffer_kind self.now }
    {
        self.kind
    }

    /// The number of the records' first line in the file, from 1. Not in gix-ref.
    pub fn first_line(&self) -> u64
        ensures line { result ≡ buffer_line self.now }
        ensures early { result < 3 }
    {
        self.first_line
    }
}
