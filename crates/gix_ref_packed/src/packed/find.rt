//! The search for a reference in a `packed-refs` in memory, by halving.
ghost use Rattle.std.specs.Prelude.{◌≡◌, ◌≤◌, ◌<◌, ◌++◌, List, None, true, false, length};
ghost use Rattle.std.specs.Bool.{OnTrue};
ghost use Rattle.gix_ref_name.specs.NameGrammar.{IsPartialName};
ghost use Rattle.gix_ref_target.specs.PackedRecords.{Record, record_named};
ghost use Rattle.gix_ref_packed.specs.Searches.{Finds, FindsOne, FindsPartial};
ghost use Rattle.gix_ref_packed_text.specs.RecordGrammar.{Forms, Ascending};
ghost use Rattle.gix_ref_packed_text.specs.Positions.{HasRecordLine};
ghost use Rattle.gix_ref_packed_text.specs.Probed.{IsProbeAt};
ghost use Rattle.gix_ref_packed_text.specs.SearchCosts.{CountsProbes};
ghost use Rattle.gix_ref_name.specs.Candidates.{is_full_ref_path as rooted};

pub mod existing;

use crate::packed::buffer::Buffer;
use gix_ref_hash::hash::Kind;
use gix_ref_name::name::candidates::is_full_ref_path;
use gix_ref_name::name::{self, FullNameRef, PartialNameRef};
use gix_ref_packed_text::packed::decode::take_record;
use gix_ref_packed_text::packed::search::search;
use gix_ref_packed_text::packed::searchable::{InMemory, Probe, ProbeMode, SearchableRecords};
use gix_ref_packed_text::packed::{Probes, Reference};
use gix_ref_target::layout::packed_key;
use std::alloc::{AllocError, Global};
use std::cmp::Ordering;
use std::marker::Brand;
use std::sync::ledger::{Blank, Ledger};
use thiserror::Error;

/// How many bytes the longest of the four fronts has, `refs/remotes/`.
const LONGEST_FRONT: usize = 13;

/// Why a search for a partial name fails.
#[derive(Clone, Copy, Debug, PartialEq, Eq, Error)]
pub enum Error {
    /// The name is invalid. No call of this crate returns this: it is for callers that convert by `?`.
    #[error("the reference name is invalid: {0}")]
    RefnameValidation(name::Error),
    /// A malformed line was met and nothing was found, or the record that was found cannot be read.
    #[error("a record of packed-refs cannot be read")]
    Parse,
    /// There was no memory for a name that is asked for.
    #[error("there was no memory for a name")]
    Memory,
}

impl From<AllocError> for Error {
    ghost use Rattle.std.specs.Prelude.{◌≡◌};
    ghost use Rattle.gix_ref_packed.specs.declared.packed.find.Error.TheVariants.{Memory};

    ghost from_gives = { λ _ e. e ≡ Memory };

    fn from(_error: AllocError) -> Error {
        Error::Memory
    }
}

impl From<ParseError> for Error {
    ghost use Rattle.std.specs.Prelude.{◌≡◌};
    ghost use Rattle.gix_ref_packed.specs.declared.packed.find.Error.TheVariants.{Parse};

    ghost from_gives = { λ _ e. e ≡ Parse };

    fn from(_error: ParseError) -> Error {
        Error::Parse
    }
}

/// A malformed line was met and nothing was found, or the record that was found cannot be read.
#[derive(Clone, Copy, Debug, PartialEq, Eq, Error)]
#[error("a record of packed-refs cannot be read")]
pub struct ParseError;

/// The record of the name in a text of records.
pub(crate) fn find_record<'a, L: Ledger>(
    text: &'a [u8],
    kind: Kind,
    wanted: &[u8],
    probes: &mut Probes<L>,
) -> Result<Option<Reference<'a>>, ParseError>
    ensures counts { probes.old ≤ probes.new }
    ensures cost { CountsProbes (length text.now) probes.old probes.new }
    ensures finds { Finds kind text.now wanted.now result }
{
    let mut whole = InMemory { bytes: text };
    let start = match search(&mut whole, kind, wanted, probes) {
        Ok(Some(start)) => start,
        Ok(None) => return Ok(None),
        Err(_) => return Err(ParseError),
    };
    match take_record(&text[start as usize..], kind) {
        Some((reference, _)) => Ok(Some(reference)),
        None => Err(ParseError),
    }
}

/// The record of the name, where the ledger of the count is new.
fn find_blank<'a, L: Ledger>(
    text: &'a [u8],
    kind: Kind,
    wanted: &[u8],
    blank: Blank,
) -> Result<Option<Reference<'a>>, ParseError>
    requires name { blank.name ≡ L.name }
    requires parts { blank.parts ≡ L.parts }
    requires some { 0 < blank.parts }
    ensures { Finds kind text.now wanted.now result }
{
    let mut probes = Probes::<L>::new(blank);
    find_record(text, kind, wanted, &mut probes)
}

/// What a sure look at the record that this byte is in sees.
fn probe_at(text: &[u8], kind: Kind, offset: usize, wanted: &[u8]) -> Probe
    requires { offset < length text.now }
    ensures probed { IsProbeAt kind text.now wanted.now true offset result }
    ensures beyond { offset < result.next }
{
    let mut whole = InMemory { bytes: text };
    let look = ProbeMode::sure(text.len() as u64);
    match whole.probe(kind, offset as u64, wanted, look) {
        Ok(probe) => probe,
        Err(never) => match never {},
    }
}

/// Whether the name lies behind that of the last record, or before that of the first: where names rise, no record has it.
fn lies_outside(text: &[u8], kind: Kind, wanted: &[u8]) -> bool
    ensures none { OnTrue result ((rs : List Record) → Forms kind text.now rs → Ascending rs →
        record_named wanted.now rs ≡ None) }
    ensures some { OnTrue result (HasRecordLine kind text.now) }
{
    let Some(end) = text.len().checked_sub(1) else {
        return false;
    };
    let last = probe_at(text, kind, end, wanted);
    if let Some(Ordering::Less) = last.order {
        return true;
    }
    let first = probe_at(text, kind, 0, wanted);
    matches!(first.order, Some(Ordering::Greater))
}

/// The record of the name in a text of records, where nobody counts. Most records are below `refs/`: a name that is not
/// is mostly known by the first and the last of them.
fn find_uncounted<'a>(
    text: &'a [u8],
    kind: Kind,
    wanted: &[u8],
) -> Result<Option<Reference<'a>>, ParseError>
    ensures { Finds kind text.now wanted.now result }
{
    if !wanted.starts_with(b"refs/") && lies_outside(text, kind, wanted) {
        return Ok(None);
    }
    find_blank::<Brand>(text, kind, wanted, Blank::new(1))
}

/// The record of the key of a partial name that is a full name already.
fn find_rooted<'a>(text: &'a [u8], kind: Kind, name: &[u8]) -> Result<Option<Reference<'a>>, Error>
    requires valid { IsPartialName name.now }
    requires rooted { rooted name.now ≡ true }
    ensures { FindsPartial kind text.now name.now result }
{
    let Ok(full) = FullNameRef::try_from(name) else {
        unreachable!();
    };
    match packed_key(full) {
        Some(key) => Ok(find_uncounted(text, kind, key)?),
        None => Ok(None),
    }
}

/// The record of the name after a front. The buffer gets the full name, in place of what was in it.
fn find_behind<'a>(
    text: &'a [u8],
    kind: Kind,
    full: &mut Vec<u8>,
    front: &[u8],
    name: &[u8],
) -> Result<Option<Reference<'a>>, Error>
    ensures { FindsOne kind text.now (front.now ++ name.now) result }
{
    full.clear();
    full.extend_from_slice(front)?;
    full.extend_from_slice(name)?;
    Ok(find_uncounted(text, kind, full)?)
}

/// The record of a partial name that is no full name: after `refs/`, `refs/tags/`, `refs/heads/` or `refs/remotes/`.
fn find_partial<'a>(
    alloc: Global,
    text: &'a [u8],
    kind: Kind,
    name: &[u8],
) -> Result<Option<Reference<'a>>, Error>
    requires { rooted name.now ≡ false }
    ensures { FindsPartial kind text.now name.now result }
{
    let mut full = Vec::with_capacity(alloc, name.len().saturating_add(LONGEST_FRONT))?;
    if let Some(reference) = find_behind(text, kind, &mut full, b"refs/", name)? {
        return Ok(Some(reference));
    }
    if let Some(reference) = find_behind(text, kind, &mut full, b"refs/tags/", name)? {
        return Ok(Some(reference));
    }
    if let Some(reference) = find_behind(text, kind, &mut full, b"refs/heads/", name)? {
        return Ok(Some(reference));
    }
    find_behind(text, kind, &mut full, b"refs/remotes/", name)
}

impl Buffer {
    ghost use Rattle.std.specs.Prelude.{◌≤◌, length};
    ghost use Rattle.gix_ref_name.specs.Names.{full_ref_bytes, partial_ref_bytes};
    ghost use Rattle.gix_ref_packed.specs.Searches.{Finds, FindsPartial, as_try_find};
    ghost use Rattle.gix_ref_packed_text.specs.SearchCosts.{CountsProbes};
    ghost use Rattle.gix_ref_packed.specs.Buffers.{buffer_text, buffer_kind};

    /// The record of a full name, by halving: each look at a record is counted as a probe, and there are at most as many
    /// as the number of bytes has binary digits, about twenty among ten thousand records. `None` where the records have
    /// no such name. The error is returned where a malformed line was met and nothing was found, and where the record that
    /// was found cannot be read. Takes no memory. As the search of gix-ref's `packed::Buffer::try_find`.
    pub fn try_find_full<L: Ledger>(
        &self,
        name: FullNameRef<'_>,
        probes: &mut Probes<L>,
    ) -> Result<Option<Reference<'_>>, ParseError>
        ensures counts { probes.old ≤ probes.new }
        ensures cost { CountsProbes (length (buffer_text self.now)) probes.old probes.new }
        ensures finds { Finds (buffer_kind self.now) (buffer_text self.now)
            (full_ref_bytes name.entry) result }
    {
        find_record(self.as_bytes(), self.kind(), name.to_path(), probes)
    }

    /// As `try_find_full`, for a caller who does not count.
    ///
    /// ```text
    /// if let Some(record) = packed.try_find_key(FullNameRef::try_from("refs/tags/v1.0")?)? {
    ///     println!(rt; "{}", record.target())?;
    /// }
    /// ```
    pub fn try_find_key(&self, name: FullNameRef<'_>) -> Result<Option<Reference<'_>>, ParseError>
        ensures { Finds (buffer_kind self.now) (buffer_text self.now)
            (full_ref_bytes name.entry) result }
    {
        find_uncounted(self.as_bytes(), self.kind(), name.to_path())
    }

    /// The record of a partial name. As gix-ref's `packed::Buffer::try_find`.
    ///
    /// A name that begins with `refs/`, `main-worktree/` or `worktrees/` is searched by its key: a reference that each
    /// worktree has for itself has none. Any other name is searched after `refs/`, `refs/tags/`, `refs/heads/` and
    /// `refs/remotes/`, in this order (`gitrevisions`). `Parse` as for `try_find_full`; `Memory` where there was no memory
    /// for such a name.
    ///
    /// ```text
    /// if let Some(tag) = packed.try_find(alloc, PartialNameRef::try_from("v1.0")?)? {
    ///     println!(rt; "{} {}", tag.target(), tag.name)?; // the id, and refs/tags/v1.0
    /// }
    /// ```
    pub fn try_find(
        &self,
        alloc: Global,
        name: PartialNameRef<'_>,
    ) -> Result<Option<Reference<'_>>, Error>
        ensures { FindsPartial (buffer_kind self.now) (buffer_text self.now)
            (partial_ref_bytes name.entry) result }
    {
        let path = name.to_partial_path();
        if is_full_ref_path(path) {
            find_rooted(self.as_bytes(), self.kind(), path)
        } else {
            find_partial(alloc, self.as_bytes(), self.kind(), path)
        }
    }

    /// The record of a partial name that must be there, as `try_find` finds it: `NotFound` where it finds none, and `Find`
    /// where it fails. As gix-ref's `packed::Buffer::find`.
    ///
    /// ```text
    /// let tag = packed.find(alloc, PartialNameRef::try_from("v1.0")?)?; // the record of refs/tags/v1.0
    /// ```
    pub fn find(
        &self,
        alloc: Global,
        name: PartialNameRef<'_>,
    ) -> Result<Reference<'_>, existing::Error>
        ensures { FindsPartial (buffer_kind self.now) (buffer_text self.now)
            (partial_ref_bytes name.entry) (as_try_find result) }
    {
        match self.try_find(alloc, name) {
            Ok(Some(reference)) => Ok(reference),
            Ok(None) => Err(existing::Error::NotFound),
            Err(error) => Err(existing::Error::Find(error)),
        }
    }
}
