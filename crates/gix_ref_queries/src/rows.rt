//! The rows of references (`git for-each-ref`).
ghost use Rattle.std.specs.Prelude.{◌≡◌, ◌++◌, IfOk, IfErr, OnOk};
ghost use Rattle.std.specs.Option.{option_to_list};
ghost use Rattle.gix_ref_name.specs.Names.{full_bytes, full_ref_bytes};
ghost use Rattle.gix_ref_store.specs.Lookup.{LooksUp};
ghost use Rattle.gix_ref_queries.specs.Resolving.{IsUnread, OfTargets, resolved};
ghost use Rattle.gix_ref_queries.specs.Rows.{IsRowError, IsUnfollowed, IsUnreadRow, IsUnreadShort, SeesFollowedRow, SeesRow, SeesRows, SeesShown, counted, followed_row, ordered, row_made, row_of, row_texts, rows_of, shown_short};

use crate::format::{Part, row, shows_short};
use crate::resolve::{End, Followed, follow};
use crate::short::{ShortError, short_name};
use gix_ref_files::files::Files;
use gix_ref_name::name::FullNameRef;
use gix_ref_store::file::Store;
use gix_ref_store::raw::Reference;
use gix_ref_target::target::Target;
use std::alloc::{AllocError, Global};

/// Why rows of references were not made.
#[derive(Debug, Drop)]
pub enum RowError<'r> {
    /// This symbolic reference was not followed to its end: a lookup failed.
    Unread(FullNameRef<'r>),
    /// There was no memory.
    Memory,
}

impl From<AllocError> for RowError<'_> {
    ghost use Rattle.std.specs.Prelude.{◌≡◌};
    ghost use Rattle.gix_ref_queries.specs.declared.rows.RowError.TheVariants.{Memory};

    ghost from_gives = { λ _ e. e ≡ Memory };

    fn from(_error: AllocError) -> Self {
        RowError::Memory
    }
}

/// The short name of a reference, where a format shows it; else nothing.
fn shown_short<'r, F: Files>(
    alloc: Global,
    store: &mut Store<F>,
    parts: &[Part],
    name: FullNameRef<'r>,
) -> Result<&'r [u8], RowError<'r>>
    ensures short { OfTargets F.honest F.means store.old (λ find. IfOk result
        (λ short. short.now ≡ shown_short find parts.now (full_ref_bytes name.entry))) }
    ensures seen { F.honest → IfOk result (λ short. SeesShown F.means store.old parts.now
        (full_ref_bytes name.entry) short.now) }
    ensures failed { IfErr result (IsRowError (IsUnreadShort F.honest F.means F.faults
        F.Reader.ReadAt store.old parts.now (full_ref_bytes name.entry))
        (full_ref_bytes name.entry)) }
    ensures unchanged { LooksUp F.honest F.means store.old store.new }
{
    if !shows_short(parts) {
        return Ok(b"");
    }
    match short_name(alloc, store, true, name.to_path()) {
        Ok(short) => Ok(short),
        Err(ShortError::Unread(_)) => Err(RowError::Unread(name)),
        Err(ShortError::Memory) => Err(RowError::Memory),
    }
}

/// The row of a symbolic reference, if it leads to an object.
fn followed_row<'r, F: Files>(
    alloc: Global,
    store: &mut Store<F>,
    parts: &[Part],
    name: FullNameRef<'r>,
    short: &[u8],
) -> Result<Option<Vec<u8>>, RowError<'r>>
    ensures rows { OfTargets F.honest F.means store.old (λ find. IfOk result (λ row. row_made row
        ≡ followed_row parts.now (full_ref_bytes name.entry) short.now
        (resolved find 5 (full_ref_bytes name.entry)))) }
    ensures seen { F.honest → IfOk result (λ row. SeesFollowedRow F.means store.old parts.now
        (full_ref_bytes name.entry) short.now (row_made row)) }
    ensures failed { IfErr result (IsRowError (IsUnread F.Reader.ReadAt F.honest F.means F.faults
        store.old (full_ref_bytes name.entry)) (full_ref_bytes name.entry)) }
    ensures unchanged { LooksUp F.honest F.means store.old store.new }
{
    let owned = name.to_owned(alloc)?;
    let Followed { name: last, end } = follow(alloc, store, owned);
    match end {
        End::Object(id) => {
            let text = row(alloc, parts, name.to_path(), short, &id, last.to_path())?;
            Ok(Some(text))
        }
        End::Absent | End::TooDeep => Ok(None),
        End::Unread(_) => Err(RowError::Unread(name)),
        End::Memory => Err(RowError::Memory),
    }
}

/// The row of a reference, if it leads to an object.
fn row_of<'r, F: Files>(
    alloc: Global,
    store: &mut Store<F>,
    parts: &[Part],
    reference: &'r Reference,
) -> Result<Option<Vec<u8>>, RowError<'r>>
    ensures rows { OfTargets F.honest F.means store.old
        (λ find. IfOk result (λ row. row_made row ≡ row_of find parts.now reference.now)) }
    ensures seen { F.honest → IfOk result
        (λ row. SeesRow F.means store.old parts.now reference.now (row_made row)) }
    ensures failed { IfErr result (IsRowError (IsUnreadRow F.honest F.means F.faults
        F.Reader.ReadAt store.old parts.now reference.now) (full_bytes reference.now.name)) }
    ensures unchanged { LooksUp F.honest F.means store.old store.new }
{
    let name = reference.name.as_ref();
    let short = match shown_short(alloc, store, parts, name) {
        Ok(short) => short,
        Err(error) => return Err(error),
    };
    match &reference.target {
        Target::Object(id) => {
            let text = row(alloc, parts, name.to_path(), short, id, b"")?;
            Ok(Some(text))
        }
        Target::Symbolic(_) => followed_row(alloc, store, parts, name, short),
    }
}

/// Adds a row, if there is one.
fn keep(rows: &mut Vec<Vec<u8>>, row: Option<Vec<u8>>) -> Result<(), AllocError>
    ensures { OnOk result (row_texts rows.new.items
        ≡ row_texts rows.old.items ++ option_to_list (row_made row)) }
{
    if let Some(row) = row {
        rows.push(row)?;
    }
    Ok(())
}

/// The rows of references, each without a line feed; none for a symbolic reference that leads to no object. A symbolic reference is
/// looked up with the names on its way, five at most; and where the format shows short names, what else each may be short for
/// (`short_name`). The error names a reference of which a lookup failed, or reports that there was no memory.
pub fn rows<'r, F: Files>(
    alloc: Global,
    store: &mut Store<F>,
    parts: &[Part],
    references: &'r [Reference],
) -> Result<Vec<Vec<u8>>, RowError<'r>>
    ensures rows { OfTargets F.honest F.means store.old (λ find. IfOk result
        (λ rows. row_texts rows.items ≡ rows_of find parts.now references.now)) }
    ensures seen { F.honest → IfOk result
        (λ rows. SeesRows F.means store.old parts.now references.now (row_texts rows.items)) }
    ensures failed { IfErr result (IsUnfollowed F.honest F.means F.faults F.Reader.ReadAt
        store.old parts.now references.now) }
    ensures unchanged { LooksUp F.honest F.means store.old store.new }
{
    let mut rows = Vec::new(alloc);
    for reference in references {
        let row = match row_of(alloc, store, parts, reference) {
            Ok(row) => row,
            Err(error) => return Err(error),
        };
        keep(&mut rows, row)?;
    }
    Ok(rows)
}

/// Turns rows round where they are to descend.
fn order(rows: &mut Vec<Vec<u8>>, descending: bool)
    ensures { row_texts rows.new.items ≡ ordered descending (row_texts rows.old.items) }
{
    if descending {
        rows.reverse();
    }
}

/// Keeps the first so many rows, or all.
fn limit(rows: &mut Vec<Vec<u8>>, count: Option<usize>)
    ensures { row_texts rows.new.items ≡ counted count (row_texts rows.old.items) }
{
    if let Some(count) = count {
        rows.truncate(count);
    }
}

/// Puts rows that ascend into the order that is asked for, and keeps the first so many.
pub(crate) fn choose(rows: &mut Vec<Vec<u8>>, descending: bool, count: Option<usize>)
    ensures { row_texts rows.new.items
        ≡ counted count (ordered descending (row_texts rows.old.items)) }
{
    order(rows, descending);
    limit(rows, count);
}
