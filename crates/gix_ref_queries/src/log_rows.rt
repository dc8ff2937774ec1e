//! What is shown of a reflog (`git reflog show`).
ghost use Rattle.std.specs.Prelude.{◌≡◌, ◌++◌, IfOk, IfErr, OnOk};
ghost use Rattle.std.specs.Iterator.Runs.{WholeRun};
ghost use Rattle.std.specs.List.{filter_map};
ghost use Rattle.std.specs.Option.{option_to_list};
ghost use Rattle.std.specs.Result.{result_ok};
ghost use Rattle.gix_ref_name.specs.Names.{full_ref_bytes};
ghost use Rattle.gix_ref_log.specs.LogForward.{ForwardStep};
ghost use Rattle.gix_ref_log.specs.LogLines.{line_ref_parts};
ghost use Rattle.gix_ref_lookup.specs.Reflogs.{count_log};
ghost use Rattle.gix_ref_store.specs.Lookup.{LooksUp};
ghost use Rattle.gix_ref_store.specs.Store.{files_of};
ghost use Rattle.gix_ref_store.specs.Reflogs.{reflog_at, IsNoReflog};
ghost use Rattle.gix_ref_queries.specs.LogRows.{IsShownOf, IsShownOfRun, entry_line, entry_lines, entry_parts, newest};

use gix_ref_files::files::Files;
use gix_ref_log::log::LineRef;
use gix_ref_log::log::iter::{Forward, decode};
use gix_ref_name::name::FullNameRef;
use gix_ref_store::file::Store;
use gix_ref_store::file::log::Error;
use itoa::Buffer;
use std::alloc::{AllocError, Global};

/// Adds a line of a log, if it can be read.
fn keep<'b>(
    entries: &mut Vec<LineRef<'b>>,
    line: Result<LineRef<'b>, decode::Error>,
) -> Result<(), AllocError>
    ensures { OnOk result (entries.new.items
        ≡ entries.old.items ++ option_to_list (result_ok line.entry)) }
{
    if let Ok(line) = line {
        entries.push(line)?;
    }
    Ok(())
}

/// The lines of a log that can be read, oldest first. The others are passed over, as Git does.
fn readable<'b>(alloc: Global, lines: Forward<'b>) -> Result<Vec<LineRef<'b>>, AllocError>
    ensures { IfOk result (λ entries. WholeRun ForwardStep lines.entry
        (λ run. entries.items ≡ filter_map result_ok run.items)) }
{
    let mut entries = Vec::new(alloc);
    for line in lines {
        keep(&mut entries, line)?;
    }
    Ok(entries)
}

/// Puts the newest entry first, and keeps the first so many, or all.
fn put_newest_first(entries: &mut Vec<LineRef<'_>>, count: Option<usize>)
    ensures { entry_parts entries.new.items ≡ newest count (entry_parts entries.old.items) }
{
    entries.reverse();
    if let Some(count) = count {
        entries.truncate(count);
    }
}

/// Adds the line of an entry.
fn push_entry(
    text: &mut Vec<u8>,
    name: &[u8],
    place: usize,
    entry: &LineRef<'_>,
) -> Result<(), AllocError>
    ensures { OnOk result (text.new.items
        ≡ text.old.items ++ entry_line name.now place (line_ref_parts entry.now)) }
{
    let mut digits = Buffer::new();
    text.extend_from_slice(entry.new_oid)?;
    text.extend_from_slice(b" ")?;
    text.extend_from_slice(name)?;
    text.extend_from_slice(b"@{")?;
    text.extend_from_slice(digits.format(place).as_bytes())?;
    text.extend_from_slice(b"}: ")?;
    text.extend_from_slice(entry.message)?;
    text.extend_from_slice(b"\n")?;
    Ok(())
}

/// A line for each entry.
fn lines(alloc: Global, name: &[u8], entries: &[LineRef<'_>]) -> Result<Vec<u8>, AllocError>
    ensures { IfOk result (λ text. text.items ≡ entry_lines name.now 0 (entry_parts entries.now)) }
{
    let mut text = Vec::new(alloc);
    for (place, entry) in entries.iter().enumerate() {
        push_entry(&mut text, name, place, entry)?;
    }
    Ok(text)
}

/// What is shown of the lines of a log, if one of them can be read.
fn shown_lines(
    alloc: Global,
    log: Forward<'_>,
    name: &[u8],
    count: Option<usize>,
) -> Result<Option<Vec<u8>>, AllocError>
    ensures { IfOk result (λ text. WholeRun ForwardStep log.entry
        (λ run. IsShownOfRun run.items name.now count text)) }
{
    let mut entries = readable(alloc, log)?;
    if entries.is_empty() {
        return Ok(None);
    }
    put_newest_first(&mut entries, count);
    let text = lines(alloc, name, &entries)?;
    Ok(Some(text))
}

/// What is shown of the log of a reference under a name, newest entry first, so many entries or all; `None` where there is no log, and
/// where no line of it can be read. The error is that of `Store::reflog_iter`.
pub(crate) fn shown_log<F: Files>(
    alloc: Global,
    store: &mut Store<F>,
    of: FullNameRef<'_>,
    name: &[u8],
    count: Option<usize>,
) -> Result<Option<Vec<u8>>, Error>
    ensures shows { F.honest → IfOk result
        (IsShownOf (reflog_at F.means store.old (full_ref_bytes of.entry)) name.now count) }
    ensures failed { IfErr result (IsNoReflog store.old (full_ref_bytes of.entry)) }
    ensures count { F.faults (files_of store.new)
        ≡ count_log result (F.faults (files_of store.old)) }
    ensures unchanged { LooksUp F.honest F.means store.old store.new }
{
    let mut buf = Vec::new(alloc);
    match store.reflog_iter(alloc, of, &mut buf) {
        Ok(Some(log)) => match shown_lines(alloc, log, name, count) {
            Ok(text) => Ok(text),
            Err(_) => Err(Error::Memory),
        },
        Ok(None) => Ok(None),
        Err(error) => Err(error),
    }
}
