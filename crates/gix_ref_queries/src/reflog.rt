//! `reflog exists` and `reflog show`.
ghost use Rattle.std.specs.Prelude.{◌++◌, IfOk, codes};
ghost use Rattle.gix_ref_store.specs.Lookup.{LooksUp};
ghost use Rattle.gix_ref_name.specs.Names.{full_ref_bytes};
ghost use Rattle.gix_ref_queries.specs.Answers.{Fails, ExistsAs};
ghost use Rattle.gix_ref_queries.specs.LogRows.{IsUnreadLog, ShowAnswer, ShowsLog};

use crate::answer::{Answer, fatal, said};
use crate::log_rows::shown_log;
use crate::resolve::{End, Followed, follow};
use gix_ref_files::files::Files;
use gix_ref_name::name::FullNameRef;
use gix_ref_store::file::Store;
use gix_ref_store::file::log::Error;
use std::alloc::{AllocError, Global};

/// `reflog exists NAME`: nothing, and status 0 where the reference has a reflog, 1 where it has none; `invalid ref format: NAME` with
/// status 128 where the name breaks a rule of names, and another error where that cannot be found out. The error reports that there
/// was no memory. As `git reflog exists`.
pub fn log_exists<F: Files>(
    alloc: Global,
    store: &mut Store<F>,
    name: &[u8],
) -> Result<Answer, AllocError>
    ensures answers { IfOk result
        (ExistsAs F.means F.faults F.honest store.old store.new name.now) }
    ensures unchanged { LooksUp F.honest F.means store.old store.new }
{
    let Some(full) = FullNameRef::from_path(name) else {
        return fatal(alloc, b"invalid ref format: ", name, b"");
    };
    match store.reflog_exists(alloc, full) {
        Ok(true) => Ok(said(alloc, Vec::new(alloc), 0)),
        Ok(false) => Ok(said(alloc, Vec::new(alloc), 1)),
        Err(Error::Memory) => Err(AllocError),
        Err(_) => fatal(alloc, b"cannot look at the reflog of ", name, b""),
    }
}

/// The error for a log that is not read.
fn unread_log(alloc: Global, name: &[u8], error: Error) -> Result<Answer, AllocError>
    ensures { IfOk result (IsUnreadLog name.now error) }
{
    match error {
        Error::Memory => Err(AllocError),
        _ => fatal(alloc, b"cannot read the reflog of '", name, b"'"),
    }
}

/// The answer for a name that leads to an object over this last name.
fn show_either<F: Files>(
    alloc: Global,
    store: &mut Store<F>,
    name: FullNameRef<'_>,
    last: FullNameRef<'_>,
    count: Option<usize>,
) -> Result<Answer, AllocError>
    ensures answers { IfOk result (ShowsLog F.honest F.means F.faults store.old store.new
        (full_ref_bytes name.entry) (full_ref_bytes last.entry) count) }
    ensures unchanged { LooksUp F.honest F.means store.old store.new }
{
    match shown_log(alloc, store, name, name.to_path(), count) {
        Ok(Some(text)) => return Ok(said(alloc, text, 0)),
        Ok(None) => {}
        Err(error) => return unread_log(alloc, name.to_path(), error),
    }
    match shown_log(alloc, store, last, name.to_path(), count) {
        Ok(Some(text)) => Ok(said(alloc, text, 0)),
        Ok(None) => Ok(said(alloc, Vec::new(alloc), 0)),
        Err(error) => unread_log(alloc, last.to_path(), error),
    }
}

/// The error for a name that leads to no object.
fn ambiguous(alloc: Global, name: &[u8]) -> Result<Answer, AllocError>
    ensures { IfOk result (Fails (codes "ambiguous argument '" ++ (name.now
        ++ codes "': unknown revision or path not in the working tree."))) }
{
    let end = b"': unknown revision or path not in the working tree.";
    fatal(alloc, b"ambiguous argument '", name, end)
}

/// `reflog show NAME` and `reflog show -n COUNT NAME`: a line for each entry of the reflog of a reference, newest first: the new id, the
/// name with the place of the entry, and the message; so many lines, or all. A symbolic reference without an entry of its own shows the
/// log of the last name to which it leads. A line of a log that cannot be read is passed over.
///
/// An error with status 128: `invalid ref format: NAME` where it is no full name, `ambiguous argument 'NAME': ..` where it leads to no
/// object, and another one where it cannot be followed or a log cannot be read. The error that is returned reports that there was no
/// memory.
///
/// Costs a lookup for each name on the way, and the whole log in memory. As `git reflog show --no-abbrev`, which also asks for the commits.
pub fn show_log<F: Files>(
    alloc: Global,
    store: &mut Store<F>,
    name: &[u8],
    count: Option<usize>,
) -> Result<Answer, AllocError>
    ensures answers { IfOk result
        (ShowAnswer F.honest F.means F.faults F.Reader.ReadAt store.old store.new name.now count) }
    ensures unchanged { LooksUp F.honest F.means store.old store.new }
{
    let Ok(full) = FullNameRef::try_from(name) else {
        return fatal(alloc, b"invalid ref format: ", name, b"");
    };
    let owned = full.to_owned(alloc)?;
    let Followed { name: last, end } = follow(alloc, store, owned);
    match end {
        End::Object(_) => show_either(alloc, store, full, last.as_ref(), count),
        End::Absent => ambiguous(alloc, name),
        End::TooDeep => ambiguous(alloc, name),
        End::Unread(_) => fatal(alloc, b"cannot follow '", name, b"'"),
        End::Memory => Err(AllocError),
    }
}
