//! `for-each-ref`.
ghost use Rattle.std.specs.Prelude.{◌≡◌, IfOk, false};
ghost use Rattle.std.specs.List.{find};
ghost use Rattle.std.specs.Option.{option_map};
ghost use Rattle.gix_ref_store.specs.Lookup.{LooksUp};
ghost use Rattle.gix_ref_queries.specs.Patterns.{has_other_sign, texts};
ghost use Rattle.gix_ref_queries.specs.Rows.{EachAnswer, EachListed, IsItemFault, IsUnfollowedAs, IsUnlistedAs};

use crate::answer::{Answer, fatal, said};
use crate::format::{FormatError, Part, parse};
use crate::listing::{Unlisted, list_asked};
use crate::locks::lines;
use crate::pattern::has_other_sign;
use crate::rows::{RowError, choose, rows};
use gix_ref_files::files::Files;
use gix_ref_store::file::Store;
use gix_ref_store::file::iter::Error;
use gix_ref_store::file::iter::loose_then_packed::Error as ItemError;
use std::alloc::{AllocError, Global};

/// The first pattern that is not supported.
fn other_pattern<'p>(patterns: &[&'p [u8]]) -> Option<&'p [u8]>
    ensures { option_map (λ pattern. pattern.now) result
        ≡ find (has_other_sign false) (texts patterns.now) }
{
    for pattern in patterns {
        if has_other_sign(pattern) {
            return Some(*pattern);
        }
    }
    None
}

/// The error for a fault in a listing.
fn faulty(alloc: Global, error: ItemError) -> Result<Answer, AllocError>
    ensures { IfOk result (IsItemFault error) }
{
    match error {
        ItemError::Traversal { path, .. } => fatal(alloc, b"cannot list the folder '", &path, b"'"),
        ItemError::ReadFileContents { path, .. } => fatal(alloc, b"cannot read '", &path, b"'"),
        ItemError::ReferenceCreation { relative_path, .. } => {
            fatal(alloc, b"no reference in '", &relative_path, b"'")
        }
        ItemError::PackedReference { invalid_line, .. } => {
            fatal(
                alloc,
                b"unexpected line in packed-refs: ",
                &invalid_line,
                b"",
            )
        }
        ItemError::Memory => Err(AllocError),
    }
}

/// The error for references that are not listed.
fn unlisted(alloc: Global, why: Unlisted) -> Result<Answer, AllocError>
    ensures { IfOk result (IsUnlistedAs why) }
{
    match why {
        Unlisted::Prefix(Error::PackedOpen(_)) => {
            fatal(alloc, b"cannot read packed-refs", b"", b"")
        }
        Unlisted::Prefix(Error::Memory) => Err(AllocError),
        Unlisted::Prefix(Error::EmptyPrefix | Error::PrefixNotClean) => {
            fatal(alloc, b"cannot list 'refs/'", b"", b"")
        }
        Unlisted::Item(error) => faulty(alloc, error),
    }
}

/// The error for a reference that cannot be followed.
fn unfollowed(alloc: Global, why: RowError<'_>) -> Result<Answer, AllocError>
    ensures { IfOk result (IsUnfollowedAs why.entry) }
{
    match why {
        RowError::Unread(name) => fatal(alloc, b"cannot follow '", name.to_path(), b"'"),
        RowError::Memory => Err(AllocError),
    }
}

/// The answer where the format and the patterns are supported.
fn each_listed<F: Files>(
    alloc: Global,
    store: &mut Store<F>,
    parts: &[Part],
    patterns: &[&[u8]],
    descending: bool,
    count: Option<usize>,
) -> Result<Answer, AllocError>
    ensures answers { IfOk result (EachListed F.honest F.means F.faults F.Reader.ReadAt store.old
        store.new parts.now (texts patterns.now) descending count) }
    ensures unchanged { LooksUp F.honest F.means store.old store.new }
{
    let references = match list_asked(alloc, store, patterns) {
        Ok(references) => references,
        Err(why) => return unlisted(alloc, why),
    };
    match rows(alloc, store, parts, &references) {
        Ok(mut rows) => {
            choose(&mut rows, descending, count);
            Ok(said(alloc, lines(alloc, &rows)?, 0))
        }
        Err(why) => unfollowed(alloc, why),
    }
}

/// `for-each-ref --format=FORMAT [PATTERN..]`: a row for each reference below `refs/` that leads to an object and that one of the
/// patterns matches, by ascending names, or by descending ones (`--sort=-refname`), the first `count` of them or all.
///
/// The format may have `%(refname)`, `%(objectname)`, `%(symref)`, `%%` and `%xx` with two hex digits; another byte is shown as it is.
/// `%(objectname)` is the id to which a reference leads, and `%(symref)` the last name on the way of a symbolic one. A pattern matches
/// a name that it is, a name that begins with it up to a slash, and a name that it describes with `*` and `?`, neither of which is a
/// slash. With no pattern each reference is asked for.
///
/// An error with status 128: `unsupported field: %(NAME)`, `unsupported pattern: PATTERN` where it has `[`, `\` or `**`, and the first
/// fault of the listing, of which nothing is printed then. The error that is returned reports that there was no memory.
///
/// Costs a listing (`Store::walk_prefixed`) and a lookup for each name on the way of a symbolic reference; a name is compared with a
/// pattern in at most the product of their lengths. As `git for-each-ref`, which also warns of references that lead to no object.
pub fn for_each_ref<F: Files>(
    alloc: Global,
    store: &mut Store<F>,
    format: &[u8],
    patterns: &[&[u8]],
    descending: bool,
    count: Option<usize>,
) -> Result<Answer, AllocError>
    ensures answers { IfOk result (EachAnswer F.honest F.means F.faults F.Reader.ReadAt store.old
        store.new format.now (texts patterns.now) descending count) }
    ensures unchanged { LooksUp F.honest F.means store.old store.new }
{
    let parts = match parse(alloc, format) {
        Ok(parts) => parts,
        Err(FormatError::Field(field)) => {
            return fatal(alloc, b"unsupported field: %", field, b"");
        }
        Err(FormatError::Memory) => return Err(AllocError),
    };
    if let Some(pattern) = other_pattern(patterns) {
        return fatal(alloc, b"unsupported pattern: ", pattern, b"");
    }
    each_listed(alloc, store, &parts, patterns, descending, count)
}
