//! `packed-refs` with changes of its records.
ghost use Rattle.std.specs.Prelude.{◌≡◌, List, [], IfOk, IfErr, OnOk};
ghost use Rattle.gix_ref_target.specs.PackedRecords.{Record};
ghost use Rattle.gix_ref_files.specs.ReadOnly.{OnlyReads};
ghost use Rattle.gix_ref_packed.specs.Buffers.{buffer_text, buffer_line, HoldsRecords};
ghost use Rattle.gix_ref_lookup.specs.Lookups.{ArePackedRecordsWith, meaning_in};
ghost use Rattle.gix_ref_packed_transaction.specs.Changes.{AreDistinct, BecomesBy, IsChanged, change_values};
ghost use Rattle.gix_ref_packed_transaction.specs.Refusals.{IsCountedRefusal, IsRepackFault, IsReadFile, IsReadText, IsRefusedRewrite, IsStuckIn, of_rewrite, repack_of_opening};

use crate::changes::{KeyChange, record_edits};
use crate::error::Error;
use gix_ref_files::files::Files;
use gix_ref_hash::hash::Kind;
use gix_ref_lookup::settings::Settings;
use gix_ref_packed::packed::Buffer;
use gix_ref_packed::packed::buffer::open;
use gix_ref_packed_text::error::Error as RewriteError;
use gix_ref_packed_text::outcome::Rewrite;
use gix_ref_packed_text::rewrite::rewrite;
use std::alloc::Global;

/// How a fault of opening is reported.
fn refused(error: open::Error) -> Error
    ensures { result ≡ repack_of_opening error }
{
    match error {
        open::Error::HeaderParsing => Error::Iteration { line_number: 1 },
        open::Error::Iter { line_number } => Error::Iteration { line_number },
        open::Error::Io(error) => Error::Io(error),
        open::Error::Memory => Error::Memory,
    }
}

/// How a fault of a rewrite is reported.
fn stuck(error: RewriteError) -> Error
    ensures { result ≡ of_rewrite error }
{
    match error {
        RewriteError::Iteration { line_number } => Error::Iteration { line_number },
        RewriteError::Memory => Error::Memory,
    }
}

/// What becomes of the records of a buffer by changes, which are in the order of their keys.
pub fn changed(
    alloc: Global,
    buffer: &Buffer,
    kind: Kind,
    changes: &[KeyChange],
) -> Result<Rewrite, Error>
    ensures rewritten { (rs : List Record) → HoldsRecords kind rs (buffer_text buffer.now) →
        BecomesBy kind changes.now rs (λ error. error ≡ Error.Memory) result }
    ensures whole { OnOk result (IsReadText kind (buffer_text buffer.now)) }
    ensures refused { IfErr result
        (IsStuckIn kind (buffer_line buffer.now) (buffer_text buffer.now)) }
{
    let edits = record_edits(alloc, changes)?;
    match rewrite(alloc, buffer.as_bytes(), buffer.first_line(), kind, &edits) {
        Ok(rewritten) => Ok(rewritten),
        Err(error) => Err(stuck(error)),
    }
}

/// What becomes of no records by changes, which are in the order of their keys.
pub fn made(alloc: Global, kind: Kind, changes: &[KeyChange]) -> Result<Rewrite, Error>
    ensures rewritten { AreDistinct (change_values changes.now) → IfOk result
        (IsChanged kind (change_values changes.now) []) }
    ensures memory { IfErr result (λ error. error ≡ Error.Memory) }
{
    let edits = record_edits(alloc, changes)?;
    match rewrite(alloc, b"", 1, kind, &edits) {
        Ok(rewritten) => Ok(rewritten),
        Err(error) => Err(stuck(error)),
    }
}

/// What becomes of `packed-refs` by changes, which are in the order of their keys: it is read once, as a whole, if there is one.
pub fn file_changed<F: Files>(
    alloc: Global,
    files: &mut F,
    settings: &Settings<'_>,
    changes: &[KeyChange],
) -> Result<Rewrite, Error>
    ensures rewritten { F.honest → (rs : List Record) → ArePackedRecordsWith settings.now
        (F.means files.old) rs → BecomesBy settings.now.kind changes.now rs IsRepackFault result }
    ensures whole { F.honest → OnOk result (IsReadFile settings.now.kind
        ((F.means files.old).tree (meaning_in settings.now).packed_path)) }
    ensures refused { F.honest → IfErr result (IsRefusedRewrite settings.now.kind
        ((F.means files.old).tree (meaning_in settings.now).packed_path)) }
    ensures reads { OnlyReads F.honest F.means F.faults files.old files.new }
    ensures counted { IfErr result (IsCountedRefusal (F.faults files.old) (F.faults files.new)) }
{
    let path = settings.packed_refs_path(alloc)?;
    match Buffer::open(alloc, files, &path, u64::MAX, settings.kind) {
        Ok(Some(buffer)) => changed(alloc, &buffer, settings.kind, changes),
        Ok(None) => made(alloc, settings.kind, changes),
        Err(error) => Err(refused(error)),
    }
}
