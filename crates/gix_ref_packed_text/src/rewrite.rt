//! The new text of `packed-refs`.
ghost use Rattle.std.specs.Prelude.{◌≡◌, ◌≤◌, ◌==◌, List, IfOk, IfErr, MatchResult};
ghost use Rattle.gix_ref_target.specs.PackedRecords.{Record};
ghost use Rattle.gix_ref_packed_text.specs.RecordGrammar.{Records, Ascending};
ghost use Rattle.gix_ref_packed_text.specs.declared.error.Error.TheVariants.{Memory};
ghost use Rattle.gix_ref_packed_text.specs.RecordEdits.{KeysAscend};
ghost use Rattle.gix_ref_packed_text.specs.Rewrites.{IsRewrite, IsStuckAt};
ghost use Rattle.gix_ref_packed_text.specs.internal.Applying.{IsOutcome};

use crate::ahead::Ahead;
use crate::edit::RecordEdit;
use crate::error::Error;
use crate::outcome::Rewrite;
use crate::packed::written::push_header;
use crate::step::apply_all;
use gix_ref_hash::hash::Kind;
use std::alloc::Global;

/// What a text is, of which the first bytes are the header.
fn outcome(text: Vec<u8>, header: usize, alters: bool) -> Rewrite
    ensures { IsOutcome text.items header alters result }
{
    if !alters {
        return Rewrite::Unchanged;
    }
    if text.len() == header {
        return Rewrite::Removed;
    }
    Rewrite::Text(text)
}

/// What becomes of `packed-refs` by edits of its records. `records` are those of the old file without its header, in the
/// order of their names, as `packed::Buffer` has them; their first line has the number `first_line` in the file. The edits
/// are in the order of their keys, each of another key. The new text has the header that is written, and the old records but
/// for those of the edited keys, with their ids as they were, and LF at the end of each line. Runs of them are copied as they
/// are. Each old record is read: `Iteration` reports the first line that is no record. As the text that gix-ref's
/// `packed::Transaction::commit` writes.
///
/// ```text
/// let edits = [RecordEdit { key: b"refs/tags/t", put: None }];
/// match rewrite(alloc, packed.as_bytes(), 2, Kind::Sha1, &edits)? {
///     Rewrite::Unchanged => {} // there is no such tag
///     Rewrite::Removed => {} // it was the only record: the file is to be removed
///     Rewrite::Text(text) => println!(rt; "{} bytes", text.len())?,
/// }
/// ```
pub fn rewrite(
    alloc: Global,
    records: &[u8],
    first_line: u64,
    kind: Kind,
    edits: &[RecordEdit<'_>],
) -> Result<Rewrite, Error>
    requires line { first_line ≤ 2 }

    // Of records in the order of their names it is what the edits make of them, and fails for want of memory alone.
    ensures rewritten { (rs : List Record) → Records kind records.now rs →
        Ascending rs → KeysAscend edits.now →
        MatchResult result (IsRewrite kind edits.now rs) (λ error. error ≡ Memory) }

    // Any text that it rewrites is records as a whole; else some line is no record, or there was no memory.
    ensures whole { IfOk result (λ _. (rs : List Record) × Records kind records.now rs) }
    ensures refused { IfErr result (IsStuckAt kind first_line records.now) }
{
    let mut text = Vec::with_capacity(alloc, records.len())?;
    push_header(&mut text)?;
    let header = text.len();
    let ahead = Ahead {
        rest: records,
        line: first_line,
    };
    let alters = apply_all(&mut text, ahead, kind, edits)?;
    Ok(outcome(text, header, alters))
}
