//! Records at the front of a text, which are read and passed.
ghost use Rattle.std.specs.Prelude.{◌≡◌, ◌≢◌, List, [], ◌∷◌, ℕ, MatchOption, IfOk, IfErr};
ghost use Rattle.gix_ref_target.specs.PackedRecords.{Record};
ghost use Rattle.gix_ref_packed_text.specs.RecordGrammar.{Takes};
ghost use Rattle.gix_ref_packed_text.specs.Rewrites.{IsStuckAt};
ghost use Rattle.gix_ref_packed_text.specs.internal.Passing.{PassesRecords, PassesUntil};

use crate::ahead::Ahead;
use crate::error::Error;
use crate::one_record::{after_record, line_count};
use crate::packed::decode::take_record;
use gix_ref_hash::hash::Kind;

/// Passes records until so many bytes are left, or less. The error is the first line that is no record.
pub fn pass_until<'a>(ahead: Ahead<'a>, kind: Kind, left: usize) -> Result<Ahead<'a>, Error>
    ensures passes { IfOk result (PassesUntil kind left ahead.entry) }
    ensures refused { IfErr result (IsStuckAt kind ahead.entry.line ahead.entry.rest.now) }
{
    let mut rest = ahead.rest;
    let mut line = ahead.line;
    while rest.len() > left {
        let Some((after, lines)) = after_record(rest, kind) else {
            return Err(Error::Iteration { line_number: line });
        };
        line += lines;
        rest = after;
    }
    Ok(Ahead { rest, line })
}

/// What follows the first record, where that is the record of the key.
pub fn pass_named<'a>(ahead: Ahead<'a>, kind: Kind, key: &[u8]) -> Option<Ahead<'a>>
    ensures { MatchOption result ((r : Record) (rest : List ℕ) →
        Takes kind ahead.entry.rest.now r rest → r.name ≢ key.now)
        (λ next. (r : Record) × (r.name ≡ key.now) × PassesRecords kind ahead.entry (r ∷ []) next) }
{
    let Some((reference, after)) = take_record(ahead.rest, kind) else {
        return None;
    };
    if reference.name.to_path() != key {
        return None;
    }
    Some(Ahead {
        rest: after,
        line: ahead.line + line_count(&reference),
    })
}
