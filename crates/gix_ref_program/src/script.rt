//! Scripts: a transaction for each line that is not empty, one after the other (`git update-ref --stdin`).
ghost use Rattle.std.specs.Prelude.{◌≡◌, IfOk, MatchBool};
ghost use Rattle.gix_ref_files.specs.Files.{Leaves};
ghost use Rattle.gix_ref_packed.specs.OpenFiles.{HasReadFault};
ghost use Rattle.gix_ref_store.specs.Store.{files_of};
ghost use Rattle.gix_ref_program.specs.ScriptLines.{script_lines};
ghost use Rattle.gix_ref_program.specs.Scripts.{IsLineLoss, IsLineStop, IsScriptLoss, IsScriptStop, LineComes, LinePrints, ScriptPrints};
ghost use Rattle.gix_ref_program.specs.Updates.{LosesFromRest};
ghost use Rattle.gix_ref_program.specs.Writes.{terms_in};

use crate::outcome::{Outcome, print, refused};
use crate::refusal::Refusal;
use crate::script_lines::{commands_of, next_line};
use crate::transact::transact;
use crate::words::Line;
use gix_ref_files::files::Files;
use gix_ref_store::file::Store;
use gix_ref_store::file::transaction::PackedRefs;
use std::alloc::Global;
use std::io;
use std::io::Write;

/// Makes the transaction of a line. All its words are judged before any of its names.
fn make_line<F: Files>(
    alloc: Global,
    store: &mut Store<F>,
    packed_refs: PackedRefs,
    terms: &Line<'_>,
    line: &[u8],
) -> (PackedRefs, Outcome)
    ensures packed_refs { result.0 ≡ packed_refs }
    ensures outcome { LineComes F.honest (HasReadFault F.Reader.faults) F.means F.faults
        (terms_in terms.now packed_refs) line.now store.old store.new result.1 }
    ensures leaves { F.honest → Leaves (F.means (files_of store.old)) (F.means (files_of store.new))
        (λ T. IsLineStop F.honest F.means F.faults
        (terms_in terms.now packed_refs) T line.now store.old) }
    ensures loses { F.honest → LosesFromRest F.means store.old store.new
        (λ T. IsLineLoss F.honest F.means F.faults
        (terms_in terms.now packed_refs) T line.now store.old) }
{
    match commands_of(alloc, line) {
        Ok(Some(commands)) => transact(alloc, store, packed_refs, terms, &commands),
        Ok(None) => (packed_refs, refused(alloc, Refusal::WrongLine)),
        Err(_) => (packed_refs, refused(alloc, Refusal::Memory)),
    }
}

/// Makes the transaction of a line, and prints its outcome.
fn run_script_line<F: Files, W: Write>(
    alloc: Global,
    store: &mut Store<F>,
    packed_refs: PackedRefs,
    terms: &Line<'_>,
    line: &[u8],
    out: &mut W,
) -> (PackedRefs, io::Result<u8>)
    ensures packed_refs { result.0 ≡ packed_refs }
    ensures prints { LinePrints F.honest (HasReadFault F.Reader.faults) F.means F.faults
        (terms_in terms.now packed_refs) line.now store.old store.new
        (W.contents out.old) (W.contents out.new) result.1 }
    ensures leaves { F.honest → Leaves (F.means (files_of store.old)) (F.means (files_of store.new))
        (λ T. IsLineStop F.honest F.means F.faults
        (terms_in terms.now packed_refs) T line.now store.old) }
    ensures loses { F.honest → LosesFromRest F.means store.old store.new
        (λ T. IsLineLoss F.honest F.means F.faults
        (terms_in terms.now packed_refs) T line.now store.old) }
{
    let (packed_refs, outcome) = make_line(alloc, store, packed_refs, terms, line);
    (packed_refs, print(alloc, outcome, out))
}

/// Whether a status was reached, and is 0.
fn is_zero(status: &io::Result<u8>) -> bool
    ensures { MatchBool result (status.now ≡ Ok 0) (IfOk status.now (λ s. s ≡ 0 → ⊥)) }
{
    match status {
        Ok(status) => *status == 0,
        Err(_) => false,
    }
}

/// Runs the lines of a script, and prints the outcome of each as it comes: nothing for one that was made, but its locks that stay.
/// Ends at the first that is refused. The status is 0 where each was made, and else 1.
pub(crate) fn run_lines<F: Files, W: Write>(
    alloc: Global,
    store: &mut Store<F>,
    packed_refs: PackedRefs,
    terms: &Line<'_>,
    text: &[u8],
    out: &mut W,
) -> (PackedRefs, io::Result<u8>)
    ensures packed_refs { result.0 ≡ packed_refs }
    ensures prints { ScriptPrints F.honest (HasReadFault F.Reader.faults) F.means F.faults
        (terms_in terms.now packed_refs) (script_lines text.now) store.old store.new
        (W.contents out.old) (W.contents out.new) result.1 }
    ensures leaves { F.honest → Leaves (F.means (files_of store.old)) (F.means (files_of store.new))
        (IsScriptStop F.honest F.means F.faults
        (terms_in terms.now packed_refs) (script_lines text.now) store.old) }
    ensures loses { F.honest → LosesFromRest F.means store.old store.new
        (IsScriptLoss F.honest F.means F.faults
        (terms_in terms.now packed_refs) (script_lines text.now) store.old) }
{
    let mut packed_refs = packed_refs;
    let mut rest = text;
    while let Some((line, after)) = next_line(rest) {
        rest = after;
        let (back, status) = run_script_line(alloc, store, packed_refs, terms, line, out);
        packed_refs = back;
        if !is_zero(&status) {
            return (packed_refs, status);
        }
    }
    (packed_refs, Ok(0))
}
