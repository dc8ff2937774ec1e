//! Commands that write: one transaction of all that they ask for (`git update-ref --stdin`).
ghost use Rattle.std.specs.Prelude.{◌≡◌, ◌++◌, ◌∷◌, [], MatchResult, OnOk};
ghost use Rattle.gix_ref_files.specs.Files.{Leaves};
ghost use Rattle.gix_ref_packed.specs.OpenFiles.{HasReadFault};
ghost use Rattle.gix_ref_store.specs.Store.{files_of};
ghost use Rattle.gix_ref_program.specs.AskedEdits.{AreAskedFor, NoEditsFor};
ghost use Rattle.gix_ref_program.specs.ScriptLines.{AllWrite};
ghost use Rattle.gix_ref_program.specs.Updates.{LosesFromRest};
ghost use Rattle.gix_ref_program.specs.Words.{commands_asked, text_given};
ghost use Rattle.gix_ref_program.specs.Writes.{IsWriteLoss, IsWriteStop, WriteComes, terms_in};

use crate::edit::edit_of;
use crate::outcome::{Outcome, refused};
use crate::refusal::Refusal;
use crate::update::{UpdateReport, update};
use crate::words::{Command, Line};
use gix_ref_edits::transaction::RefEdit;
use gix_ref_files::files::Files;
use gix_ref_hash::hash::Kind;
use gix_ref_store::file::Store;
use gix_ref_store::file::transaction::PackedRefs;
use std::alloc::{AllocError, Global};

/// Adds an edit.
fn push_edit(edits: &mut Vec<RefEdit>, edit: RefEdit) -> Result<(), AllocError>
    ensures { OnOk result (edits.new.items ≡ edits.old.items ++ edit ∷ []) }
{
    edits.push(edit).map_err(AllocError::from)
}

/// The edits that these commands ask for, or why one of them has none: the first such.
fn edits_of(
    alloc: Global,
    kind: Kind,
    message: Option<&[u8]>,
    commands: &[Command<'_>],
) -> Result<Vec<RefEdit>, Refusal>
    requires { AllWrite (commands_asked commands.now) }
    ensures { MatchResult result (λ edits. AreAskedFor kind (text_given message.entry)
        (commands_asked commands.now) edits.items)
        (NoEditsFor kind (text_given message.entry) (commands_asked commands.now)) }
{
    let mut edits = Vec::new(alloc);
    for command in commands {
        let edit = match edit_of(alloc, kind, message, command) {
            Ok(edit) => edit,
            Err(refusal) => return Err(refusal),
        };
        if push_edit(&mut edits, edit).is_err() {
            return Err(Refusal::Memory);
        }
    }
    Ok(edits)
}

/// Makes the transaction of these commands. Names are looked at one after the other, once all words are known to be right; where one is no
/// full name nothing is begun.
pub(crate) fn transact<F: Files>(
    alloc: Global,
    store: &mut Store<F>,
    packed_refs: PackedRefs,
    terms: &Line<'_>,
    commands: &[Command<'_>],
) -> (PackedRefs, Outcome)
    requires { AllWrite (commands_asked commands.now) }
    ensures packed_refs { result.0 ≡ packed_refs }
    ensures outcome { WriteComes F.honest (HasReadFault F.Reader.faults) F.means F.faults
        (terms_in terms.now packed_refs) (commands_asked commands.now) store.old store.new
        result.1 }
    ensures leaves { F.honest → Leaves (F.means (files_of store.old)) (F.means (files_of store.new))
        (IsWriteStop F.honest F.means F.faults (terms_in terms.now packed_refs)
        (commands_asked commands.now) store.old) }
    ensures loses { F.honest → LosesFromRest F.means store.old store.new
        (IsWriteLoss F.honest F.means F.faults (terms_in terms.now packed_refs)
        (commands_asked commands.now) store.old) }
{
    let edits = match edits_of(alloc, terms.object_hash, terms.message, commands) {
        Ok(edits) => edits,
        Err(refusal) => return (packed_refs, refused(alloc, refusal)),
    };
    let UpdateReport {
        error,
        packed_refs,
        locks_left,
    } = update(alloc, store, packed_refs, terms.committer, edits);
    let outcome = match error {
        None => Outcome::Updated { locks_left },
        Some(error) => Outcome::Refused {
            refusal: Refusal::Update(error),
            locks_left,
        },
    };
    (packed_refs, outcome)
}
