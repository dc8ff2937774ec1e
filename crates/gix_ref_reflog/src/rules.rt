//! What the lines of a commit depend on beside its edits.
ghost use Rattle.std.specs.Prelude.{◌≡◌};
ghost use Rattle.gix_ref_edits.specs.RefEdits.{is_forced, message_of};
ghost use Rattle.gix_ref_reflog.specs.DueLines.{is_off};

use crate::ids::{LineIds, ids_of};
use crate::names::makes_log_by_default;
use crate::write_reflog::WriteReflog;
use gix_ref_edits::transaction::Change;
use gix_ref_hash::hash::ObjectId;
use gix_ref_log::actor::SignatureRef;
use gix_ref_lookup::layout::layout_in;
use gix_ref_lookup::settings::Settings;
use gix_ref_transaction::edit::Edit;
use std::alloc::{AllocError, Global};

/// What the lines of a commit depend on beside its edits: where logs are, which are made, and who commits.
#[derive(Clone, Copy)]
pub struct ReflogPolicy<'a> {
    /// Where logs are.
    pub settings: &'a Settings<'a>,
    /// Which are made.
    pub write_reflog: WriteReflog,
    /// Who commits.
    pub committer: Option<SignatureRef<'a>>,
}

/// Whether the store writes no lines.
fn is_off(mode: WriteReflog) -> bool
    ensures { result ≡ is_off mode }
{
    match mode {
        WriteReflog::Disable => true,
        WriteReflog::Always | WriteReflog::Normal => false,
    }
}

/// Whether an edit makes a log where it does not exist.
fn is_forced(change: &Change) -> bool
    ensures { result ≡ is_forced change.now }
{
    match change {
        Change::Update { log, .. } => log.force_create_reflog,
        Change::Delete { .. } => false,
    }
}

/// The message of the line of an edit.
pub fn message_of(change: &Change) -> &[u8]
    ensures { result.now ≡ message_of change.now }
{
    match change {
        Change::Update { log, .. } => &log.message,
        Change::Delete { .. } => b"",
    }
}

impl ReflogPolicy<'_> {
    ghost use Rattle.std.specs.Prelude.{IfOk};
    ghost use Rattle.gix_ref_edits.specs.RefEdits.{name_of};
    ghost use Rattle.gix_ref_reflog.specs.AskedEdits.{asked_edit};
    ghost use Rattle.gix_ref_reflog.specs.DueLines.{written_ids};
    ghost use Rattle.gix_ref_reflog.specs.MadeLogs.{below_logs, makes_log};
    ghost use Rattle.gix_ref_reflog.specs.internal.LineSteps.{log_rules};

    /// The ids of the line of an edit, if the store writes lines.
    pub fn written_ids(self, edit: &Edit, leaf: Option<ObjectId>) -> Option<LineIds>
        ensures { result ≡ written_ids (log_rules self.entry) (asked_edit edit.now leaf) }
    {
        if is_off(self.write_reflog) {
            return None;
        }
        ids_of(&edit.update.change, leaf)
    }

    /// Whether a log that is missing is made.
    pub fn makes_log(self, alloc: Global, edit: &Edit) -> Result<bool, AllocError>
        ensures { IfOk result (λ makes. makes
            ≡ makes_log self.entry.write_reflog (is_forced edit.now.update.change)
            (below_logs (log_rules self.entry).namespace (name_of edit.now.update))) }
    {
        match self.write_reflog {
            WriteReflog::Always => Ok(true),
            WriteReflog::Disable => Ok(false),
            WriteReflog::Normal => {
                if is_forced(&edit.update.change) {
                    return Ok(true);
                }
                let layout = layout_in(self.settings.dirs, self.settings.namespace);
                makes_log_by_default(alloc, layout.namespace, edit.update.name.as_ref())
            }
        }
    }
}
