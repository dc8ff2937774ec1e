//! What a commit decides of the logs of its edits before its first write (`git reflog`, `core.logAllRefUpdates` of `git config`).
ghost use Rattle.std.specs.Prelude.{◌≡◌, ◌&&◌, ◌||◌, OnOk, IfOk, IfErr, IsSome, Some, bytes_eq, not, vec_items};
ghost use Rattle.std.specs.Option.{option_map};
ghost use Rattle.gix_ref_files.specs.ReadOnly.{OnlyReads};
ghost use Rattle.gix_ref_files.specs.Tree.{Path, node_at};
ghost use Rattle.gix_ref_edits.specs.RefEdits.{is_forced, name_of};
ghost use Rattle.gix_ref_theory.specs.OnRealTrees.{contents};
ghost use Rattle.gix_ref_transaction.specs.CommitRenames.{SeesItsLog, SeeLogs, path_in};
ghost use Rattle.gix_ref_reflog.specs.AskedEdits.{asked, asked_edit, all_but_logs, but_log, outcome_of, outcomes_of};
ghost use Rattle.gix_ref_reflog.specs.DueLines.{due_line, log_outcome, log_outcomes, outcome_by, asked_log, rules_of, with_log};
ghost use Rattle.gix_ref_reflog.specs.MadeLogs.{below_logs, makes_log};
ghost use Rattle.gix_ref_transaction.specs.OwnLocks.{is_in};
ghost use Rattle.gix_ref_reflog.specs.LineCauses.{AllHaveNoCause, IsCountedCause, IsRefusal, IsRefusalAt, HasNoCause};
ghost use Rattle.gix_ref_reflog.specs.internal.LineSteps.{log_rules, OfSeen, Sees};
ghost use Rattle.gix_ref_reflog.specs.internal.SeenLogs.{due_paths, IsBounded};

use crate::error::Error;
use crate::leaves::leaves_of;
use crate::line::line_at;
use crate::logs::DueLogs;
use crate::place::place_at;
use crate::rules::{ReflogPolicy, message_of};
use crate::write_reflog::WriteReflog;
use gix_ref_edits::transaction::Change;
use gix_ref_files::files::{Files, Node};
use gix_ref_hash::hash::ObjectId;
use gix_ref_log::actor::SignatureRef;
use gix_ref_lookup::settings::Settings;
use gix_ref_transaction::edit::{Edit, LogEffect};
use std::alloc::{AllocError, Global};

/// What is due for an edit.
#[derive(Drop)]
struct Due {
    /// The line, if one is.
    line: Option<Vec<u8>>,
    /// What is at the path of its log, where a line is due.
    log_seen: Option<Node>,
}

impl Due {
    ghost use Rattle.std.specs.Prelude.{◌≡◌, None};

    /// No line.
    fn nothing() -> Due
        ensures line { result.line ≡ None }
        ensures log_seen { result.log_seen ≡ None }
    {
        Due {
            line: None,
            log_seen: None,
        }
    }
}

/// Whether there is a log for the line of an edit, at this path: it is there, is made, or has a line due.
fn has_log(
    alloc: Global,
    rules: ReflogPolicy<'_>,
    due: &DueLogs,
    edit: &Edit,
    is_file: bool,
    path: &[u8],
) -> Result<bool, AllocError>
    ensures { IfOk result (λ has. has ≡ ((is_file || is_in (due_paths due.now) path.now)
        || makes_log rules.entry.write_reflog (is_forced edit.now.update.change)
        (below_logs (log_rules rules.entry).namespace (name_of edit.now.update)))) }
{
    if is_file || rules.makes_log(alloc, edit)? {
        return Ok(true);
    }
    Ok(due.contains(path))
}

/// Adds the log at this path to those that have a line due, unless it is there.
fn add_due(alloc: Global, due: &mut DueLogs, is_file: bool, path: &[u8]) -> Result<(), AllocError>
    requires { IsBounded due.old }
    ensures bounded { OnOk result (IsBounded due.new) }
    ensures added { OnOk result ((q : Path) → is_in (due_paths due.new) q
        ≡ ((not is_file && bytes_eq path.now q) || is_in (due_paths due.old) q)) }
{
    if is_file {
        return Ok(());
    }
    due.insert(path.to_vec(alloc)?)
}

/// What is due for an edit, whose log is at this path.
fn due_line<F: Files>(
    alloc: Global,
    files: &mut F,
    rules: ReflogPolicy<'_>,
    due: &mut DueLogs,
    edit: &Edit,
    leaf: Option<ObjectId>,
    path: &[u8],
) -> Result<Due, Error>
    requires path { path.now ≡ asked_log (log_rules rules) (asked_edit edit.now leaf) }
    requires bounded { IsBounded due.old }
    ensures bounded { OnOk result (IsBounded due.new) }
    ensures line { F.honest → OfSeen (F.means files.old).tree due.old (λ view. IfOk result (λ due.
        option_map vec_items due.line ≡ due_line (log_rules rules.entry) view
        (asked_edit edit.now leaf))) }
    ensures there { F.honest → IfOk result (λ due. (node : Node) → due.log_seen ≡ Some node →
        IsSome due.line × (node ≡ node_at (F.means files.old).tree path.now)) }
    ensures passed { F.honest → OfSeen (F.means files.old).tree due.old (λ view. OnOk result
        (HasNoCause (log_rules rules.entry) view (asked_edit edit.now leaf))) }
    ensures seen { F.honest → OfSeen (F.means files.old).tree due.old (λ view. OnOk result (Sees
        (with_log (log_rules rules.entry) view (asked_edit edit.now leaf)) (F.means files.old).tree
        (due_paths due.new))) }
    ensures refused { F.honest → OfSeen (F.means files.old).tree due.old (λ view. IfErr result
        (IsRefusalAt (log_rules rules.entry) view (asked_edit edit.now leaf))) }
    ensures reads { OnlyReads F.honest F.means F.faults files.old files.new }
    ensures counted { IfErr result (IsCountedCause (F.faults files.old) (F.faults files.new)) }
{
    let Some(ids) = rules.written_ids(edit, leaf) else {
        return Ok(Due::nothing());
    };
    let place = place_at(alloc, files, due, path)?;
    if !has_log(alloc, rules, due, edit, place.is_file, path)? {
        return Ok(Due::nothing());
    }
    let message = message_of(&edit.update.change);
    let line = line_at(alloc, rules.committer, &ids, message, place, path)?;
    add_due(alloc, due, place.is_file, path)?;
    Ok(Due {
        line: Some(line),
        log_seen: Some(place.node),
    })
}

/// What becomes of the log at this path by a change for which this line is due.
fn outcome(change: &Change, log: Vec<u8>, line: Option<Vec<u8>>) -> LogEffect
    ensures outcome { outcome_of result ≡ outcome_by change.now log.items
        (option_map vec_items line) }
    ensures path { IsSome line → path_in result ≡ log.items }
{
    match (change, line) {
        (Change::Delete { .. }, _) => LogEffect::Remove { log },
        (Change::Update { .. }, Some(line)) => LogEffect::Append { log, line },
        (Change::Update { .. }, None) => LogEffect::Keep,
    }
}

/// Decides what becomes of the log of an edit: that of a deletion is removed, and that of an update gains the line that is due.
fn decide_log<F: Files>(
    alloc: Global,
    files: &mut F,
    rules: ReflogPolicy<'_>,
    due: &mut DueLogs,
    leaf: Option<ObjectId>,
    edit: &mut Edit,
) -> Result<(), Error>
    requires { IsBounded due.old }
    ensures bounded { OnOk result (IsBounded due.new) }
    ensures but_log { but_log edit.new ≡ but_log edit.old }
    ensures log { F.honest → OfSeen (F.means files.old).tree due.old (λ view. OnOk result
        (outcome_of edit.new.log ≡ log_outcome (log_rules rules.entry) view
        (asked_edit edit.old leaf))) }
    ensures there { F.honest → OnOk result (SeesItsLog (F.means files.old).tree edit.new) }
    ensures passed { F.honest → OfSeen (F.means files.old).tree due.old (λ view. OnOk result
        (HasNoCause (log_rules rules.entry) view (asked_edit edit.old leaf))) }
    ensures seen { F.honest → OfSeen (F.means files.old).tree due.old (λ view. OnOk result (Sees
        (with_log (log_rules rules.entry) view (asked_edit edit.old leaf)) (F.means files.old).tree
        (due_paths due.new))) }
    ensures refused { F.honest → OfSeen (F.means files.old).tree due.old (λ view. IfErr result
        (IsRefusalAt (log_rules rules.entry) view (asked_edit edit.old leaf))) }
    ensures reads { OnlyReads F.honest F.means F.faults files.old files.new }
    ensures counted { IfErr result (IsCountedCause (F.faults files.old) (F.faults files.new)) }
{
    let path = rules.settings.log(alloc, edit.update.name.as_ref())?;
    let found = due_line(alloc, files, rules, due, edit, leaf, &path)?;
    edit.log_seen = found.log_seen;
    edit.log = outcome(&edit.update.change, path, found.line);
    Ok(())
}

/// Decides what becomes of the log of each edit of a prepared transaction, before a commit writes anything: that of a deletion is
/// removed, and that of an update gains the line that is due, if one is. No file changes. As gix-ref's
/// `file::Store::reflog_create_or_append`, without its writes (`git reflog`, `core.logAllRefUpdates` of `git config`).
///
/// The errors are sought edit by edit, and the first is returned: `MissingCommitter`, `MessageWithNewlines` and
/// `SignatureUnwritable` of a line that is due, `CreateLeadingDirectories` without a source for a file in the path of its log, and
/// with one for a fault of files; and `Memory`. It makes one call of files for each update that may have a line.
///
/// ```text
/// decide_logs(alloc, files, settings, WriteReflog::Normal, Some(committer), &mut edits)?;
/// // edits[0].log is `LogEffect::Append { log, line }` where a line is due for the first edit
/// ```
pub fn decide_logs<F: Files>(
    alloc: Global,
    files: &mut F,
    settings: &Settings<'_>,
    write_reflog: WriteReflog,
    committer: Option<SignatureRef<'_>>,
    edits: &mut [Edit],
) -> Result<(), Error>
    ensures but_logs { all_but_logs edits.new ≡ all_but_logs edits.old }
    ensures logs { F.honest → OnOk result (outcomes_of edits.new ≡ log_outcomes (rules_of
        settings.now write_reflog committer.entry) (contents F.means files.old) (asked edits.old)) }
    ensures there { F.honest → OnOk result (SeeLogs (F.means files.old).tree edits.new) }
    ensures passed { F.honest → OnOk result (AllHaveNoCause (rules_of settings.now write_reflog
        committer.entry) (contents F.means files.old) (asked edits.old)) }
    ensures refused { F.honest → IfErr result (IsRefusal (rules_of settings.now write_reflog
        committer.entry) (contents F.means files.old) (asked edits.old)) }
    ensures reads { OnlyReads F.honest F.means F.faults files.old files.new }
    ensures counted { IfErr result (IsCountedCause (F.faults files.old) (F.faults files.new)) }
{
    let rules = ReflogPolicy {
        settings,
        write_reflog,
        committer,
    };
    let leaves = leaves_of(alloc, edits)?;
    let mut due = DueLogs::new(alloc);
    for i in 0..edits.len() {
        let leaf = leaves[i].id();
        decide_log(alloc, files, rules, &mut due, leaf, &mut edits[i])?;
    }
    Ok(())
}
