//! One try of a transaction: prepared, with an answer or without, and closed.
ghost use Rattle.std.specs.Prelude.{◌≡◌, ◌≢◌, ℕ, List, Option};
ghost use Rattle.gix_ref_log.specs.declared.actor.SignatureRef.{SignatureRef};
ghost use Rattle.gix_ref_packed.specs.OpenFiles.{HasReadFault};
ghost use Rattle.gix_ref_program.specs.Updates.{IsLossOf};
ghost use Rattle.gix_ref_store.specs.PreparedFields.{held_edits, held_packed};
ghost use Rattle.gix_ref_session.specs.Sessions.{AnswersAbort, AnswersCommit, EndsAtOnce, FinishedBy, Finishes, FinishesNamed, HeardClosing, MakeEnds, OnWay, TryEnds};
ghost use Rattle.gix_ref_session.specs.Transactions.{ClosesSafely, CommitEnds, IsCommitResult, IsEditStop, IsRolledBack, IsTryLoss, IsTryStop, LossLeaves, StopLeaves, WhenPrepared, uses};

use crate::command::Command;
use crate::fatal::Fatal;
use crate::gather::{Closing, Texts, next_command, say};
use crate::lead::led_edits;
use crate::named::check_named;
use crate::session::Session;
use gix_ref_edits::transaction::RefEdit;
use gix_ref_files::files::Files;
use gix_ref_program::update::UpdateError;
use gix_ref_store::file::Store;
use gix_ref_store::file::transaction::{Done, Failed, PackedRefs, Prepared, Refused};
use std::alloc::Global;
use std::io::{BufRead, Write};

/// What a commit returns, as a result of the session.
fn result_of(answer: Result<Done, Failed>) -> Result<(), Fatal>
    ensures { IsCommitResult answer result }
{
    match answer {
        Ok(_) => Ok(()),
        Err(failed) => Err(Fatal::Update(UpdateError::Commit(failed.error))),
    }
}

/// Commits what is prepared.
fn commit<F: Files>(
    alloc: Global,
    session: &Session<'_>,
    prepared: Prepared<'_, F>,
) -> Result<(), Fatal>
    ensures ends { WhenPrepared F.honest F.means F.faults prepared.entry (λ old edits. CommitEnds
        F.honest F.means F.faults session.now.committer (HasReadFault F.Reader.faults)
        old prepared.exit.0.now edits result) }
    ensures safe { ClosesSafely F.honest F.means F.faults session.now.committer
        prepared.entry.store.now prepared.exit.0.now (held_packed prepared.entry.plan)
        (held_edits prepared.entry.plan) }
{
    result_of(prepared.commit(alloc, session.committer))
}

/// Gives up what is prepared.
fn give_up<F: Files>(prepared: Prepared<'_, F>)
    ensures ends { WhenPrepared F.honest F.means F.faults prepared.entry
        (λ old edits. IsRolledBack F.honest F.means F.faults old prepared.exit.0.now edits) }
    ensures safe { (committer : Option SignatureRef) → ClosesSafely F.honest F.means F.faults
        committer prepared.entry.store.now prepared.exit.0.now (held_packed prepared.entry.plan)
        (held_edits prepared.entry.plan) }
{
    let _given_up = prepared.rollback();
}

/// The answer to `commit`.
fn answer_commit<W: Write>(committed: Result<(), Fatal>, out: &mut W) -> Result<bool, Fatal>
    ensures { AnswersCommit committed (W.contents out.old) (W.contents out.new) result }
{
    match committed {
        Ok(()) => match say(out, b"commit: ok\n") {
            Ok(()) => Ok(true),
            Err(fatal) => Err(fatal),
        },
        Err(fatal) => Err(fatal),
    }
}

/// The answer to `abort`.
pub(crate) fn answer_abort<W: Write>(out: &mut W) -> Result<bool, Fatal>
    ensures { AnswersAbort (W.contents out.old) (W.contents out.new) result }
{
    match say(out, b"abort: ok\n") {
        Ok(()) => Ok(true),
        Err(fatal) => Err(fatal),
    }
}

/// Does what was heard after `prepare`, and answers it. False at the end of the input.
fn close_by<F: Files, W: Write>(
    alloc: Global,
    session: &Session<'_>,
    prepared: Prepared<'_, F>,
    heard: Closing,
    out: &mut W,
) -> Result<bool, Fatal>
    requires { heard ≢ Closing.Prepare }
    ensures ends { FinishedBy F.Reader.ReadAt F.honest F.means F.faults session.now heard
        prepared.entry prepared.exit.0.now (W.contents out.old) (W.contents out.new) result }
    ensures safe { ClosesSafely F.honest F.means F.faults session.now.committer
        prepared.entry.store.now prepared.exit.0.now (held_packed prepared.entry.plan)
        (held_edits prepared.entry.plan) }
{
    match heard {
        Closing::Commit => {
            let committed = commit(alloc, session, prepared);
            answer_commit(committed, out)
        }
        Closing::Abort => {
            give_up(prepared);
            answer_abort(out)
        }
        Closing::End => {
            give_up(prepared);
            Ok(false)
        }
        Closing::Prepare => unreachable!(),
    }
}

/// Answers `prepare`, and hears what closes the transaction: `commit`, `abort` or the end of the input. The locks are held meanwhile.
fn hear_closing<R: BufRead, W: Write>(
    alloc: Global,
    session: &Session<'_>,
    input: &mut R,
    out: &mut W,
    texts: &mut Texts,
) -> Result<Closing, Fatal>
    ensures { HeardClosing session.now (R.remaining input.old) (R.remaining input.new)
        (W.contents out.old) (W.contents out.new) result }
{
    match say(out, b"prepare: ok\n") {
        Ok(()) => (),
        Err(fatal) => return Err(fatal),
    }
    match next_command(alloc, session, input, texts) {
        Ok(None) => Ok(Closing::End),
        Ok(Some(Command::Commit)) => Ok(Closing::Commit),
        Ok(Some(Command::Abort)) => Ok(Closing::Abort),
        Ok(Some(_)) => Err(Fatal::Prepared),
        Err(fatal) => Err(fatal),
    }
}

/// Answers `prepare`, hears what closes the transaction, and does that. False at the end of the input.
fn close<F: Files, R: BufRead, W: Write>(
    alloc: Global,
    session: &Session<'_>,
    prepared: Prepared<'_, F>,
    input: &mut R,
    out: &mut W,
    texts: &mut Texts,
) -> Result<bool, Fatal>
    ensures ends { Finishes F.Reader.ReadAt F.honest F.means F.faults session.now
        R.remaining W.contents Closing.Prepare prepared.entry prepared.exit.0.now
        input.old out.old input.new out.new result }
    ensures safe { ClosesSafely F.honest F.means F.faults session.now.committer
        prepared.entry.store.now prepared.exit.0.now (held_packed prepared.entry.plan)
        (held_edits prepared.entry.plan) }
{
    match hear_closing(alloc, session, input, out, texts) {
        Ok(heard) => close_by(alloc, session, prepared, heard, out),
        Err(fatal) => {
            give_up(prepared);
            Err(fatal)
        }
    }
}

/// Commits what is prepared, at the end of the input: without an answer.
fn commit_at_end<F: Files>(
    alloc: Global,
    session: &Session<'_>,
    prepared: Prepared<'_, F>,
) -> Result<bool, Fatal>
    ensures ends { (input out : Option (List ℕ)) →
        EndsAtOnce F.Reader.ReadAt F.honest F.means F.faults session.now Closing.End
        prepared.entry prepared.exit.0.now input out out result }
    ensures safe { ClosesSafely F.honest F.means F.faults session.now.committer
        prepared.entry.store.now prepared.exit.0.now (held_packed prepared.entry.plan)
        (held_edits prepared.entry.plan) }
{
    match commit(alloc, session, prepared) {
        Ok(()) => Ok(false),
        Err(fatal) => Err(fatal),
    }
}

/// Commits what is prepared, and answers it.
fn commit_and_answer<F: Files, W: Write>(
    alloc: Global,
    session: &Session<'_>,
    prepared: Prepared<'_, F>,
    out: &mut W,
) -> Result<bool, Fatal>
    ensures ends { (input : Option (List ℕ)) →
        EndsAtOnce F.Reader.ReadAt F.honest F.means F.faults session.now Closing.Commit
        prepared.entry prepared.exit.0.now input (W.contents out.old) (W.contents out.new) result }
    ensures safe { ClosesSafely F.honest F.means F.faults session.now.committer
        prepared.entry.store.now prepared.exit.0.now (held_packed prepared.entry.plan)
        (held_edits prepared.entry.plan) }
{
    let committed = commit(alloc, session, prepared);
    answer_commit(committed, out)
}

/// Ends what is prepared as this command has it. False at the end of the input.
fn finish<F: Files, R: BufRead, W: Write>(
    alloc: Global,
    session: &Session<'_>,
    prepared: Prepared<'_, F>,
    closing: Closing,
    input: &mut R,
    out: &mut W,
    texts: &mut Texts,
) -> Result<bool, Fatal>
    requires { closing ≢ Closing.Abort }
    ensures ends { Finishes F.Reader.ReadAt F.honest F.means F.faults session.now
        R.remaining W.contents closing prepared.entry prepared.exit.0.now
        input.old out.old input.new out.new result }
    ensures safe { ClosesSafely F.honest F.means F.faults session.now.committer
        prepared.entry.store.now prepared.exit.0.now (held_packed prepared.entry.plan)
        (held_edits prepared.entry.plan) }
{
    match closing {
        Closing::Prepare => close(alloc, session, prepared, input, out, texts),
        Closing::Commit => commit_and_answer(alloc, session, prepared, out),
        Closing::End => commit_at_end(alloc, session, prepared),
        Closing::Abort => unreachable!(),
    }
}

/// A refusal, as the end of a session.
fn refusal_of(refused: Refused) -> Fatal
    ensures { result ≡ Fatal.Update (UpdateError.Prepare refused.error) }
{
    Fatal::Update(UpdateError::Prepare(refused.error))
}

/// Ends what is prepared as this command has it, if each update is of the reference that it names; else it is given up. False at the end
/// of the input.
fn finish_named<F: Files, R: BufRead, W: Write>(
    alloc: Global,
    session: &Session<'_>,
    edits: &[RefEdit],
    prepared: Prepared<'_, F>,
    closing: Closing,
    input: &mut R,
    out: &mut W,
    texts: &mut Texts,
) -> Result<bool, Fatal>
    requires { closing ≢ Closing.Abort }
    ensures ends { FinishesNamed F.Reader.ReadAt F.honest F.means F.faults session.now
        R.remaining W.contents closing edits.now prepared.entry prepared.exit.0.now
        input.old out.old input.new out.new result }
    ensures safe { ClosesSafely F.honest F.means F.faults session.now.committer
        prepared.entry.store.now prepared.exit.0.now (held_packed prepared.entry.plan)
        (held_edits prepared.entry.plan) }
{
    match check_named(alloc, edits, &prepared) {
        Ok(()) => finish(alloc, session, prepared, closing, input, out, texts),
        Err(fatal) => {
            give_up(prepared);
            Err(fatal)
        }
    }
}

/// Prepares edits, as they are led, and ends them as this command has it. False at the end of the input.
fn make<F: Files, R: BufRead, W: Write>(
    alloc: Global,
    session: &Session<'_>,
    store: &mut Store<F>,
    edits: &[RefEdit],
    led: Vec<RefEdit>,
    closing: Closing,
    input: &mut R,
    out: &mut W,
    texts: &mut Texts,
) -> Result<bool, Fatal>
    requires { closing ≢ Closing.Abort }
    ensures ends { OnWay R.remaining W.contents
        (MakeEnds F.Reader.ReadAt F.honest F.means F.faults session.now closing edits.now led.items)
        input.old out.old store.old input.new out.new store.new result }
    ensures leaves { StopLeaves F.honest F.means store.old store.new
        (IsEditStop F.honest F.means F.faults session.now.committer store.old led.items) }
    ensures lost { LossLeaves F.honest F.means store.old store.new
        (IsLossOf F.honest F.means F.faults uses store.old session.now.committer led.items) }
{
    match store
        .transaction_with(PackedRefs::DeletionsOnly)
        .prepare(alloc, led)
    {
        Err(refused) => Err(refusal_of(refused)),
        Ok(prepared) => finish_named(alloc, session, edits, prepared, closing, input, out, texts),
    }
}

/// Prepares these edits, led on by symbolic references, and ends them as this command has it. False at the end of the input.
pub(crate) fn try_once<F: Files, R: BufRead, W: Write>(
    alloc: Global,
    session: &Session<'_>,
    store: &mut Store<F>,
    edits: &[RefEdit],
    closing: Closing,
    input: &mut R,
    out: &mut W,
    texts: &mut Texts,
) -> Result<bool, Fatal>
    requires { closing ≢ Closing.Abort }
    ensures ends { OnWay R.remaining W.contents
        (TryEnds F.Reader.ReadAt F.honest F.means F.faults session.now closing edits.now)
        input.old out.old store.old input.new out.new store.new result }
    ensures leaves { StopLeaves F.honest F.means store.old store.new
        (IsTryStop F.honest F.means F.faults session.now.committer
        (HasReadFault F.Reader.faults) edits.now store.old) }
    ensures lost { LossLeaves F.honest F.means store.old store.new
        (IsTryLoss F.honest F.means F.faults session.now.committer
        (HasReadFault F.Reader.faults) edits.now store.old) }
{
    match led_edits(alloc, store, session.committer.is_some(), edits) {
        Ok(led) => make(
            alloc, session, store, edits, led, closing, input, out, texts,
        ),
        Err(fatal) => Err(fatal),
    }
}
