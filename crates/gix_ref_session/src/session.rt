//! A session: transactions one after the other, each begun, prepared and committed by commands, with an answer to each
//! (`git update-ref --stdin`).
ghost use Rattle.std.specs.Prelude.{◌≢◌, MatchOption, true, false};
ghost use Rattle.gix_ref_packed.specs.OpenFiles.{HasReadFault};
ghost use Rattle.gix_ref_session.specs.Sessions.{Closes, NextTurnComes, OnWay, Serves, Settles, way, way_on};
ghost use Rattle.gix_ref_session.specs.Transactions.{IsClosingLoss, IsClosingStop, IsTransactionLoss, IsTransactionStop, LossLeaves, StopLeaves};
ghost use Rattle.gix_ref_session.specs.Waiting.{IsLessAfter, NoneIsLeft};

use crate::fatal::Fatal;
use crate::gather::{Closing, Texts, gather};
use crate::input::Format;
use crate::try_once::{answer_abort, try_once};
use gix_ref_edits::transaction::RefEdit;
use gix_ref_files::files::Files;
use gix_ref_hash::hash::Kind;
use gix_ref_log::actor::SignatureRef;
use gix_ref_program::update::UpdateError;
use gix_ref_store::file::Store;
use gix_ref_store::file::transaction::prepare;
use std::alloc::Global;
use std::io::{BufRead, Write};
use std::thread;
use std::time::{Clock, Duration};

/// What is the same for all transactions of a session.
#[derive(Clone, Copy, Debug)]
pub struct Session<'s> {
    /// How commands are written.
    pub format: Format,
    /// The kind of the store's ids.
    pub object_hash: Kind,
    /// Who is named in log lines; none are written without one.
    pub committer: Option<SignatureRef<'s>>,
    /// The message of log lines.
    pub message: &'s [u8],
    /// Whether a log is made for each reference that is updated.
    pub create_reflog: bool,
    /// How many milliseconds the lock of a reference that another holds is waited for.
    pub lock_timeout: u32,
    /// And that of `packed-refs`.
    pub packed_lock_timeout: u32,
}

/// How often a transaction is tried again where `HEAD` is switched meanwhile.
const MOST_SWITCHES: u32 = 3;

/// How many more milliseconds locks are waited for, and how many more switches of `HEAD`.
#[derive(Clone, Copy)]
struct Patience {
    lock: u32,
    packed: u32,
    switches: u32,
}

impl Patience {
    /// One millisecond less for the lock that another holds, or one switch of `HEAD` less; `None` where it is neither, or none is left.
    fn after(self, fatal: &Fatal) -> Option<Patience>
        ensures { MatchOption result (NoneIsLeft fatal.now self) (IsLessAfter fatal.now self) }
    {
        match fatal {
            Fatal::Update(UpdateError::Prepare(prepare::Error::LockAcquire { .. })) => {
                Some(Patience {
                    lock: self.lock.checked_sub(1)?,
                    packed: self.packed,
                    switches: self.switches,
                })
            }
            Fatal::Update(UpdateError::Prepare(prepare::Error::PackedTransactionAcquire)) => {
                Some(Patience {
                    lock: self.lock,
                    packed: self.packed.checked_sub(1)?,
                    switches: self.switches,
                })
            }
            Fatal::Switched(_) => Some(Patience {
                lock: self.lock,
                packed: self.packed,
                switches: self.switches.checked_sub(1)?,
            }),
            _ => None,
        }
    }
}

/// Prepares and closes a transaction. Where another holds a lock, or has switched `HEAD` meanwhile, it is tried again each millisecond.
/// False at the end of the input.
fn settle<F: Files, C: Clock, R: BufRead, W: Write>(
    alloc: Global,
    clock: &C,
    session: &Session<'_>,
    store: &mut Store<F>,
    edits: &[RefEdit],
    closing: Closing,
    input: &mut R,
    out: &mut W,
    texts: &mut Texts,
) -> Result<bool, Fatal>
    requires { closing ≢ Closing.Abort }
    ensures ends { OnWay R.remaining W.contents
        (Settles F.Reader.ReadAt F.honest F.means F.faults session.now closing edits.now)
        input.old out.old store.old input.new out.new store.new result }
    ensures leaves { StopLeaves F.honest F.means store.old store.new
        (IsTransactionStop F.honest F.means F.faults session.now.committer
        (HasReadFault F.Reader.faults) edits.now store.old) }
    ensures lost { LossLeaves F.honest F.means store.old store.new
        (IsTransactionLoss F.honest F.means F.faults session.now.committer
        (HasReadFault F.Reader.faults) edits.now store.old) }
{
    let mut patience = Patience {
        lock: session.lock_timeout,
        packed: session.packed_lock_timeout,
        switches: MOST_SWITCHES,
    };
    'tries: loop {
        match try_once(alloc, session, store, edits, closing, input, out, texts) {
            Ok(goes_on) => return Ok(goes_on),
            Err(fatal) => match patience.after(&fatal) {
                Some(less) => patience = less,
                None => return Err(fatal),
            },
        }
        thread::sleep(clock, Duration::from_millis(1));
    }
}

/// Ends a transaction as the command has it that closed it. False at the end of the input.
fn close<F: Files, C: Clock, R: BufRead, W: Write>(
    alloc: Global,
    clock: &C,
    session: &Session<'_>,
    store: &mut Store<F>,
    edits: &[RefEdit],
    gives_up: bool,
    closing: Closing,
    input: &mut R,
    out: &mut W,
    texts: &mut Texts,
) -> Result<bool, Fatal>
    ensures ends { OnWay R.remaining W.contents
        (Closes F.Reader.ReadAt F.honest F.means F.faults session.now closing edits.now gives_up)
        input.old out.old store.old input.new out.new store.new result }
    ensures leaves { StopLeaves F.honest F.means store.old store.new
        (IsClosingStop F.honest F.means F.faults session.now.committer
        (HasReadFault F.Reader.faults) edits.now store.old) }
    ensures lost { LossLeaves F.honest F.means store.old store.new
        (IsClosingLoss F.honest F.means F.faults session.now.committer
        (HasReadFault F.Reader.faults) edits.now store.old) }
{
    match closing {
        Closing::Abort => answer_abort(out),
        Closing::End if gives_up => Ok(false),
        Closing::Prepare | Closing::Commit | Closing::End => settle(
            alloc, clock, session, store, edits, closing, input, out, texts,
        ),
    }
}

/// Hears the commands of one transaction, and makes it. False at the end of the input.
fn transaction<F: Files, C: Clock, R: BufRead, W: Write>(
    alloc: Global,
    clock: &C,
    session: &Session<'_>,
    store: &mut Store<F>,
    needs_start: bool,
    input: &mut R,
    out: &mut W,
    texts: &mut Texts,
) -> Result<bool, Fatal>
    ensures { NextTurnComes F.Reader.ReadAt F.honest F.means F.faults session.now needs_start
        (R.remaining input.old) (W.contents out.old) store.old
        (R.remaining input.new) (W.contents out.new) store.new result }
{
    match gather(alloc, session, needs_start, input, out, texts) {
        Ok((gathered, closing)) => {
            let gives_up = gathered.is_started || needs_start;
            close(
                alloc,
                clock,
                session,
                store,
                &gathered.edits,
                gives_up,
                closing,
                input,
                out,
                texts,
            )
        }
        Err(fatal) => Err(fatal),
    }
}

/// Serves commands until the input ends, or one of them is refused: transactions one after the other, each over the store that the one
/// before left. `commit: ok` is written after a transaction was committed, `abort: ok` after it was given up. A lock that another holds is
/// tried again each millisecond, as long as the session says; and an update of the branch that `HEAD` leads to three times, where `HEAD` is
/// switched meanwhile. What `start` began is given up at the end of the input; commands without it are committed.
/// (`git update-ref --stdin`)
///
/// The error is that of the reader or the writer (`Read`, `Write`); of a command that is none, out of place, or of a name that breaks a rule; of a
/// lookup that failed, or names in one another's way; or of a transaction that was refused, or whose commit failed (`Update`). No command is
/// done after it. A transaction costs what `prepare` and `commit` do, and two lookups more for each of its edits.
pub fn serve<F: Files, C: Clock, R: BufRead, W: Write>(
    alloc: Global,
    clock: &C,
    session: &Session<'_>,
    store: &mut Store<F>,
    input: &mut R,
    out: &mut W,
) -> Result<(), Fatal>
    ensures { Serves F.Reader.ReadAt F.honest F.means F.faults session.now
        (way (R.remaining input.old) (W.contents out.old) store.old)
        (way_on true (R.remaining input.new) (W.contents out.new) store.new) result }
{
    let mut texts = Texts {
        text: Vec::new(alloc),
        field: Vec::new(alloc),
        plain: Vec::new(alloc),
    };
    let mut needs_start = false;
    'transactions: for _ in 0..u64::MAX {
        match transaction(
            alloc,
            clock,
            session,
            store,
            needs_start,
            input,
            out,
            &mut texts,
        ) {
            Ok(true) => needs_start = true,
            Ok(false) => return Ok(()),
            Err(fatal) => return Err(fatal),
        }
    }
    Err(Fatal::Memory)
}
