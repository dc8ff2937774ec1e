//! Transactions of references: prepared, with all locks held, and then committed or rolled back.
ghost use Rattle.std.specs.Prelude.{◌≡◌, [], IfOk, IfErr, map};
ghost use Rattle.std.specs.Borrow.{sem, RestsIfErr};
ghost use Rattle.gix_ref_packed.specs.OpenFiles.{HasReadFault};
ghost use Rattle.gix_ref_transaction.specs.LeftLocks.{HasRoom};
ghost use Rattle.gix_ref_transaction.specs.OwnLocks.{paths_of};
ghost use Rattle.gix_ref_transaction.specs.PrepareSteps.{updates};
ghost use Rattle.gix_ref_store.specs.Prepared.{IsRefusedBy, PreparesBy, RollsBackFrom};
ghost use Rattle.gix_ref_store.specs.SameEdits.{AreSameEdits};

pub mod commit;
pub mod outcome;
pub mod packed_refs;
pub mod prepare;

use crate::file::store::Store;
pub use crate::file::transaction::outcome::{Done, Failed, Refused, RolledBack};
pub use crate::file::transaction::packed_refs::PackedRefs;
use gix_ref_edits::transaction::RefEdit;
use gix_ref_files::files::Files;
use gix_ref_files::lock::LockFile;
use gix_ref_log::actor::SignatureRef;
use gix_ref_object::object::{Find, Never};
use gix_ref_transaction::edit::Edit;
use gix_ref_transaction::prepare::carry::record_old_values;
use gix_ref_transaction::prepare::hold::{HeldLocks, NotHeld};
use gix_ref_transaction::release::{Failure, Remains, release_all};
use std::alloc::{AllocError, Global};
use std::fmt;

/// A transaction that is not prepared yet. It must be spent, by `prepare` or `rollback`.
pub struct Transaction<'s, F: Files, P = PackedRefs> {
    pub(crate) store: &'s mut Store<F>,
    pub(crate) packed_refs: P,
}

/// The edits of a prepared transaction, and its locks.
#[derive(Drop)]
pub struct Plan<T: Find = Never> {
    packed: Option<LockFile>,
    edits: Vec<Edit>,
    packed_refs: PackedRefs<T>,
    remains: Remains,
    pub ghost room: { HasRoom edits remains },
}

/// What these edits ask for, lent.
fn lent_updates(alloc: Global, edits: &[Edit]) -> Result<Vec<&RefEdit>, AllocError>
    ensures { IfOk result (λ lent. map (λ update. update.now) lent.items ≡ updates edits.now) }
{
    let mut lent = Vec::with_capacity(alloc, edits.len())?;
    for edit in edits {
        lent.push(&edit.update)?;
    }
    Ok(lent)
}

/// A transaction whose locks are held. It must be spent, by `commit` or `rollback`.
pub struct Prepared<'s, F: Files, P = Plan> {
    store: &'s mut Store<F>,
    plan: P,
}

impl<F: Files> Store<F> {
    /// A transaction on this store, which changes `packed-refs` for deletions alone. It borrows the store until it is committed
    /// or rolled back. As gix-ref's `file::Store::transaction`.
    ///
    /// ```text
    /// match store.transaction().prepare(alloc, edits) {
    ///     Ok(prepared) => prepared.commit(alloc, None),
    ///     Err(refused) => return Err(refused.error),
    /// }
    /// ```
    pub fn transaction(&mut self) -> Transaction<'_, F>
        ensures same_reference { result.store.ghost_name ≡ self.entry.ghost_name }
        ensures value { result.store.now ≡ self.old }
        ensures packed_refs { result.packed_refs ≡ PackedRefs.DeletionsOnly }
    {
        self.transaction_with(PackedRefs::DeletionsOnly)
    }

    /// A transaction on this store with that use of `packed-refs`, as `transaction().packed_refs(..)` has it. Whoever follows the
    /// store through contracts with a finder of his own begins here: `packed_refs` changes the type of a transaction, and with it
    /// the prover loses which store it borrows. Not in gix-ref.
    ///
    /// ```text
    /// let packed_refs = PackedRefs::DeletionsAndNonSymbolicUpdates(finder);
    /// match store.transaction_with(packed_refs).prepare(alloc, edits) {
    ///     Ok(prepared) => prepared.commit(alloc, None),
    ///     Err(refused) => return Err(refused.error),
    /// }
    /// ```
    pub fn transaction_with<T: Find>(
        &mut self,
        packed_refs: PackedRefs<T>,
    ) -> Transaction<'_, F, PackedRefs<T>>
        ensures same_reference { result.store.ghost_name ≡ self.entry.ghost_name }
        ensures value { result.store.now ≡ self.old }
        ensures packed_refs { result.packed_refs ≡ packed_refs }
    {
        Transaction {
            store: self,
            packed_refs,
        }
    }
}

impl<'s, F: Files, T: Find> Transaction<'s, F, PackedRefs<T>> {
    ghost use Rattle.std.specs.Prelude.{◌≡◌};

    /// The transaction with another use of `packed-refs`. As gix-ref's `Transaction::packed_refs`.
    pub fn packed_refs<U: Find>(
        self,
        packed_refs: PackedRefs<U>,
    ) -> Transaction<'s, F, PackedRefs<U>>
        ensures same_reference { result.store.ghost_name ≡ self.entry.store.ghost_name }
        ensures value { result.store.now ≡ self.entry.store.now }
        ensures packed_refs { result.packed_refs ≡ packed_refs }
    {
        let Transaction {
            store,
            packed_refs: _,
        } = self;
        Transaction { store, packed_refs }
    }
}

impl<'s, F: Files, T: Find> Transaction<'s, F, PackedRefs<T>> {
    ghost use Rattle.gix_ref_store.specs.contracts.file.store.Store.{the_row};
    ghost use Rattle.gix_ref_store.specs.PreparedFields.{held_edits, held_packed, prepared_mode};

    /// Checks the edits, splits those that follow symbolic references, and takes the locks of all with their whole texts
    /// (`prepare` of `git update-ref --stdin`). The edits of a prepared transaction are those of the split list: an edit of a
    /// symbolic reference is of its log alone, and the reference that it leads to has an edit. Where the store composes names, an
    /// edit is of the composed form of its name, in loose files and in `packed-refs`, and that is the name of the prepared edit
    /// (`core.precomposeUnicode` of `git config`); a symbolic target is taken as it is.
    ///
    /// The lock of `packed-refs` is taken where an edit of a reference, not of its log alone, may have a record in it, and that is a
    /// file, or an object is to be put into it. In the two modes that put objects (`PackedRefs`) each object of an update of a
    /// reference that may have a record is peeled: its tags are followed, over at most 1,000, by calls of the finder, which is asked
    /// for nothing else. That is done before any lock of an edit is taken, and no file is read for it.
    ///
    /// `Refused` has the first cause that applies, in the order of `prepare::Error`, and hands the edits and the finder back; then all is as before
    /// except for the locks that it names, and folders on the way to locks. A finder that answers otherwise each time may be refused, or
    /// have another peeled id put into `packed-refs`, and nothing else comes of it. Reads one file for each edit, and makes one, and reads one
    /// more for each that follows; `packed-refs` is opened once, and searched once for each edit whose reference can be in it; the
    /// names of the edits are sorted.
    pub fn prepare(
        self,
        alloc: Global,
        edits: Vec<RefEdit>,
    ) -> Result<Prepared<'s, F, Plan<T>>, Refused<T>>
        ensures* rests { sem 𝓛 (RestsIfErr (the_row F.row) self.entry.store
            (λ p. p.store.ghost_name) result (λ n. IfErr result (IsRefusedBy F.honest F.means
            F.faults T.claims T.meaning self.entry.packed_refs (HasReadFault F.Reader.faults)
            self.entry.store.now n edits.items))) }
        ensures edits { IfErr result (λ r. AreSameEdits edits.items r.edits.items) }
        ensures same_reference { IfOk result (λ p. p.store.ghost_name
            ≡ self.entry.store.ghost_name) }
        ensures prepared { IfOk result
            (λ p. PreparesBy F.honest F.means F.faults T.claims T.meaning self.entry.packed_refs
            self.entry.store.now p.store.now edits.items (held_packed p.plan) (held_edits p.plan)) }
        ensures packed_refs { IfOk result (λ p. prepared_mode p.plan ≡ self.entry.packed_refs) }
    {
        let Transaction { store, packed_refs } = self;
        match store.lock_or_hand_back(alloc, &packed_refs, edits) {
            Err(refused) => {
                let NotHeld { failure, edits } = refused;
                let Failure { error, locks_left } = failure;
                Err(Refused {
                    error,
                    edits,
                    packed_refs,
                    locks_left,
                })
            }
            Ok(held) => {
                let HeldLocks {
                    packed,
                    mut edits,
                    remains,
                } = held;
                record_old_values(&mut edits);
                Ok(Prepared {
                    store,
                    plan: Plan {
                        packed,
                        edits,
                        packed_refs,
                        remains,
                    },
                })
            }
        }
    }
}

impl<F: Files, T: Find> Transaction<'_, F, PackedRefs<T>> {
    /// Gives the transaction up before it was prepared: nothing was done, and nothing is. The allocator is for the empty
    /// lists of the result, which take no memory. As gix-ref's `Transaction::rollback`.
    pub fn rollback(self, alloc: Global) -> RolledBack<T>
        ensures same { self.exit.0.now ≡ self.entry.store.now }
        ensures edits { result.edits.items ≡ [] }
        ensures packed_refs { result.packed_refs ≡ self.entry.packed_refs }
        ensures locks_left { result.locks_left.items ≡ [] }
    {
        let Transaction {
            store: _,
            packed_refs,
        } = self;
        RolledBack {
            edits: Vec::new(alloc),
            packed_refs,
            locks_left: Vec::new(alloc),
        }
    }
}

impl<F: Files, T: Find> Prepared<'_, F, Plan<T>> {
    ghost use Rattle.gix_ref_store.specs.CommitOutcomes.{PlanSucceeds, HasEndedEarly, EveryMomentIsSafe, KeepsTheRest};
    ghost use Rattle.gix_ref_store.specs.CommitResult.{left_of, mode_handed_back};
    ghost use Rattle.gix_ref_transaction.specs.PrepareSteps.{held_locks};
    ghost use Rattle.gix_ref_store.specs.PreparedFields.{held_edits, held_packed, prepared_edits, prepared_mode};
    ghost use Rattle.gix_ref_store.specs.Store.{IsSameStore};

    /// Carries the edits out, in this order (`commit` of `git update-ref`):
    ///
    /// 1. decides which log lines are due (`Options::write_reflog` and the edits; `git reflog`), what becomes of `packed-refs`, whose new
    ///    text is put into its lock, and which empty folders are in the way of a write;
    /// 2. for each update, in the order of the edits: makes the folders of its log and adds its line, and renames its lock to its place;
    /// 3. removes the logs of deletions;
    /// 4. renames the lock of `packed-refs` to its place, without the records of deleted references and with those of updates that
    ///    are put into it, or removes that file, where no record is left; and removes the loose files of deletions, and in the mode that
    ///    removes them those of updates that were put;
    /// 5. removes the other locks, and tries the empty folders above deleted references and logs, whether a step failed or not, except for
    ///    `logs`, `refs` and the folders right below `refs`.
    ///
    /// Empty folders in the way of a write are removed right before it, unless it was seen that none is there. `committer` is written in
    /// each line, trimmed, and may be `None` where no line is due.
    ///
    /// At every stop on the way, and after every loss of power, each reference reads as before or as edited. Where loose files are
    /// kept, no deletion shows before every update, and updates show in their order; in the mode that removes them an update that is put
    /// shows with the removal of its file, or with `packed-refs` where it has none. A commit that succeeds leaves all synced. Beside the syncs it costs one call
    /// of files for each reference, and one more where no loose file was seen; one for each log that is removed; two for each line, or
    /// three where its log is made; one for each other lock; and one for each folder above a deletion that is tried. `packed-refs` is read
    /// and written once, where a deleted reference has a record or an object is put.
    ///
    /// Where the first part fails, nothing but locks has changed:
    /// - `CreateOrUpdateRefLog`: a line is due that cannot be made, a file is in the path of its log, or it could not be looked for;
    /// - `PackedTransactionCommit`: `packed-refs` could not be read, or has a line that is no record;
    /// - `Append`, `LockCommit`, `PackedTransactionCommit`: a folder in the way of that write could not be looked for or listed;
    /// - `Memory`: there was none for the plan.
    ///
    /// Later, the steps before the one that failed are done, and none after it is begun:
    /// - `CreateOrUpdateRefLog`, `LockCommit`, `DeleteReflog`, `PackedTransactionCommit`, `DeleteReference`: a call of files failed in that
    ///   step, or a sync after it, and then the step is done;
    /// - `FolderInPlace`: a folder that holds a file is at the place of a reference, of its log, or of `packed-refs`, or any folder that
    ///   came there after a look had found a file, or nothing at a log.
    ///
    /// A lock that was renamed is not removed, since another may hold it by then; each other lock is removed or named in `locks_left`.
    pub fn commit(
        self,
        alloc: Global,
        committer: Option<SignatureRef<'_>>,
    ) -> Result<Done<T>, Failed<T>>
        ensures committed { IfOk result (λ done. PlanSucceeds F.honest F.means F.faults
            self.entry.store.now self.exit.0.now committer.entry self.entry.plan done.edits.items
            (paths_of done.locks_left.items)) }
        ensures failed { IfErr result
            (λ f. HasEndedEarly F.honest F.means F.faults self.entry.store.now self.exit.0.now
            committer.entry (held_packed self.entry.plan) (held_edits self.entry.plan) f.error) }
        ensures safe { EveryMomentIsSafe F.honest F.means F.faults self.entry.store.now
            self.exit.0.now committer.entry (held_packed self.entry.plan)
            (held_edits self.entry.plan) (left_of result) }
        ensures kept { KeepsTheRest F.honest F.means F.faults self.entry.store.now self.exit.0.now
            committer.entry (held_packed self.entry.plan) (held_edits self.entry.plan)
            (left_of result) }
        ensures packed_refs { mode_handed_back result ≡ prepared_mode self.entry.plan }
        ensures same { IsSameStore self.entry.store.now self.exit.0.now }
    {
        let Prepared { store, plan } = self;
        let Plan {
            packed,
            edits,
            packed_refs,
            remains,
        } = plan;
        let remains = match store.carry_out(alloc, committer, edits, packed, remains) {
            Ok(remains) => remains,
            Err(Failure { error, locks_left }) => {
                return Err(Failed {
                    error,
                    packed_refs,
                    locks_left,
                });
            }
        };
        Ok(Done {
            edits: remains.edits,
            packed_refs,
            locks_left: remains.left,
        })
    }

    /// The edits as they were prepared, in their order: first those that were given, then those of references that they lead to. Each
    /// whose reference was found expects just what was found (`PreviousValue::MustExistAndMatch`). For a vote on them, or a hook, before
    /// they are committed (`git help githooks`, `reference-transaction`). The error says that there was no memory for the list.
    ///
    /// ```text
    /// let is_agreed = match prepared.edits(alloc) {
    ///     Ok(edits) => vote(&edits),
    ///     Err(_) => false,
    /// };
    /// // A `Prepared` is spent on every path: by `commit`, or by `rollback`.
    /// ```
    pub fn edits(&self, alloc: Global) -> Result<Vec<&RefEdit>, AllocError>
        ensures { IfOk result (λ edits. map (λ edit. edit.now) edits.items
            ≡ prepared_edits self.now.plan) }
    {
        lent_updates(alloc, &self.plan.edits)
    }

    /// Gives the transaction up: removes its locks, and hands the edits back as they were prepared. A lock that could not
    /// be removed is named. Takes no memory. (`abort` of `git update-ref --stdin`)
    pub fn rollback(self) -> RolledBack<T>
        ensures rolled { RollsBackFrom F.honest F.means F.faults self.entry.store.now
            self.exit.0.now (held_locks (held_packed self.entry.plan) (held_edits self.entry.plan))
            (paths_of result.locks_left.items) }
        ensures edits { result.edits.items ≡ prepared_edits self.entry.plan }
        ensures packed_refs { result.packed_refs ≡ prepared_mode self.entry.plan }
    {
        let Prepared { store, plan } = self;
        let Plan {
            packed,
            edits,
            packed_refs,
            remains,
        } = plan;
        let remains = release_all(&mut store.files, 0, packed, edits, remains);
        RolledBack {
            edits: remains.edits,
            packed_refs,
            locks_left: remains.left,
        }
    }
}

impl<F: Files, T: Find> fmt::Debug for Prepared<'_, F, Plan<T>> {
    fn fmt<W: fmt::Write>(&self, f: &mut fmt::Formatter<W>) -> fmt::Result {
        f.write_str("Prepared")
    }
}

impl<F: Files, T: Find> fmt::Debug for Transaction<'_, F, PackedRefs<T>> {
    fn fmt<W: fmt::Write>(&self, f: &mut fmt::Formatter<W>) -> fmt::Result {
        f.write_str("Transaction")
    }
}
