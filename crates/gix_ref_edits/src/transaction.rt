//! Edits of references (`git update-ref`): what a transaction is to change, and what it expects.
ghost use Rattle.std.specs.Prelude.{◌≡◌, MatchOption, Some, None, false, []};
ghost use Rattle.gix_ref_target.specs.Targets.{target_ref_value};
ghost use Rattle.gix_ref_edits.specs.RefEdits.{new_of, expected_of, previous_of};

use gix_ref_name::name::FullName;
use gix_ref_target::target::{Target, TargetRef};
use std::alloc::{AllocError, Global};

pub mod ext;

pub use ext::{EditEntry, EditError, RefEditsExt, SplitError};

/// What an edit is of. As gix-ref's `transaction::RefLog`.
#[derive(Clone, Copy, Debug, PartialEq, Eq, PartialOrd, Ord, Hash)]
pub enum RefLog {
    /// Of the reference and its log.
    AndReference,
    /// Of the log alone.
    Only,
}

/// How the log of an update changes. As gix-ref's `transaction::LogChange`.
#[derive(Debug, PartialEq, Eq, PartialOrd, Ord, Hash, Drop)]
pub struct LogChange {
    /// Whether the reference changes, or its log alone.
    pub mode: RefLog,
    /// A log is made where it does not exist, unless the store writes none (`git update-ref --create-reflog`).
    pub force_create_reflog: bool,
    /// The message of the log line, without LF (`git update-ref -m`).
    pub message: Vec<u8>,
}

impl LogChange {
    /// `AndReference`, no log made by force, an empty message. Takes no memory. As `Default` of gix-ref's
    /// `transaction::LogChange`.
    ///
    /// ```text
    /// let mut log = LogChange::new_in(alloc);
    /// log.message = b"branch: Created from HEAD".to_vec(alloc)?;
    /// ```
    pub fn new_in(alloc: Global) -> LogChange
        ensures mode { result.mode ≡ RefLog.AndReference }
        ensures forced { result.force_create_reflog ≡ false }
        ensures message { result.message.items ≡ [] }
    {
        LogChange {
            mode: RefLog::AndReference,
            force_create_reflog: false,
            message: Vec::new(alloc),
        }
    }
}

/// What an edit expects of the reference before it. As gix-ref's `transaction::PreviousValue` (`git update-ref`,
/// OLDVALUE).
///
/// ```text
/// PreviousValue::MustExistAndMatch(Target::Object(old)) // `git update-ref NAME NEW OLD`
/// PreviousValue::MustNotExist                           // the null id as OLD
/// PreviousValue::Any                                    // no OLD
/// ```
#[derive(Debug, PartialEq, Eq, PartialOrd, Ord, Hash, Drop)]
pub enum PreviousValue {
    /// Anything.
    Any,
    /// It is there.
    MustExist,
    /// It is not there, or has the new target already.
    MustNotExist,
    /// It is there with this target.
    MustExistAndMatch(Target),
    /// It is not there, or has this target.
    ExistingMustMatch(Target),
}

/// What an edit does. As gix-ref's `transaction::Change`.
#[derive(Debug, PartialEq, Eq, PartialOrd, Ord, Hash, Drop)]
pub enum Change {
    /// Gives the reference a new target, or makes it.
    Update {
        /// How its log changes.
        log: LogChange,
        /// What has to be there before.
        expected: PreviousValue,
        /// The new target.
        new: Target,
    },
    /// Deletes the reference and its log.
    Delete {
        /// What has to be there before.
        expected: PreviousValue,
        /// Whether the reference goes, or its log alone.
        log: RefLog,
    },
}

impl Change {
    /// The new target of an update; `None` of a deletion. As gix-ref's `transaction::Change::new_value`.
    pub fn new_value(&self) -> Option<TargetRef<'_>>
        ensures { MatchOption result (new_of self.now ≡ None)
            (λ target. new_of self.now ≡ Some (target_ref_value target)) }
    {
        match self {
            Change::Update { new, .. } => Some(new.to_ref()),
            Change::Delete { .. } => None,
        }
    }

    /// The target that the edit expects to find, if it names one. As gix-ref's `transaction::Change::previous_value`.
    pub fn previous_value(&self) -> Option<TargetRef<'_>>
        ensures { MatchOption result (previous_of (expected_of self.now) ≡ None)
            (λ target. previous_of (expected_of self.now) ≡ Some (target_ref_value target)) }
    {
        match self.expectation() {
            PreviousValue::MustExistAndMatch(target) | PreviousValue::ExistingMustMatch(target) =>
                Some(target.to_ref()),
            PreviousValue::Any | PreviousValue::MustExist | PreviousValue::MustNotExist => None,
        }
    }

    /// What the edit expects. Not in gix-ref.
    pub fn expectation(&self) -> &PreviousValue
        ensures { result.now ≡ expected_of self.now }
    {
        match self {
            Change::Update { expected, .. } => expected,
            Change::Delete { expected, .. } => expected,
        }
    }
}

/// An edit of a reference. As gix-ref's `transaction::RefEdit` (`git update-ref`).
///
/// ```text
/// let edit = RefEdit {
///     change: Change::Update {
///         log: LogChange::new_in(alloc),
///         expected: PreviousValue::MustNotExist,
///         new: Target::Object(id),
///     },
///     name: FullNameRef::try_from("refs/heads/main")?.to_owned(alloc)?,
///     deref: false,
/// };
/// ```
#[derive(Debug, PartialEq, Eq, PartialOrd, Ord, Hash, Drop)]
pub struct RefEdit {
    /// What it does.
    pub change: Change,
    /// The name of the reference.
    pub name: FullName,
    /// Whether a symbolic reference is followed, and the reference that it leads to is edited in its place; where it is
    /// not, this is `git update-ref --no-deref`.
    pub deref: bool,
}

impl RefEdit {
    /// An update of the reference and its log, to this target, with this message in the log line. A symbolic reference is not
    /// followed, and a log is made by the options of the store alone; `deref` and `change` say otherwise where they are set
    /// afterwards. Takes no memory. As `git update-ref --no-deref -m MESSAGE NAME NEW OLD`.
    ///
    /// ```text
    /// let message = b"branch: Created from HEAD".to_vec(alloc)?;
    /// let edit = RefEdit::update(name, Target::Object(id), PreviousValue::MustNotExist, message);
    /// ```
    pub fn update(name: FullName, new: Target, expected: PreviousValue, message: Vec<u8>) -> RefEdit
        ensures name { result.name ≡ name }
        ensures change { result.change ≡ Change.Update (record {
          mode = RefLog.AndReference;
          force_create_reflog = false;
          message = message;
        }) expected new }
        ensures not_followed { result.deref ≡ false }
    {
        let log = LogChange {
            mode: RefLog::AndReference,
            force_create_reflog: false,
            message,
        };
        RefEdit {
            change: Change::Update { log, expected, new },
            name,
            deref: false,
        }
    }

    /// A deletion of the reference and its log. A symbolic reference is not followed. Takes no memory. As
    /// `git update-ref --no-deref -d NAME OLD`.
    ///
    /// ```text
    /// let edit = RefEdit::delete(name, PreviousValue::MustExist);
    /// ```
    pub fn delete(name: FullName, expected: PreviousValue) -> RefEdit
        ensures name { result.name ≡ name }
        ensures change { result.change ≡ Change.Delete expected RefLog.AndReference }
        ensures not_followed { result.deref ≡ false }
    {
        RefEdit {
            change: Change::Delete {
                expected,
                log: RefLog::AndReference,
            },
            name,
            deref: false,
        }
    }
}

/// A copy; the error says that there was no memory for it.
impl Clone for LogChange {
    ghost use Rattle.gix_ref_edits.specs.RefEdits.{SameLog};

    ghost is_clone = { λ log copy. SameLog log copy };

    fn clone(&self) -> Result<LogChange, AllocError> {
        Ok(LogChange {
            mode: self.mode,
            force_create_reflog: self.force_create_reflog,
            message: self.message.clone()?,
        })
    }
}

/// A copy; the error says that there was no memory for it.
impl Clone for PreviousValue {
    ghost use Rattle.gix_ref_edits.specs.RefEdits.{SameExpectation};

    ghost is_clone = { λ value copy. SameExpectation value copy };

    fn clone(&self) -> Result<PreviousValue, AllocError> {
        match self {
            PreviousValue::Any => Ok(PreviousValue::Any),
            PreviousValue::MustExist => Ok(PreviousValue::MustExist),
            PreviousValue::MustNotExist => Ok(PreviousValue::MustNotExist),
            PreviousValue::MustExistAndMatch(target) => Ok(PreviousValue::MustExistAndMatch(
                target.clone()?,
            )),
            PreviousValue::ExistingMustMatch(target) => Ok(PreviousValue::ExistingMustMatch(
                target.clone()?,
            )),
        }
    }
}

/// A copy; the error says that there was no memory for it.
impl Clone for Change {
    ghost use Rattle.gix_ref_edits.specs.RefEdits.{SameChange};

    ghost is_clone = { λ change copy. SameChange change copy };

    fn clone(&self) -> Result<Change, AllocError> {
        match self {
            Change::Update { log, expected, new } => Ok(Change::Update {
                log: log.clone()?,
                expected: expected.clone()?,
                new: new.clone()?,
            }),
            Change::Delete { expected, log } => Ok(Change::Delete {
                expected: expected.clone()?,
                log: *log,
            }),
        }
    }
}

/// A copy; the error says that there was no memory for it.
impl Clone for RefEdit {
    ghost use Rattle.gix_ref_name.specs.Names.{full_bytes};
    ghost use Rattle.gix_ref_edits.specs.RefEdits.{SameChange};

    ghost is_clone = { λ edit copy. (full_bytes copy.name ≡ full_bytes edit.name)
        × SameChange edit.change copy.change × (copy.deref ≡ edit.deref) };

    fn clone(&self) -> Result<RefEdit, AllocError> {
        Ok(RefEdit {
            change: self.change.clone()?,
            name: self.name.clone()?,
            deref: self.deref,
        })
    }
}
