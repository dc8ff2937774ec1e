//! Why a command is refused, and the name that is printed of it: the variant of the error.
ghost use Rattle.std.specs.Prelude.{◌≡◌};
ghost use Rattle.gix_ref_program.specs.Outcomes.{name_word, prepare_word, line_word, commit_word, find_word, open_word, list_word, log_word, refusal_word};

use crate::update::UpdateError;
use gix_ref_name::name;
use gix_ref_packed::packed::buffer::open;
use gix_ref_reflog::create_or_update;
use gix_ref_store::file::transaction::{commit, prepare};
use gix_ref_store::file::{find, iter, log};
use thiserror::Error;

/// Why a line is refused.
#[derive(Debug, Drop, Error)]
pub enum Refusal {
    /// The folder is not a clean path.
    #[error("the folder is not a clean path")]
    PathNotClean,
    /// A NAME breaks a rule of names.
    #[error("{0}")]
    Name(name::Error),
    /// The update was not made.
    #[error("{0}")]
    Update(UpdateError),
    /// The lookup failed.
    #[error("{0}")]
    Find(find::Error),
    /// There is no listing.
    #[error("{0}")]
    List(iter::Error),
    /// The log could not be read.
    #[error("{0}")]
    Log(log::Error),
    /// The file of a script is none, or could not be read.
    #[error("the script could not be read")]
    ReadFileContents,
    /// A line of a script is no list of commands that write.
    #[error("the line is no list of commands")]
    WrongLine,
    /// There is no such reference.
    #[error("there is no such reference")]
    NotFound,
    /// An allocation was refused.
    #[error("there was no memory")]
    Memory,
}

/// The variant of an error of names.
fn name_variant(error: &name::Error) -> &'static str
    ensures { result.now ≡ name_word error.now }
{
    match error {
        name::Error::Empty => "Empty",
        name::Error::InvalidByte { .. } => "InvalidByte",
        name::Error::Asterisk => "Asterisk",
        name::Error::StartsWithSlash => "StartsWithSlash",
        name::Error::EndsWithSlash => "EndsWithSlash",
        name::Error::RepeatedSlash => "RepeatedSlash",
        name::Error::StartsWithDot => "StartsWithDot",
        name::Error::EndsWithDot => "EndsWithDot",
        name::Error::RepeatedDot => "RepeatedDot",
        name::Error::LockFileSuffix => "LockFileSuffix",
        name::Error::ReflogPortion => "ReflogPortion",
        name::Error::SingleAt => "SingleAt",
        name::Error::SomeLowercase => "SomeLowercase",
        name::Error::Memory => "Memory",
    }
}

/// The variant of a refusal of `prepare`.
fn prepare_variant(error: &prepare::Error) -> &'static str
    ensures { result.now ≡ prepare_word error.now }
{
    match error {
        prepare::Error::UnsafeName => "UnsafeName",
        prepare::Error::DeviceName => "DeviceName",
        prepare::Error::DeleteMustNotExist => "DeleteMustNotExist",
        prepare::Error::TargetNotFull => "TargetNotFull",
        prepare::Error::OtherHashKind => "OtherHashKind",
        prepare::Error::PreprocessingFailed { .. } => "PreprocessingFailed",
        prepare::Error::PackedTransactionAcquire => "PackedTransactionAcquire",
        prepare::Error::PackedTransactionPrepare(_) => "PackedTransactionPrepare",
        prepare::Error::Packed(_) => "Packed",
        prepare::Error::PackedFind(_) => "PackedFind",
        prepare::Error::PathCollision { .. } => "PathCollision",
        prepare::Error::LockAcquire { .. } => "LockAcquire",
        prepare::Error::DeleteReferenceMustExist { .. } => "DeleteReferenceMustExist",
        prepare::Error::MustExist { .. } => "MustExist",
        prepare::Error::MustNotExist { .. } => "MustNotExist",
        prepare::Error::ReferenceOutOfDate { .. } => "ReferenceOutOfDate",
        prepare::Error::ReferenceDecode(_) => "ReferenceDecode",
        prepare::Error::Io(_) => "Io",
        prepare::Error::Memory => "Memory",
    }
}

/// The variant of an error of a log line.
fn line_variant(error: &create_or_update::Error) -> &'static str
    ensures { result.now ≡ line_word error.now }
{
    match error {
        create_or_update::Error::CreateLeadingDirectories { .. } => "CreateLeadingDirectories",
        create_or_update::Error::Append { .. } => "Append",
        create_or_update::Error::MessageWithNewlines => "MessageWithNewlines",
        create_or_update::Error::MissingCommitter => "MissingCommitter",
        create_or_update::Error::SignatureUnwritable => "SignatureUnwritable",
    }
}

/// The variant of an error of `commit`; of one of a log line, the variant of that.
fn commit_variant(error: &commit::Error) -> &'static str
    ensures { result.now ≡ commit_word error.now }
{
    match error {
        commit::Error::CreateOrUpdateRefLog(error) => line_variant(error),
        commit::Error::PackedTransactionCommit(_) => "PackedTransactionCommit",
        commit::Error::LockCommit { .. } => "LockCommit",
        commit::Error::DeleteReference { .. } => "DeleteReference",
        commit::Error::DeleteReflog { .. } => "DeleteReflog",
        commit::Error::FolderInPlace { .. } => "FolderInPlace",
        commit::Error::PreprocessingFailed { .. } => "PreprocessingFailed",
        commit::Error::Memory => "Memory",
    }
}

/// The variant of an error of a lookup.
fn find_variant(error: &find::Error) -> &'static str
    ensures { result.now ≡ find_word error.now }
{
    match error {
        find::Error::RefnameValidation(_) => "RefnameValidation",
        find::Error::ReadFileContents { .. } => "ReadFileContents",
        find::Error::ReferenceCreation { .. } => "ReferenceCreation",
        find::Error::PackedRef(_) => "PackedRef",
        find::Error::PackedOpen(_) => "PackedOpen",
        find::Error::Memory => "Memory",
    }
}

/// The variant of an error of opening `packed-refs`.
fn open_variant(error: &open::Error) -> &'static str
    ensures { result.now ≡ open_word error.now }
{
    match error {
        open::Error::Iter { .. } => "Iter",
        open::Error::HeaderParsing => "HeaderParsing",
        open::Error::Io(_) => "Io",
        open::Error::Memory => "Memory",
    }
}

/// The variant of an error of a listing; of one that is from opening `packed-refs`, the variant of that.
fn list_variant(error: &iter::Error) -> &'static str
    ensures { result.now ≡ list_word error.now }
{
    match error {
        iter::Error::EmptyPrefix => "EmptyPrefix",
        iter::Error::PrefixNotClean => "PrefixNotClean",
        iter::Error::PackedOpen(error) => open_variant(error),
        iter::Error::Memory => "Memory",
    }
}

/// The variant of an error of a reflog.
fn log_variant(error: &log::Error) -> &'static str
    ensures { result.now ≡ log_word error.now }
{
    match error {
        log::Error::RefnameValidation(_) => "RefnameValidation",
        log::Error::Io(_) => "Io",
        log::Error::DeviceName => "DeviceName",
        log::Error::EmptyBuffer => "EmptyBuffer",
        log::Error::Memory => "Memory",
    }
}

impl Refusal {
    /// The variant of the error, as the program prints it.
    pub fn variant(&self) -> &'static str
        ensures { result.now ≡ refusal_word self.now }
    {
        match self {
            Refusal::PathNotClean => "PathNotClean",
            Refusal::Name(error) => name_variant(error),
            Refusal::Update(UpdateError::Prepare(error)) => prepare_variant(error),
            Refusal::Update(UpdateError::Commit(error)) => commit_variant(error),
            Refusal::Find(error) => find_variant(error),
            Refusal::List(error) => list_variant(error),
            Refusal::Log(error) => log_variant(error),
            Refusal::ReadFileContents => "ReadFileContents",
            Refusal::WrongLine => "WrongLine",
            Refusal::NotFound => "NotFound",
            Refusal::Memory => "Memory",
        }
    }
}
