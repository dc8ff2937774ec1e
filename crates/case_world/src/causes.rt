//! Errors as a case compares them: as they are displayed, and the fields that are not displayed after that.
use anyhow::Result;
use bstr::ByteSlice;
use gix_ref_follow::peel::to_object;
use gix_ref_reflog::create_or_update;
use gix_ref_store::file::iter::loose_then_packed;
use gix_ref_store::file::transaction::{commit, prepare};
use gix_ref_store::file::{find, log};
use std::alloc::Global;

/// Why `prepare` refused.
pub fn of_prepare(alloc: Global, error: &prepare::Error) -> Result<String> {
    Ok(match error {
        prepare::Error::MustExist { expected, .. } => format!(in alloc;
            "{error}, expected {expected}"
        )?,
        prepare::Error::MustNotExist { new, .. } => format!(in alloc; "{error}, new {new}")?,
        prepare::Error::PackedTransactionPrepare(inner) => format!(in alloc;
            "PackedTransactionPrepare: {inner}"
        )?,
        _ => format!(in alloc; "{error}")?,
    })
}

/// Why a log line was not added.
fn of_line(alloc: Global, error: &create_or_update::Error) -> Result<String> {
    Ok(match error {
        create_or_update::Error::CreateLeadingDirectories {
            source: Some(source),
            reflog_directory,
        } => format!(in alloc;
            "{error}: {}: {source}",
            reflog_directory.as_slice().as_bstr()
        )?,
        create_or_update::Error::CreateLeadingDirectories {
            source: None,
            reflog_directory,
        } => format!(in alloc; "{error}: {}", reflog_directory.as_slice().as_bstr())?,
        create_or_update::Error::Append { reflog_path, .. } => format!(in alloc;
            "{error}: {}",
            reflog_path.as_slice().as_bstr()
        )?,
        _ => format!(in alloc; "{error}")?,
    })
}

/// Why `commit` failed.
pub fn of_commit(alloc: Global, error: &commit::Error) -> Result<String> {
    Ok(match error {
        commit::Error::CreateOrUpdateRefLog(line) => of_line(alloc, line)?,
        commit::Error::FolderInPlace { path } => format!(in alloc;
            "{error}: {}",
            path.as_slice().as_bstr()
        )?,
        _ => format!(in alloc; "{error}")?,
    })
}

/// Why a lookup failed.
pub fn of_find(alloc: Global, error: &find::Error) -> Result<String> {
    Ok(match error {
        find::Error::ReadFileContents { path, .. } => format!(in alloc;
            "{error}: {}",
            path.as_slice().as_bstr()
        )?,
        find::Error::ReferenceCreation { relative_path, .. } => format!(in alloc;
            "{error}: {}",
            relative_path.as_slice().as_bstr()
        )?,
        _ => format!(in alloc; "{error}")?,
    })
}

/// A fault in a listing.
pub fn of_item(alloc: Global, error: &loose_then_packed::Error) -> Result<String> {
    Ok(match error {
        loose_then_packed::Error::Traversal { path, .. }
        | loose_then_packed::Error::ReadFileContents { path, .. } => format!(in alloc;
            "{error}: {}",
            path.as_slice().as_bstr()
        )?,
        loose_then_packed::Error::ReferenceCreation { relative_path, .. } => format!(in alloc;
            "{error}: {}",
            relative_path.as_slice().as_bstr()
        )?,
        loose_then_packed::Error::PackedReference { invalid_line, .. } => format!(in alloc;
            "{error}: {}",
            invalid_line.as_slice().as_bstr()
        )?,
        loose_then_packed::Error::Memory => format!(in alloc; "{error}")?,
    })
}

/// Why a log was not read.
pub fn of_log(alloc: Global, error: &log::Error) -> Result<String> {
    Ok(format!(in alloc; "{error}")?)
}

/// Why a reference was not followed to an object.
pub fn of_following(alloc: Global, error: &to_object::Error) -> Result<String> {
    Ok(match error {
        to_object::Error::Cycle { start_absolute } => format!(in alloc;
            "{error}: {}",
            start_absolute.as_slice().as_bstr()
        )?,
        _ => format!(in alloc; "{error}")?,
    })
}
