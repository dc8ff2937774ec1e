//! Faults among the items of a listing.
ghost use Rattle.std.specs.Prelude.{◌≡◌};
ghost use Rattle.gix_ref_listing.specs.Items.{of_reading, IsOfLine};

use gix_ref_files::files::FileError;
use gix_ref_lookup::find::ReadError;
use gix_ref_lookup::{find, loose};
use gix_ref_packed::packed::iter::Error as PackedError;
use std::alloc::{AllocError, Global};
use thiserror::Error;

/// A fault in the place of an item of a listing. The listing goes on after it.
#[derive(Debug, Drop, Error)]
pub enum Error {
    /// The folder at this path could not be listed; the names below it are not in the listing.
    #[error("a folder of references could not be listed: {source}")]
    Traversal {
        source: FileError,
        path: Vec<u8>,
    },
    /// The file at this path could not be read, or was removed since the walk that found it, and the name has no record in
    /// `packed-refs` either. The path is that of `packed-refs` where this could not be opened or searched for such a name. Of a
    /// record it is the place of its name, which has the name of a device, and the store prohibits these.
    #[error("the file of a reference could not be read: {source}")]
    ReadFileContents {
        source: ReadError,
        path: Vec<u8>,
    },
    /// The file of the name that is the relative path holds no target.
    #[error("the file of a reference holds no target: {source}")]
    ReferenceCreation {
        source: loose::Error,
        relative_path: Vec<u8>,
    },
    /// A line of `packed-refs` that is no record, without its LF, and its number in the file, from 1.
    #[error("line {line_number} of packed-refs is no record")]
    PackedReference {
        invalid_line: Vec<u8>,
        line_number: u64,
    },
    /// There was no memory for a name or a target.
    #[error("out of memory")]
    Memory,
}

impl From<AllocError> for Error {
    ghost use Rattle.std.specs.Prelude.{◌≡◌};
    ghost use Rattle.gix_ref_listing.specs.declared.error.Error.TheVariants.{Memory};

    ghost from_gives = { λ _ e. e ≡ Memory };

    fn from(_error: AllocError) -> Error {
        Error::Memory
    }
}

/// The fault of an item whose file was not read. No reading of a file returns an error of `packed-refs` or of a name.
pub(crate) fn of_reading(error: find::Error) -> Error
    ensures { result ≡ of_reading error }
{
    match error {
        find::Error::ReadFileContents { source, path } => Error::ReadFileContents { source, path },
        find::Error::ReferenceCreation {
            source,
            relative_path,
        } => Error::ReferenceCreation {
            source,
            relative_path,
        },
        find::Error::RefnameValidation(_)
        | find::Error::PackedRef(_)
        | find::Error::PackedOpen(_)
        | find::Error::Memory => Error::Memory,
    }
}

/// The fault of a line that is no record.
pub(crate) fn of_line(alloc: Global, error: PackedError<'_>) -> Error
    ensures { IsOfLine error.entry result }
{
    let (line, line_number) = match error {
        PackedError::Header { invalid_first_line } => (invalid_first_line, 1),
        PackedError::Reference {
            invalid_line,
            line_number,
        } => (invalid_line, line_number),
    };
    match line.to_vec(alloc) {
        Ok(invalid_line) => Error::PackedReference {
            invalid_line,
            line_number,
        },
        Err(_) => Error::Memory,
    }
}
