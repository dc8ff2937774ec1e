//! The bytes of a due line.
ghost use Rattle.std.specs.Prelude.{◌≡◌, false, Some, IfOk, IfErr, OnOk};
ghost use Rattle.std.specs.Option.{option_map};
ghost use Rattle.gix_ref_log.specs.Signatures.{signature_ref_who};
ghost use Rattle.gix_ref_reflog.specs.DueLines.{due_line_text};
ghost use Rattle.gix_ref_reflog.specs.LineCauses.{CanMake};
ghost use Rattle.gix_ref_reflog.specs.internal.LineSteps.{refusal_of, IsInPath, IsUnadded, IsUnmade};

use crate::create_or_update;
use crate::error::Error;
use crate::ids::LineIds;
use crate::place::Place;
use gix_ref_files::paths::folder;
use gix_ref_log::actor::SignatureRef;
use gix_ref_log::log::{AppendError, appended_line};
use std::alloc::Global;

/// How the refusal of a line's bytes is reported.
fn refused(error: AppendError) -> Error
    ensures { result ≡ refusal_of error }
{
    match error {
        AppendError::MessageWithNewlines => {
            Error::CreateOrUpdateRefLog(create_or_update::Error::MessageWithNewlines)
        }
        AppendError::SignatureUnwritable => {
            Error::CreateOrUpdateRefLog(create_or_update::Error::SignatureUnwritable)
        }
        AppendError::Memory => Error::Memory,
    }
}

/// The bytes of a due line. The refusals are `MissingCommitter`, `MessageWithNewlines` and `SignatureUnwritable`, the first of
/// them that applies, and `Memory`.
fn make_line(
    alloc: Global,
    committer: Option<SignatureRef<'_>>,
    ids: &LineIds,
    message: &[u8],
) -> Result<Vec<u8>, Error>
    ensures made { IfOk result (λ line. Some line.items
        ≡ due_line_text (option_map signature_ref_who committer.entry) (Some ids.now) message.now) }
    ensures can { OnOk result (CanMake (option_map signature_ref_who committer.entry) message.now) }
    ensures refused { IfErr result
        (IsUnmade (option_map signature_ref_who committer.entry) message.now) }
{
    let Some(committer) = committer else {
        return Err(Error::CreateOrUpdateRefLog(create_or_update::Error::MissingCommitter));
    };
    match appended_line(alloc, &ids.previous, &ids.new, committer, message) {
        Ok(line) => Ok(line),
        Err(error) => Err(refused(error)),
    }
}

/// The refusal of a due line with a file in the path of its log.
fn blocked(alloc: Global, path: &[u8]) -> Error
    ensures { IsInPath path.now result }
{
    match folder(path).to_vec(alloc) {
        Ok(reflog_directory) => Error::CreateOrUpdateRefLog(
            create_or_update::Error::CreateLeadingDirectories {
                source: None,
                reflog_directory,
            },
        ),
        Err(_) => Error::Memory,
    }
}

/// The bytes of a due line whose log is at this path. The refusals are those of `make_line`, and `CreateLeadingDirectories` where
/// a file is in the path.
pub fn line_at(
    alloc: Global,
    committer: Option<SignatureRef<'_>>,
    ids: &LineIds,
    message: &[u8],
    place: Place,
    path: &[u8],
) -> Result<Vec<u8>, Error>
    ensures made { IfOk result (λ line. Some line.items
        ≡ due_line_text (option_map signature_ref_who committer.entry) (Some ids.now) message.now) }
    ensures can { OnOk result (CanMake (option_map signature_ref_who committer.entry) message.now) }
    ensures open { OnOk result (place.is_blocked ≡ false) }
    ensures refused { IfErr result (IsUnadded (option_map signature_ref_who committer.entry)
        message.now path.now place.is_blocked) }
{
    let line = make_line(alloc, committer, ids, message)?;
    if place.is_blocked {
        return Err(blocked(alloc, path));
    }
    Ok(line)
}
