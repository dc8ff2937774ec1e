//! What there is at the path of a log.
ghost use Rattle.std.specs.Prelude.{◌≡◌, ◌||◌, IfOk, IfErr, is_some};
ghost use Rattle.std.specs.List.{list_any};
ghost use Rattle.gix_ref_files.specs.ReadOnly.{OnlyReads};
ghost use Rattle.gix_ref_files.specs.Files.{count_with, FaultCounts};
ghost use Rattle.gix_ref_files.specs.Tree.{fronts, is_blocked, node_at};
ghost use Rattle.gix_ref_theory.specs.OnRealTrees.{contents};
ghost use Rattle.gix_ref_reflog.specs.LineCauses.{IsCountedCause};
ghost use Rattle.gix_ref_reflog.specs.internal.LineSteps.{IsFaultAt};
ghost use Rattle.gix_ref_reflog.specs.internal.SeenLogs.{due_paths, IsBounded};
ghost use Rattle.gix_ref_transaction.specs.OwnLocks.{is_in};

use crate::create_or_update;
use crate::error::Error;
use crate::logs::DueLogs;
use gix_ref_files::files::{FileError, Files, Node};
use gix_ref_files::paths::folder;
use std::alloc::Global;

/// What there is at the path of a log.
#[derive(Clone, Copy, PartialEq, Eq)]
pub struct Place {
    /// What is there.
    pub node: Node,
    /// Whether the log is there.
    pub is_file: bool,
    /// Whether a file is where a folder of its path would be.
    pub is_blocked: bool,
}

/// The refusal of a fault in the search for a log.
fn fault_at(alloc: Global, path: &[u8], fault: FileError) -> Error
    requires { fault ≡ FileError.Memory → ⊥ }
    ensures at { IsFaultAt path.now result }
    ensures counted { (before now : FaultCounts) → now ≡ count_with fault before →
        IsCountedCause before now result }
{
    match folder(path).to_vec(alloc) {
        Ok(reflog_directory) => Error::CreateOrUpdateRefLog(
            create_or_update::Error::CreateLeadingDirectories {
                source: Some(fault),
                reflog_directory,
            },
        ),
        Err(_) => Error::Memory,
    }
}

/// What there is at the path of a log. In the path the logs that have a line due count as files. Makes one call of files.
pub fn place_at<F: Files>(
    alloc: Global,
    files: &mut F,
    due: &DueLogs,
    path: &[u8],
) -> Result<Place, Error>
    requires { IsBounded due.now }
    ensures node { F.honest →
        IfOk result (λ place. place.node ≡ node_at (F.means files.old).tree path.now) }
    ensures file { F.honest → IfOk result (λ place. place.is_file
        ≡ is_some (contents F.means files.old path.now)) }
    ensures blocked { F.honest → IfOk result (λ place. place.is_blocked ≡ (is_blocked (F.means
        files.old).tree path.now || list_any (is_in (due_paths due.now)) (fronts path.now))) }
    ensures failed { IfErr result (IsFaultAt path.now) }
    ensures reads { OnlyReads F.honest F.means F.faults files.old files.new }
    ensures counted { IfErr result (IsCountedCause (F.faults files.old) (F.faults files.new)) }
{
    match files.kind(path) {
        Ok(node) => {
            let is_file = node == Node::File;
            Ok(Place {
                node,
                is_file,
                is_blocked: node == Node::Blocked || due.is_above(path),
            })
        }
        Err(fault) => Err(fault_at(alloc, path, fault)),
    }
}
