//! The loose file at a place, decoded.
ghost use Rattle.std.specs.Prelude.{◌≡◌, IfOk, IfErr, Some};
ghost use Rattle.gix_ref_files.specs.Files.{AtEveryStop, OnEveryDisk, count_after};
ghost use Rattle.gix_ref_files.specs.Calls.{Unchanged};
ghost use Rattle.gix_ref_files.specs.DiskCalls.{Untouched};
ghost use Rattle.gix_ref_theory.specs.OnRealTrees.{contents};
ghost use Rattle.gix_ref_lookup.specs.LooseFiles.{IsDecoded, IsThere};

use crate::loose::{Error, decode};
use gix_ref_files::files::{FileError, Files, Node};
use gix_ref_hash::hash::Kind;
use gix_ref_target::target::Target;
use std::alloc::Global;

/// What the loose file at a place is decoded to.
#[derive(Drop)]
pub enum Loose {
    /// Nothing is there, nor below it.
    Nothing,
    /// A folder is there.
    Folder,
    /// It holds this target.
    Holds(Target),
    /// It holds no target, for this reason.
    Undecodable(Error),
}

/// What a text is decoded to.
fn loose_in(alloc: Global, text: &[u8], kind: Kind) -> Result<Loose, FileError>
    ensures decoded { IfOk result (IsDecoded kind (Some text.now)) }
    ensures error { IfErr result (λ error. error ≡ FileError.Memory) }
{
    match decode(alloc, text, kind) {
        Ok(target) => Ok(Loose::Holds(target)),
        Err(Error::Memory) => Err(FileError::Memory),
        Err(error) => Ok(Loose::Undecodable(error)),
    }
}

/// Reads the loose file at a place: one call of files.
pub fn loose_at<F: Files>(
    alloc: Global,
    files: &mut F,
    place: &[u8],
    kind: Kind,
) -> Result<Loose, FileError>
    ensures decoded { F.honest →
        IfOk result (IsDecoded kind (contents F.means files.old place.now)) }
    ensures there { F.honest → IfOk result (IsThere ((F.means files.old).tree place.now)) }
    ensures leaves { F.honest → AtEveryStop F.means files.old files.new Unchanged }
    ensures passes { F.honest → OnEveryDisk F.means files.old files.new Untouched }
    ensures count { F.faults files.new ≡ count_after result (F.faults files.old) }
{
    let mut text = Vec::new(alloc);
    match files.read(alloc, place, &mut text)? {
        Node::File => loose_in(alloc, &text, kind),
        Node::Folder => Ok(Loose::Folder),
        Node::Nothing | Node::Blocked => Ok(Loose::Nothing),
    }
}
