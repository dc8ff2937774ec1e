//! The leaves of edits: the edit at the end of the chain of those that were split from an edit.
ghost use Rattle.std.specs.Prelude.{◌≡◌, IfOk};
ghost use Rattle.gix_ref_reflog.specs.internal.Leaves.{handed, leaf_id, AreLeaves};

use crate::ids::expected_id;
use gix_ref_hash::hash::ObjectId;
use gix_ref_transaction::edit::Edit;
use std::alloc::{AllocError, Global};

/// The leaf of an edit.
#[derive(Clone, Copy, PartialEq, Eq)]
pub enum Leaf {
    /// The edit itself: none was split from it.
    Itself,
    /// An edit that was split from it, or from one of those. It expects this object.
    Below(Option<ObjectId>),
}

impl Leaf {
    /// The object that the leaf expects, if it is not the edit itself.
    pub fn id(self) -> Option<ObjectId>
        ensures { result ≡ leaf_id self }
    {
        match self {
            Leaf::Itself => None,
            Leaf::Below(id) => id,
        }
    }

    /// The leaf as the parent of the edit has it.
    fn for_parent(self, edit: &Edit) -> Leaf
        ensures { result ≡ handed edit.now self }
    {
        match self {
            Leaf::Itself => Leaf::Below(expected_id(&edit.update.change)),
            Leaf::Below(id) => Leaf::Below(id),
        }
    }
}

/// The leaves of all edits, in one pass from the last edit to the first: each hands its leaf to the edit that it was split
/// from, which is before it in the list. The error reports that there was no memory for them.
pub fn leaves_of(alloc: Global, edits: &[Edit]) -> Result<Vec<Leaf>, AllocError>
    ensures { IfOk result (λ leaves. AreLeaves edits.now 0 leaves.items) }
{
    let mut leaves = vec![in alloc; Leaf::Itself; edits.len()]?;
    let mut i = edits.len();
    while i > 0 {
        i -= 1;
        let edit = &edits[i];
        if let Some(parent) = edit.parent {
            if parent < i {
                leaves[parent] = leaves[i].for_parent(edit);
            }
        }
    }
    Ok(leaves)
}
