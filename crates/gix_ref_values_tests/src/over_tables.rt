//! A caller whose finder holds a reference: what it learns of the list, and of what is after the reference.
ghost use Rattle.std.specs.Prelude.{◌≡◌, ℕ, List, Option, OnOk, IfOk};
ghost use Rattle.gix_ref_name.specs.Names.{partial_ref_bytes};
ghost use Rattle.gix_ref_edits.specs.LookUps.{referent_of};
ghost use Rattle.gix_ref_edits.specs.MadeEntries.{edits_of};
ghost use Rattle.gix_ref_edits.specs.SplitLists.{IsSplitList};

use crate::values::made::{Fault, deletion};
use gix_ref_edits::transaction::{RefEdit, RefEditsExt, SplitError};
use gix_ref_name::name::PartialNameRef;
use gix_ref_target::target::Target;
use std::alloc::Global;

/// References that are read through a `&mut`, as those of a store are.
pub trait Table {
    // the names to which symbolic references lead
    ghost means: { Self → List ℕ → Option (List ℕ) };

    fn target(&mut self, alloc: Global, name: PartialNameRef<'_>) -> Result<Option<Target>, Fault>
        ensures answer { IfOk result (λ target. referent_of target
            ≡ means self.old (partial_ref_bytes name.entry)) }
        ensures same { means self.new ≡ means self.old };
}

/// The edits after their splits over a table.
pub fn split_over<T: Table>(
    alloc: Global,
    table: &mut T,
    edits: &mut Vec<RefEdit>,
) -> Result<(), SplitError<Fault>>
    ensures split { OnOk result (IsSplitList (T.means table.old)
        (edits_of (λ edit. edit) edits.old.items) (edits_of (λ edit. edit) edits.new.items)) }
    ensures same { T.means table.new ≡ T.means table.old }
{
    let mut find = |name: PartialNameRef<'_>| table.target(alloc, name);
    let mut make = |_parent: usize, edit: RefEdit| edit;
    edits.extend_with_splits_of_symbolic_refs(alloc, &mut find, &mut make)
}

/// A table without symbolic references, which counts its look-ups.
pub struct Objects {
    pub lookups: usize,
}

impl Table for Objects {
    ghost use Rattle.std.specs.Prelude.{None};

    ghost means = { λ _ _. None };

    fn target(
        &mut self,
        _alloc: Global,
        _name: PartialNameRef<'_>,
    ) -> Result<Option<Target>, Fault> {
        self.lookups = self.lookups.saturating_add(1);
        Ok(None)
    }
}

#[test]
fn each_edit_that_follows_is_looked_up_once(rt: HostRuntime) {
    let alloc = rt.alloc();
    let mut edits = Vec::new(alloc);
    edits
        .push(deletion(&rt, alloc, "HEAD", true))
        .expect(&rt, "memory");
    edits
        .push(deletion(&rt, alloc, "refs/heads/a", false))
        .expect(&rt, "memory");
    edits
        .push(deletion(&rt, alloc, "refs/heads/b", true))
        .expect(&rt, "memory");
    let mut table = Objects { lookups: 0 };
    let result = split_over(alloc, &mut table, &mut edits);
    assert!(rt; result.is_ok() && edits.len() == 3);
    let Objects { lookups } = table;
    assert!(rt; lookups == 2);
}
