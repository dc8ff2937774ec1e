//! The split of one edit: what stays with a symbolic reference, and what goes to the reference that it leads to.
ghost use Rattle.std.specs.Prelude.{◌≡◌, [], ◌∷◌, Option, Some, OnOk, OnErr, IfOk, IfErr};
ghost use Rattle.gix_ref_name.specs.Names.{full_bytes};
ghost use Rattle.gix_ref_edits.specs.EditValues.{change_value, edit_value};
ghost use Rattle.gix_ref_edits.specs.SplitLists.{parent_change, looked_up, child_of};
ghost use Rattle.gix_ref_edits.specs.internal.Rounds.{HasRound, IsLookUpFault, values_of_option};

use crate::transaction::ext::SplitError;
use crate::transaction::{Change, PreviousValue, RefEdit, RefLog};
use gix_ref_name::name::{FullName, PartialNameRef};
use gix_ref_target::target::Target;
use std::alloc::AllocError;

impl Change {
    /// A copy for the reference that a symbolic one leads to; what is left is the change of the symbolic reference,
    /// which is of its log alone. After an error the change is as before.
    fn split_off(&mut self) -> Result<Change, AllocError>
        ensures parent { OnOk result (change_value self.new
            ≡ parent_change (change_value self.old)) }
        ensures child { IfOk result (λ child. change_value child ≡ change_value self.old) }
        ensures unchanged { OnErr result (self.new ≡ self.old) }
    {
        let child = self.clone()?;
        match self {
            Change::Update { log, expected, .. } => {
                log.mode = RefLog::Only;
                *expected = PreviousValue::Any;
            }
            Change::Delete { log, .. } => *log = RefLog::Only,
        }
        Ok(child)
    }
}

impl RefEdit {
    /// Splits the edit of a symbolic reference that leads to this name: what is left is the edit of the reference's log
    /// alone, and the child, the edit of the reference of that name, is returned, which follows in turn. After an error the
    /// edit is as before.
    pub fn split_to(&mut self, referent: FullName) -> Result<RefEdit, AllocError>
        ensures parent { OnOk result (edit_value self.new
            ≡ looked_up (edit_value self.old) (Some (full_bytes referent))) }
        ensures child { IfOk result (λ child. edit_value child
            ≡ child_of (edit_value self.old) (full_bytes referent)) }
        ensures unchanged { OnErr result (self.new ≡ self.old) }
    {
        let change = self.change.split_off()?;
        self.deref = false;
        Ok(RefEdit {
            change,
            name: referent,
            deref: true,
        })
    }

    /// Looks up the edit's reference, where the edit follows it, and splits the edit where it is symbolic: the child is
    /// returned. Afterwards the edit follows no more.
    pub(crate) fn follow<E, F>(&mut self, find: &mut F) -> Result<Option<RefEdit>, SplitError<E>>
    where
        F: FnMut(PartialNameRef<'_>) -> Result<Option<Target>, E>,
        requires { F.IsAlwaysCallable find.old }
        ensures callable { F.IsAlwaysCallable find.new }
        ensures round { IfOk result (λ child. HasRound F.step find.old (edit_value self.old ∷ [])
            (edit_value self.new ∷ []) (values_of_option child) find.new) }
        ensures fault { IfErr result (IsLookUpFault F.step find.old find.new) }
    {
        if !self.deref {
            return Ok(None);
        }
        self.deref = false;
        match find(self.name.as_ref().as_partial_name()) {
            Ok(Some(Target::Symbolic(referent))) => Ok(Some(self.split_to(referent)?)),
            Ok(Some(Target::Object(_))) => Ok(None),
            Ok(None) => Ok(None),
            Err(e) => Err(SplitError::Find(e)),
        }
    }
}
