//! Where symbolic references lead the edits of a transaction, as git has it: an update of the branch that `HEAD` leads to is made through
//! `HEAD`, whose log has its line too, and a deletion that follows is of the reference at the end.
ghost use Rattle.std.specs.Prelude.{◌≡◌, codes, is_none, IfErr, IfOk, OnOk};
ghost use Rattle.std.specs.Option.{option_map};
ghost use Rattle.gix_ref_edits.specs.RefEdits.{SameChange, name_of};
ghost use Rattle.gix_ref_name.specs.Names.{full_bytes, full_ref_bytes};
ghost use Rattle.gix_ref_store.specs.Lookup.{LooksUp};
ghost use Rattle.gix_ref_queries.specs.Resolving.{IsUnfollowedBy, IsUnreadBy, OfTargets, resolved};
ghost use Rattle.gix_ref_session.specs.Clashes.{AreClear, IsFindFailure, IsHeadUnread, IsLookFailure, IsOwnUnread};
ghost use Rattle.gix_ref_session.specs.Leading.{AreLed, LeadsIn, LeadsTo, SeesBranch, SeesLast, SeesLed, SeesNext, SeesThrough, branch_of, is_followed, is_through_head, last_of, next_of, updates};
ghost use Rattle.gix_ref_session.specs.declared.fatal.Fatal.TheVariants.{Memory};

use crate::clash::check_names;
use crate::fatal::Fatal;
use crate::gather::push_edit;
use gix_ref_edits::transaction::{Change, RefEdit, RefLog};
use gix_ref_files::files::Files;
use gix_ref_name::name::{FullName, FullNameRef};
use gix_ref_queries::resolve::{End, Followed, NameRead, follow, read_name};
use gix_ref_store::file::Store;
use gix_ref_target::target::Target;
use std::alloc::Global;

/// The name that the reference of this full name leads to, if it is symbolic.
fn next_name<F: Files>(
    alloc: Global,
    store: &mut Store<F>,
    name: FullNameRef<'_>,
) -> Result<Option<FullName>, Fatal>
    ensures reads { OfTargets F.honest F.means store.old (λ find. IfOk result
        (λ next. option_map full_bytes next ≡ next_of (find (full_ref_bytes name.entry)))) }
    ensures seen { F.honest → IfOk result (λ next. SeesNext F.means store.old
        (full_ref_bytes name.entry) (option_map full_bytes next)) }
    ensures unchanged { LooksUp F.honest F.means store.old store.new }
    ensures fails { IfErr result
        (IsFindFailure (IsUnreadBy F.Reader.ReadAt F.honest F.means F.faults store.old
        (full_ref_bytes name.entry))) }
{
    match read_name(alloc, store, name) {
        NameRead::Is(Target::Symbolic(next)) => Ok(Some(next)),
        NameRead::Is(Target::Object(_)) => Ok(None),
        NameRead::Absent => Ok(None),
        NameRead::Unread(error) => Err(Fatal::Find(error)),
        NameRead::Memory => Err(Fatal::Memory),
    }
}

/// The last name of a chain of symbolic references; `None` where it has more than five.
fn end_of_chain<F: Files>(
    alloc: Global,
    store: &mut Store<F>,
    name: &FullName,
) -> Result<Option<FullName>, Fatal>
    ensures ends { OfTargets F.honest F.means store.old (λ find. IfOk result
        (λ last. option_map full_bytes last ≡ last_of (resolved find 5 (full_bytes name.now)))) }
    ensures seen { F.honest → IfOk result (λ last. SeesLast F.means store.old
        (full_bytes name.now) (option_map full_bytes last)) }
    ensures unchanged { LooksUp F.honest F.means store.old store.new }
    ensures fails { IfErr result
        (IsFindFailure (IsUnfollowedBy F.Reader.ReadAt F.honest F.means F.faults store.old
        (full_bytes name.now))) }
{
    let Followed { name: last, end } = follow(alloc, store, name.clone()?);
    match end {
        End::Object(_) => Ok(Some(last)),
        End::Absent => Ok(Some(last)),
        End::TooDeep => Ok(None),
        End::Unread(error) => Err(Fatal::Find(error)),
        End::Memory => Err(Fatal::Memory),
    }
}

/// The name `HEAD`.
fn head(alloc: Global) -> Result<FullName, Fatal>
    ensures is_head { IfOk result (λ name. full_bytes name ≡ codes "HEAD") }
    ensures memory { IfErr result (λ fatal. fatal ≡ Memory) }
{
    match FullNameRef::try_from(b"HEAD".as_slice()) {
        Ok(head) => Ok(head.to_owned(alloc)?),
        Err(_) => unreachable!(),
    }
}

/// The branch that `HEAD` leads to, where lines are written.
#[tactic(auto, using(crate::proofs::Looking::looks_on, crate::proofs::Looking::looks_same))]
fn head_branch<F: Files>(
    alloc: Global,
    store: &mut Store<F>,
    writes_lines: bool,
) -> Result<Option<FullName>, Fatal>
    ensures branch { OfTargets F.honest F.means store.old (λ find. IfOk result
        (λ branch. option_map full_bytes branch ≡ branch_of find writes_lines)) }
    ensures seen { F.honest → IfOk result (λ branch. SeesBranch F.means store.old writes_lines
        (option_map full_bytes branch)) }
    ensures unchanged { LooksUp F.honest F.means store.old store.new }
    ensures fails { IfErr result
        (IsFindFailure (IsHeadUnread F.honest F.means F.faults F.Reader.ReadAt store.old
        writes_lines)) }
{
    if !writes_lines {
        return Ok(None);
    }
    let head = head(alloc)?;
    next_name(alloc, store, head.as_ref())
}

/// Whether a change is an update of a reference to an object.
pub(crate) fn updates(change: &Change) -> bool
    ensures { result ≡ updates change.now }
{
    match change {
        Change::Update { log, new, .. } => {
            log.mode == RefLog::AndReference && matches!(new, Target::Object(_))
        }
        Change::Delete { .. } => false,
    }
}

/// Whether an edit is a deletion that follows symbolic references.
fn is_followed(edit: &RefEdit) -> bool
    ensures { result ≡ is_followed edit.now }
{
    edit.deref && matches!(edit.change, Change::Delete { .. })
}

/// Whether an edit is an update that is made through `HEAD`, which leads to this branch.
#[tactic(auto, using(crate::proofs::Looking::looks_on, crate::proofs::Looking::looks_same))]
fn is_through_head<F: Files>(
    alloc: Global,
    store: &mut Store<F>,
    edit: &RefEdit,
    branch: &Option<FullName>,
) -> Result<bool, Fatal>
    ensures through { OfTargets F.honest F.means store.old (λ find. IfOk result (λ through. through
        ≡ is_through_head (find (name_of edit.now)) (option_map full_bytes branch.now) edit.now)) }
    ensures seen { F.honest → IfOk result (SeesThrough F.means store.old
        (option_map full_bytes branch.now) edit.now) }
    ensures unchanged { LooksUp F.honest F.means store.old store.new }
    ensures fails { IfErr result
        (IsFindFailure (IsUnreadBy F.Reader.ReadAt F.honest F.means F.faults store.old
        (name_of edit.now))) }
{
    let Some(branch) = branch else {
        return Ok(false);
    };
    if !branch.eq_bytes(edit.name.to_path()) || !updates(&edit.change) {
        return Ok(false);
    }
    if edit.deref {
        return Ok(true);
    }
    match next_name(alloc, store, edit.name.as_ref()) {
        Ok(next) => Ok(next.is_none()),
        Err(fatal) => Err(fatal),
    }
}

/// An edit as it is made, where `HEAD` leads to this branch.
#[tactic(auto, using(crate::proofs::Looking::looks_on, crate::proofs::Looking::looks_same))]
fn led_edit<F: Files>(
    alloc: Global,
    store: &mut Store<F>,
    edit: &RefEdit,
    branch: &Option<FullName>,
) -> Result<RefEdit, Fatal>
    ensures leads { OfTargets F.honest F.means store.old (λ find. IfOk result
        (LeadsTo find (option_map full_bytes branch.now) edit.now)) }
    ensures seen { F.honest → IfOk result (SeesLed F.means store.old
        (option_map full_bytes branch.now) edit.now) }
    ensures change { IfOk result (λ led. SameChange edit.now.change led.change) }
    ensures unchanged { LooksUp F.honest F.means store.old store.new }
    ensures fails { IfErr result
        (IsFindFailure (IsOwnUnread F.honest F.means F.faults F.Reader.ReadAt store.old
        edit.now)) }
{
    let mut led = edit.clone()?;
    if is_through_head(alloc, store, edit, branch)? {
        led.name = head(alloc)?;
        led.deref = true;
        return Ok(led);
    }
    if is_followed(edit) {
        if let Some(name) = end_of_chain(alloc, store, &edit.name)? {
            led.name = name;
            led.deref = false;
        }
    }
    Ok(led)
}

/// The edits as they are made. Refused where the name of one is in the way of another.
#[tactic(auto, using(crate::proofs::Looking::looks_on, crate::proofs::Looking::looks_same))]
pub(crate) fn led_edits<F: Files>(
    alloc: Global,
    store: &mut Store<F>,
    writes_lines: bool,
    edits: &[RefEdit],
) -> Result<Vec<RefEdit>, Fatal>
    ensures clear { OnOk result (AreClear F.honest F.means F.faults store.old edits.now) }
    ensures led { IfOk result (λ led. AreLed
        (LeadsIn F.honest F.means store.old writes_lines) edits.now led.items) }
    ensures unchanged { LooksUp F.honest F.means store.old store.new }
    ensures fails { IfErr result
        (IsLookFailure F.honest F.means F.faults F.Reader.ReadAt store.old writes_lines
        edits.now) }
{
    check_names(alloc, store, edits)?;
    let branch = head_branch(alloc, store, writes_lines)?;
    let mut led = Vec::new(alloc);
    for edit in edits {
        let edit = led_edit(alloc, store, edit, &branch)?;
        push_edit(&mut led, edit)?;
    }
    Ok(led)
}
