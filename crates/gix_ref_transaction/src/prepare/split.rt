//! The splits of edits that follow symbolic references.
ghost use Rattle.std.specs.Prelude.{◌≡◌, ◌<◌, ◌+◌, ◌^◌, ◌⊎◌, true, OnOk, IfOk, IfErr, MatchBool, MatchResult, All, length, vec_len};
ghost use Rattle.std.specs.Option.{option_map};
ghost use Rattle.gix_ref_name.specs.Names.{full_bytes, full_ref_bytes};
ghost use Rattle.gix_ref_target.specs.Targets.{target_name, target_value};
ghost use Rattle.gix_ref_theory.specs.OnRealTrees.{contents};
ghost use Rattle.gix_ref_lookup.specs.StoreLayout.{namespace_text};
ghost use Rattle.gix_ref_edits.specs.EditValues.{edit_value};
ghost use Rattle.gix_ref_edits.specs.RefEdits.{name_of};
ghost use Rattle.gix_ref_edits.specs.SplitLists.{child_list, looked_up, referent};
ghost use Rattle.gix_ref_transaction.specs.Causes.{IsCounted, IsIoOrMemory, IsMisnamed};
ghost use Rattle.gix_ref_transaction.specs.Parents.{parents_given};
ghost use Rattle.gix_ref_transaction.specs.PrepareSteps.{setting_of};
ghost use Rattle.gix_ref_transaction.specs.SplitOutcomes.{IsNotSplit, IsSplitOf};
ghost use Rattle.gix_ref_transaction.specs.Splits.{name_led_to, values_of, AreDirect, CanFollow, IsFirstMisnamed};
ghost use Rattle.gix_ref_files.specs.ReadOnly.{OnlyReads};
ghost use Rattle.gix_ref_transaction.specs.internal.SplitRounds.{name_by, led_to, led_by, after_by, children_by, child_values, parents_by, IsSplitRound, IsRoundFault};

use crate::prepare::Error;
use crate::prepare::check::check_name;
use gix_ref_edits::transaction::{RefEdit, SplitError};
use gix_ref_files::files::Files;
use gix_ref_lookup::find::loose::{Loose, loose_at};
use gix_ref_lookup::find::strip;
use gix_ref_lookup::settings::Settings;
use gix_ref_name::name::{FullName, FullNameRef};
use gix_ref_name::namespace::Namespace;
use gix_ref_target::target::Target;
use std::alloc::{AllocError, Global};

/// Edits of a split list.
#[derive(Drop)]
pub struct SplitEdits {
    pub edits: Vec<RefEdit>,
    /// For each of them the place in the whole list of the edit that it was split from, from 0.
    pub parents: Vec<Option<usize>>,
}

/// The name of a symbolic target.
fn symbolic(target: Target) -> Option<FullName>
    ensures { option_map full_bytes result ≡ target_name (target_value target) }
{
    match target {
        Target::Symbolic(name) => Some(name),
        Target::Object(_) => None,
    }
}

/// The name that a loose file leads to, without the namespace.
fn referent_in(loose: Loose, namespace: &Option<Namespace>) -> Option<FullName>
    ensures { option_map full_bytes result ≡ name_by (namespace_text namespace.now) loose }
{
    match loose {
        Loose::Holds(mut target) => {
            strip(&mut target, namespace);
            symbolic(target)
        }
        Loose::Nothing | Loose::Folder | Loose::Undecodable(_) => None,
    }
}

/// Where the reference of a name leads, if it is symbolic: one call of files.
fn referent_of<F: Files>(
    alloc: Global,
    files: &mut F,
    settings: &Settings<'_>,
    name: FullNameRef<'_>,
) -> Result<Option<FullName>, Error>
    ensures led { F.honest → IfOk result (λ name'. option_map full_bytes name' ≡ name_led_to
        (setting_of settings.now) (contents F.means files.old) (full_ref_bytes name.entry)) }
    ensures outside { IfErr result IsIoOrMemory }
    ensures reads { OnlyReads F.honest F.means F.faults files.old files.new }
    ensures counted { IfErr result (IsCounted (F.faults files.old) (F.faults files.new)) }
{
    let place = settings.place(alloc, name)?;
    let loose = loose_at(alloc, files, &place, settings.kind)?;
    Ok(referent_in(loose, settings.namespace))
}

/// Where an edit leads that follows symbolic references, once its name is checked.
fn follow<F: Files>(
    alloc: Global,
    files: &mut F,
    settings: &Settings<'_>,
    edit: &RefEdit,
) -> Result<Option<FullName>, Error>
    ensures led { F.honest → IfOk result (λ name. option_map full_bytes name ≡ referent (name_led_to
        (setting_of settings.now) (contents F.means files.old)) (name_of edit.now) edit.now.deref) }
    ensures can_follow { OnOk result (CanFollow (setting_of settings.now) (edit_value edit.now)) }
    ensures refused { IfErr result (λ error. IsIoOrMemory error ⊎ (edit.now.deref ≡ true)
        × IsMisnamed (setting_of settings.now) (name_of edit.now) error) }
    ensures reads { OnlyReads F.honest F.means F.faults files.old files.new }
    ensures counted { IfErr result (IsCounted (F.faults files.old) (F.faults files.new)) }
{
    if !edit.deref {
        return Ok(None);
    }
    check_name(alloc, settings, edit.name.as_ref())?;
    referent_of(alloc, files, settings, edit.name.as_ref())
}

/// Where each edit leads: one call of files for each that follows.
fn follow_all<F: Files>(
    alloc: Global,
    files: &mut F,
    settings: &Settings<'_>,
    edits: &[RefEdit],
) -> Result<Vec<Option<FullName>>, Error>
    ensures len { IfOk result (λ names. vec_len names ≡ length edits.now) }
    ensures led { F.honest → IfOk result (λ names. led_to names.items ≡ led_by (name_led_to
        (setting_of settings.now) (contents F.means files.old)) (values_of edits.now)) }
    ensures can_follow { OnOk result
        (All (CanFollow (setting_of settings.now)) (values_of edits.now)) }
    ensures refused { IfErr result (λ error. IsIoOrMemory error
        ⊎ IsFirstMisnamed (setting_of settings.now) (values_of edits.now) error) }
    ensures reads { OnlyReads F.honest F.means F.faults files.old files.new }
    ensures counted { IfErr result (IsCounted (F.faults files.old) (F.faults files.new)) }
{
    let mut names = Vec::with_capacity(alloc, edits.len())?;
    for edit in edits {
        let name = follow(alloc, files, settings, edit)?;
        names.push(name).map_err(AllocError::from)?;
    }
    Ok(names)
}

/// Splits an edit that leads to a name; the child is returned. The edit follows no more.
fn split_edit(edit: &mut RefEdit, name: Option<FullName>) -> Result<Option<RefEdit>, AllocError>
    ensures after { OnOk result (edit_value edit.new
        ≡ looked_up (edit_value edit.old) (option_map full_bytes name)) }
    ensures child { IfOk result (λ child. child_values child
        ≡ child_list (edit_value edit.old) (option_map full_bytes name)) }
{
    match name {
        Some(name) => {
            let child = edit.split_to(name)?;
            Ok(Some(child))
        }
        None => {
            edit.deref = false;
            Ok(None)
        }
    }
}

/// Splits each edit that leads to a name; the children are returned. The first of the edits is at the place `first` of the whole
/// list.
fn split_all(
    alloc: Global,
    edits: &mut Vec<RefEdit>,
    mut names: Vec<Option<FullName>>,
    first: usize,
) -> Result<SplitEdits, AllocError>
    requires names { vec_len names ≡ vec_len edits.old }
    requires fits { first + vec_len edits.old < 2 ^ 64 }
    ensures after { OnOk result (values_of edits.new.items
        ≡ after_by (values_of edits.old.items) (led_to names.items)) }
    ensures children { IfOk result (λ kids. values_of kids.edits.items
        ≡ children_by (values_of edits.old.items) (led_to names.items)) }
    ensures parents { IfOk result (λ kids. kids.parents.items
        ≡ parents_by first (led_to names.items)) }
    ensures len { IfOk result (λ kids. vec_len kids.parents ≡ vec_len kids.edits) }
{
    let mut children = Vec::new(alloc);
    let mut parents = Vec::new(alloc);
    for i in 0..edits.len() {
        let name = names[i].take();
        match split_edit(&mut edits[i], name)? {
            Some(child) => {
                children.push(child)?;
                parents.push(Some(first + i))?;
            }
            None => {}
        }
    }
    Ok(SplitEdits {
        edits: children,
        parents,
    })
}

/// One round: looks up each edit that follows, and splits those of symbolic references. The children are returned. The first of
/// the edits is at the place `first` of the whole list.
fn split_round<F: Files>(
    alloc: Global,
    files: &mut F,
    settings: &Settings<'_>,
    edits: &mut Vec<RefEdit>,
    first: usize,
) -> Result<SplitEdits, Error>
    requires { first + vec_len edits.old < 2 ^ 64 }
    ensures over { IfOk result (IsSplitRound F.honest (setting_of settings.now)
        (F.means files.old).tree first edits.old.items edits.new.items) }
    ensures refused { IfErr result (IsRoundFault (setting_of settings.now) edits.old.items
        (F.faults files.old) (F.faults files.new)) }
    ensures reads { OnlyReads F.honest F.means F.faults files.old files.new }
{
    let names = follow_all(alloc, files, settings, edits)?;
    let children = split_all(alloc, edits, names, first)?;
    Ok(children)
}

/// Edits as they are given, of which none was split from another. The error says that there was no memory, and hands the edits back.
fn unsplit(alloc: Global, edits: Vec<RefEdit>) -> Result<SplitEdits, Vec<RefEdit>>
    ensures edits { MatchResult result (λ split. split.edits ≡ edits) (λ given. given ≡ edits) }
    ensures parents { IfOk result (λ split. split.parents.items
        ≡ parents_given (values_of edits.items)) }
    ensures len { IfOk result (λ split. vec_len split.parents ≡ vec_len split.edits) }
{
    match vec![in alloc; None; edits.len()] {
        Ok(parents) => Ok(SplitEdits { edits, parents }),
        Err(_) => Err(edits),
    }
}

/// How many rounds there are: children of the last one are too many.
const ROUNDS: usize = 5;

/// The split list of edits, in rounds.
fn split_in_rounds<F: Files>(
    alloc: Global,
    files: &mut F,
    settings: &Settings<'_>,
    edits: Vec<RefEdit>,
) -> Result<SplitEdits, Error>
    ensures split { IfOk result (IsSplitOf F.honest (setting_of settings.now) settings.now.kind
        (F.means files.old).tree edits.items) }
    ensures refused { IfErr result (IsNotSplit F.honest F.means F.faults
        (setting_of settings.now) edits.items files.old files.new) }
    ensures reads { OnlyReads F.honest F.means F.faults files.old files.new }
{
    let mut done = SplitEdits {
        edits: Vec::with_capacity(alloc, edits.len())?,
        parents: Vec::with_capacity(alloc, edits.len())?,
    };
    let Ok(mut level) = unsplit(alloc, edits) else {
        return Err(Error::Memory);
    };
    for _round in 0..ROUNDS {
        let first = done.edits.len();
        let children = split_round(alloc, files, settings, &mut level.edits, first)?;
        done.edits.append(&mut level.edits)?;
        done.parents.append(&mut level.parents)?;
        level = children;
    }
    if level.edits.is_empty() {
        Ok(done)
    } else {
        Err(Error::PreprocessingFailed {
            source: SplitError::TooManySplits { rounds: ROUNDS },
        })
    }
}

/// Whether no edit follows symbolic references.
pub fn none_follow(edits: &[RefEdit]) -> bool
    ensures { MatchBool result (AreDirect edits.now) (AreDirect edits.now → ⊥) }
{
    edits.iter().all(|edit| !edit.deref)
}

/// The split list of edits (`extend_with_splits_of_symbolic_refs` over the files of the store): an edit that follows
/// symbolic references is looked up, and where its reference is symbolic it becomes an edit of the log alone, followed by the
/// edit of the reference that it leads to. Each name is checked before it is looked up. A refusal of edits of which none follows
/// hands them back.
pub fn split_edits<F: Files>(
    alloc: Global,
    files: &mut F,
    settings: &Settings<'_>,
    edits: Vec<RefEdit>,
) -> Result<SplitEdits, (Error, Vec<RefEdit>)>
    ensures split { IfOk result (IsSplitOf F.honest (setting_of settings.now) settings.now.kind
        (F.means files.old).tree edits.items) }
    ensures refused { IfErr result (λ r. IsNotSplit F.honest F.means F.faults
        (setting_of settings.now) edits.items files.old files.new r.0) }
    ensures reads { OnlyReads F.honest F.means F.faults files.old files.new }
    ensures direct { AreDirect edits.items → MatchResult result
        (λ split. split.edits.items ≡ edits.items) (λ r. r.1.items ≡ edits.items) }
{
    if none_follow(&edits) {
        return match unsplit(alloc, edits) {
            Ok(split) => Ok(split),
            Err(edits) => Err((Error::Memory, edits)),
        };
    }
    match split_in_rounds(alloc, files, settings, edits) {
        Ok(split) => Ok(split),
        Err(error) => Err((error, Vec::new(alloc))),
    }
}
