//! Lookups of names in composed Unicode (`core.precomposeUnicode` of `git config`).
ghost use Rattle.std.specs.Prelude.{◌≡◌, IfOk, MatchResult};
ghost use Rattle.gix_ref_name.specs.ComposedNames.{decomposed};
ghost use Rattle.gix_ref_name.specs.Names.{full_bytes, partial_ref_bytes};
ghost use Rattle.gix_ref_files.specs.ReadOnly.{OnlyReads};
ghost use Rattle.gix_ref_theory.specs.OnRealTrees.{contents};
ghost use Rattle.gix_ref_lookup.specs.Lookups.{AreHonest, AreStillAskedWith, Finds, IsAnswerOf, IsComposedName, IsFaultAmong, IsGivenOf, OfAsked, asked_names, lookup_of, meaning_in, name_asked};

use crate::find::Error;
use crate::find::lookup::Lookup;
use crate::find::records::Records;
use crate::settings::Settings;
use gix_ref_files::files::Files;
use gix_ref_name::name::compose::{compose, decompose};
use gix_ref_name::name::{PartialName, PartialNameRef};
use gix_ref_packed::raw::Reference;
use std::alloc::{AllocError, Global};

/// The composed name that a lookup asks for, where names are composed; `None` where it asks for the name as it is.
/// The error says that there was no memory for it.
pub fn composed_name(
    alloc: Global,
    composes: bool,
    name: PartialNameRef<'_>,
) -> Result<Option<PartialName>, AllocError>
    ensures { IfOk result (IsComposedName composes (partial_ref_bytes name.entry)) }
{
    if composes {
        compose(alloc, name)
    } else {
        Ok(None)
    }
}

/// The same reference under its name in decomposed form.
fn with_decomposed_name(alloc: Global, found: Reference) -> Result<Reference, AllocError>
    ensures name { IfOk result (λ r. full_bytes r.name ≡ decomposed (full_bytes found.name)) }
    ensures target { IfOk result (λ r. r.target ≡ found.target) }
    ensures peeled { IfOk result (λ r. r.peeled ≡ found.peeled) }
{
    Ok(Reference {
        name: decompose(alloc, found.name)?,
        target: found.target,
        peeled: found.peeled,
    })
}

/// The result of a lookup, from what was found under the composed name.
fn given(alloc: Global, found: Result<Option<Reference>, Error>) -> Result<Option<Reference>, Error>
    ensures { IsGivenOf found result }
{
    match found {
        Ok(Some(reference)) => Ok(Some(with_decomposed_name(alloc, reference)?)),
        Ok(None) => Ok(None),
        Err(error) => Err(error),
    }
}

impl<F: Files> Lookup<'_, '_, '_, F> {
    ghost use Rattle.gix_ref_name.specs.Names.{partial_ref_bytes};
    ghost use Rattle.gix_ref_lookup.specs.Lookups.{asked_names, name_asked};
    ghost use Rattle.gix_ref_lookup.specs.LookupCalls.{FailsAtNames, FindsReference, KeepsNothing, LooksOn, SeesReference};

    /// The reference that a partial name is short for (`gitrevisions`). Where names are composed, the name is asked in composed
    /// form, and where that is another name, the reference is given under its decomposed name (`core.precomposeUnicode` of
    /// `git config`). The errors are those of `find_candidate`, of the first candidate that fails; and `nothing_at` is as there.
    pub fn find_reference(
        &mut self,
        composes: bool,
        name: PartialNameRef<'_>,
    ) -> Result<Option<Reference>, Error>
        requires nothing { KeepsNothing F.honest F.means self.old }
        ensures found { FindsReference F.honest F.means self.old composes
            (partial_ref_bytes name.entry) result }
        ensures seen { SeesReference F.honest F.means self.old composes
            (partial_ref_bytes name.entry) result }
        ensures failed { FailsAtNames F.honest F.means F.faults self.old self.new
            (asked_names (name_asked composes (partial_ref_bytes name.entry))) result }
        ensures leaves { LooksOn F.honest F.means F.faults self.old self.new }
    {
        match composed_name(self.alloc, composes, name) {
            Ok(None) => self.find_asked(name),
            Ok(Some(composed)) => {
                let found = self.find_asked(composed.as_ref());
                given(self.alloc, found)
            }
            Err(_) => Err(Error::Memory),
        }
    }
}

/// As `Lookup::find_reference`, of a lookup over these files, with these settings, that asks these records.
/// It says what the lookup leaves of the records, for a caller who asks them again.
pub fn find_reference<F: Files>(
    alloc: Global,
    files: &mut F,
    settings: Settings<'_>,
    composes: bool,
    name: PartialNameRef<'_>,
    records: &mut Records<'_, F::Reader>,
) -> Result<Option<Reference>, Error>
    ensures found { OfAsked settings.entry (F.means files.old) F.honest records.old (λ rs. Finds
        (lookup_of composes (meaning_in settings.entry) (contents F.means files.old) rs
        (partial_ref_bytes name.entry)) result) }
    ensures seen { F.honest → AreHonest records.old → IfOk result (IsAnswerOf composes
        settings.entry (contents F.means files.old) records.old (partial_ref_bytes name.entry)) }
    ensures failed { MatchResult result (λ _. F.faults files.new ≡ F.faults files.old)
        (IsFaultAmong F.honest settings.entry (F.means files.old).tree records.old
        (F.faults files.old) (F.faults files.new)
        (asked_names (name_asked composes (partial_ref_bytes name.entry)))) }
    ensures asked { F.honest → AreStillAskedWith settings.entry (F.means files.old)
        records.old records.new }
    ensures reads { OnlyReads F.honest F.means F.faults files.old files.new }
{
    let mut nothing_at = Vec::new(alloc);
    let mut lookup = Lookup {
        alloc,
        files,
        settings,
        records,
        nothing_at: &mut nothing_at,
    };
    lookup.find_reference(composes, name)
}
