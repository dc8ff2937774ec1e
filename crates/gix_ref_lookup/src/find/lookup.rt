//! A lookup, and that of a partial name (`gitrevisions`): its candidates, one after the other.
use crate::find::Error;
use crate::find::records::Records;
use crate::settings::Settings;
use gix_ref_files::files::Files;
use gix_ref_name::name::PartialNameRef;
use gix_ref_name::name::candidates::{lookup_prefixes, remote_head, with_prefix};
use gix_ref_packed::raw::Reference;
use std::alloc::Global;

/// A lookup: the files and the settings of a store, and the records that are asked.
#[derive(Drop)]
pub struct Lookup<'l, 'r, 'b, F: Files> {
    /// Allocates names, paths and texts.
    pub alloc: Global,
    /// The files of the store.
    pub files: &'l mut F,
    /// Its settings.
    pub settings: Settings<'l>,
    /// The records that are asked where a name has no loose file. They stay open for the next lookup.
    pub records: &'r mut Records<'b, F::Reader>,
    /// The last path at which nothing was: what is below it is not looked at. Empty where there is none yet.
    pub nothing_at: &'l mut Vec<u8>,
}

impl<'l, 'r, 'b, F: Files> Lookup<'l, 'r, 'b, F> {
    ghost use Rattle.std.specs.Prelude.{◌≡◌};

    /// A lookup over these files, with these settings, that asks these records. An empty buffer is for the path at which nothing was.
    /// After it the prover knows what became of the files, and not what became of the records: a caller who keeps these takes
    /// `find::composed::find_reference`.
    pub fn new(
        alloc: Global,
        files: &'l mut F,
        settings: Settings<'l>,
        records: &'r mut Records<'b, F::Reader>,
        nothing_at: &'l mut Vec<u8>,
    ) -> Self
        ensures same_files { result.files.ghost_name ≡ files.entry.ghost_name }
        ensures files { result.files.now ≡ files.old }
        ensures settings { result.settings ≡ settings.entry }
        ensures same_records { result.records.ghost_name ≡ records.entry.ghost_name }
        ensures records { result.records.now ≡ records.old }
        ensures nothing { result.nothing_at.now ≡ nothing_at.old }
    {
        Lookup {
            alloc,
            files,
            settings,
            records,
            nothing_at,
        }
    }
}

impl<F: Files> Lookup<'_, '_, '_, F> {
    ghost use Rattle.gix_ref_name.specs.Candidates.{candidates};
    ghost use Rattle.gix_ref_name.specs.Names.{partial_ref_bytes};
    ghost use Rattle.gix_ref_lookup.specs.Lookups.{asked_names};
    ghost use Rattle.gix_ref_lookup.specs.LookupCalls.{FailsAtFirst, FailsAtHead, FailsAtNames, FindsAsked, FindsFirst, FindsHead, KeepsNothing, LooksOn, SeesAsked, SeesFirst, SeesHead};

    /// The first candidate of a name that exists.
    fn find_first(&mut self, name: PartialNameRef<'_>) -> Result<Option<Reference>, Error>
        requires nothing { KeepsNothing F.honest F.means self.old }
        ensures found { FindsFirst F.honest F.means self.old (partial_ref_bytes name.entry) result }
        ensures seen { SeesFirst F.honest F.means self.old (partial_ref_bytes name.entry) result }
        ensures failed { FailsAtFirst F.honest F.means F.faults self.old self.new
            (candidates (partial_ref_bytes name.entry)) result }
        ensures leaves { LooksOn F.honest F.means F.faults self.old self.new }
    {
        let fronts = lookup_prefixes(name);
        for front in fronts {
            let Ok(candidate) = with_prefix(self.alloc, front, name) else {
                return Err(Error::Memory);
            };
            match self.find_candidate(candidate.as_ref()) {
                Ok(None) => {}
                Ok(Some(reference)) => return Ok(Some(reference)),
                Err(error) => return Err(error),
            }
        }
        Ok(None)
    }

    /// The `HEAD` of the remote that a name may be: its loose file alone.
    fn find_head(&mut self, name: PartialNameRef<'_>) -> Result<Option<Reference>, Error>
        requires nothing { KeepsNothing F.honest F.means self.old }
        ensures found { FindsHead F.honest F.means self.old (partial_ref_bytes name.entry) result }
        ensures seen { SeesHead F.honest F.means self.old (partial_ref_bytes name.entry) result }
        ensures failed { FailsAtHead F.honest F.means F.faults self.old self.new
            (partial_ref_bytes name.entry) result }
        ensures leaves { LooksOn F.honest F.means F.faults self.old self.new }
    {
        match remote_head(self.alloc, name) {
            Ok(Some(head)) => self.find_loose(head.as_ref()),
            Ok(None) => Ok(None),
            Err(_) => Err(Error::Memory),
        }
    }

    /// The reference that a partial name is short for: the first of its candidates that exists, or else the `HEAD` of a remote
    /// of this name, as a loose file alone (`gitrevisions`). The name is asked as it is. The errors are those of
    /// `find_candidate`, of the first candidate that fails; and `nothing_at` is as there.
    pub fn find_asked(&mut self, name: PartialNameRef<'_>) -> Result<Option<Reference>, Error>
        requires nothing { KeepsNothing F.honest F.means self.old }
        ensures found { FindsAsked F.honest F.means self.old (partial_ref_bytes name.entry) result }
        ensures seen { SeesAsked F.honest F.means self.old (partial_ref_bytes name.entry) result }
        ensures failed { FailsAtNames F.honest F.means F.faults self.old self.new
            (asked_names (partial_ref_bytes name.entry)) result }
        ensures leaves { LooksOn F.honest F.means F.faults self.old self.new }
    {
        match self.find_first(name) {
            Ok(None) => self.find_head(name),
            Ok(Some(reference)) => Ok(Some(reference)),
            Err(error) => Err(error),
        }
    }
}
