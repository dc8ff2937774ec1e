//! Following a reference from name to name, as Git resolves it: each name is looked up as it is.
ghost use Rattle.std.specs.Prelude.{◌≡◌};
ghost use Rattle.gix_ref_name.specs.Names.{full_bytes, full_ref_bytes};
ghost use Rattle.gix_ref_store.specs.Lookup.{LooksUp};
ghost use Rattle.gix_ref_store.specs.Store.{files_of};
ghost use Rattle.gix_ref_queries.specs.Resolving.{OfTargets, ReadsAs, ReadFails, EndsAs, EndFails, IfFollowed, IfRead, SeesEnds, SeesRead};

use gix_ref_files::files::Files;
use gix_ref_hash::hash::ObjectId;
use gix_ref_name::name::{FullName, FullNameRef};
use gix_ref_store::file::Store;
use gix_ref_store::file::find::Error;
use gix_ref_target::target::Target;
use std::alloc::Global;

/// How many names are looked up at most.
const MAX_DEPTH: u8 = 5;

/// What a name reads.
#[derive(Debug, Drop)]
pub enum NameRead {
    /// This target.
    Is(Target),
    /// There is no such reference.
    Absent,
    /// The lookup failed.
    Unread(Error),
    /// There was no memory.
    Memory,
}

/// What a full name reads (`Store::find_full`). As `refs_read_raw_ref` of git.
pub fn read_name<F: Files>(alloc: Global, store: &mut Store<F>, name: FullNameRef<'_>) -> NameRead
    ensures reads { OfTargets F.honest F.means store.old
        (λ find. ReadsAs (find (full_ref_bytes name.entry)) result) }
    ensures seen { F.honest → SeesRead F.means store.old
        (full_ref_bytes name.entry) result }
    ensures failed { ReadFails F.Reader.ReadAt F.honest F.means F.faults store.old
        (full_ref_bytes name.entry) result }
    ensures no_fault { IfRead result (F.faults (files_of store.new)
        ≡ F.faults (files_of store.old)) }
    ensures unchanged { LooksUp F.honest F.means store.old store.new }
{
    match store.find_full(alloc, name) {
        Ok(Some(found)) => NameRead::Is(found.target),
        Ok(None) => NameRead::Absent,
        Err(Error::Memory) => NameRead::Memory,
        Err(error) => NameRead::Unread(error),
    }
}

/// Where a following ends.
#[derive(Debug, Drop)]
pub enum End {
    /// At this object, to which the reference of the last name points.
    Object(ObjectId),
    /// At a name without a reference.
    Absent,
    /// After too many names.
    TooDeep,
    /// A lookup failed.
    Unread(Error),
    /// There was no memory.
    Memory,
}

/// A following: the last name, and where it ends.
#[derive(Debug, Drop)]
pub struct Followed {
    pub name: FullName,
    pub end: End,
}

/// Follows a name over at most five names. The error is that of the lookup of the last name.
pub fn follow<F: Files>(alloc: Global, store: &mut Store<F>, name: FullName) -> Followed
    ensures ends { OfTargets F.honest F.means store.old
        (λ find. EndsAs find (full_bytes name) result) }
    ensures seen { F.honest → SeesEnds F.means store.old (full_bytes name)
        (full_bytes result.name) result.end }
    ensures failed { EndFails F.Reader.ReadAt F.honest F.means F.faults store.old
        (full_bytes result.name) result.end }
    ensures no_fault { IfFollowed result.end (F.faults (files_of store.new)
        ≡ F.faults (files_of store.old)) }
    ensures unchanged { LooksUp F.honest F.means store.old store.new }
{
    let mut last = name;
    for _ in 0..MAX_DEPTH {
        match read_name(alloc, store, last.as_ref()) {
            NameRead::Is(Target::Symbolic(next)) => last = next,
            NameRead::Is(Target::Object(id)) => {
                return Followed {
                    name: last,
                    end: End::Object(id),
                };
            }
            NameRead::Absent => {
                return Followed {
                    name: last,
                    end: End::Absent,
                };
            }
            NameRead::Unread(error) => {
                return Followed {
                    name: last,
                    end: End::Unread(error),
                };
            }
            NameRead::Memory => {
                return Followed {
                    name: last,
                    end: End::Memory,
                };
            }
        }
    }
    Followed {
        name: last,
        end: End::TooDeep,
    }
}
