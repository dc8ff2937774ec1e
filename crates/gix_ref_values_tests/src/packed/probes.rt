//! How many looks a search makes, counted as the program runs.
ghost use Rattle.std.specs.Prelude.{◌≡◌, ◌<◌};

use crate::made::full;
use crate::packed::made::{NAMES, TEXT, buffer, sorted};
use gix_ref_hash::hash::Kind;
use gix_ref_name::name::FullNameRef;
use gix_ref_packed::packed::search::search;
use gix_ref_packed::packed::searchable::{InMemory, Probe, ProbeMode, SearchableRecords};
use gix_ref_packed::packed::{Buffer, Probes};
use std::convert::Infallible;
use std::marker::Brand;
use std::process::Abort;
use std::sync::ledger::{Blank, Ledger};

/// A text in memory that counts the looks at it.
#[derive(Drop)]
struct Counting<'a> {
    whole: InMemory<'a>,
    looks: u64,
}

impl<'a> SearchableRecords for Counting<'a> {
    ghost honest = { Unit {0} };

    ghost bytes = { λ text. text.whole.bytes.now };

    ghost frame = { λ text. (text.whole.bytes.now, 0, 0) };

    ghost met = { Unit {0} };

    ghost faults = { λ _. tt };

    type Error = Infallible;

    ghost can_fail = { λ _. ⊥ };

    ghost count = { λ _ n. n };

    fn len(&self) -> u64 {
        self.whole.len()
    }

    fn probe(
        &mut self,
        kind: Kind,
        offset: u64,
        wanted: &[u8],
        look: ProbeMode,
    ) -> Result<Probe, Infallible> {
        self.looks = self.looks.saturating_add(1);
        self.whole.probe(kind, offset, wanted, look)
    }
}

/// The looks of a search, and whether it found the name.
fn looks_for<L: Ledger>(text: &[u8], name: &[u8], blank: Blank) -> (u64, bool)
    requires name { blank.name ≡ L.name }
    requires parts { blank.parts ≡ L.parts }
    requires some { 0 < blank.parts }
{
    let mut probes = Probes::<L>::new(blank);
    let mut counting = Counting {
        whole: InMemory { bytes: text },
        looks: 0,
    };
    let found = search(&mut counting, Kind::Sha1, name, &mut probes);
    (counting.looks, matches!(found, Ok(Some(_))))
}

fn counted(text: &[u8], name: &[u8]) -> (u64, bool) {
    looks_for::<Brand>(text, name, Blank::new(1))
}

/// Whether the search of a buffer for a full name finds it.
fn is_found<L: Ledger>(packed: &Buffer, name: FullNameRef<'_>, blank: Blank) -> bool
    requires name { blank.name ≡ L.name }
    requires parts { blank.parts ≡ L.parts }
    requires some { 0 < blank.parts }
{
    let mut probes = Probes::<L>::new(blank);
    matches!(packed.try_find_full(name, &mut probes), Ok(Some(_)))
}

fn finds(packed: &Buffer, name: FullNameRef<'_>) -> bool {
    is_found::<Brand>(packed, name, Blank::new(1))
}

#[test]
fn full_names_in_a_buffer(rt: HostRuntime) {
    let alloc = rt.alloc();
    let packed = buffer(&rt, alloc, sorted(&rt, alloc, TEXT).as_slice());
    for name in NAMES {
        let name = full(&rt, name);
        assert!(rt; finds(&packed, name), "{name}");
    }
    let other = full(&rt, "refs/tags/v");
    assert!(rt; !finds(&packed, other));
    let empty = buffer(&rt, alloc, b"");
    assert!(rt; !finds(&empty, other), "no record");
}

#[test]
fn at_most_as_many_as_binary_digits(rt: HostRuntime) {
    let one = b"1111111111111111111111111111111111111111 refs/heads/a\n";
    assert_eq!(rt; one.len(), 54);
    assert!(rt; counted(one, b"refs/heads/a").0 <= 6);
    assert!(rt; counted(one, b"refs/heads/a").1);
    assert!(rt;
        counted(one, b"refs/heads/b") == (1, false),
        "one look passes the line"
    );
    for name in NAMES {
        let (looks, found) = counted(TEXT, name.as_bytes());
        assert!(rt; looks <= 8 && found, "{name}");
    }
    assert!(rt; counted(TEXT, b"refs/tags/v").0 <= 8);
    assert!(rt;
        counted(b"", b"refs/tags/v") == (0, false),
        "no look at nothing"
    );
}
