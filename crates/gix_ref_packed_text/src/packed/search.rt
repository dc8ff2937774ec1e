//! The search for one full name by halving.
ghost use Rattle.std.specs.Prelude.{◌≡◌, ◌≤◌, List, length, None, IfOk, IfErr, IfSome, IfNone, MatchOption};
ghost use Rattle.gix_ref_target.specs.PackedRecords.{Record, record_named};
ghost use Rattle.gix_ref_packed_text.specs.RecordGrammar.{Forms, Ascending};
ghost use Rattle.gix_ref_packed_text.specs.Positions.{HitsAt, FindsAt, IsMalformed, IsNotMalformed};
ghost use Rattle.gix_ref_packed_text.specs.SearchCosts.{CountsProbes, FailsBy, count_search};

use crate::packed::Probes;
use crate::packed::decode::has_no_control;
use crate::packed::searchable::{ProbeMode, SearchableRecords};
use gix_ref_hash::hash::Kind;
use std::cmp::Ordering;
use std::error::Error;
use std::fmt::{self, Debug, Display, Formatter, Write};
use std::sync::ledger::Ledger;

/// Why a search fails.
#[derive(Debug, Drop)]
pub enum SearchError<E> {
    /// The text could not be looked at.
    Read(E),
    /// A line has not the form of a record, and nothing was found.
    Parse,
}

impl<E: Display> Display for SearchError<E> {
    fn fmt<W: Write>(&self, f: &mut Formatter<W>) -> fmt::Result {
        match self {
            SearchError::Read(error) => error.fmt(f),
            SearchError::Parse => f.write_str("a line of packed-refs is malformed"),
        }
    }
}

impl<E: Debug + Display + Drop> Error for SearchError<E> {}

/// Where the record of the name begins. Each turn of the loop looks at one record, and counts that as a probe. Behind
/// a name that is too low the search goes on at the next line. The first probe looks whether its line ends: so a text of
/// malformed lines alone is not searched in vain.
pub fn search<T: SearchableRecords, L: Ledger>(
    text: &mut T,
    kind: Kind,
    wanted: &[u8],
    probes: &mut Probes<L>,
) -> Result<Option<u64>, SearchError<T::Error>>
    ensures kept { (T.bytes text.new ≡ T.bytes text.old) × (T.frame text.new ≡ T.frame text.old) }
    ensures counts { probes.old ≤ probes.new }
    ensures cost { T.honest → CountsProbes (length (T.bytes text.old)) probes.old probes.new }

    // On any text what is found is the wanted name, where a line begins.
    ensures hit { T.honest →
        IfOk result (λ found. IfSome found (HitsAt kind (T.bytes text.old) wanted.now)) }

    // Where each line has the form of a record and names ascend: the line of the name, or that no line has it.
    ensures finds { T.honest → (rs : List Record) → Forms kind (T.bytes text.old) rs →
        Ascending rs → IfOk result (λ found. MatchOption found (record_named wanted.now rs ≡ None)
        (FindsAt kind (T.bytes text.old) rs wanted.now)) }

    // A text of malformed lines alone is never taken for one without the name.
    ensures none { T.honest →
        IfOk result (λ found. IfNone found (IsNotMalformed kind (T.bytes text.old))) }

    // On any text a probe failed by what the text may fail by, or a line is malformed.
    ensures fails { T.honest →
        IfErr result (FailsBy T.can_fail (IsMalformed kind (T.bytes text.old))) }

    // A fault is counted where a probe failed by one, and nowhere else.
    ensures no_fault { IfOk result (λ _. T.faults text.new ≡ T.faults text.old) }
    ensures fault { IfErr result (λ error. T.faults text.new
        ≡ count_search T.count error (T.faults text.old)) }
{
    let mut low = 0;
    let mut high = text.len();
    let plain = has_no_control(wanted);
    let mut first = true;
    let mut saw_malformed_line = false;
    while low < high {
        let middle = low + (high - low) / 2;
        probes.tick();
        let look = ProbeMode::at(first, plain, high - low);
        first = false;
        let probe = match text.probe(kind, middle, wanted, look) {
            Ok(probe) => probe,
            Err(error) => return Err(SearchError::Read(error)),
        };
        let Some(order) = probe.order else {
            saw_malformed_line = true;
            low = probe.next;
            continue;
        };
        match order {
            Ordering::Equal => return Ok(Some(probe.start)),
            Ordering::Greater => high = probe.start,
            Ordering::Less => low = probe.next,
        }
    }
    if saw_malformed_line {
        Err(SearchError::Parse)
    } else {
        Ok(None)
    }
}
