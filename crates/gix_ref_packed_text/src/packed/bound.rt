//! Where the names of a prefix begin, by halving.
ghost use Rattle.std.specs.Prelude.{◌≡◌, List, true, false, IfOk, IfErr};
ghost use Rattle.gix_ref_target.specs.PackedRecords.{Record};
ghost use Rattle.gix_ref_packed_text.specs.RecordGrammar.{Records, Rising};
ghost use Rattle.gix_ref_packed_text.specs.Prefixes.{SplitsAt, SplitsLines, EndsHalving, IsBadStart, NamesAscend};

use crate::packed::searchable::{InMemory, ProbeMode, SearchableRecords};
use gix_ref_hash::hash::Kind;
use std::cmp::Ordering;

/// Where the first record begins whose name is not below a wanted one.
#[derive(Clone, Copy, Debug)]
pub struct Bound {
    /// The place, in bytes; the end of the text where there is no such record.
    pub place: u64,
    /// Whether halving met a line that has not the form of a record, and ended there. That line is at the place then.
    pub is_malformed: bool,
}

/// Where the first record begins whose name is not below the one that is wanted: by halving, in memory or in a file, at a
/// cost of log n probes. Each probe looks whether its line ends, so that no line without the form of a record is taken for one.
/// `search` is another loop, since it ends at the first probe that sees its name.
pub fn lower_bound<T: SearchableRecords>(
    text: &mut T,
    kind: Kind,
    wanted: &[u8],
) -> Result<Bound, T::Error>
    ensures kept { (T.bytes text.new ≡ T.bytes text.old) × (T.frame text.new ≡ T.frame text.old) }
    ensures starts { T.honest → IfOk result
        (λ bound. EndsHalving (T.bytes text.old) bound.is_malformed bound.place) }

    // Among records whose names do not descend, those before that place are below the wanted one, and those from there on
    // are not.
    ensures splits { T.honest → (rs : List Record) → Records kind (T.bytes text.old) rs →
        Rising rs → IfOk result (λ bound. (bound.is_malformed ≡ false)
        × SplitsAt kind (T.bytes text.old) rs wanted.now bound.place) }

    // The same of the records in any text whose names ascend, where no line without the form of a record was met.
    ensures lines { T.honest → NamesAscend kind (T.bytes text.old) →
        IfOk result (λ bound. bound.is_malformed ≡ false →
        SplitsLines kind (T.bytes text.old) wanted.now bound.place) }
    ensures malformed { T.honest → IfOk result (λ bound. bound.is_malformed ≡ true →
        IsBadStart kind (T.bytes text.old) bound.place) }
    ensures fails { T.honest → IfErr result T.can_fail }

    // A fault is counted where a probe failed by one, and nowhere else.
    ensures no_fault { IfOk result (λ _. T.faults text.new ≡ T.faults text.old) }
    ensures fault { IfErr result (λ error. T.faults text.new ≡ T.count error (T.faults text.old)) }
{
    let mut low = 0;
    let mut high = text.len();
    while low < high {
        let middle = low + (high - low) / 2;
        let probe = match text.probe(kind, middle, wanted, ProbeMode::sure(high - low)) {
            Ok(probe) => probe,
            Err(error) => return Err(error),
        };
        let Some(order) = probe.order else {
            return Ok(Bound {
                place: probe.start,
                is_malformed: true,
            });
        };
        match order {
            Ordering::Less => low = probe.next,
            Ordering::Equal => high = probe.start,
            Ordering::Greater => high = probe.start,
        }
    }
    Ok(Bound {
        place: high,
        is_malformed: false,
    })
}

/// Where the first record of a text in memory begins whose name is not below the one that is wanted.
pub fn lower_bound_in_memory(text: &[u8], kind: Kind, wanted: &[u8]) -> Bound
    ensures starts { EndsHalving text.now result.is_malformed result.place }
    ensures splits { (rs : List Record) → Records kind text.now rs → Rising rs →
        (result.is_malformed ≡ false) × SplitsAt kind text.now rs wanted.now result.place }
    ensures lines { NamesAscend kind text.now → result.is_malformed ≡ false →
        SplitsLines kind text.now wanted.now result.place }
    ensures malformed { result.is_malformed ≡ true → IsBadStart kind text.now result.place }
{
    let mut whole = InMemory { bytes: text };
    match lower_bound(&mut whole, kind, wanted) {
        Ok(bound) => bound,
        Err(_) => unreachable!(),
    }
}
