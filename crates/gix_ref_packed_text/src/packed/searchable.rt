//! Texts whose records a search probes, in memory or in a file.
ghost use Rattle.std.specs.Prelude.{◌≡◌, ◌<◌, ◌≤◌, ℕ, List, false, length, IfOk, IfErr};
ghost use Rattle.gix_ref_packed_text.specs.Positions.{IsPlain};
ghost use Rattle.gix_ref_packed_text.specs.Probed.{IsProbeAt};

use crate::packed::decode::{order_at, record_start_at_offset};
use crate::packed::lines::next_place;
use gix_ref_hash::hash::Kind;
use std::cmp::Ordering;
use std::convert::Infallible;

/// What a probe at a byte sees.
#[derive(Clone, Copy, Debug)]
pub struct Probe {
    /// Where the record that the byte is in begins.
    pub start: u64,
    /// How its name compares with the one that is wanted; `None` where no name is in the name's place. Where the look was
    /// not sure and this is not `Equal`, the name's line may lack its end.
    pub order: Option<Ordering>,
    /// A place after the byte: no line begins between the two.
    pub next: u64,
}

/// How closely a probe looks at a record whose name is another one. Either costs as much as the rest of a probe.
#[derive(Clone, Copy, Debug)]
pub struct ProbeMode {
    /// It looks whether the record's line ends.
    pub sure: bool,
    /// It looks where the line ends, to go on after it; else at the next byte. That is worth its cost where few bytes are left.
    pub near: bool,
}

/// Up to how many bytes are few.
const FEW_BYTES: u64 = 512;

impl ProbeMode {
    ghost use Rattle.std.specs.Prelude.{◌≡◌, true};

    /// How to look for a name of that plainness, with so many bytes left.
    #[inline(always)]
    pub fn at(sure: bool, plain: bool, left: u64) -> ProbeMode
        ensures sure { sure ≡ true → result.sure ≡ true }
        ensures plain { result.sure ≡ false → plain ≡ true }
    {
        ProbeMode {
            sure: sure || !plain,
            near: left < FEW_BYTES,
        }
    }

    /// How to look at a record that has to be one, with so many bytes left.
    #[inline(always)]
    pub fn sure(left: u64) -> ProbeMode
        ensures { result.sure ≡ true }
    {
        ProbeMode {
            sure: true,
            near: left < FEW_BYTES,
        }
    }
}

/// A text of records at which one can probe near a place. What is said of its bytes holds where it is honest.
pub trait SearchableRecords {
    /// Probes show the bytes.
    ghost honest: { Type 0 };

    /// The text: records, without a header.
    ghost bytes: { Self → List ℕ };

    /// What else a probe leaves as it is.
    ghost frame: { Self → List ℕ × ℕ × ℕ };

    /// What tells which faults its probes met.
    ghost met: { Type 0 };

    /// The faults that its probes met.
    ghost faults: { Self → met };

    /// Why a probe failed.
    type Error: Drop;

    /// By which errors a probe at an honest text may fail.
    ghost can_fail: { Self.Error → Type 0 };

    /// The faults that were met after a probe that failed so.
    ghost count: { Self.Error → met → met };

    /// The number of bytes.
    fn len(&self) -> u64
        ensures { honest → result ≡ length (bytes self.now) };

    /// Looks at the record that the byte is in.
    fn probe(
        &mut self,
        kind: Kind,
        offset: u64,
        wanted: &[u8],
        look: ProbeMode,
    ) -> Result<Probe, Self::Error>
        requires inside { honest → offset < length (bytes self.old) }
        requires plain { look.sure ≡ false → IsPlain wanted.now }
        ensures below { IfOk result (λ probe. probe.start ≤ offset) }
        ensures beyond { IfOk result (λ probe. offset < probe.next) }
        ensures kept { (bytes self.new ≡ bytes self.old) × (frame self.new ≡ frame self.old) }
        ensures probed { honest → IfOk result
            (IsProbeAt kind (bytes self.old) wanted.now look.sure offset) }
        ensures fails { honest → IfErr result can_fail }
        ensures no_fault { IfOk result (λ _. faults self.new ≡ faults self.old) }
        ensures fault { IfErr result (λ error. faults self.new ≡ count error (faults self.old)) };
}

/// A text that lies in memory as a whole. A probe at it never fails.
#[derive(Clone, Copy, Debug)]
pub struct InMemory<'a> {
    /// The records.
    pub bytes: &'a [u8],
}

impl<'a> SearchableRecords for InMemory<'a> {
    ghost honest = { Unit {0} };

    ghost bytes = { λ text. text.bytes.now };

    ghost frame = { λ text. (text.bytes.now, 0, 0) };

    ghost met = { Unit {0} };

    ghost faults = { λ _. tt };

    type Error = Infallible;

    ghost can_fail = { λ _. ⊥ };

    ghost count = { λ _ n. n };

    fn len(&self) -> u64 {
        self.bytes.len() as u64
    }

    #[inline(always)]
    fn probe(
        &mut self,
        kind: Kind,
        offset: u64,
        wanted: &[u8],
        look: ProbeMode,
    ) -> Result<Probe, Infallible> {
        let start = record_start_at_offset(self.bytes, offset as usize);
        let order = order_at(&self.bytes[start..], kind, wanted, look.sure);
        let next = next_place(self.bytes, offset as usize, order, look.near);
        Ok(Probe {
            start: start as u64,
            order,
            next: next as u64,
        })
    }
}
