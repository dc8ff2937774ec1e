//! Which file call fails or stops: a plan, and a count of the calls.
ghost use Rattle.std.specs.Prelude.{◌≡◌};
ghost use Rattle.gix_ref_files.specs.Files.{one_more, counted};
ghost use Rattle.gix_ref_files.specs.FaultCounts.{counts_of};
ghost use Rattle.gix_ref_memory.specs.Turns.{turn_of};
ghost use Rattle.gix_ref_files.specs.declared.files.FileError.TheVariants.{Device};

use gix_ref_files::faults::Faults;
use gix_ref_files::files::FileError;
use std::io::ErrorKind;

/// What is to happen to the calls, which are numbered from 1.
#[derive(Clone, Copy, PartialEq, Eq)]
pub enum Plan {
    /// No call fails.
    Runs,
    /// The call with this number fails and does nothing.
    FailsAt(u64),
    /// The call with this number does its first parts and fails, and every later call fails.
    StopsAt(u64, usize),
}

/// What a call is to do.
#[derive(Clone, Copy, PartialEq, Eq)]
pub enum Turn {
    /// All of it.
    Go,
    /// Nothing; it fails.
    Fail,
    /// So many parts of it; then it fails.
    Stop(usize),
}

/// The plan, how many calls there were, and the faults of these.
#[derive(Clone, Copy)]
pub struct Turns {
    pub plan: Plan,
    pub calls: u64,
    pub faults: Faults,
}

/// What the call with this number is to do.
fn turn_at(plan: Plan, call: u64) -> Turn
    ensures { result ≡ turn_of plan call }
{
    match plan {
        Plan::Runs => Turn::Go,
        Plan::FailsAt(at) => { if call == at { Turn::Fail } else { Turn::Go } }
        Plan::StopsAt(at, parts) => {
            if call < at {
                Turn::Go
            } else if call == at {
                Turn::Stop(parts)
            } else {
                Turn::Fail
            }
        }
    }
}

impl Turns {
    /// Counts a call, and says what it is to do.
    pub fn next(&mut self) -> Turn
        ensures turn { result ≡ turn_of self.old.plan (one_more self.old.calls) }
        ensures counted { self.new ≡ record self.old { calls = one_more self.old.calls } }
    {
        self.calls = self.calls.saturating_add(1);
        turn_at(self.plan, self.calls)
    }

    /// Counts a fault, and gives it.
    pub fn fault(&mut self, kind: ErrorKind) -> FileError
        ensures error { result ≡ Device kind }
        ensures counted { counts_of self.new.faults
            ≡ counted (Device kind) (counts_of self.old.faults) }
        ensures rest { self.new ≡ record self.old { faults = self.new.faults } }
    {
        self.faults.add_device(kind);
        FileError::Device(kind)
    }
}
