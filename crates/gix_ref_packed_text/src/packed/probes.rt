//! A count of the places at which a search probed. It takes no bytes.
ghost use Rattle.std.specs.Prelude.{◌≡◌, ◌+◌, ◌<◌, ℕ};

use std::marker::Model;
use std::sync::ledger::{Blank, Book, Ledger, Share};

/// How many probes were made: a count that contracts see and that needs no place when the program runs. Only `tick`
/// changes it.
///
/// A caller who counts picks a ledger where it passes `Brand`: it calls an own function that is generic over the
/// ledger with `Blank::new(1)`, and that makes the count by `Probes::new` (`std::sync::ledger`). A caller who does not
/// count asks a call that takes no count, as `Buffer::try_find_key`.
#[derive(Drop)]
pub struct Probes<L: Ledger> {
    book: Book<L>,
    share: Share<L>,
}

impl<L: Ledger> Model for Probes<L> {
    ghost Value = { ℕ };

    ghost view = { λ s. s.book.total };

    ghost invariant = { λ s. 0 < s.share.parts };
}

impl<L: Ledger> Probes<L> {
    /// No probe yet, for the ledger that is picked for this blank.
    pub fn new(blank: Blank) -> Probes<L>
        requires name { blank.name ≡ L.name }
        requires parts { blank.parts ≡ L.parts }
        requires some { 0 < blank.parts }
        ensures { result ≡ 0 }
    {
        let (book, share) = blank.open::<L>();
        Probes { book, share }
    }

    /// Counts a probe.
    pub fn tick(&mut self)
        ensures { self.new ≡ self.old + 1 }
    {
        self.book.add(&mut self.share, 1);
    }
}
