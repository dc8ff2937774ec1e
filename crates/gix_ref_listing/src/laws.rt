//! Laws of the records of a listing.
ghost use Rattle.gix_ref_listing.specs.PrefixedRecords.{WholeBuffersHold};

/// A buffer that holds all records holds those of each prefix.
pub fn whole_buffers_hold_prefixes()
    ensures { WholeBuffersHold }
{}
