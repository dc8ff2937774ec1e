//! Laws of merged records, for callers that speak of them in other words.
ghost use Rattle.gix_ref_packed_text.specs.Laws.{NewRecordsAreReadable, AscendingInPairs};

/// A record that is put under a valid full name, with ids of the kind, can be read: so the new text is read back. Names that
/// ascend do so in pairs.
pub fn merged_records()
    ensures readable { NewRecordsAreReadable }
    ensures ascending { AscendingInPairs }
{}
