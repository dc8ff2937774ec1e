//! Laws of the text of `packed-refs`: how it is read, written and opened.
ghost use Rattle.gix_ref_packed_text.specs.WrittenText.{WrittenTextReadsBack, PackedTextIsOne};
ghost use Rattle.gix_ref_packed.specs.Buffers.{OpenedHoldsRecords};
ghost use Rattle.gix_ref_packed.specs.OpenFiles.{OpenedFileHoldsRecords};
ghost use Rattle.gix_ref_packed.specs.FilePrefixes.{PrefixedBuffersHold};
ghost use Rattle.gix_ref_packed.specs.RecordsOfText.{RecordsAreComputed, TextsAreRead};
ghost use Rattle.gix_ref_packed.specs.YetToGive.{NextGivesTheFirst, NextPaysOne, NextIsOf, FaultsAreLines, EndedStaysEnded};

use crate::packed::file::PackedFile;
use gix_ref_files::files::ReadAt;

/// What is written of records is read as these records, and a text is that of one header and one list at most.
pub fn written_text_reads_back()
    ensures back { WrittenTextReadsBack }
    ensures one { PackedTextIsOne }
{}

/// A buffer or a file that was opened on a well-formed text holds its records in the order of their names, and each name
/// has the same record.
pub fn opened_holds_records<R: ReadAt + Drop>(_file: &PackedFile<R>)
    ensures buffer { OpenedHoldsRecords }
    ensures file { OpenedFileHoldsRecords _file.now }
{}

/// The records of a text can be computed, line by line, and records are computed of no other text.
pub fn records_are_computed()
    ensures computed { RecordsAreComputed }
    ensures read { TextsAreRead }
{}

/// One call of `next` of an `Iter`: where records are left it gives the first of them; of a text with other lines it gives one
/// of those that it owes, or a fault; what it gives of any text is a record or a bad line of it; each of its faults is a line, not a
/// header; and after its end it gives nothing more. For a caller that keeps an `Iter` and takes one item at a time.
pub fn next_gives_the_first()
    ensures first { NextGivesTheFirst }
    ensures pays { NextPaysOne }
    ensures of { NextIsOf }
    ensures lines { FaultsAreLines }
    ensures ended { EndedStaysEnded }
{}

/// A buffer that was read of a file for a prefix holds all records of the prefix, which `iter_prefixed` gives.
pub fn prefixed_buffers_hold_records()
    ensures { PrefixedBuffersHold }
{}
