//! The text of `packed-refs` as it is written (`git pack-refs`).
ghost use Rattle.std.specs.Prelude.{◌≡◌, ◌++◌, ◌∷◌, [], Some, map, IfOk, OnOk, OnErr};
ghost use Rattle.gix_ref_hash.specs.Bytes.{BeginsWith};
ghost use Rattle.gix_ref_packed_text.specs.Views.{record_of, record_with};
ghost use Rattle.gix_ref_target.specs.PackedRecords.{written_text, header_text, object_line, record_text};

use crate::packed::Reference;
use std::alloc::{AllocError, Global};

/// Adds the header that is written to a text, with its last space, and LF: 46 bytes. After an error, which says that there
/// was no memory, the text is as before. As the header that gix-ref's `packed::Transaction::commit` writes.
pub fn push_header(text: &mut Vec<u8>) -> Result<(), AllocError>
    ensures ok { OnOk result (text.new.items ≡ text.old.items ++ header_text) }
    ensures err { OnErr result (text.new.items ≡ text.old.items) }
{
    text.extend_from_slice(b"# pack-refs with: peeled fully-peeled sorted \n")?;
    Ok(())
}

/// Adds the line of a peeled id to a text, which only grows.
fn push_object(text: &mut Vec<u8>, object: &[u8]) -> Result<(), AllocError>
    ensures ok { OnOk result (text.new.items ≡ text.old.items ++ object_line (Some object.now)) }
    ensures grows { BeginsWith text.new.items text.old.items }
{
    text.extend_from_slice(b"^")?;
    text.extend_from_slice(object)?;
    text.extend_from_slice(b"\n")?;
    Ok(())
}

/// Adds the first line of a record to a text, which only grows.
fn push_line(text: &mut Vec<u8>, name: &[u8], target: &[u8]) -> Result<(), AllocError>
    ensures ok { OnOk result
        (text.new.items ≡ text.old.items ++ (target.now ++ 32 ∷ (name.now ++ 10 ∷ []))) }
    ensures grows { BeginsWith text.new.items text.old.items }
{
    text.extend_from_slice(target)?;
    text.extend_from_slice(b" ")?;
    text.extend_from_slice(name)?;
    text.extend_from_slice(b"\n")?;
    Ok(())
}

/// Adds the lines of a record to a text, which only grows.
fn push_lines(
    text: &mut Vec<u8>,
    name: &[u8],
    target: &[u8],
    object: Option<&[u8]>,
) -> Result<(), AllocError>
    ensures ok { OnOk result (text.new.items
        ≡ text.old.items ++ record_text (record_with name.now target.now object.entry)) }
    ensures grows { BeginsWith text.new.items text.old.items }
{
    push_line(text, name, target)?;
    if let Some(object) = object {
        push_object(text, object)?;
    }
    Ok(())
}

/// Adds a record to a text: the digits of its id as they are, its name, and on a second line the digits of the object that
/// a tag ends at. They are not checked. After an error, which says that there was no memory, the text is as before. As
/// the records that gix-ref's `packed::Transaction::commit` writes.
pub fn push_record(
    text: &mut Vec<u8>,
    name: &[u8],
    target: &[u8],
    object: Option<&[u8]>,
) -> Result<(), AllocError>
    ensures ok { OnOk result (text.new.items
        ≡ text.old.items ++ record_text (record_with name.now target.now object.entry)) }
    ensures err { OnErr result (text.new.items ≡ text.old.items) }
{
    let len = text.len();
    if let Err(error) = push_lines(text, name, target, object) {
        text.truncate(len);
        return Err(error);
    }
    Ok(())
}

/// The text of these records, in their order. The error says that there was no memory for it. As the file that `git
/// pack-refs` writes, without the header.
pub fn text_of(alloc: Global, records: &[Reference<'_>]) -> Result<Vec<u8>, AllocError>
    ensures { IfOk result (λ text. text.items ≡ written_text (map record_of records.now)) }
{
    let mut text = Vec::new(alloc);
    push_header(&mut text)?;
    for record in records {
        push_record(
            &mut text,
            record.name.to_path(),
            record.target,
            record.object,
        )?;
    }
    Ok(text)
}
