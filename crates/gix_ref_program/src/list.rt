//! The listing of references, printed (`git for-each-ref`).
ghost use Rattle.std.specs.Prelude.{◌≡◌, ◌<◌, ◌++◌, IfOk, IfSome, OnOk};
ghost use Rattle.gix_ref_files.specs.Files.{NoFewer};
ghost use Rattle.std.specs.Io.KnownBytes.{Keeps, append_known};
ghost use Rattle.std.specs.Result.{is_err};
ghost use Rattle.gix_ref_store.specs.Lookup.{LooksUp};
ghost use Rattle.gix_ref_store.specs.Listings.{count_in, items_ahead, store_listed};
ghost use Rattle.gix_ref_program.specs.ListPrinting.{fault_word, item_text, PrintsAll, PrintsNext, PushesRecord};

use crate::block::{push_fault, write_block};
use crate::outcome::push_reference;
use gix_ref_files::files::Files;
use gix_ref_hash::hash::push_lower_hex;
use gix_ref_listing::own_records::OwnRecord;
use gix_ref_store::file::iter::LooseThenPacked;
use gix_ref_store::file::iter::loose_then_packed::Error;
use gix_ref_store::raw::Reference;
use std::alloc::{AllocError, Global};
use std::io;
use std::io::Write;

/// The variant of a fault.
fn fault_variant(error: &Error) -> &'static str
    ensures { result.now ≡ fault_word error.now }
{
    match error {
        Error::Traversal { .. } => "Traversal",
        Error::ReadFileContents { .. } => "ReadFileContents",
        Error::ReferenceCreation { .. } => "ReferenceCreation",
        Error::PackedReference { .. } => "PackedReference",
        Error::Memory => "Memory",
    }
}

/// Adds an item of a listing: the line of a reference, or the variant of a fault.
fn push_item(text: &mut Vec<u8>, item: &Result<Reference, Error>) -> Result<(), AllocError>
    ensures { OnOk result (text.new.items ≡ text.old.items ++ item_text item.now) }
{
    match item {
        Ok(reference) => push_reference(text, reference),
        Err(error) => push_fault(text, fault_variant(error)),
    }
}

/// Adds an item, and writes the block if it is full. Returns whether the item is a fault.
fn print_item<W: Write>(
    text: &mut Vec<u8>,
    item: Result<Reference, Error>,
    out: &mut W,
) -> io::Result<bool>
    ensures fault { IfOk result (λ fault. fault ≡ is_err item) }
    ensures prints { OnOk result (Keeps (append_known (W.contents out.old)
        (text.old.items ++ item_text item)) (append_known (W.contents out.new) text.new.items)) }
{
    let is_fault = item.is_err();
    push_item(text, &item)?;
    write_block(text, out)?;
    Ok(is_fault)
}

/// Adds the line of a record that is lent: its id and its name.
fn push_record(text: &mut Vec<u8>, own: OwnRecord<'_>) -> Result<(), AllocError>
    ensures { OnOk result (PushesRecord own.entry text.old.items text.new.items) }
{
    push_lower_hex(own.record.target, text)?;
    text.push(b' ')?;
    text.extend_from_slice(own.name.to_path())?;
    text.push(b'\n')?;
    Ok(())
}

/// Prints the next item of a listing, if there is one. Returns whether it is a fault. A record is printed as it is lent.
fn print_next<F: Files, W: Write>(
    text: &mut Vec<u8>,
    items: &mut LooseThenPacked<'_, F>,
    out: &mut W,
) -> io::Result<Option<bool>>
    ensures same_reference { items.new.store.ghost_name ≡ items.old.store.ghost_name }
    ensures prints { IfOk result (PrintsNext F.honest F.means F.faults items.old items.new
        (W.contents out.old) (append_known (W.contents out.new) text.new.items) text.old.items) }
    ensures rises { NoFewer (count_in F.honest F.means F.faults items.old)
        (count_in F.honest F.means F.faults items.new) }
    ensures unchanged { LooksUp F.honest F.means (store_listed items.old) (store_listed items.new) }
    ensures left { IfOk result
        (λ fault. IfSome fault (λ _. items_ahead items.new < items_ahead items.old)) }
{
    if let Some(own) = items.next_record() {
        push_record(text, own)?;
        write_block(text, out)?;
        return Ok(Some(false));
    }
    match items.next() {
        Some(item) => {
            let is_fault = print_item(text, item, out)?;
            Ok(Some(is_fault))
        }
        None => Ok(None),
    }
}

/// Prints the items of a listing in blocks, and returns the status: 1 where one of them is a fault. The error is the
/// writer's, or says that there was no memory for a block.
pub fn print_items<F: Files, W: Write>(
    alloc: Global,
    items: &mut LooseThenPacked<'_, F>,
    out: &mut W,
) -> io::Result<u8>
    ensures same_reference { items.new.store.ghost_name ≡ items.old.store.ghost_name }
    ensures prints { IfOk result (PrintsAll F.honest F.means F.faults items.old items.new
        (W.contents out.old) (W.contents out.new)) }
    ensures rises { NoFewer (count_in F.honest F.means F.faults items.old)
        (count_in F.honest F.means F.faults items.new) }
    ensures unchanged { LooksUp F.honest F.means (store_listed items.old) (store_listed items.new) }
{
    let mut text = Vec::new(alloc);
    let mut status = 0;
    while let Some(is_fault) = print_next(&mut text, items, out)? {
        if is_fault {
            status = 1;
        }
    }
    out.write_all(&text)?;
    Ok(status)
}
