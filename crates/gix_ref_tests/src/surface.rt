//! Every public type of the library under its path, and a call of each module.
use gix_ref::hash::{hex_hash, hex_hash_any, newline};
use gix_ref::log::iter::forward;
use gix_ref::namespace::expand;
use gix_ref::packed::decode::{
    header, name_at_record_start, record_at_offset, record_start_at_offset, reference,
};
use gix_ref::steps::run_steps;
use gix_ref::{
    actor, file, files, hash, layout, lock, log, name, namespace, object, packed, peel, raw, steps,
    store, target, transaction,
};
use std::test::Fail;

/// Names a type.
fn named<T>() {}

/// Names a reference with the calls of a store.
fn leads<T: file::ReferenceExt>() {}

/// Names a loose reference with the calls of a store.
fn has_log<T: file::LooseReferenceExt>() {}

/// Names a finder of objects.
fn finds<T: object::Find>() {}

/// Names files, and a reader of one.
fn reads<T: files::Files, R: files::ReadAt>() {}

/// Names an entry of a list of edits, and the calls of such a list.
fn edits<T: transaction::EditEntry, L: transaction::RefEditsExt<T>>() {}

#[test]
fn types_of_names_and_values() {
    named::<hash::Kind>();
    named::<hash::ObjectId>();
    named::<name::Error>();
    named::<name::FullName>();
    named::<name::PartialName>();
    named::<name::FullNameRef<'_>>();
    named::<name::PartialNameRef<'_>>();
    named::<name::Category<'_>>();
    named::<namespace::Namespace>();
    named::<layout::RefLayout<'_>>();
    named::<layout::Location<'_>>();
    named::<target::Kind>();
    named::<target::Target>();
    named::<target::TargetRef<'_>>();
    named::<raw::Reference>();
    named::<object::Kind>();
    named::<object::Data<'_>>();
    named::<object::FindError>();
    named::<object::Never>();
    finds::<object::Never>();
    named::<actor::Time>();
    named::<actor::Signature>();
    named::<actor::SignatureRef<'_>>();
}

#[test]
fn types_of_formats() {
    named::<packed::Buffer>();
    named::<packed::Reference<'_>>();
    named::<packed::Iter<'_>>();
    named::<packed::decode::Header>();
    named::<packed::decode::Peeled>();
    named::<packed::buffer::open::Error>();
    named::<packed::iter::Error<'_>>();
    named::<packed::find::Error>();
    named::<packed::find::existing::Error>();
    named::<packed::file::PackedFile<files::DiskReader>>();
    named::<packed::Found>();
    named::<packed::Transaction>();
    named::<packed::transaction::Failed>();
    named::<packed::transaction::prepare::Error>();
    named::<packed::transaction::commit::Error>();
    named::<log::Line>();
    named::<log::LineRef<'_>>();
    named::<log::iter::Forward<'_>>();
    named::<log::iter::ReverseError>();
    named::<log::iter::EmptyBuffer>();
    named::<log::iter::decode::Error>();
    named::<log::iter::decode::LineNumber>();
    named::<log::iter::Reverse<'_, files::DiskReader>>();
    named::<log::WriteError>();
    named::<log::AppendError>();
    named::<actor::WriteError>();
}

#[test]
fn types_of_files_and_the_store() {
    named::<files::FileError>();
    named::<files::Faults>();
    named::<files::Node>();
    named::<files::Create>();
    named::<files::Rename>();
    named::<files::Memory>();
    named::<files::Disk>();
    named::<files::Entry>();
    reads::<files::Disk, files::DiskReader>();
    named::<lock::Lock>();
    named::<lock::LockFile>();
    named::<lock::Acquire>();
    named::<lock::Commit>();
    named::<lock::Unspent>();
    named::<steps::Action>();
    named::<steps::Settle>();
    named::<steps::Cause>();
    named::<steps::Ended>();
    named::<steps::Planned<'_, u8>>();
    named::<store::Options>();
    named::<store::WriteReflog>();
    named::<file::Store<files::Memory>>();
    named::<file::store::Error<files::Memory>>();
    named::<file::iter::Platform<'_, files::Memory>>();
    named::<file::iter::LooseThenPacked<'_, files::Memory>>();
    named::<file::iter::Error>();
    named::<file::iter::OwnRecord<'_>>();
    named::<file::iter::loose_then_packed::Error>();
    named::<file::loose::Reference>();
    named::<file::loose::Error>();
    named::<file::find::Error>();
    named::<file::find::Records<'_, files::DiskReader>>();
    named::<file::find::ReadError>();
    named::<file::find::existing::Error>();
    named::<log::Error>();
    named::<log::iter::Platform<'_, '_, files::Memory>>();
    leads::<raw::Reference>();
    has_log::<file::loose::Reference>();
    named::<peel::to_object::Error>();
    named::<peel::to_id::Error>();
    named::<file::transaction::Transaction<'_, files::Memory>>();
    named::<file::transaction::Prepared<'_, files::Memory>>();
    named::<file::transaction::PackedRefs>();
    named::<file::transaction::Refused>();
    named::<file::transaction::Done>();
    named::<file::transaction::Failed>();
    named::<file::transaction::RolledBack>();
    named::<file::transaction::prepare::Error>();
    named::<file::transaction::commit::Error>();
    named::<transaction::LogChange>();
    named::<transaction::PreviousValue>();
    named::<transaction::Change>();
    named::<transaction::RefEdit>();
    named::<transaction::RefLog>();
    named::<transaction::EditError>();
    named::<transaction::SplitError<files::FileError>>();
    edits::<transaction::RefEdit, Vec<transaction::RefEdit>>();
    named::<file::log::create_or_update::Error>();
    named::<file::locks::Error>();
    named::<file::locks::RemoveError>();
}

#[test]
fn calls(rt: HostRuntime) {
    let alloc = rt.alloc();
    let digits = b"1111111111111111111111111111111111111111\n".as_slice();
    let mut input = digits;
    assert!(rt; hex_hash(&mut input, hash::Kind::Sha1).is_some());
    assert!(rt; newline(&mut input).is_some() && input.is_empty());
    let mut input = digits;
    assert!(rt; hex_hash_any(&mut input).is_some());
    let partial = name::PartialNameRef::try_from("foo").expect(&rt, "a name");
    let space = expand(alloc, partial).expect(&rt, "memory");
    assert!(rt; space.to_path() == b"refs/namespaces/foo/".as_slice());
    let files = files::Memory::new(alloc);
    let folder = b"/r".to_vec(alloc).expect(&rt, "memory");
    assert!(rt; file::Store::at(files, folder, hash::Kind::Sha1).is_ok());
}

/// A call of each decoder of formats.
#[test]
fn decoders(rt: HostRuntime) {
    let mut text: &[u8] =
        b"# pack-refs with: sorted \n1111111111111111111111111111111111111111 refs/heads/a\n";
    assert!(rt; header(&mut text).is_ok());
    assert_eq!(rt; text.len(), 54);
    assert_eq!(rt; record_start_at_offset(text, 50), 0);
    assert_eq!(rt; record_at_offset(text, 50).len(), 54);
    assert_eq!(rt;
        name_at_record_start(text, hash::Kind::Sha1),
        Some(b"refs/heads/a".as_slice())
    );
    assert!(rt; reference(&mut text, hash::Kind::Sha1).is_ok());
    assert!(rt; text.is_empty());
    assert_eq!(rt; forward(b"no line\n").count(), 1);
    let alloc = rt.alloc();
    let mut memory = files::Memory::new(alloc);
    assert_eq!(rt; run_steps::<_, u8>(&mut memory, &[]), Ok(()));
}

/// A line is shown as `git reflog show --format='%H %gs'` prints it.
#[test]
fn lines_of_a_log_are_shown(rt: HostRuntime) -> Result<(), Fail> {
    let alloc = rt.alloc();
    let text =
        b"0000000000000000000000000000000000000000 111111111111111111111111111111111111111A C <c@e> 1 +0000\tcommit: a thing\n";
    let Ok(line) = log::LineRef::from_bytes(text) else {
        panic!(rt; "it is a line");
    };
    let shown = format!(in alloc; "{line}")?;
    assert_eq!(rt;
        shown.as_str(),
        "111111111111111111111111111111111111111A commit: a thing"
    );
    let line = line.to_owned(alloc)?;
    let shown = format!(in alloc; "{line}")?;
    assert_eq!(rt;
        shown.as_str(),
        "111111111111111111111111111111111111111a commit: a thing"
    );
    Ok(())
}
