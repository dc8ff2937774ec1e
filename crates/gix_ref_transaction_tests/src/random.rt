//! Random transactions of small stores, each compared with the same by plain loops: the cause, or the files afterwards.
use crate::causes::{Cause, Failure, is_cause, is_failure};
use crate::committing::commit;
use crate::dice::Dice;
use crate::edits::random_edits;
use crate::files::{Held, copied};
use crate::made::{Edit, Who, given, is_expected, signature, store};
use crate::objects::Objects;
use crate::preparing::prepare;
use crate::stores::{Kept, Puts, random_store};
use gix_ref_edits::transaction::RefEdit;
use gix_ref_files::files::Files;
use gix_ref_memory::memory::Memory;
use gix_ref_store::file::Store;
use gix_ref_store::file::transaction::{PackedRefs, commit as commits, prepare as prepares};
use std::alloc::Global;
use std::process::Abort;

/// What became of a transaction.
#[derive(Debug, Drop)]
pub enum Answer {
    Refused(prepares::Error),
    Failed(commits::Error),
    Done(Vec<RefEdit>),
}

/// What is to become of it.
#[derive(Debug, Drop)]
pub enum Want {
    Refused(Cause),
    Failed(Failure),
    Done,
}

/// How often each end came.
#[derive(Debug, Drop)]
struct Tally {
    refused: u32,
    failed: u32,
    done: u32,
}

/// The use of `packed-refs` that puts these.
pub fn uses(puts: Puts) -> PackedRefs<Objects> {
    match puts {
        Puts::Nothing => PackedRefs::DeletionsOnly,
        Puts::Updates => PackedRefs::DeletionsAndNonSymbolicUpdates(Objects),
        Puts::UpdatesAlone => {
            PackedRefs::DeletionsAndNonSymbolicUpdatesRemoveLooseSourceReference(Objects)
        }
    }
}

/// Prepares edits and commits them: what became of them, and the locks that are left.
pub fn answered(
    rt: &impl Abort,
    alloc: Global,
    store: &mut Store<Memory>,
    puts: Puts,
    edits: Vec<RefEdit>,
    who: Who,
) -> (Answer, Vec<Vec<u8>>) {
    let transaction = store.transaction().packed_refs(uses(puts));
    match transaction.prepare(alloc, edits) {
        Err(refused) => (Answer::Refused(refused.error), refused.locks_left),
        Ok(prepared) => match prepared.commit(alloc, signature(who)) {
            Err(failed) => (Answer::Failed(failed.error), failed.locks_left),
            Ok(done) => (Answer::Done(done.edits), done.locks_left),
        },
    }
}

/// The same by plain loops, with the files afterwards.
pub fn wanted(
    rt: &impl Abort,
    alloc: Global,
    kept: &mut Kept,
    edits: &mut Vec<Edit>,
    who: Who,
) -> Want {
    let before = copied(rt, alloc, &kept.files);
    if let Some(cause) = prepare(rt, alloc, kept, edits) {
        kept.files = before;
        return Want::Refused(cause);
    }
    match commit(rt, alloc, kept, edits, who) {
        Ok(()) => Want::Done,
        Err(failure) => Want::Failed(failure),
    }
}

/// Whether the edits of a prepared transaction are these.
fn are_edits(prepared: &[RefEdit], edits: &[Edit]) -> bool {
    if prepared.len() != edits.len() {
        return false;
    }
    for (prepared, edit) in prepared.iter().zip(edits) {
        if !prepared.name.eq_bytes(edit.name.as_bytes())
            || !is_expected(prepared.change.expectation(), edit.expect)
            || prepared.deref
        {
            return false;
        }
    }
    true
}

/// Whether an answer is the one that is wanted.
pub fn is_same(answer: &Answer, want: &Want, edits: &[Edit]) -> bool {
    match (answer, want) {
        (Answer::Refused(error), Want::Refused(cause)) => is_cause(error, *cause),
        (Answer::Failed(error), Want::Failed(failure)) => is_failure(error, failure),
        (Answer::Done(prepared), Want::Done) => are_edits(prepared, edits),
        _ => false,
    }
}

/// Adds the paths of the files in a folder to one list, and those of its folders to another.
fn add_paths(
    rt: &impl Abort,
    alloc: Global,
    memory: &mut Memory,
    folder: &str,
    paths: &mut Vec<String>,
    folders: &mut Vec<String>,
) {
    let entries = memory
        .list(alloc, folder.as_bytes())
        .expect(rt, "a listing")
        .expect(rt, "a folder");
    for entry in &entries {
        let name = str::from_utf8(&entry.name).expect(rt, "a name");
        let path = format!(in alloc; "{folder}/{name}").expect(rt, "memory");
        if entry.is_folder {
            folders.push(path).expect(rt, "memory");
        } else {
            paths.push(path).expect(rt, "memory");
        }
    }
}

/// The paths of the files in memory.
pub fn paths(rt: &impl Abort, alloc: Global, memory: &mut Memory) -> Vec<String> {
    let mut folders = Vec::new(alloc);
    let mut paths = Vec::new(alloc);
    let mut folder = String::from_str(alloc, "/r").expect(rt, "memory");
    for _ in 0..100u32 {
        add_paths(rt, alloc, memory, &folder, &mut paths, &mut folders);
        match folders.pop() {
            Some(next) => folder = next,
            None => return paths,
        }
    }
    panic!(rt; "so many folders")
}

/// The first of these files that memory does not hold.
pub fn lost<'f>(memory: &Memory, files: &'f [Held]) -> Option<&'f Held> {
    for held in files {
        if memory.get(held.path.as_bytes()) != Some(held.text.as_bytes()) {
            return Some(held);
        }
    }
    None
}

/// Whether memory holds these files and no others.
pub fn holds(rt: &impl Abort, alloc: Global, memory: &mut Memory, files: &[Held]) -> bool {
    lost(memory, files).is_none()
        && (files.is_empty() || paths(rt, alloc, memory).len() == files.len())
}

/// Who commits.
pub fn random_who(dice: &mut Dice) -> Who {
    match dice.roll() {
        0..=9 => Who::Nobody,
        10..=17 => Who::Bracket,
        18..=99 => Who::Padded,
        _ => Who::C,
    }
}

/// Counts an end.
fn count_end(tally: &mut Tally, want: &Want) {
    let count = match want {
        Want::Refused(_) => &mut tally.refused,
        Want::Failed(_) => &mut tally.failed,
        Want::Done => &mut tally.done,
    };
    *count = count.saturating_add(1);
}

/// Carries edits out in a store and by plain loops, and compares the ends and the texts of the files: what they came to, and the files of the
/// store, which may be more.
pub fn compare(
    rt: &impl Abort,
    alloc: Global,
    dice: &mut Dice,
    kept: &mut Kept,
    memory: Memory,
    mut edits: Vec<Edit>,
) -> (Want, Memory) {
    let who = random_who(dice);
    let given = given(rt, alloc, &edits);
    let mut store = store(rt, alloc, memory, kept.setting);
    let (answer, locks) = answered(rt, alloc, &mut store, kept.puts, given, who);
    assert!(rt; locks.is_empty(), "no lock is left");
    let memory = store.into_files();
    let before = copied(rt, alloc, &kept.files);
    let want = wanted(rt, alloc, kept, &mut edits, who);
    assert!(rt;
        is_same(&answer, &want, &edits),
        "{dice:?}: {answer:?} for {want:?}: {before:?} {kept:?} {edits:?}"
    );
    let lost = lost(&memory, &kept.files);
    assert!(rt;
        lost.is_none(),
        "{dice:?}: {want:?}: {before:?} {kept:?} {edits:?} {lost:?}"
    );
    (want, memory)
}

/// Compares one transaction of a random store.
fn compare_random(rt: &impl Abort, alloc: Global, dice: &mut Dice, puts: Puts, tally: &mut Tally) {
    let (mut kept, memory) = random_store(rt, alloc, dice);
    kept.puts = puts;
    let edits = random_edits(rt, alloc, dice, &kept);
    let (want, mut memory) = compare(rt, alloc, dice, &mut kept, memory, edits);
    assert!(rt;
        holds(rt, alloc, &mut memory, &kept.files),
        "{dice:?}: {want:?}: {kept:?}"
    );
    count_end(tally, &want);
}

/// Compares transactions of 500 random stores.
fn compare_all(rt: &impl Abort, alloc: Global, start: u32, puts: Puts) {
    let mut dice = Dice::new(start);
    let mut tally = Tally {
        refused: 0,
        failed: 0,
        done: 0,
    };
    for _ in 0..500u32 {
        compare_random(rt, alloc, &mut dice, puts, &mut tally);
    }
    assert!(rt; tally.done > 150, "{tally:?}");
    assert!(rt; tally.failed > 20, "{tally:?}");
    assert!(rt; tally.refused > 100, "{tally:?}");
}

#[test]
fn five_hundred_transactions(rt: HostRuntime) {
    compare_all(&rt, rt.alloc(), 1, Puts::Nothing);
}

#[test]
fn five_hundred_more(rt: HostRuntime) {
    compare_all(&rt, rt.alloc(), 2, Puts::Nothing);
}

#[test]
fn five_hundred_with_updates_put(rt: HostRuntime) {
    compare_all(&rt, rt.alloc(), 3, Puts::Updates);
}

#[test]
fn five_hundred_more_with_updates_put(rt: HostRuntime) {
    compare_all(&rt, rt.alloc(), 4, Puts::Updates);
}

#[test]
fn five_hundred_with_updates_put_alone(rt: HostRuntime) {
    compare_all(&rt, rt.alloc(), 5, Puts::UpdatesAlone);
}

#[test]
fn five_hundred_more_with_updates_put_alone(rt: HostRuntime) {
    compare_all(&rt, rt.alloc(), 6, Puts::UpdatesAlone);
}
