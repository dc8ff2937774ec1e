//! Random steps over one store that grows to some fifty references, each compared with plain loops over its files: transactions, those that a
//! fault, a stop or a loss of power disturbs, lookups and listings.
use crate::dice::Dice;
use crate::edits::{random_edit, random_name};
use crate::files::{Held, copied, get, put, text};
use crate::made::{Edit, To, given, is_target, store};
use crate::names::{KNOWN, Setting, has_device, place};
use crate::random::{
    Answer, Want, answered, compare, holds, is_same, lost, paths, random_who, wanted,
};
use crate::reading::found;
use crate::stores::{Kept, Packed, Puts};
use gix_ref_files::files::Files;
use gix_ref_memory::memory::Memory;
use gix_ref_name::name::PartialNameRef;
use gix_ref_store::file::Store;
use gix_ref_store::file::find::existing;
use gix_ref_store::file::iter::LooseThenPacked;
use gix_ref_store::raw::Reference;
use gix_ref_store::store::WriteReflog;
use gix_ref_target::target::Target;
use std::alloc::Global;
use std::process::Abort;

/// The names of a folder.
macro_rules! below {
    ($folder:literal) => {
        &[
            concat!($folder, "d"),
            concat!($folder, "d-e"),
            concat!($folder, "e.f"),
            concat!($folder, "fix"),
            concat!($folder, "main"),
            concat!($folder, "n"),
            concat!($folder, "v1.0"),
            concat!($folder, "w"),
        ]
    };
}

/// The names of most edits, beside those of small stores. `refs/heads/d` and the names below it are in each other's way.
const FOLDERS: &[&[&str]] = &[
    below!("refs/for/main/"),
    below!("refs/heads/"),
    below!("refs/heads/d/"),
    below!("refs/notes/"),
    below!("refs/pull/7/"),
    below!("refs/tags/"),
    below!("refs/tags/rel/"),
    below!("refs/x/"),
];

/// How many steps are taken. With the checks of `rt try --test` four hundred of them take 40 seconds, of the minute that a test has: it is to be
/// lowered there.
const STEPS: u32 = 4_000;

/// What disturbs a transaction.
#[derive(Clone, Copy, Debug, PartialEq, Eq)]
enum Disturbance {
    /// A call of files fails.
    Fault,
    /// The process stops in a call.
    Stop,
    /// Power is lost in a call, or after the last.
    Loss,
}

/// How often each end came, and the most references that were listed.
#[derive(Debug, Drop)]
struct Tally {
    done: u32,
    before: u32,
    after: u32,
    between: u32,
    found: u32,
    most: usize,
}

/// The name of the edit at a place of a list.
fn grown_name(dice: &mut Dice, start: usize, at: usize) -> &'static str {
    if dice.is_below(40) {
        return random_name(dice, start, at);
    }
    match FOLDERS.get(dice.roll() as usize % 8) {
        Some(names) => dice.pick(names),
        None => "HEAD",
    }
}

/// One to four edits.
fn grown_edits(rt: &impl Abort, alloc: Global, dice: &mut Dice, kept: &Kept) -> Vec<Edit> {
    let mut edits = Vec::with_capacity(alloc, 4).expect(rt, "memory");
    let start = dice.roll() as usize;
    for at in 0..1 + (dice.roll() as usize) % 4 {
        let name = grown_name(dice, start, at);
        let edit = random_edit(rt, alloc, dice, kept, name);
        edits.push(edit).expect(rt, "memory");
    }
    edits
}

/// Whether this is the target of a reference.
fn is_read(target: Option<&Target>, to: Option<To>) -> bool {
    match (target, to) {
        (Some(target), Some(to)) => is_target(target, to),
        (None, None) => true,
        _ => false,
    }
}

/// What a lookup finds of a name: nothing of `logs/HEAD`, which is sought below `refs/` alone.
fn sought(rt: &impl Abort, alloc: Global, kept: &Kept, name: &'static str) -> Option<To> {
    if name == "logs/HEAD" {
        return None;
    }
    found(rt, alloc, kept, name)
}

/// Looks a name up: it is found as in one of these two stores, and refused where it is that of a device and the store prohibits these.
fn compare_lookup(
    rt: &impl Abort,
    alloc: Global,
    store: &mut Store<Memory>,
    name: &'static str,
    before: &Kept,
    after: &Kept,
) -> bool {
    let partial = PartialNameRef::try_from(name).expect(rt, "a partial name");
    let reference = match store.find(alloc, partial) {
        Ok(reference) => Some(reference),
        Err(existing::Error::NotFound { name: _name }) => None,
        Err(error) => {
            assert!(rt;
                before.setting.prohibits && has_device(name),
                "{name}: {error:?}"
            );
            return false;
        }
    };
    let target = reference.as_ref().map(|reference| &reference.target);
    assert!(rt;
        is_read(target, sought(rt, alloc, before, name))
            || is_read(target, sought(rt, alloc, after, name)),
        "{name} is {target:?}: {before:?} {after:?}"
    );
    target.is_some()
}

/// The references of a listing, in the order of their names.
fn listed(rt: &impl Abort, alloc: Global, listing: LooseThenPacked<'_, Memory>) -> Vec<Reference> {
    let mut list: Vec<Reference> = Vec::new(alloc);
    for item in listing {
        let Ok(reference) = item else {
            panic!(rt; "a reference that is not read");
        };
        if let Some(last) = list.last() {
            assert!(rt; last.name < reference.name, "the order of names");
        }
        list.push(reference).expect(rt, "memory");
    }
    list
}

/// How many of these names are listed, each as in one of these two stores.
fn compare_names(
    rt: &impl Abort,
    alloc: Global,
    list: &[Reference],
    prefix: &str,
    names: &[&'static str],
    before: &Kept,
    after: &Kept,
) -> usize {
    let mut count = 0usize;
    for name in names {
        let reference = list
            .iter()
            .find(|reference| reference.name.eq_bytes(name.as_bytes()));
        count = count.saturating_add(usize::from(reference.is_some()));
        let target = reference.map(|reference| &reference.target);
        assert!(rt;
            !name.starts_with(prefix)
                || is_read(target, found(rt, alloc, before, name))
                || is_read(target, found(rt, alloc, after, name)),
            "{name} is {target:?}: {before:?} {after:?}"
        );
    }
    count
}

/// Lists what is below a prefix, as in one of these two stores: how many references.
fn compare_listing(
    rt: &impl Abort,
    alloc: Global,
    store: &mut Store<Memory>,
    prefix: &str,
    before: &Kept,
    after: &Kept,
) -> usize {
    let Ok(mut platform) = store.iter(alloc) else {
        panic!(rt; "packed-refs that cannot be opened");
    };
    let Ok(listing) = platform.prefixed(alloc, prefix.as_bytes()) else {
        panic!(rt; "folders that cannot be listed");
    };
    let list = listed(rt, alloc, listing);
    let mut count = compare_names(rt, alloc, &list, prefix, KNOWN, before, after);
    for names in FOLDERS {
        let more = compare_names(rt, alloc, &list, prefix, names, before, after);
        count = count.saturating_add(more);
    }
    assert!(rt; count == list.len(), "{list:?}: {before:?} {after:?}");
    count
}

/// A copy.
fn copied_store(rt: &impl Abort, alloc: Global, kept: &Kept) -> Kept {
    Kept {
        puts: kept.puts,
        setting: kept.setting,
        files: copied(rt, alloc, &kept.files),
        packed: kept.packed,
        records: kept.records.clone().expect(rt, "memory"),
    }
}

/// Has a call that comes soon fail, or the process stop in it.
fn plan(dice: &mut Dice, memory: &mut Memory, how: Disturbance) {
    let call = u64::from(dice.roll() / 6).saturating_add(1);
    match how {
        Disturbance::Fault => memory.fail_at(call),
        Disturbance::Stop | Disturbance::Loss => memory.stop_at(call, dice.roll() as usize),
    }
}

/// Starts the process again, with a loss of power before it or not. Each change that is not synced is kept by chance then.
fn start_again(rt: &impl Abort, dice: &mut Dice, memory: &mut Memory, how: Disturbance) {
    if how == Disturbance::Loss {
        let mut pick = 0u64;
        for _ in 0..8u32 {
            pick = pick << 8 | u64::from(dice.roll());
        }
        memory.lose_power(pick).expect(rt, "memory");
    }
    memory.restart();
}

/// Removes the locks, as a user would, each of which is named after a fault: the other files.
fn unlocked(
    rt: &impl Abort,
    alloc: Global,
    memory: &mut Memory,
    locks: &[Vec<u8>],
    how: Disturbance,
) -> Vec<Held> {
    let mut files = Vec::new(alloc);
    for path in paths(rt, alloc, memory) {
        if path.ends_with(".lock") {
            let is_named = locks.iter().any(|lock| lock.as_slice() == path.as_bytes());
            assert!(rt;
                is_named || how != Disturbance::Fault,
                "{path} is not named"
            );
            memory.remove_file(path.as_bytes()).expect(rt, "a removal");
        } else {
            let bytes = memory.get(path.as_bytes()).expect(rt, "a file");
            let text = text(rt, alloc, str::from_utf8(bytes).expect(rt, "a text"));
            files.push(Held { path, text }).expect(rt, "memory");
        }
    }
    files
}

/// Whether each file is as in one of two stores, and a log may have the beginning of a line, or what a loss of power left of it.
fn are_between(files: &[Held], before: &[Held], after: &[Held]) -> bool {
    for held in files {
        let text = Some(held.text.as_str());
        let old = get(before, &held.path);
        let is_same = text == old || text == get(after, &held.path);
        let is_log = held.path.contains("/logs/");
        if !is_same && !(is_log && held.text.starts_with(old.unwrap_or(""))) {
            return false;
        }
    }
    true
}

/// Whether each file that both stores have with the same text is among these.
fn keep_others(files: &[Held], before: &[Held], after: &[Held]) -> bool {
    for held in before {
        let text = Some(held.text.as_str());
        if text == get(after, &held.path) && text != get(files, &held.path) {
            return false;
        }
    }
    true
}

/// Counts how a disturbed transaction left the files.
fn count_left(tally: &mut Tally, is_before: bool, is_after: bool) {
    let count = if is_before {
        &mut tally.before
    } else if is_after {
        &mut tally.after
    } else {
        &mut tally.between
    };
    *count = count.saturating_add(1);
}

/// Compares the files that a disturbed transaction left: as before it was prepared, as after it was done, or between these.
fn compare_left(
    rt: &impl Abort,
    files: &[Held],
    memory: &Memory,
    answer: &Answer,
    before: &Kept,
    after: &Kept,
    tally: &mut Tally,
) {
    let is_before = files.len() == before.files.len() && lost(memory, &before.files).is_none();
    let is_after = files.len() == after.files.len() && lost(memory, &after.files).is_none();
    let is_right = match answer {
        Answer::Refused(_) => is_before,
        Answer::Failed(_) => {
            are_between(files, &before.files, &after.files)
                && keep_others(files, &before.files, &after.files)
        }
        Answer::Done(_) => is_after,
    };
    assert!(rt; is_right, "{answer:?}: {files:?}: {before:?} {after:?}");
    count_left(tally, is_before, is_after);
}

/// Reads each reference, and those of the edits by their names: each is as in one of two stores.
fn compare_references(
    rt: &impl Abort,
    alloc: Global,
    store: &mut Store<Memory>,
    edits: &[Edit],
    before: &Kept,
    after: &Kept,
) {
    for edit in edits {
        compare_lookup(rt, alloc, store, edit.name, before, after);
    }
    compare_listing(rt, alloc, store, "refs/", before, after);
}

/// These files, all of them synced.
fn afresh(rt: &impl Abort, alloc: Global, files: &[Held]) -> Memory {
    let mut memory = Memory::new(alloc);
    for held in files {
        let is_put = memory
            .put(held.path.as_bytes(), held.text.as_bytes())
            .expect(rt, "memory");
        assert!(rt; is_put, "{}", held.path);
    }
    memory
}

/// Has the slow store be what a disturbed transaction left.
fn take(kept: &mut Kept, before: Kept, files: Vec<Held>) {
    if get(&files, "/r/packed-refs") != get(&kept.files, "/r/packed-refs") {
        kept.packed = before.packed;
        kept.records = before.records;
    }
    kept.files = files;
}

/// Compares a transaction that is disturbed: the files of the store afterwards, without locks.
fn disturb(
    rt: &impl Abort,
    alloc: Global,
    dice: &mut Dice,
    kept: &mut Kept,
    mut memory: Memory,
    how: Disturbance,
    tally: &mut Tally,
) -> Memory {
    let mut edits = grown_edits(rt, alloc, dice, kept);
    let who = random_who(dice);
    plan(dice, &mut memory, how);
    let given = given(rt, alloc, &edits);
    let mut disturbed = store(rt, alloc, memory, kept.setting);
    let (answer, locks) = answered(rt, alloc, &mut disturbed, kept.puts, given, who);
    let mut memory = disturbed.into_files();
    start_again(rt, dice, &mut memory, how);
    let before = copied_store(rt, alloc, kept);
    let want = wanted(rt, alloc, kept, &mut edits, who);
    if let Answer::Done(_) = &answer {
        assert!(rt; is_same(&answer, &want, &edits), "{answer:?} for {want:?}");
    }
    let files = unlocked(rt, alloc, &mut memory, &locks, how);
    compare_left(rt, &files, &memory, &answer, &before, kept, tally);
    let mut left = store(rt, alloc, memory, kept.setting);
    compare_references(rt, alloc, &mut left, &edits, &before, kept);
    take(kept, before, files);
    afresh(rt, alloc, &kept.files)
}

/// Compares a lookup or a listing.
fn read(
    rt: &impl Abort,
    alloc: Global,
    dice: &mut Dice,
    kept: &Kept,
    memory: Memory,
    tally: &mut Tally,
) -> Memory {
    let mut store = store(rt, alloc, memory, kept.setting);
    if dice.is_below(160) {
        let name = grown_name(dice, 0, 0);
        let is_found = compare_lookup(rt, alloc, &mut store, name, kept, kept);
        tally.found = tally.found.saturating_add(u32::from(is_found));
    } else {
        let prefix = dice.pick(&["refs/", "refs/heads/", "refs/heads/d", "refs/t"]);
        let count = compare_listing(rt, alloc, &mut store, prefix, kept, kept);
        tally.most = tally.most.max(count);
    }
    store.into_files()
}

/// What a step's transaction does with `packed-refs`.
fn random_puts(dice: &mut Dice) -> Puts {
    match dice.roll() {
        0..=79 => Puts::Nothing,
        80..=127 => Puts::Updates,
        _ => Puts::UpdatesAlone,
    }
}

/// One step.
fn step(
    rt: &impl Abort,
    alloc: Global,
    dice: &mut Dice,
    kept: &mut Kept,
    memory: Memory,
    tally: &mut Tally,
) -> Memory {
    kept.puts = random_puts(dice);
    let how = match dice.roll() {
        0..=127 => {
            let edits = grown_edits(rt, alloc, dice, kept);
            let (want, memory) = compare(rt, alloc, dice, kept, memory, edits);
            tally.done = tally
                .done
                .saturating_add(u32::from(matches!(want, Want::Done)));
            return memory;
        }
        128..=190 => return read(rt, alloc, dice, kept, memory, tally),
        191..=212 => Disturbance::Fault,
        213..=234 => Disturbance::Stop,
        _ => Disturbance::Loss,
    };
    disturb(rt, alloc, dice, kept, memory, how, tally)
}

/// Steps over a store that has only `HEAD` at first. Now and then it is seen that no other file is there, and all changes are synced: a look-up
/// of `Memory` costs time in proportion to its changes.
fn grow(rt: &impl Abort, alloc: Global, start: u32, steps: u32, setting: Setting) -> Tally {
    let mut dice = Dice::new(start);
    let mut kept = Kept {
        puts: Puts::Nothing,
        setting,
        files: Vec::new(alloc),
        packed: Packed::Nothing,
        records: Vec::new(alloc),
    };
    let head = place(rt, alloc, setting, "HEAD");
    put(
        rt,
        alloc,
        &mut kept.files,
        &head,
        text(rt, alloc, "ref: refs/heads/a\n"),
    );
    let mut memory = afresh(rt, alloc, &kept.files);
    let mut tally = Tally {
        done: 0,
        before: 0,
        after: 0,
        between: 0,
        found: 0,
        most: 0,
    };
    for _ in 0..steps {
        memory = step(rt, alloc, &mut dice, &mut kept, memory, &mut tally);
        if memory.calls() > 120 {
            assert!(rt;
                holds(rt, alloc, &mut memory, &kept.files),
                "{dice:?}: {kept:?}"
            );
            memory = afresh(rt, alloc, &kept.files);
        }
    }
    tally
}

#[test]
fn steps_in_a_git_folder(rt: HostRuntime) {
    let setting = Setting {
        git: "/r",
        space: "",
        mode: WriteReflog::Normal,
        prohibits: true,
    };
    let tally = grow(&rt, rt.alloc(), 9, STEPS, setting);
    assert!(rt;
        tally.done > 100 && tally.most > 40 && tally.found > 20,
        "{tally:?}"
    );
    assert!(rt;
        tally.before > 40 && tally.after > 20 && tally.between > 10,
        "{tally:?}"
    );
}

#[test]
fn steps_in_a_namespace_of_a_linked_worktree(rt: HostRuntime) {
    let setting = Setting {
        git: "/r/worktrees/w",
        space: "refs/namespaces/foo/",
        mode: WriteReflog::Always,
        prohibits: false,
    };
    let tally = grow(&rt, rt.alloc(), 10, STEPS / 4, setting);
    assert!(rt;
        tally.done > 50 && tally.most > 25 && tally.found > 5,
        "{tally:?}"
    );
    assert!(rt;
        tally.before > 15 && tally.after > 5 && tally.between > 5,
        "{tally:?}"
    );
}
