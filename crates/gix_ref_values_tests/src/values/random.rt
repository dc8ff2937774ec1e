//! 2,000 random lists of edits over random references, against a slow list that is made level by level.
use crate::values::made::{full_name, update};
use gix_ref_edits::transaction::{RefEdit, RefEditsExt, SplitError};
use gix_ref_name::name::PartialNameRef;
use gix_ref_target::target::Target;
use std::alloc::Global;
use std::process::Abort;

/// The names of the references, ascending.
const NAMES: &[&str] = &[
    "refs/r/a", "refs/r/b", "refs/r/c", "refs/r/d", "refs/r/e", "refs/r/f",
];

/// What becomes of a list: the places of its names in `NAMES`, the least doubled one, or that it splits too often.
#[derive(Clone, Copy, Debug, PartialEq, Eq)]
enum Fate {
    Done,
    Doubled(usize),
    TooMany,
}

/// The next of a row of numbers, and a number below `bound` made of it.
fn next(seed: &mut u64, bound: usize) -> usize {
    *seed = seed
        .wrapping_mul(6364136223846793005)
        .wrapping_add(1442695040888963407);
    let high = (*seed >> 40) as usize;
    if bound == 0 { 0 } else { high % bound }
}

/// Where each reference leads, by its place: to another, or to an object.
fn references(rt: &impl Abort, alloc: Global, seed: &mut u64) -> Vec<Option<usize>> {
    let mut table = Vec::new(alloc);
    for _ in 0..6u8 {
        let to = next(seed, 9);
        let entry = if to < 6 { Some(to) } else { None };
        table.push(entry).expect(rt, "memory");
    }
    table
}

/// The places of the names of a list with its splits, and whether a fifth round would append.
fn slow(
    rt: &impl Abort,
    alloc: Global,
    table: &[Option<usize>],
    given: &[(usize, bool)],
) -> (Vec<usize>, bool) {
    let mut all = Vec::new(alloc);
    let mut level = given.to_vec(alloc).expect(rt, "memory");
    for _ in 0..5u8 {
        let mut children = Vec::new(alloc);
        for &(name, follows) in &level {
            all.push(name).expect(rt, "memory");
            if follows && let Some(Some(to)) = table.get(name) {
                children.push((*to, true)).expect(rt, "memory");
            }
        }
        level = children;
    }
    (all, !level.is_empty())
}

fn slow_fate(places: &[usize], is_cut: bool) -> Fate {
    if is_cut {
        return Fate::TooMany;
    }
    for place in 0..6usize {
        if places.iter().filter(|other| **other == place).count() > 1 {
            return Fate::Doubled(place);
        }
    }
    Fate::Done
}

fn place_of(name: &[u8]) -> usize {
    for place in 0..6usize {
        if NAMES[place].as_bytes() == name {
            return place;
        }
    }
    6
}

/// What the call answers, over a finder that reads the table.
fn answer(
    rt: &impl Abort,
    alloc: Global,
    table: &[Option<usize>],
    list: &mut Vec<RefEdit>,
) -> Fate {
    let mut finder = |name: PartialNameRef<'_>| -> Result<Option<Target>, ()> {
        match table.get(place_of(name.to_partial_path())) {
            Some(Some(to)) if *to < 6 => Ok(Some(Target::Symbolic(full_name(
                rt, alloc, NAMES[*to],
            )))),
            _ => Ok(None),
        }
    };
    let mut maker = |_parent: usize, edit: RefEdit| edit;
    match list.pre_process(alloc, &mut finder, &mut maker) {
        Ok(()) => Fate::Done,
        Err(SplitError::DoubledName(name)) => Fate::Doubled(place_of(name.as_ref().to_path())),
        Err(SplitError::TooManySplits { .. }) => Fate::TooMany,
        Err(_) => Fate::Doubled(6),
    }
}

#[test]
fn two_thousand_lists(rt: HostRuntime) {
    let alloc = rt.alloc();
    let mut seed = 17u64;
    for round in 0..2000u32 {
        let table = references(&rt, alloc, &mut seed);
        let mut given = Vec::new(alloc);
        let mut list = Vec::new(alloc);
        for _ in 0..next(&mut seed, 5) {
            let (place, follows) = (next(&mut seed, 6), next(&mut seed, 4) > 0);
            if place < 6 {
                given.push((place, follows)).expect(&rt, "memory");
                list.push(update(&rt, alloc, NAMES[place], follows))
                    .expect(&rt, "memory");
            }
        }
        let (places, is_cut) = slow(&rt, alloc, &table, &given);
        let wanted = slow_fate(&places, is_cut);
        assert!(rt;
            answer(&rt, alloc, &table, &mut list) == wanted,
            "list {round}"
        );
        if wanted == Fate::Done {
            assert!(rt; list.len() == places.len(), "list {round}");
            for (edit, place) in list.iter().zip(places.iter()) {
                assert!(rt;
                    place_of(edit.name.as_ref().to_path()) == *place,
                    "list {round}"
                );
            }
        }
    }
}
