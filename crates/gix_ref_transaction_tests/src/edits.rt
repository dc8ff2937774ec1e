//! Random edits of a store, most of which are possible.
use crate::dice::Dice;
use crate::made::{Edit, Expect, To};
use crate::names::{NAMES, ODD, OTHERS};
use crate::reading::{found, loose};
use crate::stores::{Kept, random_digit, random_target};
use std::alloc::Global;
use std::process::Abort;

/// The name of the edit at a place of a list: mostly another one than those before it.
pub fn random_name(dice: &mut Dice, start: usize, at: usize) -> &'static str {
    match dice.roll() {
        0..=9 => return dice.pick(&OTHERS),
        10..=12 => return dice.pick(&NAMES),
        13..=15 => return dice.pick(&ODD),
        _ => {}
    }
    let place = start.wrapping_add(at.wrapping_mul(3)) % 8;
    match NAMES.get(place) {
        Some(name) if *name != "refs/heads/a/b" || dice.is_below(70) => name,
        _ => "refs/remotes/o/m",
    }
}

/// The name that an edit of this one is of: that at the end of the symbolic references, or one of a circle.
pub fn last_name(
    rt: &impl Abort,
    alloc: Global,
    kept: &Kept,
    name: &'static str,
    deref: bool,
) -> &'static str {
    let mut last = name;
    for _ in 0..4u32 {
        match loose(rt, alloc, kept, last) {
            Some(To::Name(next)) if deref => last = next,
            _ => return last,
        }
    }
    last
}

/// A new target; none for a deletion.
fn random_new(dice: &mut Dice) -> Option<To> {
    match dice.roll() {
        0..=149 => Some(To::Object(random_digit(dice))),
        150..=152 => Some(To::Object('0')),
        153..=184 => Some(To::Name(random_target(dice))),
        185 => Some(To::Long),
        186 => Some(To::Partial),
        _ => None,
    }
}

/// What an edit may expect of what is there.
fn possible(dice: &mut Dice, found: Option<To>, is_deletion: bool) -> Expect {
    match found {
        Some(to) if to != To::Object('z') => match dice.roll() {
            0..=99 => Expect::Match(to),
            100..=179 => Expect::MustExist,
            _ => Expect::Existing(to),
        },
        _ if is_deletion || dice.is_below(128) => Expect::Existing(To::Object(random_digit(dice))),
        _ => Expect::MustNotExist,
    }
}

/// What an edit expects.
fn random_expect(dice: &mut Dice, found: Option<To>, is_deletion: bool) -> Expect {
    let digit = random_digit(dice);
    match dice.roll() {
        0..=119 => Expect::Any,
        120..=243 => possible(dice, found, is_deletion),
        244..=246 => Expect::MustExist,
        247..=249 => Expect::MustNotExist,
        250..=251 => Expect::Match(To::Object(digit)),
        252 => Expect::Existing(To::Object(digit)),
        253 => Expect::Existing(To::Object('0')),
        254 => Expect::Match(To::Name("refs/heads/b")),
        _ => Expect::Match(To::Long),
    }
}

/// A message.
fn random_message(dice: &mut Dice) -> &'static str {
    match dice.roll() {
        0..=149 => "m",
        150..=250 => "",
        _ => "two\nlines",
    }
}

/// An edit of a name.
pub fn random_edit(
    rt: &impl Abort,
    alloc: Global,
    dice: &mut Dice,
    kept: &Kept,
    name: &'static str,
) -> Edit {
    let deref = dice.is_below(70);
    let new = random_new(dice);
    let last = last_name(rt, alloc, kept, name, deref);
    let found = found(rt, alloc, kept, last);
    Edit {
        name,
        new,
        expect: random_expect(dice, found, new.is_none()),
        is_of_log: dice.is_below(35),
        is_forced: dice.is_below(60),
        message: random_message(dice),
        deref,
        parent: None,
        found: None,
    }
}

/// Up to six edits.
pub fn random_edits(rt: &impl Abort, alloc: Global, dice: &mut Dice, kept: &Kept) -> Vec<Edit> {
    let mut edits = Vec::with_capacity(alloc, 6).expect(rt, "memory");
    let start = dice.roll() as usize;
    let count = if dice.is_below(8) {
        0
    } else {
        1 + (dice.roll() as usize) % 6
    };
    for at in 0..count {
        let name = random_name(dice, start, at);
        let edit = random_edit(rt, alloc, dice, kept, name);
        edits.push(edit).expect(rt, "memory");
    }
    edits
}
