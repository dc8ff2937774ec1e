//! Random scripts over small stores, each compared with the same by plain loops, a transaction for each line.
use crate::dice::Dice;
use crate::edits::{last_name, random_name};
use crate::files::copied;
use crate::made::{Edit, Expect, To, Who, digits};
use crate::names::Setting;
use crate::random::{Want, holds, lost, wanted};
use crate::reading::found;
use crate::stores::{Kept, random_digit, random_store_of, random_target};
use gix_ref_memory::memory::Memory;
use gix_ref_program::run::run;
use gix_ref_store::file::transaction::PackedRefs;
use gix_ref_store::store::WriteReflog;
use std::alloc::Global;
use std::process::Abort;

/// How often scripts came to their end, and how often one of their lines was refused.
#[derive(Debug, Drop)]
struct Tally {
    whole: u32,
    cut: u32,
    lines: u32,
}

/// The OLD of a command, as what it expects.
fn random_old(dice: &mut Dice, found: Option<To>) -> Expect {
    match (dice.roll(), found) {
        (0..=9, _) => Expect::MustNotExist,
        (10..=15, _) => Expect::Match(To::Object(random_digit(dice))),
        (16..=99, Some(To::Object(digit))) if digit != 'z' && digit != '0' => {
            Expect::Match(To::Object(digit))
        }
        (16..=99, None) => Expect::MustNotExist,
        _ => Expect::Any,
    }
}

/// What a command sets: none for a deletion.
fn random_new(dice: &mut Dice) -> Option<To> {
    match dice.roll() {
        0..=149 => Some(To::Object(random_digit(dice))),
        150..=184 => Some(To::Name(random_target(dice))),
        _ => None,
    }
}

/// A command for a name.
fn random_command(
    rt: &impl Abort,
    alloc: Global,
    dice: &mut Dice,
    kept: &Kept,
    name: &'static str,
) -> Edit {
    let new = random_new(dice);
    let is_symbolic = matches!(new, Some(To::Name(_)));
    let deref = !is_symbolic && dice.is_below(60);
    let last = last_name(rt, alloc, kept, name, deref);
    let expect = match found(rt, alloc, kept, last) {
        _ if is_symbolic => Expect::Any,
        None if new.is_none() => Expect::Any,
        found => random_old(dice, found),
    };
    Edit {
        name,
        new,
        expect,
        is_of_log: false,
        is_forced: false,
        message: "m",
        deref,
        parent: None,
        found: None,
    }
}

/// Up to three commands.
fn random_line(rt: &impl Abort, alloc: Global, dice: &mut Dice, kept: &Kept) -> Vec<Edit> {
    let mut edits = Vec::with_capacity(alloc, 3).expect(rt, "memory");
    let start = dice.roll() as usize;
    let count = 1 + (dice.roll() as usize) % 3;
    for at in 0..count {
        let name = random_name(dice, start, at);
        let edit = random_command(rt, alloc, dice, kept, name);
        edits.push(edit).expect(rt, "memory");
    }
    edits
}

/// A command in words.
fn command(rt: &impl Abort, alloc: Global, edit: Edit) -> String {
    let deref = if edit.deref { " --deref" } else { "" };
    let name = edit.name;
    let (space, old) = match edit.expect {
        Expect::MustNotExist => (" ", digits('0')),
        Expect::Match(To::Object(digit)) => (" ", digits(digit)),
        _ => ("", ""),
    };
    let text = match edit.new {
        Some(To::Object(digit)) => {
            let new = digits(digit);
            format!(in alloc; "update{deref} {name} {new}{space}{old}")
        }
        Some(To::Name(target)) => format!(in alloc; "symbolic {name} {target}"),
        _ => format!(in alloc; "delete{deref} {name}{space}{old}"),
    };
    text.expect(rt, "memory")
}

/// Adds a line of commands.
fn push_line(rt: &impl Abort, alloc: Global, text: &mut String, edits: &[Edit]) {
    for (at, edit) in edits.iter().enumerate() {
        if at > 0 {
            text.push_str(" ; ").expect(rt, "memory");
        }
        text.push_str(command(rt, alloc, *edit).as_str())
            .expect(rt, "memory");
    }
    text.push('\n').expect(rt, "memory");
}

/// A random script, with what its lines make of the store by plain loops, up to the first that is refused; whether all are made.
fn random_script(
    rt: &impl Abort,
    alloc: Global,
    dice: &mut Dice,
    kept: &mut Kept,
    who: Who,
    tally: &mut Tally,
) -> (String, bool) {
    let mut text = String::new(alloc);
    let mut is_made = true;
    for _ in 0..1 + dice.roll() % 5 {
        let mut edits = random_line(rt, alloc, dice, kept);
        push_line(rt, alloc, &mut text, &edits);
        if is_made {
            is_made = matches!(wanted(rt, alloc, kept, &mut edits, who), Want::Done);
            tally.lines = tally.lines.saturating_add(u32::from(is_made));
        }
    }
    (text, is_made)
}

/// Adds a word.
fn push_word(rt: &impl Abort, alloc: Global, words: &mut Vec<String>, word: &str) {
    let word = String::from_str(alloc, word).expect(rt, "memory");
    words.push(word).expect(rt, "memory");
}

/// The words that run the script of a store.
fn words(rt: &impl Abort, alloc: Global, setting: Setting, who: Who) -> Vec<String> {
    let mut words = Vec::new(alloc);
    push_word(rt, alloc, &mut words, "/r");
    if !setting.space.is_empty() {
        push_word(rt, alloc, &mut words, "--namespace");
        push_word(rt, alloc, &mut words, "foo");
    }
    if who != Who::Nobody {
        push_word(rt, alloc, &mut words, "--as");
        push_word(rt, alloc, &mut words, "C <c@example.com> 1234 +0800");
    }
    push_word(rt, alloc, &mut words, "--message");
    push_word(rt, alloc, &mut words, "m");
    push_word(rt, alloc, &mut words, "script");
    push_word(rt, alloc, &mut words, "/s");
    words
}

/// Runs a script over these files: its status, and the files.
fn ran(
    rt: &impl Abort,
    alloc: Global,
    mut memory: Memory,
    script: &str,
    words: &[String],
) -> (u8, Memory) {
    memory.put(b"/s", script.as_bytes()).expect(rt, "memory");
    let mut output = Vec::new(alloc);
    let ran = run(alloc, memory, PackedRefs::default(), words, &mut output);
    let status = ran.status.expect(rt, "a writer that does not fail");
    assert!(rt;
        (status != 0) == output.starts_with(b"refused: "),
        "{script}"
    );
    (status, ran.files)
}

/// Compares one script.
fn compare(rt: &impl Abort, alloc: Global, dice: &mut Dice, tally: &mut Tally) {
    let who = if dice.is_below(100) {
        Who::Nobody
    } else {
        Who::C
    };
    let setting = Setting {
        git: "/r",
        space: if dice.is_below(60) {
            "refs/namespaces/foo/"
        } else {
            ""
        },
        mode: if who == Who::Nobody {
            WriteReflog::Disable
        } else {
            WriteReflog::Normal
        },
        prohibits: false,
    };
    let (mut kept, memory) = random_store_of(rt, alloc, dice, setting);
    let before = copied(rt, alloc, &kept.files);
    let (script, is_made) = random_script(rt, alloc, dice, &mut kept, who, tally);
    let words = words(rt, alloc, setting, who);
    let (status, mut memory) = ran(rt, alloc, memory, &script, &words);
    assert!(rt;
        (status == 0) == is_made,
        "{dice:?}: {before:?} {kept:?} {script}"
    );
    assert!(rt;
        holds(rt, alloc, &mut memory, &kept.files),
        "{dice:?}: {before:?} {kept:?} {script} {:?}",
        lost(&memory, &kept.files)
    );
    if is_made {
        tally.whole = tally.whole.saturating_add(1);
    } else {
        tally.cut = tally.cut.saturating_add(1);
    }
}

#[test]
fn three_hundred_scripts(rt: HostRuntime) {
    let alloc = rt.alloc();
    let mut dice = Dice::new(7);
    let mut tally = Tally {
        whole: 0,
        cut: 0,
        lines: 0,
    };
    for _ in 0..300u32 {
        compare(&rt, alloc, &mut dice, &mut tally);
    }
    assert!(rt; tally.whole > 60, "{tally:?}");
    assert!(rt; tally.cut > 60, "{tally:?}");
    assert!(rt; tally.lines > 300, "{tally:?}");
}
