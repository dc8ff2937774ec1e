//! Plays the cases of files, and prints for each file how many cases it has. A case of which something else comes is printed: its title,
//! what was expected, and what came. The words are the files, each a name in `data`; `docs/CASES.md` says how a case is written.
//!
//! With the first word `--refused` only the cases that ask for refused allocations are played, once each, and nothing is printed of one
//! that is right: `bin/refuse-allocations` refuses one allocation of such a run. The status is 0 where all was done, and else 1.
#![tactic(auto)]

use anyhow::{Context, Result};
use case_judge::judge::{Verdict, judge_refused, verdict_on};
use case_verbs::verbs::AllVerbs;
use case_world::texts::Texts;
use std::process::ExitCode;
use std::{env, fs};

/// The cases of a file: how many there are, and those of which something else came.
fn play_text(rt: &HostRuntime, texts: &mut Texts, text: &str) -> Result<(usize, Vec<String>)> {
    let alloc = rt.alloc();
    let mut lines = Vec::new(alloc);
    let mut wrong = Vec::new(alloc);
    let mut count = 0usize;
    for line in text.lines().chain(std::iter::once("")) {
        if line.starts_with('#') {
            continue;
        }
        if !line.is_empty() {
            lines.push(line.to_string(alloc)?)?;
            continue;
        }
        match verdict_on(alloc, &AllVerbs, texts, lines.as_slice())? {
            Verdict::None => {}
            Verdict::Right => count = count.saturating_add(1),
            Verdict::Wrong(said) => {
                count = count.saturating_add(1);
                wrong.push(said)?;
            }
        }
        lines.clear();
    }
    Ok((count, wrong))
}

/// Plays a file, and prints what came: whether all was right.
fn play_file(rt: &HostRuntime, texts: &mut Texts, name: &str) -> Result<bool> {
    let text = fs::read_to_string(rt, name).context("a file of cases")?;
    let (count, wrong) = play_text(rt, texts, text.as_str())?;
    for said in wrong.as_slice() {
        println!(rt; "WRONG {name}: {said}")?;
    }
    println!(rt; "{name}: {count} cases")?;
    Ok(wrong.is_empty())
}

/// Plays the cases of a file that ask for refused allocations: whether all was done.
fn play_refused(rt: &HostRuntime, texts: &mut Texts, name: &str) -> Result<bool> {
    let alloc = rt.alloc();
    let text = fs::read_to_string(rt, name).context("a file of cases")?;
    let mut lines = Vec::new(alloc);
    let mut is_done = true;
    for line in text.lines().chain(std::iter::once("")) {
        if line.starts_with('#') {
            continue;
        }
        if !line.is_empty() {
            lines.push(line.to_string(alloc)?)?;
            continue;
        }
        if judge_refused(alloc, &AllVerbs, texts, lines.as_slice())? == Some(false) {
            is_done = false;
        }
        lines.clear();
    }
    Ok(is_done)
}

/// Plays the files: whether all was right, or done.
fn play_all(rt: &HostRuntime) -> Result<bool> {
    let mut texts = Texts::new(rt.alloc());
    let mut is_refused = false;
    let mut is_well = true;
    for name in env::args(rt)?.skip(1) {
        if name.as_str() == "--refused" {
            is_refused = true;
            continue;
        }
        let right = if is_refused {
            play_refused(rt, &mut texts, name.as_str())
        } else {
            play_file(rt, &mut texts, name.as_str())
        };
        is_well = right? && is_well;
    }
    Ok(is_well)
}

/// Whether an error is a refused allocation.
fn is_of_memory(rt: &HostRuntime, error: &anyhow::Error) -> Result<bool> {
    let text = format!(in rt.alloc(); "{error:#}")?;
    Ok(text.contains("memory"))
}

fn main(rt: HostRuntime) -> Result<ExitCode> {
    match play_all(&rt) {
        Ok(is_well) => Ok(ExitCode::from(u8::from(!is_well))),
        Err(error) if is_of_memory(&rt, &error)? => Ok(ExitCode::from(1)),
        Err(error) => Err(error),
    }
}
