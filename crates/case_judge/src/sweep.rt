//! What may come of the last verb of a case if it is disturbed.
//!
//! - `each stop PARTS ..`: the process stops in each call of files in turn, after each of these numbers of parts (`0-160`: each number
//!   from 0 to 160), which are the bytes of an append; then power is lost too
//! - `each fault`: each call of files fails in turn; then power is lost too
//! - `each pair`: each two calls of files fail in one run
//! - `each read`: each call of files and each read of an open file of a verb that reads fails in turn: it prints a fault or a refusal then,
//!   and nothing that it does not print else
//! - `each loss [BITS]`: power is lost after it is done. In losses the kept changes are none, all, and each of the first BITS (7) alone;
//!   after stops within an append the first 7
//! - `each allocation`: `bin/refuse-allocations` refuses each allocation of memory in turn
//! - `readings NAME ..`, and rows `| TARGET ..`: what these references read then, `absent` where they do not exist: the first row before
//!   the verb, and the others after each step of it, in their order
//! - `later NAME ..`: these references of the git folder are deleted after each stop and each fault, as `later` says
//! - `between PATH TEXT`: what a file may hold between two transactions of a script
//! - `logs-of PATH ..`: the log of each step, or several joined by `+`, or `-`: it is whole where the step is done
//! - `may OUTCOME`: the beginning of what is printed after a fault. Each comes, and no others, unless all is done
//!
//! In each of these each file is as before or as after the verb, except for its own locks, and for a beginning of a log line.
use crate::judge::change;
use crate::later::hold_later;
use anyhow::{Context, Result, bail};
use bstr::ByteSlice;
use case_world::lines::{Family, LineKind, Verbs, kind_of};
use case_world::reading::reading;
use case_world::texts::{Texts, number, split};
use case_world::transactions::Said;
use case_world::tree::Tree;
use case_world::world::{Plan, World, path_of};
use std::alloc::Global;

/// The last verb of a case.
#[derive(Clone, Copy)]
struct LastVerb {
    /// The number of its line.
    at: usize,
    family: Family,
}

/// A case whose last verb is disturbed.
#[derive(Drop)]
struct Sweep<'l, V: Verbs> {
    alloc: Global,
    verbs: &'l V,
    texts: &'l Texts,
    lines: &'l [String],
    verb: LastVerb,
    before: Tree,
    after: &'l Tree,
    bits: u64,
}

/// The numbers of the rows that were seen, a bit for each.
#[derive(Clone, Copy)]
struct Rows {
    after_stops: u64,
    after_losses: u64,
}

/// The bit of a row.
fn bit_of(row: usize) -> u64 {
    1u64.rotate_left((row % 64) as u32)
}

/// What came of a disturbed verb.
#[derive(Drop)]
struct Came {
    world: World,
    said: Said,
}

/// The words after the first line with this word.
fn rest_of<'l>(lines: &'l [String], wanted: &str) -> Option<&'l str> {
    for line in lines {
        if let Some(rest) = line.as_str().strip_prefix(wanted) {
            return Some(rest.strip_prefix(' ').unwrap_or(rest));
        }
    }
    None
}

/// Whether a file that was not lost may hold this where a verb was cut off.
fn may_be_left(path: &[u8], text: &[u8], before: Option<&[u8]>, after: &[u8], lost: bool) -> bool {
    if !path.contains_str(b"/logs/") {
        return false;
    }
    let is_front = if lost {
        text.len() <= after.len()
    } else {
        after.starts_with(text)
    };
    text.starts_with(before.unwrap_or(b"")) && is_front
}

/// Which changes a loss of power keeps.
fn pick_at(row: u64) -> u64 {
    match row {
        0 => 0,
        1 => u64::MAX,
        _ => 1u64.rotate_left((row.saturating_sub(2) % 64) as u32),
    }
}

/// Whether a run printed that all is done.
fn is_done(said: &Said) -> bool {
    match said.as_slice().first() {
        Some(line) => line.as_slice() == b"done".as_slice(),
        None => true,
    }
}

/// The world that these lines make.
fn world_of(alloc: Global, verbs: &impl Verbs, texts: &Texts, lines: &[String]) -> Result<World> {
    let mut world = World::new(alloc, texts)?;
    for line in lines {
        let line = line.as_str();
        match kind_of(split(line).0) {
            LineKind::Before => world.set(texts, line)?,
            LineKind::Verb(family) => {
                verbs.play(&mut world, texts, family, line)?;
            }
            _ => {}
        }
    }
    Ok(world)
}

impl<'l, V: Verbs> Sweep<'l, V> {
    /// The world before the verb.
    fn world_before(&self) -> Result<World> {
        let lines = self
            .lines
            .get(..self.verb.at)
            .context("the lines before the verb")?;
        world_of(self.alloc, self.verbs, self.texts, lines)
    }

    /// Plays the verb with this plan.
    fn disturbed(&self, plan: Plan) -> Result<Came> {
        let mut world = self.world_before()?;
        world.plan = plan;
        let line = self.lines.get(self.verb.at).context("a verb")?;
        let said = self
            .verbs
            .play(&mut world, self.texts, self.verb.family, line.as_str())?;
        Ok(Came { world, said })
    }

    /// Whether a path is that of a lock that was not there before.
    fn is_new_lock(&self, path: &[u8]) -> bool {
        path.ends_with(b".lock") && self.before.text_at(path).is_none()
    }

    /// Whether a path may hold this text, or nothing.
    fn may_hold(&self, path: &[u8], text: Option<&[u8]>, lost: bool) -> bool {
        let (before, after) = (self.before.text_at(path), self.after.text_at(path));
        if text == before || text == after {
            return true;
        }
        match text {
            Some(_) if self.is_new_lock(path) => true,
            Some(text) => may_be_left(path, text, before, after.unwrap_or(b""), lost),
            None => lost && before.is_none() && path.contains_str(b"/logs/"),
        }
    }

    /// Whether a file may hold this between two transactions.
    fn is_between(&self, path: &[u8], text: Option<&[u8]>) -> Result<bool> {
        for line in self.lines {
            if let Some(rest) = line.as_str().strip_prefix("between ") {
                let (written, held) = split(rest);
                let held = self.texts.text(held)?;
                if path_of(self.alloc, self.texts, written)?.as_slice() == path
                    && text == Some(held.as_slice())
                {
                    return Ok(true);
                }
            }
        }
        Ok(false)
    }

    /// Holds each file to what it may be.
    fn hold_files(&self, tree: &Tree, lost: bool) -> Result<()> {
        let known = self.before.files().iter().chain(self.after.files());
        for file in known.chain(tree.files()) {
            let path = file.path.as_slice();
            let text = tree.text_at(path);
            if !self.may_hold(path, text, lost) && !self.is_between(path, text)? {
                bail!("{} is neither as before nor as after", path.as_bstr())
            }
        }
        Ok(())
    }

    /// What the references read, each in one word with a space before it.
    fn readings(&self, world: &mut World) -> Result<String> {
        let mut words = String::new(self.alloc);
        let names = rest_of(self.lines, "readings").context("a line `readings`")?;
        let mut store = world.open()?;
        for name in names.split(' ') {
            words.push(' ')?;
            words.push_str(reading(self.alloc, &mut store, self.texts, name)?.as_str())?;
        }
        world.files = store.into_files();
        Ok(words)
    }

    /// The number of the row that the references show.
    fn row(&self, world: &mut World) -> Result<usize> {
        let words = self.readings(world)?;
        let mut at = 0usize;
        for line in self.lines {
            if let Some(row) = line.as_str().strip_prefix('|') {
                if self.texts.string(row)?.as_str() == words.as_str() {
                    return Ok(at);
                }
                at = at.saturating_add(1);
            }
        }
        bail!("no row is{words}")
    }

    /// The number of the last row.
    fn last_row(&self) -> usize {
        let mut rows = 0usize;
        for line in self.lines {
            if line.as_str().starts_with("| ") {
                rows = rows.saturating_add(1);
            }
        }
        rows.saturating_sub(1)
    }

    /// Holds the logs of the steps that are done to what they are after the verb.
    fn hold_logs(&self, tree: &Tree, row: usize) -> Result<()> {
        let Some(paths) = rest_of(self.lines, "logs-of") else {
            return Ok(());
        };
        for (step, of_step) in paths.split(' ').enumerate() {
            if step < row && of_step != "-" {
                self.hold_whole(tree, of_step)?;
            }
        }
        Ok(())
    }

    /// Holds the logs of a step to what they are after the verb.
    fn hold_whole(&self, tree: &Tree, of_step: &str) -> Result<()> {
        for written in of_step.split('+') {
            let path = path_of(self.alloc, self.texts, written)?;
            let path = path.as_slice();
            if tree.text_at(path) != self.after.text_at(path) {
                bail!("{written} lacks the line of a step that is done")
            }
        }
        Ok(())
    }

    /// Holds all to what it may be, and returns the number of the row.
    fn hold(&self, world: &mut World, lost: bool) -> Result<usize> {
        let tree = world.tree()?;
        self.hold_files(&tree, lost)?;
        let row = self.row(world)?;
        self.hold_logs(&tree, row)?;
        if !lost {
            self.hold_later(world, &tree)?;
        }
        Ok(row)
    }

    /// Deletes the references of a line `later`, beside the locks that were left.
    fn hold_later(&self, world: &mut World, tree: &Tree) -> Result<()> {
        let Some(names) = rest_of(self.lines, "later") else {
            return Ok(());
        };
        let mut locks = Vec::new(self.alloc);
        for file in tree.files() {
            if self.is_new_lock(file.path.as_slice()) {
                locks.push(file.path.clone()?)?;
            }
        }
        hold_later(world, self.texts, names, locks.as_slice())
    }

    /// Losses of power after this plan, with so many single changes kept; of one that was done, only the last row shows.
    fn losses(&self, plan: Plan, bits: u64, done: bool) -> Result<u64> {
        let mut seen = 0u64;
        for at in 0..bits.saturating_add(2) {
            let mut came = self.disturbed(plan)?;
            came.world
                .files
                .memory
                .lose_power(pick_at(at))
                .ok()
                .context("memory")?;
            let row = self
                .hold(&mut came.world, true)
                .with_context(|| "a loss of power")?;
            if done && row != self.last_row() {
                bail!("a loss of power undid what was done")
            }
            seen |= bit_of(row);
        }
        Ok(seen)
    }

    /// One stop, and losses of power after it; the number of the row.
    fn stop(&self, rows: &mut Rows, call: u64, parts: usize, bits: u64) -> Result<usize> {
        let plan = Plan::Stops(call, parts);
        let mut came = self.disturbed(plan)?;
        let row = self.hold(&mut came.world, false)?;
        if is_done(&came.said) && row != self.last_row() {
            bail!("done, and not all is there")
        }
        rows.after_stops |= bit_of(row);
        rows.after_losses |= self.losses(plan, bits, false)?;
        Ok(row)
    }

    /// Whether stops in this call after one part and after all leave different files.
    fn has_parts(&self, call: u64, all: usize) -> Result<bool> {
        let first = self.disturbed(Plan::Stops(call, 1))?.world.tree()?;
        let last = self.disturbed(Plan::Stops(call, all))?.world.tree()?;
        Ok(first.difference(&last)?.is_some())
    }

    /// Stops in a call after each number of parts up to this one, or after none, one and all where the others leave the same.
    fn stops_up_to(
        &self,
        rows: &mut Rows,
        call: u64,
        all: usize,
        at_least: usize,
    ) -> Result<usize> {
        let mut least = at_least;
        let has_parts = self.has_parts(call, all)?;
        for parts in 0..all.saturating_add(1) {
            let is_edge = parts < 2 || parts == all;
            if has_parts || is_edge {
                let bits = if is_edge { self.bits } else { 7 };
                let row = self.stop(rows, call, parts, bits)?;
                if row < least {
                    bail!("call {call}, {parts} parts: row {row} after row {least}")
                }
                least = row;
            }
        }
        Ok(least)
    }

    /// Stops in a call after each of these numbers of parts.
    fn stops_in(
        &self,
        rows: &mut Rows,
        call: u64,
        numbers: &str,
        at_least: usize,
    ) -> Result<usize> {
        if let Some(all) = numbers.strip_prefix("0-") {
            let all = usize::try_from(number(all)?).context("a number")?;
            return self.stops_up_to(rows, call, all, at_least);
        }
        let mut least = at_least;
        for parts in numbers.split(' ') {
            let parts = usize::try_from(number(parts)?).context("a number")?;
            let row = self.stop(rows, call, parts, self.bits)?;
            if row < least {
                bail!("call {call}, {parts} parts: row {row} after row {least}")
            }
            least = row;
        }
        Ok(least)
    }

    /// Stops in each call, and losses of power after them. Each row shows after some stop, and after some loss.
    fn stops(&self, calls: u64, numbers: &str) -> Result<()> {
        let mut rows = Rows {
            after_stops: 0,
            after_losses: 0,
        };
        let mut least = 0usize;
        for call in 1..calls.saturating_add(1) {
            least = self
                .stops_in(&mut rows, call, numbers, least)
                .with_context(|| "a stop")?;
        }
        for row in 0..self.last_row().saturating_add(1) {
            if rows.after_stops & bit_of(row) == 0 {
                bail!("row {row} shows after no stop")
            }
            if rows.after_losses & bit_of(row) == 0 {
                bail!("row {row} shows after no loss of power")
            }
        }
        Ok(())
    }

    /// Holds what was printed after a fault: which of the outcomes of the case it is.
    fn outcome(&self, said: &Said) -> Result<Option<u64>> {
        let Some(outcome) = said.as_slice().first() else {
            return Ok(None);
        };
        let mut at = 0u64;
        for line in self.lines {
            if let Some(written) = line.as_str().strip_prefix("may ") {
                if outcome
                    .as_slice()
                    .starts_with(self.texts.text(written)?.as_slice())
                {
                    return Ok(Some(at));
                }
                at = at.saturating_add(1);
            }
        }
        if at == 0 || is_done(said) {
            return Ok(None);
        }
        bail!("{}", outcome.as_slice().as_bstr())
    }

    /// Holds all files to those of a tree, except for locks that were not there before.
    fn hold_all(&self, expected: &Tree, tree: &Tree) -> Result<()> {
        for file in expected.files().iter().chain(tree.files()) {
            let path = file.path.as_slice();
            if !self.is_new_lock(path) && tree.text_at(path) != expected.text_at(path) {
                bail!("{} is not as it has to be", path.as_bstr())
            }
        }
        Ok(())
    }

    /// Holds the locks that are there to those that are named.
    fn hold_locks(&self, tree: &Tree, said: &Said) -> Result<()> {
        for file in tree.files() {
            let path = file.path.as_slice();
            if self.is_new_lock(path) {
                let named = format!(in self.alloc; "lock left: {}", path.as_bstr())?;
                let named = named.as_bytes();
                if !said.as_slice().iter().any(|line| line.as_slice() == named) {
                    bail!("{} is left and not named", path.as_bstr())
                }
            }
        }
        Ok(())
    }

    /// One fault, or two; which of the outcomes came, and whether all is done.
    fn fault(&self, plan: Plan) -> Result<(Option<u64>, bool)> {
        let mut came = self.disturbed(plan)?;
        let tree = came.world.tree()?;
        self.hold_locks(&tree, &came.said)?;
        let row = self.hold(&mut came.world, false)?;
        let done = is_done(&came.said);
        if done && row != self.last_row() {
            bail!("done, and not all is there")
        }
        let line = came.said.as_slice().first();
        let is_refused = line.is_some_and(|line| line.as_slice().starts_with(b"refused: "));
        let is_run = rest_of(self.lines, "run").is_some();
        if is_refused && !is_run && row != 0 {
            bail!("refused, and something is edited")
        }
        Ok((self.outcome(&came.said)?, done))
    }

    /// Each two faults in one run: the second is any call that comes after the first.
    fn pairs(&self, start: u64, calls: u64) -> Result<()> {
        for first in 1..calls.saturating_add(1) {
            let came = self.disturbed(Plan::Fails(first))?;
            let all = came.world.files.memory.calls().saturating_sub(start);
            for second in first.saturating_add(1)..all.saturating_add(1) {
                self.fault(Plan::FailsTwice(first, second))
                    .with_context(|| "two faults")?;
            }
        }
        Ok(())
    }

    /// Each fault; each outcome of the case comes.
    fn faults(&self, calls: u64) -> Result<()> {
        let mut seen = 0u64;
        for call in 1..calls.saturating_add(1) {
            let plan = Plan::Fails(call);
            let (outcome, done) = self.fault(plan).with_context(|| "a fault")?;
            self.losses(plan, self.bits, done)?;
            if let Some(at) = outcome {
                seen |= bit_of(at as usize);
            }
        }
        let mut at = 0u32;
        for line in self.lines {
            if line.as_str().starts_with("may ") {
                if seen & bit_of(at as usize) == 0 {
                    bail!("never: {line}")
                }
                at = at.saturating_add(1);
            }
        }
        Ok(())
    }
}

/// Whether a printed line reports a fault.
fn is_fault(line: &[u8]) -> bool {
    line.starts_with(b"fault: ") || line.starts_with(b"refused: ")
}

/// A printed line that is neither a fault nor printed where no read fails.
fn other_line<'s>(said: &'s Said, whole: &Said) -> Option<&'s [u8]> {
    for line in said.as_slice() {
        let line = line.as_slice();
        let is_known = whole
            .as_slice()
            .iter()
            .any(|other| other.as_slice() == line);
        if !is_fault(line) && !is_known && line != b"status 1".as_slice() {
            return Some(line);
        }
    }
    None
}

impl<V: Verbs> Sweep<'_, V> {
    /// Each call of a verb that reads fails, and each read of an open file, of which the last have greater numbers.
    fn reads(&self, calls: u64, whole: &Said) -> Result<()> {
        for call in 1..u64::MAX {
            let came = self.disturbed(Plan::Fails(call))?;
            if call > calls && came.said == *whole {
                return Ok(());
            }
            if let Some(line) = other_line(&came.said, whole) {
                bail!("call {call} fails, and there is {}", line.as_bstr())
            }
            if !came
                .said
                .as_slice()
                .iter()
                .any(|line| is_fault(line.as_slice()))
            {
                bail!("call {call} fails, and no fault is reported")
            }
        }
        Ok(())
    }
}

/// The last verb.
fn last_verb(lines: &[String]) -> Option<LastVerb> {
    let mut found = None;
    for (at, line) in lines.iter().enumerate() {
        if let LineKind::Verb(family) = kind_of(split(line.as_str()).0) {
            found = Some(LastVerb { at, family });
        }
    }
    found
}

/// Whether this is a way in which a verb is disturbed.
fn is_way(word: &str) -> bool {
    matches!(
        word,
        "stop" | "fault" | "pair" | "read" | "loss" | "allocation"
    )
}

/// Holds the lines of what may come of a disturbed verb to a line that begins with `each`, and these to the ways that there are.
pub fn hold_lines(lines: &[String]) -> Result<()> {
    let mut is_disturbed = false;
    let mut of_it = None;
    for line in lines {
        let line = line.as_str();
        let (word, rest) = split(line);
        match kind_of(word) {
            LineKind::Each if !is_way(split(rest).0) => bail!("no such line: {line}"),
            LineKind::Each => is_disturbed = true,
            LineKind::Disturbed => of_it = Some(line),
            _ => {}
        }
    }
    match of_it {
        Some(line) if !is_disturbed => bail!("nothing is disturbed: {line}"),
        _ => Ok(()),
    }
}

/// Disturbs the last verb of a case, if it asks for that.
pub fn sweep_case(
    alloc: Global,
    verbs: &impl Verbs,
    texts: &Texts,
    lines: &[String],
    after: &Tree,
) -> Result<()> {
    let stops = rest_of(lines, "each stop");
    let faults = rest_of(lines, "each fault");
    let pairs = rest_of(lines, "each pair");
    let loss = rest_of(lines, "each loss");
    let reads = rest_of(lines, "each read");
    if stops.is_none() && faults.is_none() && pairs.is_none() && loss.is_none() && reads.is_none() {
        return Ok(());
    }
    let mut sweep = Sweep {
        alloc,
        verbs,
        texts,
        lines,
        verb: last_verb(lines).context("a verb")?,
        before: World::new(alloc, texts)?.tree()?,
        after,
        bits: match loss {
            Some(bits) if !bits.is_empty() => number(bits)?,
            _ => 7,
        },
    };
    sweep.before = sweep.world_before()?.tree()?;
    let start = sweep.world_before()?.files.memory.calls();
    let whole = sweep.disturbed(Plan::Runs)?;
    let calls = whole.world.files.memory.calls().saturating_sub(start);
    if reads.is_some() {
        return sweep.reads(calls, &whole.said);
    }
    if loss.is_some() {
        sweep.losses(Plan::Runs, sweep.bits, true)?;
    }
    if let Some(numbers) = stops {
        sweep.stops(calls, numbers)?;
    }
    if faults.is_some() {
        sweep.faults(calls)?;
    }
    if pairs.is_some() {
        sweep.pairs(start, calls)?;
    }
    Ok(())
}

/// The files after the last verb, as the lines after it say.
fn expected_after(
    alloc: Global,
    texts: &Texts,
    lines: &[String],
    verb: usize,
    mut tree: Tree,
) -> Result<Tree> {
    for line in lines.get(verb..).context("the lines after the verb")? {
        change(alloc, texts, &mut tree, line.as_str())?;
    }
    Ok(tree)
}

/// Whether a run says that there was no memory, and so has changed nothing but locks.
fn lacked_memory(said: &Said) -> bool {
    match said.as_slice().first() {
        Some(line) => {
            let line = line.as_slice();
            line.starts_with(b"refused: ")
                || line.ends_with(b"out of memory")
                || line.ends_with(b"no memory for packed-refs")
        }
        None => false,
    }
}

/// Whether a run reports that there was no memory.
fn reports_memory(said: &Said) -> bool {
    said.as_slice().iter().any(|line| is_fault(line.as_slice())
        && line.as_slice().contains_str(b"memory"))
}

impl<V: Verbs> Sweep<'_, V> {
    /// Whether a verb that reads prints the same once more. Of two runs only one can lack memory, since one allocation is refused: it reports
    /// that, and prints nothing else that the other one does not print.
    fn answers_again(&self, said: &Said) -> Result<bool> {
        let again = self.disturbed(Plan::Runs)?.said;
        if *said == again {
            return Ok(true);
        }
        if !reports_memory(said) && !reports_memory(&again) {
            bail!("two answers, and neither reports a refused allocation")
        }
        if other_line(said, &again).is_some() && other_line(&again, said).is_some() {
            bail!("two answers, of which neither has a part of the other alone")
        }
        Ok(false)
    }
}

/// Plays the last verb of a case, where an allocation may be refused: whether it did all, if the case asks for that. Where it did not,
/// each file is as before or as after it, and as before where it lacked memory. One that reads is played twice.
pub fn hold_refused(
    alloc: Global,
    verbs: &impl Verbs,
    texts: &Texts,
    lines: &[String],
) -> Result<Option<bool>> {
    if rest_of(lines, "each allocation").is_none() {
        return Ok(None);
    }
    let verb = last_verb(lines).context("a verb")?;
    let front = lines.get(..verb.at).context("the lines before the verb")?;
    let before = world_of(alloc, verbs, texts, front)?.tree()?;
    let same = world_of(alloc, verbs, texts, front)?.tree()?;
    let after = expected_after(alloc, texts, lines, verb.at, same)?;
    let sweep = Sweep {
        alloc,
        verbs,
        texts,
        lines,
        verb,
        before,
        after: &after,
        bits: 0,
    };
    let mut came = sweep.disturbed(Plan::Runs)?;
    let tree = came.world.tree()?;
    sweep.hold_files(&tree, false)?;
    sweep.hold_locks(&tree, &came.said)?;
    if matches!(verb.family, Family::Read) {
        return Ok(Some(sweep.answers_again(&came.said)?));
    }
    if is_done(&came.said) {
        sweep.hold_all(&after, &tree)?;
        return Ok(Some(true));
    }
    if lacked_memory(&came.said) {
        sweep.hold_all(&sweep.before, &tree)?;
    }
    Ok(Some(false))
}
