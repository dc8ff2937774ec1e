//! A case: what is there, verbs, and what has to come of each.
//!
//! After a verb:
//! - `> TEXT`: the next line that it prints; it prints no others
//! - `then PATH TEXT`, `gone PATH`: a file that it changed or made, and one that it removed; all other files are as before
//! - `has-folder PATH`, `no-folder PATH`: a folder is there, or is not; which folders are left is not compared else
//! - `calls N`: so many calls of files
//! - `lose N`: power is lost, and the unsynced changes of the bits of N are kept
//!
//! After all verbs, what may come of the last one if it is disturbed: `sweep` has these lines.
use crate::sweep;
use anyhow::{Context, Result, bail};
use case_world::lines::{Family, LineKind, Verbs, kind_of};
use case_world::texts::{Texts, number, shown, split};
use case_world::transactions::Said;
use case_world::tree::Tree;
use case_world::world::{World, path_of};
use gix_ref_files::files::{Files, Node};
use std::alloc::Global;

/// Makes the change of files that a line says.
pub fn change(alloc: Global, texts: &Texts, tree: &mut Tree, line: &str) -> Result<()> {
    let (word, rest) = split(line);
    let (written, text) = split(rest);
    let path = path_of(alloc, texts, written)?;
    match word {
        "then" => tree.put(path, texts.text(text)?),
        "gone" => {
            tree.remove(path.as_slice());
            Ok(())
        }
        _ => Ok(()),
    }
}

/// A case as far as it is played.
#[derive(Drop)]
struct Course {
    world: World,
    /// What the last verb printed, and how many lines of it were compared.
    said: Said,
    heard: usize,
    /// The files that are to be there.
    expected: Tree,
    calls: u64,
}

impl Course {
    fn new(alloc: Global, texts: &Texts) -> Result<Course> {
        let mut world = World::new(alloc, texts)?;
        Ok(Course {
            expected: world.tree()?,
            world,
            said: Vec::new(alloc),
            heard: 0,
            calls: 0,
        })
    }

    /// Compares the next line that the verb printed.
    fn hear(&mut self, text: &[u8]) -> Result<()> {
        let alloc = self.world.alloc;
        let Some(said) = self.said.as_slice().get(self.heard) else {
            bail!("expected {}\n  came     nothing", shown(alloc, text)?)
        };
        if said.as_slice() != text {
            bail!(
                "expected {}\n  came     {}",
                shown(alloc, text)?,
                shown(alloc, said.as_slice())?
            )
        }
        self.heard = self.heard.saturating_add(1);
        Ok(())
    }

    /// What is at a path.
    fn is_folder(&mut self, path: &[u8]) -> Result<bool> {
        self.world.files.restart();
        let node = self.world.files.kind(path).ok().context("memory")?;
        Ok(node == Node::Folder)
    }

    /// Compares what a line says after a verb.
    fn after(&mut self, texts: &Texts, line: &str) -> Result<()> {
        let alloc = self.world.alloc;
        let (word, rest) = split(line);
        match word {
            ">" => self.hear(texts.text(rest)?.as_slice()),
            "then" | "gone" => change(alloc, texts, &mut self.expected, line),
            "calls" if self.calls != number(rest)? => bail!("{} calls", self.calls),
            "calls" => Ok(()),
            "lose" => {
                let lost = self.world.files.memory.lose_power(number(rest)?);
                lost.ok().context("memory")
            }
            _ => {
                let path = path_of(alloc, texts, rest)?;
                if self.is_folder(path.as_slice())? != (word == "has-folder") {
                    bail!("not so: {line}")
                }
                Ok(())
            }
        }
    }

    /// Holds what came of the last verb to what was said of it: no line more, and no other file.
    fn finish(&mut self) -> Result<()> {
        let alloc = self.world.alloc;
        if let Some(line) = self.said.as_slice().get(self.heard) {
            bail!(
                "expected no more\n  came     {}",
                shown(alloc, line.as_slice())?
            )
        }
        let tree = self.world.tree()?;
        if let Some(difference) = self.expected.difference(&tree)? {
            bail!("{difference}")
        }
        Ok(())
    }

    /// Plays a verb.
    fn verb(
        &mut self,
        verbs: &impl Verbs,
        texts: &Texts,
        family: Family,
        line: &str,
    ) -> Result<()> {
        let before = self.world.files.memory.calls();
        self.said = verbs.play(&mut self.world, texts, family, line)?;
        self.heard = 0;
        self.calls = self.world.files.memory.calls().saturating_sub(before);
        Ok(())
    }
}

/// Plays the lines of a case, and compares.
fn judge(alloc: Global, verbs: &impl Verbs, texts: &Texts, lines: &[String]) -> Result<()> {
    sweep::hold_lines(lines)?;
    let mut course = Course::new(alloc, texts)?;
    let mut is_verb_before = false;
    for line in lines {
        let line = line.as_str();
        match kind_of(split(line).0) {
            LineKind::Before => {
                if is_verb_before {
                    course.finish()?;
                    is_verb_before = false;
                }
                course.world.set(texts, line)?;
            }
            LineKind::Verb(family) => {
                if is_verb_before {
                    course.finish()?;
                } else {
                    course.expected = course.world.tree()?;
                }
                course.verb(verbs, texts, family, line)?;
                is_verb_before = true;
            }
            LineKind::After => course.after(texts, line)?,
            LineKind::Title | LineKind::Name | LineKind::Each | LineKind::Disturbed => {}
        }
    }
    course.finish()?;
    sweep::sweep_case(alloc, verbs, texts, lines, &course.expected)
}

/// How a block of lines begins.
#[derive(Clone, Copy)]
enum Head<'l> {
    /// It only names texts.
    Names,
    /// It is a case of this title.
    Titled(&'l str),
    /// It is a case without a title, or with two, and this line is the first that must not be there.
    Wrong(&'l str),
}

/// The head of a block, one line further.
fn head_after<'l>(head: Head<'l>, line: &'l str) -> Head<'l> {
    let (word, rest) = split(line);
    match (head, kind_of(word)) {
        (Head::Wrong(_), _) | (_, LineKind::Name) => head,
        (Head::Names, LineKind::Title) if !rest.is_empty() => Head::Titled(rest),
        (Head::Names, _) | (Head::Titled(_), LineKind::Title) => Head::Wrong(line),
        (Head::Titled(_), _) => head,
    }
}

/// The head of a block of lines, after its texts have their names.
fn head_of<'l>(texts: &mut Texts, lines: &'l [String]) -> Result<Head<'l>> {
    let mut head = Head::Names;
    for line in lines {
        let line = line.as_str();
        let (word, rest) = split(line);
        match word {
            "let" => texts.name(rest)?,
            "repeat" => texts.repeat(rest)?,
            _ => {}
        }
        head = head_after(head, line);
    }
    Ok(head)
}

/// Plays the last verb of a case that asks for refused allocations, where one may be refused: whether all was done, if it asks.
pub fn judge_refused(
    alloc: Global,
    verbs: &impl Verbs,
    texts: &mut Texts,
    lines: &[String],
) -> Result<Option<bool>> {
    match head_of(texts, lines)? {
        Head::Titled(_) => sweep::hold_refused(alloc, verbs, texts, lines),
        Head::Names | Head::Wrong(_) => Ok(None),
    }
}

/// What came of a case.
#[derive(Drop)]
pub enum Verdict {
    /// The lines are no case: they only name texts.
    None,
    Right,
    /// Its title, what was expected and what came.
    Wrong(String),
}

/// Plays a case.
pub fn verdict_on(
    alloc: Global,
    verbs: &impl Verbs,
    texts: &mut Texts,
    lines: &[String],
) -> Result<Verdict> {
    let title = match head_of(texts, lines)? {
        Head::Names => return Ok(Verdict::None),
        Head::Titled(title) => title,
        Head::Wrong(line) => {
            let said = format!(in alloc; "a block with no title or with two\n  at       {line}")?;
            return Ok(Verdict::Wrong(said));
        }
    };
    Ok(match judge(alloc, verbs, texts, lines) {
        Ok(()) => Verdict::Right,
        Err(error) => Verdict::Wrong(format!(in alloc; "{title}\n  {error:#}")?),
    })
}
