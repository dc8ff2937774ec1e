//! The verbs of names and ids, which look at no file.
//!
//! - `name TEXT`: whether it is a full name or only a partial one, its category and its short name
//! - `full-name CATEGORY SHORT`: the full name of a short one; `linked:W` and `linked-pseudo:W` are of the linked worktree W
//! - `join NAME COMPONENT`, `composed NAME`, `decomposed NAME`: the partial name with a component more; the names in Unicode's forms
//! - `expand NAME`: the text of a namespace; `inside NAMESPACE NAME`, `prefixed NAMESPACE NAME`: the name without it and with it
//! - `place NAME`: the loose file, the log and the packed key of a name
//! - `id TEXT`: whether a text is an id, and of which kind
use anyhow::{Context, Result, bail};
use bstr::ByteSlice;
use case_world::texts::{Texts, split};
use case_world::transactions::{Said, line};
use case_world::world::World;
use gix_ref_hash::hash::{Kind, ObjectId};
use gix_ref_name::name::compose::{compose, decompose};
use gix_ref_name::name::{Category, FullNameRef, PartialNameRef};
use gix_ref_name::namespace::{Namespace, expand};
use gix_ref_target::layout::RefLayout;
use std::alloc::Global;

/// A category in words.
fn category_words(alloc: Global, category: Category<'_>) -> Result<String> {
    Ok(match category {
        Category::Tag => "tag".to_string(alloc)?,
        Category::LocalBranch => "branch".to_string(alloc)?,
        Category::RemoteBranch => "remote".to_string(alloc)?,
        Category::Note => "note".to_string(alloc)?,
        Category::PseudoRef => "pseudo".to_string(alloc)?,
        Category::MainPseudoRef => "main-pseudo".to_string(alloc)?,
        Category::MainRef => "main".to_string(alloc)?,
        Category::LinkedPseudoRef { name } => format!(in alloc;
            "linked-pseudo:{}",
            name.as_bstr()
        )?,
        Category::LinkedRef { name } => format!(in alloc; "linked:{}", name.as_bstr())?,
        Category::Bisect => "bisect".to_string(alloc)?,
        Category::Rewritten => "rewritten".to_string(alloc)?,
        Category::WorktreePrivate => "worktree".to_string(alloc)?,
    })
}

/// The category of these words.
fn category_of(word: &str) -> Result<Category<'_>> {
    if let Some(name) = word.strip_prefix("linked:") {
        return Ok(Category::LinkedRef {
            name: name.as_bytes(),
        });
    }
    if let Some(name) = word.strip_prefix("linked-pseudo:") {
        return Ok(Category::LinkedPseudoRef {
            name: name.as_bytes(),
        });
    }
    Ok(match word {
        "tag" => Category::Tag,
        "branch" => Category::LocalBranch,
        "remote" => Category::RemoteBranch,
        "note" => Category::Note,
        "pseudo" => Category::PseudoRef,
        "main-pseudo" => Category::MainPseudoRef,
        "main" => Category::MainRef,
        "bisect" => Category::Bisect,
        "rewritten" => Category::Rewritten,
        "worktree" => Category::WorktreePrivate,
        _ => bail!("no category {word}"),
    })
}

/// What a text is as a name.
fn name_words(alloc: Global, text: &[u8]) -> Result<Said> {
    if let Err(error) = PartialNameRef::try_from(text) {
        let full = FullNameRef::try_from(text).err();
        if full != Some(error) {
            bail!("another rule of full names is broken first")
        }
        return line(alloc, format!(in alloc; "refused: {error}")?.as_str());
    }
    let name = match FullNameRef::try_from(text) {
        Ok(name) => name,
        Err(error) => return line(alloc, format!(in alloc; "partial: {error}")?.as_str()),
    };
    let words = match name.category_and_short_name() {
        Some((category, short)) => format!(in alloc;
            "full: {}, short {}",
            category_words(alloc, category)?,
            short.as_bstr()
        )?,
        None => format!(in alloc; "full: no category, short {}", name.shorten().as_bstr())?,
    };
    line(alloc, words.as_str())
}

/// The full name of a short one.
fn full_name_words(alloc: Global, word: &str, short: &[u8]) -> Result<Said> {
    match category_of(word)?.to_full_name(alloc, short) {
        Ok(name) => line(alloc, format!(in alloc; "{name}")?.as_str()),
        Err(error) => line(alloc, format!(in alloc; "refused: {error}")?.as_str()),
    }
}

/// The partial name of a text.
fn partial(text: &[u8]) -> Result<PartialNameRef<'_>> {
    Ok(PartialNameRef::try_from(text).context("a partial name")?)
}

/// The full name of a text.
fn full(text: &[u8]) -> Result<FullNameRef<'_>> {
    Ok(FullNameRef::try_from(text).context("a full name")?)
}

/// A name with a component more.
fn joined(alloc: Global, name: &[u8], component: &[u8]) -> Result<Said> {
    match partial(name)?.to_owned(alloc)?.join(alloc, component) {
        Ok(name) => line(alloc, format!(in alloc; "{name}")?.as_str()),
        Err(error) => line(alloc, format!(in alloc; "refused: {error}")?.as_str()),
    }
}

/// A name in composed Unicode.
fn composed(alloc: Global, name: &[u8]) -> Result<Said> {
    match compose(alloc, partial(name)?)? {
        Some(name) => line(alloc, format!(in alloc; "{name}")?.as_str()),
        None => line(alloc, "as it is"),
    }
}

/// A name without its namespace.
fn inside(alloc: Global, namespace: &Namespace, name: &[u8]) -> Result<Said> {
    let name = full(name)?;
    let mut owned = name.to_owned(alloc)?;
    owned.strip_namespace(namespace);
    match name.without_namespace(namespace) {
        Some(rest) => {
            if owned.as_ref() != rest {
                bail!("stripped, it is {owned}")
            }
            line(alloc, format!(in alloc; "{rest}")?.as_str())
        }
        None => {
            if owned.as_ref() != name {
                bail!("stripped, it is {owned}")
            }
            line(alloc, "outside")
        }
    }
}

/// A name in a namespace, where it is put once only.
fn prefixed(alloc: Global, namespace: &Namespace, name: &[u8]) -> Result<Said> {
    let mut name = full(name)?.to_owned(alloc)?;
    name.prefix_namespace(alloc, namespace)?;
    line(alloc, format!(in alloc; "{name}")?.as_str())
}

/// Where a name is kept.
fn places(world: &World, name: &[u8]) -> Result<Said> {
    let alloc = world.alloc;
    let name = full(name)?;
    let namespace = world.namespace()?;
    let layout = RefLayout {
        git_dir: world.git_dir(),
        common_dir: b"/r",
        namespace: match &namespace {
            Some(namespace) => namespace.to_path(),
            None => b"",
        },
    };
    let loose = layout.loose(alloc, name)?;
    let mut said = line(
        alloc,
        format!(in alloc; "file {}", loose.as_slice().as_bstr())?.as_str(),
    )?;
    let log = layout.log(alloc, name)?;
    let text = format!(in alloc; "log {}", log.as_slice().as_bstr())?;
    said.push(text.as_bytes().to_vec(alloc)?)?;
    if let Some(key) = layout.packed_key(alloc, name)? {
        let text = format!(in alloc; "key {}", key.as_slice().as_bstr())?;
        said.push(text.as_bytes().to_vec(alloc)?)?;
    }
    Ok(said)
}

/// What a text is as an id.
fn id_words(alloc: Global, text: &[u8]) -> Result<Said> {
    match ObjectId::from_hex(text) {
        Some(id) => {
            let kind = match id.kind() {
                Kind::Sha1 => "SHA-1",
                Kind::Sha256 => "SHA-256",
            };
            line(alloc, format!(in alloc; "{kind} {id}")?.as_str())
        }
        None => line(alloc, "no id"),
    }
}

/// Plays a verb of two texts.
fn of_two(alloc: Global, word: &str, first: &[u8], second: &[u8]) -> Result<Said> {
    if word == "join" {
        return joined(alloc, first, second);
    }
    let namespace = expand(alloc, partial(first)?)?;
    if word == "inside" {
        inside(alloc, &namespace, second)
    } else {
        prefixed(alloc, &namespace, second)
    }
}

/// Plays a verb of names.
pub fn name_verb(world: &World, texts: &Texts, word: &str, rest: &str) -> Result<Said> {
    let alloc = world.alloc;
    let (first, second) = split(rest);
    match word {
        "name" => name_words(alloc, texts.text(rest)?.as_slice()),
        "full-name" => full_name_words(alloc, first, texts.text(second)?.as_slice()),
        "join" | "inside" | "prefixed" => of_two(
            alloc,
            word,
            texts.text(first)?.as_slice(),
            texts.text(second)?.as_slice(),
        ),
        "composed" => composed(alloc, texts.text(rest)?.as_slice()),
        "decomposed" => {
            let text = texts.text(rest)?;
            let name = decompose(alloc, full(text.as_slice())?.to_owned(alloc)?)?;
            line(alloc, format!(in alloc; "{name}")?.as_str())
        }
        "expand" => {
            let text = texts.text(rest)?;
            let namespace = expand(alloc, partial(text.as_slice())?)?;
            line(
                alloc,
                format!(in alloc; "{}", namespace.to_path().as_bstr())?.as_str(),
            )
        }
        "place" => places(world, texts.text(rest)?.as_slice()),
        _ => id_words(alloc, texts.text(rest)?.as_slice()),
    }
}
