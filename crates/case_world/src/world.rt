//! What is there before: files, the store, the committer, objects, and the edits of the next transaction.
//!
//! A path is below the git folder `/r`, or begins with a slash.
//!
//! - `file PATH [TEXT]`, `folder PATH`: a file, a folder
//! - `worktree PATH`, `namespace NAME`, `sha256`, `logs normal`, `logs always`, `logs never`, `precompose`, `no-device-names`: of the store
//! - `packs updates`, `packs updates-alone`, `packs deletions`: what the next transactions do with `packed-refs`: the objects of updates go
//!   into it, without their loose files too, or deletions alone change it, as where no line says it
//! - `committer NAME|EMAIL|OFFSET`, at 1234 seconds, with the offset in seconds; `committer none`. Before such a line it is
//!   `C <c@example.com> 1234 +0800`
//! - `fails N`, `stops N PARTS`: of the next verb the call of files of this number fails; or the process stops in it, after so many
//!   bytes of an append, or else before it (0) or after it
use crate::edits;
use crate::objects::Objects;
use crate::texts::{Texts, number, split};
use crate::tree::Tree;
use crate::twice::Twice;
use anyhow::{Context, Result, bail};
use gix_ref_edits::transaction::RefEdit;
use gix_ref_files::files::Files;
use gix_ref_hash::hash::Kind;
use gix_ref_log::actor::{SignatureRef, Time};
use gix_ref_name::name::PartialNameRef;
use gix_ref_name::namespace::{Namespace, expand};
use gix_ref_object::object::Never;
use gix_ref_store::file::Store;
use gix_ref_store::file::transaction::PackedRefs;
use gix_ref_store::store::{Options, WriteReflog};
use gix_ref_transaction::packing::Packing;
use std::alloc::Global;
use std::mem;

/// Who commits.
#[derive(Drop)]
pub struct Committer {
    name: Vec<u8>,
    email: Vec<u8>,
    time: Time,
}

/// How the store is opened.
#[derive(Drop)]
struct Settings {
    worktree: Vec<u8>,
    namespace: Vec<u8>,
    object_hash: Kind,
    options: Options,
}

/// What befalls the next verb.
#[derive(Clone, Copy)]
pub enum Plan {
    /// Nothing.
    Runs,
    /// The call of files of this number fails.
    Fails(u64),
    /// The calls of both numbers fail, of which the first is the lesser.
    FailsTwice(u64, u64),
    /// The process stops in the call of this number, after so many parts.
    Stops(u64, usize),
}

/// All that a verb works on.
#[derive(Drop)]
pub struct World {
    pub alloc: Global,
    pub files: Twice,
    pub plan: Plan,
    settings: Settings,
    committer: Option<Committer>,
    pub edits: Vec<RefEdit>,
    pub objects: Objects,
    packing: Packing,
}

/// A path of a case.
pub fn path_of(alloc: Global, texts: &Texts, word: &str) -> Result<Vec<u8>> {
    let text = texts.text(word)?;
    if text.as_slice().starts_with(b"/") {
        return Ok(text);
    }
    let mut path = b"/r/".to_vec(alloc)?;
    path.extend_from_slice(text.as_slice())?;
    Ok(path)
}

/// The committer `NAME|EMAIL|OFFSET`.
fn committer_of(texts: &Texts, line: &str) -> Result<Option<Committer>> {
    if line == "none" {
        return Ok(None);
    }
    let (name, rest) = line.split_once('|').context("a name")?;
    let (email, offset) = rest.split_once('|').context("an email")?;
    Ok(Some(Committer {
        name: texts.text(name)?,
        email: texts.text(email)?,
        time: Time {
            seconds: 1234,
            offset: offset.parse::<i32>().context("an offset in seconds")?,
        },
    }))
}

impl World {
    /// Nothing, and a store in `/r`.
    pub fn new(alloc: Global, texts: &Texts) -> Result<World> {
        Ok(World {
            alloc,
            files: Twice::new(alloc),
            plan: Plan::Runs,
            settings: Settings {
                worktree: Vec::new(alloc),
                namespace: Vec::new(alloc),
                object_hash: Kind::Sha1,
                options: Options::default(),
            },
            committer: committer_of(texts, "C|c@example.com|28800")?,
            edits: Vec::new(alloc),
            objects: Objects::new(alloc),
            packing: Packing::Deletions,
        })
    }

    /// The signature of the committer.
    pub fn signature(&self) -> Option<SignatureRef<'_>> {
        let committer = self.committer.as_ref()?;
        Some(SignatureRef {
            name: committer.name.as_slice(),
            email: committer.email.as_slice(),
            time: committer.time,
        })
    }

    /// The store over the files, which are handed back by `close`.
    pub fn open(&mut self) -> Result<Store<Twice>> {
        let alloc = self.alloc;
        let files = mem::replace(&mut self.files, Twice::new(alloc));
        let common = b"/r".to_vec(alloc)?;
        let namespace = self.namespace()?;
        let Settings {
            worktree,
            object_hash,
            options,
            ..
        } = &self.settings;
        let made = if worktree.is_empty() {
            Store::at_opts(files, common, *object_hash, *options)
        } else {
            let git_dir = worktree.as_slice().to_vec(alloc)?;
            Store::for_linked_worktree_opts(files, git_dir, common, *object_hash, *options)
        };
        let mut store = made.ok().context("a store")?;
        store.namespace = namespace;
        Ok(store)
    }

    /// The namespace, if there is one.
    pub fn namespace(&self) -> Result<Option<Namespace>> {
        let text = self.settings.namespace.as_slice();
        if text.is_empty() {
            return Ok(None);
        }
        let name = PartialNameRef::try_from(text).context("a namespace")?;
        Ok(Some(expand(self.alloc, name)?))
    }

    /// The git folder.
    pub fn git_dir(&self) -> &[u8] {
        if self.settings.worktree.is_empty() {
            return b"/r";
        }
        self.settings.worktree.as_slice()
    }

    /// The kind of ids.
    pub fn object_hash(&self) -> Kind {
        self.settings.object_hash
    }

    /// Takes the edits.
    pub fn take_edits(&mut self) -> Vec<RefEdit> {
        let alloc = self.alloc;
        mem::replace(&mut self.edits, Vec::new(alloc))
    }

    /// The mode of a transaction, which takes the objects along where it needs them.
    pub fn take_mode(&mut self) -> PackedRefs<Objects> {
        if self.packing == Packing::Deletions {
            return PackedRefs::DeletionsOnly;
        }
        let objects = mem::replace(&mut self.objects, Objects::new(self.alloc));
        if self.packing == Packing::Updates {
            PackedRefs::DeletionsAndNonSymbolicUpdates(objects)
        } else {
            PackedRefs::DeletionsAndNonSymbolicUpdatesRemoveLooseSourceReference(objects)
        }
    }

    /// Takes the objects back out of the mode that a transaction hands back.
    pub fn put_back(&mut self, mode: PackedRefs<Objects>) -> Result<()> {
        if mode.packing() != self.packing {
            bail!("another mode is handed back")
        }
        match mode {
            PackedRefs::DeletionsOnly => {}
            PackedRefs::DeletionsAndNonSymbolicUpdates(objects)
            | PackedRefs::DeletionsAndNonSymbolicUpdatesRemoveLooseSourceReference(objects) => {
                self.objects = objects;
            }
        }
        Ok(())
    }

    /// The mode of a transaction, with a finder that finds no object.
    pub fn mode_without_objects(&self) -> PackedRefs {
        match self.packing {
            Packing::Deletions => PackedRefs::DeletionsOnly,
            Packing::Updates => PackedRefs::DeletionsAndNonSymbolicUpdates(Never),
            Packing::UpdatesAlone => {
                PackedRefs::DeletionsAndNonSymbolicUpdatesRemoveLooseSourceReference(Never)
            }
        }
    }

    /// Fails where updates are to be packed: a verb of this name has no mode.
    pub fn hold_no_mode(&self, word: &str) -> Result<()> {
        if self.packing != Packing::Deletions {
            bail!("{word} packs no updates")
        }
        Ok(())
    }

    /// Sets what the next transactions do with `packed-refs`.
    fn set_packing(&mut self, word: &str) -> Result<()> {
        self.packing = match word {
            "deletions" => Packing::Deletions,
            "updates" => Packing::Updates,
            "updates-alone" => Packing::UpdatesAlone,
            _ => bail!("packs {word}"),
        };
        Ok(())
    }

    /// A setting of the store.
    fn set_store(&mut self, texts: &Texts, word: &str, rest: &str) -> Result<()> {
        match word {
            "worktree" => self.settings.worktree = path_of(self.alloc, texts, rest)?,
            "namespace" => self.settings.namespace = texts.text(rest)?,
            "sha256" => self.settings.object_hash = Kind::Sha256,
            "precompose" => self.settings.options.precompose_unicode = true,
            "no-device-names" => self.settings.options.prohibit_windows_device_names = true,
            "logs" => {
                self.settings.options.write_reflog = match rest {
                    "always" => WriteReflog::Always,
                    "never" => WriteReflog::Disable,
                    "normal" => WriteReflog::Normal,
                    _ => bail!("logs {rest}"),
                };
            }
            _ => bail!("no such line: {word} {rest}"),
        }
        Ok(())
    }

    /// A file or a folder.
    fn put(&mut self, texts: &Texts, word: &str, rest: &str) -> Result<()> {
        let (path, text) = split(rest);
        let path = path_of(self.alloc, texts, path)?;
        let is_put = if word == "file" {
            self.files
                .memory
                .put(path.as_slice(), texts.text(text)?.as_slice())
        } else {
            self.files.make_folders(path.as_slice())
        };
        if !is_put.ok().context("memory")? {
            bail!("{rest} cannot be there")
        }
        Ok(())
    }

    /// All files.
    pub fn tree(&mut self) -> Result<Tree> {
        Tree::of(self.alloc, &mut self.files)
    }

    /// Plans what befalls the next verb.
    fn set_plan(&mut self, word: &str, rest: &str) -> Result<()> {
        let (call, parts) = split(rest);
        let call = number(call)?;
        self.plan = if word == "fails" {
            Plan::Fails(call)
        } else {
            Plan::Stops(call, usize::try_from(number(parts)?).context("a number")?)
        };
        Ok(())
    }

    /// Has the files do as planned, for one verb.
    pub fn begin(&mut self) {
        self.files.restart();
        match self.plan {
            Plan::Runs => {}
            Plan::Fails(call) => self.files.memory.fail_at(call),
            Plan::FailsTwice(call, second) => {
                self.files.second = self.files.memory.calls().saturating_add(second);
                self.files.memory.fail_at(call);
            }
            Plan::Stops(call, parts) => self.files.memory.stop_at(call, parts),
        }
        self.plan = Plan::Runs;
    }

    /// Sets what a line says.
    pub fn set(&mut self, texts: &Texts, line: &str) -> Result<()> {
        let (word, rest) = split(line);
        match word {
            "file" | "folder" => self.put(texts, word, rest),
            "fails" | "stops" => self.set_plan(word, rest),
            "update" => Ok(self.edits.push(edits::update(self.alloc, texts, rest)?)?),
            "delete" => Ok(self.edits.push(edits::deletion(self.alloc, texts, rest)?)?),
            "object" => self.objects.add(texts, rest),
            "tags" => self.objects.set_tags(rest),
            "packs" => self.set_packing(rest),
            "committer" => {
                self.committer = committer_of(texts, rest)?;
                Ok(())
            }
            _ => self.set_store(texts, word, rest),
        }
    }
}
