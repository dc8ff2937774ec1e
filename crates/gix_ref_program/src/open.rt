//! The store that words name, and words as bytes.
ghost use Rattle.std.specs.Prelude.{◌≡◌, IfOk, MatchResult};
ghost use Rattle.gix_ref_lookup.specs.StoreLayout.{namespace_text};
ghost use Rattle.gix_ref_program.specs.Runs.{IsAt, IsBadFolder, IsStoreOf, NoNamespace, NoStore, namespace_of, write_reflog_of};
ghost use Rattle.gix_ref_program.specs.Words.{string_texts, text_given, texts, who_given};

use crate::refusal::Refusal;
use gix_ref_hash::hash::Kind;
use gix_ref_log::actor::SignatureRef;
use gix_ref_name::name::PartialNameRef;
use gix_ref_name::namespace::{Namespace, expand};
use gix_ref_store::file::{Store, store};
use gix_ref_store::store::{Options, WriteReflog};
use std::alloc::{AllocError, Global};

/// The namespace that a NAME expands to, if there is one.
fn expanded(alloc: Global, name: Option<&[u8]>) -> Result<Option<Namespace>, Refusal>
    ensures { MatchResult result (λ n. namespace_text n ≡ namespace_of (text_given name.entry))
        (NoNamespace (text_given name.entry)) }
{
    let Some(name) = name else {
        return Ok(None);
    };
    match PartialNameRef::try_from(name) {
        Ok(name) => match expand(alloc, name) {
            Ok(namespace) => Ok(Some(namespace)),
            Err(_) => Err(Refusal::Memory),
        },
        Err(error) => Err(Refusal::Name(error)),
    }
}

/// Log lines are written where there is a committer.
fn write_reflog_for(committer: Option<SignatureRef<'_>>) -> WriteReflog
    ensures { result ≡ write_reflog_of (who_given committer.entry) }
{
    match committer {
        Some(_) => WriteReflog::Normal,
        None => WriteReflog::Disable,
    }
}

/// The store of a folder. A refusal hands the files back.
fn store_at<F>(
    alloc: Global,
    files: F,
    dir: &[u8],
    kind: Kind,
    write_reflog: WriteReflog,
) -> Result<Store<F>, (F, Refusal)>
    ensures { MatchResult result (IsAt files dir.now kind write_reflog)
        (λ r. (r.0 ≡ files) × IsBadFolder dir.now r.1) }
{
    let Ok(git_dir) = dir.to_vec(alloc) else {
        return Err((files, Refusal::Memory));
    };
    let options = Options {
        write_reflog,
        precompose_unicode: false,
        prohibit_windows_device_names: false,
    };
    match Store::at_opts(files, git_dir, kind, options) {
        Ok(store) => Ok(store),
        Err(store::Error::PathNotClean { files }) => Err((files, Refusal::PathNotClean)),
        // The git folder is the common folder too.
        Err(store::Error::FoldersMeet { .. }) => unreachable!(),
    }
}

/// The store of a folder, in the namespace that a NAME expands to, if there is one (`git help gitnamespaces`). It writes log lines, where
/// git does by default, where there is a committer. A refusal hands the files back: the folder is not a clean path, the NAME breaks a
/// rule of names, or there was no memory.
pub fn open_store<F>(
    alloc: Global,
    files: F,
    dir: &[u8],
    kind: Kind,
    namespace: Option<&[u8]>,
    committer: Option<SignatureRef<'_>>,
) -> Result<Store<F>, (F, Refusal)>
    ensures { MatchResult result (IsStoreOf files dir.now kind (text_given namespace.entry)
        (who_given committer.entry))
        (λ r. (r.0 ≡ files) × NoStore dir.now (text_given namespace.entry) r.1) }
{
    let write_reflog = write_reflog_for(committer);
    let mut store = store_at(alloc, files, dir, kind, write_reflog)?;
    match expanded(alloc, namespace) {
        Ok(namespace) => {
            store.namespace = namespace;
            Ok(store)
        }
        Err(refusal) => Err((store.into_files(), refusal)),
    }
}

/// The words, as bytes. The error reports that there was no memory.
pub fn lent_words(alloc: Global, words: &[String]) -> Result<Vec<&[u8]>, AllocError>
    ensures { IfOk result (λ lent. texts lent.items ≡ string_texts words.now) }
{
    let mut lent = Vec::with_capacity(alloc, words.len())?;
    for word in words {
        lent.push(word.as_bytes())?;
    }
    Ok(lent)
}
