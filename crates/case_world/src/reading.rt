//! What a reference reads.
use crate::edits::target_word;
use crate::texts::Texts;
use crate::twice::Twice;
use anyhow::{Context, Result};
use gix_ref_name::name::PartialNameRef;
use gix_ref_store::file::Store;
use std::alloc::Global;

/// The target of a reference in one word: `absent` where it does not exist, `fault` where it cannot be read.
pub fn reading(
    alloc: Global,
    store: &mut Store<Twice>,
    texts: &Texts,
    name: &str,
) -> Result<String> {
    let text = texts.text(name)?;
    let name = PartialNameRef::try_from(text.as_slice()).context("a name")?;
    match store.try_find(alloc, name) {
        Ok(Some(reference)) => target_word(alloc, &reference.target),
        Ok(None) => Ok("absent".to_string(alloc)?),
        Err(_) => Ok("fault".to_string(alloc)?),
    }
}
