//! Every verb, by its family.
use crate::formats::format_verb;
use crate::locks::lock_verb;
use crate::names::name_verb;
use crate::read_back::{make_and_read, transact_packed};
use crate::reads::read;
use anyhow::Result;
use case_world::lines::{Family, Verbs};
use case_world::texts::{Texts, split};
use case_world::transactions::{Said, run_words, transact};
use case_world::world::World;

/// Plays all verbs.
#[derive(Clone, Copy)]
pub struct AllVerbs;

impl Verbs for AllVerbs {
    fn play(&self, world: &mut World, texts: &Texts, family: Family, line: &str) -> Result<Said> {
        let (word, rest) = split(line);
        world.begin();
        match family {
            Family::Transaction => transact(world, word, rest),
            Family::Run => run_words(world, texts, rest),
            Family::Make => make_and_read(world, texts, word, rest),
            Family::PackedTransaction => transact_packed(world, word),
            Family::Name => name_verb(world, texts, word, rest),
            Family::Format => format_verb(world, texts, word, rest),
            Family::Read => read(world, texts, word, rest),
            Family::Lock => lock_verb(world, word),
        }
    }
}
