//! What the program `refs-session` does: transactions that commands on its input begin, prepare and commit, with an answer to each
//! (`git update-ref --stdin`).
//!
//! # What is proved
//!
//! - the commands that the bytes of an input spell, and that a text is refused only where it is none: `command::parse`
//!   (`Commands.antt`, `Input.antt`, `Quotes.antt`)
//! - the edit of each command (`Edits.antt`), and the reference that it is made of, by what lookups find (`Leading.antt`)
//! - that edits are refused where the name of a reference that they make is in the way of another, and only there. Over a damaged
//!   `packed-refs` that is said by what each lookup and each listing saw (`IsClash`, `AreClear` in `Clashes.antt`)
//! - transactions one after the other, with an answer to each command; `commit: ok` after a commit that was done, and only then, unless
//!   the writer fails. What is committed at the end of the input is not answered: `session::serve`, `run::run` (`Serves` in
//!   `Sessions.antt`, `Runs.antt`)
//! - what each stop leaves, and each loss of power where the store was at rest and `packed-refs` was well formed or missing: the same,
//!   clauses `leaves`, `lost`
//! - that the lock of another is given up on only after a try for each millisecond that is given (`Waiting.antt`)
//! - what the words of the program mean: `words::parse` (`Words.antt`)
#![tactic(auto)]

mod clash;
pub mod command;
mod edit;
pub mod fatal;
mod gather;
pub mod input;
mod lead;
mod named;
mod quote;
pub mod run;
pub mod session;
mod try_once;
pub mod words;
