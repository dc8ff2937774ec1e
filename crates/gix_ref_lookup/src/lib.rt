//! What a name of a store reads: the folders of a store, loose files, records of `packed-refs`, lookups, and whether a name has a
//! reflog and its bytes (`git reflog`).
//!
//! # What is proved
//!
//! - the bytes of a loose file hold a target exactly where they are one of the two forms; a written text decodes to its target:
//!   `loose::Reference::try_from_path`, `laws::loose_texts_are_read`
//! - which folders are clean, and which two may belong to one store: `folders::is_clean_path`, `dirs_are_compatible`
//! - the place, the key and the path of `packed-refs` of a name are those of the table; which places have the name of a device:
//!   `settings::Settings`
//! - `packed-refs` is opened when it is first asked, as the records of its text; a refused open has its reason in the file:
//!   `find::records::Records::open`, `find`
//! - a candidate is its loose file, less the namespace, or else the record of its key, which is asked for as a name:
//!   `find::lookup::Lookup::find_candidate`, `settings::Settings::key_name`, `key_is_name`
//! - where `packed-refs` is well formed or missing, a lookup returns the first candidate that exists, with its name, its target and its
//!   peeled id, or else the `HEAD` of a remote as a loose file, or `None` where none exists. Where names are composed and records are
//!   asked, the candidates are those of the composed name, and where that is another name, the name that is given is the decomposed one:
//!   `find::lookup::Lookup::find_reference`, clause `found`
//! - there an error is a fault of files, an undecodable loose file, the name of a device, or no memory: the same, clause `found`
//! - on any text: what is found is the loose file of a name that is asked for, or it has none and this is a record of its key that begins a
//!   line. Where nothing is found, no name that is asked for has a loose file, and no record was found: the same, clause `seen`
//! - a lookup fails at one of its candidates; where `packed-refs` is well formed or missing, those before it read nothing. Its loose file
//!   could not be read, with its fault counted, or has the name of a device, or holds no target, with the reason. Or it has no loose file,
//!   and `packed-refs` was refused for a reason of the file, or could not be searched. Or there was no memory: the same, clause `failed`
//! - nothing changes, the disk too, and a lookup that succeeds counts no fault; the records that are asked stay the same: the same, clauses
//!   `leaves`, `failed`
//! - a name has a log exactly where a file is at the path of its log, in honest files; its bytes, its reader. A path with the name of a
//!   device is refused where these are prohibited, and a fault of files is counted: `reflog::log_exists`, `read_log`, `open_log`
#![tactic(auto)]

pub mod find;
pub mod folders;
pub mod laws;
pub mod layout;
pub mod loose;
pub mod reflog;
pub mod settings;
