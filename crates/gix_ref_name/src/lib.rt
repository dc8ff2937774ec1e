//! Names of references: their rules, categories and candidates, the names of Windows devices, and namespaces.
//!
//! # What is proved
//!
//! - a text becomes a name exactly where it breaks no rule, and else the first broken rule is reported: `TryFrom` of
//!   `FullNameRef`, `PartialNameRef`, `FullName`, `PartialName`
//! - every value of these types holds at least a valid partial name: the types' own facts, stated by `to_path` and
//!   `to_partial_path`
//! - a name has one category and one short name, those of the table; `to_full_name` gives the name back except for one stated
//!   case: `FullNameRef::category_and_short_name`, `category`, `shorten`, `Category::to_full_name`
//! - the last component; joining checks the whole: `FullNameRef::file_name`, `PartialName::join`
//! - what a partial name may be short for, in the order of a lookup; each is a full name; the `HEAD` of a remote:
//!   `name::candidates::lookup_prefixes`, `with_prefix`, `remote_head`
//! - which components of a path are devices on Windows: `name::device::is_device_name`, `has_device_name`
//! - the composed and the decomposed form of a name; a name is left where it is not UTF-8 or its form is no name:
//!   `name::compose::compose`, `decompose`
//! - what a name expands to; a namespace begins with `refs/namespaces/`, ends with a slash, and a valid name after it is valid:
//!   `expand`, `Namespace::to_path`
//! - a namespace is put in front once, and stripping takes it off again; a rest that is not a name is left:
//!   `FullName::prefix_namespace`, `strip_namespace`
//! - what is shown of a name: its bytes where they are UTF-8: `Display` of the names, `laws::shown_names`
#![tactic(auto)]

pub mod laws;
pub mod name;
pub mod namespace;
