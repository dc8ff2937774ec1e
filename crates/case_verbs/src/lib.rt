//! The verbs of cases, except for transactions and runs, which `case_world` has.
#![tactic(auto)]

mod formats;
mod locks;
mod names;
mod read_back;
mod reads;
pub mod verbs;
