//! Plays a case, holds what comes of each verb to what the case says, and disturbs the last verb as the case asks.
#![tactic(auto)]

pub mod judge;
mod later;
mod sweep;
