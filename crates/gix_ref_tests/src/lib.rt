//! The library as its users meet it: the public paths of `gix_ref`, each used once.
#![tactic(auto)]

#[cfg(test)]
mod surface;
#[cfg(test)]
mod transactions;
