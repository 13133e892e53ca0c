//! Tests of `dkg_journal`: crashes by their pick, cuts at each call, and records that are not whole; and two appends that are composed through its
//! clauses.
#![tactic(auto)]

mod appends;
#[cfg(test)]
mod asserts;
#[cfg(test)]
mod journal;

pub use appends::append_two;
