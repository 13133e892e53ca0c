//! Tests of `dkg_sign`: what desks give over one output, and what one keeps over several lives.
#![tactic(auto)]

#[cfg(test)]
mod asserts;
#[cfg(test)]
mod signing;
