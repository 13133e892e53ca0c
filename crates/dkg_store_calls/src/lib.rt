//! Tests of what a store, its dealer and its player do in several calls, and of the secrets beside it. They stand apart from those crates, since a
//! crate's own tests are proved together with all of it, once more.
#![tactic(auto)]

#[cfg(test)]
mod asserts;
#[cfg(test)]
mod chain;
#[cfg(test)]
mod dealing;
#[cfg(test)]
mod heights;
#[cfg(test)]
mod memory;
#[cfg(test)]
mod playing;
#[cfg(test)]
mod prune;
#[cfg(test)]
mod secrets;
