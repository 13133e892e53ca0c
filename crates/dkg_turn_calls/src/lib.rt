//! Tests of `dkg_turn` and `dkg_fence`: callers of a lock, one behind the other and in threads, a fence, and a queue.
#![tactic(auto)]

#[cfg(test)]
mod asserts;
#[cfg(test)]
mod fence;
#[cfg(test)]
mod threads;
#[cfg(test)]
mod till;
#[cfg(test)]
mod turns;
