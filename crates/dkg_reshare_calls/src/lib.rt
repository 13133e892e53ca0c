//! Tests of the reshare actor's calls over memory devices. They stand apart from `dkg_reshare`, since a crate's own tests are proved together with all
//! of it, once more; and apart from `dkg_rows`, since they stand on nothing that runs a script.
//!
//! What a test does stands in functions over any parts of an actor, which they are lent, and over any devices. One function makes the actor of the plain
//! ceremony, and one the devices of memory: at those types a call's contract unfolds into its whole definition, and an actor of any parts is slow to drop.
#![tactic(auto)]

#[cfg(test)]
mod actors;
#[cfg(test)]
mod blocks;
#[cfg(test)]
mod calls;
#[cfg(test)]
mod lives;
#[cfg(test)]
mod requests;
#[cfg(test)]
mod starts;
