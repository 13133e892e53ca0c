//! Tests of scripts and of the top call over devices, a source and a sink that a script can't give.
//!
//! Worked rows are data: `dkg_replay` runs them.
#![tactic(auto)]

#[cfg(test)]
mod devices;
#[cfg(test)]
mod failing;
#[cfg(test)]
mod lives;
#[cfg(test)]
mod pieces;
#[cfg(test)]
mod runs;
#[cfg(test)]
mod script;
#[cfg(test)]
mod shares;
#[cfg(test)]
mod statuses;
#[cfg(test)]
mod texts;
