//! Tests of the texts: scripts that are read and written, and the lines of a transcript.
#![tactic(auto)]

#[cfg(test)]
mod asserts;
#[cfg(test)]
mod text;
