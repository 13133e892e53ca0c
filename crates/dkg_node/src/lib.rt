//! A node over two devices: the reshare actor, and what stands around it, opened and then stepped by a script's events.
//!
//! Each call is a course of `dkg_core`'s node. `dkg_run` runs it through the lives of a script.
#![tactic(auto)]

mod node;

pub use node::Node;
