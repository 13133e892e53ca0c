//! Scripts that are made of a number, to run a node through all that it does.
//!
//! Seven keys take part in five epochs of 64 blocks, and the node, key 1, lives six lives. In one epoch too few logs come onto the chain, so
//! that its ceremony fails. `make_script` makes the script and `dkg_text` writes it; whoever runs it sums up its entries by
//! `dkg_text::summary`.
#![tactic(auto)]

mod chain;
mod life;
mod make;
mod plan;

pub use make::make_script;
