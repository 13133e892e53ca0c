//! A script's lives, their steps and their ends as one relation over the node's courses, and the laws along it; definitions and lemmas
//! without code.
//!
//! `specs/` says what a life is given, where it stands in its script, in which ways a course may have gone and why a life stops. `proofs/`
//! has what follows from step to step and from life to life: of blocks and heights, of dealings, acknowledgements, logs and shares.
#![tactic(auto)]
