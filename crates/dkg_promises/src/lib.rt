//! What running a script's lives promises, clause by clause, and why it follows from the relation of `dkg_lives`; definitions and lemmas
//! without code.
//!
//! `specs/Promised.antt` is the whole promise, and `proofs/Promising.antt` puts it together; each clause has a definition in `specs/` and
//! lemmas in `proofs/`, which nothing but the run of `dkg_run` cites.
#![tactic(auto)]
