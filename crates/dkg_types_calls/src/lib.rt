//! Tests of `dkg_infos` and `dkg_types`: bytes that are read, refused and written, bounds, digests, directories and managers of peers.
#![tactic(auto)]

#[cfg(test)]
mod asserts;
#[cfg(test)]
mod types;
