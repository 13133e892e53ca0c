//! Tests of `dkg_probe`: a directory without one of the peers, the bytes of its messages, and a probe behind a lock.
#![tactic(auto)]

#[cfg(test)]
mod addresses;
#[cfg(test)]
mod asserts;
#[cfg(test)]
mod lock;
#[cfg(test)]
mod wire;
