//! Tests of `dkg_artifact`: what logs make, which results and artifacts are kept, and requests that wait.
#![tactic(auto)]

#[cfg(test)]
mod asserts;
#[cfg(test)]
mod fed;
#[cfg(test)]
mod logs;
#[cfg(test)]
mod requests;
#[cfg(test)]
mod results;
#[cfg(test)]
mod verifications;
