//! What a desk gives: a participant's part of a signature, and the signature that a quorum of parts makes.
use dkg_values::{Element, Epoch, Key};

/// A participant's part of a signature: its share of an epoch's key times the message's hash, modulo 65,521.
#[derive(Clone, Copy, Debug, PartialEq, Eq)]
pub struct Partial {
    pub epoch: Epoch,
    pub signer: Key,
    pub value: Element,
}

/// A signature: an epoch's key times the message's hash, modulo 65,521. It is the same in all epochs that share one key.
#[derive(Clone, Copy, Debug, PartialEq, Eq)]
pub struct Signature {
    pub epoch: Epoch,
    pub value: Element,
}
