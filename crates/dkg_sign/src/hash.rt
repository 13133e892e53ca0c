//! A message as an element of the ceremony's field.
ghost use Rattle.std.specs.Prelude.{◌≡◌, ◌<◌};
ghost use Rattle.dkg_sign.specs.Signing.{hash_of as hash_from};

use sha2::{Digest, Sha256};

/// The hash of a message: the first two bytes of its SHA-256, the high one first, modulo 65,521, and 1 where that is 0.
#[tactic(auto, unfolding(crate::specs::Signing::hash_of))]
pub fn hash_of(message: &[u8]) -> u32
    ensures value { result ≡ hash_from message.now }
    ensures below { result < 65521 }
{
    let mut hasher = Sha256::new();
    hasher.update(message);
    let digest: [u8; 32] = hasher.finalize();
    let number = u32::from(u16::from_be_bytes([digest[0], digest[1]])) % 65521;
    if number == 0 { 1 } else { number }
}
