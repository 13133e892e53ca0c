//! Marks: what stands for a signature in the small ceremony, and who makes them.
//!
//! Acknowledgements, logs, round summaries and finalizations each bear one.
ghost use Rattle.std.specs.Prelude.{◌≡◌, ℕ, List, [], ◌∷◌, ◌++◌, take};
ghost use Rattle.std.specs.Int.{w32, to_be_bytes};
ghost use Rattle.sha2.specs.Hashers.{Holds256};
ghost use Rattle.sha2.specs.Sha256.{sha256};
ghost use Rattle.dkg_ceremony.specs.Marks.{domain_byte, mark_of as mark_from};

use dkg_values::{Key, Mark};
use sha2::{Digest, Sha256};
use std::marker::Model;

/// What a mark is made for.
#[derive(Clone, Copy, Debug, PartialEq, Eq)]
pub enum Domain {
    /// A player's acknowledgement.
    Ack,
    /// A dealer's log.
    Log,
    /// An output's summary.
    Round,
    /// A block's finalization.
    Final,
}

fn byte_of(domain: Domain) -> u8
    ensures { result ≡ domain_byte domain }
{
    match domain {
        Domain::Ack => 1,
        Domain::Log => 2,
        Domain::Round => 3,
        Domain::Final => 4,
    }
}

/// The hash of a key, a domain and what comes first of a content.
pub(crate) fn hash_behind(key: Key, domain: Domain, first: &[u8]) -> Sha256
    ensures { Holds256 result (to_be_bytes w32 key ++ domain_byte domain ∷ [] ++ first.now) }
{
    let mut hasher = Sha256::new();
    hasher.update(&key.0.to_be_bytes());
    hasher.update(&[byte_of(domain)]);
    hasher.update(first);
    hasher
}

/// The mark that a hash comes to with the rest of a content: the first eight bytes of the digest.
pub(crate) fn mark_behind(mut hasher: Sha256, rest: &[u8]) -> Mark
    ensures { (m : List ℕ) → Holds256 hasher m → result ≡ take 8 (sha256 (m ++ rest.now)) }
{
    hasher.update(rest);
    let digest: [u8; 32] = hasher.finalize();
    Mark([
        digest[0], digest[1], digest[2], digest[3], digest[4], digest[5], digest[6], digest[7],
    ])
}

/// The mark of a key on a content: the first eight bytes of SHA-256 over the key, the domain's byte and the content.
#[tactic(auto, unfolding(crate::specs::Marks::mark_of))]
pub fn mark_of(key: Key, domain: Domain, content: &[u8]) -> Mark
    ensures { result ≡ mark_from key domain content.now }
{
    mark_behind(hash_behind(key, domain, &[]), content)
}

/// Who makes marks under a key.
pub trait Signer {
    ghost use Rattle.std.specs.Prelude.{◌≡◌, ℕ, List};
    ghost use Rattle.dkg_ceremony.specs.declared.sign.Domain.{Domain};

    ghost key_of: { Self → ℕ };

    ghost sign_of: { Self → Domain → List ℕ → List ℕ };

    /// The key under which marks are made.
    fn public_key(&self) -> Key
        ensures { result ≡ key_of self.now };

    /// The mark on a content.
    fn sign(&self, domain: Domain, content: &[u8]) -> Mark
        ensures { result ≡ sign_of self.now domain content.now };
}

/// A signer of the small ceremony, which contracts see as its key's number.
#[derive(Clone, Copy, Debug, PartialEq, Eq)]
pub struct StandSigner {
    key: Key,
}

impl Model for StandSigner {
    ghost use Rattle.std.specs.Prelude.{ℕ};

    ghost Value = { ℕ };

    ghost view = { λ s. s.key };

    ghost inverse = { λ n. record { key = n } };
}

impl StandSigner {
    /// The signer of a key.
    pub fn new(key: Key) -> StandSigner
        ensures { result ≡ key }
    {
        StandSigner { key }
    }
}

impl Signer for StandSigner {
    ghost key_of = { λ key. key };

    ghost sign_of = { mark_from };

    fn public_key(&self) -> Key {
        self.key
    }

    fn sign(&self, domain: Domain, content: &[u8]) -> Mark {
        mark_of(self.key, domain, content)
    }
}
