//! What a node registers for an epoch: the material of its threshold scheme and the node's part in it.
ghost use Rattle.std.specs.Prelude.{◌≡◌};
ghost use Rattle.dkg_types.specs.Schemes.{scheme_of};

use dkg_ceremony::{Key, Mem, Set, Share, Sharing, Value};
use std::alloc::Global;

/// The material of an epoch's threshold scheme, and this node's part in it.
#[derive(Drop)]
pub enum SchemeInfo {
    /// This node is not one of the players.
    Verifier {
        participants: Set,
        sharing: Sharing,
    },
    /// This node is a player without a share.
    Member {
        participants: Set,
        sharing: Sharing,
        public_key: Key,
    },
    /// This node holds a share.
    Signer {
        participants: Set,
        sharing: Sharing,
        share: Share,
    },
}

impl SchemeInfo {
    /// A signer with a share; else a member where the key is a participant; else a verifier.
    pub fn new(
        public_key: Key,
        participants: Set,
        sharing: Sharing,
        share: Option<Share>,
    ) -> SchemeInfo
        ensures { result ≡ scheme_of public_key participants sharing share }
    {
        match share {
            Some(share) => SchemeInfo::Signer {
                participants,
                sharing,
                share,
            },
            None => {
                if participants.has(public_key) {
                    SchemeInfo::Member {
                        participants,
                        sharing,
                        public_key,
                    }
                } else {
                    SchemeInfo::Verifier {
                        participants,
                        sharing,
                    }
                }
            }
        }
    }
}

impl Value for SchemeInfo {
    fn copy(&self, alloc: Global) -> Mem<SchemeInfo> {
        match self {
            SchemeInfo::Verifier {
                participants,
                sharing,
            } => Ok(SchemeInfo::Verifier {
                participants: participants.copy(alloc)?,
                sharing: sharing.copy(alloc)?,
            }),
            SchemeInfo::Member {
                participants,
                sharing,
                public_key,
            } => Ok(SchemeInfo::Member {
                participants: participants.copy(alloc)?,
                sharing: sharing.copy(alloc)?,
                public_key: *public_key,
            }),
            SchemeInfo::Signer {
                participants,
                sharing,
                share,
            } => Ok(SchemeInfo::Signer {
                participants: participants.copy(alloc)?,
                sharing: sharing.copy(alloc)?,
                share: *share,
            }),
        }
    }

    fn same(&self, other: &SchemeInfo) -> bool {
        match (self, other) {
            (
                SchemeInfo::Verifier {
                    participants,
                    sharing,
                },
                SchemeInfo::Verifier {
                    participants: keys,
                    sharing: poly,
                },
            ) => participants.same(keys) && sharing.same(poly),
            (
                SchemeInfo::Member {
                    participants,
                    sharing,
                    public_key,
                },
                SchemeInfo::Member {
                    participants: keys,
                    sharing: poly,
                    public_key: key,
                },
            ) => participants.same(keys) && sharing.same(poly) && *public_key == *key,
            (
                SchemeInfo::Signer {
                    participants,
                    sharing,
                    share,
                },
                SchemeInfo::Signer {
                    participants: keys,
                    sharing: poly,
                    share: held,
                },
            ) => participants.same(keys) && sharing.same(poly) && *share == *held,
            _ => false,
        }
    }
}
