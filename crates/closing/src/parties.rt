// The two sides of a channel, and the keys of one commitment.

use forms::{HtlcKeys, Patterns, patterns};
use keys::{Base, Key, Signer, derive, point, revocation};
use std::alloc::Global;

/// The per-commitment secret of the commitment, which its owner revoked.
const SECRET: [u8; 32] = [9; 32];

/// The owner of a commitment, and its peer,
/// which learnt the commitment's secret.
#[derive(Drop)]
pub struct Parties {
    pub owner: Signer,
    pub peer: Signer,
    /// The forms of their outputs.
    pub patterns: Patterns,
}

/// A signer that has learnt the commitment's point, if there was memory.
fn informed(mut signer: Signer) -> Signer {
    let _ = signer.learn_point(&point(&SECRET));
    signer
}

/// A signer that has learnt the commitment's point and its secret, if there was memory.
fn informed_of_secret(mut signer: Signer) -> Signer {
    let _ = signer.learn_point(&point(&SECRET));
    let _ = signer.learn_secret(&SECRET);
    signer
}

impl Parties {
    /// Both sides, with what they learnt.
    pub fn new(alloc: Global) -> Option<Parties> {
        match patterns(alloc) {
            Ok(patterns) => Some(Parties {
                owner: informed(Signer::new(alloc, &[1; 32])),
                peer: informed_of_secret(Signer::new(alloc, &[2; 32])),
                patterns,
            }),
            Err(_) => None,
        }
    }

    /// The commitment's delayed key.
    pub fn delayed(&self) -> Key {
        derive(&self.owner.base(Base::Delayed), &point(&SECRET))
    }

    /// The keys of its HTLCs, and its revocation key.
    pub fn htlc_keys(&self) -> HtlcKeys {
        let point = point(&SECRET);
        HtlcKeys {
            revocation: revocation(&self.peer.base(Base::Revocation), &point),
            remote: derive(&self.peer.base(Base::Htlc), &point),
            local: derive(&self.owner.base(Base::Htlc), &point),
        }
    }

    /// The key of its to_remote output.
    pub fn payment(&self) -> Key {
        self.peer.base(Base::Payment)
    }
}
