// Who may sign for a key.

use crate::bases::{Base, BaseKeys};
use crate::compressed::Key;
use crate::derivation::{point, seed_hash};
use crate::indexing::insert_all;
use sighash::Token;
use std::alloc::{AllocError, Global};
use std::collections::BTreeSet;
use std::marker::Model;
use thiserror::Error;

/// Why a signer does not sign.
#[derive(Clone, Copy, Debug, Drop, Error, PartialEq, Eq)]
pub enum SignError {
    /// 1: the signer may not sign for the key.
    #[error("NoRight")]
    NoRight,
}

impl SignError {
    ghost use Rattle.std.specs.Prelude.{◌≡◌};

    /// The refusal's number. There is no 0 (out of memory): signing allocates nothing.
    pub fn number(&self) -> u8
        ensures { result ≡ 1 }
    {
        match self {
            SignError::NoRight => 1,
        }
    }
}

/// A side's signer in a channel: its seed, and the points and secrets that it learnt.
///
/// It may sign for its five base keys, for [`derive`](crate::derive) of these and each learnt point, and for
/// [`revocation`](crate::revocation) of these and the point of each learnt secret. The keys that result are kept in order, so an answer takes
/// time logarithmic in the number of points and secrets. Each point or secret costs itself and five keys of 33 bytes: some 300 bytes, and at
/// most some 520. Learning one twice changes no answer.
///
/// A contract sees it as its `Rights`: the seed, the points and the secrets, the oldest first.
#[derive(Drop)]
pub struct Signer {
    bases: BaseKeys,
    points: Vec<[u8; 33]>,
    secrets: Vec<[u8; 32]>,
    // the keys that derive at the points, and the revocation keys at the points of the secrets
    learnt: BTreeSet<[u8; 33]>,
}

impl Model for Signer {
    ghost use Rattle.std.specs.Prelude.{◌≡◌, ℕ, List};
    ghost use Rattle.std.specs.Ordering.{nat_cmp};
    ghost use Rattle.std.specs.Cmp.Lexicographic.{slice_cmp};
    ghost use Rattle.std.specs.BTreeSet.{contains};
    ghost use Rattle.keys.specs.Rights.{Rights};
    ghost use Rattle.keys.specs.Keys.{learnt_keys, is_among};

    ghost Value = { Rights };

    ghost view = { λ a. record { seed = a.bases; points = a.points.items; secrets = a.secrets.items } };

    ghost invariant = { λ a. (q : List ℕ) → contains (slice_cmp nat_cmp) a.learnt q ≡ is_among q (learnt_keys a.bases a.points.items a.secrets.items) };
}

impl Signer {
    ghost use Rattle.std.specs.Prelude.{◌≡◌, ◌↔◌, ◌++◌, ◌∷◌, [], IsTrue, IsOk, IsErrOf, IfOk, OnOk, OnErr};
    ghost use Rattle.script.specs.Token.{token_of};
    ghost use Rattle.keys.specs.Derivation.{base_key, commitment_seed};
    ghost use Rattle.keys.specs.Rights.{MaySign};

    /// A signer with this seed that has learnt nothing. It allocates nothing.
    pub fn new(alloc: Global, seed: &[u8; 32]) -> Signer
        ensures { result ≡ record { seed = seed.now; points = []; secrets = [] } }
    {
        Signer {
            bases: BaseKeys::new(seed),
            points: Vec::new(alloc),
            secrets: Vec::new(alloc),
            learnt: BTreeSet::new(alloc),
        }
    }

    /// The base key of this kind.
    pub fn base(&self, base: Base) -> Key
        ensures { result.bytes ≡ base_key self.now.seed base }
    {
        self.bases.key(base)
    }

    /// The seed of the side's per-commitment secrets (number 5 of its seed).
    #[tactic(auto, unfolding(crate::specs::Derivation::seed_secret))]
    pub fn commitment_seed(&self) -> [u8; 32]
        ensures { result ≡ commitment_seed self.now.seed }
    {
        seed_hash(self.bases.seed(), 5)
    }

    /// Learns a per-commitment point, one's own or the peer's: from now on the signer may sign for the keys that derive from its base keys at
    /// this point. Where memory runs out, it is as it was.
    pub fn learn_point(&mut self, point: &Key) -> Result<(), AllocError>
        ensures ok { OnOk result (self.new ≡ record self.old {
          points = self.old.points
              ++ point.now.bytes ∷ [];
        }) }
        ensures err { OnErr result (self.new ≡ self.old) }
    {
        self.points.reserve(1)?;
        insert_all(&mut self.learnt, &self.bases.keys_at(point))?;
        self.points.push(point.bytes).unwrap();
        Ok(())
    }

    /// Learns a per-commitment secret of the peer: from now on the signer may sign for the revocation keys of its base keys at the secret's
    /// point. Where memory runs out, it is as it was.
    pub fn learn_secret(&mut self, secret: &[u8; 32]) -> Result<(), AllocError>
        ensures ok { OnOk result (self.new ≡ record self.old {
          secrets = self.old.secrets
              ++ secret.now ∷ [];
        }) }
        ensures err { OnErr result (self.new ≡ self.old) }
    {
        self.secrets.reserve(1)?;
        insert_all(&mut self.learnt, &self.bases.revocations_at(&point(secret)))?;
        self.secrets.push(*secret).unwrap();
        Ok(())
    }

    /// Learns what a revocation reveals: the peer's secret, and its next point. Where memory runs out, the signer learnt neither.
    pub fn learn_revocation(
        &mut self,
        secret: &[u8; 32],
        next_point: &Key,
    ) -> Result<(), AllocError>
        ensures ok { OnOk result (self.new ≡ record self.old {
          points = self.old.points ++ next_point.now.bytes ∷ [];
          secrets = self.old.secrets ++ secret.now ∷ [];
        }) }
        ensures err { OnErr result (self.new ≡ self.old) }
    {
        self.points.reserve(1)?;
        self.secrets.reserve(1)?;
        let keys = self.bases.keys_after(next_point, &point(secret));
        insert_all(&mut self.learnt, &keys)?;
        self.points.push(next_point.bytes).unwrap();
        self.secrets.push(*secret).unwrap();
        Ok(())
    }

    /// Whether the signer may sign for the key. It allocates nothing.
    pub fn can_sign(&self, key: &Key) -> bool
        ensures { IsTrue result ↔ MaySign self.now key.now.bytes }
    {
        self.bases.has(key) || self.learnt.contains(&key.bytes)
    }

    /// The token of the key over the digest; `NoRight` where the signer may not sign for the key. It allocates nothing.
    pub fn sign(&self, key: &Key, digest: &[u8; 32]) -> Result<Token, SignError>
        ensures token { IfOk result (λ t. t ≡ token_of key.now.bytes digest.now) }
        ensures ok { IsOk result ↔ MaySign self.now key.now.bytes }
        ensures no_right { IsErrOf result SignError.NoRight ↔ (¬ MaySign self.now key.now.bytes) }
    {
        if !self.can_sign(key) {
            return Err(SignError::NoRight);
        }
        Ok(Token::new(&key.bytes, digest))
    }

    /// A signer with the same rights. The only error is that memory ran out.
    pub fn copy(&self) -> Result<Signer, AllocError>
        ensures { IfOk result (λ s. s ≡ self.now) }
    {
        let alloc = *self.points.allocator();
        Ok(Signer {
            bases: self.bases.copy(),
            points: Vec::from_slice(alloc, self.points.as_slice())?,
            secrets: Vec::from_slice(alloc, self.secrets.as_slice())?,
            learnt: self.learnt.clone()?,
        })
    }
}
