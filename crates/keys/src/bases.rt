// The five base keys of a side.

ghost use Rattle.std.specs.Prelude.{◌≡◌};
ghost use Rattle.keys.specs.Derivation.{base_key as base_key_of};

use crate::compressed::Key;
use crate::derivation::{derive, point, revocation, seed_hash};
use std::marker::Model;

/// The base keys of a side of a channel (BOLT 2, `open_channel`), each for its own kind of output or transaction.
#[derive(Clone, Copy, Debug, PartialEq, Eq)]
pub enum Base {
    /// 0: the funding output. Used without derivation.
    Funding,
    /// 1: the peer's to_remote output. Used without derivation.
    Payment,
    /// 2: the delayed outputs of one's own commitments.
    Delayed,
    /// 3: the outputs of HTLCs.
    Htlc,
    /// 4: the revocation of the peer's commitments.
    Revocation,
}

impl Base {
    ghost use Rattle.std.specs.Prelude.{◌≡◌};
    ghost use Rattle.keys.specs.Derivation.{number_of};

    /// The number of the base among a seed's secrets, from 0. Number 5 is the seed of the per-commitment secrets.
    pub fn number(self) -> u8
        ensures { result ≡ number_of self }
    {
        match self {
            Base::Funding => 0,
            Base::Payment => 1,
            Base::Delayed => 2,
            Base::Htlc => 3,
            Base::Revocation => 4,
        }
    }
}

/// The five base keys of a seed. A contract sees them as the seed.
#[derive(Drop)]
pub(crate) struct BaseKeys {
    seed: [u8; 32],
    funding: Key,
    payment: Key,
    delayed: Key,
    htlc: Key,
    revocation: Key,
}

impl Model for BaseKeys {
    ghost use Rattle.std.specs.Prelude.{◌≡◌, ℕ, List};
    ghost use Rattle.keys.specs.declared.bases.Base.{Base as Kind};
    ghost use Rattle.keys.specs.declared.bases.Base.TheVariants.{Funding, Payment, Delayed, Htlc, Revocation};
    ghost use Rattle.keys.specs.Derivation.{base_key};

    ghost Value = { List ℕ };

    ghost view = { λ a. a.seed };

    ghost invariant = { λ a. (a.funding.bytes ≡ base_key a.seed Funding)
        × (a.payment.bytes ≡ base_key a.seed Payment)
        × (a.delayed.bytes ≡ base_key a.seed Delayed)
        × (a.htlc.bytes ≡ base_key a.seed Htlc)
        × (a.revocation.bytes ≡ base_key a.seed Revocation) };
}

/// The base key of a seed.
#[tactic(auto, unfolding(crate::specs::Derivation::seed_secret))]
fn base_key(seed: &[u8; 32], base: Base) -> Key
    ensures { result.bytes ≡ base_key_of seed.now base }
{
    point(&seed_hash(seed, base.number()))
}

impl BaseKeys {
    ghost use Rattle.std.specs.Prelude.{◌≡◌, ◌||◌, ◌++◌};
    ghost use Rattle.keys.specs.Derivation.{base_key as base_key_of};
    ghost use Rattle.keys.specs.Keys.{is_among, base_keys, keys_at, revocations_at};

    /// The base keys of a seed.
    pub(crate) fn new(seed: &[u8; 32]) -> BaseKeys
        ensures { result ≡ seed.now }
    {
        BaseKeys {
            seed: *seed,
            funding: base_key(seed, Base::Funding),
            payment: base_key(seed, Base::Payment),
            delayed: base_key(seed, Base::Delayed),
            htlc: base_key(seed, Base::Htlc),
            revocation: base_key(seed, Base::Revocation),
        }
    }

    /// A copy of the keys.
    pub(crate) fn copy(&self) -> BaseKeys
        ensures { result ≡ self.now }
    {
        BaseKeys {
            seed: self.seed,
            funding: self.funding,
            payment: self.payment,
            delayed: self.delayed,
            htlc: self.htlc,
            revocation: self.revocation,
        }
    }

    /// The seed.
    pub(crate) fn seed(&self) -> &[u8; 32]
        ensures { result.now ≡ self.now }
    {
        &self.seed
    }

    /// One of the keys.
    pub(crate) fn key(&self, base: Base) -> Key
        ensures { result.bytes ≡ base_key_of self.now base }
    {
        match base {
            Base::Funding => self.funding,
            Base::Payment => self.payment,
            Base::Delayed => self.delayed,
            Base::Htlc => self.htlc,
            Base::Revocation => self.revocation,
        }
    }

    /// Whether a key is one of these.
    pub(crate) fn has(&self, key: &Key) -> bool
        ensures { result ≡ is_among key.now.bytes (base_keys self.now) }
    {
        self.funding.bytes == key.bytes
            || self.payment.bytes == key.bytes
            || self.delayed.bytes == key.bytes
            || self.htlc.bytes == key.bytes
            || self.revocation.bytes == key.bytes
    }

    /// The keys that derive from these at a point.
    pub(crate) fn keys_at(&self, point: &Key) -> [[u8; 33]; 5]
        ensures { result ≡ keys_at self.now point.now.bytes }
    {
        let funding = derive(&self.funding, point).bytes;
        let payment = derive(&self.payment, point).bytes;
        let delayed = derive(&self.delayed, point).bytes;
        let htlc = derive(&self.htlc, point).bytes;
        let revocation = derive(&self.revocation, point).bytes;
        [funding, payment, delayed, htlc, revocation]
    }

    /// The revocation keys of these at a point.
    pub(crate) fn revocations_at(&self, point: &Key) -> [[u8; 33]; 5]
        ensures { result ≡ revocations_at self.now point.now.bytes }
    {
        let funding = revocation(&self.funding, point).bytes;
        let payment = revocation(&self.payment, point).bytes;
        let delayed = revocation(&self.delayed, point).bytes;
        let htlc = revocation(&self.htlc, point).bytes;
        let revoking = revocation(&self.revocation, point).bytes;
        [funding, payment, delayed, htlc, revoking]
    }

    /// The keys that derive from these at a point, and their revocation keys at a revoked one.
    pub(crate) fn keys_after(&self, point: &Key, revoked: &Key) -> [[u8; 33]; 10]
        ensures { result ≡ keys_at self.now point.now.bytes
            ++ revocations_at self.now revoked.now.bytes }
    {
        let [a, b, c, d, e] = self.keys_at(point);
        let [f, g, h, i, j] = self.revocations_at(revoked);
        [a, b, c, d, e, f, g, h, i, j]
    }
}
