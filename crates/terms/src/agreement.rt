//! The terms of a channel.

ghost use Rattle.std.specs.Prelude.{◌≡◌, ◌+◌, ◌*◌, ◌^◌, ◌<◌, ◌≤◌};
ghost use Rattle.tx.specs.declared.limits.TheConstants.{MAX_VALUE as max_value};
ghost use Rattle.terms.specs.declared.amounts.TheConstants.{MSAT_PER_SAT};

use crate::amounts::MSAT_PER_SAT;
use crate::errors::TermsError;
use crate::sides::Side;
use keys::{Base, Key, Signer};
use tx::{MAX_VALUE, OutPoint};

/// The base keys of a side (BOLT 2, `open_channel` and `accept_channel`).
#[derive(Clone, Copy, Debug, PartialEq, Eq, Drop)]
pub struct BaseKeys {
    /// `funding_pubkey`.
    pub funding: Key,
    /// `payment_basepoint`.
    pub payment: Key,
    /// `delayed_payment_basepoint`.
    pub delayed: Key,
    /// `htlc_basepoint`.
    pub htlc: Key,
    /// `revocation_basepoint`.
    pub revocation: Key,
}

impl BaseKeys {
    ghost use Rattle.terms.specs.Bases.{IsSeedOf};

    /// The base keys of a signer.
    pub fn of(signer: &Signer) -> BaseKeys
        ensures { IsSeedOf signer.now.seed result }
    {
        BaseKeys {
            funding: signer.base(Base::Funding),
            payment: signer.base(Base::Payment),
            delayed: signer.base(Base::Delayed),
            htlc: signer.base(Base::Htlc),
            revocation: signer.base(Base::Revocation),
        }
    }
}

/// One side's part of the terms.
#[derive(Clone, Copy, Debug, PartialEq, Eq, Drop)]
pub struct Party {
    /// The dust limit of its own commitments in satoshis: they have no output below it (`dust_limit_satoshis`).
    pub dust_sat: u64,
    /// The delay of its own delayed outputs in blocks (the peer's `to_self_delay`).
    pub delay_blocks: u16,
    /// The least amount of an HTLC offered to it, in millisatoshis (`htlc_minimum_msat`).
    pub minimum_msat: u64,
    /// Its starting balance in millisatoshis.
    pub start_msat: u64,
    pub bases: BaseKeys,
}

/// The terms of a channel.
#[derive(Clone, Copy, Debug, PartialEq, Eq, Drop)]
pub struct Terms {
    /// The funding output, which the commitments spend.
    pub funding: OutPoint,
    /// The value of the funding output in satoshis.
    pub capacity_sat: u64,
    /// The side that opened the channel. It pays the fee of the commitments, and it alone may change the feerate.
    pub opener: Side,
    /// The feerate until the first change, in satoshis per 1,000 units of weight (`feerate_per_kw`).
    pub feerate_per_kw: u32,
    pub a: Party,
    pub b: Party,
    pub ghost limited: { capacity_sat ≤ max_value },
    pub ghost whole: { a.start_msat + b.start_msat ≡ MSAT_PER_SAT * capacity_sat },
    pub ghost short_a: { a.delay_blocks < 2 ^ 16 },
    pub ghost short_b: { b.delay_blocks < 2 ^ 16 },
}

// A delay of 16 bits is below 2^16.
fn fits(delay_blocks: u16)
    ensures { delay_blocks < 2 ^ 16 }
{}

impl Terms {
    ghost use Rattle.std.specs.Prelude.{◌≡◌, ◌↔◌, IsOk, IfOk};
    ghost use Rattle.terms.specs.Agreement.{CanAgree, HasFields, party};

    /// The terms with these values. The error is BadTerms where the capacity is above 21,000,000 bitcoins, or the two starting balances
    /// do not sum to it.
    pub fn new(
        funding: OutPoint,
        capacity_sat: u64,
        opener: Side,
        feerate_per_kw: u32,
        a: Party,
        b: Party,
    ) -> Result<Terms, TermsError>
        ensures ok { IsOk result ↔ CanAgree capacity_sat a.start_msat b.start_msat }
        ensures fields { IfOk result (λ t. HasFields t funding capacity_sat opener feerate_per_kw a b) }
    {
        if capacity_sat > MAX_VALUE {
            return Err(TermsError::BadTerms);
        }
        if u128::from(a.start_msat) + u128::from(b.start_msat)
            != u128::from(MSAT_PER_SAT) * u128::from(capacity_sat)
        {
            return Err(TermsError::BadTerms);
        }
        // By these calls the proof knows that both delays are short.
        fits(a.delay_blocks);
        fits(b.delay_blocks);
        Ok(Terms {
            funding,
            capacity_sat,
            opener,
            feerate_per_kw,
            a,
            b,
        })
    }

    /// A side's part of the terms.
    pub fn party(&self, side: Side) -> &Party
        ensures { result.now ≡ party side self.now }
    {
        match side {
            Side::A => &self.a,
            Side::B => &self.b,
        }
    }
}
