//! Terms that are proposed, before there are a funding output and keys.

ghost use Rattle.std.specs.Prelude.{◌≡◌, ◌^◌, nat_lt};
ghost use Rattle.terms.specs.Proposals.{party_of};

use crate::agreement::{BaseKeys, Party, Terms};
use crate::amounts::MSAT_PER_SAT;
use crate::sides::Side;
use tx::{MAX_VALUE, OutPoint};

/// One side's part of proposed terms, without its keys.
#[derive(Clone, Copy, Debug, PartialEq, Eq, Drop)]
pub struct ProposedParty {
    /// The dust limit of its own commitments in satoshis: they have no output below it (`dust_limit_satoshis`).
    pub dust_sat: u64,
    /// The delay of its own delayed outputs in blocks (the peer's `to_self_delay`).
    pub delay_blocks: u16,
    /// The least amount of an HTLC offered to it, in millisatoshis (`htlc_minimum_msat`).
    pub minimum_msat: u64,
    /// Its starting balance in millisatoshis.
    pub start_msat: u64,
}

/// The terms of a channel without its funding output and keys. Two sides may be unable to agree on them.
#[derive(Clone, Copy, Debug, PartialEq, Eq, Drop)]
pub struct ProposedTerms {
    /// The value of the funding output in satoshis.
    pub capacity_sat: u64,
    /// The side that opens the channel.
    pub opener: Side,
    /// The feerate in satoshis per 1,000 units of weight.
    pub feerate_per_kw: u32,
    pub a: ProposedParty,
    pub b: ProposedParty,
}

// A side's part of the terms, with these base keys.
fn party_of(proposed: &ProposedParty, bases: BaseKeys) -> Party
    ensures { result ≡ party_of proposed.now bases }
{
    Party {
        dust_sat: proposed.dust_sat,
        delay_blocks: proposed.delay_blocks,
        minimum_msat: proposed.minimum_msat,
        start_msat: proposed.start_msat,
        bases,
    }
}

// Whether a delay is below 2^16, as each of this type is.
fn is_short(delay_blocks: u16) -> bool
    ensures { result ≡ nat_lt delay_blocks (2 ^ 16) }
{
    u32::from(delay_blocks) < 65_536
}

impl ProposedTerms {
    ghost use Rattle.std.specs.Prelude.{◌≡◌, IfSome, is_some};
    ghost use Rattle.terms.specs.Agreement.{HasFields};
    ghost use Rattle.terms.specs.Proposals.{can_agree, party_of, agreed_terms};

    /// Whether two sides can agree on the terms: the capacity is at most 21,000,000 bitcoins, and the two starting balances sum to
    /// it. That each delay is below 2^16 is tested too, though its type has it: definitions see delays as numbers of any size.
    pub fn can_agree(&self) -> bool
        ensures { result ≡ can_agree self.now }
    {
        let capacity_sat = self.capacity_sat;
        let (a, b) = (self.a.start_msat, self.b.start_msat);
        capacity_sat <= MAX_VALUE
            && u128::from(a) + u128::from(b) == u128::from(MSAT_PER_SAT) * u128::from(capacity_sat)
            && is_short(self.a.delay_blocks)
            && is_short(self.b.delay_blocks)
    }

    /// The terms with a funding output and both sides' base keys; `None` where the sides cannot agree.
    pub fn agreed(&self, funding: OutPoint, a: BaseKeys, b: BaseKeys) -> Option<Terms>
        ensures terms { result ≡ agreed_terms funding a b self.now }
        ensures some { is_some result ≡ can_agree self.now }
        ensures fields { IfSome result (λ t. HasFields t funding self.now.capacity_sat self.now.opener
            self.now.feerate_per_kw (party_of self.now.a a) (party_of self.now.b b)) }
    {
        let a = party_of(&self.a, a);
        let b = party_of(&self.b, b);
        match Terms::new(
            funding,
            self.capacity_sat,
            self.opener,
            self.feerate_per_kw,
            a,
            b,
        ) {
            Ok(terms) => Some(terms),
            Err(_) => None,
        }
    }
}
