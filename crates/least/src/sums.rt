//! What the outputs of a commitment are worth, by its amounts.

ghost use Rattle.std.specs.Prelude.{◌≡◌, ◌^◌, ◌<◌, ◌-◌, false, if◌then◌else◌, unwrap_or, sum_by};
ghost use Rattle.std.specs.List.{filter};
ghost use Rattle.commit.specs.declared.fees.Direction.TheVariants.{Received};
ghost use Rattle.commit.specs.Fees.{satoshis_of};
ghost use Rattle.commit.specs.Sums.{worth_sat_of};
ghost use Rattle.worth_laws.specs.Counted.{known_by};
ghost use Rattle.worth_laws.specs.Left.{left_sat_of, owners_left_sat, all_left_sat};
ghost use Rattle.worth_laws.specs.Placed.{placed_sat};

use commit::{Amounts, Direction, Htlc, htlc_fee, satoshis};
use resolve::KnownPreimages;

// Whether a preimage of an HTLC is known.
fn is_known(known: &KnownPreimages, htlc: &Htlc) -> bool
    ensures { result ≡ known_by known.now htlc.now }
{
    known.first_of(&htlc.hash).is_some()
}

// The satoshis of HTLCs, each rounded down.
fn worth_sat(htlcs: &[Htlc]) -> u128
    ensures sum { result ≡ worth_sat_of htlcs.now }
    ensures bound { result < 2 ^ 120 }
{
    let mut total = 0;
    for htlc in htlcs {
        total += u128::from(satoshis(htlc.amount_msat));
    }
    total
}

// An HTLC's satoshis where a preimage of it is known, and 0 otherwise.
fn known_sat(htlc: &Htlc, known: &KnownPreimages) -> u64
    ensures value { result ≡ (if known_by known.now htlc.now then satoshis_of htlc.now.amount_msat else 0) }
    ensures bound { result < 2 ^ 55 }
{
    if is_known(known, htlc) {
        satoshis(htlc.amount_msat)
    } else {
        0
    }
}

// Those of the HTLCs of which a preimage is known.
fn known_worth_sat(htlcs: &[Htlc], known: &KnownPreimages) -> u128
    ensures sum { result ≡ worth_sat_of (filter (known_by known.now) htlcs.now) }
    ensures bound { result < 2 ^ 120 }
{
    let mut total = 0;
    for htlc in htlcs {
        total += u128::from(known_sat(htlc, known));
    }
    total
}

// The satoshis of an output that may be there.
fn paid_sat(value: Option<u64>) -> u128
    ensures value { result ≡ unwrap_or value 0 }
    ensures bound { result < 2 ^ 64 }
{
    match value {
        Some(sat) => u128::from(sat),
        None => 0,
    }
}

// What is left of an HTLC once its HTLC transaction took the fee.
fn one_left_sat(htlc: &Htlc, fee_sat: u64) -> u64
    ensures value { result ≡ satoshis_of htlc.now.amount_msat - fee_sat }
    ensures bound { result < 2 ^ 55 }
{
    satoshis(htlc.amount_msat).saturating_sub(fee_sat)
}

// That of HTLCs.
fn each_left_sat(htlcs: &[Htlc], fee_sat: u64) -> u128
    ensures sum { result ≡ sum_by (λ h. satoshis_of h.amount_msat - fee_sat) htlcs.now }
    ensures bound { result < 2 ^ 120 }
{
    let mut total = 0;
    for htlc in htlcs {
        total += u128::from(one_left_sat(htlc, fee_sat));
    }
    total
}

// That of HTLCs of a direction.
fn left_sat(htlcs: &[Htlc], direction: Direction, feerate_per_kw: u32) -> u128
    ensures sum { result ≡ left_sat_of direction feerate_per_kw htlcs.now }
    ensures bound { result < 2 ^ 120 }
{
    each_left_sat(htlcs, htlc_fee(direction, feerate_per_kw))
}

// What is left of an HTLC where a preimage of it is known, and 0 otherwise.
fn known_left_sat(htlc: &Htlc, known: &KnownPreimages, fee_sat: u64) -> u64
    ensures value { result ≡ (if known_by known.now htlc.now then satoshis_of htlc.now.amount_msat - fee_sat else 0) }
    ensures bound { result < 2 ^ 55 }
{
    if is_known(known, htlc) {
        one_left_sat(htlc, fee_sat)
    } else {
        0
    }
}

// That of the HTLCs of which a preimage is known.
fn each_known_left_sat(htlcs: &[Htlc], known: &KnownPreimages, fee_sat: u64) -> u128
    ensures sum { result ≡ sum_by (λ h. satoshis_of h.amount_msat - fee_sat) (filter (known_by known.now) htlcs.now) }
    ensures bound { result < 2 ^ 120 }
{
    let mut total = 0;
    for htlc in htlcs {
        total += u128::from(known_left_sat(htlc, known, fee_sat));
    }
    total
}

// That of those that the owner received.
fn received_left_sat(htlcs: &[Htlc], known: &KnownPreimages, feerate_per_kw: u32) -> u128
    ensures sum { result ≡ left_sat_of Received feerate_per_kw (filter (known_by known.now) htlcs.now) }
    ensures bound { result < 2 ^ 120 }
{
    each_known_left_sat(htlcs, known, htlc_fee(Direction::Received, feerate_per_kw))
}

/// What is left to a commitment's owner of what it counts on, in satoshis, once each HTLC transaction stands.
pub(crate) fn owners_left_sat(
    amounts: &Amounts,
    known: &KnownPreimages,
    feerate_per_kw: u32,
) -> u128
    ensures { result ≡ owners_left_sat (known_by known.now) feerate_per_kw amounts.now }
{
    let offered = left_sat(amounts.offered.values(), Direction::Offered, feerate_per_kw);
    let received = received_left_sat(amounts.received.values(), known, feerate_per_kw);
    paid_sat(amounts.to_local) + offered + received
}

/// What its owner's peer counts on, in satoshis.
pub(crate) fn peers_sat(amounts: &Amounts, known: &KnownPreimages) -> u128
    ensures { result ≡ placed_sat false (known_by known.now) amounts.now }
{
    let received = worth_sat(amounts.received.values());
    let offered = known_worth_sat(amounts.offered.values(), known);
    paid_sat(amounts.to_remote) + received + offered
}

/// What is left of all outputs, in satoshis, once each HTLC transaction stands.
pub(crate) fn all_left_sat(amounts: &Amounts, feerate_per_kw: u32) -> u128
    ensures { result ≡ all_left_sat feerate_per_kw amounts.now }
{
    let offered = left_sat(amounts.offered.values(), Direction::Offered, feerate_per_kw);
    let received = left_sat(
        amounts.received.values(),
        Direction::Received,
        feerate_per_kw,
    );
    paid_sat(amounts.to_local) + paid_sat(amounts.to_remote) + offered + received
}
