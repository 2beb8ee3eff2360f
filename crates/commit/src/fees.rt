//! The fees of a commitment's transactions, and which HTLCs get an output.

ghost use Rattle.std.specs.Prelude.{◌≡◌};
ghost use Rattle.commit.specs.Fees.{satoshis_of, fee_sat_of, commitment_weight, htlc_weight, is_trimmed_by};

use terms::{Htlc, MSAT_PER_SAT};

/// A feerate is in satoshis per this many weight units.
const WEIGHT_PER_FEERATE: u32 = 1000;

/// Weight of a commitment without HTLCs.
const COMMITMENT_WEIGHT: u128 = 724;

/// Weight that each untrimmed HTLC adds to a commitment.
const WEIGHT_PER_HTLC: u128 = 172;

/// Weight of an HTLC-timeout transaction.
const TIMEOUT_WEIGHT: u64 = 663;

/// Weight of an HTLC-success transaction.
const SUCCESS_WEIGHT: u64 = 703;

/// The direction of an HTLC, as the owner of a commitment sees it.
#[derive(Clone, Copy, Debug, PartialEq, Eq, Drop)]
pub enum Direction {
    /// The owner offered it, and takes it back by an HTLC-timeout transaction.
    Offered,
    /// The owner's peer offered it, and the owner takes it by an HTLC-success transaction.
    Received,
}

/// An amount of millisatoshis in satoshis, rounded down.
pub fn satoshis(amount_msat: u64) -> u64
    ensures { result ≡ satoshis_of amount_msat }
{
    amount_msat / MSAT_PER_SAT
}

/// The fee of a commitment with this number of untrimmed HTLCs, in satoshis, rounded down. The feerate is in satoshis per 1,000 weight units (BOLT 3,
/// "Fee Calculation for Commitment Transactions").
pub fn commitment_fee(htlcs: usize, feerate_per_kw: u32) -> u128
    ensures { result ≡ fee_sat_of (commitment_weight htlcs) feerate_per_kw }
{
    let weight = COMMITMENT_WEIGHT + WEIGHT_PER_HTLC * htlcs as u128;
    weight * u128::from(feerate_per_kw) / u128::from(WEIGHT_PER_FEERATE)
}

/// The fee of the owner's second-stage transaction, in satoshis, rounded down (BOLT 3, "Fee Calculation for HTLC-Timeout and HTLC-Success
/// Transactions").
pub fn htlc_fee(direction: Direction, feerate_per_kw: u32) -> u64
    ensures { result ≡ fee_sat_of (htlc_weight direction) feerate_per_kw }
{
    let weight = match direction {
        Direction::Offered => TIMEOUT_WEIGHT,
        Direction::Received => SUCCESS_WEIGHT,
    };
    weight * u64::from(feerate_per_kw) / u64::from(WEIGHT_PER_FEERATE)
}

/// Whether an HTLC has no output: its satoshis are below the sum of the owner's dust limit and the fee of its second-stage transaction (BOLT 3,
/// "Trimmed Outputs").
pub fn is_trimmed(dust_sat: u64, feerate_per_kw: u32, direction: Direction, htlc: &Htlc) -> bool
    ensures { result ≡ is_trimmed_by dust_sat feerate_per_kw direction htlc.now }
{
    let least = u128::from(dust_sat) + u128::from(htlc_fee(direction, feerate_per_kw));
    u128::from(satoshis(htlc.amount_msat)) < least
}
