//! Keys, parties and terms with which tests and programs open channels.
//!
//! [`party`] makes a side from its signer: its base keys are those of the signer's seed (`IsSeedOf`), so a channel or a book can be opened with it.
//! [`party_with`] makes a side from any base keys, where no signer takes part.
//!
//! It makes values of `keys` and `terms`. `vectors`, `book_peers` and the test crates open channels with it.
//!
//! ```rust
//! /// The terms of a channel of 100,000 satoshis, of which A has 80,000.
//! fn terms(alloc: Global) -> Result<Terms, TermsError> {
//!     let (a, b) = (Signer::new(alloc, &[1; 32]), Signer::new(alloc, &[2; 32]));
//!     terms_of(FUNDING, 100_000, party(&a, 80_000_000), party(&b, 20_000_000))
//! }
//! ```
//!
//! The tests of `channel_tests` open their channels this way.
#![tactic(auto)]

ghost use Rattle.std.specs.Prelude.{◌≡◌, ◌∷◌, IfOk, IfSome, replicate};
ghost use Rattle.terms.specs.Bases.{IsSeedOf};

use keys::{Key, Signer};
use lists::List;
use std::alloc::{AllocError, Global};
use terms::{BaseKeys, Htlc, Party, Share, Side, Terms, TermsError, View};
use tx::OutPoint;

/// The outpoint of a funding output.
pub const FUNDING: OutPoint = OutPoint {
    txid: [7; 32],
    index: 1,
};

/// The key that is 02 followed by 32 equal bytes.
pub fn key_of(fill: u8) -> Option<Key>
    ensures { IfSome result (λ k. k.bytes ≡ 2 ∷ replicate 32 fill) }
{
    let mut bytes = [fill; 33];
    bytes[0] = 2;
    Key::read(&bytes)
}

/// Base keys that are all the same key.
pub fn one_key(key: Key) -> BaseKeys
    ensures { result ≡ record {
      funding = key;
      payment = key;
      delayed = key;
      htlc = key;
      revocation = key;
    } }
{
    BaseKeys {
        funding: key,
        payment: key,
        delayed: key,
        htlc: key,
        revocation: key,
    }
}

/// A side with these base keys and this starting balance in millisatoshis. It has a dust limit of 546 satoshis, a delay of 144 blocks, and takes HTLCs of at
/// least 1,000 millisatoshis.
pub fn party_with(bases: BaseKeys, start_msat: u64) -> Party
    ensures { result ≡ record {
      dust_sat = 546;
      delay_blocks = 144;
      minimum_msat = 1000;
      start_msat = start_msat;
      bases = bases;
    } }
{
    Party {
        dust_sat: 546,
        delay_blocks: 144,
        minimum_msat: 1000,
        start_msat,
        bases,
    }
}

/// A side with its signer's base keys and this starting balance in millisatoshis.
pub fn party(signer: &Signer, start_msat: u64) -> Party
    ensures { IsSeedOf signer.now.seed result.bases }
{
    party_with(BaseKeys::of(signer), start_msat)
}

/// The terms of a channel that A opened with this capacity in satoshis, at 1,000 satoshis per 1,000 units of weight.
pub fn terms_of(
    funding: OutPoint,
    capacity_sat: u64,
    a: Party,
    b: Party,
) -> Result<Terms, TermsError>
    ensures a { IfOk result (λ t. t.a ≡ a) }
    ensures b { IfOk result (λ t. t.b ≡ b) }
{
    Terms::new(funding, capacity_sat, Side::A, 1000, a, b)
}

/// An HTLC whose payment hash is 32 equal bytes.
pub fn htlc(id: u64, amount_msat: u64, fill: u8, expiry_height: u32) -> Htlc {
    Htlc {
        id,
        amount_msat,
        hash: [fill; 32],
        expiry_height,
    }
}

// What a view gives to a side: this balance in millisatoshis, and the HTLCs that it offered.
fn share(alloc: Global, balance_msat: u64, htlcs: &[Htlc]) -> Result<Share, AllocError> {
    Ok(Share {
        balance_msat,
        offered: List::from_vec(Vec::from_slice(alloc, htlcs)?),
    })
}

/// A view with these balances of A and of B in millisatoshis, and the HTLCs that each offered, at 1,000 satoshis per 1,000 units of weight.
pub fn view(
    alloc: Global,
    balances_msat: [u64; 2],
    of_a: &[Htlc],
    of_b: &[Htlc],
) -> Result<View, AllocError> {
    let a = share(alloc, balances_msat[0], of_a)?;
    let b = share(alloc, balances_msat[1], of_b)?;
    Ok(View {
        a,
        b,
        feerate_per_kw: 1000,
    })
}
