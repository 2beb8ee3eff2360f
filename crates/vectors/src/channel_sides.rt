//! The two sides of a new channel, for programs that play with it.
//!
//! [`open_sides`] makes both from one value of the terms, each with the other's points and token. Its contract says so by `AreOpened`.
//!
//! `parties` has the keys and the terms, and `channel` the two ends. The module `plays` plays them as a `Pair`. Some programs of `bench/programs` take this module too.
//!
//! ```rust
//! /// Whether A may offer 1,000 satoshis of its 80,000.
//! fn offers_once(alloc: Global) -> Result<bool> {
//!     let mut sides = open_sides(alloc, 100_000, [80_000_000, 20_000_000])?;
//!     Ok(sides.a.offer(1_000_000, [9; 32], 500).is_ok())
//! }
//! ```
//!
//! The part `== channel` opens its channels this way.

ghost use Rattle.std.specs.Prelude.{◌≡◌, IfOk};
ghost use Rattle.terms.specs.Sides.{other};
ghost use Rattle.channel.specs.Points.{point_at};
ghost use Rattle.channel.specs.States.{state_at_opening};
ghost use Rattle.channel.specs.Keeping.{HasBases, CanOpen};
ghost use Rattle.channel.specs.Peers.{AreOpened};

use anyhow::Result;
use channel::{Channel, opening_points, opening_token};
use keys::Signer;
use parties::{FUNDING, party, terms_of};
use std::alloc::Global;
use terms::{Side, Terms};
use tx::OutPoint;

/// The seeds of the two signers.
const SEED_A: [u8; 32] = [1; 32];

const SEED_B: [u8; 32] = [2; 32];

/// The two sides of one channel.
#[derive(Drop)]
pub struct Sides {
    /// What both agreed on.
    pub terms: Terms,
    pub a: Channel,
    pub b: Channel,
}

// A side of a new channel, by both sides' signers.
fn open_side(
    alloc: Global,
    terms: Terms,
    side: Side,
    signer: Signer,
    peer: &Signer,
) -> Result<Channel>
    requires own { CanOpen terms side signer }
    requires peers { HasBases terms (other side) peer.now.seed }
    ensures { IfOk result (λ c. c ≡ state_at_opening terms side signer.seed
        (point_at peer.now.seed 0) (point_at peer.now.seed 1)) }
{
    let own = opening_points(&signer);
    let token = opening_token(alloc, &terms, side.other(), peer, &own.first)?;
    let peers = opening_points(peer);
    let opened = Channel::new(
        alloc,
        terms,
        side,
        signer,
        peers.first,
        peers.second,
        &token,
    )?;
    Ok(opened)
}

/// The sides of a new channel that A opened, by its capacity in satoshis and the millisatoshis that A and B have at the start. Its other terms are common
/// ones. The dust limits are 546 satoshis, the delays 144 blocks, the least HTLC 1,000 millisatoshis, and the feerate 1,000 satoshis per 1,000 weight units.
pub fn open_sides(alloc: Global, capacity_sat: u64, starts_msat: [u64; 2]) -> Result<Sides>
    ensures { IfOk result (λ s. AreOpened s.a s.b) }
{
    let (a, b) = (Signer::new(alloc, &SEED_A), Signer::new(alloc, &SEED_B));
    let funding = OutPoint {
        index: 0,
        ..FUNDING
    };
    let terms = terms_of(
        funding,
        capacity_sat,
        party(&a, starts_msat[0]),
        party(&b, starts_msat[1]),
    )?;
    Ok(Sides {
        terms,
        a: open_side(alloc, terms, Side::A, Signer::new(alloc, &SEED_A), &b)?,
        b: open_side(alloc, terms, Side::B, Signer::new(alloc, &SEED_B), &a)?,
    })
}
