//! How both sides open a channel.

ghost use Rattle.std.specs.Prelude.{◌≡◌, true, IfOk, IfErr, IfSome, is_some};
ghost use Rattle.terms.specs.Proposals.{can_agree};
ghost use Rattle.world.specs.Opening.{AreTermsOf, HaveKeys, IsOpeningOf, AreOpeningsOf};

use super::sides::Both;
use super::signers::{bases_in, channel_seed};
use book::Opening;
use channel::{opening_points, opening_token};
use keys::Signer;
use scenario::Seeds;
use std::alloc::{AllocError, Global};
use terms::{ProposedTerms, Side, Terms};
use tx::OutPoint;

// The terms of a channel with its funding output and both sides' base keys; `None` if the two sides can't agree on them. Does not allocate.
fn agreed_terms(
    alloc: Global,
    seeds: &Seeds,
    channel: u32,
    outpoint: OutPoint,
    plain: &ProposedTerms,
) -> Option<Terms>
    ensures some { is_some result ≡ can_agree plain.now }
    ensures terms { IfSome result (AreTermsOf seeds.now channel outpoint plain.now) }
    ensures keys { IfSome result (HaveKeys seeds.now channel) }
{
    let a = bases_in(alloc, &seeds.a, channel);
    let b = bases_in(alloc, &seeds.b, channel);
    plain.agreed(outpoint, a, b)
}

// How a side opens a channel of these terms: with its peer's points, and its peer's token on its own commitment 0. The only error is that memory ran out.
fn opening_of(
    alloc: Global,
    seeds: &Seeds,
    side: Side,
    channel: u32,
    terms: Terms,
) -> Result<Opening, AllocError>
    requires { HaveKeys seeds.now channel terms }
    ensures { IfOk result (IsOpeningOf seeds.now channel side terms) }
{
    let seed = channel_seed(seeds.of(side), channel);
    let own = Signer::new(alloc, &seed);
    let peer = Signer::new(alloc, &channel_seed(seeds.of(side.other()), channel));
    let own_points = opening_points(&own);
    let points = opening_points(&peer);
    let token = match opening_token(alloc, &terms, side.other(), &peer, &own_points.first) {
        Ok(token) => token,
        Err(_) => return Err(AllocError),
    };
    match Opening::new(alloc, terms, side, seed, points.first, points.second, token) {
        Some(opening) => Ok(opening),
        None => unreachable!(),
    }
}

/// How both sides open the channel with this index, whose funding output stands at `outpoint`. The terms are the scenario's, with the base keys of both sides' signers. Each side has its peer's
/// points for commitments 0 and 1, and its peer's token on its own commitment 0. `None`, without allocating, if the two sides can't agree on the terms: the capacity is above 21,000,000 bitcoins,
/// or is not the sum of what they begin with. The only error is that memory ran out.
pub fn open_both(
    alloc: Global,
    seeds: &Seeds,
    channel: u32,
    outpoint: OutPoint,
    plain: &ProposedTerms,
) -> Result<Option<Both>, AllocError>
    ensures some { IfOk result (λ both. is_some both ≡ can_agree plain.now) }
    ensures openings { IfOk result (λ both. IfSome both
        (AreOpeningsOf seeds.now channel outpoint plain.now)) }
    ensures memory { IfErr result (λ e. can_agree plain.now ≡ true) }
{
    let Some(terms) = agreed_terms(alloc, seeds, channel, outpoint, plain) else {
        return Ok(None);
    };
    let a = opening_of(alloc, seeds, Side::A, channel, terms)?;
    let b = opening_of(alloc, seeds, Side::B, channel, terms)?;
    Ok(Some(Both { a, b }))
}
