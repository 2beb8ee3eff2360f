//! How a world begins.

ghost use Rattle.std.specs.Prelude.{◌≡◌, ◌<◌, ◌≤◌, ◌+◌, ℕ, true, length, drop, slice_get, Some, IfOk, OnOk};
ghost use Rattle.terms.specs.Proposals.{can_agree};
ghost use Rattle.terms.specs.declared.proposals.ProposedTerms.{ProposedTerms as Plain};
ghost use Rattle.chain.specs.Blocks.{grants_in, grant_outpoint};
ghost use Rattle.book.specs.declared.calls.Call.TheVariants.{Open};
ghost use Rattle.book.specs.Replies.{is_accepted};
ghost use Rattle.world.specs.Opening.{funding_output as funding_output_of, AreOpeningsOf};
ghost use Rattle.scenario.specs.declared.limits.TheConstants.{MAX_CHANNELS as max_channels};
ghost use Rattle.scenario.specs.Testing.{first_bad_terms};
ghost use Rattle.world.specs.Worlds.{answer_to};
ghost use Rattle.world.specs.Beginning.{empty_world, with_opened, granted, Begins, AllBegin, HasBegun, IsBeginning};
ghost use Rattle.world.specs.Theorem.{IsWorld};

use crate::laws::openings_agree;
use crate::nodes::Node;
use crate::openings::{Both, funding_output, open_both};
use crate::parts::Parts;
use book::Opening;
use book::errors::OpenError;
use chain::{ChainError, Coins, Index};
use scenario::Seeds;
use std::alloc::{AllocError, Global};
use terms::ProposedTerms;
use tx::OutPoint;

/// The first channel on whose terms the two sides can't agree.
pub(crate) fn first_bad_terms(terms: &[ProposedTerms]) -> Option<usize>
    ensures { result ≡ first_bad_terms terms.now }
{
    terms.iter().position(|plain| !plain.can_agree())
}

// A side opens a channel that its book does not refuse. The only error is that memory ran out.
fn open(alloc: Global, node: &mut Node, opening: Opening) -> Result<(), AllocError>
    requires { is_accepted (answer_to node.old (Open opening)) ≡ true }
    ensures { OnOk result (node.new ≡ with_opened opening node.old) }
{
    match node.open(alloc, opening) {
        Ok(()) => Ok(()),
        Err(error) => match error {
            OpenError::NoMemory => Err(AllocError),
            _ => unreachable!(),
        },
    }
}

// Grants the funding output of a channel on whose terms the two sides can
// agree, and returns its outpoint. The only error is that memory ran out.
fn grant_funding(
    alloc: Global,
    chain: &mut Index,
    seeds: &Seeds,
    channel: u32,
    plain: &ProposedTerms,
) -> Result<OutPoint, AllocError>
    requires { can_agree plain.now ≡ true }
    ensures outpoint { IfOk result (λ o. o ≡ grant_outpoint (grants_in chain.old.blocks)) }
    ensures chain { OnOk result (chain.new ≡ granted
        (funding_output_of seeds.now channel plain.now) chain.old) }
{
    let Some(output) = funding_output(alloc, seeds, channel, plain)? else {
        unreachable!()
    };
    match chain.grant(output) {
        Ok(outpoint) => Ok(outpoint),
        Err(error) => match error {
            ChainError::NoMemory => Err(AllocError),
            _ => unreachable!(),
        },
    }
}

// How both sides open a channel at an outpoint. The only error is that memory ran out.
fn both_of(
    alloc: Global,
    seeds: &Seeds,
    channel: u32,
    outpoint: OutPoint,
    plain: &ProposedTerms,
) -> Result<Both, AllocError>
    requires { can_agree plain.now ≡ true }
    ensures { IfOk result (AreOpeningsOf seeds.now channel outpoint plain.now) }
{
    match open_both(alloc, seeds, channel, outpoint, plain)? {
        Some(both) => Ok(both),
        None => unreachable!(),
    }
}

// Funds a channel and opens it on both sides. The only error is that memory ran out.
fn begin(
    alloc: Global,
    parts: &mut Parts,
    seeds: &Seeds,
    channel: u32,
    plain: &ProposedTerms,
) -> Result<(), AllocError>
    requires agreed { can_agree plain.now ≡ true }
    requires begun { HasBegun channel parts.old }
    requires few { channel < max_channels }
    ensures { OnOk result (Begins seeds.now channel plain.now parts.old parts.new) }
{
    // By this law the proof knows that both books take the openings.
    openings_agree();
    parts.quiet_a = false;
    parts.quiet_b = false;
    let outpoint = grant_funding(alloc, &mut parts.chain, seeds, channel, plain)?;
    let both = both_of(alloc, seeds, channel, outpoint, plain)?;
    open(alloc, &mut parts.a, both.a)?;
    open(alloc, &mut parts.b, both.b)
}

// Both sides without channels, and a chain of one empty block. The only error is that memory ran out.
fn empty(alloc: Global) -> Result<Parts, AllocError>
    ensures { IfOk result (λ p. p ≡ empty_world) }
{
    let chain = Index::new(alloc)?;
    Ok(Parts {
        alloc,
        a: Node::new(alloc),
        b: Node::new(alloc),
        quiet_a: false,
        quiet_b: false,
        chain,
        pool: Vec::new(alloc),
        released: Vec::new(alloc),
    })
}

// Begins the channels, one after another, in a world that has none. The only error is that memory ran out.
fn begin_each(
    alloc: Global,
    parts: &mut Parts,
    seeds: &Seeds,
    terms: &[ProposedTerms],
) -> Result<(), AllocError>
    requires few { length terms.now ≤ max_channels }
    requires agreed { (i : ℕ) (plain : Plain) → slice_get terms.now i ≡ Some plain
        → can_agree plain ≡ true }
    requires empty { parts.old ≡ empty_world }
    ensures begins { OnOk result (IsBeginning seeds.now terms.now parts.new) }
    ensures begun { OnOk result (HasBegun (length terms.now) parts.new) }
{
    // By this law the proof knows that the channels of both sides agree.
    openings_agree();
    for channel in 0..terms.len() {
        begin(alloc, parts, seeds, channel as u32, &terms[channel])?;
    }
    Ok(())
}

/// Begins all channels. The only error is that memory ran out.
pub(crate) fn begin_all(
    alloc: Global,
    seeds: &Seeds,
    terms: &[ProposedTerms],
) -> Result<Parts, AllocError>
    requires few { length terms.now ≤ max_channels }
    requires agreed { (i : ℕ) (plain : Plain) → slice_get terms.now i ≡ Some plain
        → can_agree plain ≡ true }
    ensures begins { IfOk result (IsBeginning seeds.now terms.now) }
    ensures world { IfOk result IsWorld }
{
    let mut parts = empty(alloc)?;
    begin_each(alloc, &mut parts, seeds, terms)?;
    parts.hold_both();
    Ok(parts)
}
