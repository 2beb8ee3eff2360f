//! Commitments that close a channel, when a block takes them.

use crate::names::side_name;
use crate::scenarios::coins::{Coin, Kind, Told};
use crate::scenarios::outputs::tell_output;
use chain::Confirmed;
use commit::{Commitment, CommitmentOutput, Direction, OutputKind, build};
use page::Piece::Count;
use page::{Page, Piece};
use std::alloc::Global;
use terms::{Side, number_of};
use world::World;

// The coin of an output of a commitment, by that of its holder's own balance.
fn output_coin(to_local: &Coin, output: &CommitmentOutput) -> Coin {
    let mut coin = *to_local;
    coin.value = output.value;
    match &output.kind {
        OutputKind::ToLocal => {}
        OutputKind::ToRemote => {
            coin.kind = Kind::ToRemote;
            coin.owner = to_local.holder.other();
            coin.due = to_local.height;
        }
        OutputKind::ToHtlc(direction, htlc) => {
            coin.kind = Kind::Htlc;
            if *direction == Direction::Received {
                coin.owner = to_local.holder.other();
            }
            coin.due = u64::from(htlc.expiry_height)
                .saturating_add(1)
                .max(to_local.height);
        }
    }
    coin
}

// Writes a transaction as this commitment with its outputs, if it is that one, and returns whether it is. The `k`-th HTLC
// with an output has the index `k`.
fn tell_closing(
    told: &mut Told,
    line: &mut Page,
    number: u64,
    to_local: &Coin,
    commitment: &Commitment,
    confirmed: &Confirmed,
) -> bool {
    if commitment.id() != confirmed.id() {
        return false;
    }
    let (mut index, mut k) = (0u32, 0u64);
    line.write(
        r#","kind":"commitment","channel":%,"owner":"%","number":%,"revoked":%,"outputs":["#,
        &[
            Count(to_local.channel),
            side_name(to_local.holder),
            Count(number),
            Piece::flag(to_local.is_revoked),
        ],
    );
    for output in commitment.outputs() {
        tell_output(line, told, confirmed, index, output_coin(to_local, output));
        index = index.saturating_add(1);
        if let OutputKind::ToHtlc(_, htlc) = &output.kind {
            line.write(
                r#","id":%,"expiry":%,"index":%"#,
                &[
                    Count(htlc.id),
                    Count(u64::from(htlc.expiry_height)),
                    Count(k),
                ],
            );
            k = k.saturating_add(1);
        }
        line.push("}");
    }
    line.push("]");
    true
}

// Writes a transaction as a side's commitment, if it is one, and returns whether it is.
fn tell_if_of(
    alloc: Global,
    world: &World,
    told: &mut Told,
    line: &mut Page,
    height: u64,
    channel: u64,
    holder: Side,
    confirmed: &Confirmed,
) -> bool {
    let Some(own) = world.book(holder).channel(channel) else {
        return false;
    };
    let terms = own.terms();
    let number = number_of(terms, confirmed.tx()).unwrap_or(u64::MAX);
    let Some(state) = own.own_commitment(number) else {
        return false;
    };
    // as its peer's book has it
    let is_revoked = match world.book(holder.other()).channel(channel) {
        Some(peer) => state.number < peer.peer_number(),
        None => false,
    };
    let to_local = Coin {
        channel,
        value: 0,
        kind: Kind::ToLocal,
        owner: holder,
        holder,
        is_revoked,
        height,
        due: height.saturating_add(u64::from(terms.party(holder).delay_blocks)),
    };
    match build(
        alloc,
        terms,
        &state.view,
        holder,
        state.number,
        &state.point,
    ) {
        Ok(commitment) => tell_closing(told, line, state.number, &to_local, &commitment, confirmed),
        Err(_) => {
            line.fail();
            false
        }
    }
}

/// Writes a transaction that spends the funding output of
/// a channel: whose commitment it is, and its outputs.
/// Without outputs both sides' commitments are one transaction, which is written as A's.
pub fn tell_commitment(
    alloc: Global,
    world: &World,
    told: &mut Told,
    line: &mut Page,
    height: u64,
    channel: u64,
    confirmed: &Confirmed,
) {
    let is_of_a = tell_if_of(
        alloc,
        world,
        told,
        line,
        height,
        channel,
        Side::A,
        confirmed,
    );
    if !is_of_a {
        tell_if_of(
            alloc,
            world,
            told,
            line,
            height,
            channel,
            Side::B,
            confirmed,
        );
    }
}
