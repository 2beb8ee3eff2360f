// Writes what a book has.

use crate::dumps::claims::{Alone, Claimable, Close, OutputName, Way, claims_of, hashes_of};
use crate::dumps::standing::{Source, closed_with, commitment, htlcs, is_new, stands};
use crate::formats::Form;
use crate::names::{explorer_id, side_name};
use crate::notes::tell_notes;
use book::Book;
use channel::{Channel, CommitmentState};
use commit::commitment_amounts;
use least::at_least_sat_with;
use page::Piece::{Count, Hash, Text};
use page::{Page, Piece};
use std::alloc::Global;
use terms::{Htlc, Side};

// Writes a commitment of a channel as its side sees it, if there is one. The text begins the member.
fn tell_source(line: &mut Page, channel: &Channel, before: &'static str, source: Source) {
    let side = channel.side();
    line.push(before);
    match commitment(channel, source) {
        Some(state) => line.write(
            r#"{"number":%,"balance":%,"peer_balance":%,"feerate":%}"#,
            &[
                Count(state.number),
                Count(state.view.share(side).balance_msat),
                Count(state.view.share(side.other()).balance_msat),
                Count(u64::from(state.view.feerate_per_kw)),
            ],
        ),
        None => line.push("null"),
    }
}

// Writes the least that the side has of a channel, in satoshis, whichever commitment closes it, with these preimages.
fn tell_least(alloc: Global, line: &mut Page, channel: &Channel, preimages: &[[u8; 32]]) {
    match at_least_sat_with(alloc, channel, preimages) {
        Ok(sat) => line.write(r#","at_least":%"#, &[Count(sat)]),
        Err(_) => line.fail(),
    }
}

// Writes an HTLC, and in which commitments it stands.
fn tell_htlc(
    line: &mut Page,
    channel: &Channel,
    direction: &'static str,
    offerer: Side,
    htlc: &Htlc,
) {
    let hash = htlc.hash;
    let in_next = match commitment(channel, Source::Next) {
        Some(_) => Piece::flag(stands(channel, Source::Next, offerer, htlc.id)),
        None => Text("null"),
    };
    line.element(
        r#"{"direction":"%","id":%,"amount":%,"hash":"%","expiry":%,"ours":%,"theirs":%,"next":%}"#,
        &[
            Text(direction),
            Count(htlc.id),
            Count(htlc.amount_msat),
            Hash(hash),
            Count(u64::from(htlc.expiry_height)),
            Piece::flag(stands(channel, Source::Ours, offerer, htlc.id)),
            Piece::flag(stands(channel, Source::Theirs, offerer, htlc.id)),
            in_next,
        ],
    );
}

// Writes the HTLCs of a commitment that a side offered, and that no commitment before it has.
fn tell_htlcs(
    line: &mut Page,
    channel: &Channel,
    direction: &'static str,
    offerer: Side,
    source: Source,
) {
    for htlc in htlcs(channel, source, offerer) {
        if is_new(channel, source, offerer, htlc.id) {
            tell_htlc(line, channel, direction, offerer, htlc);
        }
    }
}

// Writes the HTLCs that a side offered, each once.
fn tell_offered(line: &mut Page, channel: &Channel, direction: &'static str, offerer: Side) {
    tell_htlcs(line, channel, direction, offerer, Source::Ours);
    tell_htlcs(line, channel, direction, offerer, Source::Theirs);
    tell_htlcs(line, channel, direction, offerer, Source::Next);
}

// Writes what can be claimed.
fn tell_claim(line: &mut Page, claim: &Claimable) {
    // its name, and the id of its HTLC
    let (output, id) = match claim.output {
        OutputName::ToLocal => ("to_local", None),
        OutputName::ToRemote => ("to_remote", None),
        OutputName::Offered(id) => ("offered", Some(id)),
        OutputName::Received(id) => ("received", Some(id)),
    };
    // its name, and the lock time
    let (way, lock) = match claim.way {
        Way::Payment => ("payment", None),
        Way::Preimage => ("preimage", None),
        Way::Timeout(lock) => ("timeout", Some(lock as u64)),
        Way::Penalty => ("penalty", None),
    };
    // how long nobody else can take the output
    let (alone, limit) = match claim.alone {
        Alone::Always => ("always", None),
        Alone::Blocks(blocks) => ("blocks", Some(blocks as u64)),
        Alone::Until(height) => ("until", Some(height as u64)),
        Alone::NoPreimage => ("no_preimage", None),
    };
    line.element(
        r#"{"output":"%","id":%,"value":%,"by":"%","lock":%,"alone":"%","limit":%}"#,
        &[
            Text(output),
            Piece::or_null(id),
            Count(claim.value),
            Text(way),
            Piece::or_null(lock),
            Text(alone),
            Piece::or_null(limit),
        ],
    );
}

// Writes a commitment of the peer that may close the channel, and what this side can claim of it.
fn tell_closing(
    alloc: Global,
    line: &mut Page,
    channel: &Channel,
    close: Close,
    hashes: &[[u8; 32]],
    state: &CommitmentState,
    name: &'static str,
    kept: Piece,
) {
    line.element(
        r#"{"commitment":"%","number":%,"kept":%,"claims":["#,
        &[Text(name), Count(state.number), kept],
    );
    match commitment_amounts(alloc, channel.terms(), &state.view, state.owner) {
        Ok(amounts) => match claims_of(alloc, close, hashes, &amounts) {
            Ok(claims) => {
                for claim in &claims {
                    tell_claim(line, claim);
                }
            }
            Err(_) => line.fail(),
        },
        Err(_) => line.fail(),
    }
    line.push("]}");
}

// Writes the commitments of the peer that are not revoked. Preimages of these hashes are known.
fn tell_unrevoked(alloc: Global, line: &mut Page, channel: &Channel, hashes: &[[u8; 32]]) {
    let (close, none) = (Close::Newest, Text("null"));
    if let Some(state) = commitment(channel, Source::Theirs) {
        tell_closing(alloc, line, channel, close, hashes, state, "theirs", none);
    }
    if let Some(state) = commitment(channel, Source::Next) {
        tell_closing(alloc, line, channel, close, hashes, state, "next", none);
    }
}

// Writes the revoked commitments of the peer, and whether their penalties are kept.
fn tell_revoked(alloc: Global, line: &mut Page, book: &Book, index: u64, channel: &Channel) {
    let owner = channel.side().other();
    let close = Close::Revoked(channel.terms().party(owner).delay_blocks);
    for number in 0..channel.peer_number() {
        if let Some(state) = channel.peers_commitment(number) {
            let kept = match book.keeps(index, state.number) {
                Some(kept) => Piece::flag(kept),
                None => Text("null"),
            };
            tell_closing(alloc, line, channel, close, &[], state, "revoked", kept);
        }
    }
}

// Writes what the sides of a channel agreed on, and with which commitment this side closed it, if it did.
fn tell_terms(line: &mut Page, book: &Book, index: u64, channel: &Channel) {
    let (terms, side) = (channel.terms(), channel.side());
    let txid = terms.funding.txid;
    line.write(
        r#"{"channel":%,"funding":"%:%","explorer":"%","side":"%","opener":"%","capacity":%,"peer_delay":%"#,
        &[
            Count(index),
            Hash(txid),
            Count(u64::from(terms.funding.index)),
            explorer_id(&txid),
            side_name(side),
            side_name(terms.opener),
            Count(terms.capacity_sat),
            Count(u64::from(terms.party(side.other()).delay_blocks)),
        ],
    );
    if let Some(number) = closed_with(book, index, channel) {
        line.write(r#","closed":%"#, &[Count(number)]);
    }
}

// Writes the line of a channel: its terms, the commitments that may be broadcast without a penalty, the least that it gives, the HTLCs in them, and the closings.
fn tell_channel(alloc: Global, line: &mut Page, book: &Book, index: u64, channel: &Channel) {
    let side = channel.side();
    tell_terms(line, book, index, channel);
    tell_source(line, channel, r#","ours":"#, Source::Ours);
    tell_source(line, channel, r#","theirs":"#, Source::Theirs);
    tell_source(line, channel, r#","next":"#, Source::Next);
    tell_least(alloc, line, channel, book.preimages(index));
    line.push(r#","htlcs":["#);
    tell_offered(line, channel, "offered", side);
    tell_offered(line, channel, "received", side.other());
    line.push(r#"],"closes":["#);
    match hashes_of(alloc, book.preimages(index)) {
        Ok(hashes) => tell_unrevoked(alloc, line, channel, hashes.as_slice()),
        Err(_) => line.fail(),
    }
    tell_revoked(alloc, line, book, index, channel);
    line.push("]}\n");
}

/// Writes the lines of a book: one for each of its channels, and one for the book, with the notes on the text of its dump.
pub fn tell_book(alloc: Global, line: &mut Page, book: &Book, notes: &str) {
    let channels = book.channel_count();
    for index in 0..channels {
        if let Some(channel) = book.channel(index) {
            tell_channel(alloc, line, book, index, channel);
        }
    }
    line.write(
        r#"{"entries":%,"channels":%"#,
        &[Count(book.entries().len() as u64), Count(channels)],
    );
    tell_notes(line, Form::Json, notes);
    line.push("}\n");
}
