//! The line that opens a trace.

use crate::formats::Form;
use crate::names::{explorer_id, side_name};
use crate::notes::tell_notes;
use crate::scenarios::coins::{Coin, Kind, Told};
use page::Page;
use page::Piece::{Count, Hash};
use terms::{Side, Terms};
use world::World;

// Writes the terms of a new channel, whose funding output is on the chain.
fn tell_channel(line: &mut Page, told: &mut Told, channel: u64, terms: &Terms) {
    let (a, b) = (&terms.a, &terms.b);
    let txid = terms.funding.txid;
    line.element(
        r#"{"funding":"%:%","explorer":"%","capacity":%,"opener":"%","feerate":%,"dust":[%,%],"delay":[%,%],"minimum":[%,%],"start":[%,%]}"#,
        &[
            Hash(txid),
            Count(u64::from(terms.funding.index)),
            explorer_id(&txid),
            Count(terms.capacity_sat),
            side_name(terms.opener),
            Count(u64::from(terms.feerate_per_kw)),
            Count(a.dust_sat),
            Count(b.dust_sat),
            Count(u64::from(a.delay_blocks)),
            Count(u64::from(b.delay_blocks)),
            Count(a.minimum_msat),
            Count(b.minimum_msat),
            Count(a.start_msat),
            Count(b.start_msat),
        ],
    );
    let coin = Coin {
        channel,
        value: terms.capacity_sat,
        kind: Kind::Funding,
        owner: terms.opener,
        holder: terms.opener,
        is_revoked: false,
        height: 0,
        due: 0,
    };
    told.begin(line, &terms.funding, coin);
    told.standing.open(line, &terms.funding);
}

/// Writes the opening: the terms of each channel, whose funding outputs are on the chain,
/// and the notes on the text.
pub fn tell_opening(line: &mut Page, told: &mut Told, world: &World, events: usize, notes: &str) {
    let book = world.book(Side::A);
    line.write(
        r#"{"opening":{"events":%,"channels":["#,
        &[Count(events as u64)],
    );
    for index in 0..book.channel_count() {
        if let Some(channel) = book.channel(index) {
            tell_channel(line, told, index, channel.terms());
        }
    }
    line.push("]");
    tell_notes(line, Form::Json, notes);
    line.push("}}\n");
}
