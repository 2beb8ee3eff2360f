// How the channels of a scenario are closed, and which HTLCs have an output then.

use crate::messages::commitments_of;
use scenario::Event;
use terms::{ProposedTerms, Side};
use updates::OwnUpdate;

/// The first commitment of a channel that is sent to the pool, by a close or a broadcast.
#[derive(Clone, Copy)]
pub struct Closing {
    pub event: usize,
    /// Whose commitment it is.
    pub side: Side,
    /// Whether that side revokes it, before or after: then the other one may take all of it.
    pub is_revoked: bool,
}

/// How a channel is closed, if it is.
pub(crate) fn closing_of(
    events: &[Event],
    came: &[Option<usize>],
    channel: u64,
) -> Option<Closing> {
    for (at, event) in events.iter().enumerate() {
        if let Some((side, number)) = sent_in(event, channel) {
            return Some(Closing {
                event: at,
                side,
                is_revoked: number < commitments_of(events, came, channel, side),
            });
        }
    }
    None
}

// Whose commitment of a channel an event sends to the pool, and its number. A close sends the newest, which stays so.
fn sent_in(event: &Event, channel: u64) -> Option<(Side, u64)> {
    match event {
        Event::Close {
            side,
            channel: place,
        } if *place == channel => Some((*side, u64::MAX)),
        Event::Broadcast {
            side,
            channel: place,
            number,
        } if *place == channel => Some((*side, *number)),
        _ => None,
    }
}

/// With how many millisatoshis an HTLC surely has an output in each commitment of a channel: by BOLT 3 ('Trimmed Outputs'), at the greater dust limit, the greatest feerate, and the weight of an HTLC-success transaction.
pub(crate) fn least_with_output(terms: &ProposedTerms, channel: u64, events: &[Event]) -> u64 {
    let mut feerate = terms.feerate_per_kw;
    for event in events {
        feerate = feerate.max(feerate_by(event, channel));
    }
    let fee = u64::from(feerate).saturating_mul(703) / 1000;
    let dust = terms.a.dust_sat.max(terms.b.dust_sat);
    dust.saturating_add(fee).saturating_mul(1000)
}

// The feerate that an event sets in a channel; 0 where it sets none.
fn feerate_by(event: &Event, channel: u64) -> u32 {
    match event {
        Event::Own {
            channel: place,
            update: OwnUpdate::SetFee { feerate_per_kw },
            ..
        } if *place == channel => *feerate_per_kw,
        _ => 0,
    }
}
