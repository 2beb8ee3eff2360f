//! Plays two nodes with a book each, as the lines of its input say. `open CHANNELS` gives both an empty book and opens this number of channels. `A offer MILLISATOSHIS EXPIRY`, `A fee RATE`, `A sign`, `A
//! deliver`, `A keep NUMBER`, `A release NUMBER` (the penalties of the peer's commitment) and `A close`, or the same of B, are calls in the first channel. `A zeros` gives A a revocation with a secret of
//! zeros.
//!
//! It prints the result of each call, and after a refusal whether the dump changed. `entries` prints how many entries both histories have. `beginnings`, `damages` and `version` change A's dump and load
//! it, and `dump` prints it. `load TEXT` loads a text, and `stored TEXT` dumps it again. `random GAMES` dumps, loads and dumps again the histories of random games.

mod damages;
mod loading;
mod random;

use book_dump::Dump;
use book_peers::{Act, Peers, Reply, offer};
use loading::{show_beginnings, show_damages, show_loaded, show_stored, show_version};
use page::Page;
use random::show_games;
use terms::Side;
use updates::OwnUpdate;

/// The number that a word names, or 0.
fn number(word: &str) -> u64 {
    word.parse().unwrap_or(0)
}

/// The same, of 32 bits.
fn short_number(word: &str) -> u32 {
    u32::try_from(number(word)).unwrap_or(0)
}

/// An offer of an amount in millisatoshis, up to an expiry.
fn offer_of(words: &str) -> Act {
    let (amount_msat, expiry_height) = words.split_once(' ').unwrap_or((words, ""));
    Act::Update(offer(number(amount_msat), short_number(expiry_height)))
}

/// The call of a word followed by numbers.
fn act_with(word: &str, words: &str) -> Option<Act> {
    if word == "offer" {
        Some(offer_of(words))
    } else if word == "fee" {
        Some(Act::Update(OwnUpdate::SetFee {
            feerate_per_kw: short_number(words),
        }))
    } else if word == "keep" {
        Some(Act::Keep(number(words)))
    } else if word == "release" {
        Some(Act::Release(number(words)))
    } else {
        None
    }
}

/// The call of a single word.
fn plain_act(word: &str) -> Option<Act> {
    if word == "sign" {
        Some(Act::Sign)
    } else if word == "deliver" {
        Some(Act::Deliver)
    } else if word == "zeros" {
        Some(Act::Zeros)
    } else if word == "close" {
        Some(Act::Close)
    } else {
        None
    }
}

/// The call that the words name.
fn act_of(words: &str) -> Option<Act> {
    match words.split_once(' ') {
        Some((word, words)) => act_with(word, words),
        None => plain_act(words),
    }
}

/// Writes the result of a call.
fn write_reply(page: &mut Page, reply: Reply) {
    match reply {
        Reply::Done => page.push("ok"),
        Reply::NoMessage => page.push("NoMessage"),
        Reply::NotUpdated(error) => page.show(&error),
        Reply::NotSigned(error) => page.show(&error),
        Reply::NotKept(error) => page.show(&error),
    }
}

/// Shows whether a side's dump is still this one.
fn show_unchanged(page: &mut Page, peers: &Peers, side: Side, before: &str) {
    match peers.node(side).book.dump(page.alloc()) {
        Ok(after) => page.push(if after.as_str() == before {
            "  unchanged: true\n"
        } else {
            "  unchanged: false\n"
        }),
        Err(_) => page.fail(),
    }
}

/// A side acts in a channel; `None` if that can't be done.
fn reply_of(peers: &mut Peers, side: Side, channel: usize, act: Act) -> Option<Reply> {
    peers.act(side, channel, act).ok()
}

/// Shows the result of a call of a side that had this dump; after a refusal also whether the dump changed.
fn show_reply(page: &mut Page, peers: &Peers, side: Side, reply: Reply, before: &str) {
    write_reply(page, reply);
    page.push("\n");
    if !matches!(reply, Reply::Done) {
        show_unchanged(page, peers, side, before);
    }
}

/// Plays a call of a side with this dump.
fn play_from(page: &mut Page, peers: &mut Peers, side: Side, words: &str, before: &str) {
    let Some(act) = act_of(words) else {
        return page.fail();
    };
    match reply_of(peers, side, 0, act) {
        Some(reply) => show_reply(page, peers, side, reply, before),
        None => page.fail(),
    }
}

/// Plays the call that the words of a line name.
fn play_line(page: &mut Page, peers: &mut Peers, side: Side, words: &str) {
    match peers.node(side).book.dump(page.alloc()) {
        Ok(before) => play_from(page, peers, side, words, before.as_str()),
        Err(_) => page.fail(),
    }
}

/// Shows how many entries the histories of both have.
fn show_entries(page: &mut Page, peers: &Peers) {
    page.count("entries of A ", peers.a.book.entries().len() as u64);
    page.count(", of B ", peers.b.book.entries().len() as u64);
    page.push("\n");
}

/// Shows what a word asks of A's dump.
fn show_dump(page: &mut Page, word: &str, dump: &mut String) {
    if word == "beginnings" {
        show_beginnings(page, dump);
    } else if word == "damages" {
        show_damages(page, dump.as_str());
    } else if word == "version" {
        show_version(page, dump.as_str());
    } else if word == "dump" {
        page.push(dump.as_str());
        page.push("\n");
    } else {
        page.fail();
    }
}

/// Handles a line of one word about A's dump.
fn follow_dump(page: &mut Page, peers: &Peers, word: &str) {
    match peers.a.book.dump(page.alloc()) {
        Ok(mut dump) => show_dump(page, word, &mut dump),
        Err(_) => page.fail(),
    }
}

/// Handles a line of one word.
fn follow_word(page: &mut Page, peers: &Peers, word: &str) {
    if word == "entries" {
        show_entries(page, peers);
    } else {
        follow_dump(page, peers, word);
    }
}

/// Handles a line of two words or more.
fn follow_words(page: &mut Page, peers: &mut Peers, line: &str, word: &str, words: &str) {
    if word == "load" {
        show_loaded(page, line, words);
    } else if word == "stored" {
        show_stored(page, words);
    } else if word == "random" {
        show_games(page, short_number(words));
    } else {
        page.push(line);
        page.push(": ");
        play_line(
            page,
            peers,
            if word == "A" { Side::A } else { Side::B },
            words,
        );
    }
}

/// Handles a line.
fn follow(page: &mut Page, peers: &mut Peers, line: &str) {
    match line.split_once(' ') {
        Some((word, words)) => follow_words(page, peers, line, word, words),
        None => follow_word(page, peers, line),
    }
}

/// Opens this number of channels, and handles the lines.
fn follow_all(page: &mut Page, peers: &mut Peers, channels: u32, lines: &str) {
    if peers.open(page.alloc(), channels).is_err() {
        return page.fail();
    }
    for line in lines.lines() {
        follow(page, peers, line);
    }
}

/// Handles the lines after the opening of this number of channels.
fn play(page: &mut Page, channels: u32, lines: &str) {
    let mut peers = Peers::new(page.alloc());
    follow_all(page, &mut peers, channels, lines);
}

/// Handles all lines. Before the first `open` there is no channel.
pub fn show_all(page: &mut Page, lines: &str) {
    let (before, others) = lines.split_once("\nopen ").unwrap_or((lines, ""));
    play(page, 0, before);
    for group in others.split("\nopen ") {
        if let Some((channels, lines)) = group.split_once('\n') {
            play(page, short_number(channels), lines);
        }
    }
}
