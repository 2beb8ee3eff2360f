// Which part of a request does not have its shape, and what is wanted there.

use crate::close_requests::{member_height, member_whose};
use crate::revoked_requests::{
    htlc_of, member_channel_type, member_funding_keys, member_keys, member_transaction,
};
use claim::{Shell, Slot};
use json_value::Value;
use page::Page;
use page::Piece::Count;
use std::alloc::Global;
use texts::{FromValue, ReadValue};
use tx::{MAX_INPUTS, OutPoint};
use warnings::{TextFault, text_fault};

// What a value is to be. Of a request's own members some have a kind that no other has.
enum Kind {
    Satoshis,
    Feerate,
    Path,
    Bytes,
    Outpoint,
    Shell,
    Slot,
    Preimage,
    Output,
    ChannelType,
    Height,
    Blocks,
    Htlc,
    Keys,
    Transaction,
    Whose,
    HeightOrNull,
    FundingKeys,
}

// How many values a member has.
enum Number {
    One,
    AtMostOne,
    Array,
}

/// A member.
pub struct Member(&'static str, Kind, Number);

/// The members of a request for a spend.
pub static REQUEST: [Member; 6] = [
    Member("destination", Kind::Bytes, Number::One),
    Member("feerate_per_kw", Kind::Feerate, Number::One),
    Member("least_feerate_per_kw", Kind::Feerate, Number::AtMostOne),
    Member("most_feerate_per_kw", Kind::Feerate, Number::AtMostOne),
    Member("preimages", Kind::Preimage, Number::Array),
    Member("outputs", Kind::Output, Number::Array),
];

/// Those of a request about a revoked commitment.
pub static REVOKED: [Member; 7] = [
    Member("channel_type", Kind::ChannelType, Number::One),
    Member("confirmed_height", Kind::Height, Number::One),
    Member("delay_blocks", Kind::Blocks, Number::One),
    Member("funding_keys", Kind::FundingKeys, Number::One),
    Member("htlcs", Kind::Htlc, Number::Array),
    Member("keys", Kind::Keys, Number::One),
    Member("transaction", Kind::Transaction, Number::One),
];

/// Those of a request about an unrevoked commitment.
pub static CLOSE: [Member; 10] = [
    Member("channel_type", Kind::ChannelType, Number::One),
    Member("confirmed_height", Kind::HeightOrNull, Number::One),
    Member("delay_blocks", Kind::Blocks, Number::One),
    Member("feerate_per_kw", Kind::Feerate, Number::One),
    Member("funding_keys", Kind::FundingKeys, Number::One),
    Member("htlcs", Kind::Htlc, Number::Array),
    Member("keys", Kind::Keys, Number::One),
    Member("preimages", Kind::Preimage, Number::Array),
    Member("transaction", Kind::Transaction, Number::One),
    Member("whose", Kind::Whose, Number::One),
];

static OUTPUT: [Member; 8] = [
    Member("outpoint", Kind::Outpoint, Number::AtMostOne),
    Member("explorer", Kind::Outpoint, Number::AtMostOne),
    Member("path", Kind::Path, Number::One),
    Member("program", Kind::Bytes, Number::One),
    Member("script", Kind::Bytes, Number::One),
    Member("shell", Kind::Shell, Number::One),
    Member("slots", Kind::Slot, Number::Array),
    Member("value", Kind::Satoshis, Number::One),
];

impl Kind {
    // Whether a value of an object is of this kind. What an output has in it is not asked.
    fn fits(&self, alloc: Global, form: &Value, value: &Value) -> bool {
        match self {
            Kind::Satoshis | Kind::Path => value.as_u64().is_some(),
            Kind::Feerate | Kind::Height => u32::from_value(value).is_some(),
            Kind::Bytes => match value.as_str() {
                Some(text) => text_fault(text).is_none(),
                None => false,
            },
            Kind::Outpoint => OutPoint::from_value(value).is_some(),
            Kind::Shell => is_read::<Shell>(alloc, value),
            Kind::Slot => is_read::<Slot>(alloc, value),
            Kind::Preimage => <[u8; 32]>::from_value(value).is_some(),
            Kind::Output => value.as_object().is_some(),
            Kind::ChannelType => member_channel_type(form).is_some(),
            Kind::Blocks => u16::from_value(value).is_some(),
            Kind::Htlc => htlc_of(value).is_some(),
            Kind::Keys => member_keys(form).is_some(),
            Kind::Transaction => member_transaction(alloc, form).is_ok(),
            Kind::Whose => member_whose(form).is_some(),
            Kind::HeightOrNull => member_height(form).is_some(),
            Kind::FundingKeys => member_funding_keys(form).is_some(),
        }
    }

    // What is wanted, in words.
    fn text(&self) -> &'static str {
        match self {
            Kind::Satoshis => "satoshis, as an integer without point, sign and quotes",
            Kind::Feerate => {
                "satoshis for 1,000 units of weight, as an integer of at most 32 bits without quotes"
            }
            Kind::Path => "the number of a path from 0, without quotes",
            Kind::Bytes => "bytes in hexadecimal, in quotes",
            Kind::Outpoint => {
                "\"TXID:INDEX\", with 64 hexadecimal digits and an index below 2^32"
            }
            Kind::Shell => "null",
            Kind::Slot => {
                "[\"sig\",KEY], [\"preimage\",SHA256] or [\"exact\",BYTES], with a compressed key, a hash of 32 bytes or at most 520 bytes in hexadecimal"
            }
            Kind::Preimage => "32 bytes in hexadecimal",
            Kind::Output => "an object",
            Kind::ChannelType => "static_remotekey or anchors, in quotes",
            Kind::Height => "a height, as an integer of at most 32 bits without quotes",
            Kind::Blocks => "a number of blocks, as an integer of at most 16 bits without quotes",
            Kind::Htlc => {
                "an object of direction, offered or received, hash, 32 bytes in hexadecimal, and expiry_height, below 500000000"
            }
            Kind::Keys => {
                "an object of revocation, delayed, local_htlc, remote_htlc and remote, each a compressed key in hexadecimal"
            }
            Kind::Transaction => {
                "a transaction in hexadecimal, with or without its witnesses (BIP 144)"
            }
            Kind::Whose => "own or peer, in quotes",
            Kind::HeightOrNull =>
                "a height, as an integer of at most 32 bits without quotes, or null",
            Kind::FundingKeys => {
                "an object of own and peer, each a compressed key in hexadecimal, or null"
            }
        }
    }
}

// Whether a value is read as one of a type.
fn is_read<T: ReadValue + Drop>(alloc: Global, value: &Value) -> bool {
    T::read_value(alloc, value).is_ok()
}

// Begins a note on the whole request, or on an output.
fn begin(notes: &mut Page, output: Option<u64>, name: &str) {
    notes.push("note: ");
    if let Some(output) = output {
        notes.write("outputs[%]", &[Count(output)]);
        notes.push(if name.is_empty() { "" } else { "." });
    }
    notes.push(name);
}

// Ends a note on a value with what is wanted in its place.
fn wanted(notes: &mut Page, kind: &Kind, value: &Value) {
    notes.push(": wanted: ");
    notes.push(kind.text());
    if let Kind::Bytes = kind {
        if let Some(text) = value.as_str() {
            match text_fault(text) {
                Some(TextFault::Address) => notes.push(
                    "; of an address, those that bitcoin-cli validateaddress ADDRESS has as scriptPubKey",
                ),
                Some(TextFault::PrivateKey) => notes.push(
                    "; this looks like a private key, which nothing here asks for: move what it guards to another key",
                ),
                Some(TextFault::Prefix) => notes.push("; without 0x"),
                Some(TextFault::Odd(_)) => notes.push("; two digits for each byte"),
                _ => {}
            }
        }
    }
    notes.push("\n");
}

// Notes the value of an object's member, or the first of its array, if it is of another kind.
fn note_value(
    alloc: Global,
    notes: &mut Page,
    output: Option<u64>,
    form: &Value,
    member: &Member,
    value: &Value,
) {
    let Number::Array = member.2 else {
        if !member.1.fits(alloc, form, value) {
            begin(notes, output, member.0);
            wanted(notes, &member.1, value);
        }
        return;
    };
    let Some(items) = value.as_array() else {
        begin(notes, output, member.0);
        notes.push(": wanted: an array\n");
        return;
    };
    for (index, item) in items.iter().enumerate() {
        if !member.1.fits(alloc, form, item) {
            begin(notes, output, member.0);
            notes.write("[%]", &[Count(index as u64)]);
            wanted(notes, &member.1, item);
            return;
        }
    }
}

/// The name as it is said: a question mark for one that is long, or has characters that are not seen.
pub fn said(name: &str) -> &str {
    if name.len() > 40 {
        return "?";
    }
    for byte in name.as_bytes() {
        if !byte.is_ascii_graphic() {
            return "?";
        }
    }
    name
}

// Whether a member has this name.
fn has_name(members: &[Member], name: &str) -> bool {
    for member in members {
        if member.0 == name {
            return true;
        }
    }
    false
}

// Notes the first member of an object that does not belong to it, is missing, or is of another kind.
fn note_object(
    alloc: Global,
    notes: &mut Page,
    output: Option<u64>,
    value: &Value,
    members: &[Member],
) {
    for (name, _) in value.as_object().unwrap_or(&[]) {
        if notes.text().is_empty() && !has_name(members, name.as_str()) {
            begin(notes, output, said(name.as_str()));
            notes.push(": no member of this name belongs here\n");
        }
    }
    for member in members {
        if notes.text().is_empty() {
            match value.member(member.0) {
                Some(found) => note_value(alloc, notes, output, value, member, found),
                None if matches!(member.2, Number::AtMostOne) => {}
                None => {
                    begin(notes, output, member.0);
                    notes.push(": it is missing\n");
                }
            }
        }
    }
}

// Notes an output that has no outpoint, or two.
fn note_outpoint(notes: &mut Page, output: u64, value: &Value) {
    if notes.text().is_empty()
        && value.member("outpoint").is_some() == value.member("explorer").is_some()
    {
        begin(notes, Some(output), "");
        notes.push(
            ": wanted: either outpoint, with the id in the hash's own byte order, or explorer, with the id as explorers show it\n",
        );
    }
}

/// Notes a request that is no object, or the first part of it that does not have its shape, where it has these members.
pub fn note_shape(alloc: Global, notes: &mut Page, value: &Value, members: &[Member]) {
    if value.as_object().is_none() {
        notes.push("note: the request: wanted: an object\n");
        return;
    }
    note_object(alloc, notes, None, value, members);
    if let Some(outputs) = value.member("outputs") {
        note_outputs(alloc, notes, outputs.as_array().unwrap_or(&[]));
    }
}

// Notes the first output that does not have its shape, or what is wrong with the whole where each has.
fn note_outputs(alloc: Global, notes: &mut Page, outputs: &[Value]) {
    let mut index: u64 = 0;
    for output in outputs {
        if notes.text().is_empty() {
            note_object(alloc, notes, Some(index), output, &OUTPUT);
            note_outpoint(notes, index, output);
        }
        index = index.wrapping_add(1);
    }
    if notes.text().is_empty() {
        if outputs.is_empty() || outputs.len() > MAX_INPUTS {
            notes.push("note: outputs: wanted: 1 to 4000 of them\n");
        } else {
            notes.push("note: destination: wanted: at most 10000 bytes\n");
        }
    }
}
