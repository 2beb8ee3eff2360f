//! The printed names of refusals.

use crate::fixtures::is_printed;
use keys::SignError;
use sighash::DigestError;
use tx::{DecodeError, EncodeError, FieldError, LimitError};
use updates::ChannelError;

const CHANNEL_ERRORS: [(ChannelError, &str); 17] = [
    (ChannelError::NoMemory, "NoMemory"),
    (ChannelError::AmountZero, "AmountZero"),
    (ChannelError::BelowMinimum, "BelowMinimum"),
    (ChannelError::ExpiryTooLarge, "ExpiryTooLarge"),
    (ChannelError::WrongId, "WrongId"),
    (ChannelError::TooManyHtlcs, "TooManyHtlcs"),
    (ChannelError::OverBalance, "OverBalance"),
    (ChannelError::UnknownHtlc, "UnknownHtlc"),
    (ChannelError::WrongPreimage, "WrongPreimage"),
    (ChannelError::NoUpdates, "NoUpdates"),
    (ChannelError::BadSignature, "BadSignature"),
    (ChannelError::WrongSecret, "WrongSecret"),
    (ChannelError::NotYourTurn, "NotYourTurn"),
    (ChannelError::NotOpener, "NotOpener"),
    (ChannelError::PeerBehind, "PeerBehind"),
    (ChannelError::NeverSigned, "NeverSigned"),
    (ChannelError::AlreadyFulfilled, "AlreadyFulfilled"),
];

const DECODE_ERRORS: [(DecodeError, &str); 9] = [
    (DecodeError::NoMemory, "NoMemory"),
    (DecodeError::Truncated, "Truncated"),
    (DecodeError::LongCount, "LongCount"),
    (DecodeError::BadMarker, "BadMarker"),
    (DecodeError::NoInputs, "NoInputs"),
    (DecodeError::NoWitness, "NoWitness"),
    (DecodeError::ValueTooLarge, "ValueTooLarge"),
    (DecodeError::Trailing, "Trailing"),
    (DecodeError::OverLimit, "OverLimit"),
];

const FIELD_ERRORS: [(FieldError, &str); 3] = [
    (FieldError::NoInputs, "NoInputs"),
    (FieldError::ValueTooLarge, "ValueTooLarge"),
    (FieldError::OverLimit, "OverLimit"),
];

#[test]
fn prints_every_refusal(rt: HostRuntime) {
    let alloc = rt.alloc();
    for (refusal, name) in &CHANNEL_ERRORS {
        assert!(rt; is_printed(alloc, refusal, name));
    }
    for (refusal, name) in &DECODE_ERRORS {
        assert!(rt; is_printed(alloc, refusal, name));
    }
    for (refusal, name) in &FIELD_ERRORS {
        assert!(rt; is_printed(alloc, refusal, name));
    }
    assert!(rt; is_printed(alloc, &EncodeError::NoMemory, "NoMemory"));
    assert!(rt; is_printed(alloc, &EncodeError::NoWitness, "NoWitness"));
    assert!(rt; is_printed(alloc, &LimitError::NoMemory, "NoMemory"));
    assert!(rt; is_printed(alloc, &LimitError::OverLimit, "OverLimit"));
    assert!(rt; is_printed(alloc, &DigestError::NoSuchInput, "NoSuchInput"));
    assert!(rt; is_printed(alloc, &SignError::NoRight, "NoRight"));
    assert!(rt; SignError::NoRight.number() == 1);
}
