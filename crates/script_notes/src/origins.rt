// Bytes that anybody knows where a secret is expected: points whose private key all know, or nobody, and hashes of them, of their scripts, and of the items that come to mind first.

use crate::curve::is_long_key;
use digest::{hash160, sha256};
use std::fmt;

// The x coordinate of the point G, whose private key is 1 (SEC 2, 2.4.1).
const G_X: [u8; 32] = [
    0x79, 0xbe, 0x66, 0x7e, 0xf9, 0xdc, 0xbb, 0xac, 0x55, 0xa0, 0x62, 0x95, 0xce, 0x87, 0x0b, 0x07,
    0x02, 0x9b, 0xfc, 0xdb, 0x2d, 0xce, 0x28, 0xd9, 0x59, 0xf2, 0x81, 0x5b, 0x16, 0xf8, 0x17, 0x98,
];

// Its y coordinate, which is even, and that of its negation.
const G_Y: [u8; 32] = [
    0x48, 0x3a, 0xda, 0x77, 0x26, 0xa3, 0xc4, 0x65, 0x5d, 0xa4, 0xfb, 0xfc, 0x0e, 0x11, 0x08, 0xa8,
    0xfd, 0x17, 0xb4, 0x48, 0xa6, 0x85, 0x54, 0x19, 0x9c, 0x47, 0xd0, 0x8f, 0xfb, 0x10, 0xd4, 0xb8,
];

const NEGATED_Y: [u8; 32] = [
    0xb7, 0xc5, 0x25, 0x88, 0xd9, 0x5c, 0x3b, 0x9a, 0xa2, 0x5b, 0x04, 0x03, 0xf1, 0xee, 0xf7, 0x57,
    0x02, 0xe8, 0x4b, 0xb7, 0x59, 0x7a, 0xab, 0xe6, 0x63, 0xb8, 0x2f, 0x6f, 0x04, 0xef, 0x27, 0x77,
];

// The x coordinates of twice G, of three times G, and of half of it. Each y coordinate is even.
const TWO_G: [u8; 32] = [
    0xc6, 0x04, 0x7f, 0x94, 0x41, 0xed, 0x7d, 0x6d, 0x30, 0x45, 0x40, 0x6e, 0x95, 0xc0, 0x7c, 0xd8,
    0x5c, 0x77, 0x8e, 0x4b, 0x8c, 0xef, 0x3c, 0xa7, 0xab, 0xac, 0x09, 0xb9, 0x5c, 0x70, 0x9e, 0xe5,
];

const THREE_G: [u8; 32] = [
    0xf9, 0x30, 0x8a, 0x01, 0x92, 0x58, 0xc3, 0x10, 0x49, 0x34, 0x4f, 0x85, 0xf8, 0x9d, 0x52, 0x29,
    0xb5, 0x31, 0xc8, 0x45, 0x83, 0x6f, 0x99, 0xb0, 0x86, 0x01, 0xf1, 0x13, 0xbc, 0xe0, 0x36, 0xf9,
];

const HALF_G: [u8; 32] = [
    0x00, 0x00, 0x00, 0x00, 0x00, 0x00, 0x00, 0x00, 0x00, 0x00, 0x00, 0x3b, 0x78, 0xce, 0x56, 0x3f,
    0x89, 0xa0, 0xed, 0x94, 0x14, 0xf5, 0xaa, 0x28, 0xad, 0x0d, 0x96, 0xd6, 0x79, 0x5f, 0x9c, 0x63,
];

// The x coordinate of the point H of BIP 341, whose private key nobody knows.
const H: [u8; 32] = [
    0x50, 0x92, 0x9b, 0x74, 0xc1, 0xa0, 0x49, 0x54, 0xb7, 0x8b, 0x4b, 0x60, 0x35, 0xe9, 0x7a, 0x5e,
    0x07, 0x8a, 0x5a, 0x0f, 0x28, 0xec, 0x96, 0xd5, 0x47, 0xbf, 0xee, 0x9a, 0xce, 0x80, 0x3a, 0xc0,
];

// The x coordinates of the two as BIP 86 makes them the key of a taproot output without scripts.
const G_OUTPUT: [u8; 32] = [
    0xda, 0x47, 0x10, 0x96, 0x4f, 0x78, 0x52, 0x69, 0x5d, 0xe2, 0xda, 0x02, 0x52, 0x90, 0xe2, 0x4a,
    0xf6, 0xd8, 0xc2, 0x81, 0xde, 0x5a, 0x0b, 0x90, 0x2b, 0x71, 0x35, 0xfd, 0x9f, 0xd7, 0x4d, 0x21,
];

const H_OUTPUT: [u8; 32] = [
    0x19, 0x2c, 0x2a, 0x30, 0xcb, 0xd7, 0xd0, 0x35, 0x2f, 0x94, 0xd4, 0xc3, 0x1a, 0x43, 0xf7, 0x67,
    0xf1, 0xef, 0x43, 0xd7, 0xff, 0x64, 0x38, 0x83, 0x98, 0x80, 0xec, 0x07, 0x5d, 0x81, 0xa9, 0xf6,
];

// A point whose private key all know, or nobody: its x coordinate, and what it is where its y coordinate is even, and where it is odd. A name stands before the colon.
struct KnownPoint {
    x: [u8; 32],
    even: &'static str,
    odd: &'static str,
    has_signer: bool,
}

// The curve has n points (SEC 2, 2.4.1).
const POINTS: [KnownPoint; 7] = [
    KnownPoint {
        x: G_X,
        even: G,
        odd: NEGATED_G,
        has_signer: true,
    },
    KnownPoint {
        x: TWO_G,
        even: "the point 2G, whose private key is 2: anyone can sign for it",
        odd: "the point -2G, whose private key is n - 2: anyone can sign for it",
        has_signer: true,
    },
    KnownPoint {
        x: THREE_G,
        even: "the point 3G, whose private key is 3: anyone can sign for it",
        odd: "the point -3G, whose private key is n - 3: anyone can sign for it",
        has_signer: true,
    },
    KnownPoint {
        x: HALF_G,
        even: "the point G/2, whose private key is (n + 1) / 2: anyone can sign for it",
        odd: "the point -G/2, whose private key is (n - 1) / 2: anyone can sign for it",
        has_signer: true,
    },
    KnownPoint {
        x: G_OUTPUT,
        even: OUTPUT_OF_G,
        odd: OUTPUT_OF_G,
        has_signer: true,
    },
    KnownPoint {
        x: H,
        even: OF_BIP_341,
        odd: OF_BIP_341,
        has_signer: false,
    },
    KnownPoint {
        x: H_OUTPUT,
        even: OUTPUT_OF_H,
        odd: OUTPUT_OF_H,
        has_signer: false,
    },
];

const G: &str = "the point G, whose private key is 1: anyone can sign for it";

const NEGATED_G: &str = "the point -G, whose private key is n - 1: anyone can sign for it";

const OUTPUT_OF_G: &str =
    "what BIP 86 makes of the point G, whose private key is 1: anyone can sign for it";

const OF_BIP_341: &str =
    "the point H of BIP 341, whose private key nobody knows: nobody can sign for it";

const OUTPUT_OF_H: &str =
    "what BIP 86 makes of the point H, whose private key nobody knows: nobody can sign for it";

// The greatest number that is looked for in 32 bytes.
const MAX_NUMBER: u8 = 16;

/// What 20 or 32 bytes are in the place of a hash, where they are no secret's.
#[derive(Clone, Copy)]
pub enum Origin {
    /// Each byte is 0.
    Zeros,
    /// Each byte is ff.
    Ones,
    /// The hash of nothing.
    Nothing,
    /// The hash of the SHA-256 of nothing.
    HashOfNothing,
    /// The hash of the script of this byte.
    Script(u8),
    /// The hash of 32 bytes of this value.
    Repeated(u8),
    /// The hash of this number in 32 bytes, big-endian.
    Number(u8),
    /// The hash of a point, whose private key all know if it has a signer: its name, and how many bytes it has.
    Point(&'static str, usize, bool),
    /// The hash of a script or a program that asks for no more than a signature of a point: the name of that, and how many bytes it has.
    ScriptOfPoint(&'static str, usize),
    /// The HASH160 of what an opcode of the same script pushes, and how many bytes that has.
    Pushed(usize, usize),
}

impl Origin {
    /// How many bytes have this hash, as far as anybody knows.
    pub(crate) fn size(self) -> usize {
        match self {
            Origin::Script(_) => 1,
            Origin::HashOfNothing | Origin::Repeated(_) | Origin::Number(_) => 32,
            Origin::Point(_, size, _) | Origin::ScriptOfPoint(_, size) | Origin::Pushed(_, size) =>
                { size }
            _ => 0,
        }
    }
}

impl fmt::Display for Origin {
    fn fmt<W: fmt::Write>(&self, f: &mut fmt::Formatter<W>) -> fmt::Result {
        match self {
            Origin::Zeros => f.write_str("zeros"),
            Origin::Ones => f.write_str("bytes of ff"),
            Origin::Nothing => f.write_str("the hash of nothing"),
            Origin::HashOfNothing => f.write_str("the hash of the SHA-256 of nothing"),
            Origin::Script(byte) => write!(f, "the hash of the script {byte:02x}"),
            Origin::Repeated(byte) => write!(f, "the hash of 32 bytes of {byte:02x}"),
            Origin::Number(byte) => write!(f, "the hash of the number {byte} in 32 bytes"),
            Origin::Point(name, _, _) => write!(f, "the hash of {name}"),
            Origin::ScriptOfPoint(name, _) => write!(f, "the hash of a script of {name}"),
            Origin::Pushed(at, _) => write!(f, "the HASH160 of what opcode {at} pushes"),
        }
    }
}

/// What a key is, if everybody knows its private key, or nobody does: one of 33 or 65 bytes as scripts have it, or an x coordinate, whose y coordinate is even (BIP 340).
pub fn origin_of_point(key: &[u8]) -> Option<&'static str> {
    if key.len() == 32 {
        known_point(key, false)
    } else if key.len() == 33 && (key[0] == 2 || key[0] == 3) {
        known_point(&key[1..], key[0] == 3)
    } else if key.len() == 65 && is_long_key(key) {
        known_point(&key[1..33], key[64] % 2 == 1)
    } else {
        None
    }
}

// What the point with this x coordinate is, and with a y coordinate that is odd or even.
fn known_point(x: &[u8], is_odd: bool) -> Option<&'static str> {
    for point in &POINTS {
        if x == point.x.as_slice() {
            return Some(if is_odd { point.odd } else { point.even });
        }
    }
    None
}

/// What 20 or 32 bytes are in the place of a hash, if they are no secret's.
pub fn origin_of_hash(bytes: &[u8]) -> Option<Origin> {
    if bytes.len() != 20 && bytes.len() != 32 {
        return None;
    }
    if bytes.iter().all(|byte| *byte == 0) {
        Some(Origin::Zeros)
    } else if bytes.iter().all(|byte| *byte == 0xff) {
        Some(Origin::Ones)
    } else if is_hash_of(bytes, &[]) {
        Some(Origin::Nothing)
    } else if is_hash_of(bytes, &sha256(&[])) {
        Some(Origin::HashOfNothing)
    } else {
        match origin_of_point_hash(bytes) {
            Some(origin) => Some(origin),
            None => origin_of_item(bytes),
        }
    }
}

// The point whose hash bytes are, or that of a script of it, if there is one.
fn origin_of_point_hash(bytes: &[u8]) -> Option<Origin> {
    for point in &POINTS {
        for sign in 2u8..4 {
            let name = name_of(if sign == 2 { point.even } else { point.odd });
            let mut key = [sign; 33];
            key[1..].copy_from_slice(&point.x);
            if is_hash_of(bytes, &key) {
                return Some(Origin::Point(name, 33, point.has_signer));
            }
            if let Some(size) = size_of_script(bytes, &key) {
                return Some(Origin::ScriptOfPoint(name, size));
            }
        }
    }
    if is_hash_of_point(bytes, &G_Y) {
        Some(Origin::Point(name_of(G), 65, true))
    } else if is_hash_of_point(bytes, &NEGATED_Y) {
        Some(Origin::Point(name_of(NEGATED_G), 65, true))
    } else {
        None
    }
}

// The name of a point, of which it is said who can sign for it.
fn name_of(point: &'static str) -> &'static str {
    match point.split_once(':') {
        Some((name, _)) => name,
        None => point,
    }
}

// The item of one byte, of one byte over and over, or of a small number in 32 bytes, whose hash bytes are, if there is one.
fn origin_of_item(bytes: &[u8]) -> Option<Origin> {
    for code in 0u16..256 {
        let byte = (code % 256) as u8;
        let mut number = [0u8; 32];
        number[31] = byte;
        if is_hash_of(bytes, &[byte]) {
            return Some(Origin::Script(byte));
        } else if is_hash_of(bytes, &[byte; 32]) {
            return Some(Origin::Repeated(byte));
        } else if byte <= MAX_NUMBER && is_hash_of(bytes, &number) {
            return Some(Origin::Number(byte));
        }
    }
    None
}

// How many bytes the script of a key has whose hash bytes are: P2PK or P2PKH, or a program that pays to it: P2WPKH, or P2WSH of P2PK.
fn size_of_script(bytes: &[u8], key: &[u8; 33]) -> Option<usize> {
    let hash = hash160(key);
    let mut by_key = [33u8; 35];
    by_key[1..34].copy_from_slice(key);
    by_key[34] = 0xac;
    let mut by_hash = [20u8; 25];
    by_hash[0] = 0x76;
    by_hash[1] = 0xa9;
    by_hash[3..23].copy_from_slice(&hash);
    by_hash[23] = 0x88;
    by_hash[24] = 0xac;
    let mut short = [0u8; 22];
    short[1] = 20;
    short[2..].copy_from_slice(&hash);
    let mut long = [0u8; 34];
    long[1] = 32;
    long[2..].copy_from_slice(&sha256(&by_key));
    if is_hash_of(bytes, &by_key) {
        Some(by_key.len())
    } else if is_hash_of(bytes, &by_hash) {
        Some(by_hash.len())
    } else if is_hash_of(bytes, &short) {
        Some(short.len())
    } else if is_hash_of(bytes, &long) {
        Some(long.len())
    } else {
        None
    }
}

// Whether bytes are the hash of the point with the x coordinate of G and this y coordinate, in 65 bytes.
fn is_hash_of_point(bytes: &[u8], y: &[u8; 32]) -> bool {
    let mut key = [4u8; 65];
    key[1..33].copy_from_slice(&G_X);
    key[33..].copy_from_slice(y);
    is_hash_of(bytes, &key)
}

// Whether bytes are the HASH160 of others, or their SHA-256.
fn is_hash_of(bytes: &[u8], others: &[u8]) -> bool {
    if bytes.len() == 20 {
        bytes == hash160(others).as_slice()
    } else {
        bytes == sha256(others).as_slice()
    }
}

/// The keys of 33 bytes whose private key all know, or nobody, each by its place from 0; `None` after the last.
pub fn known_key(place: usize) -> Option<[u8; 33]> {
    match POINTS.get(place / 2) {
        Some(point) => {
            let mut key = [if place % 2 == 0 { 2u8 } else { 3 }; 33];
            key[1..].copy_from_slice(&point.x);
            Some(key)
        }
        None => None,
    }
}
