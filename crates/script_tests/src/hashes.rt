//! Digests from outside sources.

ghost use Rattle.std.specs.Prelude.{◌<◌};

use crate::fixtures::is_hex;
use digest::{Ripemd160, hash160, ripemd160, ripemd160_of_pieces, sha256, sha256d};
use hex::FromHex;

// The digest of a message that is hashed in pieces of `size` bytes; the last one may be shorter.
fn in_pieces(message: &[u8], size: usize) -> [u8; 20]
    requires { 0 < size }
{
    let mut hasher = Ripemd160::new();
    for piece in message.chunks(size) {
        hasher.update(piece);
    }
    hasher.finalize()
}

// Whether the message has this digest: whole, and cut into pieces of each size from 1 to 64.
fn has_digest(message: &[u8], text: &str) -> bool {
    let whole = ripemd160(message);
    for size in 1..65 {
        if in_pieces(message, size) != whole {
            return false;
        }
    }
    is_hex(&whole, text)
}

// The designers' own digests.
const DESIGNERS: [(&str, &str); 8] = [
    ("", "9c1185a5c5e9fc54612808977ee8f548b2258d31"),
    ("a", "0bdc9d2d256b3ee9daae347be6f4dc835a467ffe"),
    ("abc", "8eb208f7e05d987a9b044a8e98c6b087f15a0bfc"),
    ("message digest", "5d0689ef49d2fae572b881b123a85ffa21595f36"),
    (
        "abcdefghijklmnopqrstuvwxyz",
        "f71c27109c692c1b56bbdceb5b9d2865b3708dbc",
    ),
    (
        "abcdbcdecdefdefgefghfghighijhijkijkljklmklmnlmnomnopnopq",
        "12a053384a9c0c88e405a06c27dcf49ada62eb2b",
    ),
    (
        "ABCDEFGHIJKLMNOPQRSTUVWXYZabcdefghijklmnopqrstuvwxyz0123456789",
        "b0e20b6e3116640286ed3a87a5713079b21f5189",
    ),
    (
        "12345678901234567890123456789012345678901234567890123456789012345678901234567890",
        "9b752e45573d4b39f4dbd3323cab82bf63326bfb",
    ),
];

// A block of bytes.
const BLOCK: [u8; 64] = [
    0, 1, 2, 3, 4, 5, 6, 7, 8, 9, 10, 11, 12, 13, 14, 15, 16, 17, 18, 19, 20, 21, 22, 23, 24, 25,
    26, 27, 28, 29, 30, 31, 32, 33, 34, 35, 36, 37, 38, 39, 40, 41, 42, 43, 44, 45, 46, 47, 48, 49,
    50, 51, 52, 53, 54, 55, 56, 57, 58, 59, 60, 61, 62, 63,
];

// Beside the designers' messages: the greatest length whose padding fits in its block, the least one whose padding does
// not, and a whole block.
#[test]
fn digests_of_the_designers(rt: HostRuntime) {
    for (message, text) in &DESIGNERS {
        assert!(rt; has_digest(message.as_bytes(), text));
    }
    let fits = "3c86963b3ff646a65ae42996e9664c747cc7e5e6";
    assert!(rt; has_digest(&BLOCK[..55], fits));
    let exceeds = "ebdd79cfd4fd9949ef8089673d2620427f487cfb";
    assert!(rt; has_digest(&BLOCK[..56], exceeds));
    let fills = "2581f5e9f957b44b0fa24d31996de47409dd1e0f";
    assert!(rt; has_digest(&BLOCK, fills));
}

// `abc` as a list of pieces, one of which is empty; by a hasher from `default`; a list of no pieces; and a million
// letters `a`, in pieces of a thousand.
#[test]
fn pieces_in_a_list(rt: HostRuntime) {
    let wanted = ripemd160(b"abc");
    let mut hasher = Ripemd160::default();
    hasher.update(b"abc");
    assert!(rt; hasher.finalize() == wanted);
    let pieces: [&[u8]; 3] = [b"ab", b"", b"c"];
    assert!(rt; ripemd160_of_pieces(&pieces) == wanted);
    assert!(rt; ripemd160_of_pieces(&[]) == ripemd160(b""));
    let letters = [b'a'; 1000];
    let million: [&[u8]; 1000] = [&letters; 1000];
    let text = "52783243c1697bdbe16d37f97f68f08325dc1528";
    assert!(rt; is_hex(&ripemd160_of_pieces(&million), text));
}

// HASH160 of the generator of secp256k1 as a compressed key, as in a witness program of BIP 173's examples; and FIPS
// 180-4's example, once and twice.
#[test]
fn hash_of_a_public_key(rt: HostRuntime) {
    let key = "0279be667ef9dcbbac55a06295ce870b07029bfcdb2dce28d959f2815b16f81798";
    let key = <[u8; 33] as FromHex>::from_hex(key).expect(&rt, "66 hex digits");
    let wanted = "751e76e8199196d454941c45d1b3a323f1433bd6";
    let wanted = <[u8; 20] as FromHex>::from_hex(wanted).expect(&rt, "40 hex digits");
    assert_eq!(rt; hash160(&key), wanted);
    let once = "ba7816bf8f01cfea414140de5dae2223b00361a396177a9cb410ff61f20015ad";
    assert!(rt; is_hex(&sha256(b"abc"), once));
    let twice = "4f8b42c22dd3729b519ba6f68d2da7cc5b2d606d05daed5ad5128cc03e6c6358";
    assert!(rt; is_hex(&sha256d(b"abc"), twice));
}
