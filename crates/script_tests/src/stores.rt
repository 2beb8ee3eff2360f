//! The generation and storage tests of BOLT 3, appendix D, and what a store answers in small cases.

use crate::fixtures::is_hex;
use hex::FromHex;
use secrets::{Store, StoreError, from_seed};
use std::process::Abort;

/// The greatest index, which is that of the first commitment.
const FIRST: u64 = 281474976710655;

const FIRST_RIGHT: &str = "7cc854b54e3e0dcdb010d7a3fee464a9687be6e8db3be6854c475621e007a5dc";

const FIRST_WRONG: &str = "02a40c85b6f28da08dfdbe0926c53fab2de6d28c10301f8f7c4073d5e42e3148";

/// The secrets of the all-ones seed, from the first index downwards.
const RIGHT: [&str; 8] = [
    FIRST_RIGHT,
    "c7518c8ae4660ed02894df8976fa1a3659c1a8b4b5bec0c4b872abeba4cb8964",
    "2273e227a5b7449b6e70f1fb4652864038b1cbf9cd7c043a7d6456b7fc275ad8",
    "27cddaa5624534cb6cb9d7da077cf2b22ab21e9b506fd4998a51d54502e99116",
    "c65716add7aa98ba7acb236352d665cab17345fe45b55fb879ff80e6bd0c41dd",
    "969660042a28f32d9be17344e09374b379962d03db1574df5a8a5a47e19ce3f2",
    "a5a64476122ca0925fb344bdc1854c1c0a59fc614298e50a33e331980a220f32",
    "05cde6323d949933f7f7b78776bcc1ea6d9b31447732e3802e1f7ac44b650e17",
];

/// The secrets of the all-zeros seed, from the first index downwards.
const WRONG: [&str; 8] = [
    FIRST_WRONG,
    "dddc3a8d14fddf2b68fa8c7fbad2748274937479dd0f8930d5ebb4ab6bd866a3",
    "c51a18b13e8527e579ec56365482c62f180b7d5760b46e9477dae59e87ed423a",
    "ba65d7b0ef55a3ba300d4e87af29868f394f8f138d78a7011669c79b37b936f4",
    "631373ad5f9ef654bb3dade742d09504c567edd24320d2fcd68e3cc47e2ff6a6",
    "b7e76a83668bde38b373970155c868a653304308f9896692f904a23731224bb1",
    "e7971de736e01da8ed58b94c2fc216cb1dca9e326f3a96e7194fe8ea8af6c0a3",
    "a7efbc61aac46d34f77778bac22c8a20c6a46ca460addc49009bda875ec88fa4",
];

/// A byte of which a seed consists, an index, and the secret.
const GENERATED: [(u8, u64, &str); 6] = [
    (0x00, FIRST, FIRST_WRONG),
    (0xff, FIRST, FIRST_RIGHT),
    (
        0xff,
        0xaaaaaaaaaaa,
        "56f4008fb007ca9acf0e15b054d5c9fd12ee06cea347914ddbaed70d1c13a528",
    ),
    (
        0xff,
        0x555555555555,
        "9015daaeb06dba4ccc05b91b2f73bd54405f2be9f217fbacd3c5ac2e62327d31",
    ),
    (
        0x01,
        1,
        "915c75942a26bb3a433a8ce2cb0427c29ec6c1775cfc78328b57f6ba7bfeaa9c",
    ),
    (
        0x01,
        0,
        "0101010101010101010101010101010101010101010101010101010101010101",
    ),
];

/// Which of eight insertions is refused, from 0, or 8 for none. `w` stands for a secret of the
/// wrong seed.
fn refused_at(rt: &impl Abort, seeds: &[u8; 8]) -> usize {
    let mut store = Store::new();
    for (n, seed) in seeds.iter().enumerate() {
        let text = if *seed == b'w' { WRONG[n] } else { RIGHT[n] };
        let secret = <[u8; 32] as FromHex>::from_hex(text).expect(rt, "64 hex digits");
        if store.insert(FIRST - n as u64, &secret) == Err(StoreError::NotOfThisSeed) {
            return n;
        }
    }
    8
}

const STORED: [(&[u8; 8], usize); 9] = [
    (b"........", 8),
    (b"w.......", 1),
    (b"ww......", 3),
    (b"..w.....", 3),
    (b"wwww....", 7),
    (b"....w...", 5),
    (b"....ww..", 7),
    (b"......w.", 7),
    (b".......w", 7),
];

#[test]
fn stores_the_secrets_of_one_seed_alone(rt: HostRuntime) {
    for (byte, i, want) in &GENERATED {
        assert!(rt; is_hex(&from_seed(&[*byte; 32], *i), want));
    }
    for (seeds, refused) in &STORED {
        assert!(rt; refused_at(&rt, seeds) == *refused);
    }
}

/// Insertions one after another: the index, the byte of which the secret consists, and the answer.
const TURNS: [(u64, u8, Result<(), StoreError>); 6] = [
    (FIRST + 1, 8, Err(StoreError::OutOfTurn)),
    (FIRST - 1, 8, Err(StoreError::OutOfTurn)),
    (FIRST, 7, Ok(())),
    (FIRST, 7, Err(StoreError::OutOfTurn)),
    (FIRST - 2, 8, Err(StoreError::OutOfTurn)),
    (FIRST - 1, 8, Err(StoreError::NotOfThisSeed)),
];

#[test]
fn counts_down_from_the_greatest_index(rt: HostRuntime) {
    let mut store = Store::new();
    for (i, byte, answer) in &TURNS {
        assert!(rt; store.insert(*i, &[*byte; 32]) == *answer);
    }
    assert!(rt; store.get(FIRST) == Some([7; 32]));
    assert!(rt; store.get(FIRST - 1).is_none());
}

// The example in the documentation of `secrets`: a store of the first `count` secrets of a seed.
fn store_of(seed: &[u8; 32], count: u64) -> Result<Store, StoreError> {
    let mut store = Store::new();
    for n in 0..count.min(1 << 48) {
        let index = (1 << 48) - 1 - n;
        store.insert(index, &from_seed(seed, index))?;
    }
    Ok(store)
}

#[test]
fn gives_back_three_secrets(rt: HostRuntime) {
    let seed = [0x5a; 32];
    let store = store_of(&seed, 3).expect(&rt, "one seed's secrets");
    for n in 0..3 {
        let i = FIRST - n;
        assert!(rt; store.get(i) == Some(from_seed(&seed, i)));
    }
}
