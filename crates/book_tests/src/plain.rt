// Proposed terms that tests share, and a hash:
// SHA-256 of 32 zero bytes (Python's hashlib).
use terms::{ProposedParty, ProposedTerms, Side};

pub(crate) const HASH: [u8; 32] = [
    0x66, 0x68, 0x7a, 0xad, 0xf8, 0x62, 0xbd, 0x77, 0x6c, 0x8f, 0xc1, 0x8b, 0x8e, 0x9f, 0x8e, 0x20,
    0x08, 0x97, 0x14, 0x85, 0x6e, 0xe2, 0x33, 0xb3, 0x90, 0x2a, 0x59, 0x1d, 0x0d, 0x5f, 0x29, 0x25,
];

// Terms of 100,000 satoshis, of which A begins with 80,000.
pub(crate) const TERMS: ProposedTerms = ProposedTerms {
    capacity_sat: 100_000,
    opener: Side::A,
    feerate_per_kw: 1000,
    a: ProposedParty {
        dust_sat: 546,
        delay_blocks: 144,
        minimum_msat: 1000,
        start_msat: 80_000_000,
    },
    b: ProposedParty {
        dust_sat: 546,
        delay_blocks: 144,
        minimum_msat: 1000,
        start_msat: 20_000_000,
    },
};
