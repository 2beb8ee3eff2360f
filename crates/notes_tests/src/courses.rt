//! Notes on what became of the HTLCs of a scenario: what a side leaves, fulfils too late, or fails at its own cost. Offers of a hash are of 32 zeros in hexadecimal, and at height 60 they expire.

use crate::played::noted_after;

// Offers of A in two channels, irrevocably committed, one without the last revocation, the least amount that has an output, and a millisatoshi less; and one of B in channel 1.
const PART_0: &str =
    ",[\"offer\",\"A\",0,12000000,\"66687aadf862bd776c8fc18b8e9f8e20089714856ee233b3902a591d0d5f2925\",60],[\"deliver\",\"B\",0],[\"sign\",\"A\",0],[\"deliver\",\"B\",0],[\"deliver\",\"A\",0],[\"sign\",\"B\",0],[\"deliver\",\"A\",0],[\"deliver\",\"B\",0]";

const PART_1: &str =
    ",[\"offer\",\"A\",1,12000000,\"66687aadf862bd776c8fc18b8e9f8e20089714856ee233b3902a591d0d5f2925\",60],[\"deliver\",\"B\",1],[\"sign\",\"A\",1],[\"deliver\",\"B\",1],[\"deliver\",\"A\",1],[\"sign\",\"B\",1],[\"deliver\",\"A\",1],[\"deliver\",\"B\",1]";

const ALMOST_1: &str =
    ",[\"offer\",\"A\",1,12000000,\"66687aadf862bd776c8fc18b8e9f8e20089714856ee233b3902a591d0d5f2925\",60],[\"deliver\",\"B\",1],[\"sign\",\"A\",1],[\"deliver\",\"B\",1],[\"deliver\",\"A\",1],[\"sign\",\"B\",1],[\"deliver\",\"A\",1]";

const DUST_1: &str =
    ",[\"offer\",\"A\",1,1248999,\"66687aadf862bd776c8fc18b8e9f8e20089714856ee233b3902a591d0d5f2925\",60],[\"deliver\",\"B\",1],[\"sign\",\"A\",1],[\"deliver\",\"B\",1],[\"deliver\",\"A\",1],[\"sign\",\"B\",1],[\"deliver\",\"A\",1],[\"deliver\",\"B\",1]";

const LEAST_1: &str =
    ",[\"offer\",\"A\",1,1249000,\"66687aadf862bd776c8fc18b8e9f8e20089714856ee233b3902a591d0d5f2925\",60],[\"deliver\",\"B\",1],[\"sign\",\"A\",1],[\"deliver\",\"B\",1],[\"deliver\",\"A\",1],[\"sign\",\"B\",1],[\"deliver\",\"A\",1],[\"deliver\",\"B\",1]";

const OTHER_1: &str =
    ",[\"offer\",\"A\",1,12000000,\"0000000000000000000000000000000000000000000000000000000000000000\",60],[\"deliver\",\"B\",1],[\"sign\",\"A\",1],[\"deliver\",\"B\",1],[\"deliver\",\"A\",1],[\"sign\",\"B\",1],[\"deliver\",\"A\",1],[\"deliver\",\"B\",1]";

const FORWARD_1: &str =
    ",[\"offer\",\"B\",1,12000000,\"66687aadf862bd776c8fc18b8e9f8e20089714856ee233b3902a591d0d5f2925\",40],[\"deliver\",\"A\",1],[\"sign\",\"B\",1],[\"deliver\",\"A\",1],[\"deliver\",\"B\",1],[\"sign\",\"A\",1],[\"deliver\",\"B\",1],[\"deliver\",\"A\",1]";

// Offers alone.
const OFFER_0: &str =
    ",[\"offer\",\"A\",0,12000000,\"66687aadf862bd776c8fc18b8e9f8e20089714856ee233b3902a591d0d5f2925\",60]";

const OFFER_1: &str =
    ",[\"offer\",\"A\",1,12000000,\"66687aadf862bd776c8fc18b8e9f8e20089714856ee233b3902a591d0d5f2925\",60]";

const LESS_0: &str =
    ",[\"offer\",\"A\",0,11999999,\"66687aadf862bd776c8fc18b8e9f8e20089714856ee233b3902a591d0d5f2925\",60]";

const OF_B: &str =
    ",[\"offer\",\"B\",1,12000000,\"66687aadf862bd776c8fc18b8e9f8e20089714856ee233b3902a591d0d5f2925\",60]";

const LESS_OF_B: &str =
    ",[\"offer\",\"B\",1,11999999,\"66687aadf862bd776c8fc18b8e9f8e20089714856ee233b3902a591d0d5f2925\",60]";

const OTHER_HASH: &str =
    ",[\"offer\",\"A\",1,12000000,\"0000000000000000000000000000000000000000000000000000000000000000\",60]";

// Removals.
const FULFIL_0: &str =
    ",[\"fulfil\",\"B\",0,0,\"0000000000000000000000000000000000000000000000000000000000000000\"]";

const FULFIL_1: &str =
    ",[\"fulfil\",\"B\",1,0,\"0000000000000000000000000000000000000000000000000000000000000000\"]";

const SECOND_1: &str =
    ",[\"fulfil\",\"B\",1,1,\"0000000000000000000000000000000000000000000000000000000000000000\"]";

const WRONG_1: &str =
    ",[\"fulfil\",\"B\",1,0,\"0100000000000000000000000000000000000000000000000000000000000000\"]";

const BY_A: &str =
    ",[\"fulfil\",\"A\",1,0,\"0000000000000000000000000000000000000000000000000000000000000000\"]";

const SECOND_BY_A: &str =
    ",[\"fulfil\",\"A\",1,1,\"0000000000000000000000000000000000000000000000000000000000000000\"]";

const FAIL_0: &str = ",[\"fail\",\"B\",0,0]";

const FAILS_A: &str = ",[\"fail\",\"A\",1,0]";

const FAILS_SECOND: &str = ",[\"fail\",\"A\",1,1]";

// What closes a channel: commitment 1 is the newest of A, and commitment 0 is revoked.
const CLOSE_0: &str = ",[\"close\",\"B\",0]";

const CLOSE_1: &str = ",[\"close\",\"B\",1]";

const A_CLOSES_0: &str = ",[\"close\",\"A\",0]";

const A_CLOSES_1: &str = ",[\"close\",\"A\",1]";

const SENT_0: &str = ",[\"broadcast\",\"A\",0,1]";

const REVOKED_0: &str = ",[\"broadcast\",\"A\",0,0]";

const SENT_1: &str = ",[\"broadcast\",\"A\",1,1]";

const REVOKED_1: &str = ",[\"broadcast\",\"A\",1,0]";

const HTLC_OF_1: &str = ",[\"broadcast\",\"A\",1,1,0]";

// What brings a fulfil of B's into the newest commitment of A, then into its own, and other events.
const BLOCKS_38: &str = ",[\"blocks\",38]";

const BLOCKS_57: &str = ",[\"blocks\",57]";

const BLOCKS_58: &str = ",[\"blocks\",58]";

const BLOCKS_59: &str = ",[\"blocks\",59]";

const BLOCK: &str = ",[\"blocks\",1]";

const REORG: &str = ",[\"reorg\",1,0]";

const TO_A_0: &str = ",[\"deliver\",\"A\",0]";

const TO_A_1: &str = ",[\"deliver\",\"A\",1]";

const TO_B_1: &str = ",[\"deliver\",\"B\",1]";

const IN_A: &str = ",[\"deliver\",\"A\",0],[\"sign\",\"B\",0],[\"deliver\",\"A\",0]";

const IN_B: &str = ",[\"deliver\",\"B\",0],[\"sign\",\"A\",0],[\"deliver\",\"B\",0]";

const HALF: &str =
    ",[\"sign\",\"B\",0],[\"deliver\",\"A\",0],[\"deliver\",\"A\",0],[\"sign\",\"A\",0],[\"deliver\",\"B\",0],[\"deliver\",\"B\",0],[\"deliver\",\"B\",0]";

const FEE_1: &str = ",[\"fee\",\"A\",1,2000]";

const SIGNED_1: &str = ",[\"sign\",\"B\",1],[\"deliver\",\"A\",1]";

const OTHER_OF_B: &str =
    ",[\"offer\",\"B\",1,12000000,\"0000000000000000000000000000000000000000000000000000000000000000\",60]";

const OTHER_0: &str =
    ",[\"offer\",\"A\",0,11999998,\"0000000000000000000000000000000000000000000000000000000000000000\",60]";

const LESS_IN_1: &str =
    ",[\"offer\",\"A\",1,11999999,\"66687aadf862bd776c8fc18b8e9f8e20089714856ee233b3902a591d0d5f2925\",60]";

// Events, and the notes on what is left: the HTLC of channel 1 where B fulfils that of channel 0, or that of channel 0 where A fulfils what B offers in channel 1.
const LEFT: [(&[&str], &str); 35] = [
    // the channel is closed by either side, with the newest commitment of A, and with a revoked one, which B takes all of
    (
        &[PART_0, PART_1, FULFIL_0, CLOSE_1],
        "note: event 17: B fulfils HTLC 0 of channel 0, and not HTLC 0 of channel 1, which has the same hash: a fulfil in one channel is not known in another\n",
    ),
    (
        &[PART_0, PART_1, FULFIL_0, A_CLOSES_1],
        "note: event 17: B fulfils HTLC 0 of channel 0, and not HTLC 0 of channel 1, which has the same hash: a fulfil in one channel is not known in another\n",
    ),
    (
        &[PART_0, PART_1, FULFIL_0, SENT_1],
        "note: event 17: B fulfils HTLC 0 of channel 0, and not HTLC 0 of channel 1, which has the same hash: a fulfil in one channel is not known in another\n",
    ),
    (&[PART_0, PART_1, FULFIL_0, REVOKED_1], ""),
    (&[PART_0, PART_1, FULFIL_0, REVOKED_1, CLOSE_1], ""),
    // it is revoked after that, and no commitment is sent
    (&[PART_0, PART_1, SENT_1, SIGNED_1, FULFIL_0], ""),
    (&[PART_0, PART_1, FULFIL_0, HTLC_OF_1], ""),
    (&[PART_0, PART_1, FULFIL_0], ""),
    // it is fulfilled there too, or by another preimage
    (&[PART_0, PART_1, FULFIL_0, FULFIL_1, CLOSE_1], ""),
    (
        &[PART_0, PART_1, FULFIL_0, WRONG_1, CLOSE_1],
        "note: event 17: B fulfils HTLC 0 of channel 0, and not HTLC 0 of channel 1, which has the same hash: a fulfil in one channel is not known in another\n",
    ),
    // the last revocation of its offer comes or not, the offer alone is made, and it has the least amount with an output, one less, and that amount at twice the feerate
    (
        &[PART_0, ALMOST_1, FULFIL_0, CLOSE_1],
        "note: event 16: B fulfils HTLC 0 of channel 0, and not HTLC 0 of channel 1, which has the same hash: it is not irrevocably committed, and no fulfil takes it\n",
    ),
    (
        &[PART_0, OFFER_1, FULFIL_0, CLOSE_1],
        "note: event 10: B fulfils HTLC 0 of channel 0, and not HTLC 0 of channel 1, which has the same hash: it is not irrevocably committed, and no fulfil takes it\n",
    ),
    (&[PART_0, OFFER_1, FULFIL_0], ""),
    (
        &[PART_0, LEAST_1, FULFIL_0, CLOSE_1],
        "note: event 17: B fulfils HTLC 0 of channel 0, and not HTLC 0 of channel 1, which has the same hash: a fulfil in one channel is not known in another\n",
    ),
    (&[PART_0, DUST_1, FULFIL_0, CLOSE_1], ""),
    (&[PART_0, LEAST_1, FULFIL_0, FEE_1, CLOSE_1], ""),
    // another hash; two of the hash; the fulfil is before the offer; another one there is fulfilled, so that its channel has the preimage
    (&[PART_0, OTHER_1, FULFIL_0, CLOSE_1], ""),
    (
        &[PART_0, PART_1, PART_1, FULFIL_0, CLOSE_1],
        "note: event 25: B fulfils HTLC 0 of channel 0, and not HTLC 0 of channel 1, which has the same hash: a fulfil in one channel is not known in another\nnote: event 25: B fulfils HTLC 0 of channel 0, and not HTLC 1 of channel 1, which has the same hash: a fulfil in one channel is not known in another\n",
    ),
    (
        &[PART_0, FULFIL_0, PART_1, CLOSE_1],
        "note: event 9: B fulfils HTLC 0 of channel 0, and not HTLC 0 of channel 1, which has the same hash: a fulfil in one channel is not known in another\n",
    ),
    (&[PART_1, PART_1, FULFIL_1, CLOSE_1], ""),
    // its time is over when the channel is closed, at the end, and when it is known
    (&[PART_1, PART_1, FULFIL_1, BLOCKS_58, CLOSE_1], ""),
    (
        &[PART_1, PART_1, SECOND_1, BLOCKS_59, CLOSE_1],
        "note: event 17: B fulfils HTLC 1 of channel 1, and not HTLC 0 of channel 1, which has the same hash: A may take that one back in any block above 60\nnote: event 17: B fulfils HTLC 1 of channel 1, and event 19 closes the channel at height 59 before the fulfil is committed: A may take it back in any block above 60, and a claim that the next block gives is in block 61 at the earliest\n",
    ),
    (&[PART_0, PART_1, FULFIL_0, IN_A, IN_B, BLOCKS_58], ""),
    (
        &[PART_0, PART_1, FULFIL_0, IN_A, IN_B, BLOCKS_59],
        "note: event 17: B fulfils HTLC 0 of channel 0, and not HTLC 0 of channel 1, which has the same hash: A may take that one back in any block above 60\n",
    ),
    (
        &[PART_0, PART_1, CLOSE_1, BLOCKS_59, FULFIL_0, IN_A, IN_B],
        "note: event 19: B fulfils HTLC 0 of channel 0, and not HTLC 0 of channel 1, which has the same hash: A may take that one back in any block above 60\n",
    ),
    // a forward: it comes to B, in its channel and in another one, or not, and its time is over or not
    (
        &[PART_0, FORWARD_1, BY_A, TO_B_1, CLOSE_0],
        "note: event 17: A fulfils HTLC 0 of channel 1, and B does not fulfil A's HTLC 0 of channel 0, which has the same hash: a fulfil in one channel is not known in another\n",
    ),
    (&[PART_0, FORWARD_1, BY_A, TO_B_1, FULFIL_0, CLOSE_0], ""),
    (&[PART_0, FORWARD_1, BY_A, TO_A_1, CLOSE_0], ""),
    (&[PART_0, FORWARD_1, BY_A, CLOSE_0], ""),
    (&[PART_0, FORWARD_1, BY_A, TO_B_1], ""),
    (&[PART_0, FORWARD_1, BLOCKS_38, BY_A], ""),
    (
        &[PART_0, FORWARD_1, BLOCKS_58, BY_A],
        "note: event 18: A fulfils HTLC 0 of channel 1, which is not committed at the end, at height 58: B may take it back in any block above 40, and a claim that the next block gives is in block 60 at the earliest\n",
    ),
    (
        &[PART_0, FORWARD_1, BLOCKS_59, BY_A],
        "note: event 18: A fulfils HTLC 0 of channel 1, and B does not fulfil A's HTLC 0 of channel 0, which has the same hash: A may take that one back in any block above 60\nnote: event 18: A fulfils HTLC 0 of channel 1, which is not committed at the end, at height 59: B may take it back in any block above 40, and a claim that the next block gives is in block 61 at the earliest\n",
    ),
    // B could take its own back before that: its commitment was in the block before the last one, or not
    (
        &[PART_0, FORWARD_1, BLOCKS_57, CLOSE_1, BLOCK, BLOCK, BY_A],
        "note: event 21: A fulfils HTLC 0 of channel 1 at height 59, and the channel is closed: B may take it back in any block above 40, and a claim that the next block gives is in block 61 at the earliest\n",
    ),
    (
        &[PART_0, FORWARD_1, BLOCKS_58, CLOSE_1, BLOCK, BY_A],
        "note: event 20: A fulfils HTLC 0 of channel 1, and B does not fulfil A's HTLC 0 of channel 0, which has the same hash: A may take that one back in any block above 60\nnote: event 20: A fulfils HTLC 0 of channel 1 at height 59, and the channel is closed: B may take it back in any block above 40, and a claim that the next block gives is in block 61 at the earliest\n",
    ),
];

// Events, and the notes on a fulfil that is too late: from a block before the expiry on.
const LATE: [(&[&str], &str); 18] = [
    // the channel is closed before it, by either side, with the newest commitment of A, and with a revoked one
    (&[PART_0, CLOSE_0, BLOCKS_58, FULFIL_0], ""),
    (
        &[PART_0, CLOSE_0, BLOCKS_59, FULFIL_0],
        "note: event 11: B fulfils HTLC 0 of channel 0 at height 59, and the channel is closed: A may take it back in any block above 60, and a claim that the next block gives is in block 61 at the earliest\n",
    ),
    (
        &[PART_0, A_CLOSES_0, BLOCKS_58, REORG, FULFIL_0],
        "note: event 12: B fulfils HTLC 0 of channel 0 at height 59, and the channel is closed: A may take it back in any block above 60, and a claim that the next block gives is in block 61 at the earliest\n",
    ),
    (
        &[PART_0, SENT_0, BLOCKS_59, FULFIL_0],
        "note: event 11: B fulfils HTLC 0 of channel 0 at height 59, and the channel is closed: A may take it back in any block above 60, and a claim that the next block gives is in block 61 at the earliest\n",
    ),
    (&[PART_0, REVOKED_0, BLOCKS_59, FULFIL_0], ""),
    // it has no output
    (&[DUST_1, CLOSE_1, BLOCKS_59, FULFIL_1], ""),
    (
        &[LEAST_1, CLOSE_1, BLOCKS_59, FULFIL_1],
        "note: event 11: B fulfils HTLC 0 of channel 1 at height 59, and the channel is closed: A may take it back in any block above 60, and a claim that the next block gives is in block 61 at the earliest\n",
    ),
    // the channel is closed after it, by either side, and has the HTLC or not; or it stays open
    (&[PART_0, FULFIL_0, BLOCKS_58, CLOSE_0], ""),
    (
        &[PART_0, FULFIL_0, BLOCKS_59, CLOSE_0],
        "note: event 9: B fulfils HTLC 0 of channel 0, and event 11 closes the channel at height 59 before the fulfil is committed: A may take it back in any block above 60, and a claim that the next block gives is in block 61 at the earliest\n",
    ),
    (
        &[PART_0, BLOCKS_59, FULFIL_0, A_CLOSES_0],
        "note: event 10: B fulfils HTLC 0 of channel 0, and event 11 closes the channel at height 59 before the fulfil is committed: A may take it back in any block above 60, and a claim that the next block gives is in block 61 at the earliest\n",
    ),
    (&[PART_0, FULFIL_0, CLOSE_0, BLOCKS_59], ""),
    (&[PART_0, BLOCKS_59, FULFIL_0, IN_A, A_CLOSES_0], ""),
    (
        &[PART_0, BLOCKS_59, FULFIL_0, IN_A, CLOSE_0],
        "note: event 10: B fulfils HTLC 0 of channel 0, and event 14 closes the channel at height 59 before the fulfil is committed: A may take it back in any block above 60, and a claim that the next block gives is in block 61 at the earliest\n",
    ),
    (&[PART_0, BLOCKS_59, FULFIL_0, IN_A, IN_B, CLOSE_0], ""),
    (&[PART_0, FULFIL_0, BLOCKS_58], ""),
    (
        &[PART_0, FULFIL_0, IN_A, BLOCKS_59],
        "note: event 9: B fulfils HTLC 0 of channel 0, which is not committed at the end, at height 59: A may take it back in any block above 60, and a claim that the next block gives is in block 61 at the earliest\n",
    ),
    (&[PART_0, FULFIL_0, IN_A, IN_B, BLOCKS_59], ""),
    // two of them
    (
        &[
            PART_0, PART_1, CLOSE_0, CLOSE_1, BLOCKS_59, FULFIL_1, FULFIL_0,
        ],
        "note: event 21: B fulfils HTLC 0 of channel 0 at height 59, and the channel is closed: A may take it back in any block above 60, and a claim that the next block gives is in block 61 at the earliest\nnote: event 20: B fulfils HTLC 0 of channel 1 at height 59, and the channel is closed: A may take it back in any block above 60, and a claim that the next block gives is in block 61 at the earliest\n",
    ),
];

// Events, and the notes on a fail. Where A forwards, B offers it an HTLC in channel 1, and A offers one in channel 0.
const FAILS: [(&[&str], &str); 39] = [
    (
        &[OF_B, OFFER_0, FAILS_A],
        "note: event 3: A fails HTLC 0 of channel 1 while it offers the same hash in channel 0: it pays up to 12000000 millisatoshis by that hash, and 0 are left to it\n",
    ),
    (
        &[OF_B, OFFER_0, FAILS_A, FAIL_0],
        "note: event 3: A fails HTLC 0 of channel 1 while it offers the same hash in channel 0: it pays up to 12000000 millisatoshis by that hash, and 0 are left to it\n",
    ),
    // the fail in channel 0 is not delivered, lacks the last revocation, and has it
    (
        &[OF_B, OFFER_0, FAIL_0, FAILS_A],
        "note: event 4: A fails HTLC 0 of channel 1 before B's fail of the same hash in channel 0 is irrevocably committed: it pays up to 12000000 millisatoshis by that hash, and 0 are left to it\n",
    ),
    (
        &[OF_B, OFFER_0, FAIL_0, HALF, FAILS_A],
        "note: event 11: A fails HTLC 0 of channel 1 before B's fail of the same hash in channel 0 is irrevocably committed: it pays up to 12000000 millisatoshis by that hash, and 0 are left to it\n",
    ),
    (
        &[OF_B, OFFER_0, FAIL_0, HALF, FAILS_A, TO_A_0],
        "note: event 11: A fails HTLC 0 of channel 1 before B's fail of the same hash in channel 0 is irrevocably committed: it pays up to 12000000 millisatoshis by that hash, and 0 are left to it\n",
    ),
    (&[OF_B, OFFER_0, FAIL_0, HALF, TO_A_0, FAILS_A], ""),
    // it is fulfilled in channel 0: what A knows, and what it does not know yet
    (
        &[OF_B, OFFER_0, FULFIL_0, TO_A_0, TO_A_0, FAILS_A],
        "note: event 6: A fails HTLC 0 of channel 1, whose preimage it has by B's fulfil in channel 0: it pays up to 12000000 millisatoshis by that hash, and 0 are left to it\n",
    ),
    (
        &[OF_B, OFFER_0, FULFIL_0, FAILS_A],
        "note: event 4: A fails HTLC 0 of channel 1 while it offers the same hash in channel 0: it pays up to 12000000 millisatoshis by that hash, and 0 are left to it\n",
    ),
    // parts: what is left to A is as much as B may still take, or less by a millisatoshi
    (&[OF_B, OF_B, OFFER_0, FAILS_A], ""),
    (
        &[OF_B, OF_B, OFFER_0, FAILS_A, FAILS_SECOND],
        "note: event 5: A fails HTLC 1 of channel 1 while it offers the same hash in channel 0: it pays up to 12000000 millisatoshis by that hash, and 0 are left to it\n",
    ),
    (
        &[OF_B, LESS_OF_B, OFFER_0, FAILS_A],
        "note: event 4: A fails HTLC 0 of channel 1 while it offers the same hash in channel 0: it pays up to 12000000 millisatoshis by that hash, and 11999999 are left to it\n",
    ),
    (
        &[OF_B, OF_B, LESS_0, OFFER_0, FAILS_A],
        "note: event 5: A fails HTLC 0 of channel 1 while it offers the same hash in channel 0: it pays up to 23999999 millisatoshis by that hash, and 12000000 are left to it\n",
    ),
    (&[OF_B, OF_B, LESS_0, FAILS_A], ""),
    // each HTLC has its own: two hashes, and two that are failed while one stands
    (
        &[OF_B, OTHER_OF_B, OFFER_0, OTHER_0, FAILS_A, FAILS_SECOND],
        "note: event 5: A fails HTLC 0 of channel 1 while it offers the same hash in channel 0: it pays up to 12000000 millisatoshis by that hash, and 0 are left to it\nnote: event 6: A fails HTLC 1 of channel 1 while it offers the same hash in channel 0: it pays up to 11999998 millisatoshis by that hash, and 0 are left to it\n",
    ),
    // of another number, and by who offers nothing
    (&[OF_B, OFFER_0, FAILS_SECOND], ""),
    (&[OF_B, OFFER_0, FAIL_0], ""),
    // A offers it after the fail: alone, after B offered it again, and more than that
    (
        &[OF_B, FAILS_A, OFFER_0],
        "note: event 3: A offers in channel 0 the hash of HTLC 0 of channel 1, which it failed: it pays up to 12000000 millisatoshis by that hash, and 0 are left to it\n",
    ),
    (&[OF_B, FAILS_A, OF_B, OFFER_0], ""),
    (
        &[OF_B, FAILS_A, OF_B, LESS_0, OFFER_0],
        "note: event 5: A offers in channel 0 the hash of HTLC 0 of channel 1, which it failed: it pays up to 23999999 millisatoshis by that hash, and 12000000 are left to it\n",
    ),
    (&[OF_B, FAILS_A, OTHER_HASH], ""),
    // A offered the hash first, so that it pays for itself; both are of B; an ordinary retry
    (&[OFFER_0, OF_B, FAILS_A], ""),
    (&[OFFER_0, OF_B, FAILS_A, OFFER_0, OF_B], ""),
    (&[OF_B, OF_B, FAILS_A, OF_B], ""),
    // in one channel: A offers the hash, B fulfilled that, which A does not know and knows, and A fulfilled another one
    (
        &[OF_B, OFFER_1, FAILS_A],
        "note: event 3: A fails HTLC 0 of channel 1 while it offers the same hash in channel 1: it pays up to 12000000 millisatoshis by that hash, and 0 are left to it\n",
    ),
    (
        &[OF_B, OFFER_1, FULFIL_1, TO_A_1, FAILS_A],
        "note: event 5: A fails HTLC 0 of channel 1 while it offers the same hash in channel 1: it pays up to 12000000 millisatoshis by that hash, and 0 are left to it\n",
    ),
    (
        &[OF_B, OFFER_1, FULFIL_1, TO_A_1, TO_A_1, FAILS_A],
        "note: event 6: A fails HTLC 0 of channel 1, whose preimage it has by B's fulfil in channel 1: it pays up to 12000000 millisatoshis by that hash, and 0 are left to it\n",
    ),
    (
        &[OF_B, OF_B, BY_A, FAILS_SECOND],
        "note: event 4: A fails HTLC 1 of channel 1, whose preimage it has by its own fulfil in channel 1, and can't fulfil it any more\n",
    ),
    // the other part is fulfilled after the fail: less than before, as much as before by a retry, less by a millisatoshi, and what was offered after the fail
    (
        &[OF_B, OF_B, FAILS_SECOND, BY_A],
        "note: event 4: A fulfils HTLC 0 of channel 1 after it failed HTLC 1 of channel 1, which has the same hash: it can't fulfil that one any more\n",
    ),
    (&[OF_B, OF_B, FAILS_SECOND, OF_B, BY_A], ""),
    (
        &[OF_B, OF_B, FAILS_SECOND, LESS_OF_B, BY_A],
        "note: event 5: A fulfils HTLC 0 of channel 1 after it failed HTLC 1 of channel 1, which has the same hash: it can't fulfil that one any more\n",
    ),
    (&[OF_B, FAILS_A, LESS_OF_B, SECOND_BY_A], ""),
    // a forwarder whose other part pays
    (&[OF_B, OF_B, OFFER_0, FAILS_SECOND, BY_A], ""),
    (
        &[OF_B, OF_B, OFFER_0, FULFIL_0, TO_A_0, TO_A_0, FAILS_A],
        "note: event 7: A fails HTLC 0 of channel 1, whose preimage it has by B's fulfil in channel 0, and can't fulfil it any more\n",
    ),
    // channel 0 is closed, with a fulfil or a fail, or after the fail; and one of two
    (
        &[OF_B, OFFER_0, CLOSE_0, FAILS_A],
        "note: event 4: A fails HTLC 0 of channel 1 while it offers the same hash in channel 0, which is closed: it pays up to 12000000 millisatoshis by that hash, and 0 are left to it, unless a transaction deep in the chain took back or left out what it offers there\n",
    ),
    (
        &[OF_B, OFFER_0, FAILS_A, CLOSE_0],
        "note: event 3: A fails HTLC 0 of channel 1 while it offers the same hash in channel 0: it pays up to 12000000 millisatoshis by that hash, and 0 are left to it\n",
    ),
    (
        &[OF_B, OFFER_0, FAIL_0, CLOSE_0, FAILS_A],
        "note: event 5: A fails HTLC 0 of channel 1 while it offers the same hash in channel 0, which is closed: it pays up to 12000000 millisatoshis by that hash, and 0 are left to it, unless a transaction deep in the chain took back or left out what it offers there\n",
    ),
    (
        &[OF_B, OFFER_0, CLOSE_0, FULFIL_0, TO_A_0, TO_A_0, FAILS_A],
        "note: event 7: A fails HTLC 0 of channel 1, whose preimage it has by B's fulfil in channel 0, which is closed: it pays up to 12000000 millisatoshis by that hash, and 0 are left to it, unless a transaction deep in the chain took back or left out what it offers there\n",
    ),
    (
        &[OF_B, OFFER_0, LESS_IN_1, CLOSE_0, FAILS_A],
        "note: event 5: A fails HTLC 0 of channel 1 while it offers the same hash in channel 1: it pays up to 23999999 millisatoshis by that hash, and 0 are left to it\n",
    ),
    (
        &[OF_B, LESS_OF_B, OFFER_0, LESS_IN_1, CLOSE_0, FAILS_A],
        "note: event 6: A fails HTLC 0 of channel 1 while it offers the same hash in channel 0, which is closed: it pays up to 23999999 millisatoshis by that hash, and 11999999 are left to it, unless a transaction deep in the chain took back or left out what it offers there\n",
    ),
];

#[test]
fn names_what_is_left(rt: HostRuntime) {
    for (events, notes) in &LEFT {
        noted_after(&rt, rt.alloc(), &["run"], events, "", notes);
    }
}

#[test]
fn names_a_late_fulfil(rt: HostRuntime) {
    for (events, notes) in &LATE {
        noted_after(&rt, rt.alloc(), &["run"], events, "", notes);
    }
}

#[test]
fn names_a_fail_at_its_own_cost(rt: HostRuntime) {
    for (events, notes) in &FAILS {
        noted_after(&rt, rt.alloc(), &["run"], events, "", notes);
    }
}
