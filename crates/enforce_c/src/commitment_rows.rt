// What C gives of a commitment, and what it is told of its outputs.

/// A channel without anchors: `option_static_remotekey` (BOLT 9).
pub const CHANNEL_STATIC_REMOTE_KEY: u32 = 1;
/// A channel with `option_anchors` (BOLT 9).
pub const CHANNEL_ANCHORS: u32 = 2;
/// One's own commitment, the newest.
pub const CLOSE_OWN: u32 = 1;
/// The peer's newest commitment, or the one after it, while the newest is not revoked.
pub const CLOSE_PEERS: u32 = 2;
/// The owner of the commitment offered the HTLC.
pub const DIRECTION_OFFERED: u32 = 1;
/// The owner of the commitment received the HTLC.
pub const DIRECTION_RECEIVED: u32 = 2;
/// None that is known.
pub const OUTPUT_UNKNOWN: u32 = 0;
/// To the owner of the commitment, after the delay. The output of an HTLC transaction has the same script.
pub const OUTPUT_TO_LOCAL: u32 = 1;
/// To the owner's peer.
pub const OUTPUT_TO_REMOTE: u32 = 2;
/// An HTLC that the owner offered.
pub const OUTPUT_OFFERED: u32 = 3;
/// An HTLC that the owner received.
pub const OUTPUT_RECEIVED: u32 = 4;
/// One's own anchor.
pub const OUTPUT_OWN_ANCHOR: u32 = 5;
/// The peer's anchor.
pub const OUTPUT_PEERS_ANCHOR: u32 = 6;

/// What is asked of a commitment.
#[derive(Clone, Copy)]
pub enum Question {
    /// What it lets its owner's peer claim, where it is revoked.
    OfRevoked,
    /// What it lets one claim, where it is not.
    OfClose,
}

/// A commitment, by what its scripts are made of: the keys at its point (BOLT 3, "Key Derivation"), as its owner names them.
#[repr(C)]
#[derive(Clone, Copy)]
pub struct Commitment {
    /// One of the types of channels.
    pub channel_type: u32,
    /// to_self_delay, of to_local and of the outputs of HTLC transactions.
    pub delay_blocks: u16,
    /// revocationpubkey, of the owner's peer.
    pub revocation: [u8; 33],
    /// local_delayedpubkey, of the owner.
    pub delayed: [u8; 33],
    /// local_htlcpubkey, of the owner.
    pub local_htlc: [u8; 33],
    /// remote_htlcpubkey, of the owner's peer.
    pub remote_htlc: [u8; 33],
    /// remotepubkey, of the owner's peer: its payment basepoint.
    pub remote: [u8; 33],
    /// Whether the keys of the channel's funding output are told, by which anchors are named.
    pub has_funding_keys: bool,
    /// One's own.
    pub own_funding: [u8; 33],
    /// The peer's.
    pub peers_funding: [u8; 33],
}

/// An HTLC of a commitment, by what its script is made of.
#[repr(C)]
#[derive(Clone, Copy)]
pub struct HtlcRow {
    /// One of the directions.
    pub direction: u32,
    /// cltv_expiry, below 500,000,000.
    pub expiry_height: u32,
    /// SHA-256 of the payment preimage.
    pub hash: [u8; 32],
}

/// Of a claim, which output of the commitment it is on, from when it can be made, and until when it is alone.
#[repr(C)]
#[derive(Clone, Copy)]
pub struct FoundRow {
    /// One of the kinds of outputs.
    pub kind: u32,
    /// Whether the other side can take the output at all.
    pub has_deadline: bool,
    /// The least height of a block that can have a transaction with the claim.
    pub from_height: u64,
    /// The least height of a block in which the other side can take the output. A transaction that takes it is safe in all blocks below (BOLT 5).
    pub deadline_height: u64,
}

/// An output without a claim.
#[repr(C)]
#[derive(Clone, Copy)]
pub struct OtherRow {
    /// Its index in the transaction.
    pub index: u32,
    /// One of the kinds of outputs.
    pub kind: u32,
}

/// What a call that finds claims tells beside its status. Each call writes all of it: the rows and bytes that there are, whether or not they were
/// written, and the number that a refusal carries. There are as many rows of outputs as of claims.
#[repr(C)]
#[derive(Clone, Copy)]
pub struct FoundAnswer {
    pub claims: usize,
    pub slots: usize,
    pub others: usize,
    pub bytes: usize,
    pub number: usize,
}
