// What C gives of claims and of outputs, and what it is told of them.

/// The slot is the signature of `key` over the spend.
pub const SLOT_SIGNATURE: u32 = 1;
/// The slot is 32 bytes whose SHA-256 is `hash`.
pub const SLOT_PREIMAGE: u32 = 2;
/// The slot is the `bytes_length` bytes from `bytes_at` on, at most 520.
pub const SLOT_EXACT: u32 = 3;
/// The slot is the signature of `key` over the digest `hash`, which was given over one transaction, with no witnesses the `bytes_length` bytes from `bytes_at` on. The claim is of this transaction alone, over whose digest the other signatures are too. No call reads such a slot.
pub const SLOT_GIVEN: u32 = 4;

/// How a claim fills a slot of its path. A field that the kind does not name is not read.
#[repr(C)]
#[derive(Clone, Copy)]
pub struct SlotRow {
    /// One of the kinds of slots.
    pub kind: u32,
    /// A compressed public key.
    pub key: [u8; 33],
    /// The SHA-256 of a preimage, in the hash's own byte order; or a digest.
    pub hash: [u8; 32],
    /// Where the bytes begin among those that the call is given.
    pub bytes_at: usize,
    /// How many there are.
    pub bytes_length: usize,
}

/// A claim on an output, by one path of its script. Its slots are the rows from `first_slot` on, `slots` of them, the top of the stack first.
#[repr(C)]
#[derive(Clone, Copy)]
pub struct ClaimRow {
    /// The id of the transaction that has the output, in the hash's own byte order.
    pub txid: [u8; 32],
    /// Which of that transaction's outputs it is, from 0.
    pub index: u32,
    /// What the output is worth, in satoshis.
    pub value: u64,
    /// Where its script begins among the bytes that the call is given.
    pub script_at: usize,
    /// How many bytes the script has.
    pub script_length: usize,
    /// Where its program begins among those bytes.
    pub program_at: usize,
    /// How many bytes the program has.
    pub program_length: usize,
    /// The index of the path, as the script's listing has it.
    pub path: usize,
    /// The index of the row of its first slot.
    pub first_slot: usize,
    /// How many rows its slots have.
    pub slots: usize,
}

/// When an accepted claim is due: what the transaction that spends its output has to have.
#[repr(C)]
#[derive(Clone, Copy)]
pub struct Due {
    /// The least lock time, as a height below 500,000,000 (BIP 65); 0 if the path checks none.
    pub height: u64,
    /// The sequence of the claim's input, which is an age in blocks (BIP 68); 0 if the path checks none.
    pub sequence: u32,
}
