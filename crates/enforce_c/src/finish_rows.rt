// What C gives of signatures, and what it is told of the transaction that has them.

/// A signature for an item of a witness that lacks one.
#[repr(C)]
#[derive(Clone, Copy)]
pub struct SignedRow {
    /// The index of the input, which is that of its claim.
    pub input: usize,
    /// The index of its item, as the row of the signature that is lacking has it.
    pub item: usize,
    /// Where its bytes begin among those that the call is given: strict DER (BIP 66), and the byte 01 (SIGHASH_ALL).
    pub bytes_at: usize,
    /// How many there are, from 9 to 73.
    pub bytes_length: usize,
}

/// What the call that finishes a transaction tells beside its status. Each call writes all of it: of a transaction the number of bytes, whether or not
/// they were written, and its id; of a refusal the number that it carries, and what it is about. The others are 0.
#[repr(C)]
#[derive(Clone, Copy)]
pub struct FinishAnswer {
    pub bytes: usize,
    pub number: usize,
    /// The index of the row that the refusal is about, of a signature the index of its input.
    pub row: usize,
    /// One of the kinds of what a refusal is about.
    pub about: u32,
    /// The id of the transaction, in the hash's own byte order, as rows of claims have it.
    pub txid: [u8; 32],
    /// The same in the other order, as nodes and explorers show it.
    pub shown_txid: [u8; 32],
}
