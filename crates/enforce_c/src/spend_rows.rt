// What C gives of a spend, and what it is told of it.

/// An output of a transaction.
#[repr(C)]
#[derive(Clone, Copy)]
pub struct OutputRow {
    /// What it is worth, in satoshis; at most 21,000,000 bitcoins.
    pub value: u64,
    /// Where its script begins among the bytes that the call is given.
    pub script_at: usize,
    /// How many bytes the script has, at most 10,000.
    pub script_length: usize,
}

/// A preimage.
#[repr(C)]
#[derive(Clone, Copy)]
pub struct PreimageRow {
    pub bytes: [u8; 32],
}

/// A signature that a transaction lacks.
#[repr(C)]
#[derive(Clone, Copy)]
pub struct SignatureRow {
    /// The index of the input.
    pub input: usize,
    /// The index of its item in the input's witness, the deepest item of the stack first (BIP 141).
    pub item: usize,
    /// The key that signs.
    pub key: [u8; 33],
    /// What it signs: the digest of the input with hash type ALL (BIP 143). After the signature in the item comes the byte 01.
    pub digest: [u8; 32],
}

/// What a call that makes a transaction tells beside its status. Each call writes all of it: of a transaction the bytes and rows that there are, whether
/// or not they were written, its greatest weight, its fee and its id; of a refusal the number that it carries, and what it is about. The others are 0.
#[repr(C)]
#[derive(Clone, Copy)]
pub struct SpendAnswer {
    pub bytes: usize,
    pub signatures: usize,
    pub number: usize,
    /// The index of the row that the refusal is about.
    pub row: usize,
    /// In weight units (BIP 141): what the transaction has at most once it is signed, with 73 bytes for each signature, 72 of DER and the hash type. Where it lacks none, it has just this. 2^64 - 1 stands for more.
    pub weight: u64,
    /// In satoshis: what the claimed outputs are worth, less the outputs. 2^64 - 1 stands for more.
    pub fee_sat: u64,
    /// One of the kinds of what a refusal is about.
    pub about: u32,
    /// The id of the transaction, signed or not, in the hash's own byte order, as rows of claims have it.
    pub txid: [u8; 32],
    /// The same in the other order, as nodes and explorers show it.
    pub shown_txid: [u8; 32],
}
