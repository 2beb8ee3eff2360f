// What a script can ask about the transaction that spends its output.

/// What a script can ask about the input that runs it. It has the transaction's version and lock time, the input's sequence (BIP 65, 68
/// and 112), and the digest that signatures are over (BIP 143).
#[derive(Clone, Copy, PartialEq, Eq, Debug)]
pub struct Spend {
    pub version: u32,
    /// A height below 500,000,000, else a time in seconds.
    pub lock_time: u32,
    /// Where bits 31 and 22 are clear, its low 16 bits are an age in blocks (BIP 68).
    pub sequence: u32,
    /// What signatures of the input are over.
    pub digest: [u8; 32],
}
