// Why consensus refuses a branch.

/// Why consensus refuses each run of a branch too.
#[derive(Clone, Copy)]
pub enum Fault {
    /// A lock is negative, or has more than 5 bytes (BIP 65, BIP 112).
    Lock,
    /// A count of keys or signatures is negative, too high, or has more than 4 bytes.
    Count,
    /// A signature is not in DER (BIP 66).
    Signature,
    /// The extra item of CHECKMULTISIG is not empty (BIP 147).
    Extra,
    /// EQUALVERIFY compares an element with one that never equals it.
    Unequal,
    /// After the last opcode two or more elements are left (BIP 141).
    TwoLeft,
    /// After the last opcode a false element is left.
    FalseLeft,
}
