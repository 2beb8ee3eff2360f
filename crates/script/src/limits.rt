//! The limits of scripts and of their runs, by their names in Bitcoin Core (`script/script.h`).

/// The greatest size of a script in bytes.
pub const MAX_SCRIPT_SIZE: usize = 10_000;

/// The greatest size of a witness item in bytes (BIP 141).
pub const MAX_SCRIPT_ELEMENT_SIZE: usize = 520;

/// The greatest number of opcodes above 60 (hexadecimal) in a script, together with the keys of each CHECKMULTISIG that
/// runs.
pub const MAX_OPS_PER_SCRIPT: usize = 201;

/// The greatest number of elements on the stack after an opcode.
pub const MAX_STACK_SIZE: usize = 1_000;

/// The greatest number of keys of one CHECKMULTISIG.
pub const MAX_PUBKEYS_PER_MULTISIG: usize = 20;

/// The least lock time that is a time, in seconds since 1970; a lower one is a block height (BIP 65).
pub const LOCKTIME_THRESHOLD: u64 = 500_000_000;
