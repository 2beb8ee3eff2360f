// Bytes that are no witness script.

ghost use Rattle.std.specs.Prelude.{◌≡◌};
ghost use Rattle.warnings.specs.Looks.{is_key_hash, is_script_hash, is_key, version_of, witness_version, kind_of, program_of, is_psbt, is_transaction, look_of, length_before};

use crate::parts::{byte_at, has_at};

/// What bytes look like that are no witness script.
#[derive(Clone, Copy, Debug, PartialEq, Eq, Drop)]
pub enum Look {
    /// The program of an output to the hash of a key: DUP HASH160, 20 bytes, EQUALVERIFY CHECKSIG.
    KeyHash,
    /// The program of an output to the hash of a script (BIP 16): HASH160, 20 bytes, EQUAL.
    ScriptHash,
    /// The program of an output to an uncompressed key: its 65 bytes, CHECKSIG.
    Key,
    /// The program of an output to the hash of a key (BIP 141): version 0 and 20 bytes.
    WitnessKeyHash,
    /// The program of an output to the hash of a witness script (BIP 141): version 0 and 32 bytes.
    WitnessScriptHash,
    /// The program of a taproot output (BIP 341): version 1 and 32 bytes.
    Taproot,
    /// Another witness program of this version, from 0 to 16 (BIP 141).
    WitnessProgram(u8),
    /// A transaction (BIP 144).
    Transaction,
    /// A partially signed transaction (BIP 174).
    Psbt,
}

#[tactic(auto, unfolding(crate::specs::Looks::is_key_hash))]
fn is_key_hash(bytes: &[u8]) -> bool
    ensures { result ≡ is_key_hash bytes.now }
{
    bytes.len() == 25 && has_at(bytes, 0, &[0x76, 0xa9, 0x14]) && has_at(bytes, 23, &[0x88, 0xac])
}

#[tactic(auto, unfolding(crate::specs::Looks::is_script_hash))]
fn is_script_hash(bytes: &[u8]) -> bool
    ensures { result ≡ is_script_hash bytes.now }
{
    bytes.len() == 23 && has_at(bytes, 0, &[0xa9, 0x14]) && has_at(bytes, 22, &[0x87])
}

#[tactic(auto, unfolding(crate::specs::Looks::is_key))]
fn is_key(bytes: &[u8]) -> bool
    ensures { result ≡ is_key bytes.now }
{
    bytes.len() == 67 && has_at(bytes, 0, &[0x41, 0x04]) && has_at(bytes, 66, &[0xac])
}

// The version that an opcode at the front of a program stands for.
fn version_of(byte: u8) -> Option<u8>
    ensures { result ≡ version_of byte }
{
    if byte == 0 {
        Some(0)
    } else if 0x51 <= byte && byte <= 0x60 {
        Some(byte - 0x50)
    } else {
        None
    }
}

// The version of a witness program.
#[tactic(auto, unfolding(crate::specs::Looks::witness_version))]
fn witness_version(bytes: &[u8]) -> Option<u8>
    ensures { result ≡ witness_version bytes.now }
{
    let [version, size, payload @ ..] = bytes else {
        return None;
    };
    if 2 <= *size && *size <= 40 && payload.len() == usize::from(*size) {
        version_of(*version)
    } else {
        None
    }
}

// A witness program of this version and of this number of bytes.
#[tactic(auto, unfolding(crate::specs::Looks::kind_of))]
fn kind_of(version: u8, len: usize) -> Look
    ensures { result ≡ kind_of version len }
{
    if version == 0 && len == 22 {
        Look::WitnessKeyHash
    } else if version == 0 && len == 34 {
        Look::WitnessScriptHash
    } else if version == 1 && len == 34 {
        Look::Taproot
    } else {
        Look::WitnessProgram(version)
    }
}

// The program of an output.
#[tactic(auto, unfolding(crate::specs::Looks::program_of))]
fn program_of(bytes: &[u8]) -> Option<Look>
    ensures { result ≡ program_of bytes.now }
{
    if is_key_hash(bytes) {
        Some(Look::KeyHash)
    } else if is_script_hash(bytes) {
        Some(Look::ScriptHash)
    } else if is_key(bytes) {
        Some(Look::Key)
    } else {
        match witness_version(bytes) {
            Some(version) => Some(kind_of(version, bytes.len())),
            None => None,
        }
    }
}

#[tactic(auto, unfolding(crate::specs::Looks::is_psbt))]
fn is_psbt(bytes: &[u8]) -> bool
    ensures { result ≡ is_psbt bytes.now }
{
    has_at(bytes, 0, &[0x70, 0x73, 0x62, 0x74, 0xff])
}

// A transaction has 60 bytes at least: a version, an input and an output.
#[tactic(auto, unfolding(crate::specs::Looks::is_transaction))]
fn is_transaction(bytes: &[u8]) -> bool
    ensures { result ≡ is_transaction bytes.now }
{
    60 <= bytes.len()
        && 1 <= bytes[0]
        && bytes[0] <= 3
        && has_at(bytes, 1, &[0, 0, 0])
        && (bytes[4] != 0 || has_at(bytes, 4, &[0, 1]))
}

/// What bytes look like that are no witness script; `None` where they look like none of these.
pub fn look_of(bytes: &[u8]) -> Option<Look>
    ensures { result ≡ look_of bytes.now }
{
    if is_psbt(bytes) {
        Some(Look::Psbt)
    } else if is_transaction(bytes) {
        Some(Look::Transaction)
    } else {
        program_of(bytes)
    }
}

/// The number of bytes of the length at the front, if it is that of all bytes after it; `None` where no such length stands there.
#[tactic(auto, unfolding(crate::specs::Looks::length_before))]
pub fn length_before(bytes: &[u8]) -> Option<usize>
    ensures { result ≡ length_before bytes.now }
{
    let first = byte_at(bytes, 0);
    if bytes.len() <= 1 {
        None
    } else if first < 253 && first + 1 == bytes.len() {
        Some(1)
    } else if first == 253 && byte_at(bytes, 1) + 256 * byte_at(bytes, 2) + 3 == bytes.len() {
        Some(3)
    } else {
        None
    }
}
