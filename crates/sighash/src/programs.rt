//! The version 0 witness programs of outputs (BIP 141, "Witness program"): for a key (P2WPKH) and for a script (P2WSH).

ghost use Rattle.std.specs.Prelude.{◌≡◌, length, IfOk};
ghost use Rattle.sighash.specs.Programs.{key_hash_program, script_hash_program, is_key_hash_program, is_script_hash_program};

use digest::{hash160, sha256};
use lists::ByteString;
use std::alloc::{AllocError, Global};

/// The program of a key's hash (BIP 141, P2WPKH), 22 bytes: 0x00, 0x14 and the key's HASH160 in the hash's own byte order. An output with it is spent by a
/// signature and the key, which has 33 bytes (BIP 143, "Restrictions on public key type"); here the key may be any bytes. The only error is that memory ran
/// out.
#[tactic(auto, unfolding(crate::specs::Programs::key_hash_program))]
pub fn key_hash_program(alloc: Global, key: &[u8]) -> Result<ByteString, AllocError>
    ensures value { IfOk result (λ program. program ≡ key_hash_program key.now) }
    ensures short { IfOk result (λ program. length program ≡ 22) }
{
    let mut program = Vec::with_capacity(alloc, 22)?;
    program.extend_from_slice(&[0x00, 0x14])?;
    program.extend_from_slice(&hash160(key))?;
    Ok(ByteString::from_vec(program))
}

/// The program of a script's hash (BIP 141, P2WSH), 34 bytes: 0x00, 0x20 and the script's SHA-256 in the hash's own byte order. An output with it is spent by
/// the items that the script requires, followed by the script as the last item of the witness. The only error is that memory ran out.
#[tactic(auto, unfolding(crate::specs::Programs::script_hash_program))]
pub fn script_hash_program(alloc: Global, script: &[u8]) -> Result<ByteString, AllocError>
    ensures value { IfOk result (λ program. program ≡ script_hash_program script.now) }
    ensures short { IfOk result (λ program. length program ≡ 34) }
{
    let mut program = Vec::with_capacity(alloc, 34)?;
    program.extend_from_slice(&[0x00, 0x20])?;
    program.extend_from_slice(&sha256(script))?;
    Ok(ByteString::from_vec(program))
}

/// Whether an output's script is the program of a key's hash (BIP 141, P2WPKH): 0x00, 0x14 and 20 bytes.
pub fn is_key_hash_program(program: &[u8]) -> bool
    ensures { result ≡ is_key_hash_program program.now }
{
    program.len() == 22 && program[..2] == [0x00, 0x14]
}

/// Whether an output's script is the program of a script's hash (BIP 141, P2WSH): 0x00, 0x20 and 32 bytes.
pub fn is_script_hash_program(program: &[u8]) -> bool
    ensures { result ≡ is_script_hash_program program.now }
{
    program.len() == 34 && program[..2] == [0x00, 0x20]
}
