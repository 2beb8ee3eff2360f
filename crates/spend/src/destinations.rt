// Which programs are paid.

ghost use Rattle.std.specs.Prelude.{◌≡◌};
ghost use Rattle.spend.specs.Destinations.{is_public_key_hash, is_script_hash, has_rule, is_destination};

use crate::dust::is_witness_program;

// DUP, EQUAL, EQUALVERIFY, HASH160 and CHECKSIG.
const DUP: u8 = 0x76;

const EQUAL: u8 = 0x87;

const EQUALVERIFY: u8 = 0x88;

const HASH160: u8 = 0xa9;

const CHECKSIG: u8 = 0xac;

// The version of taproot.
const VERSION_1: u8 = 0x51;

// Whether the program is P2PKH.
fn is_public_key_hash(program: &[u8]) -> bool
    ensures { result ≡ is_public_key_hash program.now }
{
    program.len() == 25
        && program[0] == DUP
        && program[1] == HASH160
        && program[2] == 20
        && program[23] == EQUALVERIFY
        && program[24] == CHECKSIG
}

// Whether the program is P2SH (BIP 16).
fn is_script_hash(program: &[u8]) -> bool
    ensures { result ≡ is_script_hash program.now }
{
    program.len() == 23 && program[0] == HASH160 && program[1] == 20 && program[22] == EQUAL
}

// Whether a rule stands for a witness program of its version and length (BIPs 141 and 341).
fn has_rule(program: &[u8]) -> bool
    ensures { result ≡ has_rule program.now }
{
    let size = program.len();
    is_witness_program(program)
        && (if program[0] == 0 {
            size == 22 || size == 34
        } else {
            program[0] == VERSION_1 && size == 34
        })
}

/// Whether a program is paid: P2PKH, P2SH, or a witness program of version 0 with 20 or 32 bytes, or of version 1 with 32. Anyone can spend from the others.
pub fn is_destination(program: &[u8]) -> bool
    ensures { result ≡ is_destination program.now }
{
    is_public_key_hash(program) || is_script_hash(program) || has_rule(program)
}
