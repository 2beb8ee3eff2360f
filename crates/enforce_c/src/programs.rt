// The program of a script.

ghost use Rattle.std.specs.Prelude.{◌≡◌};
ghost use Rattle.sighash.specs.Programs.{script_hash_program};

use digest::sha256;

/// The program that an output with a script has (BIP 141, P2WSH).
#[tactic(auto, unfolding(sighash::specs::Programs::script_hash_program))]
pub(crate) fn program_of(script: &[u8]) -> [u8; 34]
    ensures { result ≡ script_hash_program script.now }
{
    let mut program = [0; 34];
    program[1] = 0x20;
    program[2..].copy_from_slice(&sha256(script));
    program
}
