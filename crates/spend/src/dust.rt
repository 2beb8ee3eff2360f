// Which outputs are too small for nodes to relay.

ghost use Rattle.std.specs.Prelude.{◌≡◌, ◌≤◌, length, nat_lt, IsTrue, if◌then◌else◌};
ghost use Rattle.tx.specs.declared.limits.TheConstants.{MAX_BYTES as max_bytes};
ghost use Rattle.spend.specs.Dust.{is_version, is_witness_program, is_unspendable, spending_size, output_size, dust_threshold};

/// RETURN: a script that begins with it can't be satisfied.
const RETURN: u8 = 0x6a;

// Whether the opcode stands for a version of witness programs (BIP 141).
fn is_version(code: u8) -> bool
    ensures { result ≡ is_version code }
{
    code == 0x00 || (0x51 <= code && code <= 0x60)
}

/// Whether the script is a witness program (BIP 141).
pub fn is_witness_program(script: &[u8]) -> bool
    ensures value { result ≡ is_witness_program script.now }
    ensures long { IsTrue result → 4 ≤ length script.now }
{
    let size = script.len();
    4 <= size && size <= 42 && is_version(script[0]) && usize::from(script[1]) + 2 == size
}

// Whether nobody can spend an output to the script.
fn is_unspendable(script: &[u8]) -> bool
    ensures { result ≡ is_unspendable script.now }
{
    0 < script.len() && script[0] == RETURN
}

// The virtual bytes of an input that spends an output to the script.
fn spending_size(script: &[u8]) -> u64
    ensures value { result ≡ spending_size script.now }
    ensures bound { result ≤ 148 }
{
    if is_witness_program(script) { 67 } else { 148 }
}

// The bytes of a length, as a compactSize (BIP 144).
fn prefix_size(size: usize) -> u64
    ensures value { result ≡ (if nat_lt size 0xfd then 1 else 3) }
    ensures bound { result ≤ 3 }
{
    if size < 0xfd { 1 } else { 3 }
}

// The bytes of an output to the script: value, length and script (BIP 144).
#[tactic(auto, using(crate::proofs::Sizes::output_sized))]
fn output_size(script: &[u8]) -> u64
    requires { length script.now ≤ max_bytes }
    ensures value { result ≡ output_size script.now }
    ensures bound { result ≤ 10011 }
{
    8 + prefix_size(script.len()) + script.len() as u64
}

/// The least value in satoshis of an output to this script that nodes relay by default: 294 for the hash of a key, 330 for that of a script. A smaller one is dust.
pub fn dust_threshold(script: &[u8]) -> u64
    requires { length script.now ≤ max_bytes }
    ensures { result ≡ dust_threshold script.now }
{
    if is_unspendable(script) {
        return 0;
    }
    3 * (output_size(script) + spending_size(script))
}
