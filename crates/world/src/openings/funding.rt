//! The funding outputs of the channels.

ghost use Rattle.std.specs.Prelude.{◌≡◌, IfOk};
ghost use Rattle.script.specs.Spelling.{spelling};
ghost use Rattle.terms.specs.Scripts.{funding as funding_of};
ghost use Rattle.sighash.specs.Programs.{script_hash_program as script_hash_program_of};
ghost use Rattle.world.specs.Opening.{funding_if_within};

use super::signers::bases_in;
use commit::funding_script;
use keys::Key;
use lists::ByteString;
use scenario::Seeds;
use sighash::programs::script_hash_program;
use std::alloc::{AllocError, Global};
use terms::ProposedTerms;
use tx::TxOut;

// The program (P2WSH) of the output that two funding keys share (BOLT 3, "Funding Transaction Output").
fn funding_program(alloc: Global, key: &Key, other: &Key) -> Result<ByteString, AllocError>
    ensures { IfOk result (λ s. s ≡ script_hash_program_of
        (spelling (funding_of key.now.bytes other.now.bytes))) }
{
    let script = funding_script(alloc, key, other)?;
    script_hash_program(alloc, &script)
}

/// The funding output of the channel with this index (BOLT 3, "Funding Transaction Output"): the capacity in satoshis, for both sides' funding keys in that channel. `None` if the
/// capacity is above 21,000,000 bitcoins. The only error is that memory ran out.
pub fn funding_output(
    alloc: Global,
    seeds: &Seeds,
    channel: u32,
    plain: &ProposedTerms,
) -> Result<Option<TxOut>, AllocError>
    ensures { IfOk result (λ output. output ≡ funding_if_within seeds.now channel plain.now) }
{
    let a = bases_in(alloc, &seeds.a, channel);
    let b = bases_in(alloc, &seeds.b, channel);
    let program = funding_program(alloc, &a.funding, &b.funding)?;
    Ok(TxOut::new(plain.capacity_sat, program).ok())
}
