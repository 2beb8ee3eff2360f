//! What a version 0 witness program and a witness give: the script that is run, and its items (BIP 141, "Witness program").

ghost use Rattle.std.specs.Prelude.{◌≡◌, ◌==◌, drop, length, reverse, IfOk, IfErr};
ghost use Rattle.std.specs.Str.{bytes_eq};
ghost use Rattle.sighash.specs.Programs.{key_hash_script, given_of, given_by_hash};
ghost use Rattle.chain.specs.Given.{code_in, IsGiven, IsProgramFault, IsScriptHashFault};

use digest::sha256;
use lists::ByteString;
use sighash::programs::{is_key_hash_program, is_script_hash_program};
use std::alloc::{AllocError, Global};
use std::marker::Model;

/// Why a program and a witness give no script to run.
#[derive(Clone, Copy, Debug, PartialEq, Eq, Drop)]
pub enum ProgramFault {
    /// The program is not of version 0 with the hash of a key or of a script.
    OtherProgram,
    /// The program has the hash of a key, and the witness has not two items.
    NotTwoItems,
    /// The program has the hash of a script, and the witness has no item.
    NoScript,
    /// The last item of the witness has another hash than the program.
    OtherScript,
}

// The script that is run.
#[derive(Drop)]
enum Code<'a> {
    // The script of a key's hash, which stands in no witness.
    OfKeyHash(Vec<u8>),
    // The last item of the witness.
    OfWitness(&'a ByteString),
}

/// A script, and the items on which it is run, the first of the witness first.
#[derive(Drop)]
pub struct Given<'a> {
    code: Code<'a>,
    items: &'a [ByteString],
}

impl<'a> Model for Given<'a> {
    ghost use Rattle.sighash.specs.Programs.{Given as GivenScript};
    ghost use Rattle.chain.specs.Given.{code_in};

    ghost Value = { GivenScript };

    ghost view = { λ a. record { script = code_in a.code; items = a.items.now } };
}

impl<'a> Given<'a> {
    /// The bytes of the script, which are the script code that is signed, too (BIP 143).
    pub fn script(&self) -> &[u8]
        ensures { result.now ≡ self.now.script }
    {
        match &self.code {
            Code::OfKeyHash(script) => script.as_slice(),
            Code::OfWitness(script) => script.bytes(),
        }
    }

    /// The items.
    pub fn items(&self) -> &'a [ByteString]
        ensures { result.now ≡ self.now.items }
    {
        self.items
    }
}

// DUP HASH160 hash EQUALVERIFY CHECKSIG.
fn key_hash_script(alloc: Global, hash: &[u8]) -> Result<Vec<u8>, AllocError>
    ensures { IfOk result (λ s. s.items ≡ key_hash_script hash.now) }
{
    let mut script = Vec::new(alloc);
    script.extend_from_slice(&[0x76, 0xa9, 0x14])?;
    script.extend_from_slice(hash)?;
    script.extend_from_slice(&[0x88, 0xac])?;
    Ok(script)
}

// The last item of the witness, which has this hash, and the items before it.
fn given_by_hash<'a>(hash: &[u8], witness: &'a [ByteString]) -> Result<Given<'a>, ProgramFault>
    ensures given { IsGiven (given_by_hash hash.now (reverse witness.now)) result }
    ensures fault { IfErr result (IsScriptHashFault hash.now (reverse witness.now)) }
{
    let Some((script, items)) = witness.split_last() else {
        return Err(ProgramFault::NoScript);
    };
    if sha256(script.bytes()).as_slice() != hash {
        return Err(ProgramFault::OtherScript);
    }
    let code = Code::OfWitness(script);
    Ok(Given { code, items })
}

/// The script and the items that a program and a witness give, or why they give none. The only other error is that memory ran out.
#[tactic(auto, unfolding(sighash::specs::Programs::given_of))]
pub fn given_of<'a>(
    alloc: Global,
    program: &[u8],
    witness: &'a [ByteString],
) -> Result<Result<Given<'a>, ProgramFault>, AllocError>
    ensures given { IfOk result (IsGiven (given_of program.now witness.now)) }
    ensures fault { IfOk result (λ r. IfErr r (IsProgramFault program.now witness.now)) }
{
    if is_key_hash_program(program) {
        if witness.len() != 2 {
            return Ok(Err(ProgramFault::NotTwoItems));
        }
        let code = Code::OfKeyHash(key_hash_script(alloc, &program[2..])?);
        let items = witness;
        return Ok(Ok(Given { code, items }));
    }
    if !is_script_hash_program(program) {
        return Ok(Err(ProgramFault::OtherProgram));
    }
    Ok(given_by_hash(&program[2..], witness))
}
