//! Runs of the version 0 witness programs of outputs (BIP 141).

ghost use Rattle.std.specs.Prelude.{◌≡◌, Some, slice_get};
ghost use Rattle.sighash.specs.Programs.{script_ops, run_of, run_of_given};
ghost use Rattle.chain.specs.Connecting.{is_program};
ghost use Rattle.chain.specs.Running.{IsRun, IsParsed};

use crate::errors::ChainError;
use crate::given::given_of;
use lists::ByteString;
use machine::{Run, Stop, run};
use script::{ParseError, Script, Spend};
use sighash::SighashCache;
use sighash::programs::{is_key_hash_program, is_script_hash_program};
use std::alloc::Global;
use tx::{Tx, TxIn, TxOut};

/// Whether bytes are a version 0 witness program in one of its two forms.
pub(crate) fn is_program(program: &[u8]) -> bool
    ensures { result ≡ is_program program.now }
{
    is_key_hash_program(program) || is_script_hash_program(program)
}

/// Reads a script; `BadProgram` where the bytes are not one.
#[tactic(auto, using(sighash::proofs::Parsing::parsed, sighash::proofs::Parsing::unparsed))]
fn parse(alloc: Global, bytes: &[u8]) -> Result<Script, ChainError>
    ensures { IsParsed (script_ops bytes.now) result }
{
    match Script::parse(alloc, bytes) {
        Ok(script) => Ok(script),
        Err(error) => match error {
            ParseError::NoMemory => Err(ChainError::NoMemory),
            _ => Err(ChainError::BadProgram),
        },
    }
}

/// Runs a script on items. `index` is that of the input, and `cache` that of the transaction.
fn run_script(
    alloc: Global,
    tx: &Tx,
    cache: &SighashCache<'_>,
    index: usize,
    input: &TxIn,
    value: u64,
    script: &[u8],
    items: &[ByteString],
) -> Result<Run, ChainError>
    requires cached { cache.now ≡ tx.now }
    requires indexed { slice_get tx.now.inputs index ≡ Some input.now }
    ensures { IsRun (run_of_given tx.now input.now value
        (record { script = script.now; items = items.now })) result }
{
    let parsed = parse(alloc, script)?;
    let Ok(digest) = cache.digest_of(index, script, value) else {
        unreachable!()
    };
    let spend = Spend {
        version: tx.version(),
        lock_time: tx.lock_time(),
        sequence: input.sequence,
        digest,
    };
    match run(alloc, &parsed, items, &spend) {
        Ok(run) => Ok(run),
        Err(Stop::NoMemory) => Err(ChainError::NoMemory),
        Err(Stop::At(cause, at)) => Err(ChainError::Script(cause, at)),
    }
}

/// Runs the program of an output on the witness of the input that spends it (BIP 141). `index` is the index of that input, and `cache`
/// is the cache of its transaction, so what the digests of its inputs share is hashed once. The error is `BadProgram` where the program
/// is not of version 0, or the witness or its script does not have the program's form; `Script` where the script stops.
#[tactic(auto, unfolding(sighash::specs::Programs::run_of))]
pub fn run_program(
    alloc: Global,
    tx: &Tx,
    cache: &SighashCache<'_>,
    index: usize,
    input: &TxIn,
    output: &TxOut,
) -> Result<Run, ChainError>
    requires cached { cache.now ≡ tx.now }
    requires indexed { slice_get tx.now.inputs index ≡ Some input.now }
    ensures { IsRun (run_of tx.now input.now output.now) result }
{
    let program = output.script().bytes();
    let Ok(given) = given_of(alloc, program, input.witness.as_slice())? else {
        return Err(ChainError::BadProgram);
    };
    run_script(
        alloc,
        tx,
        cache,
        index,
        input,
        output.value(),
        given.script(),
        given.items(),
    )
}
