// Judges an input.

ghost use Rattle.std.specs.Prelude.{◌≡◌, Some, IfOk, slice_get};
ghost use Rattle.script.specs.Run.{outcome, Stopped as StopsAt};
ghost use Rattle.sighash.specs.Programs.{spend_of};
ghost use Rattle.judge.specs.Meeting.{path_taken};
ghost use Rattle.judge.specs.Verdicts.{case_of_given, case_of, IsParsed, IsJudged};
ghost use Rattle.judge.specs.Faults.{IsBadScript, IsFaultOf, OnRefused};

use crate::meeting::met_path;
use crate::verdicts::{Clean, Fault, Stopped, Verdict};
use chain::given_of;
use lists::ByteString;
use machine::{Stop, elements_at, run};
use paths::{CheckError, check};
use script::{Cause, ParseError, Script, Spend};
use sighash::SighashCache;
use std::alloc::{AllocError, Global};
use tx::{Tx, TxIn, TxOut};

/// Judges an input of a transaction that spends this output (BIP 141). `index` is that of the input, and `cache` that of the transaction. The only error
/// is that memory ran out.
#[tactic(auto, unfolding(crate::specs::Verdicts::case_of))]
pub fn judge(
    alloc: Global,
    tx: &Tx,
    cache: &SighashCache<'_>,
    index: usize,
    input: &TxIn,
    output: &TxOut,
) -> Result<Verdict, AllocError>
    requires cached { cache.now ≡ tx.now }
    requires indexed { slice_get tx.now.inputs index ≡ Some input.now }
    ensures judged { IsJudged (case_of tx.now input.now output.now) result }
    ensures fault { IfOk result (OnRefused (IsFaultOf output.now.script input.now.witness)) }
{
    let program = output.script().bytes();
    match given_of(alloc, program, input.witness.as_slice())? {
        Ok(given) => {
            let (script, items, value) = (given.script(), given.items(), output.value());
            judge_code(alloc, tx, cache, index, input, script, items, value)
        }
        Err(fault) => Ok(Verdict::Refused(Fault::Program(fault))),
    }
}

// Judges an input whose script has these bytes, and runs on these items.
fn judge_code(
    alloc: Global,
    tx: &Tx,
    cache: &SighashCache<'_>,
    index: usize,
    input: &TxIn,
    code: &[u8],
    items: &[ByteString],
    value: u64,
) -> Result<Verdict, AllocError>
    requires cached { cache.now ≡ tx.now }
    requires indexed { slice_get tx.now.inputs index ≡ Some input.now }
    ensures judged { IsJudged (case_of_given tx.now input.now value
        (record { script = code.now; items = items.now })) result }
    ensures fault { IfOk result (OnRefused (IsBadScript code.now)) }
{
    let spend = spend_for(tx, cache, index, input, value, code);
    match parse(alloc, code)? {
        Ok(script) => judge_script(alloc, script, items, &spend),
        Err(error) => Ok(Verdict::Refused(Fault::BadScript(error))),
    }
}

// What a script of these bytes can ask of the input that runs it and spends this value.
fn spend_for(
    tx: &Tx,
    cache: &SighashCache<'_>,
    index: usize,
    input: &TxIn,
    value: u64,
    code: &[u8],
) -> Spend
    requires cached { cache.now ≡ tx.now }
    requires indexed { slice_get tx.now.inputs index ≡ Some input.now }
    ensures { result ≡ spend_of tx.now input.now code.now value }
{
    let Ok(digest) = cache.digest_of(index, code, value) else {
        unreachable!()
    };
    Spend {
        version: tx.version(),
        lock_time: tx.lock_time(),
        sequence: input.sequence,
        digest,
    }
}

// Reads a script.
#[tactic(auto, using(sighash::proofs::Parsing::parsed, sighash::proofs::Parsing::unparsed))]
fn parse(alloc: Global, bytes: &[u8]) -> Result<Result<Script, ParseError>, AllocError>
    ensures { IfOk result (IsParsed bytes.now) }
{
    match Script::parse(alloc, bytes) {
        Ok(script) => Ok(Ok(script)),
        Err(error) => match error {
            ParseError::NoMemory => Err(AllocError),
            _ => Ok(Err(error)),
        },
    }
}

// Runs a script on these items.
fn judge_script(
    alloc: Global,
    script: Script,
    items: &[ByteString],
    spend: &Spend,
) -> Result<Verdict, AllocError>
    ensures { IsJudged (Some (record { spend = spend.now; ops = script; items = items.now }))
        result }
{
    match run(alloc, &script, items, spend) {
        Ok(run) => {
            let path = path_of(alloc, script, items, spend)?;
            let digest = spend.digest;
            Ok(Verdict::Clean(Clean { run, path, digest }))
        }
        Err(Stop::NoMemory) => {
            drop(script);
            Err(AllocError)
        }
        Err(Stop::At(cause, index)) => stopped(alloc, script, items, spend, cause, index),
    }
}

// The verdict on a script that stops at this opcode.
fn stopped(
    alloc: Global,
    script: Script,
    items: &[ByteString],
    spend: &Spend,
    cause: Cause,
    index: usize,
) -> Result<Verdict, AllocError>
    ensures { outcome spend.now script items.now ≡ StopsAt index cause
        → IsJudged (Some (record { spend = spend.now; ops = script; items = items.now })) result }
{
    let digest = spend.digest;
    match elements_at(alloc, &script, items, spend, index) {
        Ok(stack) => Ok(Verdict::Stopped(Stopped {
            cause,
            index,
            script,
            stack,
            digest,
        })),
        Err(error) => {
            drop(script);
            Err(error)
        }
    }
}

// The first listed path that the items meet, if the script is listed.
fn path_of(
    alloc: Global,
    script: Script,
    items: &[ByteString],
    spend: &Spend,
) -> Result<Option<usize>, AllocError>
    ensures { IfOk result (λ o. o ≡ path_taken spend.now script items.now) }
{
    match check(alloc, script) {
        Ok(checked) => {
            let met = met_path(alloc, spend, items, checked.paths());
            drop(checked);
            met
        }
        Err(error) => match error {
            CheckError::NoMemory => Err(AllocError),
            _ => Ok(None),
        },
    }
}
