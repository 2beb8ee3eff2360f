//! The outputs of a commitment.

ghost use Rattle.std.specs.Prelude.{◌≡◌, ◌++◌, map, IfOk, OnOk};
ghost use Rattle.commit.specs.Keys.{bytes_of};
ghost use Rattle.commit.specs.Outputs.{script_output, to_local_output, to_remote_output, htlc_output, where_paid, outputs_of};

use crate::amounts::Amounts;
use crate::derived::CommitmentKeys;
use crate::fees::{Direction, satoshis};
use crate::scripts::{HtlcScripts, to_local_script, to_remote_script};
use lists::ByteString;
use sighash::programs::{key_hash_program, script_hash_program};
use std::alloc::{AllocError, Global};
use terms::Htlc;

/// What an output of a commitment is (BOLT 3, "Commitment Transaction Outputs").
#[derive(Clone, Copy, Debug, PartialEq, Eq, Drop)]
pub enum OutputKind {
    /// To the owner, after the delay.
    ToLocal,
    /// To the owner's peer.
    ToRemote,
    /// An HTLC that isn't trimmed.
    ToHtlc(Direction, Htlc),
}

/// An output of a commitment.
#[derive(Clone, Debug, Drop)]
pub struct CommitmentOutput {
    /// Satoshis.
    pub value: u64,
    /// The script that a spend of it runs and that its signatures commit to (BIP 143): the witness script, or for to_remote the script
    /// that P2WPKH stands for.
    pub script: ByteString,
    /// The output's own script: the witness program (BIP 141).
    pub program: ByteString,
    pub kind: OutputKind,
}

impl CommitmentOutput {
    ghost use Rattle.std.specs.Prelude.{◌≡◌, IfOk};

    /// A copy of an output. The only error is that memory ran out.
    pub fn copy(&self) -> Result<Self, AllocError>
        ensures { IfOk result (λ o. o ≡ self.now) }
    {
        self.clone()
    }
}

/// An HTLC output of a commitment.
#[derive(Clone, Copy, Debug, PartialEq, Eq, Drop)]
pub struct HtlcOutput {
    /// The index of the output in the commitment, from 0.
    pub index: u32,
    pub direction: Direction,
    pub htlc: Htlc,
}

// The output with a script.
fn script_output(
    alloc: Global,
    value: u64,
    script: ByteString,
    kind: OutputKind,
) -> Result<CommitmentOutput, AllocError>
    ensures { IfOk result (λ o. o ≡ script_output value script kind) }
{
    let program = script_hash_program(alloc, script.bytes())?;
    Ok(CommitmentOutput {
        value,
        script,
        program,
        kind,
    })
}

// Appends the output to_local, if the amounts have one.
fn push_to_local(
    alloc: Global,
    delay_blocks: u16,
    keys: &CommitmentKeys,
    amounts: &Amounts,
    outputs: &mut Vec<CommitmentOutput>,
) -> Result<(), AllocError>
    ensures { OnOk result (outputs.new.items ≡ outputs.old.items ++ where_paid
        (to_local_output delay_blocks (bytes_of keys.now)) amounts.now.to_local) }
{
    if let Some(value) = amounts.to_local {
        let script = to_local_script(alloc, delay_blocks, keys)?;
        outputs.push(script_output(alloc, value, script, OutputKind::ToLocal)?)?;
    }
    Ok(())
}

// Appends the output to_remote, if the amounts have one.
fn push_to_remote(
    alloc: Global,
    keys: &CommitmentKeys,
    amounts: &Amounts,
    outputs: &mut Vec<CommitmentOutput>,
) -> Result<(), AllocError>
    ensures { OnOk result (outputs.new.items ≡ outputs.old.items ++ where_paid
        (to_remote_output (bytes_of keys.now)) amounts.now.to_remote) }
{
    if let Some(value) = amounts.to_remote {
        let output = CommitmentOutput {
            value,
            script: to_remote_script(alloc, keys)?,
            program: key_hash_program(alloc, &keys.remote.bytes)?,
            kind: OutputKind::ToRemote,
        };
        outputs.push(output)?;
    }
    Ok(())
}

// The output of an HTLC.
fn htlc_output(
    alloc: Global,
    scripts: &HtlcScripts,
    direction: Direction,
    htlc: &Htlc,
) -> Result<CommitmentOutput, AllocError>
    ensures { IfOk result (λ o. o ≡ htlc_output (bytes_of scripts.now.keys) direction htlc.now) }
{
    let script = scripts.script(alloc, direction, htlc)?;
    let kind = OutputKind::ToHtlc(direction, *htlc);
    script_output(alloc, satoshis(htlc.amount_msat), script, kind)
}

// Appends the HTLC outputs.
fn push_htlcs(
    alloc: Global,
    scripts: &HtlcScripts,
    direction: Direction,
    htlcs: &[Htlc],
    outputs: &mut Vec<CommitmentOutput>,
) -> Result<(), AllocError>
    ensures { OnOk result (outputs.new.items ≡ outputs.old.items ++ map
        (htlc_output (bytes_of scripts.now.keys) direction) htlcs.now) }
{
    for htlc in htlcs {
        outputs.push(htlc_output(alloc, scripts, direction, htlc)?)?;
    }
    Ok(())
}

/// The outputs of amounts, not sorted yet. The only error is that memory ran out.
#[tactic(auto, unfolding(crate::specs::Outputs::outputs_of))]
pub(crate) fn collect_outputs(
    alloc: Global,
    delay_blocks: u16,
    keys: &CommitmentKeys,
    amounts: &Amounts,
) -> Result<Vec<CommitmentOutput>, AllocError>
    ensures { IfOk result (λ v. v.items ≡ outputs_of delay_blocks (bytes_of keys.now) amounts.now) }
{
    let scripts = HtlcScripts::new(keys);
    let mut outputs = Vec::new(alloc);
    push_htlcs(
        alloc,
        &scripts,
        Direction::Offered,
        amounts.offered.values(),
        &mut outputs,
    )?;
    push_htlcs(
        alloc,
        &scripts,
        Direction::Received,
        amounts.received.values(),
        &mut outputs,
    )?;
    push_to_local(alloc, delay_blocks, keys, amounts, &mut outputs)?;
    push_to_remote(alloc, keys, amounts, &mut outputs)?;
    Ok(outputs)
}
