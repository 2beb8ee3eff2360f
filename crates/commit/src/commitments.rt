//! Commitments, and the HTLC transactions that spend their outputs.

ghost use Rattle.std.specs.Prelude.{◌≡◌, ◌≤◌, ◌++◌, [], map, length, IfOk, OnOk};
ghost use Rattle.std.specs.List.{All, cons_option};
ghost use Rattle.tx.specs.declared.limits.TheConstants.{MAX_OUTPUTS as max_outputs};
ghost use Rattle.commit.specs.Keys.{bytes_of};
ghost use Rattle.sighash.specs.Programs.{script_hash_program as script_hash_program_of};
ghost use Rattle.commit.specs.Outputs.{to_local_script as to_local_script_of};
ghost use Rattle.commit.specs.Commitments.{IsTxOutput, tx_output, spending, htlc_at, htlcs_from, lock_time_of, htlc_tx_at};

use crate::derived::CommitmentKeys;
use crate::fees::{Direction, htlc_fee, satoshis};
use crate::outputs::{CommitmentOutput, HtlcOutput, OutputKind};
use crate::scripts::to_local_script;
use lists::{ByteString, List};
use sighash::programs::script_hash_program;
use std::alloc::{AllocError, Global};
use std::marker::Model;
use terms::{Htlc, Obscured};
use tx::hashing::txid;
use tx::{Inputs, OutPoint, Outputs, Tx, TxIn, TxOut, Witness};

/// The version of all transactions here. From version 2 on, sequence numbers are relative locks (BIP 68).
const VERSION: u32 = 2;

/// One side's commitment transaction, with what its outputs are and what their HTLC transactions need.
#[derive(Debug, Drop)]
pub struct Commitment {
    funding: OutPoint,
    hidden: Obscured,
    keys: CommitmentKeys,
    delay_blocks: u16,
    feerate_per_kw: u32,
    outputs: List<CommitmentOutput>,
    tx: Tx,
    id: [u8; 32],
    htlcs: List<HtlcOutput>,
    second_stage_program: ByteString,
}

impl Model for Commitment {
    ghost use Rattle.commit.specs.Commitments.{Contents, Keeps};
    ghost use Rattle.commit.specs.Keys.{bytes_of};

    ghost Value = { Contents };

    ghost view = { λ a. record {
      funding = a.funding;
      hidden = a.hidden;
      keys = bytes_of a.keys;
      delay_blocks = a.delay_blocks;
      feerate_per_kw = a.feerate_per_kw;
      outputs = a.outputs;
    } };

    ghost invariant = { λ a. Keeps (record {
      funding = a.funding;
      hidden = a.hidden;
      keys = bytes_of a.keys;
      delay_blocks = a.delay_blocks;
      feerate_per_kw = a.feerate_per_kw;
      outputs = a.outputs;
    })
        a.tx a.id a.htlcs a.second_stage_program };
}

// The outputs of the transaction.
fn tx_outputs(alloc: Global, outputs: &[CommitmentOutput]) -> Result<Outputs, AllocError>
    requires few { length outputs.now ≤ max_outputs }
    requires limited { All (λ o. IsTxOutput o) outputs.now }
    ensures { IfOk result (λ xs. xs ≡ map tx_output outputs.now) }
{
    let mut items = Vec::with_capacity(alloc, outputs.len())?;
    for output in outputs {
        match TxOut::new(output.value, output.program.copy()?) {
            Ok(item) => items.push(item)?,
            Err(_) => unreachable!(),
        }
    }
    match Outputs::from_vec(items) {
        Ok(list) => Ok(list),
        Err(_) => unreachable!(),
    }
}

// An unsigned transaction with one input.
fn spending(
    alloc: Global,
    outpoint: OutPoint,
    sequence: u32,
    outputs: Outputs,
    lock_time: u32,
) -> Result<Tx, AllocError>
    ensures { IfOk result (λ t. t ≡ spending outpoint sequence outputs lock_time) }
{
    let mut inputs = Inputs::new(alloc);
    inputs.push_within_limit(TxIn {
        outpoint,
        sequence,
        witness: Witness::new(alloc),
    })?;
    match Tx::new(VERSION, inputs, outputs, lock_time) {
        Ok(tx) => Ok(tx),
        Err(_) => unreachable!(),
    }
}

// The unsigned transaction of a commitment.
fn commitment_tx(
    alloc: Global,
    funding: OutPoint,
    hidden: Obscured,
    outputs: &[CommitmentOutput],
) -> Result<Tx, AllocError>
    requires few { length outputs.now ≤ max_outputs }
    requires limited { All (λ o. IsTxOutput o) outputs.now }
    ensures { IfOk result (λ t. t ≡ spending funding hidden.sequence
        (map tx_output outputs.now) hidden.lock_time) }
{
    spending(
        alloc,
        funding,
        hidden.sequence,
        tx_outputs(alloc, outputs)?,
        hidden.lock_time,
    )
}

// The program of each HTLC transaction's output, whose owner waits for it as for to_local.
fn delayed_program(
    alloc: Global,
    delay_blocks: u16,
    keys: &CommitmentKeys,
) -> Result<ByteString, AllocError>
    ensures { IfOk result (λ p. p ≡ script_hash_program_of
        (to_local_script_of delay_blocks (bytes_of keys.now))) }
{
    let script = to_local_script(alloc, delay_blocks, keys)?;
    script_hash_program(alloc, script.bytes())
}

// The HTLC of an output, if it is an HTLC output.
pub(crate) fn htlc_at(index: u32, kind: &OutputKind) -> Option<HtlcOutput>
    ensures { result ≡ htlc_at index kind.now }
{
    match kind {
        OutputKind::ToLocal => None,
        OutputKind::ToRemote => None,
        OutputKind::ToHtlc(direction, htlc) => Some(HtlcOutput {
            index,
            direction: *direction,
            htlc: *htlc,
        }),
    }
}

// Appends the HTLC of an output, if it is an HTLC output.
fn push_htlc(htlcs: &mut Vec<HtlcOutput>, index: u32, kind: &OutputKind) -> Result<(), AllocError>
    ensures { OnOk result (htlcs.new.items ≡ htlcs.old.items ++ cons_option
        (htlc_at index kind.now) []) }
{
    if let Some(htlc) = htlc_at(index, kind) {
        htlcs.push(htlc)?;
    }
    Ok(())
}

// The HTLC outputs, in order.
fn htlc_outputs(alloc: Global, outputs: &[CommitmentOutput]) -> Result<List<HtlcOutput>, AllocError>
    requires { length outputs.now ≤ max_outputs }
    ensures { IfOk result (λ hs. hs ≡ htlcs_from 0 outputs.now) }
{
    let mut htlcs = Vec::new(alloc);
    for (index, output) in outputs.iter().enumerate() {
        push_htlc(&mut htlcs, index as u32, &output.kind)?;
    }
    Ok(List::from_vec(htlcs))
}

impl Commitment {
    ghost use Rattle.std.specs.Prelude.{◌≡◌, ◌≤◌, IfOk, length};
    ghost use Rattle.std.specs.List.{All};
    ghost use Rattle.tx.specs.declared.limits.TheConstants.{MAX_VALUE as max_value, MAX_OUTPUTS as max_outputs};
    ghost use Rattle.commit.specs.Commitments.{Contents, IsOutputOf, transaction_of, id_of, htlcs_of, htlc_tx_of};
    ghost use Rattle.commit.specs.Keys.{bytes_of};
    ghost use Rattle.commit.specs.Fees.{satoshis_of};

    // The commitment with these contents.
    pub(crate) fn new(
        alloc: Global,
        funding: OutPoint,
        hidden: Obscured,
        keys: CommitmentKeys,
        delay_blocks: u16,
        feerate_per_kw: u32,
        outputs: List<CommitmentOutput>,
    ) -> Result<Self, AllocError>
        requires few { length outputs ≤ max_outputs }
        requires each { All (λ o. IsOutputOf (bytes_of keys) o) outputs }
        ensures { IfOk result (λ c. c ≡ record {
          funding = funding;
          hidden = hidden;
          keys = bytes_of keys;
          delay_blocks = delay_blocks;
          feerate_per_kw = feerate_per_kw;
          outputs = outputs;
        }) }
    {
        let tx = commitment_tx(alloc, funding, hidden, outputs.values())?;
        let id = txid(&tx);
        let htlcs = htlc_outputs(alloc, outputs.values())?;
        let second_stage_program = delayed_program(alloc, delay_blocks, &keys)?;
        Ok(Commitment {
            funding,
            hidden,
            keys,
            delay_blocks,
            feerate_per_kw,
            outputs,
            tx,
            id,
            htlcs,
            second_stage_program,
        })
    }

    /// A copy, made without hashing again. The only error is that memory ran out.
    pub fn copy(&self) -> Result<Self, AllocError>
        ensures { IfOk result (λ c. c ≡ self.now) }
    {
        Ok(Commitment {
            funding: self.funding,
            hidden: self.hidden,
            keys: self.keys,
            delay_blocks: self.delay_blocks,
            feerate_per_kw: self.feerate_per_kw,
            outputs: self.outputs.clone()?,
            tx: self.tx.copy()?,
            id: self.id,
            htlcs: self.htlcs.clone()?,
            second_stage_program: self.second_stage_program.copy()?,
        })
    }

    /// The unsigned transaction.
    pub fn tx(&self) -> &Tx
        ensures { result.now ≡ transaction_of self.now }
    {
        &self.tx
    }

    /// The transaction's id, in the byte order of the hash (not reversed as for display).
    pub fn id(&self) -> &[u8; 32]
        ensures { result.now ≡ id_of self.now }
    {
        &self.id
    }

    /// The outputs in the transaction's order.
    pub fn outputs(&self) -> &[CommitmentOutput]
        ensures value { result.now ≡ self.now.outputs }
        ensures few { length result.now ≤ max_outputs }
        ensures each { All (λ o. IsOutputOf self.now.keys o) result.now }
    {
        self.outputs.values()
    }

    /// The HTLC outputs, in the transaction's order.
    pub fn htlcs(&self) -> &[HtlcOutput]
        ensures value { result.now ≡ htlcs_of self.now }
        ensures low { All (λ h. satoshis_of h.htlc.amount_msat ≤ max_value) result.now }
    {
        self.htlcs.values()
    }

    /// The keys of the outputs' scripts.
    pub fn keys(&self) -> &CommitmentKeys
        ensures { bytes_of result.now ≡ self.now.keys }
    {
        &self.keys
    }

    /// The delay in blocks of the owner's delayed outputs.
    pub fn delay_blocks(&self) -> u16
        ensures { result ≡ self.now.delay_blocks }
    {
        self.delay_blocks
    }

    // The HTLC transaction of an HTLC's output.
    pub(crate) fn htlc_tx_of(&self, alloc: Global, htlc: &HtlcOutput) -> Result<Tx, AllocError>
        requires { satoshis_of htlc.now.htlc.amount_msat ≤ max_value }
        ensures { IfOk result (λ t. t ≡ htlc_tx_of self.now htlc.now) }
    {
        let fee = htlc_fee(htlc.direction, self.feerate_per_kw);
        let value = satoshis(htlc.htlc.amount_msat).saturating_sub(fee);
        let output = match TxOut::new(value, self.second_stage_program.copy()?) {
            Ok(output) => output,
            Err(_) => unreachable!(),
        };
        let mut outputs = Outputs::new(alloc);
        outputs.push_within_limit(output)?;
        let outpoint = OutPoint {
            txid: self.id,
            index: htlc.index,
        };
        spending(
            alloc,
            outpoint,
            0,
            outputs,
            lock_time(htlc.direction, &htlc.htlc),
        )
    }
}

// The lock time of an HTLC transaction.
fn lock_time(direction: Direction, htlc: &Htlc) -> u32
    ensures { result ≡ lock_time_of direction htlc.now }
{
    match direction {
        Direction::Offered => htlc.expiry_height,
        Direction::Received => 0,
    }
}

/// The unsigned HTLC transaction of the commitment's `k`-th HTLC in the order of outputs, from 0 (BOLT 3, "HTLC-Timeout and HTLC-Success
/// Transactions"). `None` if there is no such HTLC. The only error is that memory ran out.
#[tactic(auto, unfolding(crate::specs::Commitments::htlc_tx_at))]
pub fn htlc_tx(alloc: Global, commitment: &Commitment, k: usize) -> Result<Option<Tx>, AllocError>
    ensures { IfOk result (λ t. t ≡ htlc_tx_at commitment.now k) }
{
    match commitment.htlcs().get(k) {
        None => Ok(None),
        Some(htlc) => Ok(Some(commitment.htlc_tx_of(alloc, htlc)?)),
    }
}
