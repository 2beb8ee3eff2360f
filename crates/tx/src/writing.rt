//! From transactions to bytes.

ghost use Rattle.std.specs.Prelude.{◌≡◌, ◌↔◌, ◌++◌, false, IfOk, OnOk, IsErrOf};
ghost use Rattle.std.specs.List.{flat_map};
ghost use Rattle.tx.specs.Fields.{has_witness};
ghost use Rattle.tx.specs.Spelling.{compact_size, bytes_with_length, outpoint, input, output, witness, body, witnesses, spelling, stripped_spelling, IsTransaction};

use crate::errors::EncodeError;
use crate::input::TxIn;
use crate::output::TxOut;
use crate::transaction::Tx;
use crate::witness::Witness;
use lists::ByteString;
use std::alloc::{AllocError, Global};

#[tactic(auto, unfolding(crate::specs::Spelling::compact_size, crate::specs::Spelling::number))]
fn put_compact_size(out: &mut Vec<u8>, n: usize) -> Result<(), AllocError>
    ensures { OnOk result (out.new.items ≡ out.old.items ++ compact_size n) }
{
    let n = n as u64;
    if n < 0xfd {
        out.push(n as u8)?;
    } else if n < 0x1_0000 {
        out.push(0xfd)?;
        out.extend_from_slice(&(n as u16).to_le_bytes())?;
    } else if n < 0x1_0000_0000 {
        out.push(0xfe)?;
        out.extend_from_slice(&(n as u32).to_le_bytes())?;
    } else {
        out.push(0xff)?;
        out.extend_from_slice(&n.to_le_bytes())?;
    }
    Ok(())
}

#[tactic(auto, unfolding(crate::specs::Spelling::bytes_with_length))]
fn put_byte_string(out: &mut Vec<u8>, bytes: &[u8]) -> Result<(), AllocError>
    ensures { OnOk result (out.new.items ≡ out.old.items ++ bytes_with_length bytes.now) }
{
    put_compact_size(out, bytes.len())?;
    out.extend_from_slice(bytes)?;
    Ok(())
}

#[tactic(auto, unfolding(crate::specs::Spelling::input, crate::specs::Spelling::outpoint, crate::specs::Spelling::number))]
fn put_input(out: &mut Vec<u8>, i: &TxIn) -> Result<(), AllocError>
    ensures { OnOk result (out.new.items ≡ out.old.items ++ input i.now) }
{
    out.extend_from_slice(&i.outpoint.txid)?;
    out.extend_from_slice(&i.outpoint.index.to_le_bytes())?;
    put_compact_size(out, 0)?;
    out.extend_from_slice(&i.sequence.to_le_bytes())?;
    Ok(())
}

#[tactic(auto, unfolding(crate::specs::Spelling::output, crate::specs::Spelling::number))]
fn put_output(out: &mut Vec<u8>, o: &TxOut) -> Result<(), AllocError>
    ensures { OnOk result (out.new.items ≡ out.old.items ++ output o.now) }
{
    out.extend_from_slice(&o.value().to_le_bytes())?;
    put_byte_string(out, o.script().bytes())?;
    Ok(())
}

fn put_inputs(out: &mut Vec<u8>, inputs: &[TxIn]) -> Result<(), AllocError>
    ensures { OnOk result (out.new.items ≡ out.old.items ++ flat_map input inputs.now) }
{
    for i in inputs {
        put_input(out, i)?;
    }
    Ok(())
}

fn put_outputs(out: &mut Vec<u8>, outputs: &[TxOut]) -> Result<(), AllocError>
    ensures { OnOk result (out.new.items ≡ out.old.items ++ flat_map output outputs.now) }
{
    for o in outputs {
        put_output(out, o)?;
    }
    Ok(())
}

#[tactic(auto, unfolding(crate::specs::Spelling::body))]
fn put_body(out: &mut Vec<u8>, inputs: &[TxIn], outputs: &[TxOut]) -> Result<(), AllocError>
    ensures { OnOk result (out.new.items ≡ out.old.items ++ body inputs.now outputs.now) }
{
    put_compact_size(out, inputs.len())?;
    put_inputs(out, inputs)?;
    put_compact_size(out, outputs.len())?;
    put_outputs(out, outputs)?;
    Ok(())
}

fn put_items(out: &mut Vec<u8>, items: &[ByteString]) -> Result<(), AllocError>
    ensures { OnOk result (out.new.items ≡ out.old.items ++ flat_map bytes_with_length items.now) }
{
    for item in items {
        put_byte_string(out, item.bytes())?;
    }
    Ok(())
}

#[tactic(auto, unfolding(crate::specs::Spelling::witness))]
fn put_witness(out: &mut Vec<u8>, items: &Witness) -> Result<(), AllocError>
    ensures { OnOk result (out.new.items ≡ out.old.items ++ witness items.now) }
{
    put_compact_size(out, items.len())?;
    put_items(out, items.as_slice())?;
    Ok(())
}

#[tactic(auto, unfolding(crate::specs::Spelling::witnesses))]
fn put_witnesses(out: &mut Vec<u8>, inputs: &[TxIn]) -> Result<(), AllocError>
    ensures { OnOk result (out.new.items ≡ out.old.items ++ witnesses inputs.now) }
{
    for i in inputs {
        put_witness(out, &i.witness)?;
    }
    Ok(())
}

#[tactic(auto, unfolding(crate::specs::Spelling::spelling, crate::specs::Spelling::number))]
fn put_transaction(out: &mut Vec<u8>, tx: &Tx) -> Result<(), AllocError>
    ensures { OnOk result (out.new.items ≡ out.old.items ++ spelling tx.now) }
{
    out.extend_from_slice(&tx.version().to_le_bytes())?;
    out.extend_from_slice(&[0, 1])?;
    put_body(out, tx.inputs(), tx.outputs())?;
    put_witnesses(out, tx.inputs())?;
    out.extend_from_slice(&tx.lock_time().to_le_bytes())?;
    Ok(())
}

#[tactic(auto, unfolding(crate::specs::Spelling::stripped_spelling, crate::specs::Spelling::number))]
fn put_stripped(out: &mut Vec<u8>, tx: &Tx) -> Result<(), AllocError>
    ensures { OnOk result (out.new.items ≡ out.old.items ++ stripped_spelling tx.now) }
{
    out.extend_from_slice(&tx.version().to_le_bytes())?;
    put_body(out, tx.inputs(), tx.outputs())?;
    out.extend_from_slice(&tx.lock_time().to_le_bytes())?;
    Ok(())
}

/// The bytes of a transaction (BIP 144): NoWitness where no witness has an item. The other error is that memory ran out.
pub fn encode(alloc: Global, tx: &Tx) -> Result<Vec<u8>, EncodeError>
    ensures ok { IfOk result (λ bytes. IsTransaction tx.now bytes.items) }
    ensures no_witness { IsErrOf result EncodeError.NoWitness
        ↔ (has_witness tx.now.inputs ≡ false) }
{
    if !tx.has_witness() {
        return Err(EncodeError::NoWitness);
    }
    tx.keeps_limits();
    let mut out = Vec::new(alloc);
    put_transaction(&mut out, tx)?;
    Ok(out)
}

/// The bytes of a transaction in the form without marker, flag and witnesses, over which its id is taken (BIP 141). The
/// only error is that memory ran out.
pub fn encode_stripped(alloc: Global, tx: &Tx) -> Result<Vec<u8>, AllocError>
    ensures { IfOk result (λ bytes. bytes.items ≡ stripped_spelling tx.now) }
{
    let mut out = Vec::new(alloc);
    put_stripped(&mut out, tx)?;
    Ok(out)
}
