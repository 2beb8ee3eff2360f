// The programs of a revoked commitment's outputs, and HTLCs by their programs.

ghost use Rattle.std.specs.Prelude.{◌≡◌, ◌≢◌, ℕ, List as Values, [], ◌∷◌, length, Some, None, OnOk, IfOk, MatchOption};
ghost use Rattle.std.specs.Ordering.{nat_cmp};
ghost use Rattle.std.specs.Cmp.Lexicographic.{slice_cmp};
ghost use Rattle.std.specs.BTreeMap.{get};
ghost use Rattle.std.specs.Option.{option_or};
ghost use Rattle.script.specs.Spelling.{spelling};
ghost use Rattle.sighash.specs.Programs.{script_hash_program as script_hash_program_of};
ghost use Rattle.forms.specs.Forms.{to_local_form};
ghost use Rattle.commit.specs.Keys.{bytes_of};
ghost use Rattle.revoked.specs.Programs.{form_of_htlc, htlc_program, htlc_with};

use crate::outputs::RevokedHtlc;
use anchor_forms::{ChannelPatterns, ChannelType, HtlcKeys, offered, received};
use commit::{CommitmentKeys, Direction};
use forms::Patterns;
use lists::ByteString;
use paths::Checked;
use penalty::claiming::to_local_script;
use sighash::programs::script_hash_program;
use std::alloc::{AllocError, Global};
use std::collections::BTreeMap;

/// The length in bytes of a program that is the hash of a script (BIP 141).
const PROGRAM_LENGTH: usize = 34;

/// The script of an HTLC's output. The only error is that memory ran out.
pub fn htlc_script(
    alloc: Global,
    patterns: &ChannelPatterns,
    channel_type: ChannelType,
    keys: &CommitmentKeys,
    htlc: &RevokedHtlc,
) -> Result<Checked, AllocError>
    ensures { IfOk result (λ s. s ≡ form_of_htlc channel_type (bytes_of keys.now) htlc.now) }
{
    let htlc_keys = HtlcKeys {
        revocation: keys.revocation,
        remote: keys.remote_htlc,
        local: keys.local_htlc,
    };
    match htlc.direction {
        Direction::Offered => offered(alloc, patterns, channel_type, &htlc_keys, &htlc.hash),
        Direction::Received => received(
            alloc,
            patterns,
            channel_type,
            &htlc_keys,
            &htlc.hash,
            htlc.expiry,
        ),
    }
}

// The program that stands for a script.
fn program_of(alloc: Global, script: &Checked) -> Result<ByteString, AllocError>
    ensures value { IfOk result (λ p. p ≡ script_hash_program_of (spelling script.now.ops)) }
    ensures short { IfOk result (λ p. length p ≡ 34) }
{
    script_hash_program(alloc, script.script().bytes())
}

/// The program of to_local, and of an HTLC transaction's output. The only error is that memory ran out.
pub(crate) fn to_local_program(
    alloc: Global,
    patterns: &Patterns,
    keys: &CommitmentKeys,
    delay_blocks: u16,
) -> Result<ByteString, AllocError>
    ensures { IfOk result (λ p. p ≡ script_hash_program_of (spelling
        (to_local_form keys.now.revocation.bytes delay_blocks keys.now.delayed.bytes).ops)) }
{
    let script = to_local_script(alloc, patterns, keys, delay_blocks)?;
    program_of(alloc, &script)
}

// The program of an HTLC's output.
fn htlc_program(
    alloc: Global,
    patterns: &ChannelPatterns,
    channel_type: ChannelType,
    keys: &CommitmentKeys,
    htlc: &RevokedHtlc,
) -> Result<[u8; PROGRAM_LENGTH], AllocError>
    ensures { IfOk result (λ p. p ≡ htlc_program channel_type (bytes_of keys.now) htlc.now) }
{
    let script = htlc_script(alloc, patterns, channel_type, keys, htlc)?;
    let program = program_of(alloc, &script)?;
    let mut key = [0; PROGRAM_LENGTH];
    key.copy_from_slice(program.bytes());
    Ok(key)
}

// Notes an HTLC by its program, unless another with that program is there.
fn insert_if_new(
    alloc: Global,
    patterns: &ChannelPatterns,
    channel_type: ChannelType,
    keys: &CommitmentKeys,
    by_program: &mut BTreeMap<[u8; PROGRAM_LENGTH], RevokedHtlc>,
    htlc: &RevokedHtlc,
) -> Result<(), AllocError>
    ensures { OnOk result ((p : Values ℕ) → get (slice_cmp nat_cmp) by_program.new p
        ≡ option_or (get (slice_cmp nat_cmp) by_program.old p)
        (htlc_with channel_type (bytes_of keys.now) (htlc.now ∷ []) p)) }
{
    let program = htlc_program(alloc, patterns, channel_type, keys, htlc)?;
    if by_program.contains_key(&program) {
        return Ok(());
    }
    by_program.insert(program, *htlc)?;
    Ok(())
}

/// HTLCs by the programs of their outputs; of those with one program the first. It builds each script once. The only error is that memory ran out.
pub(crate) fn by_programs(
    alloc: Global,
    patterns: &ChannelPatterns,
    channel_type: ChannelType,
    keys: &CommitmentKeys,
    htlcs: &[RevokedHtlc],
) -> Result<BTreeMap<[u8; PROGRAM_LENGTH], RevokedHtlc>, AllocError>
    ensures { IfOk result (λ m. (p : Values ℕ) → get (slice_cmp nat_cmp) m p
        ≡ htlc_with channel_type (bytes_of keys.now) htlcs.now p) }
{
    let mut by_program = BTreeMap::new(alloc);
    for htlc in htlcs {
        insert_if_new(alloc, patterns, channel_type, keys, &mut by_program, htlc)?;
    }
    Ok(by_program)
}

// Bytes as a key of the table, if they are as many.
fn key_of(program: &[u8]) -> Option<[u8; PROGRAM_LENGTH]>
    ensures value { MatchOption result (length program.now ≢ 34) (λ key. key ≡ program.now) }
{
    if program.len() != PROGRAM_LENGTH {
        return None;
    }
    let mut key = [0; PROGRAM_LENGTH];
    key.copy_from_slice(program);
    Some(key)
}

/// The HTLC of a program, found in a time logarithmic in the number of HTLCs.
pub(crate) fn htlc_of(
    by_program: &BTreeMap<[u8; PROGRAM_LENGTH], RevokedHtlc>,
    program: &[u8],
) -> Option<RevokedHtlc>
    ensures of_length { length program.now ≡ 34
        → result ≡ get (slice_cmp nat_cmp) by_program.now program.now }
    ensures of_other { length program.now ≢ 34 → result ≡ None }
{
    match key_of(program) {
        Some(key) => by_program.get(&key).copied(),
        None => None,
    }
}
