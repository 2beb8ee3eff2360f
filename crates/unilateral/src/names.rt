//! The names of a commitment's outputs.

ghost use Rattle.std.specs.Prelude.{◌≡◌, map, IfOk};
ghost use Rattle.std.specs.Str.{bytes_eq};
ghost use Rattle.sighash.specs.Programs.{script_hash_program};
ghost use Rattle.commit.specs.Keys.{bytes_of};
ghost use Rattle.unilateral.specs.Names.{to_remote_program, anchor_program, htlc_name, known_name, anchor_name, other_name, name_of, name_at};

use claim::Key;
use digest::sha256;
use lists::List;
use revoked::{ChannelType, CommitmentKeys, Direction, Revoked, RevokedOutput};
use std::alloc::{AllocError, Global};
use tx::Tx;

/// CHECKSIGVERIFY 1 CHECKSEQUENCEVERIFY.
const TO_REMOTE_END: [u8; 3] = [0xad, 0x51, 0xb2];

/// CHECKSIG IFDUP NOTIF 16 CHECKSEQUENCEVERIFY ENDIF.
const ANCHOR_END: [u8; 6] = [0xac, 0x73, 0x64, 0x60, 0xb2, 0x68];

/// The push of a key.
const KEY_PUSH: u8 = 0x21;

/// The keys of a channel's funding output, by which its anchors are named.
#[derive(Clone, Copy, Debug, PartialEq, Eq)]
pub struct FundingKeys {
    /// One's own.
    pub ours: Key,
    /// The peer's.
    pub peers: Key,
}

/// What an output is.
#[derive(Clone, Copy, Debug, PartialEq, Eq)]
pub enum OutputName {
    /// To the commitment's owner, after the delay; or the output of an HTLC transaction.
    ToLocal,
    /// To the owner's peer.
    ToRemote,
    /// One's own anchor.
    OurAnchor,
    /// The peer's anchor.
    PeersAnchor,
    /// An HTLC that the commitment's owner offered.
    Offered,
    /// An HTLC that the commitment's owner received.
    Received,
    /// None of these.
    Unknown,
}

// Whether a program is that of the hash of a script.
#[tactic(auto, unfolding(sighash::specs::Programs::script_hash_program))]
fn is_program_of(script: &[u8], program: &[u8]) -> bool
    ensures { result ≡ bytes_eq (script_hash_program script.now) program.now }
{
    let mut known = [0; 34];
    known[1] = 0x20;
    known[2..].copy_from_slice(&sha256(script));
    known.as_slice() == program
}

// Whether a program is that of to_remote in a channel with anchors.
fn is_to_remote(key: &Key, program: &[u8]) -> bool
    ensures { result ≡ bytes_eq (to_remote_program key.now.bytes) program.now }
{
    let mut script = [KEY_PUSH; 37];
    script[34..].copy_from_slice(&TO_REMOTE_END);
    script[1..34].copy_from_slice(&key.bytes);
    is_program_of(&script, program)
}

// Whether a program is that of the anchor of a funding key.
fn is_anchor(key: &Key, program: &[u8]) -> bool
    ensures { result ≡ bytes_eq (anchor_program key.now.bytes) program.now }
{
    let mut script = [KEY_PUSH; 40];
    script[34..].copy_from_slice(&ANCHOR_END);
    script[1..34].copy_from_slice(&key.bytes);
    is_program_of(&script, program)
}

// The name of an HTLC.
fn htlc_name(direction: Direction) -> OutputName
    ensures { result ≡ htlc_name direction }
{
    match direction {
        Direction::Offered => OutputName::Offered,
        Direction::Received => OutputName::Received,
    }
}

// The name of an output of the commitment.
fn known_name(output: &RevokedOutput) -> OutputName
    ensures { result ≡ known_name output.now }
{
    match output {
        RevokedOutput::ToLocal => OutputName::ToLocal,
        RevokedOutput::ToRemote => OutputName::ToRemote,
        RevokedOutput::ToHtlc(htlc) => htlc_name(htlc.direction),
    }
}

// The name of an anchor, if the funding keys are told.
fn anchor_name(funding_keys: Option<FundingKeys>, program: &[u8]) -> OutputName
    ensures { result ≡ anchor_name funding_keys program.now }
{
    let Some(keys) = funding_keys else {
        return OutputName::Unknown;
    };
    if is_anchor(&keys.ours, program) {
        return OutputName::OurAnchor;
    }
    if is_anchor(&keys.peers, program) {
        return OutputName::PeersAnchor;
    }
    OutputName::Unknown
}

// The name of an output that has no form that is known here.
fn other_name(
    channel_type: ChannelType,
    keys: &CommitmentKeys,
    funding_keys: Option<FundingKeys>,
    program: &[u8],
) -> OutputName
    ensures { result ≡ other_name channel_type (bytes_of keys.now) funding_keys program.now }
{
    match channel_type {
        ChannelType::StaticRemoteKey => OutputName::Unknown,
        ChannelType::Anchors => {
            if is_to_remote(&keys.remote, program) {
                return OutputName::ToRemote;
            }
            anchor_name(funding_keys, program)
        }
    }
}

/// What an output with this program is, of a commitment that is revoked or not. With anchors it names to_remote and, if the funding keys are told, the anchors, on which nothing
/// is claimed. It allocates nothing.
pub fn name_of(
    commitment: &Revoked,
    funding_keys: Option<FundingKeys>,
    program: &[u8],
) -> OutputName
    ensures { result ≡ name_of commitment.now funding_keys program.now }
{
    match commitment.output_with(program) {
        Some(known) => known_name(&known),
        None => {
            let keys = commitment.keys();
            other_name(commitment.channel_type(), keys, funding_keys, program)
        }
    }
}

// The name of the output at an index.
fn name_at(
    commitment: &Revoked,
    funding_keys: Option<FundingKeys>,
    tx: &Tx,
    index: u32,
) -> OutputName
    ensures { result ≡ name_at commitment.now funding_keys tx.now index }
{
    match tx.outputs().get(index as usize) {
        Some(output) => name_of(commitment, funding_keys, output.script().bytes()),
        None => OutputName::Unknown,
    }
}

/// The names of the outputs of a transaction at these indices. The only error is that memory ran out.
pub fn names_at(
    alloc: Global,
    commitment: &Revoked,
    funding_keys: Option<FundingKeys>,
    tx: &Tx,
    indices: &[u32],
) -> Result<List<OutputName>, AllocError>
    ensures { IfOk result (λ ns. ns ≡ map (name_at commitment.now funding_keys tx.now) indices.now) }
{
    let mut names = Vec::new(alloc);
    for index in indices {
        names.push(name_at(commitment, funding_keys, tx, *index))?;
    }
    Ok(List::from_vec(names))
}
