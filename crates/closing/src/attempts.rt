// A claim that is tried: its path, its slots, its place and the transaction round it.

use crate::cases::{Case, Claimed, Slip};
use crate::funded::{EXPIRY_HEIGHT, PREIMAGE, VALUE, grant, program_of};
use crate::parties::Parties;
use crate::shapes::exact;
use chain::Chain;
use claim::{Place, Shell, Slot};
use digest::sha256;
use forms::{ClaimKind, accepted_slots};
use keys::{Base, Key};
use lists::ByteString;
use sighash::{Token, digest_of};
use std::alloc::Global;
use tx::{Inputs, OutPoint, Outputs, Tx, TxIn, TxOut, Witness};

/// The program of an output that is not claimed here.
const PROGRAM: [u8; 22] = [
    0x00, 0x14, 7, 7, 7, 7, 7, 7, 7, 7, 7, 7, 7, 7, 7, 7, 7, 7, 7, 7, 7, 7,
];

/// One output of this value, in satoshis, to that program.
pub fn outputs(alloc: Global, value: u64) -> Option<Vec<TxOut>> {
    let program = ByteString::from_slice(alloc, &PROGRAM).ok()?;
    let output = TxOut::new(value, program).ok()?;
    let mut outputs = Vec::new(alloc);
    outputs.push(output).ok()?;
    Some(outputs)
}

/// An input of sequence 0 with one witness item.
fn signed_input(alloc: Global, outpoint: OutPoint) -> Option<TxIn> {
    let mut witness = Witness::new(alloc);
    witness
        .push(ByteString::from_slice(alloc, &[1]).ok()?)
        .ok()?;
    Some(TxIn {
        outpoint,
        sequence: 0,
        witness,
    })
}

/// A list of that one input.
fn signed_inputs(alloc: Global, outpoint: OutPoint) -> Option<Inputs> {
    let mut inputs = Inputs::new(alloc);
    inputs.push(signed_input(alloc, outpoint)?).ok()?;
    Some(inputs)
}

/// The transaction that both sides signed: one input, this lock time, and one output of this value.
fn fixed(alloc: Global, outpoint: OutPoint, lock_time: u32, value: u64) -> Option<Tx> {
    let outputs = Outputs::from_vec(outputs(alloc, value)?).ok()?;
    Tx::new(2, signed_inputs(alloc, outpoint)?, outputs, lock_time).ok()
}

/// The transaction round the claim.
fn shell(alloc: Global, case: &Case, outpoint: OutPoint) -> Option<Shell> {
    let lock_time = match (case.claimed, case.slip) {
        (_, Slip::TimeLock) => 500_000_000,
        (Claimed::HtlcTimeout, _) => EXPIRY_HEIGHT,
        (Claimed::HtlcSuccess | Claimed::Funding, _) => 0,
        _ => return Some(Shell::Open),
    };
    let value = match case.slip {
        Slip::GreaterOutputs => VALUE + 1,
        _ => VALUE,
    };
    Some(Shell::Fixed(fixed(alloc, outpoint, lock_time, value)?))
}

/// The other side's token over the fixed transaction, or over another digest. It is over zeros if the shell is open.
fn remote_token(key: &Key, script: &[u8], shell: &Shell, slip: Slip) -> Option<Token> {
    let mut digest = match shell {
        Shell::Fixed(tx) => digest_of(tx, 0, script, VALUE).ok()?,
        Shell::Open => [0; 32],
    };
    if let Slip::OtherRemoteToken = slip {
        digest[31] ^= 1;
    }
    Some(Token::new(&key.bytes, &digest))
}

/// The kind of the claim; `None` for the funding output.
fn kind_of(parties: &Parties, claimed: Claimed, remote_token: Token) -> Option<ClaimKind> {
    let keys = parties.htlc_keys();
    let payment_hash = sha256(&PREIMAGE);
    let (local, remote, revocation) = (keys.local, keys.remote, keys.revocation);
    Some(match claimed {
        Claimed::Penalty => ClaimKind::Penalty { revocation },
        Claimed::Delayed => ClaimKind::Delayed {
            delayed: parties.delayed(),
        },
        Claimed::OfferedPenalty | Claimed::ReceivedPenalty => ClaimKind::HtlcPenalty { revocation },
        Claimed::DirectPreimage => ClaimKind::DirectPreimage {
            payment_hash,
            remote,
        },
        Claimed::DirectTimeout => ClaimKind::DirectTimeout { remote },
        Claimed::KeyHash => ClaimKind::KeyHash {
            key: parties.payment(),
        },
        Claimed::HtlcTimeout => ClaimKind::HtlcTimeout {
            local,
            remote_token,
        },
        Claimed::HtlcSuccess => ClaimKind::HtlcSuccess {
            payment_hash,
            local,
            remote_token,
        },
        Claimed::Funding => return None,
    })
}

/// Appends a slot of exactly these bytes. Returns whether there was memory.
fn push_exact(slots: &mut Vec<Slot>, bytes: &[u8]) -> bool {
    match exact(*slots.allocator(), bytes) {
        Some(slot) => slots.push(slot).is_ok(),
        None => false,
    }
}

/// The slots of the funding output, from the top of the stack: the
/// signature of the greater key, that of the lesser, and the empty item.
fn funding_slots(alloc: Global, parties: &Parties, token: &Token) -> Option<Vec<Slot>> {
    let local = parties.owner.base(Base::Funding);
    let mut slots = Vec::new(alloc);
    let mut is_whole = push_exact(&mut slots, token.bytes());
    is_whole &= slots.push(Slot::Sig(local)).is_ok();
    if parties.peer.base(Base::Funding).bytes < local.bytes {
        slots.reverse();
    }
    is_whole &= push_exact(&mut slots, &[]);
    if is_whole { Some(slots) } else { None }
}

/// The key that makes the other side's token.
fn remote_key(parties: &Parties, claimed: Claimed) -> Key {
    match claimed {
        Claimed::Funding => parties.peer.base(Base::Funding),
        _ => parties.htlc_keys().remote,
    }
}

/// The slots of a claim, from the top of the stack, and the path that they are for.
#[derive(Drop)]
struct Wanted {
    slots: Vec<Slot>,
    path: usize,
}

/// The slots and the path of a claim.
fn wanted_slots(
    alloc: Global,
    parties: &Parties,
    case: &Case,
    script: &[u8],
    shell: &Shell,
) -> Option<Wanted> {
    let key = remote_key(parties, case.claimed);
    let token = remote_token(&key, script, shell, case.slip)?;
    match kind_of(parties, case.claimed, token) {
        Some(kind) => Some(Wanted {
            slots: accepted_slots(alloc, &kind).ok()?,
            path: kind.path(),
        }),
        None => Some(Wanted {
            slots: funding_slots(alloc, parties, &token)?,
            path: 0,
        }),
    }
}

impl Wanted {
    /// Applies a slip.
    fn spoil(&mut self, slip: Slip) {
        match slip {
            Slip::OtherFlag => {
                self.slots.reverse();
                let _top = self.slots.pop();
                let _is_pushed = push_exact(&mut self.slots, &[]);
                self.slots.reverse();
            }
            Slip::OtherSlots => {
                let _last = self.slots.pop();
            }
            Slip::OtherPath => self.path = 2,
            _ => {}
        }
    }
}

/// A claim that is tried: the path of the script, the slots from the top of
/// the stack, the place of the output, and the transaction round the claim.
#[derive(Drop)]
pub struct Attempt {
    pub path: usize,
    pub slots: Vec<Slot>,
    pub place: Place,
    pub shell: Shell,
}

/// The program of the output: that of the script, or of another one.
fn granted_program(
    alloc: Global,
    parties: &Parties,
    case: &Case,
    script: &[u8],
) -> Option<ByteString> {
    let granted = match case.slip {
        Slip::OtherProgram => &[0x51],
        _ => script,
    };
    program_of(alloc, parties, case.claimed, granted).ok()
}

/// The attempt to claim the output at an outpoint.
fn attempt_at(
    alloc: Global,
    parties: &Parties,
    case: &Case,
    script: &[u8],
    outpoint: OutPoint,
) -> Option<Attempt> {
    let shell = shell(alloc, case, outpoint)?;
    let program = granted_program(alloc, parties, case, script)?;
    let mut wanted = wanted_slots(alloc, parties, case, script, &shell)?;
    wanted.spoil(case.slip);
    Some(Attempt {
        path: wanted.path,
        slots: wanted.slots,
        place: Place {
            outpoint,
            value: VALUE,
            program,
        },
        shell,
    })
}

/// Grants an output with this script on a chain, and returns the attempt to claim it.
pub fn attempt_of(
    alloc: Global,
    parties: &Parties,
    case: &Case,
    script: &[u8],
    chain: &mut Chain,
) -> Option<Attempt> {
    let program = granted_program(alloc, parties, case, script)?;
    let outpoint = grant(chain, program)?;
    attempt_at(alloc, parties, case, script, outpoint)
}
