// Whether a claim is accepted; if not, the first refusal.

ghost use Rattle.std.specs.Prelude.{◌≡◌, ◌&&◌, not, ◌++◌, [], ◌∷◌, All, IsTrue, is_ok, Ok, Err, MatchOption, MatchResult, if◌then◌else◌};
ghost use Rattle.std.specs.Str.{bytes_eq};
ghost use Rattle.facts.specs.Sameness.{same_fact, is_denied, contradicts};
ghost use Rattle.paths.specs.declared.state.Path.{Path as PathOf};
ghost use Rattle.claim.specs.declared.errors.AcceptError.TheVariants.{Unmet};
ghost use Rattle.sighash.specs.Programs.{script_hash_program, key_hash_script};
ghost use Rattle.claim.specs.Judgement.{is_key_program, is_program, is_met, first_unmet_or, is_only_input, is_shell, known_digest, judgement_of_path, judgement_of};
ghost use Rattle.claim.specs.Fitting.{IsRefusal};

use crate::errors::AcceptError;
use crate::evidence::evidence_of;
use crate::parts::{Place, Shell, Slot};
use digest::sha256;
use facts::Stated;
use paths::{Checked, Path};
use script::limits::LOCKTIME_THRESHOLD;
use sighash::digest_of;
use sighash::programs::is_key_hash_program;
use std::alloc::Global;
use tx::{OutPoint, TxIn, total_value};

// Whether the program is P2WSH of the script: version 0 and the script's SHA-256
// (BIP 141).
#[tactic(auto, unfolding(sighash::specs::Programs::script_hash_program), using(crate::proofs::Programs::program_by, crate::proofs::Programs::program_short))]
fn is_script_program(script: &[u8], program: &[u8]) -> bool
    ensures { result ≡ bytes_eq program.now (script_hash_program script.now) }
{
    program.len() >= 2
        && program[0] == 0x00
        && program[1] == 0x20
        && &program[2..] == sha256(script).as_slice()
}

// Whether bytes are EQUALVERIFY and CHECKSIG.
#[tactic(auto, using(crate::proofs::Programs::two_bytes, crate::proofs::Programs::other_length))]
fn is_key_script_end(bytes: &[u8]) -> bool
    ensures { result ≡ bytes_eq bytes.now (0x88 ∷ 0xac ∷ []) }
{
    bytes.len() == 2 && bytes[0] == 0x88 && bytes[1] == 0xac
}

// Whether bytes are a hash, EQUALVERIFY and CHECKSIG.
fn ends_key_script(bytes: &[u8], hash: &[u8]) -> bool
    ensures { result ≡ bytes_eq bytes.now (hash.now ++ 0x88 ∷ 0xac ∷ []) }
{
    match bytes.strip_prefix(hash) {
        Some(end) => is_key_script_end(end),
        None => false,
    }
}

// Whether a script is DUP HASH160 hash EQUALVERIFY CHECKSIG.
#[tactic(auto, using(crate::proofs::Programs::key_by, crate::proofs::Programs::key_short))]
fn is_key_script(script: &[u8], hash: &[u8]) -> bool
    ensures { result ≡ bytes_eq script.now (key_hash_script hash.now) }
{
    script.len() >= 3
        && script[0] == 0x76
        && script[1] == 0xa9
        && script[2] == 0x14
        && ends_key_script(&script[3..], hash)
}

// Whether the program is P2WPKH and the script is the one that it stands for (BIP
// 141).
fn is_key_program(script: &[u8], program: &[u8]) -> bool
    ensures { result ≡ is_key_program script.now program.now }
{
    is_key_hash_program(program) && is_key_script(script, &program[2..])
}

// Whether the program stands for the script, as P2WSH or P2WPKH.
pub(crate) fn is_program(script: &[u8], program: &[u8]) -> bool
    ensures { result ≡ is_program script.now program.now }
{
    is_script_program(script, program) || is_key_program(script, program)
}

// Whether the two state one fact with opposite polarities.
fn denies(stated: &Stated, other: &Stated) -> bool
    ensures { result ≡ (same_fact stated.now.fact other.now.fact
        && (if stated.now.holds then not other.now.holds else other.now.holds)) }
{
    stated.fact.equals(&other.fact)
        && (if stated.holds {
            !other.holds
        } else {
            other.holds
        })
}

// Whether the others state this fact with the opposite polarity.
fn is_denied(stated: &Stated, others: &[Stated]) -> bool
    ensures { result ≡ is_denied stated.now others.now }
{
    others.iter().any(|other| denies(stated, other))
}

// Whether some fact is stated with both polarities.
fn contradicts(facts: &[Stated]) -> bool
    ensures { result ≡ contradicts facts.now }
{
    for (i, stated) in facts.iter().enumerate() {
        if is_denied(stated, &facts[i + 1..]) {
            return true;
        }
    }
    false
}

// Whether a fact is shown with its polarity.
fn is_met(known: Option<[u8; 32]>, slots: &[Slot], stated: &Stated) -> bool
    ensures { result ≡ is_met known slots.now stated.now }
{
    match evidence_of(known, slots, &stated.fact) {
        None => false,
        Some(answer) => if answer { stated.holds } else { !stated.holds },
    }
}

// The first fact that is not shown.
pub(crate) fn first_unmet<'a>(
    known: Option<[u8; 32]>,
    slots: &[Slot],
    facts: &'a [Stated],
) -> Option<&'a Stated>
    ensures { MatchOption result ((p : PathOf) → first_unmet_or known slots.now facts.now p ≡ Ok p)
        (λ s. (p : PathOf) → first_unmet_or known slots.now facts.now p ≡ Err (Unmet s.now)) }
{
    for stated in facts {
        if !is_met(known, slots, stated) {
            return Some(stated);
        }
    }
    None
}

// Whether the facts are shown; the refusal names the first that is not.
fn meet(
    alloc: Global,
    known: Option<[u8; 32]>,
    slots: &[Slot],
    facts: &[Stated],
) -> Result<(), AcceptError>
    ensures { MatchResult result (λ _. (p : PathOf)
        → first_unmet_or known slots.now facts.now p ≡ Ok p)
        (λ e. (p : PathOf) → IsRefusal (first_unmet_or known slots.now facts.now p) e) }
{
    match first_unmet(known, slots, facts) {
        None => Ok(()),
        Some(stated) => match stated.copy() {
            Ok(stated) => Err(AcceptError::Unmet(stated)),
            Err(_) => Err(AcceptError::NoMemory),
        },
    }
}

// Whether there is exactly one input, with this outpoint and this sequence.
fn is_only_input(inputs: &[TxIn], outpoint: &OutPoint, sequence: u16) -> bool
    ensures { result ≡ is_only_input inputs.now outpoint.now sequence }
{
    inputs.len() == 1
        && inputs[0].outpoint.txid == outpoint.txid
        && inputs[0].outpoint.index == outpoint.index
        && inputs[0].sequence == u32::from(sequence)
}

// Whether a fixed transaction fits the path and the place.
fn is_shell(path: &Path, place: &Place, shell: &Shell) -> bool
    ensures { result ≡ is_shell path.now place.now shell.now }
{
    match shell {
        Shell::Open => true,
        Shell::Fixed(tx) => tx.version() == 2
            && is_only_input(tx.inputs(), &place.outpoint, path.age.unwrap_or(0))
            && u64::from(tx.lock_time()) < LOCKTIME_THRESHOLD
            && path.lock.unwrap_or(0) <= u64::from(tx.lock_time())
            && total_value(tx.outputs()) <= u128::from(place.value),
    }
}

// The digest that the signatures are over, where the transaction is fixed (BIP 143).
fn known_digest(script: &[u8], place: &Place, shell: &Shell) -> Option<[u8; 32]>
    ensures { result ≡ known_digest script.now place.now shell.now }
{
    match shell {
        Shell::Open => None,
        Shell::Fixed(tx) => match digest_of(tx, 0, script, place.value) {
            Ok(digest) => Some(digest),
            Err(_) => None,
        },
    }
}

// Whether a path is accepted.
fn judge_path(
    alloc: Global,
    script: &[u8],
    slots: &[Slot],
    place: &Place,
    shell: &Shell,
    path: &Path,
) -> Result<(), AcceptError>
    ensures { MatchResult result (λ _. judgement_of_path script.now slots.now place.now shell.now
        path.now ≡ Ok path.now) (IsRefusal
        (judgement_of_path script.now slots.now place.now shell.now path.now)) }
{
    if slots.len() != path.arity {
        return Err(AcceptError::WrongArity);
    }
    if !is_program(script, place.program.bytes()) {
        return Err(AcceptError::WrongProgram);
    }
    if !is_shell(path, place, shell) {
        return Err(AcceptError::WrongShell);
    }
    if contradicts(path.facts.values()) {
        return Err(AcceptError::Contradiction);
    }
    meet(
        alloc,
        known_digest(script, place, shell),
        slots,
        path.facts.values(),
    )
}

/// Whether a claim is accepted; if not, the first refusal.
pub(crate) fn judge(
    alloc: Global,
    checked: &Checked,
    index: usize,
    slots: &[Slot],
    place: &Place,
    shell: &Shell,
) -> Result<(), AcceptError>
    ensures { MatchResult result (λ _. IsTrue
        (is_ok (judgement_of checked.now index slots.now place.now shell.now)))
        (IsRefusal (judgement_of checked.now index slots.now place.now shell.now)) }
{
    match checked.paths().get(index) {
        None => Err(AcceptError::NoSuchPath),
        Some(path) => judge_path(alloc, checked.script().bytes(), slots, place, shell, path),
    }
}
