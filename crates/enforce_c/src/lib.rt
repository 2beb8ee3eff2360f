//! The ways through a script, the scripts of BOLT 3, the claims that a commitment lets one make, revoked or not, and their spend, unsigned and signed, for programs in C, as a static library.
//!
//! Each export writes only to what it is given by a pointer that is not const, keeps no pointer, and may be called
//! from several threads at once. No export has a `requires`: whatever bytes and lengths a caller gives, it is
//! answered by a status. [`DONE`] is 0, and each other status is a family times 256 and the number of a refusal.
//! A buffer that is too short is left as it was, and the [`Answer`] says how long it has to be.
//!
//! `paths` lists the ways through a script, and `script_words` has the text of a listing. `terms` defines the scripts of BOLT 3 and
//! `forms` their ways; `sighash` has the program of a script. `claim` accepts claims, `revoked` and `unilateral` find them, and `filling` makes their spend. Signatures are tested for their form alone:
//! an accepted claim can't fail with tokens, or with valid signatures where none is measured. No crate depends on this one.
//! `docs/BINDINGS.md` has the header, and callers in C and in other languages.
//!
//! ```text
//! uint8_t script[] = {0x63, 0x51, 0x67, 0x52, 0x68};               // IF 1 ELSE 2 ENDIF
//! enforce_script_list(script, 5, paths, 64, facts, 64, bytes, 64, &answer);  // 0, and answer.paths is 2
//! ```
//!
//! `bindings/library` makes this call and many more from C and from other languages.
#![tactic(auto)]

ghost use Rattle.std.specs.Prelude.{◌≡◌};
ghost use Rattle.sighash.specs.Programs.{script_hash_program};
ghost use Rattle.enforce_c.specs.Listed.{AnswersListing, AnswersText};
ghost use Rattle.enforce_c.specs.FormScripts.{AnswersForm};
ghost use Rattle.enforce_c.specs.Claimed.{AnswersClaim};
ghost use Rattle.enforce_c.specs.Spent.{AnswersSpend, preimages_in};
ghost use Rattle.enforce_c.specs.declared.commitment_rows.Question.TheVariants.{OfClose};
ghost use Rattle.enforce_c.specs.Found.{asked_of_revoked, AnswersFound};
ghost use Rattle.enforce_c.specs.Finished.{AnswersFinish};
ghost use Rattle.enforce_c.specs.Prepared.{AnswersSlots};
ghost use Rattle.enforce_c.specs.Noted.{AnswersNotes};

mod about;
mod answers;
mod buffers;
mod claim_lists;
mod claim_rows;
mod claims_of_c;
mod commitment_rows;
mod commitments_of_c;
mod der;
mod faulty;
mod finding;
mod finish_rows;
mod finishing;
mod forms_of_c;
mod listing;
mod note_rows;
mod noting;
mod preparing;
mod programs;
mod ranges;
mod rows;
mod script_bytes;
mod slot_rows;
mod spend_rows;
mod spending;
mod statuses;
mod telling;

use crate::answers::{
    refuse, refuse_finish, refuse_found, refuse_notes, refuse_slots, refuse_spend, write_bytes,
    write_due, write_finish, write_found, write_notes, write_rows, write_slots, write_spend,
};
use crate::claims_of_c::claimed;
use crate::finding::found;
use crate::finishing::finished;
use crate::forms_of_c::form_bytes;
use crate::listing::{text_of, told};
use crate::noting::noted;
use crate::preparing::prepared;
use crate::programs::program_of;
use crate::spending::spent;
pub use about::{ABOUT_ALL, ABOUT_CLAIM, ABOUT_OUTPUT, ABOUT_SIGNATURE};
pub use claim_rows::{
    ClaimRow, Due, SLOT_EXACT, SLOT_GIVEN, SLOT_PREIMAGE, SLOT_SIGNATURE, SlotRow,
};
use commitment_rows::Question;
pub use commitment_rows::{
    CHANNEL_ANCHORS, CHANNEL_STATIC_REMOTE_KEY, CLOSE_OWN, CLOSE_PEERS, Commitment,
    DIRECTION_OFFERED, DIRECTION_RECEIVED, FoundAnswer, FoundRow, HtlcRow, OUTPUT_OFFERED,
    OUTPUT_OWN_ANCHOR, OUTPUT_PEERS_ANCHOR, OUTPUT_RECEIVED, OUTPUT_TO_LOCAL, OUTPUT_TO_REMOTE,
    OUTPUT_UNKNOWN, OtherRow,
};
pub use finish_rows::{FinishAnswer, SignedRow};
pub use forms_of_c::{
    FORM_FUNDING, FORM_KEY_HASH, FORM_OFFERED, FORM_OFFERED_WITH_ANCHORS, FORM_RECEIVED,
    FORM_RECEIVED_WITH_ANCHORS, FORM_TO_LOCAL, Form,
};
pub use note_rows::{
    NOTE_ANYONE, NOTE_FINDER, NOTE_NOBODY, NOTE_STRICTER_KEY, NOTE_STRICTER_NUMBER,
    NOTE_STRICTER_SIGNATURE, NoteRow, NotesAnswer,
};
pub use rows::{Answer, FactRow, PathRow};
pub use slot_rows::{KeyRow, SlotsAnswer};
pub use spend_rows::{OutputRow, PreimageRow, SignatureRow, SpendAnswer};
pub use statuses::DONE;
use std::alloc::Global;

/// What declarations mean together: it is raised whenever one changes its meaning.
pub const ABI: u32 = 5;

/// The library's `ABI`, to be compared with that of the declarations once, at the start.
#[unsafe(no_mangle)]
pub extern "C" fn enforce_abi() -> u32
    ensures { result ≡ ABI }
{
    ABI
}

/// Lists every way to spend an output with this script by the rules of the machine here, which are stricter than consensus, and nothing else: rows of
/// paths, rows of their facts, and the facts' bytes. The statuses of refusals are those of families 1 and 2, and `TOO_SMALL` if one of the three
/// buffers is too short.
#[unsafe(no_mangle)]
#[tactic(auto, using(crate::proofs::Answering::listed_rows, crate::proofs::Answering::refused_rows))]
pub extern "C" fn enforce_script_list(
    alloc: Global,
    script: &[u8],
    paths: &mut [PathRow],
    facts: &mut [FactRow],
    bytes: &mut [u8],
    answer: &mut Answer,
) -> u32
    ensures { AnswersListing script.now (record { paths = paths.old; facts = facts.old; bytes = bytes.old })
        (record { status = result; answer = answer.new; rows = record { paths = paths.new; facts = facts.new; bytes = bytes.new } }) }
{
    match told(alloc, script) {
        Ok(rows) => write_rows(&rows, paths, facts, bytes, answer),
        Err(refusal) => refuse(&refusal, answer),
    }
}

/// Notes what of a script endangers money: the paths that others can take, in their order, that nobody can spend, by consensus neither, and the branches that end by a rule that consensus has not, by which others may spend. The statuses of refusals are those of
/// families 1 and 2, and `TOO_SMALL`.
#[unsafe(no_mangle)]
#[tactic(auto, using(crate::proofs::Noted::noted_rows, crate::proofs::Noted::refused_notes))]
pub extern "C" fn enforce_script_notes(
    alloc: Global,
    script: &[u8],
    notes: &mut [NoteRow],
    answer: &mut NotesAnswer,
) -> u32
    ensures { AnswersNotes script.now notes.old (record { status = result; answer = answer.new; notes = notes.new }) }
{
    match noted(alloc, script) {
        Ok(found) => write_notes(found.as_slice(), notes, answer),
        Err(refusal) => refuse_notes(&refusal, answer),
    }
}

/// Prepares the slots of a claim by a path of a script: a row for each, the top of the stack first, and the bytes that they refer to, from 0. A signature is asked by its key, bytes that the path fixes are told, and the item of a hash is the key or the preimage that is given with it.
/// Of a choice of keys those are taken that are given, else the last ones. A claim with these slots is accepted: whatever fills them so meets the path. Where it is not, a slot is asked for what is not given, or for what no row can say. The statuses of refusals are those of families 1, 2 and 3, in this order:
/// the script, its listing, the path, and the claim, with the slot of the first fact that is not met; and `TOO_SMALL` if one of the two buffers is too short.
#[unsafe(no_mangle)]
#[tactic(auto, using(crate::proofs::Prepared::prepared_slots, crate::proofs::Prepared::refused_slots))]
pub extern "C" fn enforce_path_slots(
    alloc: Global,
    script: &[u8],
    path: usize,
    keys: &[KeyRow],
    preimages: &[PreimageRow],
    slots: &mut [SlotRow],
    bytes: &mut [u8],
    answer: &mut SlotsAnswer,
) -> u32
    ensures { AnswersSlots script.now path keys.now preimages.now (record { slots = slots.old; bytes = bytes.old })
        (record { status = result; answer = answer.new; lists = record { slots = slots.new; bytes = bytes.new } }) }
{
    match prepared(alloc, script, path, keys, preimages) {
        Ok(lists) => write_slots(&lists, slots, bytes, answer),
        Err(refusal) => refuse_slots(&refusal, answer),
    }
}

/// Writes the text of `enforce paths` on this script, in ASCII, without notes. Its length is the answer's `bytes`. The statuses of refusals are those of
/// families 1 and 2, and `TOO_SMALL`.
#[unsafe(no_mangle)]
#[tactic(auto, using(crate::proofs::Answering::text_bytes, crate::proofs::Answering::refused_text))]
pub extern "C" fn enforce_script_text(
    alloc: Global,
    script: &[u8],
    text: &mut [u8],
    answer: &mut Answer,
) -> u32
    ensures { AnswersText script.now text.old (record { status = result; answer = answer.new; bytes = text.new }) }
{
    match text_of(alloc, script) {
        Ok(told) => write_bytes(told.bytes(), text, answer),
        Err(refusal) => refuse(&refusal, answer),
    }
}

/// Writes the program that an output with this script has (BIP 141, P2WSH), 34 bytes: 00, 20 and the script's SHA-256 in the hash's own byte order.
#[unsafe(no_mangle)]
pub extern "C" fn enforce_script_program(script: &[u8], program: &mut [u8; 34])
    ensures { program.new ≡ script_hash_program script.now }
{
    *program = program_of(script);
}

/// Writes the script of a form. Its length is the answer's `bytes`. The statuses of refusals are those of family 4, in the order of their numbers, and
/// `TOO_SMALL`.
#[unsafe(no_mangle)]
#[tactic(auto, using(crate::proofs::Answering::spelt_bytes, crate::proofs::Answering::refused_bytes))]
pub extern "C" fn enforce_form_script(
    alloc: Global,
    form: &Form,
    script: &mut [u8],
    answer: &mut Answer,
) -> u32
    ensures { AnswersForm form.now script.old (record { status = result; answer = answer.new; bytes = script.new }) }
{
    match form_bytes(alloc, form) {
        Ok(bytes) => write_bytes(bytes.bytes(), script, answer),
        Err(refusal) => refuse(&refusal, answer),
    }
}

/// Accepts a claim by one path of its script, in an open transaction: any of version 2 whose lock time is a height, below 500,000,000, and not below the one that is written. Writes when the claim is due.
/// Whatever fills the slots as their rows say spends the output. The statuses of refusals are those of families 1, 2, 3 and 7, and `NOT_A_KEY`, in this order: what the rows refer to is there,
/// slot by slot, the script, its listing, the claim.
#[unsafe(no_mangle)]
#[tactic(auto, using(crate::proofs::Answering::claimed_due, crate::proofs::Answering::refused_claim))]
pub extern "C" fn enforce_claim(
    alloc: Global,
    claim: &ClaimRow,
    slots: &[SlotRow],
    bytes: &[u8],
    due: &mut Due,
    answer: &mut Answer,
) -> u32
    ensures { AnswersClaim claim.now slots.now bytes.now due.old (record { status = result; answer = answer.new; due = due.new }) }
{
    match claimed(alloc, claim, slots, bytes) {
        Ok(claim) => write_due(&claim, due, answer),
        Err(refusal) => refuse(&refusal, answer),
    }
}

/// Writes the transaction that spends the outputs of claims, in which nothing is signed, and the signatures that it lacks. The answer has its weight, fee and id. It has version 2, the claims' inputs in their order with their sequences, and these outputs.
/// Its lock time is the greatest height that a claim needs. The empty item stands in the place of each signature, and after a signature in its item comes the byte 01 (SIGHASH_ALL). The statuses of refusals are
/// `NO_INPUTS` and `OVER_LIMIT` by the numbers of rows, then those of each output and of each claim in their order, then family 5, then `NO_WITNESS`; and `TOO_SMALL` if one of the two buffers is too short. The answer names the output or the claim that a refusal is of.
#[unsafe(no_mangle)]
#[tactic(auto, using(crate::proofs::Answering::spent_parts, crate::proofs::Answering::refused_spend))]
pub extern "C" fn enforce_unsigned_spend(
    alloc: Global,
    claims: &[ClaimRow],
    slots: &[SlotRow],
    outputs: &[OutputRow],
    preimages: &[PreimageRow],
    bytes: &[u8],
    tx: &mut [u8],
    signatures: &mut [SignatureRow],
    answer: &mut SpendAnswer,
) -> u32
    ensures { AnswersSpend
        (record { claims = claims.now; slots = slots.now; outputs = outputs.now; bytes = bytes.now }) (preimages_in preimages.now)
        (record { bytes = tx.old; signatures = signatures.old })
        (record { status = result; answer = answer.new; lists = record { bytes = tx.new; signatures = signatures.new } }) }
{
    match spent(alloc, claims, slots, outputs, preimages, bytes) {
        Ok(spending) => write_spend(&spending, tx, signatures, answer),
        Err(refusal) => refuse_spend(&refusal, answer),
    }
}

/// Writes the transaction of claims with the signatures that are given, which are tested for their form and their place, and not for the curve: whether one is valid for its key, nothing here asks.
/// It is the transaction of `enforce_unsigned_spend` for the same claims, outputs and preimages, with a signature at each item that lacks one. There has to be a row for each signature that it lacks, in the order in which that call tells them, with the same input and item. The bytes of a row are strict DER (BIP 66) and the byte 01 (SIGHASH_ALL).
/// Where each is the key's over the digest, each input runs clean. The statuses of refusals are those of `enforce_unsigned_spend`, then family 9, signature by signature; and `TOO_SMALL` if the buffer is too short.
#[unsafe(no_mangle)]
#[tactic(auto, using(crate::proofs::SignedSpends::finished_bytes, crate::proofs::SignedSpends::refused_finish))]
pub extern "C" fn enforce_finish(
    alloc: Global,
    claims: &[ClaimRow],
    slots: &[SlotRow],
    outputs: &[OutputRow],
    preimages: &[PreimageRow],
    signed_rows: &[SignedRow],
    bytes: &[u8],
    tx: &mut [u8],
    answer: &mut FinishAnswer,
) -> u32
    ensures { AnswersFinish
        (record { claims = claims.now; slots = slots.now; outputs = outputs.now; bytes = bytes.now }) (preimages_in preimages.now) signed_rows.now tx.old
        (record { status = result; answer = answer.new; bytes = tx.new }) }
{
    match finished(alloc, claims, slots, outputs, preimages, signed_rows, bytes) {
        Ok(finishing) => write_finish(&finishing, tx, answer),
        Err(refusal) => refuse_finish(&refusal, answer),
    }
}

/// Finds all that a revoked commitment lets its owner's peer claim of a transaction: the commitment, one of its HTLC transactions, or any other, with witnesses or without. Writes a claim on each output whose script is
/// one of the commitment's, in the order of the outputs, with what `enforce_unsigned_spend` takes: rows of slots, and the bytes that both refer to. Of each claim it writes which output it is on, and the first block in which the owner can take that, where a block of
/// `confirmed_height` has the transaction. Of each other output it writes the index, and what it is. The statuses of refusals are those of family 8 in this order: the type of the channel, each key, each HTLC; then those of family 6, of the first fault of the
/// transaction; and `TOO_SMALL` if one of the five buffers is too short.
#[unsafe(no_mangle)]
#[tactic(auto, using(crate::proofs::FoundClaims::found_lists, crate::proofs::FoundClaims::refused_found))]
pub extern "C" fn enforce_revoked(
    alloc: Global,
    commitment: &Commitment,
    htlcs: &[HtlcRow],
    tx: &[u8],
    confirmed_height: u32,
    claims: &mut [ClaimRow],
    found_outputs: &mut [FoundRow],
    slots: &mut [SlotRow],
    others: &mut [OtherRow],
    bytes: &mut [u8],
    answer: &mut FoundAnswer,
) -> u32
    ensures { AnswersFound
        (asked_of_revoked commitment.now htlcs.now tx.now confirmed_height)
        (record { claims = claims.old; found = found_outputs.old; slots = slots.old; others = others.old; bytes = bytes.old })
        (record { status = result; answer = answer.new; lists = record { claims = claims.new; found = found_outputs.new; slots = slots.new; others = others.new; bytes = bytes.new } }) }
{
    match found(
        alloc,
        Question::OfRevoked,
        CLOSE_PEERS,
        commitment,
        htlcs,
        0,
        &[],
        tx,
        confirmed_height,
    ) {
        Ok(finding) => write_found(
            &finding,
            claims,
            found_outputs,
            slots,
            others,
            bytes,
            answer,
        ),
        Err(refusal) => refuse_found(&refusal, answer),
    }
}

/// Finds all that a commitment which is not revoked lets one claim of a transaction, where it closed the channel: of that commitment, one's own HTLC transaction, or any other, with witnesses or without. `whose` says whose commitment it is. `feerate_per_kw` is its feerate,
/// by which one's own HTLC transactions pay. Writes what `enforce_revoked` does: a claim for each way to take an output, in the order of the outputs, from which block on, and the first block in which the other side can take it; and each other output. An HTLC of one's own
/// commitment is claimed by its HTLC transaction, in a channel without anchors: a slot of the kind `SLOT_GIVEN` has it, and the digest that its two signatures are over; `enforce_unsigned_spend` does not read such a claim. The statuses of refusals are `NO_SUCH_CLOSE`, and then those of `enforce_revoked`.
#[unsafe(no_mangle)]
#[tactic(auto, using(crate::proofs::FoundClaims::found_lists, crate::proofs::FoundClaims::refused_found))]
pub extern "C" fn enforce_close(
    alloc: Global,
    whose: u32,
    commitment: &Commitment,
    htlcs: &[HtlcRow],
    feerate_per_kw: u32,
    preimages: &[PreimageRow],
    tx: &[u8],
    confirmed_height: u32,
    claims: &mut [ClaimRow],
    found_outputs: &mut [FoundRow],
    slots: &mut [SlotRow],
    others: &mut [OtherRow],
    bytes: &mut [u8],
    answer: &mut FoundAnswer,
) -> u32
    ensures { AnswersFound
        (record { question = OfClose; whose = whose; commitment = commitment.now; htlcs = htlcs.now; feerate_per_kw = feerate_per_kw; preimages = preimages_in preimages.now; tx = tx.now; confirmed_height = confirmed_height })
        (record { claims = claims.old; found = found_outputs.old; slots = slots.old; others = others.old; bytes = bytes.old })
        (record { status = result; answer = answer.new; lists = record { claims = claims.new; found = found_outputs.new; slots = slots.new; others = others.new; bytes = bytes.new } }) }
{
    match found(
        alloc,
        Question::OfClose,
        whose,
        commitment,
        htlcs,
        feerate_per_kw,
        preimages,
        tx,
        confirmed_height,
    ) {
        Ok(finding) => write_found(
            &finding,
            claims,
            found_outputs,
            slots,
            others,
            bytes,
            answer,
        ),
        Err(refusal) => refuse_found(&refusal, answer),
    }
}
