// What a call leaves in the caller's memory.

ghost use Rattle.std.specs.Prelude.{◌≡◌, [], reverse};
ghost use Rattle.enforce_c.specs.Statuses.{status_of};
ghost use Rattle.enforce_c.specs.Answers.{left_by_rows, left_by_bytes, bytes_answer, refused_with};
ghost use Rattle.enforce_c.specs.Claimed.{due_of};
ghost use Rattle.enforce_c.specs.Spent.{left_by_spend, spend_refused};
ghost use Rattle.enforce_c.specs.Found.{left_by_found, found_refused};
ghost use Rattle.enforce_c.specs.Finished.{left_by_finish, finish_refused};
ghost use Rattle.enforce_c.specs.Prepared.{left_by_slots, slots_refused};
ghost use Rattle.enforce_c.specs.Noted.{left_by_notes, notes_refused};

use crate::about::Refused;
use crate::buffers::put;
use crate::claim_rows::{ClaimRow, Due, SlotRow};
use crate::commitment_rows::{FoundAnswer, FoundRow, OtherRow};
use crate::finding::Finding;
use crate::finish_rows::FinishAnswer;
use crate::finishing::Finishing;
use crate::note_rows::{NoteRow, NotesAnswer};
use crate::preparing::SlotLists;
use crate::rows::{Answer, FactRow, PathRow};
use crate::slot_rows::SlotsAnswer;
use crate::spend_rows::{SignatureRow, SpendAnswer};
use crate::spending::Spending;
use crate::statuses::{DONE, Refusal, TOO_SMALL};
use crate::telling::Rows;
use claim::Claim;

/// Writes the rows if there is room for them, and their sizes. Gives the status.
pub(crate) fn write_rows(
    rows: &Rows,
    paths: &mut [PathRow],
    facts: &mut [FactRow],
    bytes: &mut [u8],
    answer: &mut Answer,
) -> u32
    ensures { left_by_rows rows.now (record { paths = paths.old; facts = facts.old; bytes = bytes.old })
        ≡ record { status = result; answer = answer.new; rows = record { paths = paths.new; facts = facts.new; bytes = bytes.new } } }
{
    *answer = Answer {
        paths: rows.paths.len(),
        facts: rows.facts.len(),
        bytes: rows.bytes.len(),
        number: 0,
    };
    if rows.paths.len() <= paths.len()
        && rows.facts.len() <= facts.len()
        && rows.bytes.len() <= bytes.len()
    {
        put(paths, rows.paths.as_slice());
        put(facts, rows.facts.as_slice());
        put(bytes, rows.bytes.as_slice());
        DONE
    } else {
        TOO_SMALL
    }
}

/// Writes bytes if there is room for them, and how many there are. Gives the status.
pub(crate) fn write_bytes(bytes: &[u8], room: &mut [u8], answer: &mut Answer) -> u32
    ensures { left_by_bytes bytes.now room.old ≡ record { status = result; answer = answer.new; bytes = room.new } }
{
    *answer = Answer {
        paths: 0,
        facts: 0,
        bytes: bytes.len(),
        number: 0,
    };
    if bytes.len() <= room.len() {
        put(room, bytes);
        DONE
    } else {
        TOO_SMALL
    }
}

/// Writes when a claim is due. Gives the status.
pub(crate) fn write_due(claim: &Claim, due: &mut Due, answer: &mut Answer) -> u32
    ensures status { result ≡ 0 }
    ensures answer { answer.new ≡ bytes_answer [] }
    ensures due { due.new ≡ due_of claim.now }
{
    *due = Due {
        height: claim.needs_height(),
        sequence: claim.sequence(),
    };
    *answer = Answer {
        paths: 0,
        facts: 0,
        bytes: 0,
        number: 0,
    };
    DONE
}

/// Writes the answer of a refusal. Gives its status.
pub(crate) fn refuse(refusal: &Refusal, answer: &mut Answer) -> u32
    ensures status { result ≡ status_of refusal.now }
    ensures answer { answer.new ≡ refused_with refusal.now }
{
    *answer = Answer {
        paths: 0,
        facts: 0,
        bytes: 0,
        number: refusal.number(),
    };
    refusal.status()
}

// An id in the order in which it is shown.
fn shown(txid: &[u8; 32]) -> [u8; 32]
    ensures { result ≡ reverse txid.now }
{
    let mut shown = *txid;
    shown.reverse();
    shown
}

/// Writes the bytes of a transaction and the rows of its signatures if there is room for them, and what is told of it. Gives the status.
pub(crate) fn write_spend(
    spending: &Spending,
    bytes: &mut [u8],
    signatures: &mut [SignatureRow],
    answer: &mut SpendAnswer,
) -> u32
    ensures { left_by_spend spending.now (record { bytes = bytes.old; signatures = signatures.old })
        ≡ record { status = result; answer = answer.new; lists = record { bytes = bytes.new; signatures = signatures.new } } }
{
    *answer = SpendAnswer {
        bytes: spending.bytes.len(),
        signatures: spending.signatures.len(),
        number: 0,
        row: 0,
        weight: spending.weight,
        fee_sat: spending.fee_sat,
        about: 0,
        txid: spending.txid,
        shown_txid: shown(&spending.txid),
    };
    if spending.bytes.len() <= bytes.len() && spending.signatures.len() <= signatures.len() {
        put(bytes, spending.bytes.as_slice());
        put(signatures, spending.signatures.as_slice());
        DONE
    } else {
        TOO_SMALL
    }
}

/// Writes the answer of a refused spend. Gives its status.
pub(crate) fn refuse_spend(refusal: &Refused, answer: &mut SpendAnswer) -> u32
    ensures status { result ≡ status_of refusal.now.why }
    ensures answer { answer.new ≡ spend_refused refusal.now }
{
    *answer = SpendAnswer {
        bytes: 0,
        signatures: 0,
        number: refusal.why.number(),
        row: refusal.about.row(),
        weight: 0,
        fee_sat: 0,
        about: refusal.about.kind(),
        txid: [0; 32],
        shown_txid: [0; 32],
    };
    refusal.why.status()
}

/// Writes what is found if there is room for it, and how much there is. Gives the status.
pub(crate) fn write_found(
    finding: &Finding,
    claims: &mut [ClaimRow],
    found: &mut [FoundRow],
    slots: &mut [SlotRow],
    others: &mut [OtherRow],
    bytes: &mut [u8],
    answer: &mut FoundAnswer,
) -> u32
    ensures { left_by_found finding.now (record { claims = claims.old; found = found.old; slots = slots.old; others = others.old; bytes = bytes.old })
        ≡ record { status = result; answer = answer.new; lists = record { claims = claims.new; found = found.new; slots = slots.new; others = others.new; bytes = bytes.new } } }
{
    *answer = FoundAnswer {
        claims: finding.claims.len(),
        slots: finding.slots.len(),
        others: finding.others.len(),
        bytes: finding.bytes.len(),
        number: 0,
    };
    if finding.claims.len() <= claims.len()
        && finding.found.len() <= found.len()
        && finding.slots.len() <= slots.len()
        && finding.others.len() <= others.len()
        && finding.bytes.len() <= bytes.len()
    {
        put(claims, finding.claims.as_slice());
        put(found, finding.found.as_slice());
        put(slots, finding.slots.as_slice());
        put(others, finding.others.as_slice());
        put(bytes, finding.bytes.as_slice());
        DONE
    } else {
        TOO_SMALL
    }
}

/// Writes the answer of refused rows of a commitment, or of a refused transaction. Gives its status.
pub(crate) fn refuse_found(refusal: &Refusal, answer: &mut FoundAnswer) -> u32
    ensures status { result ≡ status_of refusal.now }
    ensures answer { answer.new ≡ found_refused refusal.now }
{
    *answer = FoundAnswer {
        claims: 0,
        slots: 0,
        others: 0,
        bytes: 0,
        number: refusal.number(),
    };
    refusal.status()
}

/// Writes the rows of slots and their bytes if there is room for them, and how many there are. Gives the status.
pub(crate) fn write_slots(
    lists: &SlotLists,
    slots: &mut [SlotRow],
    bytes: &mut [u8],
    answer: &mut SlotsAnswer,
) -> u32
    ensures { left_by_slots lists.now (record { slots = slots.old; bytes = bytes.old })
        ≡ record { status = result; answer = answer.new; lists = record { slots = slots.new; bytes = bytes.new } } }
{
    *answer = SlotsAnswer {
        slots: lists.slots.len(),
        bytes: lists.bytes.len(),
        number: 0,
    };
    if lists.slots.len() <= slots.len() && lists.bytes.len() <= bytes.len() {
        put(slots, lists.slots.as_slice());
        put(bytes, lists.bytes.as_slice());
        DONE
    } else {
        TOO_SMALL
    }
}

/// Writes the answer of a path whose slots are not prepared. Gives its status.
pub(crate) fn refuse_slots(refusal: &Refusal, answer: &mut SlotsAnswer) -> u32
    ensures status { result ≡ status_of refusal.now }
    ensures answer { answer.new ≡ slots_refused refusal.now }
{
    *answer = SlotsAnswer {
        slots: 0,
        bytes: 0,
        number: refusal.number(),
    };
    refusal.status()
}

/// Writes notes if there is room for them, and how many there are. Gives the status.
pub(crate) fn write_notes(notes: &[NoteRow], room: &mut [NoteRow], answer: &mut NotesAnswer) -> u32
    ensures { left_by_notes notes.now room.old ≡ record { status = result; answer = answer.new; notes = room.new } }
{
    *answer = NotesAnswer {
        notes: notes.len(),
        number: 0,
    };
    if notes.len() <= room.len() {
        put(room, notes);
        DONE
    } else {
        TOO_SMALL
    }
}

/// Writes the answer of a script that is not listed. Gives its status.
pub(crate) fn refuse_notes(refusal: &Refusal, answer: &mut NotesAnswer) -> u32
    ensures status { result ≡ status_of refusal.now }
    ensures answer { answer.new ≡ notes_refused refusal.now }
{
    *answer = NotesAnswer {
        notes: 0,
        number: refusal.number(),
    };
    refusal.status()
}

/// Writes the bytes of a transaction if there is room for them, and what is told of it. Gives the status.
pub(crate) fn write_finish(finishing: &Finishing, room: &mut [u8], answer: &mut FinishAnswer) -> u32
    ensures { left_by_finish finishing.now room.old ≡ record { status = result; answer = answer.new; bytes = room.new } }
{
    *answer = FinishAnswer {
        bytes: finishing.bytes.len(),
        number: 0,
        row: 0,
        about: 0,
        txid: finishing.txid,
        shown_txid: shown(&finishing.txid),
    };
    if finishing.bytes.len() <= room.len() {
        put(room, finishing.bytes.as_slice());
        DONE
    } else {
        TOO_SMALL
    }
}

/// Writes the answer of a refused signature, or of what comes before it. Gives its status.
pub(crate) fn refuse_finish(refusal: &Refused, answer: &mut FinishAnswer) -> u32
    ensures status { result ≡ status_of refusal.now.why }
    ensures answer { answer.new ≡ finish_refused refusal.now }
{
    *answer = FinishAnswer {
        bytes: 0,
        number: refusal.why.number(),
        row: refusal.about.row(),
        about: refusal.about.kind(),
        txid: [0; 32],
        shown_txid: [0; 32],
    };
    refusal.why.status()
}
