// What is said beside an answer, on standard error: a line each. It is tested, not proved.

ghost use Rattle.spend.specs.Asking.{IsWithin};

use crate::asking::Asked;
use crate::causes::note_claims;
use crate::dust::{dust_threshold, is_witness_program};
use crate::errors::PlanError;
use crate::inputs::note_inputs;
use crate::open_scripts::note_open_script;
use crate::outputs_at_fault::{note_claims_at_fault, note_slots, output_at};
use crate::plans::{Plan, asked_fee};
use crate::request_bytes::note_request_bytes;
use crate::requests::MOST_FEERATE_PER_KW;
use crate::shapes::{Member, note_shape, said};
use json_names::{RepeatedMember, first_repeated_member};
use json_value::Value;
use page::Page;
use page::Piece::{Count, Sum};
use script_notes::{Origin, is_curve_x, origin_of_hash, origin_of_point};
use std::alloc::Global;
use std::io::Write;
use streams::written;

// From ten satoshis for a virtual byte on a plan has a note with its feerate in other units.
const NOTED_FEERATE_PER_KW: u32 = 2_500;

// A fee above a tenth of the value that is spent gets a note.
const DEAR: u128 = 10;

// Writes notes, if there are any and none was lost. Where that fails, nothing else changes.
pub(crate) fn say(notes: &Page, err: &mut dyn Write) {
    if let Some(text) = notes.whole() {
        if !text.is_empty() {
            let _ = written(err, text, 0);
        }
    }
}

/// Says what a person has to look at in a plan: its destination, its feerate, its fee, its inputs, and the slots that nodes do not pass on.
pub fn say_plan(alloc: Global, asked: &Asked, plan: &Plan, err: &mut dyn Write) {
    let mut notes = Page::new(alloc);
    note_destination(alloc, &mut notes, asked);
    note_feerate(&mut notes, asked, plan);
    let total = total_of(asked);
    if plan.fee_sat.saturating_mul(DEAR) > total {
        notes.write(
            "note: the fee is above a tenth of the value: % of % satoshis\n",
            &[Sum(plan.fee_sat), Sum(total)],
        );
    }
    note_inputs(alloc, &mut notes, asked, plan);
    note_slots(alloc, &mut notes, asked.claims.values());
    say(&notes, err);
}

// What the outputs are worth together.
fn total_of(asked: &Asked) -> u128 {
    let mut total: u128 = 0;
    for claim in asked.claims.values() {
        total = total.saturating_add(u128::from(claim.place().value));
    }
    total
}

// Notes a destination from which anyone can spend, or nobody, as far as that is known: it pays to what is no secret's, to the request's own bytes, to no key of the curve, or to a program that has no rule yet.
fn note_destination(alloc: Global, notes: &mut Page, asked: &Asked) {
    let program = asked.destination.bytes();
    if let Some(origin) = origin_of_destination(program) {
        notes.push("note: destination: what it pays to is ");
        notes.show(&origin);
        notes.push(": anyone can spend from it, or nobody\n");
    } else if !note_open_script(notes, program) && !note_request_bytes(alloc, notes, asked) {
        note_taproot(notes, program);
    }
}

// Notes a taproot program whose key is no secret's, or no point of the curve.
fn note_taproot(notes: &mut Page, program: &[u8]) {
    if let [0x51, 0x20, key @ ..] = program {
        if let Some(origin) = origin_of_point(key) {
            notes.push("note: destination: it is ");
            notes.push(origin);
            notes.push("\n");
        } else if !is_curve_x(key) {
            notes.push(
                "note: destination: its 32 bytes are no key of the curve: nobody can spend from it (BIP 341)\n",
            );
        }
    }
}

// Notes which programs are paid, or that anyone can spend from this one.
fn note_bad_destination(notes: &mut Page, program: &[u8]) {
    if is_witness_program(program) && program[0] != 0 {
        let version = u64::from(program[0].saturating_sub(0x50));
        let size = u64::from(program[1]);
        notes.write(
            "note: destination: anyone can spend from it today: no rule stands yet for witness version % with % bytes\n",
            &[Count(version), Count(size)],
        );
    } else {
        notes.push(
            "note: destination: a program that is paid is P2PKH, P2SH, or a witness program of version 0 with 20 or 32 bytes, or of version 1 with 32\n",
        );
    }
}

// What a program is the hash of, if no secret is: P2PKH, P2SH, P2WPKH or P2WSH.
fn origin_of_destination(program: &[u8]) -> Option<Origin> {
    match program {
        [0x76, 0xa9, 0x14, hash @ .., 0x88, 0xac] => origin_of_hash(hash),
        [0xa9, 0x14, hash @ .., 0x87] => origin_of_hash(hash),
        [0, _, hash @ ..] => origin_of_hash(hash),
        _ => None,
    }
}

// Notes a fee that nodes do not pass on, and a feerate that is high, or above the limit that a request has without its own.
fn note_feerate(notes: &mut Page, asked: &Asked, plan: &Plan) {
    let size = plan.weight.saturating_add(3) / 4;
    if plan.fee_sat < size {
        notes.write(
            "note: the fee is % satoshis for at most % virtual bytes: by default nodes before Bitcoin Core 29.1 pass on nothing below one for each, and later ones nothing below a tenth\n",
            &[Sum(plan.fee_sat), Sum(size)],
        );
    }
    if NOTED_FEERATE_PER_KW <= asked.feerate_per_kw && asked.feerate_per_kw <= MOST_FEERATE_PER_KW {
        let feerate = u64::from(asked.feerate_per_kw);
        notes.write(
            "note: the feerate is % satoshis for a virtual byte, and % for 1,000 of them, for which bitcoin-cli estimatesmartfee tells it\n",
            &[Count(feerate / 250), Count(feerate.saturating_mul(4))],
        );
    }
    if asked.feerate_per_kw > MOST_FEERATE_PER_KW {
        notes.write(
            "note: the feerate is % satoshis for a virtual byte, and above the limit that holds without most_feerate_per_kw\n",
            &[Count(u64::from(asked.feerate_per_kw / 250))],
        );
    }
}

/// Says why what is asked is not planned.
pub fn say_refusal(alloc: Global, asked: &Asked, error: PlanError, err: &mut dyn Write)
    requires { IsWithin asked.now }
{
    let mut notes = Page::new(alloc);
    match error {
        PlanError::BadDestination => note_bad_destination(&mut notes, asked.destination.bytes()),
        PlanError::TooHighFeerate => notes.write(
            "note: % satoshis for 1,000 units of weight are % for a virtual byte; most_feerate_per_kw raises the limit of %\n",
            &[
                Count(u64::from(asked.feerate_per_kw)),
                Count(u64::from(asked.feerate_per_kw / 250)),
                Count(u64::from(asked.most_feerate_per_kw)),
            ],
        ),
        PlanError::TooLowFeerate => notes.write(
            "note: by default nodes pass on nothing below one satoshi for a virtual byte, 250 for 1,000 units of weight, or from Bitcoin Core 29.1 on below a tenth of that; least_feerate_per_kw lowers the limit of %\n",
            &[Count(u64::from(asked.least_feerate_per_kw))],
        ),
        PlanError::ValueTooLarge => notes.write(
            "note: the outputs have % satoshis together, and there are at most 2100000000000000\n",
            &[Sum(total_of(asked))],
        ),
        PlanError::NothingLeft | PlanError::Dust => note_fee(alloc, &mut notes, asked),
        _ => note_claims_at_fault(alloc, &mut notes, asked, error),
    }
    say(&notes, err);
}

// Notes what the fee leaves.
fn note_fee(alloc: Global, notes: &mut Page, asked: &Asked)
    requires { IsWithin asked.now }
{
    let Some(fee_sat) = asked_fee(alloc, asked) else {
        return;
    };
    let total = total_of(asked);
    if total <= fee_sat {
        notes.write(
            "note: the fee is % satoshis, and the outputs have % together\n",
            &[Sum(fee_sat), Sum(total)],
        );
    } else {
        notes.write(
            "note: the fee is % of % satoshis, and nodes relay no less than % to this destination: % are left\n",
            &[
                Sum(fee_sat),
                Sum(total),
                Count(dust_threshold(asked.destination.bytes())),
                Sum(total - fee_sat),
            ],
        );
    }
}

/// Says which part of the bytes is refused, where a request has these members.
pub fn say_input(
    alloc: Global,
    bytes: &[u8],
    error: PlanError,
    members: &[Member],
    err: &mut dyn Write,
) {
    let mut notes = Page::new(alloc);
    match Value::from_slice(alloc, bytes) {
        Ok(value) => match error {
            PlanError::BadShape => note_value(alloc, &mut notes, bytes, &value, members),
            PlanError::BadClaim => note_claims(alloc, &mut notes, &value),
            _ => {}
        },
        Err(_) => note_place(alloc, &mut notes, bytes),
    }
    say(&notes, err);
}

// Notes a member that stands twice, in an output if it is in one, and where it stands again.
fn note_repeated(notes: &mut Page, member: &RepeatedMember, output: Option<u64>) {
    notes.push("note: ");
    if let Some(output) = output {
        notes.write("outputs[%].", &[Count(output)]);
    }
    notes.push(said(member.name.as_str()));
    notes.write(
        ": a member of this name stands twice in one object: again at byte %\n",
        &[Count(member.at as u64)],
    );
}

// Notes the member that stands twice, or the first part that does not have its shape.
fn note_value(alloc: Global, notes: &mut Page, bytes: &[u8], value: &Value, members: &[Member]) {
    match first_repeated_member(alloc, bytes) {
        Ok(Some(member)) => note_repeated(notes, &member, output_at(bytes, member.at)),
        _ => note_shape(alloc, notes, value, members),
    }
}

// Notes where bytes are invalid JSON.
fn note_place(alloc: Global, notes: &mut Page, bytes: &[u8]) {
    if let Err(error) = serde_json::Value::from_slice(alloc, bytes) {
        if !error.is_memory() {
            notes.push(if error.is_eof() {
                "note: the text ends too early: "
            } else {
                "note: invalid JSON: "
            });
            notes.write(
                "line %, column %\n",
                &[Count(error.line() as u64), Count(error.column() as u64)],
            );
        }
    }
}
