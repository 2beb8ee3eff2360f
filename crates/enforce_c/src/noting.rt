// What of a script endangers money.

ghost use Rattle.std.specs.Prelude.{◌≡◌, ◌++◌, map, OnOk, MatchResult, option_to_list};
ghost use Rattle.enforce_c.specs.Noted.{taker_note, takers, nobody, strict_note, IsNotedOf};
ghost use Rattle.enforce_c.specs.Listed.{IsRefused};

use crate::listing::listed;
use crate::note_rows::{
    NOTE_ANYONE, NOTE_FINDER, NOTE_NOBODY, NOTE_STRICTER_KEY, NOTE_STRICTER_NUMBER,
    NOTE_STRICTER_SIGNATURE, NoteRow,
};
use crate::statuses::Refusal;
use paths::Path;
use std::alloc::{AllocError, Global};
use strictness::{Rule, StrictEnd, strict_ends};
use warnings::{Taker, taker_of};

// The note on a path of an index that others can take, if they can.
fn taker_note(path: &Path, at: usize) -> Option<NoteRow>
    ensures { result ≡ taker_note path.now at }
{
    match taker_of(path.facts.values()) {
        Taker::Signer => None,
        Taker::Finder => Some(NoteRow {
            kind: NOTE_FINDER,
            at,
        }),
        Taker::Anyone => Some(NoteRow {
            kind: NOTE_ANYONE,
            at,
        }),
    }
}

// Appends a note, if there is one.
fn push_some(notes: &mut Vec<NoteRow>, note: Option<NoteRow>) -> Result<(), AllocError>
    ensures { OnOk result (notes.new.items ≡ notes.old.items ++ option_to_list note) }
{
    if let Some(note) = note {
        notes.push(note)?;
    }
    Ok(())
}

// Appends the notes on paths that others can take.
#[tactic(auto, using(crate::proofs::Noted::takers_next, crate::proofs::Noted::takers_all))]
fn push_takers(notes: &mut Vec<NoteRow>, paths: &[Path]) -> Result<(), AllocError>
    ensures { OnOk result (notes.new.items ≡ notes.old.items ++ takers 0 paths.now) }
{
    for (index, path) in paths.iter().enumerate() {
        push_some(notes, taker_note(path, index))?;
    }
    Ok(())
}

// The note on a branch that ends by a rule that consensus has not.
fn strict_note(end: &StrictEnd) -> NoteRow
    ensures { result ≡ strict_note end.now }
{
    let kind = match end.rule {
        Rule::Key => NOTE_STRICTER_KEY,
        Rule::Signature => NOTE_STRICTER_SIGNATURE,
        Rule::Number => NOTE_STRICTER_NUMBER,
    };
    NoteRow { kind, at: end.op }
}

// Appends the notes on such branches.
#[tactic(auto, using(crate::proofs::Noted::strict_next, crate::proofs::Noted::strict_all))]
fn push_strict(notes: &mut Vec<NoteRow>, ends: &[StrictEnd]) -> Result<(), AllocError>
    ensures { OnOk result (notes.new.items ≡ notes.old.items ++ map strict_note ends.now) }
{
    for end in ends {
        notes.push(strict_note(end))?;
    }
    Ok(())
}

// The note on a script that nobody can spend.
fn nobody(is_exact: bool) -> Option<NoteRow>
    ensures { result ≡ nobody is_exact }
{
    if is_exact {
        Some(NoteRow {
            kind: NOTE_NOBODY,
            at: 0,
        })
    } else {
        None
    }
}

/// The notes on the script with these bytes.
#[tactic(auto, using(crate::proofs::Noted::is_noted))]
pub(crate) fn noted(alloc: Global, bytes: &[u8]) -> Result<Vec<NoteRow>, Refusal>
    ensures { MatchResult result (λ v. IsNotedOf bytes.now v.items) (IsRefused bytes.now) }
{
    let checked = listed(alloc, bytes)?;
    let ends = strict_ends(alloc, checked.script().ops())?;
    let mut notes = Vec::new(alloc);
    push_takers(&mut notes, checked.paths())?;
    push_some(&mut notes, nobody(ends.is_exact))?;
    push_strict(&mut notes, ends.strict.as_slice())?;
    Ok(notes)
}
