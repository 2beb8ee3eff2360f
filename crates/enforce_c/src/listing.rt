// The paths of a script that comes as bytes.

ghost use Rattle.std.specs.Prelude.{Ok, Err, MatchResult};
ghost use Rattle.enforce_c.specs.Listed.{IsListed, IsRefused, IsTold, IsText};

use crate::statuses::Refusal;
use crate::telling::Rows;
use lists::ByteString;
use paths::{Checked, check};
use script::Script;
use script_words::paths_text;
use std::alloc::Global;

// The script with its paths.
#[tactic(auto, using(crate::proofs::Answering::is_listed, crate::proofs::Answering::is_refused))]
pub(crate) fn listed(alloc: Global, bytes: &[u8]) -> Result<Checked, Refusal>
    ensures { MatchResult result (IsListed bytes.now) (IsRefused bytes.now) }
{
    let script = match Script::parse(alloc, bytes) {
        Ok(script) => script,
        Err(fault) => return Err(Refusal::Parse(fault)),
    };
    match check(alloc, script) {
        Ok(checked) => Ok(checked),
        Err(refusal) => Err(Refusal::Check(refusal)),
    }
}

/// What C sees of the script with these bytes.
#[tactic(auto, using(crate::proofs::Answering::is_told))]
pub(crate) fn told(alloc: Global, bytes: &[u8]) -> Result<Rows, Refusal>
    ensures { IsTold bytes.now result }
{
    let checked = listed(alloc, bytes)?;
    Ok(Rows::of(alloc, checked.paths())?)
}

/// The text of `enforce paths` on the script with these bytes.
#[tactic(auto, using(crate::proofs::Answering::is_text))]
pub(crate) fn text_of(alloc: Global, bytes: &[u8]) -> Result<ByteString, Refusal>
    ensures { IsText bytes.now result }
{
    let shown = listed(alloc, bytes)?;
    let text = paths_text(alloc, shown.paths())?;
    Ok(ByteString::from_slice(alloc, text.as_bytes())?)
}
