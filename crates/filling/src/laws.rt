//! A law over the definitions alone.

ghost use Rattle.filling.specs.Filled.{FillingsFit};

use claim::laws::accepted_claims_spend;
use paths::laws::listed_paths_are_sound;

/// Take accepted claims that none of the checks on the whole refuses, and whose slots can all be filled. Each input of the transaction that fills them fits its claim.
pub fn fillings_fit()
    ensures { FillingsFit }
{
    // By these laws the proof knows that listed paths are sound, and that whatever fits an accepted claim spends its output.
    listed_paths_are_sound();
    accepted_claims_spend();
}
