//! Laws over the definitions alone.

ghost use Rattle.sights.specs.Following.{SightsFollow, SightsStay};

/// What a reader of blocks has is what the chain shows, after each of its calls. Reading the next block gives what the longer chain shows. Forgetting what is above a height gives what the blocks up to it show. And opening one
/// more channel changes nothing where no block takes its funding output.
pub fn sights_follow()
    ensures { SightsFollow }
{}

/// What is told of a channel stays told by the same knowledge, whatever blocks come, as long as the transaction that closed the channel stands. The same claims are told. What was made stays made, at its height, and what was
/// taken stays taken.
pub fn sights_stay()
    ensures { SightsStay }
{}
