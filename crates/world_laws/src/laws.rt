//! Laws over the definitions alone.

ghost use Rattle.world_laws.specs.Caring.{SidesAreCareful, SidesKeepRules};

use book_laws::laws::books_keep_rules;
use safety::laws::what_is_recorded;

/// A side of a world takes care of a channel, and so the channel keeps the rules, if each HTLC that it offers there expires above 0 and the outputs that it pays from there keep the limits of an output. The rest of the premise
/// is what each event keeps (`steps_keep` of `world`).
pub fn sides_keep_rules()
    ensures careful { SidesAreCareful }
    ensures rules { SidesKeepRules }
{
    books_keep_rules();
    what_is_recorded();
}
