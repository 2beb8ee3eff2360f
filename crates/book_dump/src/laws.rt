//! Laws over the definitions alone.

ghost use Rattle.book_dump.specs.Again.{ClaimsComeBack, OpeningsComeBack, EntriesComeBack};
ghost use Rattle.book_dump.specs.Refused.{RefusalsComeInOrder};

/// An accepted claim, an opening, and an entry with accepted claims come back unchanged from their plain forms.
pub fn what_is_dumped_is_taken_again()
    ensures claims { ClaimsComeBack }
    ensures openings { OpeningsComeBack }
    ensures entries { EntriesComeBack }
{}

/// Invalid JSON, and a value that is not of a dump's shape, are refused as such, whatever the claims and calls. Any other refusal names the first entry that is not taken. Its claims are
/// not accepted; or they are, and its call is refused after the entries before it.
pub fn refusals_come_in_order()
    ensures { RefusalsComeInOrder }
{}
