//! That each side of a world keeps the rules under which `safety` speaks of one node against everybody: laws over a world's definitions, and no code that runs. A side releases what recorded commitments give it,
//! as each event of [`world::World::play`] keeps, so that of what `book_laws` asks of a book only the expiries of its offers and the limits of its outputs are left.
#![tactic(auto)]

pub mod laws;
