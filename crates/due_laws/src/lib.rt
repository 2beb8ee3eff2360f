//! That what is due is in hand: laws over definitions and over histories of calls, and no code that runs. The verdict on whatever may close a channel is the right one, and what is due by it is exactly what the node counts on. The channel's signer can
//! fill each of these claims, with the preimages that are known. A transaction that fills some of them passes the next block as a whole, once their outputs stand there and their locks are reached.
//! Whatever the peers send, all of this holds of each channel of which a book's history takes care.
//!
//! `watch` gives the verdicts and `resolve` what is due by them. `book` tells what is known of a channel, `book_laws` what a book's history leaves of it, and `worth_laws` what the claims are worth.
#![tactic(auto)]

pub mod laws;
