//! The line that ends a trace.

use crate::scenarios::coins::Told;
use book::Book;
use chain::Coins as _;
use page::Page;
use page::Piece::{Count, Sum};
use terms::Side;
use world::World;

// Writes the revoked commitments whose penalties a book keeps: of each its channel and its number.
fn tell_kept(line: &mut Page, book: &Book) {
    for channel in 0..book.channel_count() {
        for number in 0..u64::MAX {
            match book.keeps(channel, number) {
                Some(true) => line.element("[%,%]", &[Count(channel), Count(number)]),
                Some(false) => {}
                None => break,
            }
        }
    }
}

/// Writes the end: the chain, the penalties that each side keeps, the lengths of their histories, and the value that is
/// each side's alone.
pub fn tell_end(line: &mut Page, told: &Told, world: &World) {
    let (a, b, chain) = (world.book(Side::A), world.book(Side::B), world.chain());
    let (Ok(unspent), Ok(fees)) = (chain.unspent(), chain.fees()) else {
        line.fail();
        return;
    };
    line.write(
        r#"{"end":{"height":%,"unspent":%,"value":%,"fees":%,"kept":{"A":["#,
        &[
            Count(chain.height()),
            Count(unspent.count),
            Sum(unspent.value),
            Sum(fees),
        ],
    );
    tell_kept(line, a);
    line.push(r#"],"B":["#);
    tell_kept(line, b);
    line.write(
        "]},\"history\":{\"A\":%,\"B\":%},\"onchain\":{\"A\":%,\"B\":%}}}\n",
        &[
            Count(a.entries().len() as u64),
            Count(b.entries().len() as u64),
            Count(told.of_a),
            Count(told.of_b),
        ],
    );
}
