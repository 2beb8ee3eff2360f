//! The transactions that wait for a block.

use crate::names::explorer_id;
use crate::scenarios::coins::Told;
use crate::scenarios::outputs::tell_spends;
use page::Page;
use page::Piece::Hash;
use std::mem;
use tx::{Tx, txid};

impl Told {
    /// Adds the transactions of the pool after those that wait already, and writes them.
    pub fn tell_joined(&mut self, line: &mut Page, pool: &[Tx]) {
        if self.waiting.len() >= pool.len() {
            return;
        }
        line.push(r#","joined":["#);
        for tx in &pool[self.waiting.len()..] {
            let id = txid(tx);
            line.element(
                r#"{"txid":"%","explorer":"%","spends":["#,
                &[Hash(id), explorer_id(&id)],
            );
            tell_spends(line, tx);
            line.push("]}");
            if self.waiting.push(id).is_err() {
                line.fail();
            }
        }
        line.push("]");
    }

    /// Removes the transactions that left the pool, and writes them; `pool` has the others, in order.
    pub fn tell_left(&mut self, line: &mut Page, pool: &[Tx]) {
        if self.waiting.len() == pool.len() {
            return;
        }
        let mut kept = Vec::new(*self.waiting.allocator());
        line.push(r#","left":["#);
        for id in &self.waiting {
            // one that still waits is the next of the pool after those kept
            let is_next = match pool.get(kept.len()) {
                Some(tx) => txid(tx) == *id,
                None => false,
            };
            if !is_next {
                line.element(r#""%""#, &[Hash(*id)]);
            } else if kept.push(*id).is_err() {
                line.fail();
            }
        }
        line.push("]");
        drop(mem::replace(&mut self.waiting, kept));
    }
}
