// Paths as text for people.

use crate::scripts::sentences::{Role, Sentence};
use crate::scripts::templates::tell_witness;
use crate::scripts::weights::{SIGNATURE_SIZE, TOKEN_SIZE, witness_weight};
use facts::Stated;
use page::Page;
use page::Piece::{Count, Sum, Text};
use paths::Path;

// Writes the sentences of one role after a label, a line each, or another line if there are none.
fn tell_role(line: &mut Page, facts: &[Stated], role: &str, label: &str, otherwise: &str) {
    let mut is_told = false;
    for stated in facts {
        if Role::of(stated).text() == role {
            line.push(label);
            line.show(&Sentence(stated));
            line.push("\n");
            is_told = true;
        }
    }
    if !is_told {
        line.push(otherwise);
    }
}

/// Writes the path of this number through a script of this number of bytes.
pub fn tell_path(line: &mut Page, path: &Path, number: usize, size: usize) {
    let facts = path.facts.values();
    line.write(
        "path %: % item%, % weight units (% with tokens)\n",
        &[
            Count(number as u64),
            Count(path.arity as u64),
            Text(if path.arity == 1 { "" } else { "s" }),
            Sum(witness_weight(facts, path.arity, size, SIGNATURE_SIZE)),
            Sum(witness_weight(facts, path.arity, size, TOKEN_SIZE)),
        ],
    );
    line.push("  witness");
    tell_witness(line, facts, path.arity, " ", "");
    line.push("\n");
    tell_role(line, facts, "who", "  who   ", "  who   anyone\n");
    tell_role(line, facts, "with", "  with  ", "");
    tell_role(line, facts, "when", "  when  ", "  when  at once\n");
}
