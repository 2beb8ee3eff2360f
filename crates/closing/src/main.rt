//! Claims on outputs of a chain, from the form of the script to the block that takes the claim's transaction.
//!
//! It makes the eight kinds of claims on the forms of BOLT 3, and the funding output with both signatures. For each,
//! one line prints the result with nothing wrong, and further lines the results with one thing wrong. So it runs all
//! that happens to a script: `paths`, `forms`, `claim`, `filling`, `chain`. No crate depends on it.
//!
//! The expected output is from an independent model of BOLT 3 and of BIP 65, 68, 112, 141 and 143, with keys, tokens,
//! facts and refusals as `docs/` has them.
#![tactic(auto)]

mod attempts;
mod cases;
mod funded;
mod parties;
mod playing;
mod shapes;
mod slips;
mod tables;
mod together;

use page::Page;
use parties::Parties;
use std::process::ExitCode;

/// Shows the results of all claims.
fn show_all(page: &mut Page, parties: &Parties) {
    tables::show_all(page, parties);
    together::show_all(page, parties);
    shapes::show_all(page, parties);
}

/// Makes both sides, and shows the results of all claims.
fn show_new(page: &mut Page) {
    match Parties::new(page.alloc()) {
        Some(parties) => show_all(page, &parties),
        None => page.fail(),
    }
}

fn main(rt: HostRuntime) -> ExitCode {
    let mut page = Page::new(rt.alloc());
    show_new(&mut page);
    page.print(&rt)
}
