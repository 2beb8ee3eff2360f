//! The funding outputs of channels.

ghost use Rattle.std.specs.Prelude.{◌≡◌, true, IfOk, IfSome};
ghost use Rattle.std.specs.List.{list_all};
ghost use Rattle.side.specs.Marks.{is_marked};

use crate::marks::Marks;
use std::alloc::{AllocError, Global};
use std::marker::Model;
use tx::OutPoint;

/// From this number of funding outputs on, a block is gone over once for all of them, by marks.
const MANY: usize = 2;

/// The funding outputs of channels. Where they are many, all of them are marked. A contract sees them as the list that was given.
#[derive(Drop)]
pub(crate) struct Fundings {
    outpoints: Vec<OutPoint>,
    marks: Option<Marks>,
}

impl Model for Fundings {
    ghost use Rattle.std.specs.Prelude.{◌≡◌, List, true, IfSome};
    ghost use Rattle.std.specs.List.{list_all};
    ghost use Rattle.tx.specs.declared.input.OutPoint.{OutPoint as Place};
    ghost use Rattle.side.specs.Marks.{is_marked};

    ghost Value = { List Place };

    ghost view = { λ f. f.outpoints.items };

    ghost invariant = { λ f. IfSome f.marks (λ m. list_all (is_marked m.first.items m.second.items) f.outpoints.items ≡ true) };
}

// Marks for outpoints, if they are many. Only marks that all of them have are returned, so that the proof needs nothing of how they are set. The only error is that memory ran out.
fn marks_of(alloc: Global, outpoints: &[OutPoint]) -> Result<Option<Marks>, AllocError>
    ensures { IfOk result (λ marks. IfSome marks (λ m. list_all
        (is_marked m.first.items m.second.items) outpoints.now ≡ true)) }
{
    if outpoints.len() < MANY {
        return Ok(None);
    }
    let marks = Marks::of(alloc, outpoints)?;
    if marks.has_all(outpoints) {
        Ok(Some(marks))
    } else {
        Ok(None)
    }
}

impl Fundings {
    ghost use Rattle.std.specs.Prelude.{◌≡◌, ◌<◌, true, length, get_or, IfOk, IfSome};
    ghost use Rattle.std.specs.List.{list_all};
    ghost use Rattle.side.specs.Marks.{is_marked};

    /// These funding outputs. The only error is that memory ran out.
    pub(crate) fn new(alloc: Global, outpoints: Vec<OutPoint>) -> Result<Fundings, AllocError>
        ensures { IfOk result (λ f. f ≡ outpoints.items) }
    {
        let marks = marks_of(alloc, &outpoints)?;
        Ok(Fundings { outpoints, marks })
    }

    /// The marks that all of them have, if they are many.
    pub(crate) fn marks(&self) -> Option<&Marks>
        ensures { IfSome result (λ m. list_all (is_marked m.now.first.items m.now.second.items)
            self.now ≡ true) }
    {
        self.marks.as_ref()
    }

    /// The funding output of a channel.
    pub(crate) fn of_channel(&self, channel: usize) -> &OutPoint
        requires { channel < length self.now }
        ensures { result.now ≡ get_or self.now channel result.now }
    {
        &self.outpoints[channel]
    }
}
