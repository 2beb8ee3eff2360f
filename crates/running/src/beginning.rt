//! What a node begins with: the books of the scenario's two sides behind their desks, and the chain.

ghost use Rattle.std.specs.Prelude.{◌≡◌, ◌<◌, ◌≤◌, IfOk, map};
ghost use Rattle.book.specs.Books.{replay, fundings_of};
ghost use Rattle.desk.specs.Histories.{first_seat};
ghost use Rattle.desk.specs.Seats.{AreSeats, EndsWithLast};
ghost use Rattle.running.specs.Beginning.{IsBegun, IsOpened};
ghost use Rattle.running.specs.Threads.{payments_in};

use crate::all_threads::SideResources;
use crate::progress::Progress;
use crate::shared::SideState;
use book::Book;
use desk::{Desk, DeskError, Seat};
use forms::SharedPatterns;
use jobs::job_queue;
use keys::{Base, Key};
use scenario::Scenario;
use std::alloc::{AllocError, Global};
use std::sync::{Mutex, Wait};
use tx::OutPoint;
use world::errors::WorldError;
use world::{BooksAndChain, World};

/// A side that is about to start its threads.
#[derive(Drop)]
pub(crate) struct Opened {
    pub(crate) side: SideState,
    /// The desk's last seat, which closes it once all threads have ended.
    pub(crate) closing_seat: Seat,
    pub(crate) resources: SideResources,
}

/// The books and the chain of a scenario before its first event. The only error is that memory ran out.
pub(crate) fn begin(alloc: Global, scenario: &Scenario) -> Result<BooksAndChain, AllocError>
    ensures { IfOk result (IsBegun scenario.now) }
{
    match World::new(alloc, &scenario.seeds, scenario.channels.values()) {
        Ok(world) => Ok(world.into_parts()),
        Err(error) => match error {
            WorldError::NoMemory => Err(AllocError),
            _ => unreachable!(),
        },
    }
}

// The side's payment key in each channel. The only error is that memory ran out.
fn payments_of(alloc: Global, book: &Book) -> Result<Vec<Key>, AllocError>
    ensures { IfOk result (λ v. map (λ k. k.bytes) v.items ≡ payments_in (replay book.now)) }
{
    let mut payments = Vec::new(alloc);
    for channel in 0..book.channel_count() {
        let Some(state) = book.channel(channel) else {
            unreachable!()
        };
        payments.push(state.signer().base(Base::Payment))?;
    }
    Ok(payments)
}

/// What is read from a side's book before its desk has it.
#[derive(Drop)]
struct Told {
    /// The patterns of the scripts, which the channels share.
    patterns: SharedPatterns,
    /// The funding output of each channel.
    fundings: Vec<OutPoint>,
    /// The side's payment key in each channel.
    payments: Vec<Key>,
}

// What the threads of a side know of its channels. The only error is that memory ran out.
fn told_by(alloc: Global, book: &Book) -> Result<Told, AllocError>
    ensures fundings { IfOk result (λ t. t.fundings.items ≡ fundings_of (replay book.now)) }
    ensures payments { IfOk result (λ t. map (λ k. k.bytes) t.payments.items
        ≡ payments_in (replay book.now)) }
{
    let patterns = book.patterns()?;
    let fundings = book.fundings(alloc)?;
    let payments = payments_of(alloc, book)?;
    Ok(Told {
        patterns,
        fundings,
        payments,
    })
}

// A desk over a book, with this number of seats. The only error is that memory ran out.
fn desk_over<R: Wait>(
    rt: &R,
    alloc: Global,
    book: Book,
    seats: u16,
) -> Result<(Desk, Vec<Seat>), AllocError>
    requires some { 0 < seats }
    requires numbers { first_seat book ≤ 1 }
    ensures seats { IfOk result (λ r. AreSeats r.0 book (first_seat book) seats r.1.items) }
    ensures last { IfOk result (λ r. EndsWithLast r.1.items) }
{
    match Desk::new(rt, alloc, book, seats) {
        Ok(made) => Ok(made),
        Err((error, book)) => {
            drop(book);
            match error {
                DeskError::NoMemory => Err(AllocError),
                DeskError::SeatsExhausted => unreachable!(),
            }
        }
    }
}

// A side whose book told this. The only error is that memory ran out.
fn open_with<R: Wait>(
    rt: &R,
    alloc: Global,
    book: Book,
    told: Told,
    seats: u16,
    workers: u16,
) -> Result<Opened, AllocError>
    requires some { 0 < seats }
    requires numbers { first_seat book ≤ 1 }
    requires payments { map (λ k. k.bytes) told.payments.items ≡ payments_in (replay book) }
    requires fundings { told.fundings.items ≡ fundings_of (replay book) }
    ensures opened { IfOk result (IsOpened book seats) }
    ensures fundings { IfOk result (λ o. o.side.fundings.items ≡ told.fundings.items) }
    ensures payments { IfOk result (λ o. o.side.payments.items ≡ told.payments.items) }
{
    let Told {
        patterns,
        fundings,
        payments,
    } = told;
    let (desk, mut seats) = desk_over(rt, alloc, book, seats)?;
    let (sender, taker, pass) = job_queue(alloc)?;
    let Some(closing_seat) = seats.pop() else {
        unreachable!()
    };
    let side = SideState {
        desk,
        patterns,
        fundings,
        payments,
        learnt: Mutex::new(Vec::new(alloc)),
        progress: Progress::new(workers),
    };
    let resources = SideResources {
        seats,
        sender,
        taker,
        pass,
    };
    Ok(Opened {
        side,
        closing_seat,
        resources,
    })
}

/// A side with this number of seats at its desk. The only error is that memory ran out.
pub(crate) fn open_side<R: Wait>(
    rt: &R,
    alloc: Global,
    book: Book,
    seats: u16,
    workers: u16,
) -> Result<Opened, AllocError>
    requires some { 0 < seats }
    requires numbers { first_seat book ≤ 1 }
    ensures opened { IfOk result (IsOpened book seats) }
    ensures fundings { IfOk result (λ o. o.side.fundings.items ≡ fundings_of (replay book)) }
    ensures payments { IfOk result (λ o. map (λ k. k.bytes) o.side.payments.items
        ≡ payments_in (replay book)) }
{
    let told = told_by(alloc, &book)?;
    open_with(rt, alloc, book, told, seats, workers)
}
