// The desk, which shares a book among threads, and its seats.

ghost use Rattle.std.specs.Prelude.{◌≡◌, ◌+◌, ◌<◌, ◌≤◌, ◌^◌, ◌↔◌, ◌++◌, List, [], length, true, false, None, Some, Err, slice_get, IfSome, IfOk, OnOk, IfErr, MatchResult};
ghost use Rattle.std.specs.List.{last_or, AllByRecursion};
ghost use Rattle.std.specs.Vec.{vec_capacity};
ghost use Rattle.crossbeam_channel.specs.Claims.{view};
ghost use Rattle.book.specs.declared.calls.Entry.{Entry as HistoryEntry};
ghost use Rattle.book.specs.declared.calls.Call.TheVariants.{Keep};
ghost use Rattle.book.specs.Books.{replay};
ghost use Rattle.book.specs.Dispatch.{reply_form};
ghost use Rattle.book.specs.Replies.{kept};
ghost use Rattle.book.specs.Calling.{IsKeepRefusal};
ghost use Rattle.book.specs.Knowing.{IsKnownIn, IsKnowRefusal, preimages_in};
ghost use Rattle.book.specs.Revoked.{IsRevokedIn, early_keep_refusal};
ghost use Rattle.desk.specs.declared.desk.DeskError.TheVariants.{SeatsExhausted};
ghost use Rattle.desk.specs.Histories.{GoesOn, first_seat};
ghost use Rattle.desk.specs.Rule.{fresh, opened, last_view, returned, IsTaken, IsHeard, HasNoOthers, HasHeardAll, Follows};
ghost use Rattle.desk.specs.Seats.{IsPassOf, IsSeatOf, IsIdle, AreSeats, EndsWithLast, IsSameSeat, HasSameCalls, TakesIn, TakesBook, number_in, calls_in, last_in, opening_in, heard_in, is_last_in, out_with};
ghost use Rattle.desk.specs.Answers.{IsHistoryFor, IsAnswered};
ghost use Rattle.desk.specs.Broadcasts.{commitment_in, htlc_tx_in, IsToldAs};

use crate::broadcasts::{commitment_of, htlc_tx_of};
use crate::rule::{Home, Next, OneBook, PutBack, PutFirst, SeatView, Take};
use book::errors::{KeepError, KnowError};
use book::{Book, Call, Entry, Reply};
use crossbeam_channel::{Pass, RuledReceiver, RuledSender, bounded_with};
use penalty::{PenaltySet, RevokedState};
use resolve::Known;
use std::alloc::Global;
use std::sync::Wait;
use thiserror::Error;
use tx::Tx;

/// Why a desk is not made.
#[derive(Clone, Copy, Debug, Drop, Error, PartialEq, Eq)]
pub enum DeskError {
    /// Memory ran out.
    #[error("NoMemory")]
    NoMemory,
    /// The number of a seat would pass 2^32 - 1.
    #[error("SeatsExhausted")]
    SeatsExhausted,
}

impl DeskError {
    ghost use Rattle.desk.specs.Refusals.{desk_error_number};

    /// The number of the refusal; 0 is out of memory.
    pub fn number(&self) -> u8
        ensures { result ≡ desk_error_number self.now }
    {
        match self {
            DeskError::NoMemory => 0,
            DeskError::SeatsExhausted => 1,
        }
    }
}

/// A thread's seat at one desk. Its number stands in the entries of its calls.
///
/// Contracts see the calls that it made, and the book's history as it last saw it. Keep at least one seat: without one the desk cannot be closed.
#[derive(Drop)]
pub struct Seat {
    number: u32,
    pass: Pass<Book, SeatView>,
}

impl Seat {
    /// The number of the seat.
    pub fn number(&self) -> u32
        ensures { result ≡ number_in self.now }
    {
        self.number
    }
}

/// A book behind a lock. Threads share it by reference, each with a seat of its own.
#[derive(Drop)]
pub struct Desk {
    sender: RuledSender<Book, SeatView, OneBook>,
    taker: RuledReceiver<Book, SeatView, OneBook>,
}

// The number after the greatest in the history, or 0.
fn first_number(entries: &[Entry]) -> u64
    ensures first { result ≡ first_seat entries.now }
    ensures small { result ≤ 2 ^ 32 }
{
    let mut first: u64 = 0;
    for entry in entries {
        let next = u64::from(entry.seat) + 1;
        if first < next {
            first = next;
        }
    }
    first
}

impl Desk {
    // Puts the book into the queue for the first time.
    fn put_first<R: Wait>(&self, rt: &R, pass: &mut Pass<Book, SeatView>, mut book: Book)
        requires { IsPassOf self.now pass.old × (view pass.old ≡ fresh) }
        ensures pass { IsPassOf self.now pass.new }
        ensures opened { view pass.new ≡ opened book }
    {
        let _entries = book.entries();
        for _ in rt.forever() {
            match self.sender.send_as::<PutFirst, R>(rt, pass, book) {
                Ok(()) => return,
                Err(error) => book = error.into_inner(),
            }
        }
        unreachable!()
    }

    // Adds a seat to the list, which has room for it.
    fn seat(&self, mut list: Vec<Seat>, first: u32, k: u16, pass: Pass<Book, SeatView>) -> Vec<Seat>
        requires pass { IsPassOf self.now pass
            × IsIdle (view pass) (first + k) (view pass).opening }
        requires number { first + k < 2 ^ 32 }
        requires list { AreSeats self.now (view pass).opening first k list.items
            × (k < vec_capacity list) }
        ensures list { AreSeats self.now (view pass).opening first (k + 1) result.items }
        ensures last { IfSome (last_or None result.items) (λ s. s.pass ≡ pass) }
        ensures room { vec_capacity result ≡ vec_capacity list }
    {
        list.push_reserved(Seat {
            number: first + u32::from(k),
            pass,
        });
        list
    }

    // Makes `count` seats from the pass of the last one, numbered from `first` on. The list has room for them.
    fn seats(
        &self,
        mut pass: Pass<Book, SeatView>,
        first: u32,
        count: u16,
        mut list: Vec<Seat>,
    ) -> Vec<Seat>
        requires pass { IsPassOf self.now pass
            × (view pass ≡ last_view first (view pass).opening) }
        requires count { (0 < count) × (first + count ≤ 2 ^ 32) }
        requires list { (list.items ≡ []) × (count ≤ vec_capacity list) }
        ensures seats { AreSeats self.now (view pass).opening first count result.items }
        ensures last { EndsWithLast result.items }
    {
        for k in 0..count - 1 {
            let next = self.sender.another::<Next>(&mut pass);
            list = self.seat(list, first, k, next);
        }
        self.seat(list, first, count - 1, pass)
    }

    /// A desk over a book, with the number of seats asked for, at least one. `SeatsExhausted` if a seat's number would exceed 2^32 - 1. The numbers
    /// continue after the greatest one in the history, or begin at 0. A refusal returns the book.
    pub fn new<R: Wait>(
        rt: &R,
        alloc: Global,
        book: Book,
        seats: u16,
    ) -> Result<(Desk, Vec<Seat>), (DeskError, Book)>
        requires { 0 < seats }
        ensures seats { IfOk result (λ r. AreSeats r.0 book (first_seat book) seats r.1.items) }
        ensures no_others { IfOk result (λ r. EndsWithLast r.1.items) }
        ensures room { OnOk result (first_seat book + seats ≤ 2 ^ 32) }
        ensures err { IfErr result (λ e. (e.0 ≡ SeatsExhausted)
            ↔ (2 ^ 32 < first_seat book + seats)) }
        ensures book { IfErr result (λ e. e.1 ≡ book) }
    {
        let first = first_number(book.entries());
        if first + u64::from(seats) > 1 << 32 {
            return Err((DeskError::SeatsExhausted, book));
        }
        let Ok(list) = Vec::with_capacity(alloc, usize::from(seats)) else {
            return Err((DeskError::NoMemory, book));
        };
        let Ok((sender, taker, mut pass)) = bounded_with(alloc, 1) else {
            return Err((DeskError::NoMemory, book));
        };
        let desk = Desk { sender, taker };
        desk.put_first(rt, &mut pass, book);
        let list = desk.seats(pass, first as u32, seats, list);
        Ok((desk, list))
    }

    // Takes the book out. Blocks while another seat has it.
    fn take<R: Wait>(&self, rt: &R, pass: &mut Pass<Book, SeatView>) -> Book
        requires pass { IsPassOf self.now pass.old }
        requires live { (view pass.old).is_spent ≡ false }
        ensures pass { IsPassOf self.now pass.new }
        ensures taken { IsTaken (view pass.old) result (view pass.new) }
    {
        for _ in rt.forever() {
            if let Ok(book) = self.taker.recv_as::<Take, R>(rt, pass) {
                return book;
            }
        }
        unreachable!()
    }

    // Puts the book back, with at most one new entry, which is this seat's.
    fn put_back<R: Wait>(&self, rt: &R, pass: &mut Pass<Book, SeatView>, mut book: Book)
        requires pass { IsPassOf self.now pass.old }
        requires live { (view pass.old).is_spent ≡ false }
        requires follows { (history : List HistoryEntry)
            × ((view pass.old).book ≡ Some history)
            × Follows (view pass.old).number history book }
        ensures pass { IsPassOf self.now pass.new }
        ensures back { view pass.new ≡ returned (view pass.old) book }
    {
        let _entries = book.entries();
        for _ in rt.forever() {
            match self.sender.send_as::<PutBack, R>(rt, pass, book) {
                Ok(()) => return,
                Err(error) => book = error.into_inner(),
            }
        }
        unreachable!()
    }

    /// Makes a call on the book. Blocks while another seat has the book. A refused call drops its claims or its batch.
    pub fn call<R: Wait>(&self, rt: &R, seat: &mut Seat, call: Call) -> Reply
        requires { IsSeatOf self.now seat.old }
        ensures seat { IsSameSeat self.now seat.old seat.new }
        ensures reply { IsAnswered (number_in seat.old) (calls_in seat.old) (last_in seat.old)
            call (reply_form result) (calls_in seat.new) (last_in seat.new) }
    {
        let mut book = self.take(rt, &mut seat.pass);
        let reply = book.call(seat.number, call);
        self.put_back(rt, &mut seat.pass, book);
        reply
    }

    /// Keeps a penalty set that was built outside the book. It does what `call` does for a `Call::Keep` of the set's claims, but a set on the book's own
    /// revoked state of that number is not built again. Blocks while another seat has the book. A refused set is dropped.
    pub fn keep_set<R: Wait>(
        &self,
        rt: &R,
        seat: &mut Seat,
        channel: u64,
        number: u64,
        set: PenaltySet,
    ) -> Result<(), KeepError>
        requires { IsSeatOf self.now seat.old }
        ensures seat { IsSameSeat self.now seat.old seat.new }
        ensures reply { IsAnswered (number_in seat.old) (calls_in seat.old) (last_in seat.old)
            (Keep channel number set.claims) (kept result) (calls_in seat.new) (last_in seat.new) }
    {
        let mut book = self.take(rt, &mut seat.pass);
        let reply = book.keep_set(seat.number, channel, number, set);
        self.put_back(rt, &mut seat.pass, book);
        reply
    }

    /// What the book knows of a channel. Refused with `NoSuchChannel`. Blocks while another seat has the book.
    pub fn known<R: Wait>(&self, rt: &R, seat: &mut Seat, channel: u64) -> Result<Known, KnowError>
        requires { IsSeatOf self.now seat.old }
        ensures seat { HasSameCalls self.now seat.old seat.new }
        ensures history { IsHistoryFor (number_in seat.old) (calls_in seat.old)
            (last_in seat.old) (last_in seat.new) }
        ensures known { IfOk result (IsKnownIn (last_in seat.new) channel
            (slice_get (replay (last_in seat.new)) channel)) }
        ensures err { IfErr result (IsKnowRefusal
            (slice_get (replay (last_in seat.new)) channel)) }
    {
        let book = self.take(rt, &mut seat.pass);
        let known = book.known(channel);
        self.put_back(rt, &mut seat.pass, book);
        known
    }

    /// The side's commitment of a number with both signatures, or its newest one where no number is given, ready to be broadcast (BOLT 3, "Commitment Transaction"). `None` where the side
    /// has none of that number. Refused with `NoSuchChannel`. Blocks while another seat has the book.
    pub fn commitment<R: Wait>(
        &self,
        rt: &R,
        alloc: Global,
        seat: &mut Seat,
        channel: u64,
        number: Option<u64>,
    ) -> Result<Option<Tx>, KnowError>
        requires { IsSeatOf self.now seat.old }
        ensures seat { HasSameCalls self.now seat.old seat.new }
        ensures history { IsHistoryFor (number_in seat.old) (calls_in seat.old)
            (last_in seat.old) (last_in seat.new) }
        ensures tx { IsToldAs
            (commitment_in number (slice_get (replay (last_in seat.new)) channel)) result }
    {
        let book = self.take(rt, &mut seat.pass);
        let tx = commitment_of(alloc, &book, channel, number);
        self.put_back(rt, &mut seat.pass, book);
        tx
    }

    /// The HTLC transaction of the side's commitment of a number, for its untrimmed HTLC at an index, with both signatures (BOLT 3, "HTLC-Timeout and HTLC-Success Transactions"). It shows the
    /// first preimage of the HTLC's hash among those of the channel's fulfils and those that are given. `None` where the side does not have it. Refused with `NoSuchChannel`. Blocks while another
    /// seat has the book.
    pub fn htlc_tx<R: Wait>(
        &self,
        rt: &R,
        alloc: Global,
        seat: &mut Seat,
        channel: u64,
        number: u64,
        htlc: u64,
        learnt: &[[u8; 32]],
    ) -> Result<Option<Tx>, KnowError>
        requires { IsSeatOf self.now seat.old }
        ensures seat { HasSameCalls self.now seat.old seat.new }
        ensures history { IsHistoryFor (number_in seat.old) (calls_in seat.old)
            (last_in seat.old) (last_in seat.new) }
        ensures tx { IsToldAs (htlc_tx_in number htlc
            (preimages_in channel (last_in seat.new) ++ learnt.now)
            (slice_get (replay (last_in seat.new)) channel)) result }
    {
        let book = self.take(rt, &mut seat.pass);
        let tx = htlc_tx_of(alloc, &book, channel, number, htlc, learnt);
        self.put_back(rt, &mut seat.pass, book);
        tx
    }

    /// The state of the peer's revoked commitment of this number, from which its penalties are built. Refused, in this order, with `NoSuchChannel`,
    /// `NotRevoked` and `AlreadyKept`. Blocks while another seat has the book.
    pub fn revoked<R: Wait>(
        &self,
        rt: &R,
        seat: &mut Seat,
        channel: u64,
        number: u64,
    ) -> Result<RevokedState, KeepError>
        requires { IsSeatOf self.now seat.old }
        ensures seat { HasSameCalls self.now seat.old seat.new }
        ensures history { IsHistoryFor (number_in seat.old) (calls_in seat.old)
            (last_in seat.old) (last_in seat.new) }
        ensures revoked { let there = slice_get (replay (last_in seat.new)) channel
            in MatchResult result (IsRevokedIn number there)
            (IsKeepRefusal (early_keep_refusal number there)) }
    {
        let book = self.take(rt, &mut seat.pass);
        let state = book.revoked(channel, number);
        self.put_back(rt, &mut seat.pass, book);
        state
    }

    /// Another seat comes home to this one, which from then on knows its calls. Does not wait.
    pub fn absorb(&self, seat: &mut Seat, other: Seat)
        requires seat { IsSeatOf self.now seat.old }
        requires other { IsSeatOf self.now other }
        ensures { TakesIn self.now seat.old other seat.new }
    {
        self.sender.absorb::<Home>(&mut seat.pass, other.pass);
    }

    /// Takes the book out for good and returns it. Blocks while another seat has the book.
    ///
    /// The entries of each seat that came home to this one are its calls. Close with the desk's last seat: no other has a greater number, so the later entries
    /// are of the numbers from the desk's first to its own. If all the others came home to it, each later entry is one of theirs or its own.
    pub fn close<R: Wait>(self, rt: &R, seat: &mut Seat) -> Book
        requires { IsSeatOf self seat.old }
        ensures began { GoesOn (opening_in seat.old) result }
        ensures heard { AllByRecursion (IsHeard (opening_in seat.old) result)
            (heard_in seat.old) }
        ensures alone { is_last_in seat.old ≡ true
            → HasNoOthers (number_in seat.old) (opening_in seat.old) result }
        ensures whole { is_last_in seat.old ≡ true
            → first_seat (opening_in seat.old) + length (heard_in seat.old)
            ≡ number_in seat.old
            → HasHeardAll (number_in seat.old) (heard_in seat.old) (opening_in seat.old) result }
        ensures history { IsHistoryFor (number_in seat.old) (calls_in seat.old)
            (last_in seat.old) result }
        ensures seat { TakesBook self seat.old seat.new result }
        ensures taken { out_with seat.new ≡ Some result }
    {
        self.take(rt, &mut seat.pass)
    }
}
