// The board that threads share, and its seats.

ghost use Rattle.std.specs.Prelude.{◌≡◌, ◌<◌, ◌≤◌, ◌^◌, ◌+◌, ◌↔◌, length, [], IfOk, IfErr, OnErr, IsErr, MatchResult, All};
ghost use Rattle.std.specs.Vec.{vec_capacity};
ghost use Rattle.board.specs.Order.{mark};
ghost use Rattle.board.specs.Steps.{Raised, Looked, Drawn};
ghost use Rattle.board.specs.Seats.{IsSeatOf, IsNewSeatOf, IsDealer, AreSeats, HoldAllShares, known, shares_of};

use crate::marks::Mark;
use crate::rule::{Deal, Draw, Look, Raise, SeatView, TwoWords};
use atomic_table::Table;
use std::alloc::{AllocError, Global};
use thiserror::Error;

/// The index of the word that holds the top.
const TOP: usize = 0;

/// The index of the word that counts the tickets.
const DRAWS: usize = 1;

/// The number of tickets that one seat may draw.
const MOST_DRAWS: u64 = 1 << 32;

/// Why a seat gets no ticket. `number` gives the refusal's number.
#[derive(Clone, Copy, Debug, Drop, Error, PartialEq, Eq)]
pub enum DrawError {
    /// The seat has drawn 2^32 tickets. The refusal has number 1.
    #[error("SeatSpent")]
    SeatSpent,
}

impl DrawError {
    /// The number of the refusal. It is not 0, which stands for out of memory: drawing does not allocate.
    pub fn number(&self) -> u8
        ensures { result ≡ 1 }
    {
        match self {
            DrawError::SeatSpent => 1,
        }
    }
}

/// The two words that threads share by reference: the top and the number of tickets drawn.
#[derive(Drop)]
pub struct Board {
    table: Table<(), SeatView, (), TwoWords, Global>,
}

/// A thread's seat at one board: what it raised, looked up and drew there.
///
/// Keep a seat as long as the board is used. What a dropped seat drew and raised still counts, but its view of it is lost.
#[derive(Drop)]
pub struct Seat {
    draws: u64,
    place: atomic_table::Seat<(), SeatView>,
}

impl Seat {
    // a seat that has not drawn
    fn idle(place: atomic_table::Seat<(), SeatView>) -> Seat
        ensures place { result.place ≡ place }
        ensures draws { result.draws ≡ 0 }
    {
        Seat { draws: 0, place }
    }
}

impl Board {
    // adds a seat to the list, which has room for it
    fn seat(&self, mut list: Vec<Seat>, place: atomic_table::Seat<(), SeatView>) -> Vec<Seat>
        requires place { IsDealer self.now place 1 }
        requires list { All (IsNewSeatOf self.now) list.items
            × (length list.items < vec_capacity list) }
        ensures list { AreSeats self.now (length list.items + 1) result.items }
        ensures shares { shares_of result.items ≡ shares_of list.items + place.me.0.shares }
        ensures room { vec_capacity result ≡ vec_capacity list }
    {
        let idle = Seat::idle(place);
        list.push_reserved(idle);
        list
    }

    // makes `count` seats from the first one, which has all shares; the list has room for them
    fn seats(
        &self,
        mut dealer: atomic_table::Seat<(), SeatView>,
        count: u16,
        mut list: Vec<Seat>,
    ) -> Vec<Seat>
        requires dealer { IsDealer self.now dealer 65536 × (dealer.me.0.shares ≡ 65536) }
        requires count { 0 < count }
        requires list { (list.items ≡ []) × (count ≤ vec_capacity list) }
        ensures seats { AreSeats self.now count result.items }
        ensures all { HoldAllShares result.items }
    {
        for _k in 0..count - 1 {
            let next = self.table.shared.split_seat::<Deal>(&mut dealer);
            list = self.seat(list, next);
        }
        self.seat(list, dealer)
    }

    /// A board on which nothing was raised or drawn, with this number of seats, at least one. These are all of its seats: each mark and
    /// each ticket comes from one of them. The only error is that memory ran out.
    pub fn new(alloc: Global, seats: u16) -> Result<(Board, Vec<Seat>), AllocError>
        requires { 0 < seats }
        ensures seats { IfOk result (λ r. AreSeats r.0 seats r.1.items) }
        ensures all { IfOk result (λ r. HoldAllShares r.1.items) }
    {
        let list = Vec::with_capacity(alloc, usize::from(seats))?;
        let (table, dealer) = Table::of_words(alloc, &[0, 0], &())?;
        let board = Board { table };
        let list = board.seats(dealer, seats, list);
        Ok((board, list))
    }

    /// Raises the top to this mark if it is lower, by one atomic maximum. `round` is the number of reorganisations so far, `height` the
    /// height of the chain, in blocks.
    pub fn raise(&self, seat: &mut Seat, round: u32, height: u32)
        requires { IsSeatOf self.now seat.old }
        ensures seat { IsSeatOf self.now seat.new }
        ensures raised { Raised (known seat.old) (mark round height) (known seat.new) }
    {
        let word = Mark { round, height }.word();
        self.table
            .shared
            .fetch_max::<Raise>(&mut seat.place, TOP, word);
    }

    /// The top, by one atomic load: the greatest mark that any seat had raised at that moment, or (0, 0) if none had. It is not below any
    /// mark that this seat raised or looked up before.
    pub fn look(&self, seat: &mut Seat) -> Mark
        requires { IsSeatOf self.now seat.old }
        ensures seat { IsSeatOf self.now seat.new }
        ensures looked { Looked (known seat.old) result (known seat.new) }
    {
        let found = self.table.shared.load::<Look>(&mut seat.place, TOP);
        Mark::from_word(found)
    }

    /// Draws a ticket that no seat has drawn, by one atomic addition. It is the number of tickets drawn before it. A seat that has drawn
    /// 2^32 tickets is refused and does not change.
    pub fn draw(&self, seat: &mut Seat) -> Result<u64, DrawError>
        requires { IsSeatOf self.now seat.old }
        ensures seat { IsSeatOf self.now seat.new }
        ensures drawn { IfOk result (λ ticket. Drawn (known seat.old) ticket (known seat.new)) }
        ensures spent { IsErr result ↔ (length (known seat.old).drawn ≡ 2 ^ 32) }
        ensures unchanged { OnErr result (seat.new ≡ seat.old) }
    {
        if seat.draws >= MOST_DRAWS {
            return Err(DrawError::SeatSpent);
        }
        let ticket = self
            .table
            .shared
            .fetch_add::<Draw>(&mut seat.place, DRAWS, 1);
        seat.draws += 1;
        Ok(ticket)
    }
}
