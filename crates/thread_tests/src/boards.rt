//! What the clauses of `board` do not say: that calls succeed, and what threads see of one another's marks and tickets.

ghost use Rattle.board.specs.Seats.{IsSeatOf, IsNewSeatOf};
ghost use Rattle.std.specs.Prelude.{All};

use board::{Board, DrawError, Mark, Seat};
use std::alloc::Global;
use std::process::Abort;
use std::thread;

const fn mark(round: u32, height: u32) -> Mark {
    Mark { round, height }
}

// Draws `count` tickets for one seat, in order.
fn draw_many(alloc: Global, board: &Board, seat: &mut Seat, count: u32) -> Option<Vec<u64>>
    requires { IsSeatOf board.now seat.old }
    ensures { IsSeatOf board.now seat.new }
{
    let mut tickets = Vec::new(alloc);
    for _ in 0..count {
        let ticket = board.draw(seat).ok()?;
        tickets.push(ticket).ok()?;
    }
    Some(tickets)
}

// Marks each ticket, and returns whether each was new and they increase.
fn are_new(seen: &mut Vec<bool>, tickets: &[u64]) -> bool {
    let mut next = 0;
    for ticket in tickets {
        if *ticket < next {
            return false;
        }
        next = ticket.saturating_add(1);
        match seen.get_mut(*ticket as usize) {
            Some(mark) if !*mark => *mark = true,
            _ => return false,
        }
    }
    true
}

// The last of a list of seats at one board.
fn next_seat(rt: &impl Abort, board: &Board, seats: &mut Vec<Seat>) -> Seat
    requires { All (IsNewSeatOf board.now) seats.old.items }
    ensures all { All (IsNewSeatOf board.now) seats.new.items }
    ensures seat { IsNewSeatOf board.now result }
{
    seats.pop().expect(rt, "a seat")
}

// Asserts the mark that this seat looks up.
fn looks(rt: &impl Abort, board: &Board, seat: &mut Seat, round: u32, height: u32)
    requires { IsSeatOf board.now seat.old }
    ensures { IsSeatOf board.now seat.new }
{
    assert!(rt; board.look(seat) == mark(round, height));
}

// Asserts that this seat looks up at least this mark.
fn reaches(rt: &impl Abort, board: &Board, seat: &mut Seat, round: u32, height: u32)
    requires { IsSeatOf board.now seat.old }
    ensures { IsSeatOf board.now seat.new }
{
    assert!(rt; board.look(seat) >= mark(round, height));
}

// Asserts the ticket that this seat draws.
fn draws(rt: &impl Abort, board: &Board, seat: &mut Seat, ticket: u64)
    requires { IsSeatOf board.now seat.old }
    ensures { IsSeatOf board.now seat.new }
{
    assert!(rt; board.draw(seat).expect(rt, "a ticket") == ticket);
}

// The example in the documentation of `board`.
#[test]
fn an_older_round_is_no_match(rt: HostRuntime) {
    let (board, mut seats) = Board::new(rt.alloc(), 2).expect(&rt, "memory");
    let mut watcher = next_seat(&rt, &board, &mut seats);
    let mut chain = next_seat(&rt, &board, &mut seats);
    looks(&rt, &board, &mut watcher, 0, 0);
    board.raise(&mut chain, 0, 9);
    looks(&rt, &board, &mut chain, 0, 9);
    board.raise(&mut chain, 1, 5);
    reaches(&rt, &board, &mut chain, 1, 5);
    looks(&rt, &board, &mut watcher, 1, 5);
    board.raise(&mut watcher, 0, u32::MAX);
    looks(&rt, &board, &mut watcher, 1, 5);
    draws(&rt, &board, &mut chain, 0);
    draws(&rt, &board, &mut watcher, 1);
}

// A lower height in the same round does not change the top; both halves of the word are used in full.
#[test]
fn the_greatest_stays(rt: HostRuntime) {
    let (board, mut seats) = Board::new(rt.alloc(), 1).expect(&rt, "memory");
    let mut seat = next_seat(&rt, &board, &mut seats);
    board.raise(&mut seat, 0, 5);
    board.raise(&mut seat, 0, 3);
    reaches(&rt, &board, &mut seat, 0, 5);
    looks(&rt, &board, &mut seat, 0, 5);
    board.raise(&mut seat, 0, u32::MAX);
    looks(&rt, &board, &mut seat, 0, u32::MAX);
    board.raise(&mut seat, 7, 0);
    looks(&rt, &board, &mut seat, 7, 0);
    board.raise(&mut seat, u32::MAX, u32::MAX);
    looks(&rt, &board, &mut seat, u32::MAX, u32::MAX);
}

// Whether this many seats are at a board that is made for them.
fn has_seats(rt: &impl Abort, alloc: Global, count: u16) -> bool {
    assert!(rt; count > 0);
    let (_board, seats) = Board::new(alloc, count).expect(rt, "memory");
    seats.len() == usize::from(count)
}

#[test]
fn as_many_seats_as_asked_for(rt: HostRuntime) {
    for count in &[1, 2, 3, 16, 17, 1000, u16::MAX] {
        assert!(rt; has_seats(&rt, rt.alloc(), *count));
    }
    assert!(rt; DrawError::SeatSpent.number() == 1);
    let text = format!(in rt.alloc(); "{}", DrawError::SeatSpent).expect(&rt, "memory");
    assert!(rt; text.as_str() == "SeatSpent");
}

// Asserts that the tickets of two seats, 2,000 together, are below 2,000, each once, and that each seat's tickets
// increase.
fn each_once(rt: &impl Abort, alloc: Global, ours: &[u64], theirs: &[u64]) {
    assert!(rt; ours.len() == 1000 && theirs.len() == 1000);
    let mut seen = vec![in alloc; false; 2000].expect(rt, "memory");
    assert!(rt; are_new(&mut seen, ours));
    assert!(rt; are_new(&mut seen, theirs));
}

// Two seats that draw 1,000 tickets each in their own threads get 0 to 1999, each once, and each seat's tickets increase. A seat that draws after both
// have ended gets 2000.
#[test]
fn each_ticket_once(rt: HostRuntime) {
    let alloc = rt.alloc();
    let (board, mut seats) = Board::new(alloc, 3).expect(&rt, "memory");
    let mut first = next_seat(&rt, &board, &mut seats);
    let mut second = next_seat(&rt, &board, &mut seats);
    let mut last = next_seat(&rt, &board, &mut seats);
    let (ours, theirs) = thread::join(
        &rt,
        || draw_many(alloc, &board, &mut first, 1000),
        || draw_many(alloc, &board, &mut second, 1000),
    );
    let ours = ours.expect(&rt, "tickets");
    let theirs = theirs.expect(&rt, "tickets");
    each_once(&rt, alloc, &ours, &theirs);
    draws(&rt, &board, &mut last, 2000);
}

// After a mark was raised in a thread that was joined, another seat looks up no lower mark. A join runs one of its closures in a thread of its own.
#[test]
fn raised_in_a_joined_thread(rt: HostRuntime) {
    let (board, mut seats) = Board::new(rt.alloc(), 3).expect(&rt, "memory");
    let mut first = next_seat(&rt, &board, &mut seats);
    let mut second = next_seat(&rt, &board, &mut seats);
    let mut third = next_seat(&rt, &board, &mut seats);
    thread::join(&rt, || board.raise(&mut first, 0, 7), || ());
    reaches(&rt, &board, &mut third, 0, 7);
    thread::join(&rt, || (), || board.raise(&mut second, 0, 9));
    reaches(&rt, &board, &mut third, 0, 9);
}
