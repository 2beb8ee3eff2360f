//! Workers that run over a desk.

ghost use Rattle.std.specs.Prelude.{All};
ghost use Rattle.desk.specs.Seats.{IsSeatOf};
ghost use Rattle.board.specs.Seats as board_seats;
ghost use Rattle.jobs.specs.Ends.{PutsWith};

use crate::channels::desk_over;
use crate::desks::next_seat;
use crate::gates::{Manner, TestGate};
use board::Board;
use book::errors::{KeepError, SignError};
use book::{Book, Call, Reply};
use chain::Index;
use desk::{Desk, Seat};
use forms::patterns;
use jobs::{JobSender, Pass, job_queue};
use keys::Key;
use lists::List;
use node::{Done, Hands, Job, Pool, Shared, worker};
use penalty::{PenaltySet, penalties};
use side::DueClaim;
use std::alloc::Global;
use std::collections::VecDeque;
use std::process::Abort;
use std::sync::{Mutex, Wait};
use std::thread;
use std::thread::Threads;
use tx::{OutPoint, Tx};

/// The payment key that releases pay to.
const PAYMENT: [u8; 33] = [2; 33];

/// Its program: its HASH160 (Python's hashlib) in a version 0 witness program.
const PROGRAM: [u8; 22] = [
    0x00, 0x14, 0x51, 0x81, 0x4f, 0x10, 0x86, 0x70, 0xac, 0xed, 0x2d, 0x77, 0xc1, 0x80, 0x5d, 0xdd,
    0x66, 0x34, 0xbc, 0x9d, 0x47, 0x31,
];

// The job to keep the penalties of B's commitment 0 in a channel.
const fn keep_in(channel: u64) -> Job {
    Job::Keep { channel, number: 0 }
}

// Why a channel can't be signed.
fn sign<R: Wait + Abort>(rt: &R, desk: &Desk, seat: &mut Seat, channel: u64) -> Option<SignError>
    requires { IsSeatOf desk.now seat.old }
    ensures { IsSeatOf desk.now seat.new }
{
    match desk.call(rt, seat, Call::Sign { channel }) {
        Reply::Signed(answer) => answer.err(),
        _ => panic!(rt; "another reply"),
    }
}

// The penalties of B's commitment 0.
fn set_of<R: Wait + Abort>(rt: &R, alloc: Global, desk: &Desk, seat: &mut Seat) -> PenaltySet
    requires { IsSeatOf desk.now seat.old }
    ensures { IsSeatOf desk.now seat.new }
{
    let state = desk.revoked(rt, seat, 0, 0).expect(rt, "a state");
    let patterns = patterns(alloc).expect(rt, "memory");
    penalties(alloc, &patterns, &state).expect(rt, "memory")
}

/// Keeps the penalties of B's commitment 0.
pub(crate) fn keep<R: Wait + Abort>(
    rt: &R,
    alloc: Global,
    desk: &Desk,
    seat: &mut Seat,
) -> Result<(), KeepError>
    requires { IsSeatOf desk.now seat.old }
    ensures { IsSeatOf desk.now seat.new }
{
    let set = set_of(rt, alloc, desk, seat);
    desk.keep_set(rt, seat, 0, 0, set)
}

// The seat at the end of a list of seats that are all one board's.
fn next_place(rt: &impl Abort, board: &Board, places: &mut Vec<board::Seat>) -> board::Seat
    requires { All (board_seats.IsNewSeatOf board.now) places.old.items }
    ensures all { All (board_seats.IsNewSeatOf board.now) places.new.items }
    ensures place { board_seats.IsNewSeatOf board.now result }
{
    let _board = board;
    places.pop().expect(rt, "a place")
}

fn put<R: Wait + Abort>(rt: &R, sender: &JobSender<Job>, pass: &mut Pass<Job>, job: Job)
    requires { PutsWith sender.now pass.old }
    ensures { PutsWith sender.now pass.new }
{
    assert!(rt; sender.put(rt, pass, job).is_ok());
}

fn empty_pool(rt: &impl Abort, alloc: Global) -> Mutex<Pool> {
    Mutex::new(Pool::new(alloc, Index::new(alloc).expect(rt, "memory")))
}

// A worker with a board and a queue of its own is given one job.
fn run_one<R: Wait + Abort>(
    rt: &R,
    alloc: Global,
    desk: &Desk,
    seat: Seat,
    payments: &[Key],
    pool: &Mutex<Pool>,
    job: Job,
    gate: &TestGate,
) -> Done
    requires { IsSeatOf desk.now seat }
{
    let (board, mut places) = Board::new(alloc, 1).expect(rt, "memory");
    let place = next_place(rt, &board, &mut places);
    let (sender, taker, mut pass) = job_queue(alloc).expect(rt, "memory");
    put(rt, &sender, &mut pass, job);
    drop(sender);
    let patterns = patterns(alloc).expect(rt, "memory");
    let shared = Shared {
        desk,
        board: &board,
        patterns: &patterns,
        payments,
        pool,
    };
    let mut hands = Hands { seat, place, pass };
    worker(rt, alloc, &shared, &taker, &mut hands, gate)
}

// How many entries a seat has.
fn count_of(book: &Book, seat: u32) -> usize {
    let mut count: usize = 0;
    for entry in book.entries() {
        if entry.seat == seat {
            count = count.saturating_add(1);
        }
    }
    count
}

// Closes a desk by its seat. How many entries of its book the seats 1 and 2 have.
fn counts_at_end<R: Wait>(rt: &R, desk: Desk, seat: &mut Seat) -> [usize; 2]
    requires { IsSeatOf desk seat.old }
{
    let book = desk.close(rt, seat);
    [count_of(&book, 1), count_of(&book, 2)]
}

// Whether a worker is stopped at its first ticket.
fn is_stopped<R: Wait + Abort>(rt: &R, alloc: Global, desk: &Desk, working: Seat) -> bool
    requires { IsSeatOf desk.now working }
{
    let pool = empty_pool(rt, alloc);
    let gate = TestGate::new(Manner::Stops);
    let done = run_one(rt, alloc, desk, working, &[], &pool, keep_in(0), &gate);
    done.jobs == 1 && done.stopped == Some(0)
}

// Whether the seat signs once it has kept the penalties, and not before.
fn guards<R: Wait + Abort>(rt: &R, alloc: Global, desk: &Desk, seat: &mut Seat) -> bool
    requires { IsSeatOf desk.now seat.old }
    ensures { IsSeatOf desk.now seat.new }
{
    let before = sign(rt, desk, seat, 0);
    let kept = keep(rt, alloc, desk, seat);
    let after = sign(rt, desk, seat, 0);
    before == Some(SignError::PenaltiesMissing(0)) && kept == Ok(()) && after.is_none()
}

// A worker that is stopped leaves the desk alone: nothing is signed until another seat has kept the penalties.
#[test]
fn stopped_worker(rt: HostRuntime) {
    let alloc = rt.alloc();
    let (desk, mut seats) = desk_over(&rt, alloc, 1, 2);
    let mut seat = next_seat(&rt, &desk, &mut seats);
    let working = next_seat(&rt, &desk, &mut seats);
    let is_stopped = is_stopped(&rt, alloc, &desk, working);
    assert!(rt; is_stopped && guards(&rt, alloc, &desk, &mut seat));
}

// Two workers are given a job each, and the first one waits for the second.
fn run_two<R: Wait + Abort + Threads + Sync>(
    rt: &R,
    alloc: Global,
    desk: &Desk,
    one: Seat,
    two: Seat,
    pool: &Mutex<Pool>,
    gate: &TestGate,
) -> (Done, Done)
    requires { IsSeatOf desk.now one × IsSeatOf desk.now two }
{
    let (board, mut places) = Board::new(alloc, 2).expect(rt, "memory");
    let (sender, taker, mut pass) = job_queue(alloc).expect(rt, "memory");
    put(rt, &sender, &mut pass, keep_in(0));
    put(rt, &sender, &mut pass, keep_in(1));
    let mut ours = Hands {
        seat: one,
        place: next_place(rt, &board, &mut places),
        pass: sender.pass(&mut pass),
    };
    let mut theirs = Hands {
        seat: two,
        place: next_place(rt, &board, &mut places),
        pass,
    };
    drop(sender);
    let patterns = patterns(alloc).expect(rt, "memory");
    let shared = Shared {
        desk,
        board: &board,
        patterns: &patterns,
        payments: &[],
        pool,
    };
    thread::join(
        rt,
        || worker(rt, alloc, &shared, &taker, &mut ours, gate),
        || worker(rt, alloc, &shared, &taker, &mut theirs, gate),
    )
}

// Whether a worker did its one job.
fn did_one(done: &Done) -> bool {
    done.jobs == 1 && done.stopped.is_none()
}

// Whether each of two workers does its job, and the penalties of one channel were kept while the first was held.
fn are_at_once<R: Wait + Abort + Threads + Sync>(
    rt: &R,
    alloc: Global,
    desk: &Desk,
    one: Seat,
    two: Seat,
) -> bool
    requires { IsSeatOf desk.now one × IsSeatOf desk.now two }
{
    let pool = empty_pool(rt, alloc);
    let gate = TestGate::new(Manner::Holds);
    let (ours, theirs) = run_two(rt, alloc, desk, one, two, &pool, &gate);
    did_one(&ours) && did_one(&theirs) && gate.kept() == 1
}

// Whether both channels sign.
fn both_sign<R: Wait + Abort>(rt: &R, desk: &Desk, seat: &mut Seat) -> bool
    requires { IsSeatOf desk.now seat.old }
    ensures { IsSeatOf desk.now seat.new }
{
    let first = sign(rt, desk, seat, 0);
    let second = sign(rt, desk, seat, 1);
    first.is_none() && second.is_none()
}

// While one worker is held, the other keeps the penalties of another channel; then both are kept, each by a seat of its own, and each channel signs.
#[test]
fn two_workers_at_once(rt: HostRuntime) {
    let alloc = rt.alloc();
    let (desk, mut seats) = desk_over(&rt, alloc, 2, 3);
    let mut seat = next_seat(&rt, &desk, &mut seats);
    let two = next_seat(&rt, &desk, &mut seats);
    let one = next_seat(&rt, &desk, &mut seats);
    let are_at_once = are_at_once(&rt, alloc, &desk, one, two);
    let both_sign = both_sign(&rt, &desk, &mut seat);
    assert!(rt; are_at_once && both_sign);
    assert!(rt; counts_at_end(&rt, desk, &mut seat) == [1, 1]);
}

// The claims of a set, as they fall due.
fn due_of(rt: &impl Abort, alloc: Global, set: PenaltySet) -> VecDeque<DueClaim> {
    let mut due = VecDeque::new(alloc);
    for claim in set.into_claims() {
        let pushed = due.push_back(DueClaim {
            channel: 0,
            claim,
            preimages: List::new(alloc),
        });
        pushed.ok().expect(rt, "memory");
    }
    due
}

// The output that a due claim is on.
fn outpoint_of(rt: &impl Abort, due: &VecDeque<DueClaim>, index: usize) -> OutPoint {
    due.get(index).expect(rt, "a claim").claim.place().outpoint
}

// The outputs that two due claims are on.
fn outpoints_of(rt: &impl Abort, due: &VecDeque<DueClaim>) -> (OutPoint, OutPoint) {
    assert!(rt; due.len() == 2);
    (outpoint_of(rt, due, 0), outpoint_of(rt, due, 1))
}

// Whether a transaction spends this output alone, and pays to the payment key.
fn is_release_of(tx: &Tx, outpoint: &OutPoint) -> bool {
    match (tx.inputs(), tx.outputs()) {
        ([input], [output]) => {
            input.outpoint == *outpoint && output.script().bytes() == PROGRAM.as_slice()
        }
        _ => false,
    }
}

// Whether these are two transactions, each of which is such a release.
fn are_releases_of(txs: &[Tx], first: &OutPoint, second: &OutPoint) -> bool {
    match txs {
        [one, two] => is_release_of(one, first) && is_release_of(two, second),
        _ => false,
    }
}

// Whether the releases wait in the pool, and stand among those that were ever released.
fn has_releases_of(pool: &Pool, first: &OutPoint, second: &OutPoint) -> bool {
    are_releases_of(&pool.waiting, first, second) && are_releases_of(&pool.released, first, second)
}

// Whether a worker releases these claims, two in number.
fn releases<R: Wait + Abort>(
    rt: &R,
    alloc: Global,
    desk: &Desk,
    working: Seat,
    due: VecDeque<DueClaim>,
) -> bool
    requires { IsSeatOf desk.now working }
{
    let (first, second) = outpoints_of(rt, &due);
    let payments = [Key::read(&PAYMENT).expect(rt, "a key")];
    let job = Job::Claims(due);
    let pool = empty_pool(rt, alloc);
    let gate = TestGate::new(Manner::Open);
    let done = run_one(rt, alloc, desk, working, &payments, &pool, job, &gate);
    let pool = pool.into_inner();
    did_one(&done) && has_releases_of(&pool, &first, &second)
}

// Each of two claims goes to the pool in a transaction of its own, by the worker's seat.
#[test]
fn releases_each_claim(rt: HostRuntime) {
    let alloc = rt.alloc();
    let (desk, mut seats) = desk_over(&rt, alloc, 1, 2);
    let mut seat = next_seat(&rt, &desk, &mut seats);
    let working = next_seat(&rt, &desk, &mut seats);
    let set = set_of(&rt, alloc, &desk, &mut seat);
    let due = due_of(&rt, alloc, set);
    assert!(rt; releases(&rt, alloc, &desk, working, due));
    assert!(rt; counts_at_end(&rt, desk, &mut seat) == [2, 0]);
}
