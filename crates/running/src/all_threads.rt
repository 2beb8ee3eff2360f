//! What all threads have of their own, made before the first of them starts.

ghost use Rattle.std.specs.Prelude.{◌≡◌, ◌+◌, ◌*◌, ◌<◌, ◌≤◌, All, IfOk, OnOk, length, map};
ghost use Rattle.std.specs.List.{range_with_len};
ghost use Rattle.board.specs.Seats as at_board;
ghost use Rattle.running.specs.Threads.{IsOwnSeat, AreResources, IsUnused, IsWorker, IsWatcher, IsSideThread, IsEndpoint, IsChannelThread, IsNewChainThread, AreAllThreads};
ghost use Rattle.desk.specs.Seats.{opening_in};
ghost use Rattle.running.specs.Playing.{IsFirstEndpoint, IsFirstChannelThreadIn};
ghost use Rattle.running.specs.Outcomes.{HasSeen};

use crate::chain_thread::ChainThread;
use crate::channel_thread::ChannelThread;
use crate::endpoints::Endpoint;
use crate::shared::{ClosingSeats, SharedState, SideState};
use crate::side_threads::SideThread;
use crate::watching::Watcher;
use crate::working::Worker;
use board::Board;
use desk::Seat;
use jobs::{JobSender, JobTaker, Pass};
use node::{Hands, Job};
use std::alloc::{AllocError, Global};
use std::collections::VecDeque;

/// The seats of a side and the ends of its queue, from which each of its threads gets its own.
#[derive(Drop)]
pub(crate) struct SideResources {
    pub(crate) seats: Vec<Seat>,
    pub(crate) sender: JobSender<Job>,
    pub(crate) taker: JobTaker<Job>,
    pub(crate) pass: Pass<Job>,
}

/// What all threads have of their own.
#[derive(Drop)]
pub(crate) struct AllThreads {
    /// A's workers and watcher.
    pub(crate) side_threads_a: Vec<SideThread>,
    /// B's workers and watcher.
    pub(crate) side_threads_b: Vec<SideThread>,
    pub(crate) channel_threads: Vec<ChannelThread>,
    pub(crate) chain_thread: ChainThread,
}

// Takes the last unused seat of a side.
fn next_seat(side: &SideState, closing_seat: &Seat, seats: &mut Vec<Seat>) -> Seat
    requires { All (IsOwnSeat side.now closing_seat.now) seats.old.items
        × (0 < length seats.old.items) }
    ensures seat { IsOwnSeat side.now closing_seat.now result }
    ensures rest { All (IsOwnSeat side.now closing_seat.now) seats.new.items
        × (length seats.new.items + 1 ≡ length seats.old.items) }
{
    let (_side, _closing_seat) = (side, closing_seat);
    let Some(seat) = seats.pop() else {
        unreachable!()
    };
    seat
}

// Takes the last seat of a list of seats at a board.
fn next_board_seat(board: &Board, board_seats: &mut Vec<board::Seat>) -> board::Seat
    requires { All (at_board.IsSeatOf board.now) board_seats.old.items
        × (0 < length board_seats.old.items) }
    ensures board_seat { at_board.IsSeatOf board.now result }
    ensures rest { All (at_board.IsSeatOf board.now) board_seats.new.items
        × (length board_seats.new.items + 1 ≡ length board_seats.old.items) }
{
    let _board = board;
    let Some(board_seat) = board_seats.pop() else {
        unreachable!()
    };
    board_seat
}

// A worker with a seat at the board. The only error is that memory ran out.
#[tactic(auto, using(crate::proofs::Queues::takes_with, crate::proofs::Seating::pays_too))]
fn prepare_worker(
    side: &SideState,
    closing_seat: &Seat,
    board: &Board,
    resources: &mut SideResources,
    board_seat: board::Seat,
) -> Result<Worker, AllocError>
    requires resources { AreResources side.now closing_seat.now resources.old
        × (0 < length resources.old.seats.items) }
    requires board_seat { at_board.IsSeatOf board.now board_seat }
    ensures worker { IfOk result (λ w. IsWorker side.now board.now w
        × IsUnused w.hands.seat) }
    ensures resources { AreResources side.now closing_seat.now resources.new }
    ensures left { OnOk result (length resources.new.seats.items + 1
        ≡ length resources.old.seats.items) }
{
    let _board = board;
    let taker = resources.taker.copy()?;
    let pass = resources.sender.pass(&mut resources.pass);
    let seat = next_seat(side, closing_seat, &mut resources.seats);
    let hands = Hands {
        seat,
        place: board_seat,
        pass,
    };
    Ok(Worker { taker, hands })
}

// What `count` workers of a side have of their own. The only error is that memory ran out.
fn prepare_workers(
    alloc: Global,
    side: &SideState,
    closing_seat: &Seat,
    board: &Board,
    resources: &mut SideResources,
    board_seats: &mut Vec<board::Seat>,
    count: u16,
) -> Result<Vec<SideThread>, AllocError>
    requires resources { AreResources side.now closing_seat.now resources.old
        × (count ≤ length resources.old.seats.items) }
    requires board_seats { All (at_board.IsSeatOf board.now) board_seats.old.items
        × (count ≤ length board_seats.old.items) }
    ensures side_threads { IfOk result (λ v. All (IsSideThread side.now board.now) v.items) }
    ensures many { IfOk result (λ v. length v.items ≡ count) }
    ensures resources { AreResources side.now closing_seat.now resources.new }
    ensures seats_left { OnOk result (length resources.new.seats.items + count
        ≡ length resources.old.seats.items) }
    ensures board_seats { All (at_board.IsSeatOf board.now) board_seats.new.items }
    ensures board_seats_left { OnOk result (length board_seats.new.items + count
        ≡ length board_seats.old.items) }
{
    let mut side_threads = Vec::new(alloc);
    for _worker in 0..count {
        let board_seat = next_board_seat(board, board_seats);
        let worker = prepare_worker(side, closing_seat, board, resources, board_seat)?;
        side_threads.push(SideThread::Works(worker))?;
    }
    Ok(side_threads)
}

// The watcher of a side, with a seat at the board. The only error is that memory ran out.
#[tactic(auto, using(crate::proofs::Queues::puts_with))]
fn prepare_watcher(
    side: &SideState,
    closing_seat: &Seat,
    board: &Board,
    resources: &mut SideResources,
    board_seat: board::Seat,
) -> Result<Watcher, AllocError>
    requires resources { AreResources side.now closing_seat.now resources.old
        × (0 < length resources.old.seats.items) }
    requires board_seat { at_board.IsSeatOf board.now board_seat }
    ensures watcher { IfOk result (λ w. IsWatcher side.now board.now w × IsUnused w.seat) }
    ensures resources { AreResources side.now closing_seat.now resources.new }
    ensures left { OnOk result (length resources.new.seats.items + 1
        ≡ length resources.old.seats.items) }
{
    let _board = board;
    let sender = resources.sender.copy()?;
    let pass = resources.sender.pass(&mut resources.pass);
    let seat = next_seat(side, closing_seat, &mut resources.seats);
    Ok(Watcher {
        seat,
        board_seat,
        sender,
        pass,
    })
}

// What `workers` workers and the watcher of a side have of their own. The only error is that memory ran out.
fn prepare_side_threads(
    alloc: Global,
    side: &SideState,
    closing_seat: &Seat,
    board: &Board,
    resources: &mut SideResources,
    board_seats: &mut Vec<board::Seat>,
    workers: u16,
) -> Result<Vec<SideThread>, AllocError>
    requires resources { AreResources side.now closing_seat.now resources.old
        × (workers + 1 ≤ length resources.old.seats.items) }
    requires board_seats { All (at_board.IsSeatOf board.now) board_seats.old.items
        × (workers + 1 ≤ length board_seats.old.items) }
    ensures side_threads { IfOk result (λ v. All (IsSideThread side.now board.now) v.items) }
    ensures many { IfOk result (λ v. length v.items ≡ workers + 1) }
    ensures resources { AreResources side.now closing_seat.now resources.new }
    ensures seats_left { OnOk result (length resources.new.seats.items + workers + 1
        ≡ length resources.old.seats.items) }
    ensures board_seats { All (at_board.IsSeatOf board.now) board_seats.new.items }
    ensures board_seats_left { OnOk result (length board_seats.new.items + workers + 1
        ≡ length board_seats.old.items) }
{
    let mut side_threads = prepare_workers(
        alloc,
        side,
        closing_seat,
        board,
        resources,
        board_seats,
        workers,
    )?;
    let board_seat = next_board_seat(board, board_seats);
    let watcher = prepare_watcher(side, closing_seat, board, resources, board_seat)?;
    side_threads.push(SideThread::Watches(watcher))?;
    Ok(side_threads)
}

// A side's endpoint of a channel. The only error is that memory ran out.
#[tactic(auto, using(crate::proofs::Queues::puts_with))]
fn prepare_endpoint(
    alloc: Global,
    side: &SideState,
    closing_seat: &Seat,
    resources: &mut SideResources,
) -> Result<Endpoint, AllocError>
    requires { AreResources side.now closing_seat.now resources.old
        × (0 < length resources.old.seats.items) }
    ensures endpoint { IfOk result (λ e. IsEndpoint side.now e
        × IsFirstEndpoint (opening_in closing_seat.now) e) }
    ensures resources { AreResources side.now closing_seat.now resources.new }
    ensures left { OnOk result (length resources.new.seats.items + 1
        ≡ length resources.old.seats.items) }
{
    let sender = resources.sender.copy()?;
    let pass = resources.sender.pass(&mut resources.pass);
    let seat = next_seat(side, closing_seat, &mut resources.seats);
    Ok(Endpoint {
        seat,
        sender,
        pass,
        inbox: VecDeque::new(alloc),
    })
}

// What the thread of a channel has of its own. The only error is that memory ran out.
fn prepare_channel_thread(
    alloc: Global,
    shared: &SharedState,
    closing_seats: &ClosingSeats,
    a: &mut SideResources,
    b: &mut SideResources,
    channel: u64,
) -> Result<ChannelThread, AllocError>
    requires a { AreResources shared.now.a closing_seats.now.a a.old
        × (0 < length a.old.seats.items) }
    requires b { AreResources shared.now.b closing_seats.now.b b.old
        × (0 < length b.old.seats.items) }
    ensures channel_thread { IfOk result (λ l. IsChannelThread shared.now l × (l.channel ≡ channel)
        × IsFirstChannelThreadIn closing_seats.now l) }
    ensures a { AreResources shared.now.a closing_seats.now.a a.new }
    ensures b { AreResources shared.now.b closing_seats.now.b b.new }
    ensures a_left { OnOk result (length a.new.seats.items + 1 ≡ length a.old.seats.items) }
    ensures b_left { OnOk result (length b.new.seats.items + 1 ≡ length b.old.seats.items) }
{
    let a = prepare_endpoint(alloc, &shared.a, &closing_seats.a, a)?;
    let b = prepare_endpoint(alloc, &shared.b, &closing_seats.b, b)?;
    Ok(ChannelThread { channel, a, b })
}

// What the threads of `count` channels have of their own. The only error is that memory ran out.
fn prepare_channel_threads(
    alloc: Global,
    shared: &SharedState,
    closing_seats: &ClosingSeats,
    a: &mut SideResources,
    b: &mut SideResources,
    count: u16,
) -> Result<Vec<ChannelThread>, AllocError>
    requires a { AreResources shared.now.a closing_seats.now.a a.old
        × (count ≤ length a.old.seats.items) }
    requires b { AreResources shared.now.b closing_seats.now.b b.old
        × (count ≤ length b.old.seats.items) }
    ensures channel_threads { IfOk result (λ v. All (IsChannelThread shared.now) v.items) }
    ensures first { IfOk result (λ v. All (IsFirstChannelThreadIn closing_seats.now) v.items) }
    ensures channels { IfOk result (λ v. map (λ l. l.channel) v.items
        ≡ range_with_len 0 count) }
    ensures a { AreResources shared.now.a closing_seats.now.a a.new }
    ensures b { AreResources shared.now.b closing_seats.now.b b.new }
    ensures a_left { OnOk result (length a.new.seats.items + count ≡ length a.old.seats.items) }
    ensures b_left { OnOk result (length b.new.seats.items + count ≡ length b.old.seats.items) }
{
    let mut channel_threads = Vec::new(alloc);
    for channel in 0..count {
        channel_threads.push(prepare_channel_thread(
            alloc,
            shared,
            closing_seats,
            a,
            b,
            u64::from(channel),
        )?)?;
    }
    Ok(channel_threads)
}

// What the thread of the chain has of its own.
fn prepare_chain_thread(
    shared: &SharedState,
    closing_seats: &ClosingSeats,
    a: &mut SideResources,
    b: &mut SideResources,
    board_seat: board::Seat,
) -> ChainThread
    requires a { AreResources shared.now.a closing_seats.now.a a.old
        × (0 < length a.old.seats.items) }
    requires b { AreResources shared.now.b closing_seats.now.b b.old
        × (0 < length b.old.seats.items) }
    requires board_seat { at_board.IsSeatOf shared.now.board board_seat }
    ensures chain_thread { IsNewChainThread shared.now result }
    ensures first { HasSeen (opening_in closing_seats.now.a) (opening_in closing_seats.now.b)
        result }
{
    ChainThread {
        a: next_seat(&shared.a, &closing_seats.a, &mut a.seats),
        b: next_seat(&shared.b, &closing_seats.b, &mut b.seats),
        board_seat,
    }
}

// What the threads have of their own, from borrowed resources.
fn prepare_threads_from(
    alloc: Global,
    shared: &SharedState,
    closing_seats: &ClosingSeats,
    a: &mut SideResources,
    b: &mut SideResources,
    board_seats: &mut Vec<board::Seat>,
    channels: u16,
    workers: u16,
) -> Result<AllThreads, AllocError>
    requires a { AreResources shared.now.a closing_seats.now.a a.old
        × (channels + workers + 2 ≤ length a.old.seats.items) }
    requires b { AreResources shared.now.b closing_seats.now.b b.old
        × (channels + workers + 2 ≤ length b.old.seats.items) }
    requires board_seats { All (at_board.IsSeatOf shared.now.board) board_seats.old.items
        × (2 * workers + 3 ≤ length board_seats.old.items) }
    ensures threads { IfOk result (AreAllThreads shared.now) }
    ensures many_a { IfOk result (λ c. length c.side_threads_a.items ≡ workers + 1) }
    ensures many_b { IfOk result (λ c. length c.side_threads_b.items ≡ workers + 1) }
    ensures first { IfOk result
        (λ c. All (IsFirstChannelThreadIn closing_seats.now) c.channel_threads.items) }
    ensures channels { IfOk result (λ c. map (λ l. l.channel) c.channel_threads.items
        ≡ range_with_len 0 channels) }
    ensures seen { IfOk result (λ c. HasSeen (opening_in closing_seats.now.a)
        (opening_in closing_seats.now.b) c.chain_thread) }
{
    let board = &shared.board;
    let side_threads_a = prepare_side_threads(
        alloc,
        &shared.a,
        &closing_seats.a,
        board,
        a,
        board_seats,
        workers,
    )?;
    let side_threads_b = prepare_side_threads(
        alloc,
        &shared.b,
        &closing_seats.b,
        board,
        b,
        board_seats,
        workers,
    )?;
    let channel_threads = prepare_channel_threads(alloc, shared, closing_seats, a, b, channels)?;
    let board_seat = next_board_seat(board, board_seats);
    let chain_thread = prepare_chain_thread(shared, closing_seats, a, b, board_seat);
    Ok(AllThreads {
        side_threads_a,
        side_threads_b,
        channel_threads,
        chain_thread,
    })
}

/// What the threads have of their own: a watcher and `workers` workers a side, and a thread for each channel. The only error is that memory ran out.
pub(crate) fn prepare_threads(
    alloc: Global,
    shared: &SharedState,
    closing_seats: &ClosingSeats,
    a: SideResources,
    b: SideResources,
    board_seats: Vec<board::Seat>,
    channels: u16,
    workers: u16,
) -> Result<AllThreads, AllocError>
    requires a { AreResources shared.now.a closing_seats.now.a a
        × (channels + workers + 2 ≤ length a.seats.items) }
    requires b { AreResources shared.now.b closing_seats.now.b b
        × (channels + workers + 2 ≤ length b.seats.items) }
    requires board_seats { All (at_board.IsSeatOf shared.now.board) board_seats.items
        × (2 * workers + 3 ≤ length board_seats.items) }
    ensures threads { IfOk result (AreAllThreads shared.now) }
    ensures many_a { IfOk result (λ c. length c.side_threads_a.items ≡ workers + 1) }
    ensures many_b { IfOk result (λ c. length c.side_threads_b.items ≡ workers + 1) }
    ensures first { IfOk result
        (λ c. All (IsFirstChannelThreadIn closing_seats.now) c.channel_threads.items) }
    ensures channels { IfOk result (λ c. map (λ l. l.channel) c.channel_threads.items
        ≡ range_with_len 0 channels) }
    ensures seen { IfOk result (λ c. HasSeen (opening_in closing_seats.now.a)
        (opening_in closing_seats.now.b) c.chain_thread) }
{
    let mut a = a;
    let mut b = b;
    let mut board_seats = board_seats;
    prepare_threads_from(
        alloc,
        shared,
        closing_seats,
        &mut a,
        &mut b,
        &mut board_seats,
        channels,
        workers,
    )
}
