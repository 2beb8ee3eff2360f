//! A whole run of a node.

ghost use Rattle.std.specs.Prelude.{◌≡◌, ◌+◌, ◌*◌, ◌<◌, ◌≤◌, Ok, IfOk, All, length, map};
ghost use Rattle.board.specs.Seats as at_board;
ghost use Rattle.desk.specs.Seats.{IsSeatOf, opening_in};
ghost use Rattle.running.specs.Beginning.{IsOpened};
ghost use Rattle.running.specs.Threads.{AreResources, IsSideThread, IsChannelThread, IsNewChainThread, AreAllThreads, HasServed};
ghost use Rattle.running.specs.Playing.{IsPlayed, ArePlayed};
ghost use Rattle.running.specs.Homes.{IsClosedBy, IsLonePair, IsHandedBack, HavePlayed, HaveServed, HasReturned, seats_a, seats_b};
ghost use Rattle.running.specs.Reports.{IsLeft, IsSettled, IsPlayedOut, IsRun, IsReport};

use crate::all_threads::{AllThreads, SideResources, prepare_threads};
use crate::beginning::{Opened, begin, open_side};
use crate::chain_thread::{ChainThread, play_chain};
use crate::channel_thread::{ChannelThread, PlayedChannel, play_channel};
use crate::counts::Counts;
use crate::returned::{PlayedEvents, Returned, absorb_all_seats, counts_of};
use crate::shared::{ClosingSeats, SharedState, SideState};
use crate::shared_chain::SharedChain;
use crate::side_threads::{Served, SideThread, run_beside};
use board::Board;
use book::Book;
use chain::Index;
use desk::Seat;
use node::Gate;
use scenario::{Event, Scenario};
use std::alloc::{AllocError, Global};
use std::sync::Wait;
use std::thread;
use std::thread::Threads;
use world::BooksAndChain;
use world::errors::EventError;

/// What a node leaves once all its threads have ended.
#[derive(Drop)]
pub struct Report {
    /// A's book.
    pub a: Book,
    /// B's book.
    pub b: Book,
    /// The height of the chain.
    pub height: u64,
    /// How many of the updates, signatures, deliveries and closes of each channel were played.
    pub channels: Vec<Counts>,
    /// Of each event of the scenario, in order, why it was refused as one of the chain, if it was: `NoSuchChannel` or `NoSuchTx` for a broadcast or a close whose transaction the side does not
    /// have, `TooDeep` or `NoSuchTx` for a reorganisation.
    pub outcomes: Vec<Option<EventError>>,
}

// ---- the threads

// What the threads of all channels give back, unless memory ran out in one.
fn collect_played(
    alloc: Global,
    played: Vec<Result<PlayedChannel, AllocError>>,
) -> Result<Vec<PlayedChannel>, AllocError>
    ensures { IfOk result (λ v. map Ok v.items ≡ played.items) }
{
    let mut channels = Vec::new(alloc);
    for one in played {
        channels.push(one?)?;
    }
    Ok(channels)
}

// Plays the events of all channels, each in a thread of its own if one can be made. The only error is that memory ran out.
fn play_channels<R: Threads + Wait + Sync>(
    rt: &R,
    alloc: Global,
    shared: &SharedState,
    events: &[Event],
    channel_threads: Vec<ChannelThread>,
) -> Result<Vec<PlayedChannel>, AllocError>
    requires { All (IsChannelThread shared.now) channel_threads.items }
    ensures played { IfOk result (λ v. ArePlayed events.now channel_threads.items v.items) }
    ensures seats { IfOk result (λ v. All (IsLonePair shared.now) v.items) }
{
    let played = thread::map_vec(
        rt,
        channel_threads,
        &|channel_thread: ChannelThread| -> Result<PlayedChannel, AllocError>
            requires { IsChannelThread shared.now channel_thread }
            ensures { IfOk result (λ p. IsPlayed events.entry.now channel_thread p
                × IsLonePair shared.entry.now p) }
        { play_channel(rt, shared, events, channel_thread) },
    )?;
    collect_played(alloc, played)
}

// Plays all events: first those of the channels, then those of the chain. The only error is that memory ran out.
#[tactic(auto, using(crate::proofs::Same::handed_back))]
fn play_events<R: Threads + Wait + Sync>(
    rt: &R,
    alloc: Global,
    shared: &SharedState,
    events: &[Event],
    channel_threads: Vec<ChannelThread>,
    chain_thread: ChainThread,
) -> Result<PlayedEvents, AllocError>
    requires channel_threads { All (IsChannelThread shared.now) channel_threads.items }
    requires chain_thread { IsNewChainThread shared.now chain_thread }
    ensures { IfOk result (HavePlayed shared.now events.now channel_threads.items chain_thread) }
{
    let mut chain_thread = chain_thread;
    let channels = play_channels(rt, alloc, shared, events, channel_threads)?;
    let outcomes = play_chain(rt, alloc, shared, events, &mut chain_thread)?;
    Ok(PlayedEvents {
        channels,
        chain_thread,
        outcomes,
    })
}

// The same, beside the workers and the watcher of B. The error is that memory ran out, or that a thread could not be started.
fn play_beside_b<R: Threads + Wait + Sync, G: Gate + Sync>(
    rt: &R,
    alloc: Global,
    shared: &SharedState,
    events: &[Event],
    gate: &G,
    side_threads: Vec<SideThread>,
    channel_threads: Vec<ChannelThread>,
    chain_thread: ChainThread,
) -> Result<(PlayedEvents, Vec<Served>), AllocError>
    requires side_threads { All (IsSideThread shared.now.b shared.now.board) side_threads.items }
    requires channel_threads { All (IsChannelThread shared.now) channel_threads.items }
    requires chain_thread { IsNewChainThread shared.now chain_thread }
    ensures played { IfOk result (λ r. HavePlayed shared.now events.now channel_threads.items
        chain_thread r.0) }
    ensures side_threads { IfOk result
        (λ r. HaveServed shared.now.b (length side_threads.items) r.1.items) }
{
    run_beside(
        rt,
        alloc,
        shared,
        &shared.b,
        gate,
        side_threads,
        move || -> Result<PlayedEvents, AllocError>
            requires { All (IsChannelThread shared.now) channel_threads.items
                × IsNewChainThread shared.now chain_thread }
            ensures { IfOk result
                (HavePlayed shared.entry.now events.entry.now channel_threads.items
                chain_thread) }
        { play_events(rt, alloc, shared, events, channel_threads, chain_thread) },
    )
}

// Runs all threads until each has ended. The error is that memory ran out, or that a thread could not be started.
fn run_threads<R: Threads + Wait + Sync, G: Gate + Sync>(
    rt: &R,
    alloc: Global,
    shared: &SharedState,
    events: &[Event],
    gate: &G,
    threads: AllThreads,
) -> Result<Returned, AllocError>
    requires { AreAllThreads shared.now threads }
    ensures { IfOk result (HasReturned shared.now events.now threads) }
{
    let AllThreads {
        side_threads_a,
        side_threads_b,
        channel_threads,
        chain_thread,
    } = threads;
    let ((played, side_threads_b), side_threads_a) = run_beside(
        rt,
        alloc,
        shared,
        &shared.a,
        gate,
        side_threads_a,
        move || -> Result<(PlayedEvents, Vec<Served>), AllocError>
            requires { All (IsSideThread shared.now.b shared.now.board) side_threads_b.items
                × All (IsChannelThread shared.now) channel_threads.items
                × IsNewChainThread shared.now chain_thread }
            ensures { IfOk result (λ r. HavePlayed shared.entry.now events.entry.now
                channel_threads.items chain_thread r.0
                × HaveServed shared.entry.now.b (length side_threads_b.items) r.1.items) }
        {
            play_beside_b(
                rt,
                alloc,
                shared,
                events,
                gate,
                side_threads_b,
                channel_threads,
                chain_thread,
            )
        },
    )?;
    Ok(Returned {
        played,
        side_threads_a,
        side_threads_b,
    })
}

// Prepares all threads of a node, and runs them. The error is that memory ran out, or that a thread could not be started.
fn prepare_and_run<R: Threads + Wait + Sync, G: Gate + Sync>(
    rt: &R,
    alloc: Global,
    shared: &SharedState,
    closing_seats: &ClosingSeats,
    events: &[Event],
    channels: u16,
    workers: u16,
    gate: &G,
    a: SideResources,
    b: SideResources,
    board_seats: Vec<board::Seat>,
) -> Result<Returned, AllocError>
    requires few { (channels ≤ 8) × (workers ≤ 16) }
    requires a { AreResources shared.now.a closing_seats.now.a a
        × (channels + workers + 2 ≤ length a.seats.items) }
    requires b { AreResources shared.now.b closing_seats.now.b b
        × (channels + workers + 2 ≤ length b.seats.items) }
    requires board_seats { All (at_board.IsSeatOf shared.now.board) board_seats.items
        × (2 * workers + 3 ≤ length board_seats.items) }
    ensures { IfOk result
        (IsPlayedOut shared.now closing_seats.now channels workers events.now) }
{
    let threads = prepare_threads(
        alloc,
        shared,
        closing_seats,
        a,
        b,
        board_seats,
        channels,
        workers,
    )?;
    run_threads(rt, alloc, shared, events, gate, threads)
}

// ---- the end

// The book of a side whose threads have ended. The seat that closes the desk makes no further call. That the book's claims were accepted is a clause of its entries.
fn close_desk<R: Wait>(rt: &R, side: SideState, closing_seat: Seat) -> Book
    requires { IsSeatOf side.desk closing_seat }
    ensures left { IsLeft (opening_in closing_seat) result }
    ensures closed { IsClosedBy closing_seat result }
{
    let mut closing_seat = closing_seat;
    let SideState { desk, .. } = side;
    let book = desk.close(rt, &mut closing_seat);
    let _entries = book.entries();
    book
}

// The two books and the height, once the closing seats have absorbed all others.
fn report_with<R: Wait>(
    rt: &R,
    shared: SharedState,
    closing_seats: ClosingSeats,
    channels: Vec<Counts>,
    outcomes: Vec<Option<EventError>>,
) -> Report
    requires a { IsSeatOf shared.a.desk closing_seats.a }
    requires b { IsSeatOf shared.b.desk closing_seats.b }
    ensures a { IsLeft (opening_in closing_seats.a) result.a × IsClosedBy closing_seats.a result.a }
    ensures b { IsLeft (opening_in closing_seats.b) result.b × IsClosedBy closing_seats.b result.b }
    ensures channels { result.channels.items ≡ channels.items }
    ensures outcomes { result.outcomes.items ≡ outcomes.items }
{
    let SharedState { a, b, chain, .. } = shared;
    let ClosingSeats {
        a: closing_seat_a,
        b: closing_seat_b,
    } = closing_seats;
    let height = chain.into_height();
    Report {
        a: close_desk(rt, a, closing_seat_a),
        b: close_desk(rt, b, closing_seat_b),
        height,
        channels,
        outcomes,
    }
}

// Absorbs the seats of all threads, and reports what the sides leave.
fn absorb_and_report<R: Wait>(
    rt: &R,
    shared: SharedState,
    closing_seats: ClosingSeats,
    returned: Returned,
    channels: Vec<Counts>,
) -> Report
    requires a { IsSeatOf shared.a.desk closing_seats.a }
    requires b { IsSeatOf shared.b.desk closing_seats.b }
    requires channels { All (IsLonePair shared) returned.played.channels.items }
    requires chain_thread { IsHandedBack shared returned.played.chain_thread }
    requires side_threads_a { All (HasServed shared.a) returned.side_threads_a.items }
    requires side_threads_b { All (HasServed shared.b) returned.side_threads_b.items }
    ensures a { IsSettled shared.a closing_seats.a (seats_a returned) result.a }
    ensures b { IsSettled shared.b closing_seats.b (seats_b returned) result.b }
    ensures channels { result.channels.items ≡ channels.items }
    ensures outcomes { result.outcomes.items ≡ returned.played.outcomes.items }
{
    let mut closing_seats = closing_seats;
    let outcomes = absorb_all_seats(&shared, &mut closing_seats, returned);
    report_with(rt, shared, closing_seats, channels, outcomes)
}

// The same with the counts that the channels' threads give back. The only error is that memory ran out, here or in a watcher.
fn report_of<R: Wait>(
    rt: &R,
    alloc: Global,
    shared: SharedState,
    closing_seats: ClosingSeats,
    returned: Returned,
) -> Result<Report, AllocError>
    requires a { IsSeatOf shared.a.desk closing_seats.a }
    requires b { IsSeatOf shared.b.desk closing_seats.b }
    requires channels { All (IsLonePair shared) returned.played.channels.items }
    requires chain_thread { IsHandedBack shared returned.played.chain_thread }
    requires side_threads_a { All (HasServed shared.a) returned.side_threads_a.items }
    requires side_threads_b { All (HasServed shared.b) returned.side_threads_b.items }
    ensures a { IfOk result (λ r. IsSettled shared.a closing_seats.a (seats_a returned) r.a) }
    ensures b { IfOk result (λ r. IsSettled shared.b closing_seats.b (seats_b returned) r.b) }
    ensures channels { IfOk result (λ r. map (λ p. p.counts) returned.played.channels.items
        ≡ r.channels.items) }
    ensures outcomes { IfOk result (λ r. r.outcomes.items ≡ returned.played.outcomes.items) }
{
    if shared.chain.has_failed() {
        return Err(AllocError);
    }
    let counts = counts_of(alloc, &returned.played.channels)?;
    Ok(absorb_and_report(rt, shared, closing_seats, returned, counts))
}

// Runs a node whose sides are opened. The error is that memory ran out, or that a thread could not be started.
fn run_sides<R: Threads + Wait + Sync, G: Gate + Sync>(
    rt: &R,
    alloc: Global,
    events: &[Event],
    channels: u16,
    workers: u16,
    gate: &G,
    a: Opened,
    b: Opened,
    chain: Index,
) -> Result<Report, AllocError>
    requires few { (channels ≤ 8) × (workers ≤ 16) }
    requires a { IsOpened (opening_in a.closing_seat) (channels + workers + 3) a }
    requires b { IsOpened (opening_in b.closing_seat) (channels + workers + 3) b }
    ensures { IfOk result
        (IsRun (opening_in a.closing_seat) (opening_in b.closing_seat) channels events.now) }
{
    let (board, board_seats) = Board::new(alloc, 2 * workers + 3)?;
    let Opened {
        side: side_a,
        closing_seat: closing_seat_a,
        resources: resources_a,
    } = a;
    let Opened {
        side: side_b,
        closing_seat: closing_seat_b,
        resources: resources_b,
    } = b;
    let closing_seats = ClosingSeats {
        a: closing_seat_a,
        b: closing_seat_b,
    };
    let shared = SharedState {
        a: side_a,
        b: side_b,
        board,
        chain: SharedChain::new(alloc, chain),
    };
    let returned = prepare_and_run(
        rt,
        alloc,
        &shared,
        &closing_seats,
        events,
        channels,
        workers,
        gate,
        resources_a,
        resources_b,
        board_seats,
    )?;
    report_of(rt, alloc, shared, closing_seats, returned)
}

/// Plays a scenario in threads: one for each channel, a watcher and `workers` workers for each side, and one for the events of the chain.
///
/// The channels play side by side, each its own updates, signatures, deliveries and closes in the order of the scenario. A signature that finds penalties missing waits for the workers, until
/// no job is left that may keep them. Then broadcasts, blocks and reorganisations are played, beside the watchers and the workers; there each close broadcasts the side's newest commitment. Events that keep, look, take and release are skipped: threads
/// do that by themselves. The gate comes before and after each job of each worker. No clause says that a signature waits, that the gate is asked, that watchers read the blocks, that blocks are
/// made or replaced, or that what is broadcast or released reaches the pool: that is tested.
///
/// The error is that memory ran out, or that a thread could not be started. All threads have ended when it returns. A worker that is refused memory tries its job again, and a
/// thread that puts a job puts it again, without a bound: while memory stays refused there, the call does not return.
#[tactic(auto, using(crate::proofs::Reported::as_opened))]
pub fn run_node<R: Threads + Wait + Sync, G: Gate + Sync>(
    rt: &R,
    alloc: Global,
    scenario: &Scenario,
    workers: u16,
    gate: &G,
) -> Result<Report, AllocError>
    requires some { 0 < workers }
    requires few { workers ≤ 16 }
    ensures { IfOk result (IsReport scenario.now) }
{
    let channels = scenario.channels.len() as u16;
    let seats = channels + workers + 3;
    let BooksAndChain { a, b, chain } = begin(alloc, scenario)?;
    let events = scenario.events.values();
    let a = open_side(rt, alloc, a, seats, workers)?;
    let b = open_side(rt, alloc, b, seats, workers)?;
    run_sides(rt, alloc, events, channels, workers, gate, a, b, chain)
}
