//! The events of the chain: broadcasts, closes, blocks and reorganisations.

ghost use Rattle.std.specs.Prelude.{◌≡◌, Option, Err, IfOk};
ghost use Rattle.book.specs.declared.errors.KnowError.TheVariants.{NoSuchChannel as not_known};
ghost use Rattle.board.specs.Seats as at_board;
ghost use Rattle.mempool.specs.declared.errors.ReorgError.{ReorgError as ReorgRefusal};
ghost use Rattle.mempool.specs.Reorganising.{IsRefusal, reorg_refusal};
ghost use Rattle.world.specs.declared.errors.EventError.TheVariants.{NoSuchChannel};
ghost use Rattle.world.specs.Publishing.{refusal_by};
ghost use Rattle.desk.specs.Seats.{IsSeatOf, HasSameCalls, number_in, calls_in, last_in};
ghost use Rattle.desk.specs.Histories.{GoesOn};
ghost use Rattle.desk.specs.Answers.{IsHistoryFor};
ghost use Rattle.running.specs.Threads.{IsChainThread, GoesOnPlaying};
ghost use Rattle.running.specs.Broadcasts.{IsTold, IsBroadcast, broadcast_in};
ghost use Rattle.running.specs.Outcomes.{refusal_as, history_of, reorg_in, IsBroadcastOutcome, IsReorgOutcome, IsMiningOutcome, IsOutcome, PlaysChain};

use crate::shared::{SharedState, SideState};
use crate::shared_chain::SharedChain;
use board::Board;
use book::errors::KnowError;
use chain::Coins;
use desk::Seat;
use mempool::ReorgError;
use node::Pool;
use scenario::Event;
use std::alloc::{AllocError, Global};
use std::sync::Wait;
use terms::Side;
use tx::Tx;
use world::errors::EventError;

/// What the thread that plays the events of the chain has of its own.
#[derive(Drop)]
pub(crate) struct ChainThread {
    /// Its seat at A's desk.
    pub(crate) a: Seat,
    /// Its seat at B's desk.
    pub(crate) b: Seat,
    pub(crate) board_seat: board::Seat,
}

/// Which transaction of a channel a side broadcasts.
#[derive(Drop)]
enum Choice {
    /// Its commitment of this number.
    Commitment(u64),
    /// Its newest commitment.
    Newest,
    /// An HTLC transaction of its commitment of this number.
    HtlcTx {
        number: u64,
        /// Which of the commitment's HTLCs, in the order of its outputs.
        htlc: u64,
    },
}

/// What a side broadcasts.
#[derive(Drop)]
struct Broadcast {
    side: Side,
    channel: u64,
    choice: Choice,
}

/// The newest blocks that are to be replaced.
#[derive(Drop)]
struct Reorg {
    /// How many blocks they are.
    depth: u64,
    /// How many of their transactions are forgotten.
    forgotten: u64,
}

// What an event broadcasts, if it does. A close broadcasts the side's newest commitment.
fn broadcast_in(event: &Event) -> Option<Broadcast>
    ensures { result ≡ broadcast_in event.now }
{
    match *event {
        Event::Broadcast {
            side,
            channel,
            number,
        } => Some(Broadcast {
            side,
            channel,
            choice: Choice::Commitment(number),
        }),
        Event::BroadcastHtlc {
            side,
            channel,
            number,
            htlc,
        } => Some(Broadcast {
            side,
            channel,
            choice: Choice::HtlcTx { number, htlc },
        }),
        Event::Close { side, channel } => Some(Broadcast {
            side,
            channel,
            choice: Choice::Newest,
        }),
        _ => None,
    }
}

// Which blocks an event replaces, if it does.
fn reorg_in(event: &Event) -> Option<Reorg>
    ensures { result ≡ reorg_in event.now }
{
    match *event {
        Event::Reorg { depth, forgotten } => Some(Reorg { depth, forgotten }),
        _ => None,
    }
}

// The transaction to broadcast, by the side's book and, of an HTLC transaction, what blocks showed to its watcher. `None` if the side does not have it.
fn tx_by<R: Wait>(
    rt: &R,
    alloc: Global,
    side: &SideState,
    seat: &mut Seat,
    broadcast: &Broadcast,
) -> Result<Option<Tx>, KnowError>
    requires { IsSeatOf side.now.desk seat.old }
    ensures seat { HasSameCalls side.now.desk seat.old seat.new }
    ensures history { IsHistoryFor (number_in seat.old) (calls_in seat.old) (last_in seat.old)
        (last_in seat.new) }
    ensures tx { IsTold (last_in seat.new) broadcast.now result }
{
    let channel = broadcast.channel;
    match broadcast.choice {
        Choice::Commitment(number) => side.desk.commitment(rt, alloc, seat, channel, Some(number)),
        Choice::Newest => side.desk.commitment(rt, alloc, seat, channel, None),
        Choice::HtlcTx { number, htlc } => {
            let learnt = side.learnt.lock(rt);
            side.desk
                .htlc_tx(rt, alloc, seat, channel, number, htlc, learnt.as_slice())
        }
    }
}

// What is broadcast where the desk has no such channel.
fn no_tx(error: KnowError) -> Result<Result<Tx, EventError>, AllocError>
    ensures { IfOk result (λ answer. (answer ≡ Err NoSuchChannel) × (error ≡ not_known)) }
{
    match error {
        KnowError::NoSuchChannel => Ok(Err(EventError::NoSuchChannel)),
        KnowError::NoMemory => Err(AllocError),
    }
}

// The transaction to broadcast. It refuses `NoSuchChannel`, and `NoSuchTx` where the side does not have it; the only other error is that memory ran out.
#[tactic(auto, using(crate::proofs::Broadcasting::untold))]
fn tx_of<R: Wait>(
    rt: &R,
    alloc: Global,
    side: &SideState,
    seat: &mut Seat,
    broadcast: &Broadcast,
) -> Result<Result<Tx, EventError>, AllocError>
    requires { IsSeatOf side.now.desk seat.old }
    ensures seat { HasSameCalls side.now.desk seat.old seat.new }
    ensures history { IsHistoryFor (number_in seat.old) (calls_in seat.old) (last_in seat.old)
        (last_in seat.new) }
    ensures tx { IfOk result (IsBroadcast (last_in seat.new) broadcast.now) }
{
    match tx_by(rt, alloc, side, seat, broadcast) {
        Ok(tx) => Ok(tx.ok_or(EventError::NoSuchTx)),
        Err(error) => no_tx(error),
    }
}

// Adds a transaction to those that wait for a block. The only error is that memory ran out.
fn publish<R: Wait>(rt: &R, chain: &SharedChain, tx: Tx) -> Result<(), AllocError> {
    let mut pool = chain.pool.lock(rt);
    pool.broadcast(tx)
}

// A transaction that was found is broadcast. Returns why it was not found, if so. The only error is that memory ran out.
fn send<R: Wait>(
    rt: &R,
    chain: &SharedChain,
    answer: Result<Tx, EventError>,
) -> Result<Option<EventError>, AllocError>
    ensures { IfOk result (λ outcome. outcome ≡ refusal_by answer) }
{
    match answer {
        Ok(tx) => {
            publish(rt, chain, tx)?;
            Ok(None)
        }
        Err(error) => Ok(Some(error)),
    }
}

// A side broadcasts a transaction, if it has it. Returns why not, if it has it not. The only error is that memory ran out.
fn play_broadcast<R: Wait>(
    rt: &R,
    alloc: Global,
    side: &SideState,
    chain: &SharedChain,
    seat: &mut Seat,
    broadcast: &Broadcast,
) -> Result<Option<EventError>, AllocError>
    requires { IsSeatOf side.now.desk seat.old }
    ensures seat { HasSameCalls side.now.desk seat.old seat.new }
    ensures since { GoesOn (last_in seat.old) (last_in seat.new) }
    ensures outcome { IfOk result (IsBroadcastOutcome (last_in seat.new) broadcast.now) }
{
    let answer = tx_of(rt, alloc, side, seat, broadcast)?;
    send(rt, chain, answer)
}

// Raises the board to the height of the chain and the number of its reorganisations.
fn raise(board: &Board, board_seat: &mut board::Seat, pool: &Pool)
    requires { at_board.IsSeatOf board.now board_seat.old }
    ensures { at_board.IsSeatOf board.now board_seat.new }
{
    let round = u32::try_from(pool.round()).unwrap_or(u32::MAX);
    let height = u32::try_from(pool.chain.height()).unwrap_or(u32::MAX);
    board.raise(board_seat, round, height);
}

// Makes blocks, raises the board as each is connected, and tells the watchers. They read none before all are there, since the chain is locked. The only error is that memory ran out.
fn play_blocks<R: Wait>(
    rt: &R,
    alloc: Global,
    shared: &SharedState,
    board_seat: &mut board::Seat,
    count: u64,
) -> Result<(), AllocError>
    requires { at_board.IsSeatOf shared.now.board board_seat.old }
    ensures { at_board.IsSeatOf shared.now.board board_seat.new }
{
    let mut pool = shared.chain.pool.lock(rt);
    for _block in 0..count {
        let _txs = pool.mine(alloc, 1)?;
        raise(&shared.board, board_seat, &*pool);
    }
    drop(pool);
    shared.chain.notify();
    Ok(())
}

// The refusal of a chain, as that of an event. The only error is that memory ran out.
fn refusal_as(error: ReorgError) -> Result<Option<EventError>, AllocError>
    ensures { IfOk result (λ outcome. (first : Option ReorgRefusal) → IsRefusal first error
        → outcome ≡ refusal_as first) }
{
    match error {
        ReorgError::NoMemory => Err(AllocError),
        ReorgError::TooDeep => Ok(Some(EventError::TooDeep)),
        ReorgError::NoSuchTx => Ok(Some(EventError::NoSuchTx)),
    }
}

// Replaces the newest blocks. Returns why that is refused, if so. The only error is that memory ran out.
fn replace_blocks(
    alloc: Global,
    pool: &mut Pool,
    reorg: &Reorg,
) -> Result<Option<EventError>, AllocError>
    ensures { IfOk result (λ outcome. outcome
        ≡ refusal_as (reorg_refusal pool.old.chain reorg.now.depth reorg.now.forgotten)) }
{
    match pool.reorganise(alloc, reorg.depth, reorg.forgotten) {
        Ok(_txs) => Ok(None),
        Err(error) => refusal_as(error),
    }
}

// Replaces the newest blocks, and tells the watchers. Returns why that is refused, if so. The only error is that memory ran out.
fn play_reorg<R: Wait>(
    rt: &R,
    alloc: Global,
    shared: &SharedState,
    board_seat: &mut board::Seat,
    reorg: &Reorg,
) -> Result<Option<EventError>, AllocError>
    requires { at_board.IsSeatOf shared.now.board board_seat.old }
    ensures board_seat { at_board.IsSeatOf shared.now.board board_seat.new }
    ensures outcome { IfOk result (IsReorgOutcome reorg.now) }
{
    let mut pool = shared.chain.pool.lock(rt);
    let outcome = replace_blocks(alloc, &mut *pool, reorg)?;
    if outcome.is_some() {
        return Ok(outcome);
    }
    raise(&shared.board, board_seat, &*pool);
    drop(pool);
    shared.chain.notify();
    Ok(outcome)
}

// Plays an event, if it makes blocks. The only error is that memory ran out.
fn play_making<R: Wait>(
    rt: &R,
    alloc: Global,
    shared: &SharedState,
    board_seat: &mut board::Seat,
    event: &Event,
) -> Result<(), AllocError>
    requires { at_board.IsSeatOf shared.now.board board_seat.old }
    ensures { at_board.IsSeatOf shared.now.board board_seat.new }
{
    match *event {
        Event::Blocks { count } => play_blocks(rt, alloc, shared, board_seat, count),
        _ => Ok(()),
    }
}

// Plays an event, if it makes or replaces blocks. Returns why it is refused, if so. The only error is that memory ran out.
fn play_mining<R: Wait>(
    rt: &R,
    alloc: Global,
    shared: &SharedState,
    board_seat: &mut board::Seat,
    event: &Event,
) -> Result<Option<EventError>, AllocError>
    requires { at_board.IsSeatOf shared.now.board board_seat.old }
    ensures board_seat { at_board.IsSeatOf shared.now.board board_seat.new }
    ensures outcome { IfOk result (IsMiningOutcome (reorg_in event.now)) }
{
    match reorg_in(event) {
        Some(reorg) => play_reorg(rt, alloc, shared, board_seat, &reorg),
        None => {
            play_making(rt, alloc, shared, board_seat, event)?;
            Ok(None)
        }
    }
}

// A side broadcasts a transaction by its seat, if it has it. Returns why not, if it has it not. The only error is that memory ran out.
fn broadcast_by<R: Wait>(
    rt: &R,
    alloc: Global,
    shared: &SharedState,
    chain_thread: &mut ChainThread,
    broadcast: &Broadcast,
) -> Result<Option<EventError>, AllocError>
    requires { IsChainThread shared.now chain_thread.old }
    ensures chain_thread { GoesOnPlaying shared.now chain_thread.old chain_thread.new }
    ensures outcome { IfOk result (IsBroadcastOutcome
        (history_of broadcast.now.side (last_in chain_thread.new.a) (last_in chain_thread.new.b))
        broadcast.now) }
{
    let chain = &shared.chain;
    match broadcast.side {
        Side::A => play_broadcast(rt, alloc, &shared.a, chain, &mut chain_thread.a, broadcast),
        Side::B => play_broadcast(rt, alloc, &shared.b, chain, &mut chain_thread.b, broadcast),
    }
}

// Plays an event, if it is one of the chain. Returns why it is refused, if so. The only error is that memory ran out.
fn play_event<R: Wait>(
    rt: &R,
    alloc: Global,
    shared: &SharedState,
    chain_thread: &mut ChainThread,
    event: &Event,
) -> Result<Option<EventError>, AllocError>
    requires { IsChainThread shared.now chain_thread.old }
    ensures chain_thread { GoesOnPlaying shared.now chain_thread.old chain_thread.new }
    ensures outcome { IfOk result (IsOutcome event.now (last_in chain_thread.new.a)
        (last_in chain_thread.new.b)) }
{
    match broadcast_in(event) {
        Some(broadcast) => broadcast_by(rt, alloc, shared, chain_thread, &broadcast),
        None => play_mining(rt, alloc, shared, &mut chain_thread.board_seat, event),
    }
}

/// Plays the events of the chain, in their order. Returns of each event why it was refused as one of the chain, if it was; a refused one changes nothing. The only error is that memory ran
/// out.
#[tactic(auto, using(crate::proofs::Same::plays_on, crate::proofs::Same::is_chain_thread, crate::proofs::Same::still_plays))]
pub(crate) fn play_chain<R: Wait>(
    rt: &R,
    alloc: Global,
    shared: &SharedState,
    events: &[Event],
    chain_thread: &mut ChainThread,
) -> Result<Vec<Option<EventError>>, AllocError>
    requires { IsChainThread shared.now chain_thread.old }
    ensures chain_thread { GoesOnPlaying shared.now chain_thread.old chain_thread.new }
    ensures plays { IfOk result (λ v. PlaysChain events.now (last_in chain_thread.old.a)
        (last_in chain_thread.old.b) v.items (last_in chain_thread.new.a)
        (last_in chain_thread.new.b)) }
{
    let mut outcomes = Vec::new(alloc);
    for index in 0..events.len() {
        let outcome = play_event(rt, alloc, shared, chain_thread, &events[index])?;
        outcomes.push(outcome)?;
    }
    Ok(outcomes)
}
