//! The threads that read blocks.

ghost use Rattle.std.specs.Prelude.{◌≡◌, ◌<◌, length, map, option_map, replicate, reverse, All, IfOk, OnOk};
ghost use Rattle.watch.specs.Watching.{nothing_seen, seen_up_to};
ghost use Rattle.jobs.specs.Ends.{PutsWith, hand_of};
ghost use Rattle.side.specs.Reading.{begun as begun_with};
ghost use Rattle.desk.specs.Seats.{IsSeatOf, HasSameCalls, last_in};
ghost use Rattle.running.specs.Threads.{IsWatcher, GoesOnWatching};
ghost use Rattle.running.specs.Acting.{PutsClaims};
ghost use Rattle.running.specs.Following.{IsFollower, IsSight, HasBegun, IsNext, told_block, Finds, FindsSome, AreAnswered, IsAnsweredFor, HasAsked, IsRenewed, GoesBack, ReadsAgain, GoesOnReading};

use crate::endpoints::put;
use crate::shared::{SharedState, SideState};
use board::Mark;
use chain::{Block, Coins};
use desk::Seat;
use jobs::{JobSender, Pass};
use node::{Job, Pool};
use side::{DueClaim, ReadParts, Reader};
use std::alloc::{AllocError, Global};
use std::collections::VecDeque;
use std::sync::Wait;
use tx::OutPoint;
use watch::Watch;

/// What a watcher's thread has of its own.
#[derive(Drop)]
pub(crate) struct Watcher {
    /// Its seat at its side's desk.
    pub(crate) seat: Seat,
    pub(crate) board_seat: board::Seat,
    /// Where it puts the side's jobs.
    pub(crate) sender: JobSender<Job>,
    pub(crate) pass: Pass<Job>,
}

/// How far a watcher has read.
#[derive(Drop)]
pub(crate) struct Follower {
    pub(crate) reader: Reader,
    /// The number of reorganisations before what it read.
    pub(crate) round: u64,
    /// The height of the newest block that it read.
    pub(crate) height: u64,
    /// No block follows.
    pub(crate) is_done: bool,
}

/// What a watcher finds where it looks for the next block.
#[derive(Drop)]
pub(crate) enum Sight {
    /// It read the next block, or there is none.
    Read(Follower),
    /// More has to be known of these channels before the next block is read.
    Asks(Follower, Vec<u64>),
    /// Blocks above this height were replaced since it read, and this many reorganisations happened so far.
    Back(Follower, u64, u64),
}

// Whether all is read that a mark of the board tells of.
fn has_read(follower: &Follower, mark: Mark) -> bool {
    follower.round == u64::from(mark.round) && follower.height == u64::from(mark.height)
}

// ---- the next block

// Reads a block, unless more has to be known of a channel. The only error is that memory ran out.
#[tactic(auto, using(crate::proofs::Lengths::read_as_many))]
fn read_next(
    alloc: Global,
    block: &Block,
    height: u64,
    follower: Follower,
) -> Result<Sight, AllocError>
    ensures follows { IfOk result (IsSight (length follower.reader.seen)) }
    ensures next { IfOk result (IsNext height (reverse block.now.transactions) follower) }
{
    let channels = follower.reader.to_ask(alloc, block)?;
    if !channels.is_empty() {
        return Ok(Sight::Asks(follower, channels));
    }
    let Follower { reader, round, .. } = follower;
    let reader = reader.read(alloc, height, block)?;
    Ok(Sight::Read(Follower {
        reader,
        round,
        height,
        is_done: false,
    }))
}

// The block of a chain at a height, if it is there and not above the top.
#[tactic(auto, using(crate::proofs::Finding::told, crate::proofs::Finding::not_told))]
fn told_block(pool: &Pool, top: u64, height: u64) -> Option<&Block>
    ensures { option_map (λ b. b.now) result ≡ told_block pool.now top height }
{
    if height > top {
        return None;
    }
    pool.chain.block_at(height)
}

// Looks for the next block up to the top, of a chain that no thread changes meanwhile. The only error is that memory ran out.
fn look_at(alloc: Global, pool: &Pool, top: u64, follower: Follower) -> Result<Sight, AllocError>
    ensures follows { IfOk result (IsSight (length follower.reader.seen)) }
    ensures found { IfOk result (Finds pool.now top follower) }
{
    let round = pool.round();
    if follower.round != round {
        let fork = pool.fork_since(follower.round, follower.height);
        return Ok(Sight::Back(follower, fork, round));
    }
    let height = follower.height.saturating_add(1);
    match told_block(pool, top, height) {
        Some(block) => read_next(alloc, block, height, follower),
        None => Ok(Sight::Read(follower)),
    }
}

// Looks for the next block up to the top. The only error is that memory ran out.
fn look<R: Wait>(
    rt: &R,
    alloc: Global,
    shared: &SharedState,
    top: u64,
    follower: Follower,
) -> Result<Sight, AllocError>
    ensures follows { IfOk result (IsSight (length follower.reader.seen)) }
    ensures found { IfOk result (FindsSome top follower) }
{
    let pool = shared.chain.pool.lock(rt);
    look_at(alloc, &*pool, top, follower)
}

// ---- what is known

// Asks the desk what is known of a channel. The only error is that memory ran out: the desk has each channel whose funding output is followed.
fn answer<R: Wait>(
    rt: &R,
    side: &SideState,
    seat: &mut Seat,
    reader: &mut Reader,
    channel: u64,
) -> Result<(), AllocError>
    requires seat { IsSeatOf side.now.desk seat.old }
    requires channel { channel < length reader.old.seen }
    ensures seat { HasSameCalls side.now.desk seat.old seat.new }
    ensures reader { OnOk result (IsAnsweredFor (last_in seat.old) (last_in seat.new) channel
        reader.old reader.new) }
{
    match side.desk.known(rt, seat, channel) {
        Ok(known) => reader.answer(channel, known),
        Err(_) => Err(AllocError),
    }
}

// Asks the desk of each channel. The only error is that memory ran out.
#[tactic(auto, using(crate::proofs::Same::same_calls, crate::proofs::Same::still_same))]
fn answer_each<R: Wait>(
    rt: &R,
    side: &SideState,
    seat: &mut Seat,
    reader: &mut Reader,
    channels: &[u64],
) -> Result<(), AllocError>
    requires seat { IsSeatOf side.now.desk seat.old }
    requires channels { All (λ c. c < length reader.old.seen) channels.now }
    ensures seat { HasSameCalls side.now.desk seat.old seat.new }
    ensures reader { OnOk result (length reader.new.seen ≡ length reader.old.seen) }
    ensures asked { OnOk result (AreAnswered (last_in seat.old) (last_in seat.new) channels.now
        reader.old reader.new) }
{
    for channel in channels {
        answer(rt, side, seat, reader, *channel)?;
    }
    Ok(())
}

// The same for a follower. The only error is that memory ran out.
fn answer_follower<R: Wait>(
    rt: &R,
    side: &SideState,
    seat: &mut Seat,
    before: Follower,
    channels: &[u64],
) -> Result<Follower, AllocError>
    requires seat { IsSeatOf side.now.desk seat.old }
    requires channels { All (λ c. c < length before.reader.seen) channels.now }
    ensures seat { HasSameCalls side.now.desk seat.old seat.new }
    ensures follower { IfOk result (IsFollower (length before.reader.seen)) }
    ensures asked { IfOk result (HasAsked (last_in seat.old) (last_in seat.new) channels.now
        before) }
{
    let Follower {
        mut reader,
        round,
        height,
        is_done,
    } = before;
    answer_each(rt, side, seat, &mut reader, channels)?;
    Ok(Follower {
        reader,
        round,
        height,
        is_done,
    })
}

// ---- what fell due

// A watch forgets what it saw above a height.
fn back_on(watch: &mut Watch, height: u64)
    ensures { watch.new ≡ seen_up_to height watch.old }
{
    watch.back(height);
}

// The same for each watch.
fn back_all(watches: &mut [Watch], height: u64)
    ensures { watches.new ≡ map (seen_up_to height) watches.old }
{
    for index in 0..watches.len() {
        back_on(&mut watches[index], height);
    }
}

// Shows the side's other threads the preimages that blocks showed. The only error is that memory ran out.
fn teach<R: Wait>(
    rt: &R,
    alloc: Global,
    side: &SideState,
    preimages: &[[u8; 32]],
) -> Result<(), AllocError> {
    let copies = Vec::from_slice(alloc, preimages)?;
    *side.learnt.lock(rt) = copies;
    Ok(())
}

// Shows the side's other threads what was learnt, and forgets what watches saw above a height. Returns the side's funding outputs; the only error is that memory ran out.
fn teach_and_forget<R: Wait>(
    rt: &R,
    alloc: Global,
    side: &SideState,
    watches: &mut [Watch],
    learnt: &[[u8; 32]],
    height: u64,
) -> Result<Vec<OutPoint>, AllocError>
    ensures watches { OnOk result (watches.new ≡ map (seen_up_to height) watches.old) }
    ensures fundings { IfOk result (λ v. v.items ≡ side.now.fundings.items) }
{
    teach(rt, alloc, side, learnt)?;
    back_all(watches, height);
    let fundings = Vec::from_slice(alloc, &side.fundings)?;
    Ok(fundings)
}

// A reader with what these watches saw up to a height. The only error is that memory ran out.
fn reader_from<R: Wait>(
    rt: &R,
    alloc: Global,
    side: &SideState,
    watches: Vec<Watch>,
    learnt: Vec<[u8; 32]>,
    height: u64,
) -> Result<Reader, AllocError>
    requires { length side.now.fundings.items ≡ length watches.items }
    ensures { IfOk result (λ r. r ≡ begun_with side.now.fundings.items
        (map (seen_up_to height) watches.items) learnt.items) }
{
    let mut watches = watches;
    let fundings = teach_and_forget(rt, alloc, side, &mut watches, &learnt, height)?;
    Reader::new(alloc, fundings, watches, learnt)
}

// Puts claims as a job, if there are any.
fn put_claims<R: Wait>(
    rt: &R,
    side: &SideState,
    sender: &JobSender<Job>,
    pass: &mut Pass<Job>,
    due: VecDeque<DueClaim>,
)
    requires { PutsWith sender.now pass.old }
    ensures pass { PutsWith sender.now pass.new }
    ensures put { PutsClaims due.items (hand_of pass.old) (hand_of pass.new) }
{
    if !due.is_empty() {
        put(rt, &side.progress, sender, pass, Job::Claims(due));
    }
}

// Puts what fell due as a job, and goes on from what stands up to a height. The only error is that memory ran out.
fn renew_reader<R: Wait>(
    rt: &R,
    alloc: Global,
    shared: &SharedState,
    side: &SideState,
    watcher: &mut Watcher,
    reader: Reader,
    height: u64,
) -> Result<Reader, AllocError>
    requires watcher { IsWatcher side.now shared.now.board watcher.old }
    requires reader { length reader.seen ≡ length side.now.fundings.items }
    ensures watcher { GoesOnWatching side.now shared.now.board watcher.old watcher.new }
    ensures reader { IfOk result (IsRenewed side.now.fundings.items height reader) }
    ensures put { OnOk result (PutsClaims reader.jobs (hand_of watcher.old.pass)
        (hand_of watcher.new.pass)) }
{
    let _shared = shared;
    let ReadParts {
        watches,
        learnt,
        due,
    } = reader.into_parts()?;
    put_claims(rt, side, &watcher.sender, &mut watcher.pass, due);
    reader_from(rt, alloc, side, watches, learnt, height)
}

// ---- the thread

// Goes back to the height of a fork. The only error is that memory ran out.
fn go_back<R: Wait>(
    rt: &R,
    alloc: Global,
    shared: &SharedState,
    side: &SideState,
    watcher: &mut Watcher,
    follower: Follower,
    fork: u64,
    round: u64,
) -> Result<Follower, AllocError>
    requires watcher { IsWatcher side.now shared.now.board watcher.old }
    requires follower { IsFollower (length side.now.fundings.items) follower }
    ensures watcher { GoesOnWatching side.now shared.now.board watcher.old watcher.new }
    ensures follows { IfOk result (IsFollower (length side.now.fundings.items)) }
    ensures back { IfOk result (ReadsAgain side.now.fundings.items fork round follower) }
{
    let Follower { reader, .. } = follower;
    let reader = renew_reader(rt, alloc, shared, side, watcher, reader, fork)?;
    Ok(Follower {
        reader,
        round,
        height: fork,
        is_done: false,
    })
}

// Looks for the next block up to the top, and does what has to be done before it is read. The only error is that memory ran out.
fn go_on<R: Wait>(
    rt: &R,
    alloc: Global,
    shared: &SharedState,
    side: &SideState,
    watcher: &mut Watcher,
    top: u64,
    follower: Follower,
) -> Result<Follower, AllocError>
    requires watcher { IsWatcher side.now shared.now.board watcher.old }
    requires follower { IsFollower (length side.now.fundings.items) follower }
    ensures watcher { GoesOnWatching side.now shared.now.board watcher.old watcher.new }
    ensures follows { IfOk result (IsFollower (length side.now.fundings.items)) }
    ensures reads { IfOk result (GoesOnReading side.now.fundings.items
        (last_in watcher.old.seat) (last_in watcher.new.seat) top follower) }
{
    let sight = look(rt, alloc, shared, top, follower)?;
    match sight {
        Sight::Read(follower) => Ok(follower),
        Sight::Asks(follower, channels) => {
            answer_follower(rt, side, &mut watcher.seat, follower, &channels)
        }
        Sight::Back(follower, fork, round) => {
            go_back(rt, alloc, shared, side, watcher, follower, fork, round)
        }
    }
}

// Puts what fell due as a job, and waits for a block. The only error is that memory ran out.
fn wait_for_block<R: Wait>(
    rt: &R,
    alloc: Global,
    shared: &SharedState,
    side: &SideState,
    watcher: &mut Watcher,
    follower: Follower,
) -> Result<Follower, AllocError>
    requires watcher { IsWatcher side.now shared.now.board watcher.old }
    requires follower { IsFollower (length side.now.fundings.items) follower }
    ensures watcher { GoesOnWatching side.now shared.now.board watcher.old watcher.new }
    ensures follows { IfOk result (IsFollower (length side.now.fundings.items)) }
    ensures back { IfOk result (GoesBack side.now.fundings.items follower.height
        follower.round follower) }
{
    let Follower {
        reader,
        round,
        height,
        ..
    } = follower;
    let reader = renew_reader(rt, alloc, shared, side, watcher, reader, height)?;
    Ok(Follower {
        reader,
        round,
        height,
        is_done: shared.chain.wait_at(rt, round, height),
    })
}

// Goes on by one step. It looks at the board first, so that the chain is not locked if nothing is new, and reads up to the height found there. The only error is that memory ran out.
fn step<R: Wait>(
    rt: &R,
    alloc: Global,
    shared: &SharedState,
    side: &SideState,
    watcher: &mut Watcher,
    follower: Follower,
) -> Result<Follower, AllocError>
    requires watcher { IsWatcher side.now shared.now.board watcher.old }
    requires follower { IsFollower (length side.now.fundings.items) follower }
    ensures watcher { GoesOnWatching side.now shared.now.board watcher.old watcher.new }
    ensures follower { IfOk result (IsFollower (length side.now.fundings.items)) }
{
    let mark = shared.board.look(&mut watcher.board_seat);
    if has_read(&follower, mark) {
        wait_for_block(rt, alloc, shared, side, watcher, follower)
    } else {
        let top = u64::from(mark.height);
        go_on(rt, alloc, shared, side, watcher, top, follower)
    }
}

// As many watches that have read no block. The only error is that memory ran out.
fn new_watches(alloc: Global, count: usize) -> Result<Vec<Watch>, AllocError>
    ensures { IfOk result (λ v. v.items ≡ replicate count nothing_seen) }
{
    let mut watches = Vec::new(alloc);
    for _channel in 0..count {
        watches.push(Watch::new(alloc))?;
    }
    Ok(watches)
}

// A follower of a side's channels that has read the first block only. The only error is that memory ran out.
fn new_follower(alloc: Global, side: &SideState) -> Result<Follower, AllocError>
    ensures follows { IfOk result (IsFollower (length side.now.fundings.items)) }
    ensures begun { IfOk result (HasBegun side.now.fundings.items) }
{
    let fundings = Vec::from_slice(alloc, &side.fundings)?;
    let watches = new_watches(alloc, fundings.len())?;
    let reader = Reader::new(alloc, fundings, watches, Vec::new(alloc))?;
    Ok(Follower {
        reader,
        round: 0,
        height: 0,
        is_done: false,
    })
}

// Follows the chain until no block follows. The only error is that memory ran out.
#[tactic(auto, using(crate::proofs::Same::watches_on, crate::proofs::Same::is_watcher, crate::proofs::Same::still_watches))]
fn follow<R: Wait>(
    rt: &R,
    alloc: Global,
    shared: &SharedState,
    side: &SideState,
    watcher: &mut Watcher,
) -> Result<(), AllocError>
    requires { IsWatcher side.now shared.now.board watcher.old }
    ensures { GoesOnWatching side.now shared.now.board watcher.old watcher.new }
{
    let mut follower = new_follower(alloc, side)?;
    for _ in rt.forever() {
        follower = step(rt, alloc, shared, side, watcher, follower)?;
        if follower.is_done {
            return Ok(());
        }
    }
    unreachable!()
}

/// Reads the blocks for a side until none follows, and puts the claims that fall due as jobs. If memory runs out, it gives up and says so. Gives its seat back, which has
/// made no call.
pub(crate) fn watch<R: Wait>(
    rt: &R,
    alloc: Global,
    shared: &SharedState,
    side: &SideState,
    mine: Watcher,
) -> Seat
    requires { IsWatcher side.now shared.now.board mine }
    ensures { HasSameCalls side.now.desk mine.seat result }
{
    let mut watcher = mine;
    if follow(rt, alloc, shared, side, &mut watcher).is_err() {
        shared.chain.fail();
    }
    let Watcher { seat, .. } = watcher;
    seat
}
