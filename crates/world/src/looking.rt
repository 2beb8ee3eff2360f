//! How a side reads blocks.

ghost use Rattle.std.specs.Prelude.{◌≡◌, ◌<◌, ◌+◌, map, length, reverse, drop, slice_get, IfOk, IfErr, OnOk, OnErr};
ghost use Rattle.std.specs.Bool.{OnTrue};
ghost use Rattle.std.specs.List.{AllByRecursion};
ghost use Rattle.claim.specs.Claims.{IsWhole};
ghost use Rattle.book.specs.Books.{replay, fundings_of};
ghost use Rattle.book.specs.Knowing.{IsKnownIn};
ghost use Rattle.side.specs.Reading.{begun};
ghost use Rattle.world.specs.declared.errors.EventError.TheVariants.{NoMemory};
ghost use Rattle.world.specs.Looking.{IsAfter, Reads, Upward, reading_of, reading_in, parts_read, with_seen, with_reading, Looks, seen_back_to, back_to};
ghost use Rattle.world.specs.Asking.{AreKnown, AreReady};
ghost use Rattle.world.specs.Quiet.{AreQuiet, IsQuiet};

use crate::errors::EventError;
use crate::nodes::{Line, Node};
use book::Book;
use book::errors::KnowError;
use chain::{Block, Coins, Index};
use resolve::Known;
use side::{ReadParts, Reader};
use std::alloc::{AllocError, Global};
use watch::Watch;
use watch::laws::empty_blocks_give_nothing;

// What the book knows of one of its channels. The only error is that memory ran out.
fn known_by(book: &Book, channel: u64) -> Result<Known, AllocError>
    requires { channel < length (replay book.now) }
    ensures { IfOk result (IsKnownIn book.now channel (slice_get (replay book.now) channel)) }
{
    match book.known(channel) {
        Ok(known) => Ok(known),
        Err(KnowError::NoMemory) => Err(AllocError),
        Err(KnowError::NoSuchChannel) => unreachable!(),
    }
}

// Asks the book what is known of each channel that the reader wants answered before it reads a block. The only error is that memory ran out.
fn answer_all(
    alloc: Global,
    book: &Book,
    block: &Block,
    reader: &mut Reader,
) -> Result<(), AllocError>
    requires fundings { reader.old.fundings ≡ fundings_of (replay book.now) }
    requires known { AreKnown book.now reader.old.learnt reader.old.knowns }
    ensures ready { OnOk result (AreReady book.now reader.old.learnt 0 reader.new.knowns
        reader.old.seen (reverse block.now.transactions)) }
    ensures known { OnOk result (AreKnown book.now reader.old.learnt reader.new.knowns) }
    ensures same { OnOk result (reader.new ≡ record reader.old { knowns = reader.new.knowns }) }
{
    let channels = reader.to_ask(alloc, block)?;
    for channel in &channels {
        let known = known_by(book, *channel)?;
        reader.answer(*channel, known)?;
    }
    Ok(())
}

// Reads a block for a side; what it shows is known from the next block on. The only error is that memory ran out.
fn read_block(
    alloc: Global,
    book: &Book,
    height: u64,
    block: &Block,
    reader: Reader,
) -> Result<Reader, AllocError>
    requires fundings { reader.fundings ≡ fundings_of (replay book.now) }
    requires known { AreKnown book.now reader.learnt reader.knowns }
    ensures after { IfOk result (λ r. IsAfter book.now height (reverse block.now.transactions)
        (reading_in reader) (reading_in r)) }
    ensures known { IfOk result (λ r. AreKnown book.now r.learnt r.knowns) }
    ensures fundings { IfOk result (λ r. r.fundings ≡ reader.fundings) }
{
    let mut reader = reader;
    answer_all(alloc, book, block, &mut reader)?;
    reader.read(alloc, height, block)
}

// Copies of the watches of all channels. The only error is that memory ran out.
fn copied_watches(alloc: Global, lines: &[Line]) -> Result<Vec<Watch>, AllocError>
    ensures { IfOk result (λ v. v.items ≡ map (λ line. line.seen) lines.now) }
{
    let mut watches = Vec::new(alloc);
    for line in lines {
        watches.push(line.watch.copy()?)?;
    }
    Ok(watches)
}

// The reader of a side that is about to look, without answers. The only error is that memory ran out.
fn reader_of(alloc: Global, me: &Node) -> Result<Reader, AllocError>
    ensures { IfOk result (λ r. r ≡ begun (fundings_of (replay me.now.history))
        (map (λ line. line.seen) me.now.lines) me.now.learnt) }
{
    let fundings = me.book.fundings(alloc)?;
    let learnt = Vec::from_slice(alloc, &me.learnt)?;
    let watches = copied_watches(alloc, &me.lines)?;
    Reader::new(alloc, fundings, watches, learnt)
}

// The height up to which the blocks give a side nothing. Above what it has read, these are empty blocks, if the side is quiet.
fn quiet_up_to(me: &Node, is_quiet: bool, chain: &Index) -> u64
    requires { OnTrue is_quiet (IsQuiet me.now) }
    ensures { Upward me.now.history (reverse chain.now.blocks) me.now.read
        (reading_of me.now) result (reading_of me.now) }
{
    empty_blocks_give_nothing();
    if !is_quiet {
        return me.read;
    }
    let mut quiet = me.read;
    for read in me.read..chain.height() {
        let height = read + 1;
        let Some(block) = chain.block_at(height) else {
            unreachable!()
        };
        if !block.transactions().is_empty() {
            return quiet;
        }
        quiet = height;
    }
    quiet
}

// Reads all blocks that a side has not read yet, of which those up to a height give it nothing. The only error is that memory ran out.
fn read_blocks(alloc: Global, me: &Node, from: u64, chain: &Index) -> Result<Reader, AllocError>
    requires { Upward me.now.history (reverse chain.now.blocks) me.now.read
        (reading_of me.now) from (reading_of me.now) }
    ensures { IfOk result (λ r. Reads me.now.history (me.now.read + 1)
        (drop (me.now.read + 1) (reverse chain.now.blocks)) (reading_of me.now) (reading_in r)) }
{
    let mut reader = reader_of(alloc, me)?;
    for read in from..chain.height() {
        let height = read + 1;
        let Some(block) = chain.block_at(height) else {
            unreachable!()
        };
        reader = read_block(alloc, &me.book, height, block, reader)?;
    }
    Ok(reader)
}

// Whether a side is quiet once it has stored what it read. It is after a block, if no block showed a preimage; and if there was none, it is as before.
fn is_quiet_after(me: &Node, was_quiet: bool, chain: &Index, parts: &ReadParts) -> bool
    requires quiet { OnTrue was_quiet (IsQuiet me.now) }
    requires reads { Reads me.now.history (me.now.read + 1)
        (drop (me.now.read + 1) (reverse chain.now.blocks)) (reading_of me.now)
        (parts_read parts.now) }
    ensures { OnTrue result (AreQuiet me.now.history parts.now.learnt.items 0
        parts.now.watches.items) }
{
    empty_blocks_give_nothing();
    if parts.learnt.len() != me.learnt.len() {
        return false;
    }
    if me.read < chain.height() {
        return true;
    }
    was_quiet
}

// Gives a channel this watch.
fn put_watch(line: &mut Line, watch: Watch)
    ensures { line.new ≡ record line.old { seen = watch } }
{
    line.watch = watch;
}

// Gives each channel the watch at its index; there are as many watches as channels.
fn put_watches(lines: &mut [Line], watches: Vec<Watch>)
    requires { length watches.items ≡ length lines.old }
    ensures { lines.new ≡ with_seen watches.items lines.old }
{
    let mut index = 0;
    for watch in watches {
        put_watch(&mut lines[index], watch);
        index += 1;
    }
}

// Stores in a side what it has read, up to a height. If memory runs out, the only error, the side stays as it was.
fn take_over(me: &mut Node, height: u64, parts: ReadParts) -> Result<(), AllocError>
    requires lines { length parts.watches.items ≡ length me.old.lines }
    requires jobs { AllByRecursion (λ j. IsWhole j.claim) parts.due.items }
    ensures ok { OnOk result (me.new ≡ with_reading height (parts_read parts) me.old) }
    ensures err { OnErr result (me.new ≡ me.old) }
{
    let ReadParts {
        watches,
        learnt,
        mut due,
    } = parts;
    me.jobs.append(&mut due)?;
    me.learnt = learnt;
    put_watches(&mut me.lines, watches);
    me.read = me.read.max(height);
    Ok(())
}

/// Reads all blocks that a side has not read yet, the oldest first, and each block channel by channel. Claims that fall due are queued as jobs, each with the known
/// preimages that its slots need. What a block shows is known of all channels from the next block on. Returns the number of new jobs. If memory runs out, the only error,
/// the side stays as it was.
///
/// The flag says that an empty block gives the side nothing. While it holds, the first of the blocks are passed over, up to one with a transaction.
pub(crate) fn look(
    alloc: Global,
    me: &mut Node,
    is_quiet: &mut bool,
    chain: &Index,
) -> Result<u64, EventError>
    requires { OnTrue is_quiet.old (IsQuiet me.old) }
    ensures looks { IfOk result (Looks me.old chain.now.blocks me.new) }
    ensures memory { IfErr result (λ e. e ≡ NoMemory) }
    ensures err { OnErr result (me.new ≡ me.old) }
    ensures quiet { OnTrue is_quiet.new (IsQuiet me.new) }
{
    let was_quiet = *is_quiet;
    *is_quiet = false;
    let from = quiet_up_to(me, was_quiet, chain);
    let parts = read_blocks(alloc, me, from, chain)?.into_parts()?;
    let quiet = is_quiet_after(me, was_quiet, chain, &parts);
    let count = parts.due.len() as u64;
    take_over(me, chain.height(), parts)?;
    *is_quiet = quiet;
    Ok(count)
}

// The watch of a channel discards everything seen above a height.
fn back_on(line: &mut Line, height: u64)
    ensures { line.new ≡ seen_back_to height line.old }
{
    line.watch.back(height);
}

// The watches of all channels discard everything seen above a height.
fn back_all(lines: &mut [Line], height: u64)
    ensures { lines.new ≡ map (seen_back_to height) lines.old }
{
    for index in 0..lines.len() {
        back_on(&mut lines[index], height);
    }
}

/// Takes a side back to a height: its watches discard everything seen above it, and the side will read those heights again. What it learnt, its jobs and the claims that it
/// took stay. Does not allocate.
pub(crate) fn back(me: &mut Node, height: u64)
    ensures { me.new ≡ back_to height me.old }
{
    back_all(&mut me.lines, height);
    me.read = me.read.min(height);
}
