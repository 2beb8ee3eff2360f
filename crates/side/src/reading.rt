//! Reads blocks in two steps: what to ask before a block is read, and what is found with the answers.

ghost use Rattle.std.specs.Prelude.{◌≡◌, ◌≤◌, if◌then◌else◌, ◌∷◌, ◌++◌, [], filter, length, map, reverse, IfOk, OnOk};
ghost use Rattle.std.specs.List.{AllByRecursion, cons_option, filter_map, list_any};
ghost use Rattle.claim.specs.Claims.{IsWhole};
ghost use Rattle.side.specs.Due.{wanted_by, due_claims_of, Finds, FindsMore, with_preimages};
ghost use Rattle.side.specs.Reading.{FindsBlock};
ghost use Rattle.side.specs.Following.{seen_in, known_in};

use crate::due::DueClaim;
use crate::following::{Followed, teach_all, tell, unanswered, watches_of};
use crate::fundings::Fundings;
use crate::spent::Spent;
use chain::Block;
use claim::{Claim, Slot};
use lists::List;
use resolve::{Known, KnownPreimages};
use std::alloc::{AllocError, Global};
use std::collections::VecDeque;
use std::marker::Model;
use tx::OutPoint;
use watch::{Lookout, Watch};

/// A reader of blocks for all channels of a node. For each channel it has the funding output, the watch, and what is known of the channel, once that was answered. It also has the preimages that
/// blocks showed so far, and the claims that fell due.
///
/// Before a block is read, [`to_ask`](Reader::to_ask) says of which channels it wants to know more, and each is answered. A channel without an answer is read as one that is still open.
#[derive(Drop)]
pub struct Reader {
    fundings: Fundings,
    channels: Vec<Followed>,
    // Whether no channel has an answer, so that blocks give nothing.
    is_quiet: bool,
    learnt: Vec<[u8; 32]>,
    due: VecDeque<DueClaim>,
}

impl Model for Reader {
    ghost use Rattle.std.specs.Prelude.{◌≡◌, length};
    ghost use Rattle.std.specs.Bool.{OnTrue};
    ghost use Rattle.side.specs.Reading.{Reader as ReaderParts};
    ghost use Rattle.side.specs.Following.{AreOpen, reader_of};

    ghost Value = { ReaderParts };

    ghost view = { λ r. reader_of r.fundings r.channels.items r.learnt.items r.due.items };

    ghost invariant = { λ r. (length r.fundings ≡ length r.channels.items)
        × OnTrue r.is_quiet (AreOpen r.channels.items) };
}

/// What a reader holds at the end.
#[derive(Drop)]
pub struct ReadParts {
    /// The watch of each channel.
    pub watches: Vec<Watch>,
    /// The preimages that blocks showed, after those that the reader began with.
    pub learnt: Vec<[u8; 32]>,
    /// The claims that the blocks made due, in order.
    pub due: VecDeque<DueClaim>,
}

/// What a block gives: claims to be filled, and preimages.
#[derive(Drop)]
struct Found {
    due: VecDeque<DueClaim>,
    learnt: Vec<[u8; 32]>,
}

// Nothing found. Does not allocate.
fn nothing_found(alloc: Global) -> Found
    ensures due { result.due.items ≡ [] }
    ensures learnt { result.learnt.items ≡ [] }
{
    Found {
        due: VecDeque::new(alloc),
        learnt: Vec::new(alloc),
    }
}

// The first of the preimages that has the hash a slot asks for.
fn wanted_by(preimages: &KnownPreimages, slot: &Slot) -> Option<[u8; 32]>
    ensures { result ≡ wanted_by preimages.now slot.now }
{
    let Slot::Preimage(hash) = slot else {
        return None;
    };
    preimages.first_of(hash)
}

// Appends a preimage, if there is one.
fn push_some(preimages: &mut List<[u8; 32]>, preimage: Option<[u8; 32]>) -> Result<(), AllocError>
    ensures { OnOk result (preimages.new ≡ preimages.old ++ cons_option preimage []) }
{
    if let Some(preimage) = preimage {
        preimages.push(preimage)?;
    }
    Ok(())
}

// The preimages that slots ask for, in order. The only error is that memory ran out.
fn wanted_in(
    alloc: Global,
    preimages: &KnownPreimages,
    slots: &[Slot],
) -> Result<List<[u8; 32]>, AllocError>
    ensures { IfOk result (λ w. w ≡ filter_map (wanted_by preimages.now) slots.now) }
{
    let mut wanted = List::new(alloc);
    for slot in slots {
        push_some(&mut wanted, wanted_by(preimages, slot))?;
    }
    Ok(wanted)
}

// Claims on a channel's outputs, as due claims. The only error is that memory ran out.
fn due_claims_of(
    alloc: Global,
    channel: u64,
    preimages: &KnownPreimages,
    claims: Vec<Claim>,
) -> Result<VecDeque<DueClaim>, AllocError>
    ensures { IfOk result (λ due. due.items ≡ due_claims_of channel preimages.now claims.items) }
{
    let mut due = VecDeque::new(alloc);
    for claim in claims {
        let preimages = wanted_in(alloc, preimages, claim.slots())?;
        due.push_back(DueClaim {
            channel,
            claim,
            preimages,
        })?;
    }
    Ok(due)
}

// Adds preimages to what is known of a channel. The only error is that memory ran out.
fn with_preimages(alloc: Global, shown: &[[u8; 32]], known: Known) -> Result<Box<Known>, AllocError>
    ensures { IfOk result (λ k. k.value ≡ with_preimages shown.now known) }
{
    let mut known = known;
    known.preimages.extend(shown)?;
    Ok(Box::new(alloc, known)?)
}

// Reads a block for a channel, with what is known of it. The only error is that memory ran out.
fn look_by(
    alloc: Global,
    height: u64,
    block: &Block,
    channel: u64,
    lookout: &mut Lookout,
) -> Result<Found, AllocError>
    ensures found { IfOk result (λ f. Finds lookout.old.known height
        (reverse block.now.transactions) channel lookout.old.seen lookout.new.seen f.due.items
        f.learnt.items) }
    ensures known { OnOk result (lookout.new.known ≡ lookout.old.known) }
{
    let sight = lookout.look(alloc, height, block)?;
    let preimages = &lookout.known().preimages;
    let due = due_claims_of(alloc, channel, preimages, sight.claims)?;
    Ok(Found {
        due,
        learnt: sight.learnt,
    })
}

// Appends what was found. The only error is that memory ran out.
fn add(found: &mut Found, more: Found) -> Result<(), AllocError>
    ensures due { OnOk result (found.new.due.items ≡ found.old.due.items ++ more.due.items) }
    ensures learnt { OnOk result (found.new.learnt.items ≡ found.old.learnt.items
        ++ more.learnt.items) }
{
    let mut more = more;
    found.due.append(&mut more.due)?;
    found.learnt.append(&mut more.learnt)?;
    Ok(())
}

// Reads a block for a channel, and appends what it finds; that is nothing if the channel has no answer. The only error is that memory ran out.
fn read_channel(
    alloc: Global,
    height: u64,
    block: &Block,
    channel: u64,
    followed: &mut Followed,
    found: &mut Found,
) -> Result<(), AllocError>
    ensures found { OnOk result (FindsMore (known_in followed.old) height
        (reverse block.now.transactions) channel (seen_in followed.old) (seen_in followed.new)
        found.old.due.items found.new.due.items found.old.learnt.items found.new.learnt.items) }
    ensures known { OnOk result (known_in followed.new ≡ known_in followed.old) }
{
    match followed {
        Followed::Alone(_) => Ok(()),
        Followed::Known(lookout) => {
            let more = look_by(alloc, height, block, channel, lookout)?;
            add(found, more)
        }
    }
}

// Reads a block for all channels, with what is known of each. The only error is that memory ran out.
fn read_channels(
    alloc: Global,
    height: u64,
    block: &Block,
    channels: &mut [Followed],
) -> Result<Found, AllocError>
    ensures found { IfOk result (λ f. FindsBlock height (reverse block.now.transactions) 0
        (map known_in channels.old) (map seen_in channels.old) (map seen_in channels.new)
        f.due.items f.learnt.items) }
    ensures known { OnOk result (map known_in channels.new ≡ map known_in channels.old) }
{
    let mut found = nothing_found(alloc);
    for index in 0..channels.len() {
        let channel = index as u64;
        let followed = &mut channels[index];
        read_channel(alloc, height, block, channel, followed, &mut found)?;
    }
    Ok(found)
}

// Tells the proof that the claims of due claims were accepted.
fn hold_whole(due: &VecDeque<DueClaim>)
    ensures { AllByRecursion (λ j. IsWhole j.claim) due.now.items }
{
    for index in 0..due.len() {
        let _ = due[index].claim.path();
    }
}

// Appends a number, if a test holds.
fn push_if(numbers: &mut Vec<u64>, number: u64, holds: bool) -> Result<(), AllocError>
    ensures { OnOk result (numbers.new.items ≡ numbers.old.items
        ++ (if holds then number ∷ [] else [])) }
{
    if holds {
        numbers.push(number)?;
    }
    Ok(())
}

impl Reader {
    ghost use Rattle.std.specs.Prelude.{◌≡◌, ◌<◌, length, reverse, IfOk, OnOk, OnErr};
    ghost use Rattle.std.specs.List.{All, AllByRecursion};
    ghost use Rattle.claim.specs.Claims.{IsWhole};
    ghost use Rattle.side.specs.Reading.{IsInStep, begun, numbers_to_ask, with_answer, IsRead};

    /// A reader that has read no block. It takes the funding output and the watch of each channel, in the channels' order, and the preimages that earlier
    /// blocks showed.
    pub fn new(
        alloc: Global,
        fundings: Vec<OutPoint>,
        watches: Vec<Watch>,
        learnt: Vec<[u8; 32]>,
    ) -> Result<Reader, AllocError>
        requires { length fundings.items ≡ length watches.items }
        ensures { IfOk result (λ r. r ≡ begun fundings.items watches.items learnt.items) }
    {
        let channels = unanswered(alloc, watches)?;
        let fundings = Fundings::new(alloc, fundings)?;
        Ok(Reader {
            fundings,
            channels,
            is_quiet: true,
            learnt,
            due: VecDeque::new(alloc),
        })
    }

    /// The channels whose book has to say what it knows before this block is read, in increasing order. None of them has an answer yet, and a transaction
    /// that spends the funding output was read before or is in this block.
    pub fn to_ask(&self, alloc: Global, block: &Block) -> Result<Vec<u64>, AllocError>
        ensures exact { IfOk result (λ v. v.items ≡ numbers_to_ask 0 self.now.fundings self.now.seen
            self.now.knowns (reverse block.now.transactions)) }
        ensures within { IfOk result (λ v. All (λ c. c < length self.now.seen) v.items) }
        ensures in_step { IsInStep self.now }
    {
        let spent = Spent::by(alloc, block, &self.fundings)?;
        let mut channels = Vec::new(alloc);
        for index in 0..self.channels.len() {
            let followed = &self.channels[index];
            let asks = followed.is_to_ask(index, &spent);
            push_if(&mut channels, index as u64, asks)?;
        }
        Ok(channels)
    }

    /// Takes what is known of a channel, and adds the preimages that blocks showed so far. If memory runs out, the only error, the reader stays as it was.
    pub fn answer(&mut self, channel: u64, known: Known) -> Result<(), AllocError>
        requires { channel < length self.old.seen }
        ensures ok { OnOk result (self.new ≡ with_answer channel known self.old) }
        ensures err { OnErr result (self.new ≡ self.old) }
    {
        let alloc = *self.channels.allocator();
        let known = with_preimages(alloc, &self.learnt, known)?;
        self.is_quiet = false;
        tell(alloc, &mut self.channels[channel as usize], known);
        Ok(())
    }

    // The same as `read`, in place. After an error the reader must not be used.
    fn read_on(&mut self, alloc: Global, height: u64, block: &Block) -> Result<(), AllocError>
        ensures { OnOk result (IsRead height (reverse block.now.transactions) self.old self.new) }
    {
        if self.is_quiet {
            return Ok(());
        }
        let mut found = read_channels(alloc, height, block, &mut self.channels)?;
        teach_all(&mut self.channels, &found.learnt)?;
        self.due.append(&mut found.due)?;
        self.learnt.append(&mut found.learnt)?;
        Ok(())
    }

    /// Reads the block at a height, above the blocks read before, with what was answered of each channel. Claims that fall due are queued, each with the known preimages that its slots need.
    /// What the block shows is known of all channels from the next block on. The only error is that memory ran out, which drops the reader.
    pub fn read(self, alloc: Global, height: u64, block: &Block) -> Result<Reader, AllocError>
        ensures { IfOk result (IsRead height (reverse block.now.transactions) self) }
    {
        let mut reader = self;
        match reader.read_on(alloc, height, block) {
            Ok(()) => Ok(reader),
            Err(error) => Err(error),
        }
    }

    /// What the reader holds at the end. The claims are accepted ones. The only error is that memory ran out.
    pub fn into_parts(self) -> Result<ReadParts, AllocError>
        ensures watches { IfOk result (λ p. p.watches.items ≡ self.seen) }
        ensures learnt { IfOk result (λ p. p.learnt.items ≡ self.learnt) }
        ensures due { IfOk result (λ p. p.due.items ≡ self.jobs) }
        ensures whole { IfOk result (λ p. AllByRecursion (λ j. IsWhole j.claim) p.due.items) }
    {
        hold_whole(&self.due);
        let Reader {
            channels,
            learnt,
            due,
            ..
        } = self;
        let alloc = *channels.allocator();
        let watches = watches_of(alloc, channels)?;
        Ok(ReadParts {
            watches,
            learnt,
            due,
        })
    }
}
