//! A node's book: its channels, and the history of the calls that it accepted.

use crate::calls::{Batch, Call, Entry, Opening, Step};
use crate::errors::{
    CloseError, KeepError, KnowError, OpenError, ReleaseError, SignError, StepError,
};
use crate::fulfils::Fulfils;
use crate::limits::MAX_CHANNELS;
use crate::matching::hold_whole;
use crate::open_channel::{OpenChannel, Taken};
use crate::releasing::FilledTwice;
use channel::laws::sides_are_sound;
use channel::{Channel, Message};
use claim::Claim;
use filling::Filled;
use forms::SharedPatterns;
use indexmap::IndexMap;
use lists::List;
use penalty::{PenaltySet, RevokedState};
use resolve::Known;
use std::alloc::{AllocError, Global};
use std::marker::Model;
use tx::OutPoint;
use updates::Revocation;

/// A node's book. A contract sees it as its history, the oldest entry first.
#[derive(Drop)]
pub struct Book {
    alloc: Global,
    entries: Vec<Entry>,
    // the channels that the history leads to, each by its funding output
    channels: IndexMap<OutPoint, OpenChannel>,
    fulfils: Fulfils,
}

impl Model for Book {
    ghost use Rattle.std.specs.Prelude.{List as Values};
    ghost use Rattle.book.specs.declared.calls.Entry.{Entry as HistoryEntry};
    ghost use Rattle.book.specs.Fulfilled.{kept_by, AreBeside};

    ghost Value = { Values HistoryEntry };

    ghost view = { λ b. b.entries.items };

    ghost invariant = { λ b. AreBeside b.entries.items b.channels.entries (kept_by b.fulfils) };
}

// The first channel, if there is one.
fn first_channel(channels: &IndexMap<OutPoint, OpenChannel>) -> Option<&OpenChannel> {
    match channels.get_index(0) {
        Some((_, open)) => Some(open),
        None => None,
    }
}

impl Book {
    ghost use Rattle.std.specs.Prelude.{◌≡◌, ◌<◌, ◌++◌, ◌∷◌, [], true, length, slice_get, option_map, IfOk, IfErr, MatchResult};
    ghost use Rattle.std.specs.Vec.{vec_len, vec_capacity};
    ghost use Rattle.std.specs.Option.{option_and_then, option_copied};
    ghost use Rattle.channel.specs.Tokens.{peer_tokens};
    ghost use Rattle.book.specs.Accepted.{all_accepted, AreWhole};
    ghost use Rattle.book.specs.Guarding.{is_guarded, ArePenaltiesIn};
    ghost use Rattle.book.specs.Replies.{opened, signed, revoked, kept, released, closed};
    ghost use Rattle.book.specs.Calling.{IsCall, IsKeepRefusal, step_reply, filled_once};
    ghost use Rattle.book.specs.Books.{replay, kept_at, fundings_of};
    ghost use Rattle.book.specs.Knowing.{preimages_in, IsKnownIn, IsKnowRefusal};
    ghost use Rattle.book.specs.Revoked.{IsRevokedIn, early_keep_refusal};

    /// An empty book. Does not allocate.
    pub fn new(alloc: Global) -> Book
        ensures { result ≡ [] }
    {
        Book {
            alloc,
            entries: Vec::new(alloc),
            channels: IndexMap::new(alloc),
            fulfils: Fulfils::new(alloc),
        }
    }

    /// The history, the oldest entry first. Each entry's call was accepted after the entries before it, and each of its claims is an accepted one. No signature stands after a revocation in
    /// its channel unless the penalties of the revoked commitment were kept between the two.
    pub fn entries(&self) -> &[Entry]
        ensures value { result.now ≡ self.now }
        ensures accepted { all_accepted peer_tokens self.now ≡ true }
        ensures whole { AreWhole self.now }
        ensures guarded { is_guarded self.now ≡ true }
    {
        &self.entries
    }

    /// The number of channels.
    pub fn channel_count(&self) -> u64
        ensures { result ≡ length (replay self.now) }
    {
        self.channels.len() as u64
    }

    /// The patterns of the scripts, which the channels share. They are listed where there is no channel yet. The only error is that memory ran out.
    pub fn patterns(&self) -> Result<SharedPatterns, AllocError> {
        match first_channel(&self.channels) {
            Some(open) => open.patterns().share(),
            None => SharedPatterns::new(self.alloc),
        }
    }

    /// The channel with this index, if there is one.
    pub fn channel(&self, channel: u64) -> Option<&Channel>
        ensures { option_copied result ≡ option_map (λ ch. ch.state)
            (slice_get (replay self.now) channel) }
    {
        match self.channels.get_index(channel as usize) {
            Some((_, open)) => Some(open.channel()),
            None => None,
        }
    }

    /// Whether the penalties of the peer's revoked commitment of this number are kept. `None` where there is no such channel, or the commitment is not revoked.
    pub fn keeps(&self, channel: u64, number: u64) -> Option<bool>
        ensures { result ≡ option_and_then (λ ch. kept_at ch number)
            (slice_get (replay self.now) channel) }
    {
        match self.channels.get_index(channel as usize) {
            Some((_, open)) => open.keeps(number),
            None => None,
        }
    }

    /// The funding outputs of the channels, in the order in which they were opened. The only error is that memory ran out.
    pub fn fundings(&self, alloc: Global) -> Result<Vec<OutPoint>, AllocError>
        ensures { IfOk result (λ v. v.items ≡ fundings_of (replay self.now)) }
    {
        Vec::from_slice(alloc, self.channels.keys().as_slice())
    }

    // Files a call, for whose entry there is room.
    fn file(entries: &mut Vec<Entry>, seat: u32, call: Call)
        requires { vec_len entries.old < vec_capacity entries.old }
        ensures { entries.new.items ≡ entries.old.items ++ record { seat = seat; call = call } ∷ [] }
    {
        entries.push(Entry { seat, call }).unwrap();
    }

    /// Opens a channel and returns its index. Refused, in this order, with `BookFull` at 65,536 channels, `SameFunding` where a channel has the same funding output, and `BadSignature` where the token is not
    /// the peer's on this side's commitment 0. A refusal leaves the book as it was.
    pub fn open(&mut self, seat: u32, opening: Opening) -> Result<u64, OpenError>
        ensures { IsCall (opened result) self.old self.new seat (Call.Open opening) }
    {
        if self.channels.len() >= MAX_CHANNELS {
            return Err(OpenError::BookFull);
        }
        if self.channels.contains_key(&opening.terms.funding) {
            return Err(OpenError::SameFunding);
        }
        self.entries.reserve(1)?;
        self.fulfils.reserve_channel()?;
        let open = OpenChannel::open(self.alloc, &opening, first_channel(&self.channels))?;
        let index = self.channels.len() as u64;
        match self.channels.insert(opening.terms.funding, open) {
            Ok(old) => drop(old),
            Err(refused) => {
                drop(refused);
                return Err(OpenError::NoMemory);
            }
        }
        self.fulfils.add_channel(self.alloc);
        let call = Call::Open(opening);
        Book::file(&mut self.entries, seat, call);
        Ok(index)
    }

    /// Takes a step of a channel and returns the message that it sends or that answers it. Refused with `NoSuchChannel`, with `ChannelClosed` where this side closed the channel and the step is a
    /// `commitment_signed` or an update of its own other than a fulfil, and else with the channel's refusal. A refusal leaves the book as it was.
    pub fn step(
        &mut self,
        seat: u32,
        channel: u64,
        step: Step,
    ) -> Result<Option<Message>, StepError>
        ensures { IsCall (step_reply result) self.old self.new seat (Call.Step channel step) }
    {
        let index = channel as usize;
        if index >= self.channels.len() {
            return Err(StepError::NoSuchChannel);
        }
        self.entries.reserve(1)?;
        self.fulfils.reserve_preimage(index)?;
        let open = &mut self.channels[index];
        let taken = open.step(step)?;
        let Taken { step, message } = taken;
        self.fulfils.add_preimage(index, &step);
        let call = Call::Step { channel, step };
        Book::file(&mut self.entries, seat, call);
        Ok(message)
    }

    /// Receives the peer's `revoke_and_ack` (BOLT 2), and revokes nothing of this side's own: that is what `step` answers to a signature. Returns the number of the revoked commitment. Refused with
    /// `NoSuchChannel`, else with the channel's refusal. A refusal leaves the book as it was.
    pub fn revoke(
        &mut self,
        seat: u32,
        channel: u64,
        revocation: Revocation,
    ) -> Result<u64, StepError>
        ensures { IsCall (revoked result) self.old self.new seat (Call.Revoke channel revocation) }
    {
        let index = channel as usize;
        if index >= self.channels.len() {
            return Err(StepError::NoSuchChannel);
        }
        self.entries.reserve(1)?;
        let open = &mut self.channels[index];
        let number = open.revoke(&revocation)?;
        let call = Call::Revoke {
            channel,
            revocation,
        };
        Book::file(&mut self.entries, seat, call);
        Ok(number)
    }

    /// Signs the peer's next commitment and returns the message. Refused, in this order, with `NoSuchChannel`, `ChannelClosed`, `AwaitingRevocation`, `PenaltiesMissing` and the lowest number of a revoked
    /// commitment whose penalties are not kept, and `NoUpdates`. A refusal leaves the book as it was.
    pub fn sign(&mut self, seat: u32, channel: u64) -> Result<Message, SignError>
        ensures { IsCall (signed result) self.old self.new seat (Call.Sign channel) }
    {
        let index = channel as usize;
        if index >= self.channels.len() {
            return Err(SignError::NoSuchChannel);
        }
        self.entries.reserve(1)?;
        let open = &mut self.channels[index];
        let message = open.sign()?;
        let call = Call::Sign { channel };
        Book::file(&mut self.entries, seat, call);
        Ok(message)
    }

    /// Keeps the penalties of the peer's revoked commitment of this number as claims, where `keep_set` keeps the same as a set: not two things, but one. They are accepted claims on exactly what
    /// the commitment lets this side claim. Refused, in this order, with `NoSuchChannel`, `NotRevoked`, `AlreadyKept`, and `OtherState` where the claims are not its penalty set. A refusal leaves the
    /// book as it was.
    pub fn keep(
        &mut self,
        seat: u32,
        channel: u64,
        number: u64,
        claims: List<Claim>,
    ) -> Result<(), KeepError>
        ensures call { IsCall (kept result) self.old self.new seat
            (Call.Keep channel number claims) }
        ensures exact { IfOk result (λ _. ArePenaltiesIn channel number (replay self.old) claims) }
    {
        let index = channel as usize;
        if index >= self.channels.len() {
            return Err(KeepError::NoSuchChannel);
        }
        self.entries.reserve(1)?;
        let alloc = self.alloc;
        let open = &mut self.channels[index];
        open.keep(alloc, number, claims.values(), None)?;
        // By these calls the proof knows that the claims were accepted, and the peer's commitments can pay what they are for.
        hold_whole(claims.values());
        sides_are_sound();
        let call = Call::Keep {
            channel,
            number,
            claims,
        };
        Book::file(&mut self.entries, seat, call);
        Ok(())
    }

    /// Keeps a penalty set that was built outside the book, as `keep` does its claims: one entry and the same refusals in the same order, so not both are called. A set on the book's own revoked
    /// state of that number is not built again. A refusal leaves the book as it was.
    pub fn keep_set(
        &mut self,
        seat: u32,
        channel: u64,
        number: u64,
        set: PenaltySet,
    ) -> Result<(), KeepError>
        ensures call { IsCall (kept result) self.old self.new seat
            (Call.Keep channel number set.claims) }
        ensures exact { IfOk result (λ _. ArePenaltiesIn channel number (replay self.old)
            set.claims) }
    {
        let index = channel as usize;
        if index >= self.channels.len() {
            return Err(KeepError::NoSuchChannel);
        }
        self.entries.reserve(1)?;
        let alloc = self.alloc;
        let open = &mut self.channels[index];
        open.keep(alloc, number, set.claims(), Some(set.state()))?;
        hold_whole(set.claims());
        sides_are_sound();
        let call = Call::Keep {
            channel,
            number,
            claims: List::from_vec(set.into_claims()),
        };
        Book::file(&mut self.entries, seat, call);
        Ok(())
    }

    /// Fills the claims of a batch with the channel's signer. Refused with `NoSuchChannel`, else with the refusal of `fill`. A refusal leaves the book as it was.
    pub fn release(&mut self, seat: u32, channel: u64, batch: Batch) -> Result<Filled, ReleaseError>
        ensures { IsCall (released result) self.old self.new seat (Call.Release channel batch) }
    {
        let index = channel as usize;
        if index >= self.channels.len() {
            return Err(ReleaseError::NoSuchChannel);
        }
        self.entries.reserve(1)?;
        let open = &self.channels[index];
        let filled = open.release(self.alloc, &batch)?;
        hold_whole(batch.claims.values());
        let call = Call::Release { channel, batch };
        Book::file(&mut self.entries, seat, call);
        Ok(filled)
    }

    /// The same, and hands out the transaction twice. It is filled once. A refusal leaves the book as it was.
    pub fn release_twice(
        &mut self,
        seat: u32,
        channel: u64,
        batch: Batch,
    ) -> Result<FilledTwice, ReleaseError>
        ensures call { IsCall (released (filled_once result)) self.old self.new seat
            (Call.Release channel batch) }
        ensures copy { IfOk result (λ r. r.copy ≡ r.filled.tx) }
    {
        let index = channel as usize;
        if index >= self.channels.len() {
            return Err(ReleaseError::NoSuchChannel);
        }
        self.entries.reserve(1)?;
        let open = &self.channels[index];
        let twice = open.release_twice(self.alloc, &batch)?;
        hold_whole(batch.claims.values());
        let call = Call::Release { channel, batch };
        Book::file(&mut self.entries, seat, call);
        Ok(twice)
    }

    /// Closes a channel and returns the number of this side's newest commitment, which the caller then broadcasts (BOLT 5, "Unilateral Close Handling: Local Commitment Transaction"). From then on the
    /// channel takes no `commitment_signed`, signs nothing, and makes no update of its own but a fulfil. So this commitment stays the newest, and its secret is not given out. Called again, it returns the
    /// same number. Refused with `NoSuchChannel`. A refusal leaves the book as it was.
    pub fn close(&mut self, seat: u32, channel: u64) -> Result<u64, CloseError>
        ensures { IsCall (closed result) self.old self.new seat (Call.Close channel) }
    {
        let index = channel as usize;
        if index >= self.channels.len() {
            return Err(CloseError::NoSuchChannel);
        }
        self.entries.reserve(1)?;
        let open = &mut self.channels[index];
        let number = open.close();
        let call = Call::Close { channel };
        Book::file(&mut self.entries, seat, call);
        Ok(number)
    }

    /// The state of the peer's revoked commitment of this number, from which its penalties are built. Refused, in this order, with `NoSuchChannel`, `NotRevoked` and `AlreadyKept`.
    pub fn revoked(&self, channel: u64, number: u64) -> Result<RevokedState, KeepError>
        ensures { let there = slice_get (replay self.now) channel
            in MatchResult result (IsRevokedIn number there)
            (IsKeepRefusal (early_keep_refusal number there)) }
    {
        let index = channel as usize;
        if index >= self.channels.len() {
            return Err(KeepError::NoSuchChannel);
        }
        self.channels[index].revoked(number)
    }

    /// The preimages of a channel's fulfils, made or received, in the order of the history, with repeats. Empty where there is no such channel.
    pub fn preimages(&self, channel: u64) -> &[[u8; 32]]
        ensures { result.now ≡ preimages_in channel self.now }
    {
        self.fulfils.of(channel)
    }

    /// What the book knows of a channel, with the preimages of its fulfils in the order of the history. Refused with `NoSuchChannel`. Its running time depends on the commitments and preimages of this
    /// channel, not on the length of the history.
    pub fn known(&self, channel: u64) -> Result<Known, KnowError>
        ensures known { IfOk result (IsKnownIn self.now channel
            (slice_get (replay self.now) channel)) }
        ensures err { IfErr result (IsKnowRefusal (slice_get (replay self.now) channel)) }
    {
        let index = channel as usize;
        if index >= self.channels.len() {
            return Err(KnowError::NoSuchChannel);
        }
        let open = &self.channels[index];
        let preimages = Vec::from_slice(self.alloc, self.fulfils.of(channel))?;
        Ok(open.known(self.alloc, preimages)?)
    }
}
