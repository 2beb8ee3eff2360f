//! One side of the world.

use crate::errors::EventError;
use crate::limits::SEAT;
use book::errors::{KeepError, OpenError, ReleaseError};
use book::{Batch, Book, Call, FilledTwice, Opening, Reply, message_of};
use channel::Message;
use penalty::PenaltySet;
use side::DueClaim;
use std::alloc::Global;
use std::collections::VecDeque;
use std::marker::Model;
use watch::Watch;

/// What a side has of a channel besides its book.
#[derive(Drop)]
pub(crate) struct Line {
    /// The messages on their way to the side, the oldest first.
    pub(crate) inbox: VecDeque<Message>,
    pub(crate) watch: Watch,
}

impl Model for Line {
    ghost use Rattle.world.specs.Worlds.{Line as LineParts};

    ghost Value = { LineParts };

    ghost view = { λ l. record { inbox = l.inbox.items; seen = l.watch } };
}

/// One side: its book, its watches, and the claims that it is yet to release.
#[derive(Drop)]
pub(crate) struct Node {
    pub(crate) book: Book,
    /// By channel.
    pub(crate) lines: Vec<Line>,
    /// The height of the newest block that the side read.
    pub(crate) read: u64,
    /// The preimages that blocks showed to the side, in order.
    pub(crate) learnt: Vec<[u8; 32]>,
    /// The jobs: claims that fell due and were not taken yet, the oldest first.
    pub(crate) jobs: VecDeque<DueClaim>,
    /// The claims that were taken and not released yet, the oldest first.
    pub(crate) taken: VecDeque<DueClaim>,
}

impl Model for Node {
    ghost use Rattle.world.specs.Worlds.{Node as NodeParts, IsNode};

    ghost Value = { NodeParts };

    ghost view = { λ n. record { history = n.book; lines = n.lines.items; read = n.read; learnt = n.learnt.items; jobs = n.jobs.items; taken = n.taken.items } };

    ghost invariant = { λ n. IsNode (record { history = n.book; lines = n.lines.items; read = n.read; learnt = n.learnt.items; jobs = n.jobs.items; taken = n.taken.items }) };
}

impl Node {
    ghost use Rattle.std.specs.Prelude.{◌≡◌, true, [], IfOk};
    ghost use Rattle.book.specs.declared.calls.Call.TheVariants.{Keep as Keeping, Release as Releasing};
    ghost use Rattle.book.specs.Calling.{IsCall, filled_once};
    ghost use Rattle.book.specs.Dispatch.{reply_form};
    ghost use Rattle.book.specs.Replies.{kept, released};
    ghost use Rattle.world.specs.Worlds.{IsNode, opens_none};
    ghost use Rattle.world.specs.Beginning.{IsOpened};
    ghost use Rattle.world.specs.Refusing.{IsAnswered};

    /// A side without channels, which has read the first block. Does not allocate.
    pub(crate) fn new(alloc: Global) -> Node
        ensures { result ≡ record {
          history = [];
          lines = [];
          read = 0;
          learnt = [];
          jobs = [];
          taken = [];
        } }
    {
        Node {
            book: Book::new(alloc),
            lines: Vec::new(alloc),
            read: 0,
            learnt: Vec::new(alloc),
            jobs: VecDeque::new(alloc),
            taken: VecDeque::new(alloc),
        }
    }

    /// Tells the proof what is true of each side.
    pub(crate) fn holds(&self)
        ensures { IsNode self.now }
    {
        // The proof learns the invariant where a field is used.
        let _ = &self.book;
    }

    /// The side's book. All else is dropped.
    pub(crate) fn into_book(self) -> Book
        ensures { result ≡ self.history }
    {
        let Node { book, .. } = self;
        book
    }

    /// Opens a channel in the side's book, refused as the book refuses. A refusal leaves the side as it was.
    pub(crate) fn open(&mut self, alloc: Global, opening: Opening) -> Result<(), OpenError>
        ensures { IsOpened opening result self.old self.new }
    {
        self.lines.reserve(1)?;
        self.book.open(SEAT, opening)?;
        let line = Line {
            inbox: VecDeque::new(alloc),
            watch: Watch::new(alloc),
        };
        self.lines.push(line).unwrap();
        Ok(())
    }

    /// Makes a call of the side's book that opens no channel. A refusal leaves the side as it was.
    pub(crate) fn call(&mut self, call: Call) -> Reply
        requires { opens_none call ≡ true }
        ensures book { IsCall (reply_form result) self.old.history self.new.history SEAT call }
        ensures rest { self.new ≡ record self.old { history = self.new.history } }
    {
        let reply = self.book.call(SEAT, call);
        // By this call the proof knows that the claims in the history were accepted.
        let _ = self.book.entries();
        reply
    }

    /// Keeps a penalty set in the side's book, refused as the book refuses. A refusal leaves the side as it was.
    pub(crate) fn keep_set(
        &mut self,
        channel: u64,
        number: u64,
        set: PenaltySet,
    ) -> Result<(), KeepError>
        ensures book { IsCall (kept result) self.old.history self.new.history SEAT
            (Keeping channel number set.claims) }
        ensures rest { self.new ≡ record self.old { history = self.new.history } }
    {
        let kept = self.book.keep_set(SEAT, channel, number, set);
        // By this call the proof knows that the claims in the history were accepted.
        let _ = self.book.entries();
        kept
    }

    /// Fills the claims of a batch by the side's book, and hands out the transaction twice. A refusal leaves the side as it was.
    pub(crate) fn release(
        &mut self,
        channel: u64,
        batch: Batch,
    ) -> Result<FilledTwice, ReleaseError>
        ensures book { IsCall (released (filled_once result))
            self.old.history self.new.history SEAT (Releasing channel batch) }
        ensures copy { IfOk result (λ r. r.copy ≡ r.filled.tx) }
        ensures rest { self.new ≡ record self.old { history = self.new.history } }
    {
        let filled = self.book.release_twice(SEAT, channel, batch);
        // By this call the proof knows that the claims in the history were accepted.
        let _ = self.book.entries();
        filled
    }

    /// Makes a call of the side's book that opens no channel, and returns the message
    /// to send, refused as the book refuses. A refusal leaves the side as it was.
    pub(crate) fn answer(&mut self, call: Call) -> Result<Option<Message>, EventError>
        requires { opens_none call ≡ true }
        ensures { IsAnswered call result self.old self.new }
    {
        match message_of(self.call(call)) {
            Ok(message) => Ok(message),
            Err(refused) => Err(EventError::of_reply(refused)),
        }
    }
}
