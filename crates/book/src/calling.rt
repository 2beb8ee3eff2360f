//! The seven calls of a book, as one function.

use crate::calls::Call;
use crate::errors::{CloseError, KeepError, OpenError, ReleaseError, SignError, StepError};
use crate::history::Book;
use channel::Message;
use filling::Filled;

/// A book's reply to a call: the result of
/// the method that the call is named after.
#[derive(Drop)]
pub enum Reply {
    /// The channel's index.
    Opened(Result<u64, OpenError>),
    /// The message to send, if there is one.
    Stepped(Result<Option<Message>, StepError>),
    /// The message to send.
    Signed(Result<Message, SignError>),
    /// The number of the revoked commitment.
    Revoked(Result<u64, StepError>),
    /// The penalties are kept.
    Kept(Result<(), KeepError>),
    /// The transactions of the claims.
    Released(Result<Filled, ReleaseError>),
    /// The number of this side's newest commitment.
    Closed(Result<u64, CloseError>),
}

impl Book {
    ghost use Rattle.book.specs.Calling.{IsCall};
    ghost use Rattle.book.specs.Dispatch.{reply_form};

    /// Makes a call. A refusal leaves the book as it was.
    pub fn call(&mut self, seat: u32, call: Call) -> Reply
        ensures { IsCall (reply_form result) self.old self.new seat call }
    {
        match call {
            Call::Open(opening) => Reply::Opened(self.open(seat, opening)),
            Call::Step { channel, step } => Reply::Stepped(self.step(seat, channel, step)),
            Call::Sign { channel } => Reply::Signed(self.sign(seat, channel)),
            Call::Revoke {
                channel,
                revocation,
            } => Reply::Revoked(self.revoke(seat, channel, revocation)),
            Call::Keep {
                channel,
                number,
                claims,
            } => Reply::Kept(self.keep(seat, channel, number, claims)),
            Call::Release { channel, batch } => {
                Reply::Released(self.release(seat, channel, batch))
            }
            Call::Close { channel } => Reply::Closed(self.close(seat, channel)),
        }
    }
}
