//! Messages between peers, as a book takes and answers them.

ghost use Rattle.std.specs.Prelude.{◌≡◌, true, false, [], IfOk, MatchResult};
ghost use Rattle.std.specs.List.{cons_option};
ghost use Rattle.book.specs.Replies.{is_accepted};
ghost use Rattle.book.specs.Dispatch.{reply_form};
ghost use Rattle.book.specs.Acts.{call_of, messages_in, ran_out};

use crate::calling::Reply;
use crate::calls::{Call, Step};
use channel::Message;
use std::alloc::AllocError;

/// The call by which a book takes a message in a channel; it copies the message. The only error is that memory ran out.
pub fn call_of(channel: u64, message: &Message) -> Result<Call, AllocError>
    ensures { IfOk result (λ c. c ≡ call_of channel message.now) }
{
    match message {
        Message::Step(step) => {
            let step = Step::Peer(step.copy()?);
            Ok(Call::Step { channel, step })
        }
        Message::RevokeAndAck(revocation) => Ok(Call::Revoke {
            channel,
            revocation: *revocation,
        }),
    }
}

/// The message that an accepted reply has for the peer, if there is one. The
/// transactions of a release are dropped. A refused reply is returned as it is.
pub fn message_of(reply: Reply) -> Result<Option<Message>, Reply>
    ensures { let form = reply_form reply
        in MatchResult result (λ m. (is_accepted form ≡ true)
        × (messages_in form ≡ cons_option m [])) (λ r. (is_accepted form ≡ false) × (r ≡ reply)) }
{
    match reply {
        Reply::Stepped(Ok(message)) => Ok(message),
        Reply::Signed(Ok(message)) => Ok(Some(message)),
        Reply::Opened(Ok(_)) | Reply::Revoked(Ok(_)) | Reply::Kept(Ok(())) => Ok(None),
        Reply::Released(Ok(_)) => Ok(None),
        Reply::Closed(Ok(_)) => Ok(None),
        refused => Err(refused),
    }
}

impl Reply {
    /// Whether the call was refused since memory ran out. Refusals of every call have the number 0 for it.
    pub fn is_out_of_memory(&self) -> bool
        ensures { result ≡ ran_out (reply_form self.now) }
    {
        match self {
            Reply::Opened(Err(error)) => error.number() == 0,
            Reply::Stepped(Err(error)) => error.number() == 0,
            Reply::Signed(Err(error)) => error.number() == 0,
            Reply::Revoked(Err(error)) => error.number() == 0,
            Reply::Kept(Err(error)) => error.number() == 0,
            Reply::Released(Err(error)) => error.number() == 0,
            Reply::Closed(Err(error)) => error.number() == 0,
            Reply::Opened(Ok(_)) | Reply::Stepped(Ok(_)) | Reply::Signed(Ok(_)) => false,
            Reply::Revoked(Ok(_)) | Reply::Kept(Ok(())) | Reply::Released(Ok(_)) => false,
            Reply::Closed(Ok(_)) => false,
        }
    }
}
