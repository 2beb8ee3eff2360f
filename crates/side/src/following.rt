//! A channel as a reader follows it.

ghost use Rattle.std.specs.Prelude.{◌≡◌, map, IfOk, OnOk};
ghost use Rattle.side.specs.Following.{seen_in, unanswered, told, taught_in};

use crate::spent::Spent;
use resolve::Known;
use std::alloc::{AllocError, Global};
use std::mem;
use watch::{Lookout, Watch};

/// A channel as a reader follows it.
#[derive(Drop)]
pub(crate) enum Followed {
    /// The channel has no answer yet: its watch reads nothing.
    Alone(Watch),
    /// The channel has an answer, and blocks are read with it.
    Known(Lookout),
}

impl Followed {
    ghost use Rattle.std.specs.Prelude.{◌≡◌, ◌<◌, length, get_or, OnOk};
    ghost use Rattle.tx.specs.declared.input.OutPoint.{OutPoint as Place};
    ghost use Rattle.side.specs.Reading.{is_to_ask};
    ghost use Rattle.side.specs.Following.{seen_in, known_in, taught_in};

    /// Whether to ask what is known of the channel, which has this number, before a block is read that spends these.
    pub(crate) fn is_to_ask(&self, channel: usize, spent: &Spent<'_>) -> bool
        requires { channel < length spent.now.fundings }
        ensures { (o : Place) → o ≡ get_or spent.now.fundings channel o → result ≡ is_to_ask o
            (seen_in self.now) (known_in self.now) spent.now.txs }
    {
        match self {
            Followed::Alone(watch) => spent.is_spent(channel, watch),
            Followed::Known(_) => false,
        }
    }

    /// The channel's watch.
    pub(crate) fn into_watch(self) -> Watch
        ensures { result ≡ seen_in self }
    {
        match self {
            Followed::Alone(watch) => watch,
            Followed::Known(lookout) => lookout.into_watch(),
        }
    }

    /// Adds preimages to the answer, if there is one. The only error is that memory ran out.
    pub(crate) fn teach(&mut self, shown: &[[u8; 32]]) -> Result<(), AllocError>
        ensures { OnOk result (self.new ≡ taught_in shown.now self.old) }
    {
        match self {
            Followed::Alone(_) => Ok(()),
            Followed::Known(lookout) => lookout.learn(shown),
        }
    }
}

/// From now on the channel is read by `known`. Does not allocate.
pub(crate) fn tell(alloc: Global, followed: &mut Followed, known: Box<Known>)
    ensures { followed.new ≡ told known.value followed.old }
{
    let nothing = Followed::Alone(Watch::new(alloc));
    let watch = mem::replace(followed, nothing).into_watch();
    let told = Followed::Known(Lookout::new(watch, known));
    drop(mem::replace(followed, told));
}

/// Adds preimages to the answer of each channel that has one. The only error is that memory ran out.
pub(crate) fn teach_all(channels: &mut [Followed], shown: &[[u8; 32]]) -> Result<(), AllocError>
    ensures { OnOk result (channels.new ≡ map (taught_in shown.now) channels.old) }
{
    for index in 0..channels.len() {
        channels[index].teach(shown)?;
    }
    Ok(())
}

/// Channels without an answer. The only error is that memory ran out.
pub(crate) fn unanswered(alloc: Global, watches: Vec<Watch>) -> Result<Vec<Followed>, AllocError>
    ensures { IfOk result (λ v. v.items ≡ map unanswered watches.items) }
{
    let mut channels = Vec::new(alloc);
    for watch in watches {
        channels.push(Followed::Alone(watch))?;
    }
    Ok(channels)
}

/// The channels' watches. The only error is that memory ran out.
pub(crate) fn watches_of(alloc: Global, channels: Vec<Followed>) -> Result<Vec<Watch>, AllocError>
    ensures { IfOk result (λ v. v.items ≡ map seen_in channels.items) }
{
    let mut watches = Vec::new(alloc);
    for followed in channels {
        watches.push(followed.into_watch())?;
    }
    Ok(watches)
}
