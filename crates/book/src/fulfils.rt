// The preimages of each channel's fulfils, in the order in which they came.

ghost use Rattle.std.specs.Prelude.{◌≡◌, ◌<◌, ◌∷◌, ◌++◌, [], length, slice_get, unwrap_or, OnOk};
ghost use Rattle.std.specs.List.{cons_option};
ghost use Rattle.book.specs.Books.{at_index};
ghost use Rattle.book.specs.Knowing.{preimage_in};
ghost use Rattle.book.specs.Fulfilled.{kept_by, HasRoom, HasRoomAt};

use crate::calls::Step;
use std::alloc::{AllocError, Global};
use updates::{OwnUpdate, PeerStep, Update};

/// By channel, the preimages of its fulfils in the order in which they came, with repeats.
#[derive(Drop)]
pub(crate) struct Fulfils {
    channels: Vec<Vec<[u8; 32]>>,
}

// The preimage of a fulfil, made or received.
fn preimage_in(step: &Step) -> Option<[u8; 32]>
    ensures { result ≡ preimage_in step.now }
{
    match step {
        Step::Own(OwnUpdate::Fulfil { preimage, .. }) => Some(*preimage),
        Step::Peer(PeerStep::Update(Update::Fulfil { preimage, .. })) => Some(*preimage),
        _ => None,
    }
}

impl Fulfils {
    /// No channel. Does not allocate.
    pub(crate) fn new(alloc: Global) -> Fulfils
        ensures { kept_by result ≡ [] }
    {
        Fulfils {
            channels: Vec::new(alloc),
        }
    }

    /// Reserves room for one more channel. The only error is that memory ran out.
    pub(crate) fn reserve_channel(&mut self) -> Result<(), AllocError>
        ensures same { kept_by self.new ≡ kept_by self.old }
        ensures room { OnOk result (HasRoom self.new) }
    {
        self.channels.reserve(1)
    }

    /// Adds a channel without preimages.
    pub(crate) fn add_channel(&mut self, alloc: Global)
        requires { HasRoom self.old }
        ensures { kept_by self.new ≡ kept_by self.old ++ [] ∷ [] }
    {
        self.channels.push(Vec::new(alloc)).unwrap();
    }

    /// Reserves room for one more preimage of a channel. The only error is that memory ran out.
    pub(crate) fn reserve_preimage(&mut self, channel: usize) -> Result<(), AllocError>
        requires { channel < length (kept_by self.old) }
        ensures same { kept_by self.new ≡ kept_by self.old }
        ensures room { OnOk result (HasRoomAt channel self.new) }
    {
        self.channels[channel].reserve(1)
    }

    /// Appends the preimage of a step that a channel took, if the step is a fulfil.
    pub(crate) fn add_preimage(&mut self, channel: usize, step: &Step)
        requires within { channel < length (kept_by self.old) }
        requires room { HasRoomAt channel self.old }
        ensures { kept_by self.new ≡ at_index
            (λ preimages. preimages ++ cons_option (preimage_in step.now) []) channel
            (kept_by self.old) }
    {
        if let Some(preimage) = preimage_in(step) {
            self.channels[channel].push(preimage).unwrap();
        }
    }

    /// The preimages of a channel; empty where there is no such channel.
    pub(crate) fn of(&self, channel: u64) -> &[[u8; 32]]
        ensures { result.now ≡ unwrap_or (slice_get (kept_by self.now) channel) [] }
    {
        match self.channels.get(channel as usize) {
            Some(preimages) => preimages.as_slice(),
            None => &[],
        }
    }
}
