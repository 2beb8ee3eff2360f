// The output that is claimed, the one thing that is wrong, and the
// height of the block.

use page::Page;

/// An output of a form, and the way in which it is claimed.
#[derive(Clone, Copy)]
pub enum Claimed {
    Penalty,
    Delayed,
    OfferedPenalty,
    ReceivedPenalty,
    DirectPreimage,
    DirectTimeout,
    KeyHash,
    HtlcTimeout,
    HtlcSuccess,
    /// The funding output, spent by the
    /// commitment that both sides signed.
    Funding,
}

/// The one thing that is wrong.
#[derive(Clone, Copy)]
pub enum Slip {
    None,
    /// The claim is filled by the signer of the other side.
    OtherSigner,
    /// Another preimage is given.
    OtherPreimage,
    /// The top item of the witness has other bytes.
    OtherTop,
    /// The witness has the claimant's token over another digest.
    OtherToken,
    /// The other side's token is over another digest.
    OtherRemoteToken,
    /// The script does not have this path.
    OtherPath,
    /// One slot is missing.
    OtherSlots,
    /// The place has the program of another script.
    OtherProgram,
    /// The top item is empty.
    OtherFlag,
    /// The lock time of the fixed transaction is a time.
    TimeLock,
    /// The fixed transaction pays a satoshi more than the place has.
    GreaterOutputs,
}

/// One claim to try.
#[derive(Clone, Copy)]
pub struct Case {
    pub claimed: Claimed,
    pub slip: Slip,
    /// The height of the block that is to take the transaction.
    pub height: u64,
}

impl Claimed {
    /// The name of the output's claim.
    fn name(self) -> &'static str {
        match self {
            Claimed::Penalty => "penalty",
            Claimed::Delayed => "delayed",
            Claimed::OfferedPenalty => "penalty of an offered HTLC",
            Claimed::ReceivedPenalty => "penalty of a received HTLC",
            Claimed::DirectPreimage => "direct preimage",
            Claimed::DirectTimeout => "direct timeout",
            Claimed::KeyHash => "key hash",
            Claimed::HtlcTimeout => "HTLC-timeout",
            Claimed::HtlcSuccess => "HTLC-success",
            Claimed::Funding => "funding",
        }
    }
}

impl Slip {
    /// What is wrong, as it follows the claim's name.
    fn name(self) -> &'static str {
        match self {
            Slip::None => "",
            Slip::OtherSigner => ", another signer",
            Slip::OtherPreimage => ", another preimage",
            Slip::OtherTop => ", another item on top",
            Slip::OtherToken => ", a token of another digest",
            Slip::OtherRemoteToken => ", a remote token of another digest",
            Slip::OtherPath => ", a path too far",
            Slip::OtherSlots => ", a slot too few",
            Slip::OtherProgram => ", another program",
            Slip::OtherFlag => ", an empty item on top",
            Slip::TimeLock => ", a lock time of 500000000",
            Slip::GreaterOutputs => ", outputs of a satoshi more",
        }
    }
}

impl Case {
    /// Writes what is tried.
    pub fn write(&self, page: &mut Page) {
        page.push(self.claimed.name());
        page.push(self.slip.name());
        page.count(" in block ", self.height);
        page.push(": ");
    }
}
