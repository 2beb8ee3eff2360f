// What the scripts are made of.

ghost use Rattle.std.specs.Prelude.{◌≡◌, ◌<◌, ◌≤◌, IfSome, IfNone};
ghost use Rattle.script.specs.declared.limits.TheConstants.{LOCKTIME_THRESHOLD as locktime_threshold};

use keys::Key;
use script::limits::LOCKTIME_THRESHOLD;

/// The keys of an HTLC's output, as they derive for one commitment (BOLT 3, "Key Derivation").
#[derive(Clone, Copy, Debug, PartialEq, Eq)]
pub struct HtlcKeys {
    /// revocationpubkey: spends the output once the commitment is revoked.
    pub revocation: Key,
    /// remote_htlcpubkey: of the side that does not own the commitment.
    pub remote: Key,
    /// local_htlcpubkey: of the commitment's owner.
    pub local: Key,
}

/// An HTLC's cltv_expiry: a block height below 500,000,000 (BIP 65; BOLT 2 asks for it of every HTLC).
#[derive(Clone, Copy, Debug, PartialEq, Eq)]
pub struct Expiry {
    pub height: u32,
    ghost low: { height < locktime_threshold },
}

impl Expiry {
    /// The expiry at a height; `None` for 500,000,000 and above, which BIP 65 reads as times.
    pub fn new(height: u32) -> Option<Expiry>
        ensures some { IfSome result (λ e. e.height ≡ height) }
        ensures none { IfNone result (locktime_threshold ≤ height) }
    {
        if u64::from(height) >= LOCKTIME_THRESHOLD {
            return None;
        }
        Some(Expiry { height })
    }
}
