// The script of an HTLC that a commitment offers.

ghost use Rattle.std.specs.Prelude.{◌≡◌};
ghost use Rattle.warnings.specs.Htlcs.{has_offered_front, is_offered_htlc};

use crate::parts::has_at;

// Whether bytes are those of an offered HTLC's script, up to its last opcodes. Between the pieces are a hash, two keys and a hash.
#[tactic(auto, unfolding(crate::specs::Htlcs::has_offered_front))]
fn has_offered_front(bytes: &[u8]) -> bool
    ensures { result ≡ has_offered_front bytes.now }
{
    has_at(bytes, 0, &[0x76, 0xa9, 0x14])
        && has_at(bytes, 23, &[0x87, 0x63, 0xac, 0x67, 0x21])
        && has_at(
            bytes,
            61,
            &[0x7c, 0x82, 0x01, 0x20, 0x87, 0x64, 0x75, 0x52, 0x7c, 0x21],
        )
        && has_at(bytes, 104, &[0x52, 0xae, 0x67, 0xa9, 0x14])
        && has_at(bytes, 129, &[0x88, 0xac, 0x68])
}

/// Whether bytes are the script of an HTLC that a commitment offers (BOLT 3, "Offered HTLC Outputs"), without anchors or with them. Its second path is the timeout.
#[tactic(auto, unfolding(crate::specs::Htlcs::is_offered_htlc))]
pub fn is_offered_htlc(bytes: &[u8]) -> bool
    ensures { result ≡ is_offered_htlc bytes.now }
{
    has_offered_front(bytes)
        && ((bytes.len() == 133 && has_at(bytes, 132, &[0x68]))
            || (bytes.len() == 136 && has_at(bytes, 132, &[0x51, 0xb2, 0x75, 0x68])))
}
