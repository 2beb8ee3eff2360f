// The patterns of both types of channels.

ghost use Rattle.std.specs.Prelude.{◌≡◌};
ghost use Rattle.anchor_forms.specs.Pieces.{offered_with_anchors_pieces, received_with_anchors_pieces};

use forms::Patterns;
use paths::CheckedPattern;

/// The scripts of both types of channels as patterns, each checked once for all its keys, hashes and numbers. [`channel_patterns`](crate::channel_patterns) makes
/// them, and the builders borrow them.
#[derive(Drop)]
pub struct ChannelPatterns {
    /// The scripts of channels without anchors, of which to_local stands in both.
    pub forms: Patterns,
    pub(crate) offered_with_anchors: CheckedPattern,
    pub(crate) received_with_anchors: CheckedPattern,
    ghost of_offered: { offered_with_anchors.pieces ≡ offered_with_anchors_pieces },
    ghost of_received: { received_with_anchors.pieces ≡ received_with_anchors_pieces },
}
