//! The types of channels, as far as their HTLCs' scripts differ.

/// A type of channel (BOLT 9), by which the scripts of HTLCs differ.
#[derive(Clone, Copy, Debug, PartialEq, Eq)]
pub enum ChannelType {
    /// `option_static_remotekey` without `option_anchors`. The HTLCs of older channels, without either, have the same scripts.
    StaticRemoteKey,
    /// `option_anchors`: all but the penalty wait for one block.
    Anchors,
}
