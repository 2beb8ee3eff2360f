//! Revoked commitments, by what is known of them.

ghost use Rattle.std.specs.Prelude.{◌≡◌, IfOk};

use crate::outputs::{RevokedHtlc, RevokedOutput};
use crate::scripts::{by_programs, htlc_of, to_local_program};
use anchor_forms::{ChannelPatterns, ChannelType};
use commit::CommitmentKeys;
use lists::{ByteString, List};
use sighash::programs::key_hash_program;
use std::alloc::{AllocError, Global};
use std::collections::BTreeMap;
use std::marker::Model;

/// A revoked commitment, as far as its peer has to know it: the type of its channel, the keys of its outputs, its delay and its HTLCs. The programs of its outputs are kept in a
/// table, so that an output is found in a time logarithmic in the number of HTLCs. A contract sees it as these parts.
#[derive(Drop)]
pub struct Revoked {
    channel_type: ChannelType,
    keys: CommitmentKeys,
    delay_blocks: u16,
    htlcs: List<RevokedHtlc>,
    to_local: ByteString,
    to_remote: ByteString,
    by_program: BTreeMap<[u8; 34], RevokedHtlc>,
}

impl Model for Revoked {
    ghost use Rattle.std.specs.Ordering.{nat_cmp};
    ghost use Rattle.std.specs.Cmp.Lexicographic.{slice_cmp};
    ghost use Rattle.std.specs.BTreeMap.{get};
    ghost use Rattle.commit.specs.Keys.{bytes_of};
    ghost use Rattle.revoked.specs.Parts.{RevokedParts};
    ghost use Rattle.revoked.specs.Programs.{HasPrograms};

    ghost Value = { RevokedParts };

    ghost view = { λ a. record {
      channel_type = a.channel_type;
      keys = bytes_of a.keys;
      delay_blocks = a.delay_blocks;
      htlcs = a.htlcs;
    } };

    ghost invariant = { λ a. HasPrograms (record {
      channel_type = a.channel_type;
      keys = bytes_of a.keys;
      delay_blocks = a.delay_blocks;
      htlcs = a.htlcs;
    })
        a.to_local a.to_remote (λ p. get (slice_cmp nat_cmp) a.by_program p) };
}

impl Revoked {
    ghost use Rattle.std.specs.Prelude.{◌≡◌, IfOk};
    ghost use Rattle.commit.specs.Keys.{bytes_of};
    ghost use Rattle.revoked.specs.Programs.{output_with};

    /// The commitment in a channel of this type with these keys, the delay of to_local and of HTLC transactions' outputs in blocks, and these HTLCs. The HTLCs may come in any order,
    /// and may be more than its outputs. The script of each is built once. The only error is that memory ran out.
    pub fn new(
        alloc: Global,
        patterns: &ChannelPatterns,
        channel_type: ChannelType,
        keys: CommitmentKeys,
        delay_blocks: u16,
        htlcs: Vec<RevokedHtlc>,
    ) -> Result<Revoked, AllocError>
        ensures { IfOk result (λ r. r ≡ record {
          channel_type = channel_type;
          keys = bytes_of keys;
          delay_blocks = delay_blocks;
          htlcs = htlcs.items;
        }) }
    {
        let to_local = to_local_program(alloc, &patterns.forms, &keys, delay_blocks)?;
        let to_remote = key_hash_program(alloc, &keys.remote.bytes)?;
        let by_program = by_programs(alloc, patterns, channel_type, &keys, htlcs.as_slice())?;
        Ok(Revoked {
            channel_type,
            keys,
            delay_blocks,
            htlcs: List::from_vec(htlcs),
            to_local,
            to_remote,
            by_program,
        })
    }

    /// The type of its channel.
    pub fn channel_type(&self) -> ChannelType
        ensures { result ≡ self.now.channel_type }
    {
        self.channel_type
    }

    /// The keys of its outputs.
    pub fn keys(&self) -> &CommitmentKeys
        ensures { bytes_of result.now ≡ self.now.keys }
    {
        &self.keys
    }

    /// The delay of to_local and of HTLC transactions' outputs, in blocks.
    pub fn delay_blocks(&self) -> u16
        ensures { result ≡ self.now.delay_blocks }
    {
        self.delay_blocks
    }

    /// Its HTLCs, in the order in which they were given.
    pub fn htlcs(&self) -> &[RevokedHtlc]
        ensures { result.now ≡ self.now.htlcs }
    {
        self.htlcs.values()
    }

    /// Which output of the commitment has a program: to_local, else to_remote, else the first of the HTLCs in the order in which they were given. Two
    /// HTLCs whose scripts are equal have one program, and are claimed alike. `None` if none has it. It allocates nothing.
    pub fn output_with(&self, program: &[u8]) -> Option<RevokedOutput>
        ensures { result ≡ output_with self.now program.now }
    {
        if self.to_local.bytes() == program {
            return Some(RevokedOutput::ToLocal);
        }
        if self.to_remote.bytes() == program {
            return Some(RevokedOutput::ToRemote);
        }
        let htlc = htlc_of(&self.by_program, program)?;
        Some(RevokedOutput::ToHtlc(htlc))
    }
}
