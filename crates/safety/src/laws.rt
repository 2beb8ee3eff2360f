//! Laws over the definitions alone.

ghost use Rattle.std.specs.Prelude.{ℕ, List};
ghost use Rattle.chain.specs.Blocks.{Contents as Block};
ghost use Rattle.penalty.specs.declared.states.RevokedState.{RevokedState as State};
ghost use Rattle.safety.specs.Enforcement.{ClaimsSpend, LocksAreHeights};
ghost use Rattle.safety.specs.Satisfying.{FundingSatisfied, ToLocalSatisfied, KeyHashSatisfied, OfferedSatisfied, ReceivedSatisfied};
ghost use Rattle.safety.specs.Signing.{OneDigest, OneToken};
ghost use Rattle.safety.specs.Spending.{WhoCanSpend, WhoSpends};
ghost use Rattle.safety.specs.Owning.{OnlyPeerSigns};
ghost use Rattle.safety.specs.Standing.{HavePassed, CoinsHaveHeights};
ghost use Rattle.safety.specs.Taking.{OnlyAsSigned};
ghost use Rattle.safety.specs.Fates.{SignedWithCommitment, NothingEscapes, NothingEscapesAbove, NothingEscapesOnChains};
ghost use Rattle.safety.specs.Whereabouts.{NothingIsLost};
ghost use Rattle.safety.specs.Ids.{OneId};
ghost use Rattle.safety.specs.Recorded.{RecordedLimits, SameNumber};
ghost use Rattle.safety.specs.Waiting.{DelayedWaits, EachInputFits};
ghost use Rattle.safety.specs.Places.{OwnersPlaces, PeersPlaces, RevokedPlaces, KnownPlaces};
ghost use Rattle.safety.specs.Outputs.{OneOutput};
ghost use Rattle.safety.specs.Seeds.{SidesDiffer};
ghost use Rattle.safety.specs.Taken.{NumberedAreOwn, GrantsAreOutPoints, Taken, TakenOnChains};
ghost use Rattle.safety.specs.Ledgers.{CheckedAreLedgers};
ghost use Rattle.safety.specs.Closers.{WhoCloses};
ghost use Rattle.safety.specs.Passing.{NewestPasses};
ghost use Rattle.safety.specs.Resolutions.{RevokedAreResolved, PeersAreResolved};
ghost use Rattle.safety.specs.Everybody.{EachChannelStands, RevokedAgainstEverybody};
ghost use Rattle.safety.specs.Takers.{OwnersTake, HtlcTransactionsTake, SidesAreApart, ChannelsAreApart, OutputsAreNoGrants, CommitmentsSpendFundings, HtlcTransactionsSpendOutputs};

use claim::laws::accepted_claims_spend;
use publish::laws::commitments_spend;

/// The first half of the Enforcement theorem, at any moment of any chain. An input that fits an accepted claim passes the chain's test and runs clean. The premises: the output that
/// it spends is unspent, with the value and program of the claim's place, and the transaction's lock time and the claim's age are reached. They are reached exactly if the block is
/// above the lock time, and above the output's block by at least the age.
pub fn claims_spend()
    ensures spends { ClaimsSpend }
    ensures locks { LocksAreHeights }
{
    // By this law the proof knows what holds for each claim, without a chain.
    accepted_claims_spend();
}

/// Whatever runs clean on the funding script has the tokens of both keys.
pub fn who_satisfies_a_funding()
    ensures { FundingSatisfied }
{}

/// Whatever runs clean on to_local has a token of the revocation key; or one of the delayed key, and a sequence that CHECKSEQUENCEVERIFY accepts for the
/// delay.
pub fn who_satisfies_to_local()
    ensures { ToLocalSatisfied }
{}

/// Whatever runs clean on to_remote has a key of its hash, and that key's token.
pub fn who_satisfies_a_key_hash()
    ensures { KeyHashSatisfied }
{}

/// Whatever runs clean on an HTLC's script has a key of the revocation key's hash and that key's token, or a token of the remote key. The second case asks for more.
/// For an offered HTLC that is the local key's token or the preimage. For a received one it is both of these, or a lock time that CHECKLOCKTIMEVERIFY accepts for the
/// expiry.
pub fn who_satisfies_an_htlc()
    ensures offered { OfferedSatisfied }
    ensures received { ReceivedSatisfied }
{}

/// Any input that runs clean on an output that a revoked state lets the owner's peer claim is of one of three kinds. It has a token, over its own digest, of one of the
/// peer's keys that the output's script names. Or, only on the form of to_local, it has a token of the delayed key and a relative lock of at least the delay. Or it
/// shows other bytes with the hash of the script, or with that of one of the peer's keys.
pub fn who_can_spend()
    ensures { WhoCanSpend }
{}

/// The same for an input that passes the chain's test of a coin. With the delayed key's token, it takes the coin no earlier than the delay in blocks above the coin's
/// block. With a delay of 0 nobody waits.
pub fn who_spends()
    ensures { WhoSpends }
{}

/// A digest is over one input of one transaction, with one script code and one value, whatever the witnesses; or two byte strings that are hashed for it collide. The
/// same holds of a token, which is also of one key. The fields fit into their bytes.
pub fn what_is_signed()
    ensures digest { OneDigest }
    ensures token { OneToken }
{}

/// Only the peer may sign with its keys: if its base keys are of one seed, a signer of another seed never signs with one of them, whatever points and secrets it learns.
/// Otherwise a byte string that the one signer hashes for its keys collides with one of the other signer's.
pub fn only_the_peer_signs()
    ensures { OnlyPeerSigns }
{}

/// Each input on a chain that passed its tests names a coin of that chain. It passed the test of that coin, in a block of that height and before the coin was spent.
pub fn inputs_have_passed()
    ensures { HavePassed }
{}

/// The coin at each output of a transaction on such a chain is that output, of the height of the transaction's block. The ids of the chain's grants must differ from one another and from those of its transactions.
pub fn coins_have_heights()
    ensures { CoinsHaveHeights }
{}

/// Suppose that each token of the peer's keys in a witness is over what the peer signed. Then an input that passes the chain's test is one that the peer signed,
/// whatever its witness; or it is the owner's after the delay; or named byte strings collide.
pub fn only_as_signed()
    ensures { OnlyAsSigned }
{}

/// Suppose that each token of the peer's keys in a witness is over what the peer signed: an HTLC transaction, by `commitment_signed`, or an input of its own. Then for
/// an input that passes the chain's test, one of four things holds:
/// - it is of an HTLC transaction, whose only output the peer can claim again;
/// - it is one of the peer's own;
/// - it is the owner's after the delay;
/// - named byte strings collide.
///
/// This holds of any transaction in the next block, and of each transaction on a chain that passed its tests.
pub fn nothing_escapes()
    ensures digests { SignedWithCommitment }
    ensures fates { NothingEscapes }
    ensures above { (blocks : List Block) (height : ℕ) (state : State)
        → NothingEscapesAbove blocks height state }
    ensures chains { NothingEscapesOnChains }
{}

/// Suppose that a revoked commitment stands on a chain that passed its tests, and that each token of the peer's keys in an input there is over what the peer signed.
/// Then for each output of the commitment there is one on the chain that the peer can claim: the output itself or, if its HTLC transaction stands there, the output of
/// that. No two of these are at one outpoint. With fees, dust and what was rounded off they are worth the capacity. For each of them, one of four things holds:
/// - it is unspent;
/// - the peer took it;
/// - the owner took it after the delay;
/// - named byte strings collide.
///
/// The ids of the chain's grants must differ from one another and from those of its transactions.
pub fn nothing_is_lost()
    ensures { NothingIsLost }
{}

/// Two transactions that keep the limits and have one id are the same but for their witnesses; or the bytes that are hashed for their ids collide.
pub fn one_id()
    ensures { OneId }
{}

/// The commitment transaction and the HTLC transactions of each commitment that can pay its view keep the limits of a transaction. Commitments of one channel that have one
/// transaction have one number.
pub fn what_commitments_have()
    ensures limits { RecordedLimits }
    ensures number { SameNumber }
{}

/// An input that fits a claim by the delayed key, and that a block may hold, is in a block at least the delay above that of its coin. With a delay of 0 nobody waits. Each input
/// of the transaction that fills claims fits one of them.
pub fn delayed_claims_wait()
    ensures waits { DelayedWaits }
    ensures inputs { EachInputFits }
{}

/// Each claim that is due to a commitment's owner, to its peer, or to its peer once the commitment is revoked, is on an output of the commitment of the claim's kind, or on the output
/// of an HTLC transaction. It is at the outpoint of that output. What is due by a verdict is so on a commitment that is known.
pub fn due_places()
    ensures owners { OwnersPlaces }
    ensures peers { PeersPlaces }
    ensures revoked { RevokedPlaces }
    ensures known { KnownPlaces }
{}

/// Two commitments that share an outpoint are one transaction, and share one output of it. Otherwise a byte string hashed for the one collides with one hashed for the other.
pub fn one_output()
    ensures { OneOutput }
{}

/// Two sides whose base keys are of two seeds have no commitments of one transaction, if it has an output; or byte strings that are hashed for these commitments, or for these
/// seeds, collide.
pub fn sides_differ()
    ensures { SidesDiffer }
{}

/// An input of a commitment transaction spends the channel's funding output. One of an HTLC transaction spends an output of its commitment.
pub fn what_commitments_spend()
    ensures fundings { CommitmentsSpendFundings }
    ensures outputs { HtlcTransactionsSpendOutputs }
{}

/// Who can take an output of a revoked commitment that the owner's peer can claim:
/// - The owner takes it by a claim of its own on that commitment: by the HTLC's transaction, or after the delay on to_local's form.
/// - An HTLC transaction of that commitment takes it if the output is that of its HTLC.
/// - No claim on the peer's own commitments takes it, and none of another channel. No commitment takes it, since a commitment spends a grant.
///
/// Otherwise named byte strings collide. Two commitments of one side with one number have to be one.
pub fn who_takes()
    ensures owners { OwnersTake }
    ensures htlcs { HtlcTransactionsTake }
    ensures peers { SidesAreApart }
    ensures channels { ChannelsAreApart }
    ensures grants { OutputsAreNoGrants }
{}

/// The commitments that a channel records by number can be paid, if its funding output has an outpoint of 32 bytes and an index of 32 bits. Each grant has.
pub fn what_is_recorded()
    ensures own { NumberedAreOwn }
    ensures grants { GrantsAreOutPoints }
{}

/// Say that each transaction comes from what two sides recorded of their channels: it is a recorded commitment, an HTLC transaction of one, or a filling of claims that are due to
/// a side. Then what takes an output that a side's commitment lets its peer claim, once revoked, is one of these:
/// - a filling of the peer's;
/// - the HTLC transaction of the HTLC whose output it is;
/// - a filling of the side's own, after the delay, on to_local's form.
///
/// Otherwise two named byte strings collide. The two seeds of each channel have to differ, and each channel has to be funded by a grant of its own (`AreSound`). This holds of each
/// input that passes the chain's test of its coin, and so of each input on a chain that passed its tests.
pub fn taken()
    ensures inputs { Taken }
    ensures chains { TakenOnChains }
{}

/// A chain that passed its tests, whose transactions keep the limits, is a ledger of any outputs: an input that names one ran clean on the coin there and keeps its locks, and the transaction that makes one is the
/// only one of its id.
pub fn checked_chains_are_ledgers()
    ensures { CheckedAreLedgers }
{}

/// Who closes a channel, whatever peers and blocks do. Say that on a chain, in the inputs that name outputs of a node's channels, each token of a key of the node's is one that it gave out. Then whatever takes the
/// funding output of a channel is, but for witnesses, a commitment of the peer's that is revoked, its newest, or the next one; or the node's own newest one, with which it closed the channel. Otherwise two named
/// byte strings collide.
pub fn who_closes()
    ensures { WhoCloses }
{}

/// Where the funding output of a channel is unspent, the node's newest commitment with both signatures passes all tests of the next block, whatever peers and blocks did before. It has to have an output: no block of
/// Bitcoin's may hold a transaction without one. Otherwise a transaction on the chain has its id, and what is hashed for the two collides.
pub fn newest_passes()
    ensures { NewestPasses }
{
    commitments_spend();
}

/// What becomes of the outputs of a peer's commitment that stands on such a chain, whatever peers and blocks do. For each of its outputs there is one, on the chain and at an outpoint of its own, that the node could
/// claim if the commitment is revoked: the output itself or, if its HTLC transaction stands there, the output of that. It is unspent; or a transaction that the node released took it; or it is in to_local's form,
/// and the owner took it after the delay. And to_remote and each HTLC's output is unspent; or a transaction that the node released took it; or it is an HTLC that the node had offered, and whoever took it
/// showed the preimage; or one that was offered to the node, and the block is above the expiry. Otherwise two named byte strings collide.
pub fn what_becomes_of_outputs()
    ensures revoked { RevokedAreResolved }
    ensures peers { PeersAreResolved }
{}

/// A revoked commitment against everybody: the outputs that the node can claim are worth the whole capacity, less fees, dust and what was rounded off. Each is unspent, or the node took it, or the owner did after
/// the delay.
pub fn revoked_against_everybody()
    ensures { RevokedAgainstEverybody }
{}

/// One node against everybody: how each of its channels stands on such a chain that has its funding output. It is unspent, and the node's newest commitment passes all tests of the next block; or a
/// commitment closed the channel that may do so, and of the peer's commitments each output is accounted for. Otherwise two named byte strings collide.
pub fn one_against_everybody()
    ensures { EachChannelStands }
{
    commitments_spend();
}
