// Why a call gives nothing: the statuses.

ghost use Rattle.std.specs.Prelude.{◌≡◌, ◌<◌};
ghost use Rattle.enforce_c.specs.Statuses.{parse_status, check_status, accept_status, spend_status, field_status, encode_status, decode_status, status_of, first_of, slot_of, number_of};
ghost use Rattle.enforce_c.specs.declared.statuses.Refusal.TheVariants.{NoMemory};

use claim::AcceptError;
use facts::Fact;
use filling::SpendError;
use paths::CheckError;
use script::ParseError;
use std::alloc::{AllocError, AllocFailed};
use tx::{DecodeError, EncodeError, FieldError};

/// The call did what it is for.
pub const DONE: u32 = 0x000;
/// Memory ran out. Nothing but the answer was written.
pub const NO_MEMORY: u32 = 0x001;
/// A buffer is shorter than the answer says. Nothing but the answer was written.
pub const TOO_SMALL: u32 = 0x002;
/// A byte of the script is none of the opcodes that are listed here, though it may be one of Bitcoin's, as SHA256; the answer has its position.
pub const BAD_OPCODE: u32 = 0x101;
/// A push has too few bytes after it; the answer has its position.
pub const TRUNCATED: u32 = 0x102;
/// The script has more than 10,000 bytes.
pub const TOO_LONG: u32 = 0x103;
/// Branches of the script do not close.
pub const OPEN_BRANCH: u32 = 0x201;
/// More than 201 opcodes count.
pub const TOO_MANY_OPS: u32 = 0x202;
/// No rule decides an opcode or the end; the answer has the opcode's index.
pub const UNDECIDED: u32 = 0x203;
/// A 65th path begins.
pub const TOO_MANY_PATHS: u32 = 0x204;
/// A path needs more than 1,000 stack elements.
pub const TOO_TALL: u32 = 0x205;
/// The script has no path of this index.
pub const NO_SUCH_PATH: u32 = 0x301;
/// The number of slots is not that of the path.
pub const WRONG_ARITY: u32 = 0x302;
/// The slots do not show a fact of the path, or it asks a lock by time, which no claim here has; the answer has the slot, 0 for such a lock.
pub const UNMET: u32 = 0x303;
/// The path asks for one fact with both polarities.
pub const CONTRADICTION: u32 = 0x304;
/// The program is not that of the script.
pub const WRONG_PROGRAM: u32 = 0x305;
/// The fixed transaction of a claim does not fit. No claim of these calls has one.
pub const WRONG_SHELL: u32 = 0x306;
/// There is no form of this kind.
pub const NO_SUCH_FORM: u32 = 0x401;
/// Bytes that are to be a key do not have the form of one; the answer has which key of the form it is, from 0 for `revocation`, or the index of the slot.
pub const NOT_A_KEY: u32 = 0x402;
/// The expiry is 500,000,000 or more, which is a time and not a height.
pub const NOT_A_HEIGHT: u32 = 0x403;
/// A claim has a fixed transaction. No claim of these calls has one.
pub const FIXED_TRANSACTION: u32 = 0x501;
/// Two claims spend the same outpoint.
pub const SAME_OUTPOINT: u32 = 0x502;
/// The outputs are worth more than the claimed outputs together.
pub const OUTPUTS_EXCEED: u32 = 0x503;
/// The path of a claim asks for the length, the hash or the bytes of a signature.
pub const MEASURED_SIGNATURE: u32 = 0x504;
/// No preimage is given for the hash of a slot.
pub const NO_PREIMAGE: u32 = 0x505;
/// The bytes of the transaction end within a field.
pub const TRUNCATED_TRANSACTION: u32 = 0x601;
/// A compactSize of the transaction is not minimal.
pub const LONG_COUNT: u32 = 0x602;
/// The marker of the transaction is not 0, or its flag is not 1 (BIP 144). No call here tells it: such bytes are read without witnesses.
pub const BAD_MARKER: u32 = 0x603;
/// There is no claim, or the transaction that is given has no input.
pub const NO_INPUTS: u32 = 0x604;
/// No witness of the transaction has an item.
pub const NO_WITNESS: u32 = 0x605;
/// The value of an output is above 21,000,000 bitcoins.
pub const VALUE_TOO_LARGE: u32 = 0x606;
/// There are bytes after the lock time of the transaction.
pub const TRAILING: u32 = 0x607;
/// There are more than 4,000 claims or outputs, or the script of an output has more than 10,000 bytes; of a transaction that is given, a count is above its limit, or an input has a script.
pub const OVER_LIMIT: u32 = 0x608;
/// The row of a claim refers to bytes or to rows that are not there, or the row of an output to bytes.
pub const OUT_OF_RANGE: u32 = 0x701;
/// There is no slot of this kind; the answer has the index of the slot.
pub const NO_SUCH_SLOT: u32 = 0x702;
/// The bytes of a slot are more than 520; the answer has the index of the slot.
pub const ITEM_TOO_LONG: u32 = 0x703;
/// The row of a slot refers to bytes that are not there; the answer has the index of the slot.
pub const SLOT_OUT_OF_RANGE: u32 = 0x704;
/// There is no type of channels of this kind.
pub const NO_SUCH_CHANNEL_TYPE: u32 = 0x801;
/// Bytes that are to be a key of the commitment do not have the form of one; the answer has which of its fields it is, from 0.
pub const NOT_A_COMMITMENT_KEY: u32 = 0x802;
/// There is no direction of this kind; the answer has the index of the HTLC.
pub const NO_SUCH_DIRECTION: u32 = 0x803;
/// The expiry of an HTLC is 500,000,000 or more, which is a time and not a height; the answer has the index of the HTLC.
pub const EXPIRY_TOO_LARGE: u32 = 0x804;
/// It is neither one's own commitment nor the peer's.
pub const NO_SUCH_CLOSE: u32 = 0x805;
/// A slot asks a signature, and the next one that is given is not of it, or stands out of order; the answer has the item that lacks it.
pub const NO_SIGNATURE: u32 = 0x901;
/// The row of a signature refers to bytes that are not there; the answer has its item, as of the two below.
pub const SIGNATURE_OUT_OF_RANGE: u32 = 0x902;
/// Bytes that are to be a signature are not strict DER (BIP 66) with the byte of its hash type after it.
pub const NOT_DER: u32 = 0x903;
/// The hash type of a signature is not ALL, the byte 01.
pub const NOT_SIGHASH_ALL: u32 = 0x904;
/// A signature is given after that of the last slot that asks one; the answer has the item of its row.
pub const NOT_ASKED: u32 = 0x905;

/// The place of a signature: an item of an input's witness, the deepest item of the stack first.
#[derive(Clone, Copy, Drop)]
pub struct SignaturePlace {
    pub input: usize,
    pub item: usize,
}

/// Why a call gives nothing.
#[derive(Drop)]
pub enum Refusal {
    NoMemory,
    Parse(ParseError),
    Check(CheckError),
    NoSuchForm,
    /// Which key of a form it is, or of which slot.
    NotAKey(usize),
    NotAHeight,
    OutOfRange,
    /// Which slot it is.
    NoSuchSlot(usize),
    /// Which slot it is.
    ItemTooLong(usize),
    /// Which slot it is.
    SlotOutOfRange(usize),
    Accept(AcceptError),
    Field(FieldError),
    Spend(SpendError),
    Encode(EncodeError),
    Decode(DecodeError),
    NoSuchChannelType,
    /// Which key it is, in the order of the fields.
    NotACommitmentKey(usize),
    /// Which HTLC it is of.
    NoSuchDirection(usize),
    /// Which HTLC it is of.
    ExpiryTooLarge(usize),
    NoSuchClose,
    NoSignature(SignaturePlace),
    SignatureOutOfRange(SignaturePlace),
    NotDer(SignaturePlace),
    NotSighashAll(SignaturePlace),
    NotAsked(SignaturePlace),
}

// The status of a refused claim.
fn accept_status(error: &AcceptError) -> u32
    ensures value { result ≡ accept_status error.now }
    ensures refused { DONE < result }
{
    match error {
        AcceptError::NoMemory => NO_MEMORY,
        AcceptError::NoSuchPath => NO_SUCH_PATH,
        AcceptError::WrongArity => WRONG_ARITY,
        AcceptError::Unmet(_) => UNMET,
        AcceptError::Contradiction => CONTRADICTION,
        AcceptError::WrongProgram => WRONG_PROGRAM,
        AcceptError::WrongShell => WRONG_SHELL,
    }
}

// The status of a refused spend.
fn spend_status(error: &SpendError) -> u32
    ensures value { result ≡ spend_status error.now }
    ensures refused { DONE < result }
{
    match error {
        SpendError::NoMemory => NO_MEMORY,
        SpendError::FixedTransaction => FIXED_TRANSACTION,
        SpendError::SameOutpoint => SAME_OUTPOINT,
        SpendError::OutputsExceed => OUTPUTS_EXCEED,
        SpendError::MeasuredSignature => MEASURED_SIGNATURE,
        SpendError::NoPreimage => NO_PREIMAGE,
    }
}

// The status of a part that a transaction can't have.
fn field_status(error: &FieldError) -> u32
    ensures value { result ≡ field_status error.now }
    ensures refused { DONE < result }
{
    match error {
        FieldError::NoInputs => NO_INPUTS,
        FieldError::ValueTooLarge => VALUE_TOO_LARGE,
        FieldError::OverLimit => OVER_LIMIT,
    }
}

// The status of a transaction that is not encoded.
fn encode_status(error: &EncodeError) -> u32
    ensures value { result ≡ encode_status error.now }
    ensures refused { DONE < result }
{
    match error {
        EncodeError::NoMemory => NO_MEMORY,
        EncodeError::NoWitness => NO_WITNESS,
    }
}

// The status of a transaction's bytes that are refused.
fn decode_status(error: &DecodeError) -> u32
    ensures value { result ≡ decode_status error.now }
    ensures refused { DONE < result }
{
    match error {
        DecodeError::NoMemory => NO_MEMORY,
        DecodeError::Truncated => TRUNCATED_TRANSACTION,
        DecodeError::LongCount => LONG_COUNT,
        DecodeError::BadMarker => BAD_MARKER,
        DecodeError::NoInputs => NO_INPUTS,
        DecodeError::NoWitness => NO_WITNESS,
        DecodeError::ValueTooLarge => VALUE_TOO_LARGE,
        DecodeError::Trailing => TRAILING,
        DecodeError::OverLimit => OVER_LIMIT,
    }
}

// The status of a script's bytes that are refused.
fn parse_status(error: &ParseError) -> u32
    ensures value { result ≡ parse_status error.now }
    ensures refused { DONE < result }
{
    match error {
        ParseError::NoMemory => NO_MEMORY,
        ParseError::BadOpcode(_) => BAD_OPCODE,
        ParseError::Truncated(_) => TRUNCATED,
        ParseError::TooLong => TOO_LONG,
    }
}

// The status of a script that is not listed.
fn check_status(error: &CheckError) -> u32
    ensures value { result ≡ check_status error.now }
    ensures refused { DONE < result }
{
    match error {
        CheckError::NoMemory => NO_MEMORY,
        CheckError::OpenBranch => OPEN_BRANCH,
        CheckError::TooManyOps => TOO_MANY_OPS,
        CheckError::Undecided(_) => UNDECIDED,
        CheckError::TooManyPaths => TOO_MANY_PATHS,
        CheckError::TooTall => TOO_TALL,
    }
}

// The slot that a fact is about; 0 where it is about the spend.
fn slot_of(fact: &Fact) -> usize
    ensures { result ≡ slot_of fact.now }
{
    match fact {
        Fact::Hash(slot, _) => *slot,
        Fact::Size(slot, _) => *slot,
        Fact::Truth(slot) => *slot,
        Fact::Is(slot, _) => *slot,
        Fact::KeyForm(slot) => *slot,
        Fact::Form(slot) => *slot,
        Fact::Token(slot, _) => *slot,
        Fact::Assigned(slots, _) => first_of(slots.values()),
        Fact::Lock(_) => 0,
        Fact::Age(_) => 0,
    }
}

// The first slot of a choice; 0 where it has none.
fn first_of(slots: &[usize]) -> usize
    ensures { result ≡ first_of slots.now }
{
    match slots.first() {
        Some(slot) => *slot,
        None => 0,
    }
}

impl Refusal {
    /// The status: the family times 256, and the refusal's number in it.
    pub fn status(&self) -> u32
        ensures value { result ≡ status_of self.now }
        ensures refused { DONE < result }
    {
        match self {
            Refusal::NoMemory => NO_MEMORY,
            Refusal::Parse(error) => parse_status(error),
            Refusal::Check(error) => check_status(error),
            Refusal::NoSuchForm => NO_SUCH_FORM,
            Refusal::NotAKey(_) => NOT_A_KEY,
            Refusal::NotAHeight => NOT_A_HEIGHT,
            Refusal::OutOfRange => OUT_OF_RANGE,
            Refusal::NoSuchSlot(_) => NO_SUCH_SLOT,
            Refusal::ItemTooLong(_) => ITEM_TOO_LONG,
            Refusal::SlotOutOfRange(_) => SLOT_OUT_OF_RANGE,
            Refusal::Accept(error) => accept_status(error),
            Refusal::Field(error) => field_status(error),
            Refusal::Spend(error) => spend_status(error),
            Refusal::Encode(error) => encode_status(error),
            Refusal::Decode(error) => decode_status(error),
            Refusal::NoSuchChannelType => NO_SUCH_CHANNEL_TYPE,
            Refusal::NotACommitmentKey(_) => NOT_A_COMMITMENT_KEY,
            Refusal::NoSuchDirection(_) => NO_SUCH_DIRECTION,
            Refusal::ExpiryTooLarge(_) => EXPIRY_TOO_LARGE,
            Refusal::NoSuchClose => NO_SUCH_CLOSE,
            Refusal::NoSignature(_) => NO_SIGNATURE,
            Refusal::SignatureOutOfRange(_) => SIGNATURE_OUT_OF_RANGE,
            Refusal::NotDer(_) => NOT_DER,
            Refusal::NotSighashAll(_) => NOT_SIGHASH_ALL,
            Refusal::NotAsked(_) => NOT_ASKED,
        }
    }

    /// The number that the refusal carries: a byte's position, or the index of an opcode, a key, a slot, an HTLC or an item, from 0; else 0.
    pub fn number(&self) -> usize
        ensures { result ≡ number_of self.now }
    {
        match self {
            Refusal::Parse(ParseError::BadOpcode(at)) => *at,
            Refusal::Parse(ParseError::Truncated(at)) => *at,
            Refusal::Check(CheckError::Undecided(at)) => *at,
            Refusal::NotAKey(number) => *number,
            Refusal::NoSuchSlot(index) => *index,
            Refusal::ItemTooLong(index) => *index,
            Refusal::SlotOutOfRange(index) => *index,
            Refusal::Accept(AcceptError::Unmet(stated)) => slot_of(&stated.fact),
            Refusal::NotACommitmentKey(number) => *number,
            Refusal::NoSuchDirection(index) => *index,
            Refusal::ExpiryTooLarge(index) => *index,
            Refusal::NoSignature(place) => place.item,
            Refusal::SignatureOutOfRange(place) => place.item,
            Refusal::NotDer(place) => place.item,
            Refusal::NotSighashAll(place) => place.item,
            Refusal::NotAsked(place) => place.item,
            _ => 0,
        }
    }
}

impl From<AllocError> for Refusal {
    ghost from_gives = { λ _ e. e ≡ NoMemory };

    fn from(_error: AllocError) -> Refusal {
        Refusal::NoMemory
    }
}

impl<T: Drop> From<AllocFailed<T>> for Refusal {
    ghost from_gives = { λ _ e. e ≡ NoMemory };

    fn from(_error: AllocFailed<T>) -> Refusal {
        Refusal::NoMemory
    }
}
