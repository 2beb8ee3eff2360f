// Constants of a script that may be holes of a pattern, and what the rules ask of them.

ghost use Rattle.std.specs.Prelude.{◌≡◌, ◌≤◌, IfOk};
ghost use Rattle.paths.specs.Answers.{Answers, IfHalts};
ghost use Rattle.paths.specs.Holes.{size_in, hash_in, equal_in, truth_in, is_hash_in, named_size_in, is_bad_key_in, is_bad_signature_in, is_bad_extra_in, is_no_signature_in, is_clear_extra_in, count_in, lock_in, is_off_in, age_bits_in};
ghost use Rattle.paths.specs.Rules.{named_size as size_named, age_bits as masked_by, count_bytes};
ghost use Rattle.script.specs.Number.{number_of};

use crate::state::Halt;
use facts::{FactOver, KeySourceOver, StatedOver, SymOver};
use lists::ByteString;
use script::limits::MAX_SCRIPT_ELEMENT_SIZE;
use script::num;
use script::num::Limit;
use script::tokens::{has_key_form, has_signature_form};
use script::truths::{flag, is_true};
use std::alloc::{AllocError, Global};

/// What a hole of a pattern takes.
#[derive(Clone, Copy, PartialEq, Eq, Debug)]
pub enum HoleKind {
    /// A key of 33 bytes.
    Key,
    /// A hash of 20 bytes.
    Hash,
    /// A number from 0 to 499,999,999.
    Number,
}

/// Bytes that a script pushes.
#[derive(Clone, Debug, Drop)]
pub enum Constant {
    /// These bytes.
    Known(ByteString),
    /// The bytes that fill a hole, by its position in the pattern.
    Hole(HoleKind, usize),
}

/// The number of a lock.
#[derive(Clone, Debug, Drop)]
pub enum Amount<N> {
    /// This number.
    Known(N),
    /// The number that fills a hole, by its position in the pattern.
    Hole(usize),
}

/// Where a key comes from, which may be a hole.
pub type KeySource = KeySourceOver<Constant>;

/// A fact whose constants may be holes.
pub type Fact = FactOver<Constant, Amount<u64>, Amount<u32>>;

/// A fact with its polarity.
pub type Stated = StatedOver<Constant, Amount<u64>, Amount<u32>>;

/// A symbol whose constants may be holes.
pub type Sym = SymOver<Constant, Amount<u64>, Amount<u32>>;

/// Stands in for the key of a hole where the script pushes no key there.
pub const BLANK_KEY: [u8; 33] = [
    2, 0, 0, 0, 0, 0, 0, 0, 0, 0, 0, 0, 0, 0, 0, 0, 0, 0, 0, 0, 0, 0, 0, 0, 0, 0, 0, 0, 0, 0, 0, 0,
    0,
];

/// Stands in for the hash of a hole where the script pushes no hash there.
pub const BLANK_HASH: [u8; 20] = [0, 0, 0, 0, 0, 0, 0, 0, 0, 0, 0, 0, 0, 0, 0, 0, 0, 0, 0, 0];

impl Constant {
    /// A copy. The only error is that memory ran out.
    pub fn copy(&self) -> Result<Self, AllocError>
        ensures { IfOk result (λ c. c ≡ self.now) }
    {
        self.clone()
    }

    /// Its length in bytes, as a script number.
    pub fn size(&self, alloc: Global) -> Result<Constant, Halt>
        ensures { Answers IfHalts (size_in self.now) result }
    {
        match self {
            Constant::Known(item) => Ok(Constant::Known(num::write(alloc, item.len() as u64)?)),
            Constant::Hole(HoleKind::Key, _) => Ok(Constant::Known(num::write(alloc, 33)?)),
            Constant::Hole(HoleKind::Hash, _) => Ok(Constant::Known(num::write(alloc, 20)?)),
            Constant::Hole(HoleKind::Number, _) => Err(Halt::Undecided),
        }
    }

    /// HASH160 of it.
    pub fn hash(&self, alloc: Global) -> Result<Constant, Halt>
        ensures { Answers IfHalts (hash_in self.now) result }
    {
        match self {
            Constant::Known(item) => Ok(Constant::Known(ByteString::from_slice(
                alloc,
                &digest::hash160(item.bytes()),
            )?)),
            Constant::Hole(_, _) => Err(Halt::Undecided),
        }
    }

    /// EQUAL of the two: the element 01 if they are equal, else the empty one.
    pub fn equal(&self, other: &Constant, alloc: Global) -> Result<Constant, Halt>
        ensures { Answers IfHalts (equal_in self.now other.now) result }
    {
        match (self, other) {
            (Constant::Known(a), Constant::Known(b)) => {
                Ok(Constant::Known(flag(alloc, a.equals(b))?))
            }
            _ => Err(Halt::Undecided),
        }
    }

    /// Whether it counts as true.
    pub fn truth(&self) -> Result<bool, Halt>
        ensures { Answers IfHalts (truth_in self.now) result }
    {
        match self {
            Constant::Known(item) => Ok(is_true(item.bytes())),
            Constant::Hole(_, _) => Err(Halt::Undecided),
        }
    }

    /// Whether it may be a result of HASH160, which has 20 bytes.
    pub fn is_hash(&self) -> bool
        ensures { result ≡ is_hash_in self.now }
    {
        match self {
            Constant::Known(item) => item.len() == 20,
            Constant::Hole(HoleKind::Hash, _) => true,
            Constant::Hole(_, _) => false,
        }
    }

    /// The number from 0 to 520 whose minimal encoding it is.
    pub fn named_size(&self, alloc: Global) -> Result<Option<u32>, Halt>
        ensures { Answers IfHalts (named_size_in self.now) result }
    {
        match self {
            Constant::Known(item) => Ok(named_size(alloc, item)?),
            Constant::Hole(HoleKind::Number, _) => Err(Halt::Undecided),
            Constant::Hole(_, _) => Ok(None),
        }
    }

    /// Whether every run rejects it as a key.
    pub fn is_bad_key(&self) -> bool
        ensures { result ≡ is_bad_key_in self.now }
    {
        match self {
            Constant::Known(item) => !has_key_form(item.bytes()),
            Constant::Hole(HoleKind::Key, _) => false,
            Constant::Hole(_, _) => true,
        }
    }

    /// Whether every run rejects it as a signature.
    pub fn is_bad_signature(&self) -> bool
        ensures { result ≡ is_bad_signature_in self.now }
    {
        match self {
            Constant::Known(item) => !has_signature_form(item.bytes()),
            Constant::Hole(HoleKind::Number, _) => false,
            Constant::Hole(_, _) => true,
        }
    }

    /// Whether every run rejects it as the extra item of CHECKMULTISIG (BIP 147).
    pub fn is_bad_extra(&self) -> bool
        ensures { result ≡ is_bad_extra_in self.now }
    {
        match self {
            Constant::Known(item) => !item.is_empty(),
            Constant::Hole(HoleKind::Number, _) => false,
            Constant::Hole(_, _) => true,
        }
    }

    /// Whether it is the empty signature.
    pub fn is_no_signature(&self) -> bool
        ensures { result ≡ is_no_signature_in self.now }
    {
        match self {
            Constant::Known(item) => item.is_empty(),
            Constant::Hole(_, _) => false,
        }
    }

    /// Whether it is decided here if the item is empty: not for a number that the witness gives.
    pub fn is_clear_extra(&self) -> bool
        ensures { result ≡ is_clear_extra_in self.now }
    {
        !matches!(self, Constant::Hole(HoleKind::Number, _))
    }

    /// The count of keys or signatures, from 0 to a limit, that it spells.
    pub fn count(&self, limit: usize) -> Result<usize, Halt>
        ensures exact { Answers IfHalts (count_in limit self.now) result }
        ensures low { IfOk result (λ n. n ≤ limit) }
    {
        match self {
            Constant::Known(item) => count(item, limit),
            Constant::Hole(HoleKind::Number, _) => Err(Halt::Undecided),
            Constant::Hole(_, _) => Err(Halt::Dead),
        }
    }

    /// The number of the lock that it spells.
    pub fn lock(&self) -> Result<Amount<u64>, Halt>
        ensures { Answers IfHalts (lock_in self.now) result }
    {
        match self {
            Constant::Known(item) => match num::read(item.bytes(), Limit::Lock) {
                Some(number) if !number.negative => Ok(Amount::Known(number.magnitude)),
                _ => Err(Halt::Dead),
            },
            Constant::Hole(HoleKind::Number, at) => Ok(Amount::Hole(*at)),
            Constant::Hole(_, _) => Err(Halt::Dead),
        }
    }
}

/// Whether a relative lock is disabled (bit 31, BIP 112).
pub fn is_off(age: &Amount<u64>) -> bool
    ensures { result ≡ is_off_in age.now }
{
    match age {
        Amount::Known(n) => *n / (1 << 31) % 2 == 1,
        Amount::Hole(_) => false,
    }
}

/// The bits of a relative lock that its check reads: those of the mask 0x40ffff (BIP 112).
pub fn age_bits(age: &Amount<u64>) -> Amount<u32>
    ensures { result ≡ age_bits_in age.now }
{
    match age {
        Amount::Known(n) => Amount::Known(masked(*n)),
        Amount::Hole(at) => Amount::Hole(*at),
    }
}

/// A number masked with 0x40ffff (BIP 112).
pub fn masked(age: u64) -> u32
    ensures { result ≡ masked_by age }
{
    (age % (1 << 16) + age / (1 << 22) % 2 * (1 << 22)) as u32
}

// The number from 0 to 520 whose minimal encoding these bytes are. The only error is that memory ran out.
fn named_size(alloc: Global, bytes: &ByteString) -> Result<Option<u32>, AllocError>
    ensures { IfOk result (λ n. n ≡ size_named bytes.now (number_of 4 bytes.now)) }
{
    let Some(number) = num::read(bytes.bytes(), Limit::Count) else {
        return Ok(None);
    };
    if number.negative || number.magnitude > MAX_SCRIPT_ELEMENT_SIZE as u64 {
        return Ok(None);
    }
    if num::write(alloc, number.magnitude)?.equals(bytes) {
        Ok(Some(number.magnitude as u32))
    } else {
        Ok(None)
    }
}

// The count from 0 to a limit that these bytes encode.
fn count(bytes: &ByteString, limit: usize) -> Result<usize, Halt>
    ensures exact { Answers IfHalts (count_bytes limit bytes.now) result }
    ensures low { IfOk result (λ n. n ≤ limit) }
{
    match num::read(bytes.bytes(), Limit::Count) {
        Some(number) if !number.negative && number.magnitude <= limit as u64 => {
            Ok(number.magnitude as usize)
        }
        _ => Err(Halt::Dead),
    }
}

/// A copy of a fact. The only error is that memory ran out.
pub fn copied_fact(fact: &Fact) -> Result<Fact, AllocError>
    ensures { IfOk result (λ f. f ≡ fact.now) }
{
    fact.clone()
}

/// A copy of a stated fact. The only error is that memory ran out.
pub fn copied_stated(stated: &Stated) -> Result<Stated, AllocError>
    ensures { IfOk result (λ s. s ≡ stated.now) }
{
    Ok(Stated {
        fact: copied_fact(&stated.fact)?,
        holds: stated.holds,
    })
}

/// A copy of a symbol. The only error is that memory ran out.
pub fn copied_sym(sym: &Sym) -> Result<Sym, AllocError>
    ensures { IfOk result (λ s. s ≡ sym.now) }
{
    sym.clone()
}
