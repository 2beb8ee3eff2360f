// Symbols and facts.

ghost use Rattle.std.specs.Prelude.{◌≡◌, IfOk};

use lists::{ByteString, List};
use std::alloc::AllocError;

/// Where a key comes from. `C` is the type of constant bytes.
#[derive(Clone, Debug, Drop)]
pub enum KeySourceOver<C> {
    /// The script pushes it.
    Const(C),
    /// It is this slot of the witness.
    Slot(usize),
}

/// Where a key comes from.
pub type KeySource = KeySourceOver<ByteString>;

/// What can be asked of a witness and a spend. `C` is the type of constant bytes, `L` that of the number of an absolute lock, and `A` that of
/// a relative lock's. Slots count from 0 at the top of the stack.
#[derive(Clone, Debug, Drop)]
pub enum FactOver<C, L, A> {
    /// HASH160 of the slot is these 20 bytes.
    Hash(usize, C),
    /// The slot has this number of bytes.
    Size(usize, u32),
    /// The slot counts as true.
    Truth(usize),
    /// The slot is these bytes.
    Is(usize, C),
    /// The slot has the form of a key.
    KeyForm(usize),
    /// The slot is empty or has the form of a token.
    Form(usize),
    /// The slot is the token of the key over the spend's digest.
    Token(usize, KeySourceOver<C>),
    /// The slots are tokens of an increasing choice of the keys, both lists deepest first.
    Assigned(List<usize>, List<KeySourceOver<C>>),
    /// CHECKLOCKTIMEVERIFY of this number passes (BIP 65).
    Lock(L),
    /// CHECKSEQUENCEVERIFY of this number passes (BIP 112). Of a number only the bits of 0x40ffff are kept.
    Age(A),
}

/// What can be asked of a witness and a spend.
pub type Fact = FactOver<ByteString, u64, u32>;

/// A fact with its polarity: that it holds, or that it does not.
#[derive(Debug, Drop)]
pub struct StatedOver<C, L, A> {
    pub fact: FactOver<C, L, A>,
    pub holds: bool,
}

/// A fact with its polarity.
pub type Stated = StatedOver<ByteString, u64, u32>;

/// An element of a symbolic stack.
#[derive(Clone, Debug, Drop)]
pub enum SymOver<C, L, A> {
    /// An item of the witness.
    Slot(usize),
    /// Known bytes.
    Const(C),
    /// HASH160 of a slot.
    HashOf(usize),
    /// The length of a slot, as a number.
    SizeOf(usize),
    /// 1 if the fact holds, else the empty item.
    Holds(FactOver<C, L, A>),
}

/// An element of a symbolic stack.
pub type Sym = SymOver<ByteString, u64, u32>;

impl<C: Clone, L: Clone, A: Clone> Clone for StatedOver<C, L, A> {
    // The copy is equal where clones of constants and of numbers are.
    ghost is_clone = { λ s copy. ((x y : C) → C.is_clone x y → y ≡ x) →
        ((x y : L) → L.is_clone x y → y ≡ x) → ((x y : A) → A.is_clone x y → y ≡ x) → copy ≡ s };

    fn clone(&self) -> Result<Self, AllocError> {
        Ok(StatedOver {
            fact: self.fact.clone()?,
            holds: self.holds,
        })
    }
}

impl KeySource {
    /// A copy. The only error is that memory ran out.
    pub fn copy(&self) -> Result<Self, AllocError>
        ensures { IfOk result (λ k. k ≡ self.now) }
    {
        self.clone()
    }
}

impl Fact {
    /// A copy. The only error is that memory ran out.
    pub fn copy(&self) -> Result<Self, AllocError>
        ensures { IfOk result (λ f. f ≡ self.now) }
    {
        self.clone()
    }
}

impl Stated {
    /// A copy. The only error is that memory ran out.
    pub fn copy(&self) -> Result<Self, AllocError>
        ensures { IfOk result (λ s. s ≡ self.now) }
    {
        self.clone()
    }
}

impl Sym {
    /// A copy. The only error is that memory ran out.
    pub fn copy(&self) -> Result<Self, AllocError>
        ensures { IfOk result (λ s. s ≡ self.now) }
    {
        self.clone()
    }
}
