// The state of a path in progress, what stops or turns it, and the paths that are listed.

ghost use Rattle.std.specs.Prelude.{◌≡◌, IfOk};
ghost use Rattle.script.specs.Step.{result_if};
ghost use Rattle.paths.specs.HoleListing.{beginning, with_excess, is_low as is_low_of};

use crate::constants::{Amount, Constant, Stated, Sym, copied_stated, copied_sym};
use facts::{FactOver, StatedOver, SymOver};
use lists::{List, Stack};
use script::limits::MAX_STACK_SIZE;
use std::alloc::{AllocError, Global};

/// A path in progress, before an opcode of the script.
#[derive(Drop)]
pub struct StateOver<C, L, A> {
    /// The number of opcodes that it jumps over next.
    pub ahead: usize,
    /// The symbols on the stack; below them are the slots that were not reached yet.
    pub stack: Stack<SymOver<C, L, A>>,
    /// The number of slots reached.
    pub slots: usize,
    /// The facts in the order in which they arose.
    pub facts: List<StatedOver<C, L, A>>,
    /// The number of keys of CHECKMULTISIGs counted.
    pub keys: usize,
    /// The greatest number by which the elements have exceeded those of the witness.
    pub excess: usize,
}

/// A path in progress.
pub type State = StateOver<Constant, Amount<u64>, Amount<u32>>;

impl State {
    /// The state in which a path begins. It allocates nothing.
    pub fn new(alloc: Global) -> Self
        ensures { result ≡ beginning }
    {
        State {
            ahead: 0,
            stack: Stack::new(alloc),
            slots: 0,
            facts: List::new(alloc),
            keys: 0,
            excess: 0,
        }
    }

    /// A copy. The only error is that memory ran out.
    pub fn copy(&self) -> Result<Self, AllocError>
        ensures { IfOk result (λ s. s ≡ self.now) }
    {
        let stack = Stack::from_vec(copied_syms(self.stack.allocator(), self.stack.values())?);
        let facts = List::from_vec(copied_facts(self.facts.allocator(), self.facts.values())?);
        Ok(State {
            ahead: self.ahead,
            stack,
            slots: self.slots,
            facts,
            keys: self.keys,
            excess: self.excess,
        })
    }

    /// Whether the greatest number of elements of a run so far is at most 1,000.
    pub fn is_low(&self) -> bool
        ensures { result ≡ is_low_of self.now }
    {
        self.slots <= MAX_STACK_SIZE && self.excess <= MAX_STACK_SIZE - self.slots
    }

    /// Updates `excess` from the elements on the stack.
    pub fn measure(&mut self)
        ensures { self.new ≡ with_excess self.old }
    {
        let more = self.stack.len().saturating_sub(self.slots);
        self.excess = self.excess.max(more);
    }
}

// Copies of symbols.
fn copied_syms(alloc: Global, syms: &[Sym]) -> Result<Vec<Sym>, AllocError>
    ensures { IfOk result (λ v. v.items ≡ syms.now) }
{
    let mut copies = Vec::new(alloc);
    for sym in syms {
        copies.push(copied_sym(sym)?)?;
    }
    Ok(copies)
}

// Copies of stated facts.
fn copied_facts(alloc: Global, facts: &[Stated]) -> Result<Vec<Stated>, AllocError>
    ensures { IfOk result (λ v. v.items ≡ facts.now) }
{
    let mut copies = Vec::new(alloc);
    for stated in facts {
        copies.push(copied_stated(stated)?)?;
    }
    Ok(copies)
}

/// Why a path does not go on from an opcode.
#[derive(Clone, Copy, PartialEq, Eq, Debug)]
pub enum Halt {
    /// Memory ran out.
    NoMemory,
    /// No witness can go on.
    Dead,
    /// No rule decides the opcode.
    Undecided,
    /// The keys of a CHECKMULTISIG lift the count of opcodes above 201.
    TooManyOps,
}

/// Where a path goes after an opcode.
#[derive(Drop)]
pub enum SymbolicJumpOver<C, L, A> {
    /// To the next opcode.
    Next,
    /// After the ELSE of this IF, or after its ENDIF where it has no ELSE.
    AfterElse,
    /// After the ENDIF of this ELSE.
    AfterEndIf,
    /// To the next opcode where the fact is as stated, and after the ELSE where it is not.
    Splits(FactOver<C, L, A>, bool),
}

/// Where a path goes after an opcode.
pub type SymbolicJump = SymbolicJumpOver<Constant, Amount<u64>, Amount<u32>>;

/// What decides whether a symbol counts as true.
#[derive(Drop)]
pub enum ConditionOver<C, L, A> {
    /// This is known.
    Known(bool),
    /// This fact decides it.
    Asked(FactOver<C, L, A>),
}

/// What decides whether a symbol counts as true.
pub type Condition = ConditionOver<Constant, Amount<u64>, Amount<u32>>;

/// A way through a script: whatever witness meets it runs clean.
#[derive(Debug, Drop)]
pub struct Path {
    /// The number of witness items, the script not counted.
    pub arity: usize,
    /// What is asked of the witness and the spend, in the order in which it arises.
    pub facts: List<facts::Stated>,
    /// The counted opcodes of a run, keys of CHECKMULTISIGs included; at most 201.
    pub ops: usize,
    /// The greatest number of elements of a run, at most 1,000.
    pub height: usize,
    /// The greatest absolute lock that the run checks (BIP 65): a height below 500,000,000, else a time in seconds.
    pub lock: Option<u64>,
    /// The greatest relative lock in blocks that the run checks (BIP 68, 112).
    pub age: Option<u16>,
}

/// A way through a pattern: a path whose constants may be holes.
#[derive(Debug, Drop)]
pub struct PatternPath {
    /// The number of witness items, the script not counted.
    pub arity: usize,
    /// What is asked of the witness and the spend, in the order in which it arises.
    pub facts: List<Stated>,
    /// The counted opcodes of a run, keys of CHECKMULTISIGs included.
    pub ops: usize,
    /// The greatest number of elements of a run.
    pub height: usize,
}

/// The paths listed so far, and the number of paths begun.
#[derive(Drop)]
pub struct ListedOver<P> {
    /// The number of paths begun, including those that end dead.
    pub begun: usize,
    /// The paths that ended, in the text order of their branches.
    pub paths: List<P>,
}

/// The paths that were listed so far.
pub type Listed = ListedOver<PatternPath>;
