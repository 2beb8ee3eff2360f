// Finds the branches that end by a rule that is stricter than consensus.
//
// The walk follows the same branches as `paths::check`, but keeps no facts. In a script that is listed, it begins the same branches.

ghost use Rattle.std.specs.Prelude.{true, Some, All, [], ◌≡◌, ◌≤◌, ◌<◌, ◌+◌, ◌==◌, ◌&&◌, ◌∷◌, ◌^◌, IfOk, IfSome, OnOk, is_some, length, take, drop};
ghost use Rattle.std.specs.List.{list_any};
ghost use Rattle.script.specs.Spelling.{IsOp};
ghost use Rattle.strictness.specs.Balance.{is_balanced};
ghost use Rattle.strictness.specs.Machine.{NobodySpends};
ghost use Rattle.strictness.specs.Values.{natural_of};
ghost use Rattle.strictness.specs.Words.{bytes_of, words, word_of, constant, shown as shown_of, truth_of, top_of, below};
ghost use Rattle.strictness.specs.Turns.{step_of, count_step, IsWithin, IsTurn, goes, keys_turn, signatures_turn, if_truth, if_held, is_refused as is_refused_of, is_no_key, signature_turn, check_sig as checked_sig, count_by, lock_by, count_of as counted, is_full as is_full_of, has_refused, check_multi_sig as checked_multi_sig, check_lock as checked_lock, turn_of};
ghost use Rattle.strictness.specs.Exact.{depth_of, mode_at_first, mode_after, by_step, is_exact, goes_on, is_exact_from, are_exact_from, is_false as is_false_word, ends_refused, ends_as_in_consensus};

use crate::entries::{Bytes, Entry, pop, push, shown};
use crate::faults::Fault;
use crate::numbers::read_natural;
use crate::signatures::is_der;
use lists::Stack;
use script::Op;
use script::num::{Limit, read};
use script::tokens::has_key_form;
use std::alloc::{AllocError, Global};

// The most branches that a listed script begins.
const MAX_BRANCHES: usize = 64;

/// A rule that is stricter than consensus.
#[derive(Clone, Copy, PartialEq, Eq)]
pub enum Rule {
    /// A key has 33 bytes, and begins with 02 or 03.
    Key,
    /// A signature is a token, or empty.
    Signature,
    /// A number is minimally encoded.
    Number,
}

/// Where a branch ended by a rule that is stricter than consensus: the opcode, counted from 0, and the bytes of the script that break the rule.
#[derive(Clone, Copy)]
pub struct StrictEnd {
    pub op: usize,
    pub rule: Rule,
    pub bytes: Bytes,
}

/// How the branches of a script end.
#[derive(Drop)]
pub struct Ends {
    /// Those that end by a rule that is stricter than consensus; each opcode and rule once.
    pub strict: Vec<StrictEnd>,
    /// Whether each ends as in consensus.
    pub is_exact: bool,
}

/// Where a branch goes after an opcode.
#[derive(Clone, Copy)]
pub enum Turn {
    /// To the next opcode.
    Next,
    /// After the ELSE of this IF, or after its ENDIF where it has no ELSE.
    AfterElse,
    /// After the ENDIF of this ELSE.
    AfterEndIf,
    /// Both to the next opcode and after the ELSE.
    Splits,
    /// It ends, as in consensus, by a fault of these bytes.
    Ends(Fault, Bytes),
    /// It ends by a rule that is stricter than consensus.
    EndsStrictly(Rule, Bytes),
    /// The script does not determine where: a count is not one of its constants. A listed script has no such count.
    Lost,
}

/// Whether a branch runs the next opcode.
#[derive(Clone, Copy)]
pub enum Mode {
    /// It runs it.
    Running,
    /// It skips it. This many IFs were opened since it began to skip; it goes on after its ENDIF or, if this is true, after its ELSE.
    Skipping(usize, bool),
    /// It is not known where it goes on.
    Lost,
}

/// A branch that is yet to be followed from an opcode on.
#[derive(Drop)]
pub struct Branch {
    /// The opcode.
    pub at: usize,
    /// Whether it has yet to skip to its ELSE.
    pub skips: bool,
    pub stack: Stack<Entry>,
}

/// Where the branches of a listed script end by a rule that is stricter than consensus. The only error is that memory ran out.
pub fn strict_ends(alloc: Global, ops: &[Op]) -> Result<Ends, AllocError>
    // Where each branch ends as in consensus, no witness is taken there, whatever the transaction and whichever signatures can be made.
    ensures { IfOk result (λ ends. ends.is_exact ≡ true → All IsOp ops.now → is_balanced ops.now [] ≡ true → NobodySpends ops.now) }
{
    all_ends(alloc, ops)
}

// The same, by the walk.
fn all_ends(alloc: Global, ops: &[Op]) -> Result<Ends, AllocError>
    ensures { IfOk result (λ ends. ends.is_exact ≡ true → ends_as_in_consensus ops.now ≡ true) }
{
    let mut strict = Vec::new(alloc);
    let mut waiting = Stack::new(alloc);
    let is_exact = walk(alloc, ops, &mut waiting, &mut strict)?;
    Ok(Ends { strict, is_exact })
}

// Follows each branch, and returns whether all of them end as in consensus.
fn walk(
    alloc: Global,
    ops: &[Op],
    waiting: &mut Stack<Branch>,
    strict: &mut Vec<StrictEnd>,
) -> Result<bool, AllocError>
    requires alone { waiting.old ≡ [] }
    requires none { length strict.old.items ≡ 0 }
    ensures { IfOk result (λ b. b ≡ true → ends_as_in_consensus ops.now ≡ true) }
{
    waiting.push(Branch {
        at: 0,
        skips: false,
        stack: Stack::new(alloc),
    })?;
    let mut is_refused = true;
    for _turn in 0..MAX_BRANCHES {
        let Some(branch) = waiting.pop() else {
            continue;
        };
        let ends = follow(ops, branch, waiting, strict)?;
        is_refused = is_refused && ends;
    }
    Ok(has_ended(is_refused, strict.as_slice(), waiting))
}

// Whether no branch waits, none ended as a run may that consensus takes, and no end is recorded.
fn has_ended(is_refused: bool, strict: &[StrictEnd], waiting: &Stack<Branch>) -> bool
    ensures { result ≡ (is_refused && length strict.now == 0 && (length waiting.now == 0)) }
{
    is_refused && strict.is_empty() && waiting.is_empty()
}

// Follows a branch to its end, and returns false if it ends after the last opcode as a run may that consensus takes. Branches that split off are queued.
fn follow(
    ops: &[Op],
    branch: Branch,
    waiting: &mut Stack<Branch>,
    strict: &mut Vec<StrictEnd>,
) -> Result<bool, AllocError>
    ensures { IfOk result (λ b. (length strict.old.items == 0 && (is_exact_from ops.now branch && are_exact_from ops.now waiting.old))
        ≡ (length strict.new.items == 0 && (b && are_exact_from ops.now waiting.new))) }
{
    let Branch {
        at,
        skips,
        mut stack,
    } = branch;
    follow_from(ops, at, first_mode(skips), &mut stack, waiting, strict)
}

// The same, for a branch that is here with this stack.
fn follow_from(
    ops: &[Op],
    at: usize,
    first: Mode,
    stack: &mut Stack<Entry>,
    waiting: &mut Stack<Branch>,
    strict: &mut Vec<StrictEnd>,
) -> Result<bool, AllocError>
    requires { depth_of first ≤ at }
    ensures { IfOk result (λ b. (length strict.old.items == 0 && (is_exact (drop at ops.now) first (words stack.old) && are_exact_from ops.now waiting.old))
        ≡ (length strict.new.items == 0 && (b && are_exact_from ops.now waiting.new))) }
{
    let mut mode = first;
    for index in at..ops.len() {
        match go_on(ops, index, mode, stack, waiting, strict)? {
            Some(then) => mode = then,
            None => return Ok(true),
        }
    }
    Ok(has_refused_end(mode, stack))
}

// Whether consensus refuses each run that ends with these entries after the last opcode.
fn has_refused_end(mode: Mode, stack: &mut Stack<Entry>) -> bool
    ensures { result ≡ ends_refused mode (words stack.old) }
{
    match mode {
        Mode::Running => match stack.pop() {
            Some(top) => match stack.pop() {
                Some(_) => true,
                None => is_false(&top),
            },
            None => false,
        },
        Mode::Skipping(_, _) => true,
        Mode::Lost => false,
    }
}

// Whether an entry is false whatever the witness has.
fn is_false(entry: &Entry) -> bool
    ensures { result ≡ is_false_word (word_of entry.now) }
{
    match entry.truth() {
        Some(holds) => !holds,
        None => false,
    }
}

// How a branch begins.
fn first_mode(skips: bool) -> Mode
    ensures mode { result ≡ mode_at_first skips }
    ensures depth { depth_of result ≡ 0 }
{
    if skips {
        Mode::Skipping(0, true)
    } else {
        Mode::Running
    }
}

// Passes an opcode, and returns how the branch goes on, if it does.
fn go_on(
    ops: &[Op],
    index: usize,
    mode: Mode,
    stack: &mut Stack<Entry>,
    waiting: &mut Stack<Branch>,
    strict: &mut Vec<StrictEnd>,
) -> Result<Option<Mode>, AllocError>
    requires here { index < length ops.now }
    requires depth { depth_of mode ≤ index }
    ensures depth { IfOk result (λ o. IfSome o (λ m. depth_of m ≤ index + 1)) }
    ensures exact { IfOk result (λ o. (length strict.old.items == 0 && (is_exact (drop index ops.now) mode (words stack.old) && are_exact_from ops.now waiting.old))
        ≡ (length strict.new.items == 0 && (goes_on (is_exact (drop (index + 1) ops.now)) o (words stack.new) && are_exact_from ops.now waiting.new))) }
{
    match mode {
        Mode::Skipping(depth, to_else) => Ok(Some(skipped(&ops[index], depth, to_else))),
        Mode::Lost => Ok(Some(Mode::Lost)),
        Mode::Running => {
            let turn = make_turn(&ops[index], stack)?;
            take_turn(ops, index, turn, stack, waiting, strict)
        }
    }
}

/// How a branch goes on after an opcode that it skips.
pub fn skipped(op: &Op, depth: usize, to_else: bool) -> Mode
    requires { depth + 1 < 2 ^ 64 }
    ensures mode { result ≡ mode_after op.now depth to_else }
    ensures depth { depth_of result ≤ depth + 1 }
{
    match op {
        Op::If | Op::NotIf => Mode::Skipping(depth + 1, to_else),
        Op::Else => {
            if depth == 0 && to_else {
                Mode::Running
            } else {
                Mode::Skipping(depth, to_else)
            }
        }
        Op::EndIf => {
            if depth == 0 {
                Mode::Running
            } else {
                Mode::Skipping(depth - 1, to_else)
            }
        }
        _ => Mode::Skipping(depth, to_else),
    }
}

// Takes a turn at an opcode, and returns how the branch goes on, if it does.
fn take_turn(
    ops: &[Op],
    index: usize,
    turn: Turn,
    stack: &Stack<Entry>,
    waiting: &mut Stack<Branch>,
    strict: &mut Vec<StrictEnd>,
) -> Result<Option<Mode>, AllocError>
    requires { index < length ops.now }
    ensures depth { IfOk result (λ o. IfSome o (λ m. depth_of m ≡ 0)) }
    ensures exact { IfOk result (λ o. (length strict.old.items == 0 && (by_step (is_exact (drop (index + 1) ops.now)) (step_of turn) (words stack.now) && are_exact_from ops.now waiting.old))
        ≡ (length strict.new.items == 0 && (goes_on (is_exact (drop (index + 1) ops.now)) o (words stack.now) && are_exact_from ops.now waiting.new))) }
{
    match turn {
        Turn::Next => Ok(Some(Mode::Running)),
        Turn::AfterElse => Ok(Some(Mode::Skipping(0, true))),
        Turn::AfterEndIf => Ok(Some(Mode::Skipping(0, false))),
        Turn::Splits => {
            wait(waiting, index + 1, stack)?;
            Ok(Some(Mode::Running))
        }
        Turn::Ends(_, _) => Ok(None),
        Turn::Lost => Ok(Some(Mode::Lost)),
        Turn::EndsStrictly(rule, bytes) => {
            let op = index;
            keep(strict, StrictEnd { op, rule, bytes })?;
            Ok(None)
        }
    }
}

// Queues the branch that is yet to skip to its ELSE, with a copy of this stack.
fn wait(waiting: &mut Stack<Branch>, at: usize, stack: &Stack<Entry>) -> Result<(), AllocError>
    ensures { OnOk result (waiting.new ≡ record { at = at; skips = true; stack = stack.now } ∷ waiting.old) }
{
    let copy = Stack::from_vec(Vec::from_slice(stack.allocator(), stack.values())?);
    waiting.push(Branch {
        at,
        skips: true,
        stack: copy,
    })
}

// Records an end, unless one at the same opcode by the same rule is recorded.
fn keep(ends: &mut Vec<StrictEnd>, end: StrictEnd) -> Result<(), AllocError>
    ensures { OnOk result (0 < length ends.new.items) }
{
    if !is_kept(ends.as_slice(), end) {
        ends.push(end)?;
    }
    Ok(())
}

// Whether an end at the same opcode by the same rule is recorded.
fn is_kept(ends: &[StrictEnd], end: StrictEnd) -> bool
    ensures { result ≡ true → 0 < length ends.now }
{
    for other in ends {
        if other.op == end.op && other.rule == end.rule {
            return true;
        }
    }
    false
}

/// Applies an opcode to a stack, and returns where the branch goes.
pub fn make_turn(op: &Op, stack: &mut Stack<Entry>) -> Result<Turn, AllocError>
    ensures { IfOk result (λ t. IsTurn (step_of t) (words stack.new)
        (turn_of op.now (words stack.old))) }
{
    match op {
        Op::Push(item) => put(stack, Entry::known(item.bytes())),
        Op::Number(n) => put(stack, Entry::known(&[*n])),
        Op::If => Ok(choose(true, stack)),
        Op::NotIf => Ok(choose(false, stack)),
        Op::Else => Ok(Turn::AfterEndIf),
        Op::EndIf => Ok(Turn::Next),
        Op::Drop => Ok(drop_top(stack)),
        Op::Dup => duplicate(stack),
        Op::Swap => swap(stack),
        Op::Size => measure(stack),
        Op::Equal => compare(stack),
        Op::EqualVerify => Ok(insist(stack)),
        Op::Hash160 => hash(stack),
        Op::CheckSig => check_sig(stack),
        Op::CheckMultiSig => check_multi_sig(stack),
        Op::CheckLockTimeVerify | Op::CheckSequenceVerify => check_lock(stack),
    }
}

// Pushes an entry.
fn put(stack: &mut Stack<Entry>, entry: Entry) -> Result<Turn, AllocError>
    ensures { IfOk result (λ t. IsTurn (step_of t) (words stack.new)
        (goes (word_of entry ∷ words stack.old))) }
{
    push(stack, entry)?;
    Ok(Turn::Next)
}

// DROP.
fn drop_top(stack: &mut Stack<Entry>) -> Turn
    ensures { IsTurn (step_of result) (words stack.new) (goes (below (words stack.old))) }
{
    let _top = pop(stack);
    Turn::Next
}

// DUP.
fn duplicate(stack: &mut Stack<Entry>) -> Result<Turn, AllocError>
    ensures { IfOk result (λ t. IsTurn (step_of t) (words stack.new)
        (turn_of Op.Dup (words stack.old))) }
{
    let top = pop(stack);
    push(stack, top)?;
    put(stack, top)
}

// SWAP.
fn swap(stack: &mut Stack<Entry>) -> Result<Turn, AllocError>
    ensures { IfOk result (λ t. IsTurn (step_of t) (words stack.new)
        (turn_of Op.Swap (words stack.old))) }
{
    let top = pop(stack);
    let second = pop(stack);
    push(stack, top)?;
    put(stack, second)
}

// SIZE.
fn measure(stack: &mut Stack<Entry>) -> Result<Turn, AllocError>
    ensures { IfOk result (λ t. IsTurn (step_of t) (words stack.new)
        (turn_of Op.Size (words stack.old))) }
{
    let top = pop(stack);
    push(stack, top)?;
    put(stack, top.size())
}

// EQUAL.
fn compare(stack: &mut Stack<Entry>) -> Result<Turn, AllocError>
    ensures { IfOk result (λ t. IsTurn (step_of t) (words stack.new)
        (turn_of Op.Equal (words stack.old))) }
{
    let top = pop(stack);
    let second = pop(stack);
    put(stack, second.equal(&top))
}

// HASH160.
fn hash(stack: &mut Stack<Entry>) -> Result<Turn, AllocError>
    ensures { IfOk result (λ t. IsTurn (step_of t) (words stack.new)
        (turn_of Op.Hash160 (words stack.old))) }
{
    let top = pop(stack);
    put(stack, top.hash())
}

// IF (`runs` is true) or NOTIF (`runs` is false).
#[tactic(auto, using(crate::proofs::Steps::turned))]
fn choose(runs: bool, stack: &mut Stack<Entry>) -> Turn
    ensures { IsTurn (step_of result) (words stack.new)
        (if_truth runs (truth_of (top_of (words stack.old))), below (words stack.old)) }
{
    let condition = pop(stack);
    branched(runs, &condition)
}

// EQUALVERIFY.
#[tactic(auto, using(crate::proofs::Steps::turned))]
fn insist(stack: &mut Stack<Entry>) -> Turn
    ensures { IsTurn (step_of result) (words stack.new) (turn_of Op.EqualVerify (words stack.old)) }
{
    let top = pop(stack);
    let second = pop(stack);
    insisted(&second.equal(&top), shown(&top, &second))
}

// Where a branch goes at an IF (`runs` is true) or a NOTIF (`runs` is false).
fn branched(runs: bool, condition: &Entry) -> Turn
    ensures { step_of result ≡ if_truth runs (truth_of (word_of condition.now)) }
{
    match condition.truth() {
        Some(true) => { if runs { Turn::Next } else { Turn::AfterElse } }
        Some(false) => { if runs { Turn::AfterElse } else { Turn::Next } }
        None => Turn::Splits,
    }
}

// The branch goes on only if the condition holds, of which these bytes are shown.
fn insisted(condition: &Entry, bytes: Bytes) -> Turn
    ensures { step_of result ≡ if_held (bytes_of bytes) (truth_of (word_of condition.now)) }
{
    match condition.truth() {
        Some(false) => Turn::Ends(Fault::Unequal, bytes),
        _ => Turn::Next,
    }
}

// Whether an entry is a signature that consensus refuses for every key.
fn is_refused_signature(entry: &Entry) -> bool
    ensures { result ≡ is_refused_of (word_of entry.now) }
{
    match entry {
        Entry::Known(bytes) => {
            let bytes = bytes.as_slice();
            !bytes.is_empty() && !is_der(bytes)
        }
        _ => false,
    }
}

// The bytes of a key in the script that does not have the form of a key.
fn bad_key(key: &Entry) -> Option<Bytes>
    ensures { is_some result ≡ is_no_key (word_of key.now) }
{
    match key {
        Entry::Known(bytes) => {
            if has_key_form(bytes.as_slice()) {
                None
            } else {
                Some(*bytes)
            }
        }
        _ => None,
    }
}

// CHECKSIG.
fn check_sig(stack: &mut Stack<Entry>) -> Result<Turn, AllocError>
    ensures { IfOk result (λ t. IsTurn (step_of t) (words stack.new) (checked_sig (top_of (words stack.old)) (top_of (below (words stack.old))) (below (below (words stack.old))))) }
{
    let key = pop(stack);
    let signature = pop(stack);
    if is_refused_signature(&signature) {
        return Ok(Turn::Ends(Fault::Signature, signature.constant()));
    }
    match bad_key(&key) {
        Some(bytes) => Ok(Turn::EndsStrictly(Rule::Key, bytes)),
        None => take_signature(signature, stack),
    }
}

// Takes a signature with a key that has the form of one.
fn take_signature(signature: Entry, stack: &mut Stack<Entry>) -> Result<Turn, AllocError>
    ensures { IfOk result (λ t. IsTurn (step_of t) (words stack.new) (signature_turn (word_of signature) (words stack.old))) }
{
    match signature {
        Entry::Known(bytes) => {
            if !bytes.as_slice().is_empty() {
                return Ok(Turn::EndsStrictly(Rule::Signature, bytes));
            }
            put(stack, Entry::flag(false))
        }
        _ => put(stack, Entry::Answer),
    }
}

/// A count of keys or signatures.
#[derive(Clone, Copy)]
pub enum Count {
    /// This many.
    Of(usize),
    /// The branch ends.
    Ends(Turn),
}

// The count that an entry encodes, from 0 to `limit`.
fn count_of(limit: usize, entry: &Entry) -> Count
    ensures value { count_step result ≡ counted limit (word_of entry.now) }
    ensures low { IsWithin limit result }
{
    let Entry::Known(bytes) = entry else {
        return Count::Ends(Turn::Lost);
    };
    match read_natural(bytes.as_slice(), 4) {
        Some(count) => {
            if count <= limit as u64 {
                minimal_count(count as usize, bytes)
            } else {
                Count::Ends(Turn::Ends(Fault::Count, *bytes))
            }
        }
        None => Count::Ends(Turn::Ends(Fault::Count, *bytes)),
    }
}

// The count of these bytes in consensus, which have to be minimally encoded.
fn minimal_count(count: usize, bytes: &Bytes) -> Count
    ensures value { count_step result ≡ count_by (bytes_of bytes.now) (Some count) }
    ensures low { IsWithin count result }
{
    match read(bytes.as_slice(), Limit::Count) {
        Some(_) => Count::Of(count),
        None => Count::Ends(Turn::EndsStrictly(Rule::Number, *bytes)),
    }
}

// Pops keys, and returns the first that does not have the form of a key.
#[tactic(auto, using(crate::proofs::Steps::keys_more, crate::proofs::Steps::keys_all, crate::proofs::Steps::dropped_more, crate::proofs::Steps::dropped_all))]
fn pop_keys(stack: &mut Stack<Entry>, count: usize) -> Option<Bytes>
    ensures bad { is_some result ≡ list_any is_no_key (take count (words stack.old)) }
    ensures rest { words stack.new ≡ drop count (words stack.old) }
{
    let mut first = None;
    for _step in 0..count {
        let key = pop(stack);
        first = first.or(bad_key(&key));
    }
    first
}

// Pops entries.
#[tactic(auto, using(crate::proofs::Steps::dropped_more, crate::proofs::Steps::dropped_all))]
fn drop_entries(stack: &mut Stack<Entry>, count: usize)
    ensures { words stack.new ≡ drop count (words stack.old) }
{
    for _step in 0..count {
        let _entry = pop(stack);
    }
}

// Pops signatures, and returns whether consensus refuses the topmost, which it checks first.
fn pop_signatures(stack: &mut Stack<Entry>, count: usize) -> bool
    ensures refused { result ≡ has_refused count (words stack.old) }
    ensures rest { words stack.new ≡ drop count (words stack.old) }
{
    let is_refused = match stack.top() {
        Some(entry) => count > 0 && is_refused_signature(entry),
        None => false,
    };
    drop_entries(stack, count);
    is_refused
}

// The bytes of the entry on top that the script determines.
fn top_constant(stack: &Stack<Entry>) -> Bytes
    ensures { bytes_of result ≡ constant (top_of (words stack.now)) }
{
    match stack.top() {
        Some(entry) => entry.constant(),
        None => Bytes::new(&[]),
    }
}

// Whether an extra item of the script is not empty (BIP 147).
fn is_full(extra: &Entry) -> bool
    ensures { result ≡ is_full_of (word_of extra.now) }
{
    match extra {
        Entry::Known(bytes) => !bytes.as_slice().is_empty(),
        _ => false,
    }
}

// CHECKMULTISIG.
fn check_multi_sig(stack: &mut Stack<Entry>) -> Result<Turn, AllocError>
    ensures { IfOk result (λ t. IsTurn (step_of t) (words stack.new) (checked_multi_sig (words stack.old))) }
{
    match count_of(20, &pop(stack)) {
        Count::Of(count) => take_keys(stack, count),
        Count::Ends(turn) => Ok(turn),
    }
}

// Takes this many keys, and the signatures.
fn take_keys(stack: &mut Stack<Entry>, count: usize) -> Result<Turn, AllocError>
    requires { count ≤ 20 }
    ensures { IfOk result (λ t. IsTurn (step_of t) (words stack.new) (keys_turn count (words stack.old))) }
{
    let no_key = pop_keys(stack, count);
    match count_of(count, &pop(stack)) {
        Count::Of(count) => take_signatures(stack, no_key, count),
        Count::Ends(turn) => Ok(turn),
    }
}

// Takes this many signatures, and the extra item.
fn take_signatures(
    stack: &mut Stack<Entry>,
    no_key: Option<Bytes>,
    count: usize,
) -> Result<Turn, AllocError>
    ensures { IfOk result (λ t. IsTurn (step_of t) (words stack.new) (signatures_turn (is_some no_key) count (words stack.old))) }
{
    let signature = top_constant(stack);
    let is_refused = pop_signatures(stack, count);
    let extra = pop(stack);
    if is_refused {
        return Ok(Turn::Ends(Fault::Signature, signature));
    }
    if is_full(&extra) {
        return Ok(Turn::Ends(Fault::Extra, extra.constant()));
    }
    if let Some(bytes) = no_key {
        return Ok(Turn::EndsStrictly(Rule::Key, bytes));
    }
    let answer = if count == 0 {
        Entry::flag(true)
    } else {
        Entry::Answer
    };
    put(stack, answer)
}

// CHECKLOCKTIMEVERIFY and CHECKSEQUENCEVERIFY.
#[tactic(auto, using(crate::proofs::Steps::turned))]
fn check_lock(stack: &mut Stack<Entry>) -> Result<Turn, AllocError>
    ensures { IfOk result (λ t. IsTurn (step_of t) (words stack.new) (checked_lock (top_of (words stack.old)) (below (words stack.old)))) }
{
    let lock = pop(stack);
    push(stack, lock)?;
    match lock {
        Entry::Known(bytes) => Ok(lock_turn(&bytes)),
        _ => Ok(Turn::Next),
    }
}

// Where a branch goes after a lock in the script.
fn lock_turn(bytes: &Bytes) -> Turn
    ensures { step_of result ≡ lock_by (bytes_of bytes.now) (natural_of 5 (bytes_of bytes.now)) }
{
    match read_natural(bytes.as_slice(), 5) {
        Some(_) => match read(bytes.as_slice(), Limit::Lock) {
            Some(_) => Turn::Next,
            None => Turn::EndsStrictly(Rule::Number, *bytes),
        },
        None => Turn::Ends(Fault::Lock, *bytes),
    }
}
