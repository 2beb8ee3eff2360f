//! Laws of every chain, whatever calls built it.

ghost use Rattle.std.specs.Prelude.{◌≡◌, ◌+◌, ℕ, [], ◌∷◌, List, Some, Err, Result, slice_get, sum_by};
ghost use Rattle.tx.specs.declared.input.TxIn.{TxIn};
ghost use Rattle.tx.specs.Fields.{Transaction};
ghost use Rattle.chain.specs.declared.commands.Command.{Command};
ghost use Rattle.chain.specs.declared.commands.Answer.{Answer};
ghost use Rattle.chain.specs.Blocks.{Standing, empty_block, unspent_of, fees_of, granted_of};
ghost use Rattle.chain.specs.declared.commands.Command.TheVariants.{CheckInput as check_input};
ghost use Rattle.chain.specs.declared.commands.Answer.TheVariants.{CheckInput as input_answer};
ghost use Rattle.chain.specs.declared.errors.ChainError.{ChainError};
ghost use Rattle.chain.specs.declared.errors.ChainError.TheVariants.{NoMemory};
ghost use Rattle.chain.specs.Replays.{Answered, Replays};
ghost use Rattle.chain.specs.Conserving.{GrantsAreApart};
ghost use Rattle.chain.specs.Spending.{IsExact};

/// Conservation, whatever calls a new chain got: the value of its unspent outputs and its fees together are the satoshis that were granted. The premise is
/// that the ids of its grants differ from each other and from those of its transactions. It could fail only where SHA-256 gives one id to two different
/// messages, or after 2^64 grants. That the ids of transactions differ is a test of `connect`.
pub fn values_are_conserved()
    ensures { (commands : List Command) (answers : List Answer) (s : Standing)
        → Replays (record { blocks = empty_block ∷ []; greatest = 0 }) commands answers s
        → GrantsAreApart s.blocks → sum_by (λ c. c.output.value)
        (unspent_of s.blocks) + fees_of s.blocks ≡ granted_of s.blocks }
{}

/// What `check_input` answers, in terms of the blocks, whatever calls a new chain got, and barring out-of-memory. It is `Unknown` exactly where nothing on
/// the chain created an output at the outpoint of the input. It is `Spent` exactly where a transaction or a grant did, and an input on the chain spends it.
/// It is `Ok` exactly where the output was created, nothing on the chain spends it, its locks are reached and its program runs clean. The premise is that of
/// conservation.
pub fn inputs_are_checked_exactly()
    ensures { (commands : List Command) (answers : List Answer) (s : Standing)
        → Replays (record { blocks = empty_block ∷ []; greatest = 0 }) commands answers s
        → GrantsAreApart s.blocks → (t : Transaction) (index : ℕ) (input : TxIn)
        → slice_get t.inputs index ≡ Some input → (r : Result (Unit {0}) ChainError)
        → Answered s (check_input t index) (input_answer r) s → (r ≡ Err NoMemory → ⊥)
        → IsExact s.blocks t input r }
{}
