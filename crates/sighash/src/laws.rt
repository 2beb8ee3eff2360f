//! What holds of all digests and tokens. Each function is a law: it does nothing, and its contract is proved.

ghost use Rattle.std.specs.Prelude.{◌≡◌, ℕ, List, length};
ghost use Rattle.script.specs.Token.{token_of};
ghost use Rattle.tx.specs.Fields.{Transaction, unsigned_transaction};
ghost use Rattle.sighash.specs.Signing.{sighash};

/// A token names one key and one digest.
pub fn one_key_and_digest()
    ensures { (key other : List ℕ) (digest another : List ℕ) → length key ≡ length other
        → token_of key digest ≡ token_of other another → (key ≡ other) × (digest ≡ another) }
{}

/// A digest does not depend on witnesses: two transactions that are equal once stripped have the same digests. So signing one input
/// leaves the digests of all inputs as they were.
pub fn digests_ignore_witnesses()
    ensures { (t u : Transaction) (index : ℕ) (code : List ℕ) (value : ℕ)
        → unsigned_transaction t ≡ unsigned_transaction u
        → sighash t index code value ≡ sighash u index code value }
{}
