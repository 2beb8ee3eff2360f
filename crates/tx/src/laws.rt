//! What holds of all transactions and bytes. Each function is a law: it does nothing, and its contract is proved.

ghost use Rattle.std.specs.Prelude.{◌≡◌, ℕ, List};
ghost use Rattle.tx.specs.Fields.{Transaction, transaction_with_witness, unsigned_transaction};
ghost use Rattle.tx.specs.Spelling.{IsTransaction, IsStripped, transaction_id};

/// A transaction has at most one spelling, and bytes spell at most one transaction.
pub fn one_spelling()
    ensures of_value { (t : Transaction) (a b : List ℕ) → IsTransaction t a → IsTransaction t b
        → a ≡ b }
    ensures of_bytes { (t u : Transaction) (bytes : List ℕ) → IsTransaction t bytes
        → IsTransaction u bytes → t ≡ u }
{}

/// The same for the form without marker, flag and witnesses.
pub fn one_stripped_spelling()
    ensures of_value { (t : Transaction) (a b : List ℕ) → IsStripped t a → IsStripped t b → a ≡ b }
    ensures of_bytes { (t u : Transaction) (bytes : List ℕ) → IsStripped t bytes
        → IsStripped u bytes → t ≡ u }
{}

/// The id of a transaction does not depend on its witnesses: two transactions that are equal once stripped have the same id.
/// Giving an input a witness leaves the stripped transaction as it was.
pub fn ids_ignore_witnesses()
    ensures of_stripped { (t u : Transaction) → unsigned_transaction t ≡ unsigned_transaction u
        → transaction_id t ≡ transaction_id u }
    ensures of_signing { (t : Transaction) (index : ℕ) (items : List (List ℕ))
        → unsigned_transaction (transaction_with_witness t index items) ≡ unsigned_transaction t }
    ensures of_stripping { (t : Transaction)
        → unsigned_transaction (unsigned_transaction t) ≡ unsigned_transaction t }
{}
