// Signatures in strict DER (BIP 66).

ghost use Rattle.std.specs.Prelude.{◌≡◌, ◌≤◌, ◌↔◌, None, Some, true, length, MatchOption};
ghost use Rattle.std.specs.Bool.{OnTrue};
ghost use Rattle.enforce_c.specs.Der.{is_shortest, after_number, is_hash_type, is_last_number, is_der, is_sighash_all, IsDer};

// Whether these are the bytes of a number that is not negative, and no more than it needs.
#[tactic(auto, using(crate::proofs::DerForms::shortest_none, crate::proofs::DerForms::shortest_one, crate::proofs::DerForms::shortest_more))]
fn is_shortest(number: &[u8]) -> bool
    ensures { result ≡ is_shortest number.now }
{
    if number.is_empty() || number[0] >= 0x80 {
        return false;
    }
    number.len() == 1 || number[0] != 0 || number[1] >= 0x80
}

// What comes after a number, if bytes begin with one.
#[tactic(auto, using(crate::proofs::DerForms::after_of, crate::proofs::DerForms::after_none))]
fn after_number(bytes: &[u8]) -> Option<&[u8]>
    ensures { MatchOption result (after_number bytes.now ≡ None)
        (λ xs. after_number bytes.now ≡ Some xs.now) }
{
    if bytes.len() < 2 || bytes[0] != 0x02 {
        return None;
    }
    let size = usize::from(bytes[1]);
    let (_head, rest) = bytes.split_at(2);
    if size > rest.len() {
        return None;
    }
    let (number, after) = rest.split_at(size);
    if !is_shortest(number) {
        return None;
    }
    Some(after)
}

// Whether bytes are a number and a hash type after it.
fn is_last_number(bytes: &[u8]) -> bool
    ensures { result ≡ is_hash_type (after_number bytes.now) }
{
    match after_number(bytes) {
        Some(after) => after.len() == 1,
        None => false,
    }
}

// Whether bytes are two numbers and a hash type after them.
fn are_numbers(bytes: &[u8]) -> bool
    ensures { result ≡ is_last_number (after_number bytes.now) }
{
    match after_number(bytes) {
        Some(after) => is_last_number(after),
        None => false,
    }
}

// Whether an item begins as a signature in strict DER does, and two numbers and a hash type follow.
#[tactic(auto, using(crate::proofs::DerForms::der_of, crate::proofs::DerForms::der_none))]
fn has_der_form(item: &[u8]) -> bool
    ensures value { result ≡ is_der item.now }
    ensures few { OnTrue result (length item.now ≤ 73) }
{
    if item.len() < 2 || item.len() > 73 {
        return false;
    }
    if item[0] != 0x30 || usize::from(item[1]) + 3 != item.len() {
        return false;
    }
    let (_head, numbers) = item.split_at(2);
    are_numbers(numbers)
}

/// Whether an item is a signature in strict DER, with a hash type after it. Whether it is valid for a key, only a curve can tell.
pub(crate) fn is_der(item: &[u8]) -> bool
    ensures value { result ≡ is_der item.now }
    ensures spelled { (result ≡ true) ↔ IsDer item.now }
    ensures few { OnTrue result (length item.now ≤ 73) }
{
    has_der_form(item)
}

/// Whether the last byte of an item, its hash type, is that of ALL.
pub(crate) fn is_sighash_all(item: &[u8]) -> bool
    ensures { result ≡ is_sighash_all item.now }
{
    !item.is_empty() && item[item.len() - 1] == 0x01
}
