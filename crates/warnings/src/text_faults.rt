// Texts that are not hexadecimal.

ghost use Rattle.std.specs.Prelude.{◌≡◌, not, false};
ghost use Rattle.std.specs.List.{list_all, position_from};
ghost use Rattle.warnings.specs.TextFaults.{is_digit, is_blank, is_base58, is_base58_address, is_segwit_address, is_wif, is_encrypted_key, is_key_text, is_alphanumeric, begins_with_key, has_key_after, is_letter, is_word_size, has_words, is_seed, has_private_key, form_of, odd_of, fault_at, text_fault};

use crate::parts::{has_at, has_part};

/// Why a text is not hexadecimal. Bytes are counted from 0.
#[derive(Clone, Copy, Debug, PartialEq, Eq, Drop)]
pub enum TextFault {
    /// It has a private key in it, in WIF, encrypted (BIP 38) or an extended one (BIP 32); or it looks like the words of a seed (BIP 39).
    PrivateKey,
    /// It begins as a PSBT in Base64 does (BIP 174).
    Psbt,
    /// It looks like an address (Base58, or BIP 173).
    Address,
    /// It has a bracket, as a descriptor or a policy has.
    Descriptor,
    /// It names an opcode, as assembly does.
    Assembly,
    /// It begins with `0x`.
    Prefix,
    /// The first byte that is not a digit is this one, a blank or the end of a line.
    Blank(usize),
    /// The first byte that is not a digit is this one.
    NoDigit(usize),
    /// All its bytes are digits, and their number is this one, which is odd.
    Odd(usize),
}

// Whether a byte is a hexadecimal digit (ASCII).
fn is_digit(byte: u8) -> bool
    ensures { result ≡ is_digit byte }
{
    (48 <= byte && byte <= 57) || (65 <= byte && byte <= 70) || (97 <= byte && byte <= 102)
}

// Whether a byte is a blank, a tab or the end of a line (ASCII).
fn is_blank(byte: u8) -> bool
    ensures { result ≡ is_blank byte }
{
    byte == 32 || byte == 9 || byte == 10 || byte == 13
}

// Whether a byte is a digit or a letter of Base58: none of `0`, `O`, `I` and `l`.
fn is_base58(byte: u8) -> bool
    ensures { result ≡ is_base58 byte }
{
    (49 <= byte && byte <= 57)
        || (65 <= byte && byte <= 90 && byte != 73 && byte != 79)
        || (97 <= byte && byte <= 122 && byte != 108)
}

// Whether all bytes are digits and letters of Base58.
fn are_base58(text: &[u8]) -> bool
    ensures { result ≡ list_all is_base58 text.now }
{
    text.iter().all(|byte| is_base58(*byte))
}

// Whether bytes have the form of an address in Base58, of Bitcoin or of a network for tests.
#[tactic(auto, unfolding(crate::specs::TextFaults::is_base58_address))]
fn is_base58_address(text: &[u8]) -> bool
    ensures { result ≡ is_base58_address text.now }
{
    26 <= text.len()
        && text.len() <= 35
        && (has_at(text, 0, b"1")
            || has_at(text, 0, b"3")
            || has_at(text, 0, b"m")
            || has_at(text, 0, b"n")
            || has_at(text, 0, b"2"))
        && are_base58(text)
}

// Whether bytes begin as an address of BIP 173 does.
#[tactic(auto, unfolding(crate::specs::TextFaults::is_segwit_address))]
fn is_segwit_address(text: &[u8]) -> bool
    ensures { result ≡ is_segwit_address text.now }
{
    has_at(text, 0, b"bc1")
        || has_at(text, 0, b"BC1")
        || has_at(text, 0, b"tb1")
        || has_at(text, 0, b"TB1")
        || has_at(text, 0, b"bcrt1")
        || has_at(text, 0, b"BCRT1")
}

// Whether bytes have the form of a private key in WIF, of Bitcoin or of a network for tests.
#[tactic(auto, unfolding(crate::specs::TextFaults::is_wif))]
fn is_wif(text: &[u8]) -> bool
    ensures { result ≡ is_wif text.now }
{
    51 <= text.len()
        && text.len() <= 52
        && (has_at(text, 0, b"5")
            || has_at(text, 0, b"K")
            || has_at(text, 0, b"L")
            || has_at(text, 0, b"9")
            || has_at(text, 0, b"c"))
        && are_base58(text)
}

// Whether bytes have the form of an encrypted private key (BIP 38).
#[tactic(auto, unfolding(crate::specs::TextFaults::is_encrypted_key))]
fn is_encrypted_key(text: &[u8]) -> bool
    ensures { result ≡ is_encrypted_key text.now }
{
    text.len() == 58 && has_at(text, 0, b"6P") && are_base58(text)
}

// Whether bytes have the form of a private key.
fn is_key_text(text: &[u8]) -> bool
    ensures { result ≡ is_key_text text.now }
{
    is_wif(text) || is_encrypted_key(text)
}

// Whether a byte is a letter (ASCII).
fn is_letter(byte: u8) -> bool
    ensures { result ≡ is_letter byte }
{
    (65 <= byte && byte <= 90) || (97 <= byte && byte <= 122)
}

// Whether a word of a seed may have this number of letters.
fn is_word_size(size: usize) -> bool
    ensures { result ≡ is_word_size size }
{
    3 <= size && size <= 8
}

// Whether bytes are 12 words of a seed or more, whatever stands between them that is no letter.
#[tactic(auto, unfolding(crate::specs::TextFaults::is_seed))]
fn is_seed(text: &[u8]) -> bool
    ensures { result ≡ is_seed text.now }
{
    let (mut size, mut count) = (0usize, 0usize);
    for byte in text {
        if is_letter(*byte) {
            size += 1;
        } else if is_word_size(size) {
            count += 1;
            size = 0;
        } else if size > 0 {
            return false;
        }
    }
    if is_word_size(size) {
        11 <= count
    } else {
        size == 0 && 12 <= count
    }
}

// Whether a byte is a digit or a letter (ASCII).
fn is_alphanumeric(byte: u8) -> bool
    ensures { result ≡ is_alphanumeric byte }
{
    (48 <= byte && byte <= 57) || (65 <= byte && byte <= 90) || (97 <= byte && byte <= 122)
}

// The first byte that is no digit and no letter.
fn first_no_alphanumeric(text: &[u8]) -> Option<usize>
    ensures { result ≡ position_from (λ b. not (is_alphanumeric b)) 0 text.now }
{
    text.iter().position(|byte| !is_alphanumeric(*byte))
}

// Whether the digits and letters at the front are a private key.
#[tactic(auto, unfolding(crate::specs::TextFaults::begins_with_key))]
fn begins_with_key(text: &[u8]) -> bool
    ensures { result ≡ begins_with_key text.now }
{
    match first_no_alphanumeric(text) {
        Some(end) => end <= text.len() && is_key_text(&text[..end]),
        None => is_key_text(text),
    }
}

// Whether bytes have a private key in them, with no digit or letter right before it or after it.
fn has_key(text: &[u8]) -> bool
    ensures { result ≡ has_key_after false text.now }
{
    let mut rest = text;
    let mut is_inside = false;
    while let Some((first, after)) = rest.split_first() {
        if !is_inside && begins_with_key(rest) {
            return true;
        }
        is_inside = is_alphanumeric(*first);
        rest = after;
    }
    false
}

// Whether bytes have a private key in them.
#[tactic(auto, unfolding(crate::specs::TextFaults::has_private_key))]
fn has_private_key(text: &[u8]) -> bool
    ensures { result ≡ has_private_key text.now }
{
    has_key(text) || has_part(text, b"prv") || is_seed(text)
}

// What a text looks like; `None` where it looks like none of these.
#[tactic(auto, unfolding(crate::specs::TextFaults::form_of))]
fn form_of(text: &[u8]) -> Option<TextFault>
    ensures { result ≡ form_of text.now }
{
    if has_at(text, 0, b"cHNidP") {
        Some(TextFault::Psbt)
    } else if has_private_key(text) {
        Some(TextFault::PrivateKey)
    } else if is_segwit_address(text) || is_base58_address(text) {
        Some(TextFault::Address)
    } else if has_part(text, b"(") {
        Some(TextFault::Descriptor)
    } else if has_part(text, b"OP_") {
        Some(TextFault::Assembly)
    } else if has_at(text, 0, b"0x") || has_at(text, 0, b"0X") {
        Some(TextFault::Prefix)
    } else {
        None
    }
}

// The fault of a text that has only digits.
fn odd_of(len: usize) -> Option<TextFault>
    ensures { result ≡ odd_of len }
{
    if len % 2 == 1 {
        Some(TextFault::Odd(len))
    } else {
        None
    }
}

// The fault of a text whose first byte that is not a digit stands here.
#[tactic(auto, unfolding(crate::specs::TextFaults::fault_at))]
fn fault_at(text: &[u8], at: usize) -> TextFault
    ensures { result ≡ fault_at text.now at }
{
    match form_of(text) {
        Some(form) => form,
        None => {
            if at < text.len() && is_blank(text[at]) {
                TextFault::Blank(at)
            } else {
                TextFault::NoDigit(at)
            }
        }
    }
}

// The first byte that is not a digit.
fn first_no_digit(text: &[u8]) -> Option<usize>
    ensures { result ≡ position_from (λ b. not (is_digit b)) 0 text.now }
{
    text.iter().position(|byte| !is_digit(*byte))
}

// Why bytes are not hexadecimal.
fn fault_of(text: &[u8]) -> Option<TextFault>
    ensures { result ≡ text_fault text.now }
{
    match first_no_digit(text) {
        Some(at) => Some(fault_at(text, at)),
        None => odd_of(text.len()),
    }
}

/// Why a text is not hexadecimal: `None` where it is. What it looks like is named before the byte at fault.
pub fn text_fault(text: &str) -> Option<TextFault>
    ensures { result ≡ text_fault text.now }
{
    fault_of(text.as_bytes())
}
