// The printed texts of facts.

ghost use Rattle.std.specs.Prelude.{Some, ◌≡◌, ◌<◌, ◌++◌, codes, decimal};
ghost use Rattle.std.specs.Fmt.{WritesOnOk};
ghost use Rattle.facts.specs.Texts.{hex_digit, hex_byte, hex_text, key_text, comma_separated, bytes_text, answer_text, text_of};

use crate::symbols::{Fact, KeySource, Stated};
use std::fmt;

// A hexadecimal digit.
fn digit(n: u8) -> char
    requires { n < 16 }
    ensures value { result ≡ hex_digit n }
    ensures ascii { result < 128 }
{
    if n < 10 {
        char::from(b'0' + n)
    } else {
        char::from(b'a' + (n - 10))
    }
}

// A byte, printed as two hexadecimal digits.
#[derive(Drop)]
struct HexByte(u8);

impl fmt::Display for HexByte {
    ghost output = { λ b. Some (hex_byte b.0) };

    fn fmt<W: fmt::Write>(&self, f: &mut fmt::Formatter<W>) -> fmt::Result {
        let high = digit(self.0 / 16);
        let low = digit(self.0 % 16);
        write!(f, "{high}{low}")
    }
}

/// Bytes, printed in lower-case hexadecimal.
#[derive(Drop)]
pub struct Hex<'a>(pub &'a [u8]);

impl fmt::Display for Hex<'_> {
    ghost output = { λ h. Some (hex_text h.0.now) };

    fn fmt<W: fmt::Write>(&self, f: &mut fmt::Formatter<W>) -> fmt::Result {
        for byte in self.0 {
            write!(f, "{}", HexByte(*byte))?;
        }
        Ok(())
    }
}

impl fmt::Display for KeySource {
    ghost output = { λ k. Some (key_text k) };

    fn fmt<W: fmt::Write>(&self, f: &mut fmt::Formatter<W>) -> fmt::Result {
        match self {
            KeySource::Const(key) => write!(f, "{}", Hex(key.bytes())),
            KeySource::Slot(slot) => write!(f, "slot {slot}"),
        }
    }
}

// Bytes in hexadecimal, or `-` for none.
#[derive(Drop)]
struct Bytes<'a>(&'a [u8]);

impl fmt::Display for Bytes<'_> {
    ghost output = { λ b. Some (bytes_text b.0.now) };

    fn fmt<W: fmt::Write>(&self, f: &mut fmt::Formatter<W>) -> fmt::Result {
        if self.0.is_empty() {
            return write!(f, "-");
        }
        write!(f, "{}", Hex(self.0))
    }
}

/// Slots, printed with a comma between them.
#[derive(Drop)]
pub struct Slots<'a>(pub &'a [usize]);

impl fmt::Display for Slots<'_> {
    ghost output = { λ s. Some (comma_separated decimal s.0.now) };

    fn fmt<W: fmt::Write>(&self, f: &mut fmt::Formatter<W>) -> fmt::Result {
        let Some((first, others)) = self.0.split_first() else {
            return Ok(());
        };
        write!(f, "{first}")?;
        for slot in others {
            write!(f, ",{slot}")?;
        }
        Ok(())
    }
}

/// Keys, printed with a comma between them.
#[derive(Drop)]
pub struct Keys<'a>(pub &'a [KeySource]);

impl fmt::Display for Keys<'_> {
    ghost output = { λ k. Some (comma_separated key_text k.0.now) };

    fn fmt<W: fmt::Write>(&self, f: &mut fmt::Formatter<W>) -> fmt::Result {
        let Some((first, others)) = self.0.split_first() else {
            return Ok(());
        };
        write!(f, "{first}")?;
        for key in others {
            write!(f, ",{key}")?;
        }
        Ok(())
    }
}

// The answer after a fact that may hold or not.
fn answer(holds: bool) -> &'static str
    ensures { result.now ≡ answer_text holds }
{
    if holds { "yes" } else { "no" }
}

// A number after a word.
fn write_number<W: fmt::Write>(f: &mut fmt::Formatter<W>, word: &str, n: u64) -> fmt::Result
    ensures { WritesOnOk W.write_str_gives f.old result (word.now ++ decimal n) f.new }
{
    write!(f, "{word}{n}")
}

// What a slot's hash is, and the answer.
fn write_hash<W: fmt::Write>(
    f: &mut fmt::Formatter<W>,
    slot: usize,
    hash: &[u8],
    p: &str,
) -> fmt::Result
    ensures { WritesOnOk W.write_str_gives f.old result
        (codes "hash " ++ (decimal slot ++ (codes " "
        ++ (hex_text hash.now ++ (codes " " ++ p.now))))) f.new }
{
    write!(f, "hash {slot} {} {p}", Hex(hash))
}

// What a slot's item is, and the answer.
fn write_item<W: fmt::Write>(
    f: &mut fmt::Formatter<W>,
    slot: usize,
    item: &[u8],
    p: &str,
) -> fmt::Result
    ensures { WritesOnOk W.write_str_gives f.old result
        (codes "is " ++ (decimal slot ++ (codes " "
        ++ (bytes_text item.now ++ (codes " " ++ p.now))))) f.new }
{
    write!(f, "is {slot} {} {p}", Bytes(item))
}

// Whose token a slot has, and the answer.
fn write_token<W: fmt::Write>(
    f: &mut fmt::Formatter<W>,
    slot: usize,
    key: &KeySource,
    p: &str,
) -> fmt::Result
    ensures { WritesOnOk W.write_str_gives f.old result
        (codes "token " ++ (decimal slot ++ (codes " "
        ++ (key_text key.now ++ (codes " " ++ p.now))))) f.new }
{
    write!(f, "token {slot} {key} {p}")
}

// Which keys' tokens slots have, and the answer.
fn write_assigned<W: fmt::Write>(
    f: &mut fmt::Formatter<W>,
    slots: &[usize],
    keys: &[KeySource],
    p: &str,
) -> fmt::Result
    ensures { WritesOnOk W.write_str_gives f.old result
        (codes "assigned " ++ (comma_separated decimal slots.now
        ++ (codes " " ++ (comma_separated key_text keys.now ++ (codes " " ++ p.now))))) f.new }
{
    write!(f, "assigned {} {} {p}", Slots(slots), Keys(keys))
}

impl fmt::Display for Stated {
    ghost output = { λ s. Some (text_of s) };

    fn fmt<W: fmt::Write>(&self, f: &mut fmt::Formatter<W>) -> fmt::Result {
        let p = answer(self.holds);
        match &self.fact {
            Fact::Hash(slot, hash) => write_hash(f, *slot, hash.bytes(), p),
            Fact::Size(slot, size) => write!(f, "size {slot} {size} {p}"),
            Fact::Truth(slot) => write!(f, "truth {slot} {p}"),
            Fact::Is(slot, bytes) => write_item(f, *slot, bytes.bytes(), p),
            Fact::KeyForm(slot) => write_number(f, "key ", *slot as u64),
            Fact::Form(slot) => write_number(f, "form ", *slot as u64),
            Fact::Token(slot, key) => write_token(f, *slot, key, p),
            Fact::Assigned(slots, keys) => write_assigned(f, slots.values(), keys.values(), p),
            Fact::Lock(n) => write_number(f, "lock ", *n),
            Fact::Age(n) => write_number(f, "age ", u64::from(*n)),
        }
    }
}
