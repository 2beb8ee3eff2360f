// Facts in plain words.

ghost use Rattle.std.specs.Prelude.{Some, ◌≡◌, ◌++◌, codes, decimal};
ghost use Rattle.std.specs.Fmt.{WritesOnOk};
ghost use Rattle.facts.specs.Texts.{hex_text, key_text, comma_separated};
ghost use Rattle.trace.specs.Sentences.{about, slot_words, lock_sentence, unit_words, age_sentence, sentence_of};

use facts::texts::{Hex, Keys, Slots};
use facts::{Fact, KeySource, Stated};
use script::limits::LOCKTIME_THRESHOLD;
use std::fmt;

// The greatest lock time of a transaction, whose field has 32 bits.
const MAX_LOCK_TIME: u64 = 0xffff_ffff;

/// What a fact says about a path.
#[derive(Clone, Copy, Drop)]
pub enum Role {
    /// Whose signature the path takes.
    Who,
    /// What else the witness has.
    With,
    /// When the output can be spent.
    When,
}

impl Role {
    ghost use Rattle.std.specs.Prelude.{◌≡◌};
    ghost use Rattle.trace.specs.Sentences.{role_of, role_text};

    /// What a fact says about its path.
    pub fn of(stated: &Stated) -> Role
        ensures { result ≡ role_of stated.now }
    {
        match &stated.fact {
            Fact::Lock(_) | Fact::Age(_) => Role::When,
            Fact::Token(_, _) | Fact::Assigned(_, _) if stated.holds => Role::Who,
            _ => Role::With,
        }
    }

    /// The word for the role.
    pub fn text(self) -> &'static str
        ensures { result.now ≡ role_text self }
    {
        match self {
            Role::Who => "who",
            Role::With => "with",
            Role::When => "when",
        }
    }
}

// What follows on the slot, or the slots, that a fact is about.
fn about(stated: &Stated) -> &'static str
    ensures { result.now ≡ about stated.now.fact stated.now.holds }
{
    let holds = stated.holds;
    match &stated.fact {
        Fact::Hash(_, _) if holds => " is a preimage of the HASH160 ",
        Fact::Hash(_, _) => " is not a preimage of the HASH160 ",
        Fact::Size(_, _) if holds => " is ",
        Fact::Size(_, _) => " is not ",
        Fact::Truth(_) if holds => " is true",
        Fact::Truth(_) => " is false, as the empty item is",
        Fact::Is(_, item) if item.is_empty() => {
            if holds {
                " is the empty item"
            } else {
                " is not the empty item"
            }
        }
        Fact::Is(_, _) if holds => " is the bytes ",
        Fact::Is(_, _) => " is not the bytes ",
        Fact::KeyForm(_) if holds => " is a public key of 33 bytes",
        Fact::KeyForm(_) => " is not a public key of 33 bytes",
        Fact::Form(_) if holds => " is a signature or the empty item",
        Fact::Form(_) => " is not a signature or the empty item",
        Fact::Token(_, KeySource::Const(_)) if holds => " is a signature by the key ",
        Fact::Token(_, KeySource::Const(_)) => " is not a signature by the key ",
        Fact::Token(_, KeySource::Slot(_)) if holds => " is a signature by the key in slot ",
        Fact::Token(_, KeySource::Slot(_)) => " is not a signature by the key in slot ",
        Fact::Assigned(_, _) if holds => " are signatures by keys of ",
        Fact::Assigned(_, _) => " are not signatures by keys of ",
        Fact::Lock(_) | Fact::Age(_) => "",
    }
}

// Writes a slot, a text, and bytes in hexadecimal.
fn write_slot<W: fmt::Write>(
    f: &mut fmt::Formatter<W>,
    slot: usize,
    text: &str,
    bytes: &[u8],
) -> fmt::Result
    ensures { WritesOnOk W.write_str_gives f.old result
        (slot_words slot (text.now ++ hex_text bytes.now)) f.new }
{
    write!(f, "slot {slot}{text}{}", Hex(bytes))
}

// Writes a slot, and a number between texts.
fn write_count<W: fmt::Write>(
    f: &mut fmt::Formatter<W>,
    slot: usize,
    text: &str,
    number: u64,
    after: &str,
) -> fmt::Result
    ensures { WritesOnOk W.write_str_gives f.old result
        (slot_words slot (text.now ++ (decimal number ++ after.now))) f.new }
{
    write!(f, "slot {slot}{text}{number}{after}")
}

// Writes slots, a text, and keys.
fn write_assigned<W: fmt::Write>(
    f: &mut fmt::Formatter<W>,
    slots: &[usize],
    text: &str,
    keys: &[KeySource],
) -> fmt::Result
    ensures { WritesOnOk W.write_str_gives f.old result
        (codes "slots " ++ (comma_separated decimal slots.now ++ (text.now
        ++ (comma_separated key_text keys.now ++ codes " in their order")))) f.new }
{
    write!(
        f,
        "slots {}{text}{} in their order",
        Slots(slots),
        Keys(keys)
    )
}

// Writes a number between texts.
fn write_number<W: fmt::Write>(
    f: &mut fmt::Formatter<W>,
    before: &str,
    number: u64,
    after: &str,
) -> fmt::Result
    ensures { WritesOnOk W.write_str_gives f.old result
        (before.now ++ (decimal number ++ after.now)) f.new }
{
    write!(f, "{before}{number}{after}")
}

// Writes that an absolute lock holds (BIP 65), or that its check fails.
fn write_lock<W: fmt::Write>(f: &mut fmt::Formatter<W>, lock: u64, holds: bool) -> fmt::Result
    ensures { WritesOnOk W.write_str_gives f.old result (lock_sentence lock holds) f.new }
{
    if !holds {
        return write_number(f, "while the check of the lock time ", lock, " fails");
    }
    if lock < LOCKTIME_THRESHOLD {
        return write_number(f, "in block ", lock + 1, " at the earliest");
    }
    if lock < MAX_LOCK_TIME {
        let start = "once the median time past is above ";
        return write_number(f, start, lock, " seconds since 1970 (BIP 113)");
    }
    if lock == MAX_LOCK_TIME {
        return f.write_str("never: no median time past is above 4294967295 (BIP 113)");
    }
    f.write_str("never: no transaction has a lock time above 4294967295")
}

// The unit of a relative lock, for one or several of them.
fn unit(age: u32) -> &'static str
    ensures { result.now ≡ unit_words age }
{
    match (age / 0x40_0000 % 2 == 0, age % 0x1_0000 == 1) {
        (true, true) => " block",
        (true, false) => " blocks",
        (false, true) => " unit of 512 seconds of median time past (BIP 68)",
        (false, false) => " units of 512 seconds of median time past (BIP 68)",
    }
}

// Writes that a relative lock holds (BIP 112), or that its check fails.
fn write_age<W: fmt::Write>(f: &mut fmt::Formatter<W>, age: u32, holds: bool) -> fmt::Result
    ensures { WritesOnOk W.write_str_gives f.old result (age_sentence age holds) f.new }
{
    if !holds {
        let check = "while the check of the relative lock ";
        return write_number(f, check, u64::from(age), " fails");
    }
    let units = age % 0x1_0000;
    if units == 0 {
        return f.write_str("at once");
    }
    write_number(f, "after ", u64::from(units), unit(age))
}

/// A fact, printed as a sentence.
#[derive(Drop)]
pub struct Sentence<'a>(pub &'a Stated);

impl fmt::Display for Sentence<'_> {
    ghost output = { λ s. Some (sentence_of s.0.now) };

    fn fmt<W: fmt::Write>(&self, f: &mut fmt::Formatter<W>) -> fmt::Result {
        let text = about(self.0);
        match &self.0.fact {
            Fact::Hash(slot, bytes) | Fact::Is(slot, bytes) => {
                write_slot(f, *slot, text, bytes.bytes())
            }
            Fact::Token(slot, KeySource::Const(key)) => write_slot(f, *slot, text, key.bytes()),
            Fact::Token(slot, KeySource::Slot(key)) => {
                write_count(f, *slot, text, *key as u64, "")
            }
            Fact::Size(slot, size) => {
                write_count(f, *slot, text, u64::from(*size), " bytes long")
            }
            Fact::Truth(slot) | Fact::KeyForm(slot) | Fact::Form(slot) => {
                write_number(f, "slot ", *slot as u64, text)
            }
            Fact::Assigned(slots, keys) => write_assigned(f, slots.values(), text, keys.values()),
            Fact::Lock(lock) => write_lock(f, *lock, self.0.holds),
            Fact::Age(age) => write_age(f, *age, self.0.holds),
        }
    }
}
