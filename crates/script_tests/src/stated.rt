//! The printed numbers of facts (the rest of their texts is proved from the definition), and that copies succeed under
//! ample memory.

use crate::fixtures::{is_printed, item};
use facts::{Fact, KeySource, Stated, Sym};
use lists::List;
use std::alloc::Global;
use std::process::Abort;
use std::test::Fail;

const FACTS: [(Stated, &str); 6] = [
    (
        Stated {
            fact: Fact::Size(0, 520),
            holds: true,
        },
        "size 0 520 yes",
    ),
    (
        Stated {
            fact: Fact::Truth(12),
            holds: true,
        },
        "truth 12 yes",
    ),
    (
        Stated {
            fact: Fact::KeyForm(999),
            holds: true,
        },
        "key 999",
    ),
    (
        Stated {
            fact: Fact::Form(1),
            holds: true,
        },
        "form 1",
    ),
    (
        Stated {
            fact: Fact::Lock(549_755_813_887),
            holds: true,
        },
        "lock 549755813887",
    ),
    (
        Stated {
            fact: Fact::Age(144),
            holds: true,
        },
        "age 144",
    ),
];

// A fact of these slots, each with a key in a slot, and where it is asked for with one of the script too.
fn assigned(rt: &impl Abort, alloc: Global, rows: &[(usize, usize)], with_consts: bool) -> Fact {
    let (mut slots, mut keys) = (List::new(alloc), List::new(alloc));
    for (slot, key) in rows {
        slots.push(*slot).expect(rt, "memory");
        keys.push(KeySource::Slot(*key)).expect(rt, "memory");
        if with_consts {
            let key = KeySource::Const(item(rt, alloc, slots.len()));
            keys.push(key).expect(rt, "memory");
        }
    }
    Fact::Assigned(slots, keys)
}

#[test]
fn prints_numbers(rt: HostRuntime) {
    let alloc = rt.alloc();
    for (stated, text) in &FACTS {
        assert!(rt; is_printed(alloc, stated, text));
    }
    let stated = Stated {
        fact: assigned(&rt, alloc, &[(12, 112), (1, 101)], false),
        holds: true,
    };
    let text = "assigned 12,1 slot 112,slot 101 yes";
    assert!(rt; is_printed(alloc, &stated, text));
}

// The example in the documentation of `facts`.
#[test]
fn prints_a_truth(rt: HostRuntime) -> Result<(), Fail> {
    let truth = Stated {
        fact: Fact::Truth(0),
        holds: true,
    };
    assert_eq!(rt; format!(in rt.alloc(); "{truth}")?.as_str(), "truth 0 yes");
    Ok(())
}

// Whether a symbol has a copy.
fn has_copy(symbol: Sym) -> bool {
    symbol.copy().is_ok()
}

// Whether a fact has a copy: with its polarity, by itself, and as a symbol.
fn is_copied(rt: &impl Abort, fact: Fact) -> bool {
    let stated = Stated { fact, holds: false };
    let copy = stated.copy().expect(rt, "memory");
    has_copy(Sym::Holds(copy.fact.copy().expect(rt, "memory")))
}

const ROWS: [(usize, usize); 60] = [(7, 8); 60];

#[test]
fn copies_every_length(rt: HostRuntime) {
    let alloc = rt.alloc();
    for len in 0usize..=600 {
        let key = KeySource::Const(item(&rt, alloc, len));
        assert!(rt; is_copied(&rt, Fact::Token(1, key)));
        assert!(rt; is_copied(&rt, Fact::Hash(0, item(&rt, alloc, len))));
        assert!(rt; is_copied(&rt, Fact::Is(0, item(&rt, alloc, len))));
        assert!(rt; has_copy(Sym::Const(item(&rt, alloc, len))));
    }
    for count in 0usize..=60 {
        assert!(rt; is_copied(&rt, assigned(&rt, alloc, &ROWS[..count], true)));
    }
}

const NUMBERS: [Fact; 7] = [
    Fact::Size(7, 520),
    Fact::Truth(7),
    Fact::KeyForm(7),
    Fact::Form(7),
    Fact::Token(7, KeySource::Slot(8)),
    Fact::Lock(549_755_813_887),
    Fact::Age(0x40_ffff),
];

#[test]
fn copies_facts_of_numbers(rt: HostRuntime) {
    for fact in &NUMBERS {
        let copy = fact.copy().expect(&rt, "memory");
        assert!(rt; is_copied(&rt, copy));
    }
}
