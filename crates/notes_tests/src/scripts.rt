//! Notes on scripts.

use crate::fixtures::{joined, noted_of_each, noted_of_pieces};
use std::alloc::Global;
use std::process::Abort;

// A key of 65 bytes, the same with the first byte of the other y coordinate, and one of 33, in hexadecimal.
const LONG_KEY: &str =
    "041212121212121212121212121212121212121212121212121212121212121212358e043e125ea9c331efa4de36ab88503a7ea92dfc9f8e21f344d7f6bf2aca94";

const NO_POINT: &str =
    "071212121212121212121212121212121212121212121212121212121212121212358e043e125ea9c331efa4de36ab88503a7ea92dfc9f8e21f344d7f6bf2aca94";

const KEY: &str = "021212121212121212121212121212121212121212121212121212121212121212";

// A signature in strict DER, of 9 bytes.
const DER: &str = "300602010102010101";

// Scripts with opcodes outside the table, and the notes on them.
const OPCODES: [(&str, &str); 7] = [
    (
        "51b3",
        "note: byte 1 is b3, OP_NOP4 in Bitcoin, which is not in the table\nnote: pushed before it: the number 1 at byte 0\n",
    ),
    (
        "6a",
        "note: byte 0 is 6a, OP_RETURN in Bitcoin, which is not in the table\nnote: nothing is pushed before it\n",
    ),
    (
        "01cc02aabb00755aff",
        "note: byte 8 is ff, which is no opcode of Bitcoin\nnote: pushed before it: cc (1 byte) at byte 0, aabb (2 bytes) at byte 2, the empty item at byte 5, the number 10 at byte 7\n",
    ),
    (
        "4c",
        "note: byte 0 is 4c, OP_PUSHDATA1 in Bitcoin, which is not in the table\nnote: nothing is pushed before it\n",
    ),
    (
        "a8",
        "note: byte 0 is a8, OP_SHA256 in Bitcoin, which is not in the table\nnote: nothing is pushed before it\n",
    ),
    (
        "ba",
        "note: byte 0 is ba, OP_CHECKSIGADD in tapscript (BIP 342), which is no opcode of version 0\nnote: nothing is pushed before it\n",
    ),
    (
        "5103ff",
        "note: the push at byte 1 wants 3 bytes, and 1 follow\nnote: pushed before it: the number 1 at byte 0\n",
    ),
];

// Scripts without a path whose only branch ends as it does in consensus, and what is noted of its end.
const EXACT: [(&str, &str); 13] = [
    // false at the end, two entries at the end, and two items of the witness
    (
        "00",
        "after the last opcode it leaves the empty item, which is false",
    ),
    (
        "5151",
        "after the last opcode it leaves two or more elements, 01 (1 byte) among them, and BIP 141 wants one: is a DROP missing?",
    ),
    (
        "7676",
        "after the last opcode it leaves two or more elements, and BIP 141 wants one: is a DROP missing?",
    ),
    // locks: -1 in one byte and in two, and one of six bytes
    (
        "0181b27551",
        "it ends at opcode 1, where 81 (1 byte) is -1, and no lock is negative (a number is little-endian)",
    ),
    (
        "020180b17551",
        "it ends at opcode 1, where 0180 (2 bytes) is negative, and no lock is (a number is little-endian)",
    ),
    (
        "06010000000000b27551",
        "it ends at opcode 1, where 010000000000 (6 bytes) is no lock, which has at most 5 bytes",
    ),
    // 21 keys, 5 bytes as a count, and a key where the number of signatures is looked for
    (
        "00000115ae",
        "it ends at opcode 3, where 15 (1 byte) is no number of keys (0 to 20), nor of signatures (0 to that of the keys)",
    ),
    (
        "0000050100000000ae",
        "it ends at opcode 3, where 0100000000 (5 bytes) is no number of keys (0 to 20), nor of signatures (0 to that of the keys)",
    ),
    (
        "5202aaaa02bbbb02cccc52ae",
        "it ends at opcode 5, where aaaa (2 bytes) is no number of keys (0 to 20), nor of signatures (0 to that of the keys)",
    ),
    // an extra item that is not empty, and a signature that is not in DER
    (
        "51002102121212121212121212121212121212121212121212121212121212121212121251ae",
        "it ends at opcode 4, where 01 (1 byte) is the extra item of CHECKMULTISIG, which has to be empty (BIP 147)",
    ),
    (
        "02aabb7cac",
        "it ends at opcode 2, where aabb (2 bytes) is no signature in DER (BIP 66): is a DROP missing?",
    ),
    // a comparison of constants, and of a hash with 32 bytes
    (
        "515288",
        "it ends at opcode 2, where 01 (1 byte) never equals what it is compared with",
    ),
    (
        "a920333333333333333333333333333333333333333333333333333333333333333388",
        "it ends at opcode 2, where 3333333333333333333333333333333333333333333333333333333333333333 (32 bytes) never equals what it is compared with: a HASH160 has 20 bytes",
    ),
];

// Scripts of which somebody can spend by one branch and nobody by another, the branch, and its end.
struct DeadEnd {
    code: &'static [&'static str],
    branch: &'static str,
    end: &'static str,
}

const DEAD_ENDS: [DeadEnd; 4] = [
    // IF a key CHECKSIG ELSE 144 CHECKSEQUENCEVERIFY a key CHECKSIG ENDIF: a DROP is missing
    DeadEnd {
        code: &["6321", KEY, "ac67029000b221", KEY, "ac68"],
        branch: "ELSE at opcode 3",
        end: "it ends at opcode 7, where 9000 (2 bytes) is no signature in DER (BIP 66): is a DROP missing?",
    },
    // with the DROP and an age of -144
    DeadEnd {
        code: &["6321", KEY, "ac67029080b27521", KEY, "ac68"],
        branch: "ELSE at opcode 3",
        end: "it ends at opcode 5, where 9080 (2 bytes) is -144, and no lock is negative (a number is little-endian)",
    },
    // NOTIF 875000, its bytes turned round, CHECKLOCKTIMEVERIFY DROP a key CHECKSIG ELSE a key CHECKSIG ENDIF
    DeadEnd {
        code: &["64030d59f8b17521", KEY, "ac6721", KEY, "ac68"],
        branch: "NOTIF at opcode 0",
        end: "it ends at opcode 2, where 0d59f8 (3 bytes) is -7887117, and no lock is negative (a number is little-endian)",
    },
    // IF a key CHECKSIG ELSE IF 1 a key CHECKSIG ELSE a key CHECKSIG ENDIF ENDIF
    DeadEnd {
        code: &["6321", KEY, "ac67635121", KEY, "ac6721", KEY, "ac6868"],
        branch: "ELSE at opcode 3, then the IF at opcode 4",
        end: "it ends at opcode 7, where 01 (1 byte) is no signature in DER (BIP 66): is a DROP missing?",
    },
];

// Scripts with facts that no witness meets together, and the notes on them.
const UNMET: [(&str, &str); 10] = [
    // DUP 0 EQUALVERIFY SIZE 32 EQUALVERIFY
    (
        "76008882012088",
        "note: no witness meets path 0: 'is 0 - yes' and 'size 0 32 yes' contradict each other\n",
    ),
    // DUP aa EQUALVERIFY SIZE, with 1 and with 2
    (
        "7601aa88825188",
        "note: anyone can spend by path 0: no signature of a key that the script fixes is asked for\n",
    ),
    (
        "7601aa88825288",
        "note: no witness meets path 0: 'is 0 aa yes' and 'size 0 2 yes' contradict each other\n",
    ),
    // SIZE 0 EQUALVERIFY, and what HASH160 gives: of nothing, and not; or DUP 0 EQUAL NOTIF DROP 1 ELSE DROP 0 ENDIF
    (
        "820088a914b472a266d0bd89c13706a4132ccfb16f7c3b9fcb87",
        "note: whoever sees such a witness can spend too by path 0: what has a given hash is asked for, and no signature of a key that the script fixes\nnote: path 0 asks for what has the hash b472a266d0bd89c13706a4132ccfb16f7c3b9fcb, the hash of nothing: whoever sees the script knows it, so it keeps nobody out\n",
    ),
    (
        "820088a914333333333333333333333333333333333333333387",
        "note: no witness meets path 0: 'size 0 0 yes' and 'hash 0 3333333333333333333333333333333333333333 yes' contradict each other\n",
    ),
    (
        "82008876008764755167750068",
        "note: nobody can spend by the branch after the ELSE at opcode 9: after the last opcode it leaves the empty item, which is false\nnote: no witness meets path 0: 'size 0 0 yes' and 'is 0 - no' contradict each other\n",
    ),
    // SIZE 1 EQUALVERIFY SIZE 2 EQUALVERIFY
    (
        "825188825288",
        "note: no witness meets path 0: 'size 0 1 yes' and 'size 0 2 yes' contradict each other\n",
    ),
    // a height and a time
    (
        "0350f80cb17504103bb16ab17551",
        "note: no witness meets path 0: 'lock 850000' and 'lock 1789999888' contradict each other\n",
    ),
    // DUP IF ENDIF IF 1 ELSE 1 ENDIF
    (
        "7663686351675168",
        "note: no witness meets path 1: 'truth 0 yes' and 'truth 0 no' contradict each other\nnote: no witness meets path 2: 'truth 0 no' and 'truth 0 yes' contradict each other\nnote: anyone can spend by path 0, 3: no signature of a key that the script fixes is asked for\n",
    ),
    // SIZE 65 EQUALVERIFY, and a signature
    (
        "8201418821021212121212121212121212121212121212121212121212121212121212121212ac",
        "note: by the rules of this profile no witness meets path 0, since a signature has 66 bytes: 'size 0 65 yes' and 'form 0' contradict each other\n",
    ),
];

#[test]
fn names_opcodes_outside_the_table(rt: HostRuntime) {
    noted_of_each(&rt, rt.alloc(), &OPCODES);
}

// The note on a script whose branches all end as in consensus, and how the notes begin on its only branch and on one of several.
const ALL_END: &str =
    "note: no witness satisfies the script by the rules of this profile: each branch ends as in consensus\n";

const ONLY: &str = "note: nobody can spend by the only branch: ";

const AFTER: &str = "note: nobody can spend by the branch after the ";

// The note on a script without a path, where some branch is stricter than consensus.
const NONE: &str =
    "note: no witness satisfies the script by the rules of this profile, which are stricter than consensus\n";

// The same, where the script has the form of the program of an output to an uncompressed key.
const NONE_OF_KEY: &str =
    "note: these bytes have the form of an output's program, P2PK: such an output has no witness script; this key spends it\nnote: no witness satisfies the script by the rules of this profile, which are stricter than consensus\n";

// What bytes of a script are not that a rule asks for.
const NO_KEY: &str =
    "no key here (a key has 33 bytes, and begins with 02 or 03); in consensus its check is false, and nobody can spend where that has to be true\n";

const UNCOMPRESSED: &str =
    "no key here (a key has 33 bytes, and begins with 02 or 03); consensus takes this one, and nodes relay no spend with it\n";

const OF_TAPROOT: &str =
    "no key here (a key has 33 bytes, and begins with 02 or 03), as taproot alone has them; in consensus its check is false, and nobody can spend where that has to be true\n";

const OF_TAPROOT_BESIDE_OTHERS: &str =
    "no key here (a key has 33 bytes, and begins with 02 or 03), as taproot alone has them; in consensus no signature is valid for it, and other keys of this check may sign\n";

const OFF_CURVE: &str =
    "no key here (a key has 33 bytes, and begins with 02 or 03), nor a point of the curve; in consensus its check is false, and nobody can spend where that has to be true\n";

const OFF_CURVE_BESIDE_OTHERS: &str =
    "no key here (a key has 33 bytes, and begins with 02 or 03), nor a point of the curve; in consensus no signature is valid for it, and other keys of this check may sign\n";

const NO_NUMBER: &str =
    "no number here (numbers are minimally encoded); consensus is laxer, and may let others spend\n";

const NO_SIGNATURE: &str =
    "no signature here (signatures are tokens); consensus is laxer, and may let others spend\n";

// A key of taproot (BIP 340).
const X_ONLY: &str = "1212121212121212121212121212121212121212121212121212121212121212";

// A script one of whose branches ends at an opcode: the pieces of its code, what is noted before, the
// opcode with its bytes as they are named, and the rule.
struct End {
    code: &'static [&'static str],
    before: &'static str,
    at: &'static [&'static str],
    rule: &'static str,
}

// Keys in the script that do not have 33 bytes, numbers that are not minimally encoded, and signatures in the script.
const ENDS: [End; 13] = [
    End {
        code: &["20", X_ONLY, "ac"],
        before: NONE,
        at: &["1: ", X_ONLY, " (32 bytes)"],
        rule: OF_TAPROOT,
    },
    End {
        code: &["6321", KEY, "ac6720", X_ONLY, "ac68"],
        before: "",
        at: &["5: ", X_ONLY, " (32 bytes)"],
        rule: OF_TAPROOT,
    },
    End {
        code: &["5121", KEY, "20", X_ONLY, "52ae"],
        before: NONE,
        at: &["4: ", X_ONLY, " (32 bytes)"],
        rule: OF_TAPROOT_BESIDE_OTHERS,
    },
    End {
        code: &["41", LONG_KEY, "ac"],
        before: NONE_OF_KEY,
        at: &["1: ", LONG_KEY, " (65 bytes)"],
        rule: UNCOMPRESSED,
    },
    End {
        code: &["6341", LONG_KEY, "ac6721", KEY, "ac68"],
        before: "",
        at: &["2: ", LONG_KEY, " (65 bytes)"],
        rule: UNCOMPRESSED,
    },
    End {
        code: &["5121", KEY, "41", LONG_KEY, "52ae"],
        before: NONE,
        at: &["4: ", LONG_KEY, " (65 bytes)"],
        rule: UNCOMPRESSED,
    },
    End {
        code: &["6341", NO_POINT, "ac6721", KEY, "ac68"],
        before: "",
        at: &["2: ", NO_POINT, " (65 bytes)"],
        rule: OFF_CURVE,
    },
    End {
        code: &["5121", KEY, "41", NO_POINT, "52ae"],
        before: NONE,
        at: &["4: ", NO_POINT, " (65 bytes)"],
        rule: OFF_CURVE_BESIDE_OTHERS,
    },
    End {
        code: &["820114ac"],
        before: NONE,
        at: &["2: 14 (1 byte)"],
        rule: NO_KEY,
    },
    End {
        code: &["020100b27551"],
        before: NONE,
        at: &["1: 0100 (2 bytes)"],
        rule: NO_NUMBER,
    },
    End {
        code: &["020100b17551"],
        before: NONE,
        at: &["1: 0100 (2 bytes)"],
        rule: NO_NUMBER,
    },
    End {
        code: &["00000180ae"],
        before: NONE,
        at: &["3: 80 (1 byte)"],
        rule: NO_NUMBER,
    },
    End {
        code: &["09", DER, "7cac"],
        before: NONE,
        at: &["2: ", DER, " (9 bytes)"],
        rule: NO_SIGNATURE,
    },
];

// Asserts the notes on such a script.
fn ends_at(rt: &impl Abort, alloc: Global, end: &End) {
    let at = joined(rt, alloc, end.at);
    let note = "note: a branch ends at opcode ";
    let notes = [end.before, note, at.as_str(), " is ", end.rule];
    noted_of_pieces(rt, alloc, end.code, &notes);
}

#[test]
fn tells_ends(rt: HostRuntime) {
    for end in &ENDS {
        ends_at(&rt, rt.alloc(), end);
    }
}

// Branches that end as they do in consensus.
#[test]
fn tells_exact_ends(rt: HostRuntime) {
    for (code, end) in &EXACT {
        noted_of_pieces(&rt, rt.alloc(), &[code], &[ALL_END, ONLY, end, "\n"]);
    }
    // a branch that is never run
    noted_of_pieces(
        &rt,
        rt.alloc(),
        &["006341", LONG_KEY, "ac6721", KEY, "ac68"],
        &[
            "note: the branch after the IF at opcode 1 is never run, so nobody can spend by it: a constant decides the IF at opcode 1\n",
        ],
    );
}

#[test]
fn tells_branches_by_which_nobody_can_spend(rt: HostRuntime) {
    for dead in &DEAD_ENDS {
        let notes = [AFTER, dead.branch, ": ", dead.end, "\n"];
        noted_of_pieces(&rt, rt.alloc(), dead.code, &notes);
    }
    // IF IF 1 ELSE 0 ENDIF ELSE 0 ENDIF, and 0 SWAP IF DROP ENDIF
    let anyone =
        "note: anyone can spend by path 0: no signature of a key that the script fixes is asked for\n";
    let end = ": after the last opcode it leaves the empty item, which is false\n";
    let inner = "IF at opcode 0, then the ELSE at opcode 3";
    let both = [AFTER, inner, end, AFTER, "ELSE at opcode 6", end, anyone];
    noted_of_pieces(&rt, rt.alloc(), &["636351670068670068"], &both);
    let skipped = [AFTER, "ENDIF at opcode 4", end, anyone];
    noted_of_pieces(&rt, rt.alloc(), &["007c637568"], &skipped);
}

#[test]
fn tells_paths_that_nobody_meets(rt: HostRuntime) {
    noted_of_each(&rt, rt.alloc(), &UNMET);
}
