//! Notes on what endangers money: who else can spend (BIP 141), locks that ask for less than they say (BIP 68, BIP 112), and locks that no transaction reaches (BIP 65).

use crate::fixtures::noted_of_pieces;
use std::alloc::Global;
use std::process::Abort;

const KEY: &str = "021212121212121212121212121212121212121212121212121212121212121212";

const OTHER_KEY: &str = "022222222222222222222222222222222222222222222222222222222222222222";

const HASH: &str = "3333333333333333333333333333333333333333";

// That of the first key.
const HASH_OF_KEY: &str = "967417a27cfe610c40da3325b9e19fe339d4915c";

const PAYMENT_HASH: &str = "4444444444444444444444444444444444444444";

// The ends of three notes.
const ANYONE: &str = ": no signature of a key that the script fixes is asked for\n";

const BEYOND: &str = ": a lock time has 4 bytes, so it is at most 4294967295\n";

const HASHED: &str =
    ": by consensus, though not by relay policy, an uncompressed key with that hash is taken too\n";

const PASSED: &str =
    "holds nobody up on Bitcoin's main chain, which had passed it before it had witness scripts (BIP 141); CHECKSEQUENCEVERIFY waits a number of blocks\n";

// No point of the curve has this x coordinate.
const NO_POINT: &str = "021111111111111111111111111111111111111111111111111111111111111111";

const OFF_CURVE: &str = " is no point of the curve: nobody can sign for this key\n";

// The note on a lock that the same key goes around.
const AROUND: &str =
    "note: path 0 asks for no other signature or preimage than path 1, and does not wait: the lock of path 1 holds nobody up\n";

// The end of the note on a key that stands twice.
const TWICE: &str = " twice: who has it signs for both\n";

// The x coordinates of the first key above, of G (SEC 2, 2.4.1) and of H (BIP 341).
const X: &str = "1212121212121212121212121212121212121212121212121212121212121212";

const G: &str = "79be667ef9dcbbac55a06295ce870b07029bfcdb2dce28d959f2815b16f81798";

// Both coordinates of twice G.
const TWICE_G: &str =
    "c6047f9441ed7d6d3045406e95c07cd85c778e4b8cef3ca7abac09b95c709ee51ae168fea63dc339a3c58419466ceaeef7f632653266d0e1236431a950cfe52a";

const H: &str = "50929b74c1a04954b78b4b6035e97a5e078a5a0f28ec96d547bfee9ace803ac0";

// A script in pieces, and the notes on it in pieces.
struct Case {
    code: &'static [&'static str],
    notes: &'static [&'static str],
}

const RISKS: [Case; 40] = [
    // the number 1; the empty script; IF 1 ELSE 2 ENDIF
    Case {
        code: &["51"],
        notes: &["note: anyone can spend by path 0", ANYONE],
    },
    Case {
        code: &[""],
        notes: &["note: anyone can spend by path 0", ANYONE],
    },
    Case {
        code: &["6351675268"],
        notes: &["note: anyone can spend by path 0, 1", ANYONE],
    },
    // CHECKSIG of a key that the witness brings, and of one in the script
    Case {
        code: &["ac"],
        notes: &["note: anyone can spend by path 0", ANYONE],
    },
    Case {
        code: &["21", KEY, "ac"],
        notes: &[],
    },
    // IF a key CHECKSIG ELSE 1 ENDIF
    Case {
        code: &["6321", KEY, "ac675168"],
        notes: &["note: anyone can spend by path 1", ANYONE],
    },
    // SIZE 32 EQUALVERIFY HASH160 EQUAL
    Case {
        code: &["82012088a914", HASH, "87"],
        notes: &[
            "note: whoever sees such a witness can spend too by path 0: what has a given hash is asked for, and no signature of a key that the script fixes\n",
        ],
    },
    // DUP HASH160 EQUALVERIFY of what is a signature then, and of another item
    Case {
        code: &["76a914", HASH, "8821", KEY, "ac"],
        notes: &[
            "note: a signature with a given hash is asked for on path 0: what it signs has that hash in it, so nobody can ever make one\n",
        ],
    },
    Case {
        code: &["a914", HASH, "8821", KEY, "ac"],
        notes: &[],
    },
    // CHECKSIG of a key that is no point of the curve; the same key twice, and a hash of its form that is asked for
    Case {
        code: &["21", NO_POINT, "ac"],
        notes: &["note: opcode 0: ", NO_POINT, OFF_CURVE],
    },
    Case {
        code: &["6321", NO_POINT, "ac67029000b27521", NO_POINT, "ac68"],
        notes: &["note: opcode 1: ", NO_POINT, OFF_CURVE, AROUND],
    },
    // 1 of two keys, the second of which is none
    Case {
        code: &["5121", KEY, "21", NO_POINT, "52ae"],
        notes: &["note: opcode 2: ", NO_POINT, OFF_CURVE],
    },
    // 2 of three keys, two of which are one, by a number and by a push of it; one after the other; and twice alone
    Case {
        code: &["5221", KEY, "21", OTHER_KEY, "21", KEY, "53ae"],
        notes: &["note: path 0 has the key ", KEY, TWICE],
    },
    Case {
        code: &["21", KEY, "755121", KEY, "21", OTHER_KEY, "52ae"],
        notes: &[],
    },
    Case {
        code: &["21", KEY, "ac6321", KEY, "ac670068"],
        notes: &[
            "note: nobody can spend by the branch after the ELSE at opcode 5: after the last opcode it leaves the empty item, which is false\n",
            "note: path 0 has the key ",
            KEY,
            TWICE,
        ],
    },
    // 2 of a key and its negation
    Case {
        code: &["5221", KEY, "2103", X, "52ae"],
        notes: &[
            "note: path 0 has the key 03",
            X,
            " and its negation ",
            KEY,
            ": who has one has both\n",
        ],
    },
    // a forgotten DROP before an IF; NOTIF of a constant; and an IF of one with nothing to run otherwise
    Case {
        code: &["029000b26321", KEY, "6721", OTHER_KEY, "68ac"],
        notes: &[
            "note: the branch after the ELSE at opcode 4 is never run, so nobody can spend by it: a constant decides the IF at opcode 2, the number of the lock: is a DROP missing?\n",
        ],
    },
    Case {
        code: &["516421", KEY, "6721", OTHER_KEY, "68ac"],
        notes: &[
            "note: the branch after the NOTIF at opcode 1 is never run, so nobody can spend by it: a constant decides the NOTIF at opcode 1\n",
        ],
    },
    Case {
        code: &["516321", KEY, "68ac"],
        notes: &[],
    },
    // IF decides by which of two constants another IF goes: both ways are run
    Case {
        code: &["635167006863516751687521", KEY, "ac"],
        notes: &[],
    },
    // 5 by two bytes, and 17, which has no opcode
    Case {
        code: &["0105b27521", KEY, "ac"],
        notes: &[
            "note: opcode 0, a push of 05 (1 byte): nodes relay no spend that runs it, since the opcode 55 pushes the same (minimal pushes)\n",
        ],
    },
    Case {
        code: &["0111b27521", KEY, "ac"],
        notes: &[],
    },
    // 65536 or 144 before the same CHECKSEQUENCEVERIFY
    Case {
        code: &["630300000167029000", "68b27521", KEY, "ac"],
        notes: &[
            "note: opcode 5, CHECKSEQUENCEVERIFY of 65536, asks for an age of 0 blocks: of a number only bits 0 to 15, 22 and 31 count (BIP 68)\n",
            AROUND,
        ],
    },
    // the last age without a note, and the first with one
    Case {
        code: &["02e007b27521", KEY, "ac"],
        notes: &[],
    },
    Case {
        code: &["02e107b27521", KEY, "ac"],
        notes: &["note: path 0 waits 2017 blocks, about 14 days at ten minutes each\n"],
    },
    // the first height with witness scripts, and the greatest that is not far
    Case {
        code: &["03205a07b17521", KEY, "ac"],
        notes: &[
            "note: path 0 can be taken in blocks above height 481824, on Bitcoin's main chain from about 2017-08 on\n",
        ],
    },
    Case {
        code: &["03404b4cb17521", KEY, "ac"],
        notes: &[
            "note: path 0 can be taken in blocks above height 5000000, on Bitcoin's main chain from about 2103-05 on\n",
        ],
    },
    // the point G, its negation, twice it in 65 bytes, the negation of the point H of BIP 341, and HASH160 of nothing
    Case {
        code: &["2102", G, "ac"],
        notes: &[
            "note: opcode 0: 02",
            G,
            " is the point G, whose private key is 1: anyone can sign for it\n",
        ],
    },
    Case {
        code: &["2103", G, "ac"],
        notes: &[
            "note: opcode 0: 03",
            G,
            " is the point -G, whose private key is n - 1: anyone can sign for it\n",
        ],
    },
    Case {
        code: &["6321", KEY, "ac674104", TWICE_G, "ac68"],
        notes: &[
            "note: a branch ends at opcode 5: 04",
            TWICE_G,
            " (65 bytes) is no key here (a key has 33 bytes, and begins with 02 or 03); consensus takes this one, and nodes relay no spend with it\n",
            "note: opcode 4: 04",
            TWICE_G,
            " is the point 2G, whose private key is 2: anyone can sign for it\n",
        ],
    },
    Case {
        code: &["2103", H, "ac"],
        notes: &[
            "note: opcode 0: 03",
            H,
            " is the point H of BIP 341, whose private key nobody knows: nobody can sign for it\n",
        ],
    },
    Case {
        code: &[
            "a914b472a266d0bd89c13706a4132ccfb16f7c3b9fcb8821",
            KEY,
            "ac",
        ],
        notes: &[
            "note: path 0 asks for what has the hash b472a266d0bd89c13706a4132ccfb16f7c3b9fcb, the hash of nothing: whoever sees the script knows it, so it keeps nobody out\n",
        ],
    },
    // a hash as it stands; a check that is dropped, and a comparison
    Case {
        code: &["14", HASH, "8821", KEY, "ac"],
        notes: &[
            "note: path 0 asks for these 20 bytes as they stand, ",
            HASH,
            ": whoever sees the script has them, so they keep nobody out: is a HASH160 missing?\n",
        ],
    },
    Case {
        code: &["21", KEY, "ac7521", OTHER_KEY, "ac"],
        notes: &[
            "note: nothing depends on the check of a signature on path 0: the empty item serves as well\n",
        ],
    },
    Case {
        code: &["a914", HASH, "877521", KEY, "ac"],
        notes: &[
            "note: opcode 3, DROP, drops what opcode 2, EQUAL, found: nothing depends on that comparison\n",
        ],
    },
    // after 144 blocks one of two keys that sign at once, and one of them that signs at once alone
    Case {
        code: &[
            "635221",
            KEY,
            "21",
            OTHER_KEY,
            "52ae67029000b27521",
            KEY,
            "ac68",
        ],
        notes: &[],
    },
    Case {
        code: &[
            "6321",
            KEY,
            "ac67029000b2755221",
            KEY,
            "21",
            OTHER_KEY,
            "52ae68",
        ],
        notes: &[AROUND],
    },
    // items of 80 bytes, and of 81
    Case {
        code: &["8201508875", "21", KEY, "ac"],
        notes: &[],
    },
    Case {
        code: &["8201518875", "21", KEY, "ac"],
        notes: &[
            "note: nodes relay no spend by path 0: it asks for more than 100 items, or for one above 80 bytes\n",
        ],
    },
    // a signature of 66 bytes
    Case {
        code: &["8201428821", KEY, "ac"],
        notes: &[
            "note: a signature of a given size, or with given bytes, is asked for on path 0: here it is a token of 66 bytes, and in Bitcoin it has 71 or 72 mostly, so the path may be met by nobody\n",
        ],
    },
];

// Scripts with locks, and the notes on them.
const LOCKS: [Case; 24] = [
    // 65536 CHECKSEQUENCEVERIFY DROP and a signature: an age of 0
    Case {
        code: &["03000001b27521", KEY, "ac"],
        notes: &[
            "note: opcode 1, CHECKSEQUENCEVERIFY of 65536, asks for an age of 0 blocks: of a number only bits 0 to 15, 22 and 31 count (BIP 68)\n",
        ],
    },
    // 2147483648 CHECKSEQUENCEVERIFY: bit 31
    Case {
        code: &["050000008000b27521", KEY, "ac"],
        notes: &[
            "note: opcode 1, CHECKSEQUENCEVERIFY of 2147483648, asks for nothing: bit 31 switches the lock off (BIP 68)\n",
        ],
    },
    // 4259841 CHECKSEQUENCEVERIFY: bits 22 and 16, and an age of 1
    Case {
        code: &["03010041b27521", KEY, "ac"],
        notes: &[
            "note: opcode 1, CHECKSEQUENCEVERIFY of 4259841, asks for an age of 1 unit of 512 seconds: of a number only bits 0 to 15, 22 and 31 count (BIP 68)\n",
            "note: path 0 waits 1 unit of 512 seconds, about 9 minutes, which its age does not tell: that is in blocks (BIP 68)\n",
        ],
    },
    // 65537 CHECKSEQUENCEVERIFY: bit 16, and an age of 1
    Case {
        code: &["03010001b27521", KEY, "ac"],
        notes: &[
            "note: opcode 1, CHECKSEQUENCEVERIFY of 65537, asks for an age of 1 block: of a number only bits 0 to 15, 22 and 31 count (BIP 68)\n",
        ],
    },
    // 4294967294, 4294967295 and 4294967296 CHECKLOCKTIMEVERIFY, and the last where anyone could spend
    Case {
        code: &["05feffffff00b17521", KEY, "ac"],
        notes: &[
            "note: opcode 1, CHECKLOCKTIMEVERIFY of 4294967294, waits until after the year 2099\n",
            "note: path 0 can be taken once the median time past is above 4294967294, 2106-02-07 in UTC: its lock is a time, in seconds since 1970 (BIP 113)\n",
        ],
    },
    Case {
        code: &["05ffffffff00b17521", KEY, "ac"],
        notes: &[
            "note: nobody can ever spend by path 0: its lock time is 4294967295, and no median time past is above that (BIP 113)\n",
        ],
    },
    // height 850000, a second of 2026, and 288 blocks with the most significant byte first, and the first as a script has it
    Case {
        code: &["030cf850b17521", KEY, "ac"],
        notes: &[
            "note: opcode 1, CHECKLOCKTIMEVERIFY of 5306380: the same bytes in the other order are 850000, and a number is little-endian\n",
            "note: opcode 1, CHECKLOCKTIMEVERIFY of 5306380, waits for a height that is some 83 years away: from 500000000 on a number is a time (BIP 65)\n",
        ],
    },
    Case {
        code: &["046ab13b10b17521", KEY, "ac"],
        notes: &[
            "note: opcode 1, CHECKLOCKTIMEVERIFY of 272347498: the same bytes in the other order are 1789999888, and a number is little-endian\n",
            "note: opcode 1, CHECKLOCKTIMEVERIFY of 272347498, waits for a height that is some 5164 years away: from 500000000 on a number is a time (BIP 65)\n",
        ],
    },
    Case {
        code: &["020120b27521", KEY, "ac"],
        notes: &[
            "note: opcode 1, CHECKSEQUENCEVERIFY of 8193: the same bytes in the other order are 288, and a number is little-endian\n",
            "note: path 0 waits 8193 blocks, about 57 days at ten minutes each\n",
        ],
    },
    // a year of blocks, its bytes turned round; and 5000001, whose bytes turned round are as far
    Case {
        code: &["02cd50b27521", KEY, "ac"],
        notes: &[
            "note: opcode 1, CHECKSEQUENCEVERIFY of 20685: the same bytes in the other order are 52560, and a number is little-endian\n",
            "note: path 0 waits 20685 blocks, about 144 days at ten minutes each\n",
        ],
    },
    Case {
        code: &["03414b4cb17521", KEY, "ac"],
        notes: &[
            "note: opcode 1, CHECKLOCKTIMEVERIFY of 5000001, waits for a height that is some 78 years away: from 500000000 on a number is a time (BIP 65)\n",
        ],
    },
    Case {
        code: &["0350f80cb17521", KEY, "ac"],
        notes: &[
            "note: path 0 can be taken in blocks above height 850000, on Bitcoin's main chain from about 2024-06 on\n",
        ],
    },
    Case {
        code: &["022001b27521", KEY, "ac"],
        notes: &[],
    },
    Case {
        code: &["050000000001b17521", KEY, "ac"],
        notes: &["note: no transaction has the lock time of path 0", BEYOND],
    },
    Case {
        code: &["6351675152050000000001b1757568"],
        notes: &[
            "note: no transaction has the lock time of path 1",
            BEYOND,
            "note: anyone can spend by path 0",
            ANYONE,
        ],
    },
    // 144 and 65535 blocks ask for what they say
    Case {
        code: &["029000b27521", KEY, "ac"],
        notes: &[],
    },
    Case {
        code: &["03ffff00b27521", KEY, "ac"],
        notes: &["note: path 0 waits 65535 blocks, about 455 days at ten minutes each\n"],
    },
    // a key, or another one after 5063 units of 512 seconds; the same from a time on; and after 499999999 blocks, which is none
    Case {
        code: &["6321", KEY, "ac6703c71340b27521", OTHER_KEY, "ac68"],
        notes: &[
            "note: path 1 waits 5063 units of 512 seconds, about 30 days, which its age does not tell: that is in blocks (BIP 68)\n",
        ],
    },
    Case {
        code: &["6321", KEY, "ac6704803bb16ab17521", OTHER_KEY, "ac68"],
        notes: &[
            "note: path 1 can be taken once the median time past is above 1790000000, 2026-09-21 in UTC: its lock is a time, in seconds since 1970 (BIP 113)\n",
        ],
    },
    Case {
        code: &["04ff64cd1db17521", KEY, "ac"],
        notes: &[
            "note: opcode 1, CHECKLOCKTIMEVERIFY of 499999999, waits for a height that is some 9495 years away: from 500000000 on a number is a time (BIP 65)\n",
        ],
    },
    // 144 CHECKLOCKTIMEVERIFY, where an age was meant; the last second before witness scripts, and the next one
    Case {
        code: &["029000b17521", KEY, "ac"],
        notes: &["note: opcode 1, CHECKLOCKTIMEVERIFY of 144, ", PASSED],
    },
    Case {
        code: &["0490329e59b17521", KEY, "ac"],
        notes: &[
            "note: opcode 1, CHECKLOCKTIMEVERIFY of 1503539856, ",
            PASSED,
            "note: path 0 can be taken once the median time past is above 1503539856, 2017-08-24 in UTC: its lock is a time, in seconds since 1970 (BIP 113)\n",
        ],
    },
    Case {
        code: &["0491329e59b17521", KEY, "ac"],
        notes: &[
            "note: path 0 can be taken once the median time past is above 1503539857, 2017-08-24 in UTC: its lock is a time, in seconds since 1970 (BIP 113)\n",
        ],
    },
    // the first second of 2100
    Case {
        code: &["05005786f400b17521", KEY, "ac"],
        notes: &[
            "note: opcode 1, CHECKLOCKTIMEVERIFY of 4102444800, waits until after the year 2099\n",
            "note: path 0 can be taken once the median time past is above 4102444800, 2100-01-01 in UTC: its lock is a time, in seconds since 1970 (BIP 113)\n",
        ],
    },
];

// BOLT 3's offered HTLC, without anchors.
const OFFERED: [&str; 9] = [
    "76a914",
    HASH,
    "8763ac6721",
    KEY,
    "7c820120876475527c21",
    OTHER_KEY,
    "52ae67a914",
    PAYMENT_HASH,
    "88ac6868",
];

const TIMEOUT: &str =
    "note: path 1 is the timeout of an offered HTLC (BOLT 3): nobody can take it at once, since the other side signs only a transaction whose lock time is the HTLC's cltv_expiry\n";

const NO_KEY: &str = "042222222222222222222222222222222222222222222222222222222222222222";

// The same with one key for both.
const OF_ONE: [&str; 9] = [
    "76a914",
    HASH,
    "8763ac6721",
    KEY,
    "7c820120876475527c21",
    KEY,
    "52ae67a914",
    PAYMENT_HASH,
    "88ac6868",
];

// The same with a key of another form in the timeout, which then ends and is not listed.
const WITHOUT_TIMEOUT: [&str; 9] = [
    "76a914",
    HASH,
    "8763ac6721",
    KEY,
    "7c820120876475527c21",
    NO_KEY,
    "52ae67a914",
    PAYMENT_HASH,
    "88ac6868",
];

// Bytes in the place of a hash, and what is noted of them.
const ORIGINS: [(&str, &str); 10] = [
    (
        "ffffffffffffffffffffffffffffffffffffffff",
        "bytes of ff: nobody has that, so nobody can spend by this path\n",
    ),
    (
        "9f7fd096d37ed2c0e3f7f0cfc924beef4ffceb68",
        "the hash of the script 00: whoever sees the script knows it, so it keeps nobody out\n",
    ),
    (
        "8296da5ca015c76181754a475b0677012cf63960",
        "the hash of the script ff: whoever sees the script knows it, so it keeps nobody out\n",
    ),
    (
        "b8bcb07f6344b42ab04250c86a6e8b75d3fdbbc6",
        "the hash of 32 bytes of 00: whoever sees the script knows it, so it keeps nobody out\n",
    ),
    (
        "30b451b94a30185c3c9de6fcee1e62e1702537fe",
        "the hash of the number 16 in 32 bytes: whoever sees the script knows it, so it keeps nobody out\n",
    ),
    (
        "fd7b15dc5dc2039556693555c2b81b36c8deec15",
        "the hash of the SHA-256 of nothing: whoever sees the script knows it, so it keeps nobody out\n",
    ),
    (
        "91b24bf9f5288532960ac687abb035127b1d28a5",
        "the hash of the point G, whose private key is 1: whoever sees the script knows it, so it keeps nobody out\n",
    ),
    (
        "adde4c73c7b9cee17da6c7b3e2b2eea1a0dcbe67",
        "the hash of the point -G, whose private key is n - 1: whoever sees the script knows it, so it keeps nobody out\n",
    ),
    (
        "1f84783c37bc2acab0ba3e377e2a58ceec4ffd6f",
        "the hash of the point G/2, whose private key is (n + 1) / 2: whoever sees the script knows it, so it keeps nobody out\n",
    ),
    (
        "85137e8795c8f4da95bc257449783abf353a238a",
        "the hash of the point H of BIP 341, whose private key nobody knows: whoever sees the script knows it, so it keeps nobody out\n",
    ),
];

// Bytes of which nothing is known: ff and a last fe, and the hashes of 5151 and of 31 bytes of ff.
const SECRETS: [&str; 3] = [
    "fffffffffffffffffffffffffffffffffffffffe",
    "c8cde4cd534c55ce1cdbf1e6505a8b1c53c8f550",
    "d0bb489c8dad9e5075eb2274dd313ffc3c2e6b46",
];

// Hashes of what a script has or all know, with what else is asked: in pieces, and the notes in pieces.
const PREIMAGES: [Case; 6] = [
    // HASH160 of the key itself, of another one, and of one of 32 bytes
    Case {
        code: &["a914", HASH_OF_KEY, "8821", KEY, "ac"],
        notes: &[
            "note: path 0 asks for what has the hash ",
            HASH_OF_KEY,
            ", the HASH160 of what opcode 3 pushes: whoever sees the script knows it, so it keeps nobody out\n",
        ],
    },
    Case {
        code: &["a914", HASH_OF_KEY, "8821", OTHER_KEY, "ac"],
        notes: &[],
    },
    Case {
        code: &["82012088a914", HASH_OF_KEY, "8821", KEY, "ac"],
        notes: &[
            "note: path 0 asks for what has the hash ",
            HASH_OF_KEY,
            ", the HASH160 of what opcode 6 pushes, and for another size than that has: nobody can spend by this path\n",
        ],
    },
    // the key that has the hash signs, and by another branch after 144 blocks
    Case {
        code: &["76a914", HASH_OF_KEY, "8763ac6775029000b27521", KEY, "ac68"],
        notes: &["note: a key is taken by its hash on path 0", HASHED],
    },
    // DUP HASH160 of three times G, and of nothing, EQUALVERIFY CHECKSIG after DROP of 1
    Case {
        code: &["517576a9147dd65592d0ab2fe0d0257d571abf032cd9db93dc88ac"],
        notes: &[
            "note: a key is taken by its hash on path 0",
            HASHED,
            "note: path 0 asks for what has the hash 7dd65592d0ab2fe0d0257d571abf032cd9db93dc, the hash of the point 3G, whose private key is 3: anyone can sign for it\n",
        ],
    },
    Case {
        code: &["517576a914b472a266d0bd89c13706a4132ccfb16f7c3b9fcb88ac"],
        notes: &[
            "note: a key is taken by its hash on path 0",
            HASHED,
            "note: path 0 asks for what has the hash b472a266d0bd89c13706a4132ccfb16f7c3b9fcb, the hash of nothing: nobody can sign for that, so nobody can spend by this path\n",
        ],
    },
];

// Asserts the notes on scripts.
fn has_risks(rt: &impl Abort, alloc: Global, cases: &[Case]) {
    for case in cases {
        noted_of_pieces(rt, alloc, case.code, case.notes);
    }
}

#[test]
fn tells_who_else_can_spend(rt: HostRuntime) {
    has_risks(&rt, rt.alloc(), &RISKS);
}

#[test]
fn tells_what_a_lock_asks(rt: HostRuntime) {
    has_risks(&rt, rt.alloc(), &LOCKS);
}

#[test]
fn tells_of_an_offered_htlc(rt: HostRuntime) {
    let notes = [
        "note: a key is taken by its hash on path 0",
        HASHED,
        TIMEOUT,
    ];
    noted_of_pieces(&rt, rt.alloc(), &OFFERED, &notes);
    let of_one = [
        "note: a key is taken by its hash on path 0",
        HASHED,
        "note: path 1 has the key ",
        KEY,
        TWICE,
        TIMEOUT,
    ];
    noted_of_pieces(&rt, rt.alloc(), &OF_ONE, &of_one);
    let without = [
        "note: a branch ends at opcode 18: ",
        NO_KEY,
        " (33 bytes) is no key here (a key has 33 bytes, and begins with 02 or 03); in consensus no signature is valid for it, and other keys of this check may sign\n",
        "note: a key is taken by its hash on path 0",
        HASHED,
    ];
    noted_of_pieces(&rt, rt.alloc(), &WITHOUT_TIMEOUT, &without);
}

#[test]
fn tells_hashes_of_no_secret(rt: HostRuntime) {
    let asks = "note: path 0 asks for what has the hash ";
    for (hash, notes) in &ORIGINS {
        let code = ["a914", hash, "8821", KEY, "ac"];
        noted_of_pieces(&rt, rt.alloc(), &code, &[asks, hash, ", ", notes]);
    }
    for hash in &SECRETS {
        let code = ["a914", hash, "8821", KEY, "ac"];
        noted_of_pieces(&rt, rt.alloc(), &code, &[]);
    }
    has_risks(&rt, rt.alloc(), &PREIMAGES);
}
