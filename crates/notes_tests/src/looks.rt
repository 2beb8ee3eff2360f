//! Notes on bytes and texts that are no witness script. The programs are those of addresses in BIP 173, BIP 341 and BIP 350, the
//! transaction is the unsigned one of BIP 143's first example, and the PSBT begins as those of BIP 174 do.

use crate::fixtures::{are_notes, noted_of_each, noted_of_pieces, words_of};
use enforce_notes::notes_of;
use std::alloc::Global;
use std::process::Abort;
use warnings::{Look, SequenceLock, look_of, sequence_lock};

const KEY_HASH: &str = "761e76e8199196d454941c45d1b3a323f1433bd6";

const SCRIPT_HASH: &str = "1863143c14c5166804bd19203356da136c985678cd4d27a1b8c6329604903262";

// What is noted of each output's program, after the form of it.
const FORM: &str = "note: these bytes have the form of an output's program, ";

// A script of three pieces, what its note says after `FORM`, and the notes after that.
const PROGRAMS: [([&str; 3], &str, &str); 6] = [
    (
        ["0020", SCRIPT_HASH, ""],
        "P2WSH (BIP 141): give the witness script, whose SHA-256 this is\n",
        "note: no witness satisfies the script by the rules of this profile: each branch ends as in consensus\n",
    ),
    (
        ["0014", KEY_HASH, ""],
        "P2WPKH (BIP 141): such an output has no witness script; the key with this hash spends it\n",
        "note: no witness satisfies the script by the rules of this profile: each branch ends as in consensus\n",
    ),
    (
        ["5120", SCRIPT_HASH, ""],
        "P2TR (BIP 341): such an output has no witness script; its scripts are tapscripts, which are not listed here\n",
        "note: no witness satisfies the script by the rules of this profile: each branch ends as in consensus\n",
    ),
    (
        ["6002751e", "", ""],
        "of witness version 16 (BIP 141): no witness script of version 0 spends it\n",
        "note: no witness satisfies the script by the rules of this profile: each branch ends as in consensus\n",
    ),
    (
        ["a914", KEY_HASH, "87"],
        "P2SH (BIP 16): give the witness script, if it has one; this is the hash of another script\n",
        "note: whoever sees such a witness can spend too by path 0: what has a given hash is asked for, and no signature of a key that the script fixes\n",
    ),
    (
        ["76a914", KEY_HASH, "88ac"],
        "P2PKH: such an output has no witness script; the key with this hash spends it\n",
        "note: a key is taken by its hash on path 0: by consensus, though not by relay policy, an uncompressed key with that hash is taken too\n",
    ),
];

// Bytes that begin as a PSBT, the transaction, and what is noted of each.
const PSBT: &str = "70736274ff01007502000000";

const TRANSACTION: &str =
    "0100000002fff7f7881a8099afa6940d42d1e7f6362bec38171ea3edf433541db4e4ad969f0000000000eeffffffef51e1b804cc89d182d279655c3aa89e815b1b309fe287d9b2b55d57b90ec68a0100000000ffffffff02202cb206000000001976a9148280b37df378db99f66f85c95a783a76ac7a6d5988ac9093510d000000001976a9143bde42dbee7e4dbe6a21b2d50ce2f0167faa815988ac11000000";

const ENVELOPES: [(&str, &str); 2] = [
    (
        PSBT,
        "note: these bytes look like a PSBT (BIP 174): give the witness script of one of its inputs\n",
    ),
    (
        TRANSACTION,
        "note: these bytes look like a transaction (BIP 144): give the witness script of an output, or the last item of an input's witness\n",
    ),
];

// The note on a private key.
const PRIVATE_KEY: &str =
    "note: this looks like a private key, which nothing here asks for: move what it guards to another key, and delete this one wherever it stands (a word of a command stands in the history of the shell)\n";

// Texts of scripts that are not hexadecimal, and the notes on them.
const TEXTS: [(&str, &str); 20] = [
    // the words of a seed in capitals with commas, and 32 bytes
    (
        "ABANDON,Abandon,abandon,abandon,abandon,abandon,abandon,abandon,abandon,abandon,abandon,about",
        PRIVATE_KEY,
    ),
    (
        "1111111111111111111111111111111111111111111111111111111111111111",
        "note: these are 32 bytes, as a private key has: if they are one, move what it guards to another key, and delete this one wherever it stands\nnote: the push at byte 18 wants 17 bytes, and 13 follow\nnote: pushed before it: 1111111111111111111111111111111111 (17 bytes) at byte 0\n",
    ),
    (
        "L1aW4aubDFB7yfras2S1mN3bqg9nwySY8nkoLmJebSLD5BWv3ENZ",
        PRIVATE_KEY,
    ),
    (
        "wsh(pk(xprv9s21ZrQH143K3QTDL4LXw2F7HEK3wJUD2nW2nRk4stbPy6cq3jPPqjiChkVvvNKmPGJxWUtg6LnF5kejMRNNU3TGtRBeJgk33yuGBxrMPHi))",
        PRIVATE_KEY,
    ),
    (
        "'L1aW4aubDFB7yfras2S1mN3bqg9nwySY8nkoLmJebSLD5BWv3ENZ'",
        PRIVATE_KEY,
    ),
    (
        "wif:L1aW4aubDFB7yfras2S1mN3bqg9nwySY8nkoLmJebSLD5BWv3ENZ",
        PRIVATE_KEY,
    ),
    (
        "zprvAdG4iTXWBoARxkkzNpNh8r6Qag3irQB8PzEMkAFeTRXxHpbF9z4QgEvBRmfvqWvGp42t42nvgGpNgYSJA9iefm1yYNZKEm7z6qUWCroSQnE",
        PRIVATE_KEY,
    ),
    (
        "6PRVWUbkzzsbcVac2qwfssoUJAN1Xhrg6bNk8J7Nzm5H7kxEbn2Nh2ZoGg",
        PRIVATE_KEY,
    ),
    (
        "abandon abandon abandon abandon abandon abandon abandon abandon abandon abandon abandon about",
        PRIVATE_KEY,
    ),
    (
        "cHNidP8BAHUCAAAAASaBcTce3/KF6Tet7qSze3gADAVmy7OtZGQXE8pCFxv2AAAAAAD+////",
        "note: this looks like a PSBT in Base64 (BIP 174): give the witness script of one of its inputs, in hexadecimal\n",
    ),
    (
        "BC1QW508D6QEJXTDG4Y5R3ZARVARY0C5XW7KV8F3T4",
        "note: this looks like an address, which has no script in it: give the witness script, in hexadecimal\n",
    ),
    (
        "1A1zP1eP5QGefi2DMPTfTL5SLmv7DivfNa",
        "note: this looks like an address, which has no script in it: give the witness script, in hexadecimal\n",
    ),
    (
        "wsh(pk(021111111111111111111111111111111111111111111111111111111111111111))",
        "note: this looks like a descriptor or a policy: give the bytes of its witness script, in hexadecimal\n",
    ),
    (
        "OP_1 OP_DROP",
        "note: this looks like assembly: give the bytes of the script, in hexadecimal\n",
    ),
    ("0x51", "note: the text begins with 0x: leave that out\n"),
    (
        " 51",
        "note: byte 0 of the text is a blank or the end of a line: leave it out\n",
    ),
    (
        "51\n",
        "note: byte 2 of the text is a blank or the end of a line: leave it out\n",
    ),
    (
        "0g",
        "note: byte 1 of the text is g, which is no hexadecimal digit\n",
    ),
    (
        "51\u{e9}",
        "note: byte 2 of the text is c3, which is no hexadecimal digit\n",
    ),
    (
        "515",
        "note: the text has an odd number of digits, 3: a byte has two\n",
    ),
];

// Texts of messages, and the notes on them. What they look like as a script is not said.
const MESSAGES: [(&str, &str); 6] = [
    (
        "L1aW4aubDFB7yfras2S1mN3bqg9nwySY8nkoLmJebSLD5BWv3ENZ",
        PRIVATE_KEY,
    ),
    ("5151", ""),
    (
        "515",
        "note: the text has an odd number of digits, 3: a byte has two\n",
    ),
    (
        "0g",
        "note: byte 1 of the text is g, which is no hexadecimal digit\n",
    ),
    (
        "BC1QW508D6QEJXTDG4Y5R3ZARVARY0C5XW7KV8F3T4",
        "note: the text is not hexadecimal: give each byte as two digits\n",
    ),
    (
        "OP_1 OP_DROP",
        "note: the text is not hexadecimal: give each byte as two digits\n",
    ),
];

#[test]
fn has_the_examples_of_the_crate(rt: HostRuntime) {
    assert_eq!(rt; look_of(&[0, 2, 7, 7]), Some(Look::WitnessProgram(0)));
    assert_eq!(rt; sequence_lock(65_536), SequenceLock::Blocks(0));
}

#[test]
fn tells_programs_of_outputs(rt: HostRuntime) {
    for (pieces, form, rest) in &PROGRAMS {
        noted_of_pieces(&rt, rt.alloc(), pieces, &[FORM, form, rest]);
    }
}

// A byte, and what follows it, with the notes.
const LENGTHS: [(&[&str], &str); 5] = [
    // OP_VERIFY before a script of three keys, and a push of the number 1
    (
        &["6952", LONE, LONE, LONE, "53ae"],
        "note: these bytes begin with the length of the 105 bytes after it, as a script stands in serialisations: leave the length out\nnote: byte 0 is 69, OP_VERIFY in Bitcoin, which is not in the table\nnote: nothing is pushed before it\n",
    ),
    (
        &["0151"],
        "note: these bytes begin with the length of the 1 byte after it, as a script stands in serialisations: leave the length out\nnote: anyone can spend by path 0: no signature of a key that the script fixes is asked for\n",
    ),
    // a script of 100 bytes that begins with IF; IF before a script of 99 bytes; a script of 83 bytes that begins with the number 2
    (
        &[
            "63a914333333333333333333333333333333333333333388",
            CURVE,
            "ac670160b275",
            CURVE,
            "ac68",
        ],
        "",
    ),
    (
        &[
            "6352",
            CURVE,
            CURVE,
            "52ae76757675767576757675767576757675767576757675767576757675",
        ],
        "note: these bytes begin with the length of the 99 bytes after it, as a script stands in serialisations: leave the length out\nnote: the IF or NOTIF at opcode 0 has no ENDIF\n",
    ),
    (&["52", CURVE, SECOND, "52ae767576757675767576757675"], ""),
];

// Pushes of what has the form of a key, and of two keys.
const LONE: &str = "21021111111111111111111111111111111111111111111111111111111111111111";

const CURVE: &str = "21021212121212121212121212121212121212121212121212121212121212121212";

const SECOND: &str = "21022222222222222222222222222222222222222222222222222222222222222222";

#[test]
fn tells_a_length_before_a_script(rt: HostRuntime) {
    for (pieces, notes) in &LENGTHS {
        noted_of_pieces(&rt, rt.alloc(), pieces, &[notes]);
    }
}

#[test]
fn tells_transactions(rt: HostRuntime) {
    noted_of_each(&rt, rt.alloc(), &ENVELOPES);
}

// Asserts the notes on a message that is to be hashed.
fn noted_on_message(rt: &impl Abort, alloc: Global, text: &str, notes: &str) {
    let words = words_of(rt, alloc, &["ripemd", text]);
    are_notes(rt, notes_of(alloc, words.as_slice(), 1, None, &[]), notes);
}

#[test]
fn tells_what_is_not_hexadecimal(rt: HostRuntime) {
    noted_of_each(&rt, rt.alloc(), &TEXTS);
}

#[test]
fn tells_of_messages(rt: HostRuntime) {
    for (text, notes) in &MESSAGES {
        noted_on_message(&rt, rt.alloc(), text, notes);
    }
}
