//! Small calls of each program, and words that name no program.

use crate::fixtures::{breaks, is_unflushed, prints, repeated};
use enforce_words::USAGE;

// A word and what follows it; what is printed, and the status.
const HASHES: [(&str, &str, &str, u8); 3] = [
    (
        "ripemd",
        "",
        "9c1185a5c5e9fc54612808977ee8f548b2258d31\n",
        0,
    ),
    (
        "ripemd",
        "616263",
        "8eb208f7e05d987a9b044a8e98c6b087f15a0bfc\n",
        0,
    ),
    ("ripemd", "6G", "refused BadHex\n", 1),
];

const SCRIPTS: [(&str, &str, &str, u8); 13] = [
    (
        "paths",
        "",
        "paths 1\npath 0 arity 1 counted 0 height 1 lock - age -\n  truth 0 yes\n",
        0,
    ),
    ("paths", "820114ac", "paths 0\n", 0),
    ("paths", "6351", "refused OpenBranch\n", 1),
    ("paths", "6367", "refused OpenBranch\n", 1),
    ("paths", "5", "refused BadHex\n", 1),
    ("paths", "zz", "refused BadHex\n", 1),
    ("paths", "5g", "refused BadHex\n", 1),
    ("paths", "50", "refused BadOpcode 0\n", 1),
    ("paths", "51b3", "refused BadOpcode 1\n", 1),
    ("paths", "02FF", "refused Truncated 0\n", 1),
    ("paths", "5102ff", "refused Truncated 1\n", 1),
    ("paths", "51758282", "refused Undecided 3\n", 1),
    ("paths", "a9", "refused Undecided 1\n", 1),
];

// A script: a piece of it, how often it stands there, and the end; what is printed, and the status.
const LONG: [(&str, usize, &str, &str, u8); 5] = [
    (
        "7675",
        100,
        "5175",
        "paths 1\npath 0 arity 1 counted 201 height 2 lock - age -\n  truth 0 yes\n",
        0,
    ),
    ("7675", 101, "", "refused TooManyOps\n", 1),
    ("51", 10_001, "", "refused TooLong\n", 1),
    ("636768", 7, "", "refused TooManyPaths\n", 1),
    ("51", 1_001, "", "refused TooTall\n", 1),
];

// Words that name no program.
const WRONG: [&[&str]; 4] = [&[], &["paths"], &["paths", "51", "51"], &["path", "51"]];

#[test]
fn hashes(rt: HostRuntime) {
    for (word, text, line, status) in &HASHES {
        prints(&rt, rt.alloc(), &[word, text], "", line, "", *status);
    }
}

#[test]
fn lists_scripts(rt: HostRuntime) {
    for (word, code, text, status) in &SCRIPTS {
        prints(&rt, rt.alloc(), &[word, code], "", text, "", *status);
    }
}

#[test]
fn lists_long_scripts(rt: HostRuntime) {
    for (piece, times, end, text, status) in &LONG {
        let code = repeated(&rt, rt.alloc(), piece, *times, end);
        prints(
            &rt,
            rt.alloc(),
            &["paths", code.as_str()],
            "",
            text,
            "",
            *status,
        );
    }
}

#[test]
fn refuses_wrong_words(rt: HostRuntime) {
    for words in &WRONG {
        prints(&rt, rt.alloc(), words, "", "", USAGE, 2);
    }
}

#[test]
fn tells_what_cannot_be_written(rt: HostRuntime) {
    breaks(&rt, rt.alloc(), &["ripemd", ""], "");
    breaks(&rt, rt.alloc(), &[], "");
    is_unflushed(&rt, rt.alloc(), &["ripemd", ""]);
    is_unflushed(&rt, rt.alloc(), &["paths", "6351"]);
    is_unflushed(&rt, rt.alloc(), &["paths"]);
}
