//! Input that never ends, or that fails.

use crate::fixtures::prints_of;
use enforce_words::USAGE;
use std::io;

// A reader that returns zero bytes without an end.
#[derive(Drop)]
struct Endless;

impl io::Read for Endless {
    fn read(&mut self, bytes: &mut [u8]) -> io::Result<usize> {
        bytes.fill(0);
        Ok(bytes.len())
    }
}

// A reader that returns a byte `left` times, and then fails.
#[derive(Drop)]
struct Failing {
    left: u8,
}

impl io::Read for Failing {
    fn read(&mut self, bytes: &mut [u8]) -> io::Result<usize> {
        if self.left == 0 || bytes.is_empty() {
            return Err(io::Error::from(io::ErrorKind::BrokenPipe));
        }
        self.left -= 1;
        bytes[0] = b'{';
        Ok(1)
    }
}

#[test]
fn reads_no_more_than_the_limit(rt: HostRuntime) {
    let line = "refused TooLong\n";
    prints_of(&rt, rt.alloc(), &["run"], &mut Endless, line, "", 1);
}

#[test]
fn tells_a_failed_read(rt: HostRuntime) {
    for left in [0, 3] {
        let line = "refused ReadFailed\n";
        let mut input = Failing { left };
        prints_of(&rt, rt.alloc(), &["run"], &mut input, line, "", 1);
    }
}

// Wrong words are detected before any input is read.
#[test]
fn reads_nothing_after_wrong_words(rt: HostRuntime) {
    let mut input = Failing { left: 3 };
    prints_of(&rt, rt.alloc(), &["run", "1"], &mut input, "", USAGE, 2);
    assert_eq!(rt; input.left, 3);
}
