//! The reader that keeps what it returns, and the writer that keeps what it writes.

use enforce_notes::{Copied, Kept};
use std::io;
use std::io::{Read, Write};

// A reader that returns a byte `left` times, and then fails.
#[derive(Drop)]
struct Failing {
    left: u8,
}

impl io::Read for Failing {
    fn read(&mut self, bytes: &mut [u8]) -> io::Result<usize> {
        if self.left == 0 || bytes.is_empty() {
            return Err(io::Error::from(io::ErrorKind::BrokenPipe));
        }
        self.left -= 1;
        bytes[0] = b'{';
        Ok(1)
    }
}

#[test]
fn keeps_what_it_gives(rt: HostRuntime) {
    let text: &[u8] = b"what is read";
    let mut kept = Kept::new(rt.alloc(), text);
    let mut read: Vec<u8> = Vec::new(rt.alloc());
    assert!(rt; kept.read_to_end(&mut read).is_ok());
    assert_eq!(rt; read.as_slice(), text);
    assert!(rt; kept.all_bytes() == Some(text));
}

// Where memory runs out for whoever reads, what was read is not the whole text.
#[test]
fn keeps_nothing_before_the_end(rt: HostRuntime) {
    let text: &[u8] = b"what is read";
    let mut kept = Kept::new(rt.alloc(), text);
    let mut read = [0u8; 12];
    assert!(rt; matches!(kept.read(&mut read), Ok(12)));
    assert!(rt; kept.all_bytes().is_none());
}

#[test]
fn keeps_nothing_after_a_failure(rt: HostRuntime) {
    let mut kept = Kept::new(rt.alloc(), Failing { left: 2 });
    let mut read: Vec<u8> = Vec::new(rt.alloc());
    assert!(rt; kept.read_to_end(&mut read).is_err());
    assert!(rt; kept.all_bytes().is_none());
}

// A writer that takes `left` bytes, one at a time, and then fails.
#[derive(Drop)]
struct Full {
    left: u8,
}

impl io::Write for Full {
    fn write(&mut self, bytes: &[u8]) -> io::Result<usize> {
        if self.left == 0 || bytes.is_empty() {
            return Err(io::Error::from(io::ErrorKind::StorageFull));
        }
        self.left -= 1;
        Ok(1)
    }

    fn flush(&mut self) -> io::Result<()> {
        Ok(())
    }
}

#[test]
fn keeps_what_it_writes(rt: HostRuntime) {
    for (left, kept) in &[(4u8, "0 ok"), (3, "0 o"), (0, "")] {
        let mut copied = Copied::new(rt.alloc(), Full { left: *left });
        assert!(rt; copied.write_all(b"0 ok").is_ok() == (*left == 4));
        assert!(rt; copied.flush().is_ok());
        assert_eq!(rt; copied.all_bytes(), kept.as_bytes());
    }
}
