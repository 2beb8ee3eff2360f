// A reader that keeps what passes through it.

use std::alloc::Global;
use std::io;
use std::io::Read;

/// A reader that keeps what passes through it.
#[derive(Drop)]
pub struct Kept<R> {
    reader: R,
    bytes: Vec<u8>,
    is_whole: bool,
    has_ended: bool,
}

impl<R: Read> Kept<R> {
    /// A reader that returns what this one does. Does not allocate.
    pub fn new(alloc: Global, reader: R) -> Self {
        Kept {
            reader,
            bytes: Vec::new(alloc),
            is_whole: true,
            has_ended: false,
        }
    }

    /// All that there was to read; `None` before its end, if a read failed, or if memory ran out.
    pub fn all_bytes(&self) -> Option<&[u8]> {
        if self.is_whole && self.has_ended {
            Some(self.bytes.as_slice())
        } else {
            None
        }
    }
}

impl<R: Read> Read for Kept<R> {
    fn read(&mut self, bytes: &mut [u8]) -> io::Result<usize> {
        match self.reader.read(bytes) {
            Ok(count) => {
                if count == 0 && !bytes.is_empty() {
                    self.has_ended = true;
                }
                if self.bytes.extend_from_slice(&bytes[..count]).is_err() {
                    self.is_whole = false;
                }
                Ok(count)
            }
            Err(error) => {
                if error.kind() != io::ErrorKind::Interrupted {
                    self.is_whole = false;
                }
                Err(error)
            }
        }
    }
}
