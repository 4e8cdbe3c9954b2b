//! Where a log is written in tests.

use std::alloc::Global;
use std::io::{self, ErrorKind, Write};

/// Takes what is written, or a byte of it and then fails.
pub struct Paper {
    pub text: Vec<u8>,
    pub fails: bool,
}

impl Drop for Paper {
    fn drop(self) {
        let Paper {
            text: _text,
            fails: _,
        } = self;
    }
}

impl Paper {
    pub fn new(alloc: Global, fails: bool) -> Paper {
        Paper {
            text: Vec::new(alloc),
            fails,
        }
    }
}

impl Write for Paper {
    fn write(&mut self, bytes: &[u8]) -> io::Result<usize> {
        let count = if self.fails {
            bytes.len().min(1)
        } else {
            bytes.len()
        };
        if self.fails && !self.text.is_empty() {
            self.fails = false;
            return Err(io::Error::from(ErrorKind::BrokenPipe));
        }
        match self.text.extend_from_slice(&bytes[..count]) {
            Ok(()) => Ok(count),
            Err(_) => Err(io::Error::from(ErrorKind::OutOfMemory)),
        }
    }

    fn flush(&mut self) -> io::Result<()> {
        Ok(())
    }
}
