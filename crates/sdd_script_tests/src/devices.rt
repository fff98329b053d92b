//! Devices that move three bytes at a time, and fail once their calls are used up.

use std::alloc::{AllocError, Global};
use std::io;

/// A reader of a text.
#[derive(Drop)]
pub struct Trickle<'a> {
    pub rest: &'a [u8],
    pub calls: u64,
}

impl io::Read for Trickle<'_> {
    fn read(&mut self, buffer: &mut [u8]) -> io::Result<usize> {
        if self.calls == 0 {
            return Err(io::Error::from(io::ErrorKind::TimedOut));
        }
        self.calls -= 1;
        let count = buffer.len().min(3).min(self.rest.len());
        buffer[..count].copy_from_slice(&self.rest[..count]);
        self.rest = &self.rest[count..];
        Ok(count)
    }
}

/// A page to write on, with room for 1024 bytes.
#[derive(Drop)]
pub struct Page {
    bytes: Vec<u8>,
    calls: u64,
}

impl Page {
    pub fn new(alloc: Global, calls: u64) -> Result<Page, AllocError> {
        let bytes = Vec::with_capacity(alloc, 1024)?;
        Ok(Page { bytes, calls })
    }

    /// What was written.
    pub fn written(&self) -> &[u8] {
        self.bytes.as_slice()
    }
}

impl io::Write for Page {
    fn write(&mut self, bytes: &[u8]) -> io::Result<usize> {
        if self.calls == 0 {
            return Err(io::Error::from(io::ErrorKind::TimedOut));
        }
        self.calls -= 1;
        let count = bytes.len().min(3);
        match self.bytes.extend_from_slice(&bytes[..count]) {
            Ok(()) => Ok(count),
            Err(_) => Err(io::Error::from(io::ErrorKind::OutOfMemory)),
        }
    }

    fn flush(&mut self) -> io::Result<()> {
        Ok(())
    }
}
