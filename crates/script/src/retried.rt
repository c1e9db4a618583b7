//! Retries of interrupted reads.

use std::io;
use std::io::Read;

/// A reader that retries a read if a signal interrupted it.
#[derive(Drop)]
pub(crate) struct Retried<R> {
    pub reader: R,
}

impl<R: Read> Read for Retried<R> {
    ghost remaining = { λ retried. R.remaining retried.reader };

    fn read(&mut self, buf: &mut [u8]) -> io::Result<usize> {
        for _ in 0..u64::MAX {
            match self.reader.read(buf) {
                Err(error) if error.kind() == io::ErrorKind::Interrupted => {}
                read => return read,
            }
        }
        Err(io::Error::from(io::ErrorKind::TimedOut))
    }
}
