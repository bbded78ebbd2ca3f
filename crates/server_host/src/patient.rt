//! Standard input and output that were set not to wait, as some shells and programs leave them.
ghost use Rattle.std.specs.Prelude.{None};

use std::io::{self, ErrorKind, Read, Write};
use std::thread;
use std::time::{Clock, Duration};

/// How long a call rests that would have to wait until it is made again, in milliseconds.
const REST: u64 = 10;

/// A reader or a writer each call of which is made until it needn't wait.
#[derive(Drop)]
pub struct Patient<S: Drop, C: Clock + Drop> {
    inner: S,
    clock: C,
}

impl<S: Drop, C: Clock + Drop> Patient<S, C> {
    pub fn new(inner: S, clock: C) -> Patient<S, C> {
        Patient { inner, clock }
    }

    /// Rests after a call that would have had to wait.
    fn rest(&self) {
        thread::sleep(&self.clock, Duration::from_millis(REST));
    }
}

/// A contract isn't told what is read.
impl<S: Read + Drop, C: Clock + Drop> Read for Patient<S, C> {
    ghost remaining = { λ _. None };

    fn read(&mut self, buf: &mut [u8]) -> io::Result<usize> {
        for _ in 0..u64::MAX {
            match self.inner.read(buf) {
                Err(error) if error.kind() == ErrorKind::WouldBlock => self.rest(),
                done => return done,
            }
        }
        Err(io::Error::from(ErrorKind::WouldBlock))
    }
}

/// A contract isn't told what is written.
impl<S: Write + Drop, C: Clock + Drop> Write for Patient<S, C> {
    ghost contents = { λ _. None };

    fn write(&mut self, buf: &[u8]) -> io::Result<usize> {
        for _ in 0..u64::MAX {
            match self.inner.write(buf) {
                Err(error) if error.kind() == ErrorKind::WouldBlock => self.rest(),
                done => return done,
            }
        }
        Err(io::Error::from(ErrorKind::WouldBlock))
    }

    fn flush(&mut self) -> io::Result<()> {
        for _ in 0..u64::MAX {
            match self.inner.flush() {
                Err(error) if error.kind() == ErrorKind::WouldBlock => self.rest(),
                done => return done,
            }
        }
        Err(io::Error::from(ErrorKind::WouldBlock))
    }
}
