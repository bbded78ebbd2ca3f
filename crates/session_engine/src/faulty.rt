//! A stream that fails one call.
ghost use Rattle.std.specs.Prelude.{◌≡◌, ◌==◌, ◌-◌};

use std::io::{self, ErrorKind, Read, Write};

/// A stream over another one, of which one read or write fails without reaching that other one.
#[derive(Drop)]
pub struct FaultyStream<S> {
    /// The stream beneath.
    pub inner: S,
    // how many calls there are up to the one that fails; 0 once it has failed
    turns: u64,
}

impl<S> FaultyStream<S> {
    /// A stream whose call `k`, counted from 1 over reads and writes, fails; at 0 none does.
    pub fn new(inner: S, k: u64) -> FaultyStream<S>
        ensures { result ≡ record { inner = inner; turns = k } }
    {
        FaultyStream { inner, turns: k }
    }

    /// Whether this call is the one that fails. Counts it.
    fn is_turn(&mut self) -> bool
        ensures turn { result ≡ (self.old.turns == 1) }
        ensures new { self.new ≡ record self.old { turns = self.old.turns - 1 } }
    {
        let is_turn = self.turns == 1;
        self.turns = self.turns.saturating_sub(1);
        is_turn
    }
}

impl<S: Read> Read for FaultyStream<S> {
    ghost use Rattle.std.specs.Io.{ReadsAtMost};
    ghost use Rattle.std.specs.Io.KnownBytes.{ReadConsumes};
    ghost use Rattle.session_engine.specs.Turns.{FailsInTurn};

    ghost remaining = { λ s. S.remaining s.inner };

    fn read(&mut self, buf: &mut [u8]) -> io::Result<usize>
        ensures bound { ReadsAtMost result buf.new }
        ensures bytes { ReadConsumes (S.remaining self.old.inner) (S.remaining self.new.inner) result buf.new }
        ensures turn { FailsInTurn self.old result self.new }
    {
        if self.is_turn() {
            return Err(io::Error::from(ErrorKind::Other));
        }
        self.inner.read(buf)
    }
}

/// A flush is no call that fails.
impl<S: Write> Write for FaultyStream<S> {
    ghost use Rattle.std.specs.Io.{WritesAtMost};
    ghost use Rattle.std.specs.Io.KnownBytes.{Keeps, WriteAppends};
    ghost use Rattle.session_engine.specs.Turns.{FailsInTurn};

    ghost contents = { λ s. S.contents s.inner };

    fn write(&mut self, buf: &[u8]) -> io::Result<usize>
        ensures bound { WritesAtMost result buf.now }
        ensures bytes { WriteAppends (S.contents self.old.inner) (S.contents self.new.inner) result buf.now }
        ensures turn { FailsInTurn self.old result self.new }
    {
        if self.is_turn() {
            return Err(io::Error::from(ErrorKind::Other));
        }
        self.inner.write(buf)
    }

    fn flush(&mut self) -> io::Result<()>
        ensures bytes { Keeps (S.contents self.old.inner) (S.contents self.new.inner) }
        ensures turns { self.new.turns ≡ self.old.turns }
    {
        self.inner.flush()
    }
}
