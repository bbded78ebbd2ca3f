//! When a session's writer hands over what it was given.
use crate::desk::Desk;
use crate::sessions::{CREATE, GET, GET_WAIT, HELLO, NO_KIND, ROOM, SEAL, bytes_of};
use assertions::same;
use bytes::Bytes;
use memory_growth::{OutOfMemory, lists};
use obj_id::{Command, JobKey, JobNo, Refusal, Reply};
use private_store::Awaited;
use session_engine::{Ended, Gate, SessionFault, serve};
use std::alloc::Global;
use std::cell::Cell;
use std::io::{self, ErrorKind, Write};
use std::process::Abort;
use std::test::Fail;

/// A writer that needs no more memory, and tells in a cell how many bytes it has handed over.
#[derive(Drop)]
struct Parcel<'a> {
    written: Vec<u8>,
    handed_over: &'a Cell<usize>,
    flushes: u32,
    // which flush fails, counted from 1; 0 is none
    failing: u32,
}

impl<'a> Write for Parcel<'a> {
    fn write(&mut self, buf: &[u8]) -> io::Result<usize> {
        self.written.write(buf)
    }

    fn flush(&mut self) -> io::Result<()> {
        self.flushes = self.flushes.saturating_add(1);
        if self.flushes == self.failing {
            return Err(io::Error::from(ErrorKind::Other));
        }
        self.handed_over.set(self.written.len());
        Ok(())
    }
}

/// A desk that looks at how much was handed over before a call that waits.
#[derive(Drop)]
struct Watch<'a> {
    desk: Desk,
    handed_over: &'a Cell<usize>,
    // how much it was at the last such call
    seen: Option<usize>,
}

impl<'a> Gate for Watch<'a> {
    ghost use Rattle.std.specs.Prelude.{⊤};

    ghost gives = { λ _ _ _ _. ⊤ };

    fn enter(&mut self, job: JobNo, key: JobKey) -> Result<u32, Refusal> {
        self.desk.enter(job, key)
    }

    fn call(&mut self, job: JobNo, session: u32, command: Command<Bytes>) -> Reply<Bytes> {
        self.desk.call(job, session, command)
    }

    fn call_wait(&mut self, job: JobNo, session: u32, awaited: Awaited) -> Reply<Bytes> {
        self.seen = Some(self.handed_over.get());
        self.desk.call_wait(job, session, awaited)
    }

    fn leave(&mut self, job: JobNo, session: u32) {
        self.desk.leave(job, session);
    }
}

/// What was seen of a session whose input came in one piece.
#[derive(Clone, Copy, Debug, PartialEq)]
struct Seen {
    outcome: Result<Ended, SessionFault>,
    /// How many flushes there were, the one after the end of the input too.
    flushes: u32,
    /// How many bytes were handed over in the end.
    handed_over: usize,
    /// How many were at the last call that waits, if there was one.
    at_wait: Option<usize>,
}

fn watched(alloc: Global, mut input: &[u8], failing: u32) -> Result<Seen, OutOfMemory> {
    let handed_over = Cell::new(0);
    let mut parcel = Parcel {
        written: lists::with_capacity(alloc, ROOM)?,
        handed_over: &handed_over,
        flushes: 0,
        failing,
    };
    let mut watch = Watch {
        desk: Desk::new(),
        handed_over: &handed_over,
        seen: None,
    };
    let outcome = serve(alloc, &mut input, &mut parcel, &mut watch);
    Ok(Seen {
        outcome,
        flushes: parcel.flushes,
        handed_over: handed_over.get(),
        at_wait: watch.seen,
    })
}

/// What is wanted of a session whose input was answered to its end.
fn answered(ended: Ended, flushes: u32, handed_over: usize, at_wait: Option<usize>) -> Seen {
    Seen {
        outcome: Ok(ended),
        flushes,
        handed_over,
        at_wait,
    }
}

fn look(
    rt: &impl Abort,
    alloc: Global,
    input: &[&str],
    failing: u32,
    wanted: Seen,
) -> Result<(), Fail> {
    let input = bytes_of(alloc, input)?;
    same!(rt; watched(alloc, &input, failing)?, wanted);
    Ok(())
}

#[test]
fn answers_to_a_piece_are_handed_over_together(rt: HostRuntime) -> Result<(), Fail> {
    let alloc = rt.alloc();
    let wanted = answered(Ended::Clean, 2, 32, None);
    look(&rt, alloc, &[HELLO, CREATE, SEAL, GET], 0, wanted)?;
    let wanted = answered(Ended::Malformed, 1, 24, None);
    look(&rt, alloc, &[HELLO, CREATE, NO_KIND], 0, wanted)?;
    // nobody waits before a Hello that is accepted
    let wanted = answered(Ended::Clean, 2, 11, None);
    look(&rt, alloc, &[GET_WAIT, HELLO], 0, wanted)?;
    Ok(())
}

#[test]
fn earlier_answers_are_handed_over_before_a_wait(rt: HostRuntime) -> Result<(), Fail> {
    let alloc = rt.alloc();
    let wanted = answered(Ended::Clean, 3, 36, Some(18));
    look(&rt, alloc, &[HELLO, CREATE, GET_WAIT, GET], 0, wanted)?;
    let wanted = answered(Ended::Clean, 4, 36, Some(27));
    look(&rt, alloc, &[HELLO, GET_WAIT, CREATE, GET_WAIT], 0, wanted)?;
    Ok(())
}

/// What is wanted of a session of which this flush failed.
fn stopped(flushes: u32, handed_over: usize, at_wait: Option<usize>) -> Seen {
    Seen {
        outcome: Err(SessionFault::Write),
        flushes,
        handed_over,
        at_wait,
    }
}

#[test]
fn each_flush_fails_in_turn(rt: HostRuntime) -> Result<(), Fail> {
    let alloc = rt.alloc();
    let input = [HELLO, CREATE, GET_WAIT];
    // nothing is asked of the gate that waits if the earlier answers can't be handed over
    look(&rt, alloc, &input, 1, stopped(1, 0, None))?;
    look(&rt, alloc, &input, 2, stopped(2, 18, Some(18)))?;
    look(&rt, alloc, &input, 3, stopped(3, 27, Some(18)))?;
    let wanted = answered(Ended::Clean, 3, 27, Some(18));
    look(&rt, alloc, &input, 4, wanted)?;
    Ok(())
}
