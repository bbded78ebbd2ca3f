//! How often a session reads, how much at once, and what comes of a piece that is read in parts.
use crate::desk::Desk;
use crate::sessions::{GET, HELLO, HELLO_WITH_ANOTHER_KEY, NO_KIND, bytes_of};
use assertions::same;
use memory_growth::lists;
use session_engine::{Ended, SessionFault, serve};
use std::alloc::Global;
use std::io::{self, Read, Write};
use std::test::Fail;

/// A writer that only counts: what it takes, and how often it is asked to hand that over.
#[derive(Drop)]
struct Count {
    written: usize,
    flushes: usize,
}

impl Write for Count {
    fn write(&mut self, buf: &[u8]) -> io::Result<usize> {
        self.written = self.written.saturating_add(buf.len());
        Ok(buf.len())
    }

    fn flush(&mut self) -> io::Result<()> {
        self.flushes = self.flushes.saturating_add(1);
        Ok(())
    }
}

/// What was seen of a session: how it ended, how many bytes it wrote, and how often it handed them over.
#[derive(Clone, Copy, Debug, PartialEq)]
struct Seen {
    outcome: Result<Ended, SessionFault>,
    written: usize,
    flushes: usize,
}

fn served_over<R: Read>(alloc: Global, reader: &mut R) -> Seen {
    let mut count = Count {
        written: 0,
        flushes: 0,
    };
    let outcome = serve(alloc, reader, &mut count, &mut Desk::new());
    Seen {
        outcome,
        written: count.written,
        flushes: count.flushes,
    }
}

/// A reader that gives the frame of a Leave again and again, a byte at a time.
#[derive(Drop)]
struct Trickle {
    left: usize,
}

const LEAVE_FRAME: [u8; 5] = [0, 0, 0, 1, 0x12];

impl Read for Trickle {
    fn read(&mut self, buf: &mut [u8]) -> io::Result<usize> {
        if self.left == 0 || buf.is_empty() {
            return Ok(0);
        }
        self.left -= 1;
        buf[0] = LEAVE_FRAME[4 - self.left % 5];
        Ok(1)
    }
}

#[test]
fn a_session_is_answered_however_often_it_reads(rt: HostRuntime) -> Result<(), Fail> {
    let found = served_over(rt.alloc(), &mut Trickle { left: 200_000 });
    // a refusal of 6 bytes to each frame of 5, and the read that tells the end
    let wanted = Seen {
        outcome: Ok(Ended::Clean),
        written: 240_000,
        flushes: 200_001,
    };
    same!(rt; found, wanted);
    Ok(())
}

/// A reader of one piece after another, a read each, that keeps how many bytes each read had room for.
#[derive(Drop)]
struct Rooms<'a> {
    pieces: &'a [&'a [u8]],
    rooms: [usize; 4],
    reads: usize,
}

impl<'a> Read for Rooms<'a> {
    fn read(&mut self, buf: &mut [u8]) -> io::Result<usize> {
        if let Some(room) = self.rooms.get_mut(self.reads) {
            *room = buf.len();
        }
        let Some(mut piece) = self.pieces.get(self.reads).copied() else {
            return Ok(0);
        };
        self.reads = self.reads.saturating_add(1);
        piece.read(buf)
    }
}

/// The room of each read of a session that is answered to its end.
fn rooms_of(alloc: Global, pieces: &[&[u8]]) -> Result<[usize; 4], SessionFault> {
    let mut reader = Rooms {
        pieces,
        rooms: [0; 4],
        reads: 0,
    };
    served_over(alloc, &mut reader).outcome?;
    Ok(reader.rooms)
}

#[test]
fn little_is_read_at_once_until_more_comes_together(rt: HostRuntime) -> Result<(), Fail> {
    let alloc = rt.alloc();
    let get = bytes_of(alloc, &[GET])?;
    let hello = bytes_of(alloc, &[HELLO])?;
    let stranger = bytes_of(alloc, &[HELLO_WITH_ANOTHER_KEY])?;
    let pieces = [get.as_slice(), stranger.as_slice(), get.as_slice()];
    same!(rt; rooms_of(alloc, &pieces), Ok([4_096; 4]));
    let pieces = [get.as_slice(), hello.as_slice(), get.as_slice()];
    same!(rt; rooms_of(alloc, &pieces), Ok([4_096; 4]));
    // as many as are read at once: before an accepted Hello, and after it
    let full = with_leaves(alloc, &[GET, GET], 806)?;
    let pieces = [full.as_slice(), stranger.as_slice(), full.as_slice()];
    same!(rt; rooms_of(alloc, &pieces), Ok([4_096; 4]));
    let pieces = [hello.as_slice(), full.as_slice(), get.as_slice()];
    same!(rt; rooms_of(alloc, &pieces), Ok([4_096, 4_096, 66_560, 66_560]));
    Ok(())
}

/// The bytes of these frames, and then so many Leaves.
fn with_leaves(alloc: Global, texts: &[&str], leaves: u32) -> Result<Vec<u8>, Fail> {
    let mut bytes = bytes_of(alloc, texts)?;
    for _ in 0..leaves {
        lists::extend_from_slice(&mut bytes, &LEAVE_FRAME)?;
    }
    Ok(bytes)
}

/// What is seen of a session whose input comes in two pieces.
fn pieced(alloc: Global, first: &[u8], second: &[u8]) -> Seen {
    served_over(alloc, &mut Read::chain(first, second))
}

#[test]
fn a_long_piece_is_answered_in_few(rt: HostRuntime) -> Result<(), Fail> {
    let alloc = rt.alloc();
    let hello = bytes_of(alloc, &[HELLO])?;
    let leaves = with_leaves(alloc, &[], 2_000)?;
    let wanted = Seen {
        outcome: Ok(Ended::Clean),
        written: 5 + 2_000 * 5,
        // the Hello, 4 KiB, the rest, and the end
        flushes: 4,
    };
    same!(rt; pieced(alloc, &hello, &leaves), wanted);
    // what stands after a fault isn't answered, though it is most of the piece
    let no_frame = with_leaves(alloc, &[NO_KIND], 2_000)?;
    let wanted = Seen {
        outcome: Ok(Ended::Malformed),
        written: 5 + 6,
        flushes: 2,
    };
    same!(rt; pieced(alloc, &hello, &no_frame), wanted);
    Ok(())
}
