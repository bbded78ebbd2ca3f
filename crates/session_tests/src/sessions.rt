//! Sessions over memory.
use crate::desk::{Desk, PAGE};
use assertions::{holds, same};
use memory_growth::{OutOfMemory, lists, text_of};
use session_engine::{Ended, FaultyStream, SessionFault, serve};
use std::alloc::Global;
use std::io::{self, ErrorKind, Read, Write};
use std::process::Abort;
use std::test::Fail;

// The frames are of job 1, and of the object of task 1 and index 1 in it.

pub(crate) const HELLO: &str =
    "0000002501000000010000000000000000000000000000000000000000000000000000000000000000";

pub(crate) const HELLO_WITH_ANOTHER_KEY: &str =
    "0000002501000000010000000000000000000000000000000000000000000000000000000000000001";

/// A primary of 20 bytes.
pub(crate) const CREATE: &str =
    "0000002202000000000000000000000000000000000000000100000001000000010000000014";

/// Of no kind that there is.
const CREATE_OF_NO_KIND: &str =
    "0000002202000000000000000000000000000000000000000100000001000000010200000014";

pub(crate) const SEAL: &str = "0000001d0400000000000000000000000000000000000000010000000100000001";

pub(crate) const GET: &str = "0000001d0500000000000000000000000000000000000000010000000100000001";

/// Of an invalid id.
const GET_OF_NO_ID: &str = "0000001d0500000000000000000000000000000000000000000000000000000000";

pub(crate) const GET_WAIT: &str =
    "0000001d1300000000000000000000000000000000000000010000000100000001";

const CREATE_WAIT: &str =
    "0000002214000000000000000000000000000000000000000100000001000000010000000014";

/// Of 2,000 bytes.
const READ: &str =
    "00000025060000000000000000000000000000000000000001000000010000000100000000000007d0";

const LEAVE: &str = "0000000112";

pub(crate) const NO_KIND: &str = "0000000115";

const OK: &str = "0000000180";

const PLACED: &str = "00000009810000000000000020";

const GOT: &str = "000000058200000014";

const NOT_ADMITTED: &str = "000000028f01";

const BAD_ID: &str = "000000028f02";

const EXISTS: &str = "000000028f03";

/// What comes before the 2,000 bytes.
const BYTES: &str = "000007d183";

const MALFORMED: &str = "000000028f14";

/// The bytes of all texts, one after another.
pub(crate) fn bytes_of(alloc: Global, texts: &[&str]) -> Result<Vec<u8>, Fail> {
    let mut bytes = Vec::new(alloc);
    for text in texts {
        let part = hex::decode(alloc, *text)?;
        lists::extend_from_slice(&mut bytes, &part)?;
    }
    Ok(bytes)
}

/// A reader that gives so many bytes at once, at most.
#[derive(Drop)]
struct Drip<R> {
    inner: R,
    at_once: usize,
}

impl<R: Read> Read for Drip<R> {
    fn read(&mut self, buf: &mut [u8]) -> io::Result<usize> {
        let len = buf.len().min(self.at_once);
        self.inner.read(&mut buf[..len])
    }
}

/// More bytes than any session here is answered.
pub(crate) const ROOM: usize = 4_096;

/// How a session's input comes, and which of its calls fail: 0 is none.
#[derive(Clone, Copy)]
struct Way {
    /// How many bytes come first.
    cut: usize,
    at_once: usize,
    failing_read: u64,
    failing_write: u64,
    /// How many bytes the writer takes at once, after an interruption each time. `None` is all, and no interruption.
    sip: Option<usize>,
}

/// All at once, and no call fails.
const PLAIN: Way = Way {
    cut: 0,
    at_once: usize::MAX,
    failing_read: 0,
    failing_write: 0,
    sip: None,
};

/// The same, with a writer that takes 4 bytes at once.
const SIPPING: Way = Way {
    cut: 0,
    at_once: usize::MAX,
    failing_read: 0,
    failing_write: 0,
    sip: Some(4),
};

/// What came of a session.
#[derive(Drop)]
struct Session {
    outcome: Result<Ended, SessionFault>,
    outbox: Outbox,
    desk: Desk,
}

/// A writer that needs no more memory, and hands over what it has at a flush alone.
#[derive(Drop)]
struct Outbox {
    written: Vec<u8>,
    handed_over: usize,
}

impl Outbox {
    fn new(alloc: Global) -> Result<Outbox, OutOfMemory> {
        Ok(Outbox {
            written: lists::with_capacity(alloc, ROOM)?,
            handed_over: 0,
        })
    }
}

impl Write for Outbox {
    fn write(&mut self, buf: &[u8]) -> io::Result<usize> {
        self.written.write(buf)
    }

    fn flush(&mut self) -> io::Result<()> {
        self.handed_over = self.written.len();
        Ok(())
    }
}

/// An outbox that may take only some bytes at once, after an interruption each time.
#[derive(Drop)]
struct Sips {
    outbox: Outbox,
    at_once: Option<usize>,
    interrupted: bool,
}

impl Write for Sips {
    fn write(&mut self, buf: &[u8]) -> io::Result<usize> {
        let Some(at_once) = self.at_once else {
            return self.outbox.write(buf);
        };
        self.interrupted = !self.interrupted;
        if self.interrupted {
            return Err(io::Error::from(ErrorKind::Interrupted));
        }
        let len = buf.len().min(at_once);
        self.outbox.write(&buf[..len])
    }

    fn flush(&mut self) -> io::Result<()> {
        self.outbox.flush()
    }
}

fn session_over(alloc: Global, input: &[u8], way: Way) -> Result<Session, OutOfMemory> {
    let cut = way.cut.min(input.len());
    let pieces = Read::chain(&input[..cut], &input[cut..]);
    let drip = Drip {
        inner: pieces,
        at_once: way.at_once,
    };
    let mut reader = FaultyStream::new(drip, way.failing_read);
    let sips = Sips {
        outbox: Outbox::new(alloc)?,
        at_once: way.sip,
        interrupted: false,
    };
    let mut writer = FaultyStream::new(sips, way.failing_write);
    let mut desk = Desk::new();
    let outcome = serve(alloc, &mut reader, &mut writer, &mut desk);
    Ok(Session {
        outcome,
        outbox: writer.inner.outbox,
        desk,
    })
}

/// A session: what it wrote is a beginning of the whole answer, also if memory ran out, which is an error.
fn served(
    rt: &impl Abort,
    alloc: Global,
    input: &[u8],
    way: Way,
    whole: &[u8],
) -> Result<Session, Fail> {
    let session = session_over(alloc, input, way)?;
    look_at(rt, &session, whole);
    if session.outcome == Err(SessionFault::Memory) {
        return Err(Fail::new("no memory for the session"));
    }
    Ok(session)
}

/// Who came in was left last, and nobody else called; what was written is a beginning of the whole answer,
/// and is handed over if the session ended.
fn look_at(rt: &impl Abort, session: &Session, whole: &[u8]) {
    holds!(rt; whole.starts_with(session.outbox.written.as_slice()));
    if session.outcome.is_ok() {
        same!(rt; session.outbox.handed_over, session.outbox.written.len());
    }
    same!(rt; session.desk.strays, 0);
    same!(rt; session.desk.is_left, session.desk.entries == 1);
}

/// Rows of a session's input, its whole answer, and its end.
const ROWS: [(&[&str], &[&str], Ended); 12] = [
    (&["00000000"], &[MALFORMED], Ended::Malformed),
    (&["ffffffff"], &[MALFORMED], Ended::Malformed),
    (&["000000"], &[], Ended::MidFrame),
    (&[], &[], Ended::Clean),
    (
        &[HELLO, CREATE, SEAL, GET],
        &[OK, PLACED, OK, GOT],
        Ended::Clean,
    ),
    (&[HELLO, NO_KIND], &[OK, MALFORMED], Ended::Malformed),
    (
        &[HELLO, CREATE_OF_NO_KIND],
        &[OK, MALFORMED],
        Ended::Malformed,
    ),
    (&[HELLO, GET_OF_NO_ID], &[OK, BAD_ID], Ended::Clean),
    // nothing is answered after what isn't a frame
    (
        &[HELLO, NO_KIND, CREATE],
        &[OK, MALFORMED],
        Ended::Malformed,
    ),
    // before a Hello that is accepted, which may be tried again
    (
        &[
            CREATE,
            GET_WAIT,
            GET_OF_NO_ID,
            HELLO_WITH_ANOTHER_KEY,
            SEAL,
            HELLO,
            CREATE,
        ],
        &[
            NOT_ADMITTED,
            NOT_ADMITTED,
            BAD_ID,
            NOT_ADMITTED,
            NOT_ADMITTED,
            OK,
            PLACED,
        ],
        Ended::Clean,
    ),
    // after it
    (
        &[HELLO, HELLO, HELLO_WITH_ANOTHER_KEY, CREATE_WAIT, GET_WAIT],
        &[OK, EXISTS, EXISTS, PLACED, GOT],
        Ended::Clean,
    ),
    (
        &[HELLO, CREATE, "0000001d04"],
        &[OK, PLACED],
        Ended::MidFrame,
    ),
];

#[test]
fn sessions_are_answered_wherever_they_are_cut(rt: HostRuntime) -> Result<(), Fail> {
    let alloc = rt.alloc();
    for (input, whole, ended) in ROWS {
        let input = bytes_of(alloc, input)?;
        let whole = bytes_of(alloc, whole)?;
        for cut in 0..=input.len() {
            let way = Way { cut, ..PLAIN };
            let session = served(&rt, alloc, &input, way, &whole)?;
            assert_eq!(rt; session.outcome, Ok(ended), "cut at {cut}");
            assert_eq!(rt; session.outbox.written, whole, "cut at {cut}");
        }
    }
    Ok(())
}

/// Inputs and answers, and how often the gate is asked to leave the session: its client's own Leaves are commands.
const LEAVES: [(&[&str], &[&str], u32); 4] = [
    (&[LEAVE], &[NOT_ADMITTED], 0),
    (&[HELLO_WITH_ANOTHER_KEY], &[NOT_ADMITTED], 0),
    (&[HELLO, NO_KIND], &[OK, MALFORMED], 1),
    (
        &[HELLO, LEAVE, GET, LEAVE],
        &[OK, OK, "000000058200000000", OK],
        1,
    ),
];

/// How many bytes of answers are due to the worked session when so much of it has come.
const BORDERS: [(usize, usize); 5] = [(0, 0), (41, 5), (79, 18), (112, 23), (145, 32)];

fn due(come: usize) -> usize {
    let mut due = 0;
    for (input, answers) in BORDERS {
        if input <= come {
            due = answers;
        }
    }
    due
}

fn is_border(come: usize) -> bool {
    BORDERS.iter().any(|border| border.0 == come)
}

fn worked_session(alloc: Global) -> Result<Vec<u8>, Fail> {
    bytes_of(alloc, &[HELLO, CREATE, SEAL, GET])
}

fn worked_answers(alloc: Global) -> Result<Vec<u8>, Fail> {
    bytes_of(alloc, &[OK, PLACED, OK, GOT])
}

#[test]
fn sessions_may_end_anywhere(rt: HostRuntime) -> Result<(), Fail> {
    let alloc = rt.alloc();
    let input = worked_session(alloc)?;
    let whole = worked_answers(alloc)?;
    for come in 0..=input.len() {
        let session = served(&rt, alloc, &input[..come], PLAIN, &whole)?;
        let ended = if is_border(come) {
            Ended::Clean
        } else {
            Ended::MidFrame
        };
        assert_eq!(rt; session.outcome, Ok(ended), "ended at {come}");
        assert_eq!(rt; session.outbox.written.len(), due(come), "ended at {come}");
    }
    Ok(())
}

#[test]
fn each_read_fails_in_turn(rt: HostRuntime) -> Result<(), Fail> {
    let alloc = rt.alloc();
    let input = worked_session(alloc)?;
    let whole = worked_answers(alloc)?;
    // one byte comes at a time, and the read after the last one tells the end
    for come in 0..=input.len() {
        let way = Way {
            at_once: 1,
            failing_read: come as u64 + 1,
            ..PLAIN
        };
        let session = served(&rt, alloc, &input, way, &whole)?;
        assert_eq!(rt; session.outcome, Err(SessionFault::Read), "after {come}");
        assert_eq!(rt; session.outbox.written.len(), due(come), "after {come}");
    }
    let way = Way {
        at_once: 1,
        failing_read: input.len() as u64 + 2,
        ..PLAIN
    };
    let session = served(&rt, alloc, &input, way, &whole)?;
    same!(rt; session.outcome, Ok(Ended::Clean));
    Ok(())
}

/// The session's writes fail in turn, and then none does: of each that fails, how many bytes were written
/// before it.
fn fail_writes(
    rt: &impl Abort,
    alloc: Global,
    input: &[u8],
    whole: &[u8],
    writes: &[(u64, usize)],
    plain: Way,
) -> Result<(), Fail> {
    for (turn, written) in writes {
        let way = Way {
            failing_write: *turn,
            ..plain
        };
        let session = served(rt, alloc, input, way, whole)?;
        assert_eq!(rt; session.outcome, Err(SessionFault::Write), "write {turn}");
        assert_eq!(rt; session.outbox.written.len(), *written, "write {turn}");
        assert_eq!(rt; session.desk.leaves, 1, "write {turn}");
    }
    let way = Way {
        failing_write: writes.len() as u64 + 1,
        ..plain
    };
    let session = served(rt, alloc, input, way, whole)?;
    same!(rt; session.outcome, Ok(Ended::Clean));
    same!(rt; session.outbox.written.as_slice(), whole);
    Ok(())
}

#[test]
fn each_write_fails_in_turn(rt: HostRuntime) -> Result<(), Fail> {
    let input = worked_session(rt.alloc())?;
    let whole = worked_answers(rt.alloc())?;
    let writes = [(1, 0), (2, 5), (3, 18), (4, 23)];
    fail_writes(&rt, rt.alloc(), &input, &whole, &writes, PLAIN)?;
    Ok(())
}

/// Of each write of the worked answers that may fail, by a writer that takes 4 bytes of a frame at once and is interrupted before
/// each, how many bytes were written before it.
const SIPS: [(u64, usize); 22] = [
    (1, 0),
    (2, 0),
    (3, 4),
    (4, 4),
    (5, 5),
    (6, 5),
    (7, 9),
    (8, 9),
    (9, 13),
    (10, 13),
    (11, 17),
    (12, 17),
    (13, 18),
    (14, 18),
    (15, 22),
    (16, 22),
    (17, 23),
    (18, 23),
    (19, 27),
    (20, 27),
    (21, 31),
    (22, 31),
];

#[test]
fn an_answer_goes_on_after_short_writes(rt: HostRuntime) -> Result<(), Fail> {
    let input = worked_session(rt.alloc())?;
    let whole = worked_answers(rt.alloc())?;
    fail_writes(&rt, rt.alloc(), &input, &whole, &SIPS, SIPPING)?;
    Ok(())
}

/// The answers to a Hello and a Read.
fn long_answers(alloc: Global) -> Result<Vec<u8>, Fail> {
    let mut whole = bytes_of(alloc, &[OK, BYTES])?;
    lists::extend_from_slice(&mut whole, &PAGE)?;
    Ok(whole)
}

#[test]
fn a_long_answer_comes_whole_or_not_at_all(rt: HostRuntime) -> Result<(), Fail> {
    let input = bytes_of(rt.alloc(), &[HELLO, READ])?;
    let whole = long_answers(rt.alloc())?;
    fail_writes(&rt, rt.alloc(), &input, &whole, &[(1, 0), (2, 5)], PLAIN)?;
    Ok(())
}

#[test]
fn a_session_that_entered_is_left_once(rt: HostRuntime) -> Result<(), Fail> {
    let alloc = rt.alloc();
    for (input, whole, leaves) in LEAVES {
        let input = bytes_of(alloc, input)?;
        let whole = bytes_of(alloc, whole)?;
        let session = served(&rt, alloc, &input, PLAIN, &whole)?;
        same!(rt; session.outbox.written, whole);
        same!(rt; session.desk.leaves, leaves);
    }
    Ok(())
}

#[test]
fn faults_are_told_in_words(rt: HostRuntime) -> Result<(), Fail> {
    let alloc = rt.alloc();
    let texts = [
        (SessionFault::Read, "the session's input failed"),
        (SessionFault::Write, "the session's output failed"),
        (SessionFault::Memory, "no memory for the session"),
    ];
    for (fault, text) in texts {
        let response = text_of!(in alloc; "{fault}")?;
        same!(rt; response.as_str(), text);
    }
    Ok(())
}
