//! A session from its first byte to its last.
ghost use Rattle.std.specs.Prelude.{◌≡◌, ◌<◌, [], ◌∷◌, None, vec_len, if◌then◌else◌};
ghost use Rattle.wire_frames.specs.Reading.{is_in_mid_frame, unfinished};
ghost use Rattle.session_engine.specs.Hearing.{Answering, AnswersPiece, HearsPiece};
ghost use Rattle.session_engine.specs.Serving.{AnswersInput, Served};
ghost use Rattle.session_engine.specs.Sessions.{session_state};

use crate::sending::{flush, flush_before, send};
use crate::session::{SessionId, answer, leave};
use crate::{Ended, Gate, SessionFault};
use memory_growth::lists;
use obj_id::{Refusal, Reply};
use private_store::Item;
use std::alloc::Global;
use std::io::{Read, Write};
use wire_frames::Reader;

/// How many bytes are read at once, at most, until more of them came together after an accepted Hello: so sessions that never say one take
/// little memory, and those whose commands are small.
const FIRST_PIECE_SIZE: usize = 4_096;

/// How many bytes are read at once, at most, from there on: the longest frame, and small ones beside it.
const PIECE_SIZE: usize = 66_560;

/// Of how many bytes the items are there at once, at most.
const PART_SIZE: usize = 1_024;

/// What was heard in a piece of the input.
#[derive(Clone, Copy, Debug)]
pub enum PieceEnd {
    /// Items, or none, and no fault of the stream.
    Items,
    /// What isn't a frame, after items or none.
    NoFrame,
}

/// Serves a session to its end: answers what the reader gives, item by item, and then asks the gate once to leave
/// a session that has entered.
///
/// Before an accepted Hello a command is answered `NotAdmitted`, after it a Hello `Exists`. An invalid id
/// is always answered `BadId`, and everything else is answered by the gate. What isn't a frame is answered
/// `Malformed`, once and last.
///
/// The answers to what came in one piece are handed over together, before more is read. Those to earlier items are handed
/// over before a call that waits.
///
/// `Read` comes if a read fails, or is past the 18,446,744,073,709,551,615th: all that was read is answered
/// then. `Write` comes if a write or a flush fails: what was written then is the frames of the first replies, and a
/// beginning of the next one's. `Memory` comes if the process is out of memory for what is read or for an answer's
/// frame: what was written then is the frames of the first replies.
pub fn serve<R: Read, W: Write, G: Gate>(
    alloc: Global,
    reader: &mut R,
    writer: &mut W,
    gate: &mut G,
) -> Result<Ended, SessionFault>
    ensures { Served G.gives gate.old gate.new (R.remaining reader.old) (R.remaining reader.new)
        (W.contents writer.old) (W.contents writer.new) result }
{
    let mut session = Session::new(alloc);
    let ended = session.answer_input(reader, writer, gate);
    leave(gate, session.session_id);
    ended
}

/// A session that is being served.
#[derive(Drop)]
struct Session {
    alloc: Global,
    // keeps what came of a frame that isn't whole yet
    frames: Reader,
    // where it sits, once it has entered
    session_id: Option<SessionId>,
}

impl Session {
    /// A session before its first byte. Takes no memory.
    fn new(alloc: Global) -> Session
        ensures frames { result.frames ≡ unfinished [] }
        ensures session_id { result.session_id ≡ None }
    {
        Session {
            alloc,
            frames: Reader::new(alloc),
            session_id: None,
        }
    }

    /// Answers all that the reader gives.
    fn answer_input<R: Read, W: Write, G: Gate>(
        &mut self,
        reader: &mut R,
        writer: &mut W,
        gate: &mut G,
    ) -> Result<Ended, SessionFault>
        requires { self.old.frames ≡ unfinished [] }
        ensures { AnswersInput G.gives (session_state gate.old self.old.session_id (W.contents writer.old))
            (session_state gate.new self.new.session_id (W.contents writer.new))
            (R.remaining reader.old) (R.remaining reader.new) result }
    {
        let Ok(buffer) = lists::filled(self.alloc, 0u8, FIRST_PIECE_SIZE) else {
            return Err(SessionFault::Memory)
        };
        self.answer_pieces(reader, writer, gate, buffer)
    }

    /// Answers all that the reader gives, piece by piece, as the buffer takes it.
    fn answer_pieces<R: Read, W: Write, G: Gate>(
        &mut self,
        reader: &mut R,
        writer: &mut W,
        gate: &mut G,
        mut buffer: Vec<u8>,
    ) -> Result<Ended, SessionFault>
        requires fresh { self.old.frames ≡ unfinished [] }
        requires room { 0 < vec_len buffer }
        ensures { AnswersInput G.gives (session_state gate.old self.old.session_id (W.contents writer.old))
            (session_state gate.new self.new.session_id (W.contents writer.new))
            (R.remaining reader.old) (R.remaining reader.new) result }
    {
        for _ in 0..u64::MAX {
            let room = buffer.as_mut_slice();
            let Ok(count) = reader.read(room) else {
                return Err(SessionFault::Read)
            };
            match self.answer_and_flush(writer, gate, &room[..count]) {
                Err(fault) => return Err(fault),
                Ok(PieceEnd::NoFrame) => return Ok(Ended::Malformed),
                Ok(PieceEnd::Items) => {}
            }
            if count == 0 {
                return Ok(end_of(&self.frames));
            }
            let is_full = count == buffer.len();
            self.widen(&mut buffer, is_full);
        }
        // more reads than there are numbers
        Err(SessionFault::Read)
    }

    /// Makes room for more at once, once the session has entered and the buffer was full. Without memory for it the session goes on as it did.
    fn widen(&self, buffer: &mut Vec<u8>, is_full: bool)
        requires { 0 < vec_len buffer.old }
        ensures { 0 < vec_len buffer.new }
    {
        if !is_full || self.session_id.is_none() || buffer.len() == PIECE_SIZE {
            return;
        }
        if let Ok(wider) = lists::filled(self.alloc, 0u8, PIECE_SIZE) {
            *buffer = wider;
        }
    }

    /// Answers what the piece says, and a fault of the stream after that, and hands all answers over together.
    fn answer_and_flush<W: Write, G: Gate>(
        &mut self,
        writer: &mut W,
        gate: &mut G,
        piece: &[u8],
    ) -> Result<PieceEnd, SessionFault>
        ensures { HearsPiece G.gives self.old.frames piece.now
            (session_state gate.old self.old.session_id (W.contents writer.old))
            (session_state gate.new self.new.session_id (W.contents writer.new)) self.new.frames result }
    {
        self.answer_piece(writer, gate, piece)?;
        if self.frames.has_fault() {
            send(self.alloc, writer, Reply::Refused(Refusal::Malformed))?;
            flush(writer)?;
            return Ok(PieceEnd::NoFrame);
        }
        flush(writer)?;
        Ok(PieceEnd::Items)
    }

    /// Answers the items of the piece, a part of it after another: so only the items of a part take memory at once. A fault
    /// of the stream is left to be asked for.
    fn answer_piece<W: Write, G: Gate>(
        &mut self,
        writer: &mut W,
        gate: &mut G,
        piece: &[u8],
    ) -> Result<(), SessionFault>
        ensures { AnswersPiece G.gives self.old.frames piece.now
            (session_state gate.old self.old.session_id (W.contents writer.old))
            (session_state gate.new self.new.session_id (W.contents writer.new)) self.new.frames result }
    {
        let mut rest = piece;
        while PART_SIZE < rest.len() {
            let (part, others) = rest.split_at(PART_SIZE);
            self.answer_part(writer, gate, part)?;
            rest = others;
        }
        self.answer_part(writer, gate, rest)
    }

    /// Answers the items of the part of a piece. A fault of the stream is left to be asked for.
    fn answer_part<W: Write, G: Gate>(
        &mut self,
        writer: &mut W,
        gate: &mut G,
        part: &[u8],
    ) -> Result<(), SessionFault>
        ensures { AnswersPiece G.gives self.old.frames part.now
            (session_state gate.old self.old.session_id (W.contents writer.old))
            (session_state gate.new self.new.session_id (W.contents writer.new)) self.new.frames result }
    {
        match self.frames.feed(self.alloc, part) {
            Ok(items) => self.answer_all(writer, gate, items),
            Err(Refusal::Malformed) => Ok(()),
            Err(_) => Err(SessionFault::Memory),
        }
    }

    /// Answers the items, in order.
    fn answer_all<W: Write, G: Gate>(
        &mut self,
        writer: &mut W,
        gate: &mut G,
        items: Vec<Item>,
    ) -> Result<(), SessionFault>
        ensures answers { Answering G.gives items.items (session_state gate.old self.old.session_id (W.contents writer.old))
            (session_state gate.new self.new.session_id (W.contents writer.new)) result }
        ensures frames { self.new.frames ≡ self.old.frames }
    {
        for item in items {
            self.answer_one(writer, gate, item)?;
        }
        Ok(())
    }

    /// Answers the item, and writes the answer.
    fn answer_one<W: Write, G: Gate>(
        &mut self,
        writer: &mut W,
        gate: &mut G,
        item: Item,
    ) -> Result<(), SessionFault>
        ensures answers { Answering G.gives (item ∷ []) (session_state gate.old self.old.session_id (W.contents writer.old))
            (session_state gate.new self.new.session_id (W.contents writer.new)) result }
        ensures frames { self.new.frames ≡ self.old.frames }
    {
        flush_before(writer, self.session_id, &item)?;
        let reply = answer(gate, &mut self.session_id, item);
        send(self.alloc, writer, reply)
    }
}

/// How a session ends whose stream has no fault.
fn end_of(frames: &Reader) -> Ended
    ensures { result ≡ (if is_in_mid_frame frames.now then Ended.MidFrame else Ended.Clean) }
{
    if frames.in_mid_frame() {
        Ended::MidFrame
    } else {
        Ended::Clean
    }
}
