//! A reader of a stream that comes in pieces.
ghost use Rattle.std.specs.Prelude.{◌≡◌, ◌≤◌, ◌⊎◌, [], Ok, Err, IfOk, IfErr, OnErr, length, take};
ghost use Rattle.obj_id.specs.declared.refusals.Refusal.TheVariants.{Malformed, NoMemory};
ghost use Rattle.wire_frames.specs.Finishing.{IsCompleted, IsFilled, IsWholeFrame};
ghost use Rattle.wire_frames.specs.Heads.{IsPart};
ghost use Rattle.wire_frames.specs.Reading.{failed, unfinished, fed, fed_by, reading_fed, is_fault, is_in_mid_frame};

use crate::bodies::{FrameBody, number_at};
use crate::frames::{BEFORE_BODY, Frames, Head, is_command_length, read_frames, read_head};
use bytes::BytesMut;
use memory_growth::{OutOfMemory, buffers, lists};
use obj_id::Refusal;
use private_store::Item;
use std::alloc::Global;
use std::marker::Model;

/// Reads the frames of a stream, whatever the pieces in which it comes. Between two pieces it keeps the bytes of a
/// frame that isn't whole, and no more; after a fault, none.
#[derive(Drop)]
pub struct Reader {
    // the bytes of a frame that isn't whole yet
    rest: BytesMut,
    // a fault was met
    failed: bool,
}

impl Model for Reader {
    ghost use Rattle.wire_frames.specs.Heads.{IsPart};
    ghost use Rattle.wire_frames.specs.Reading.{Reading, reading_of};

    ghost Value = { Reading };

    ghost view = { λ r. reading_of r.failed r.rest.items };

    ghost invariant = { λ r. IsPart r.rest.items };
}

/// The items that a piece gives, and whether a fault stands after them.
#[derive(Drop)]
struct Gain {
    items: Vec<Item>,
    faulty: bool,
}

impl Reader {
    /// A reader before its stream. Takes no memory.
    pub fn new(alloc: Global) -> Reader
        ensures { result ≡ unfinished [] }
    {
        Reader {
            rest: BytesMut::new(alloc),
            failed: false,
        }
    }

    /// The items of the frames that are whole now, in order.
    ///
    /// `Malformed` if a fault stands at the head of what is left: a length out of its range once its four
    /// bytes are there, or a whole frame of another form. Items that stand before a fault in the same piece are
    /// given, and the fault is answered by the next call, also of an empty piece; every later call answers it
    /// again. `NoMemory` leaves the reader as it was.
    ///
    /// The payload of a write is copied once on its way from the pieces, whatever the cut. What a frame that was
    /// kept lacks is added to it, and once it is whole its bytes become the item's; every other whole frame is read
    /// from the piece itself. No more is kept than a frame, of 65,604 bytes at most.
    pub fn feed(&mut self, alloc: Global, piece: &[u8]) -> Result<Vec<Item>, Refusal>
        ensures items { IfOk result (λ items. fed self.old piece.now ≡ reading_fed (Ok items.items) self.new) }
        ensures fault { result ≡ Err Malformed → fed self.old piece.now ≡ reading_fed (Err Malformed) self.new }
        ensures for_good { self.old ≡ failed → result ≡ Err Malformed }
        ensures memory { result ≡ Err NoMemory → self.new ≡ self.old }
        ensures refusals { IfErr result (λ refusal. (refusal ≡ Malformed) ⊎ (refusal ≡ NoMemory)) }
    {
        if self.failed {
            return Err(Refusal::Malformed);
        }
        let gain = read_on(alloc, &mut self.rest, piece)?;
        if !gain.faulty {
            return Ok(gain.items);
        }
        self.failed = true;
        self.rest.clear();
        if gain.items.is_empty() {
            return Err(Refusal::Malformed);
        }
        Ok(gain.items)
    }

    /// Whether a fault was met: then the next call of `feed` answers `Malformed`, also of an empty piece.
    pub fn has_fault(&self) -> bool
        ensures { result ≡ is_fault (fed self.now []).answer }
    {
        self.failed
    }

    /// Whether some bytes of a frame have come, and not all. True of a reader that has met a fault.
    pub fn in_mid_frame(&self) -> bool
        ensures { result ≡ is_in_mid_frame self.now }
    {
        self.failed || !self.rest.is_empty()
    }
}

/// Reads the whole frames of what was kept and of the piece after it, and keeps what is left. If nothing was
/// kept they are read from the piece itself. If memory runs out, what was kept stays.
fn read_on(alloc: Global, kept: &mut BytesMut, piece: &[u8]) -> Result<Gain, OutOfMemory>
    requires { IsPart kept.old.items }
    ensures fed { IfOk result (λ g. fed (unfinished kept.old.items) piece.now ≡ fed_by g.items.items g.faulty kept.new.items) }
    ensures err { OnErr result (kept.new.items ≡ kept.old.items) }
{
    if kept.is_empty() {
        let frames = read_frames(alloc, piece)?;
        *kept = beginning(alloc, &piece[frames.used..])?;
        return Ok(Gain {
            items: frames.items,
            faulty: frames.faulty,
        });
    }
    let length = kept.len();
    let gain = finish_frame(alloc, kept, piece);
    if gain.is_err() {
        kept.truncate(length);
    }
    gain
}

/// Reads on if a part of a frame is kept. The piece gives what that frame lacks; once it is whole the piece is
/// read after it. If memory runs out, bytes of the piece may be left after what was kept.
fn finish_frame(alloc: Global, kept: &mut BytesMut, piece: &[u8]) -> Result<Gain, OutOfMemory>
    requires { IsPart kept.old.items }
    ensures fed { IfOk result (λ g. fed (unfinished kept.old.items) piece.now ≡ fed_by g.items.items g.faulty kept.new.items) }
    ensures err { OnErr result (take (length kept.old.items) kept.new.items ≡ kept.old.items) }
{
    let taken = complete(kept, piece)?;
    match read_head(kept.as_slice()) {
        Head::Cut => Ok(Gain {
            items: Vec::new(alloc),
            faulty: false,
        }),
        Head::Fault => Ok(Gain {
            items: Vec::new(alloc),
            faulty: true,
        }),
        Head::Frame(said, _) => read_after(alloc, said, kept, &piece[taken..]),
    }
}

/// Reads on if a whole frame is kept, and no more: its bytes become its item's, and what is after it is read from
/// the piece itself. If memory runs out, what was kept stays.
fn read_after(
    alloc: Global,
    said: FrameBody,
    kept: &mut BytesMut,
    following: &[u8],
) -> Result<Gain, OutOfMemory>
    requires { IsWholeFrame said kept.old.items }
    ensures fed { IfOk result (λ g. fed (unfinished kept.old.items) following.now ≡ fed_by g.items.items g.faulty kept.new.items) }
    ensures err { OnErr result (kept.new.items ≡ kept.old.items) }
{
    let Frames {
        mut items,
        used,
        faulty,
    } = read_frames(alloc, following)?;
    lists::reserve(&mut items, 1)?;
    let left = beginning(alloc, &following[used..])?;
    let mut body = buffers::freeze_to(kept, kept.len())?;
    body.advance(BEFORE_BODY);
    *kept = left;
    lists::insert(&mut items, 0, said.shared(body))?;
    Ok(Gain { items, faulty })
}

/// Adds to a part of a frame what the frame lacks of the piece: first what its length lacks, which says how long it
/// is. How many bytes of the piece were taken: all, if the frame isn't whole then.
fn complete(kept: &mut BytesMut, piece: &[u8]) -> Result<usize, OutOfMemory>
    requires { IsPart kept.old.items }
    ensures ok { IfOk result (λ taken. IsCompleted kept.old.items piece.now taken kept.new.items) }
    ensures err { OnErr result (take (length kept.old.items) kept.new.items ≡ kept.old.items) }
{
    let taken = fill_to(4, kept, piece)?;
    if kept.len() < 4 {
        return Ok(taken);
    }
    let size = number_at(kept.as_slice(), 0);
    if !is_command_length(size) {
        return Ok(taken);
    }
    let length = 4 + size as usize;
    buffers::reserve(kept, length.saturating_sub(kept.len()))?;
    Ok(taken + fill_to(length, kept, &piece[taken..])?)
}

/// Adds bytes of the piece until so many are kept, or the piece ends. How many were taken.
fn fill_to(goal: usize, kept: &mut BytesMut, piece: &[u8]) -> Result<usize, OutOfMemory>
    ensures ok { IfOk result (λ taken. IsFilled goal kept.old.items piece.now taken kept.new.items) }
    ensures err { OnErr result (kept.new.items ≡ kept.old.items) }
{
    let taken = goal.saturating_sub(kept.len()).min(piece.len());
    buffers::extend_from_slice(kept, &piece[..taken])?;
    Ok(taken)
}

/// The beginning of a frame, to be kept. It has room for all of the frame that is known, so that no growth copies what
/// of its body is there.
fn beginning(alloc: Global, bytes: &[u8]) -> Result<BytesMut, OutOfMemory>
    ensures { IfOk result (λ kept. kept.items ≡ bytes.now) }
{
    let mut kept = buffers::with_capacity(alloc, known_length(bytes))?;
    buffers::extend_from_slice(&mut kept, bytes)?;
    Ok(kept)
}

/// How many bytes a frame that begins so is known to have, with its length: no more than the longest frame.
fn known_length(bytes: &[u8]) -> usize
    ensures { result ≤ 65604 }
{
    if bytes.len() < 4 {
        return bytes.len();
    }
    let size = number_at(bytes, 0);
    if is_command_length(size) {
        4 + size as usize
    } else {
        4
    }
}
