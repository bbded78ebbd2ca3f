//! The whole frames at the head of bytes.
ghost use Rattle.std.specs.Prelude.{◌≡◌, ◌≤◌, IfOk, IfSome, length, drop};
ghost use Rattle.private_store.specs.rules.Frames.{is_command_length as is_command_length_lem, item_of, stream_of};
ghost use Rattle.wire_frames.specs.Filled.{HasPayload, option_filled};
ghost use Rattle.wire_frames.specs.Heads.{StandsAtHead, stream_from, stream_read};

use crate::bodies::{FrameBody, number_at, read_body};
use crate::kinds::FrameKind;
use memory_growth::{OutOfMemory, lists};
use private_store::Item;
use std::alloc::Global;

/// The most bytes that a command's frame has after its length.
const MOST_BYTES: u32 = 65_600;

/// How many bytes of a frame stand before its body: its length and its kind.
pub(crate) const BEFORE_BODY: usize = 5;

/// What stands at the head of bytes.
#[derive(Debug, Drop)]
pub(crate) enum Head {
    /// No bytes, or a frame that isn't whole.
    Cut,
    /// No frame, whatever follows.
    Fault,
    /// A whole frame: what it says, and its length with all its bytes.
    Frame(FrameBody, usize),
}

/// The whole frames at the head of bytes.
#[derive(Drop)]
pub(crate) struct Frames {
    pub(crate) items: Vec<Item>,
    /// How many bytes they take.
    pub(crate) used: usize,
    /// Whether a fault stands after them.
    pub(crate) faulty: bool,
}

/// Reads whole frames up to one that isn't whole, or to a fault.
pub(crate) fn read_frames(alloc: Global, bytes: &[u8]) -> Result<Frames, OutOfMemory>
    ensures stream { IfOk result (λ f. stream_of bytes.now ≡ stream_read f.items.items f.faulty (drop f.used bytes.now)) }
    ensures used { IfOk result (λ f. f.used ≤ length bytes.now) }
{
    let mut items = Vec::new(alloc);
    let mut used = 0;
    loop {
        let rest = &bytes[used..];
        match read_head(rest) {
            Head::Cut => {
                return Ok(Frames {
                    items,
                    used,
                    faulty: false,
                });
            }
            Head::Fault => {
                return Ok(Frames {
                    items,
                    used,
                    faulty: true,
                });
            }
            Head::Frame(said, size) => {
                lists::push(&mut items, said.copied(alloc, &rest[BEFORE_BODY..size])?)?;
                used += size;
            }
        }
    }
}

/// What stands at the head of the bytes. A length is looked at once its four bytes are there, all else once the
/// frame is whole.
pub(crate) fn read_head(bytes: &[u8]) -> Head
    ensures stream { stream_of bytes.now ≡ stream_from result bytes.now }
    ensures stands { StandsAtHead bytes.now result }
{
    if bytes.len() < 4 {
        return Head::Cut;
    }
    let size = number_at(bytes, 0);
    if !is_command_length(size) {
        return Head::Fault;
    }
    let end = 4 + size as usize;
    if bytes.len() < end {
        return Head::Cut;
    }
    match said_by(bytes[4], &bytes[BEFORE_BODY..end]) {
        None => Head::Fault,
        Some(said) => Head::Frame(said, end),
    }
}

/// Whether a command's frame may have so many bytes after its length.
pub(crate) fn is_command_length(size: u32) -> bool
    ensures { result ≡ is_command_length_lem size }
{
    1 <= size && size <= MOST_BYTES
}

/// What a frame says by its kind's byte and its body; `None` if there is no such kind or the body has another
/// form.
fn said_by(kind: u8, body: &[u8]) -> Option<FrameBody>
    ensures reads { option_filled result body.now ≡ item_of kind body.now }
    ensures payload { IfSome result (λ said. HasPayload said body.now) }
{
    read_body(FrameKind::from_byte(kind)?, body)
}
