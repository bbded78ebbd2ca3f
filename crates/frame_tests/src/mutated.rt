//! Streams that are no session: frames of which some bytes were changed, and random bytes. What is read of a stream
//! doesn't hang on its pieces.
use memory_growth::{OutOfMemory, lists, text_of};
use obj_id::Refusal;
use private_store::Item;
use std::alloc::Global;
use std::test::Fail;
use wire_frames::Reader;

/// Every kind of frame, with the bytes of its body; a write has its payload after them. A body of ones has an id
/// that can be and a copy kind that there is.
const KINDS: [(u8, u32); 20] = [
    (0x01, 36),
    (0x02, 33),
    (0x03, 32),
    (0x04, 28),
    (0x05, 28),
    (0x06, 36),
    (0x07, 28),
    (0x08, 48),
    (0x09, 48),
    (0x0a, 48),
    (0x0b, 28),
    (0x0c, 20),
    (0x0d, 32),
    (0x0e, 32),
    (0x0f, 36),
    (0x10, 0),
    (0x11, 0),
    (0x12, 0),
    (0x13, 28),
    (0x14, 33),
];

/// Pseudo-random numbers: Marsaglia's xorshift of 64 bits.
#[derive(Drop)]
struct Random(u64);

impl Random {
    fn next(&mut self) -> u64 {
        self.0 ^= self.0 << 13;
        self.0 ^= self.0 >> 7;
        self.0 ^= self.0 << 17;
        self.0
    }

    /// A number below the bound; 0 if the bound is 0.
    fn below(&mut self, bound: u32) -> u32 {
        (self.next() % u64::from(bound.max(1))) as u32
    }

    fn byte(&mut self) -> u8 {
        self.next().to_le_bytes()[3]
    }
}

/// What was read of a stream.
#[derive(Drop)]
struct Outcome {
    items: Vec<Item>,
    /// How many bytes were fed before the piece that told a fault; all, if none did.
    sound: usize,
    /// How many bytes were fed.
    fed: usize,
    faulty: bool,
    in_mid_frame: bool,
}

/// Feeds the pieces of a stream up to its fault.
fn outcome_of(alloc: Global, pieces: &[&[u8]]) -> Result<Outcome, Refusal> {
    let mut reader = Reader::new(alloc);
    let mut items = Vec::new(alloc);
    let mut sound = 0usize;
    let mut fed = 0usize;
    let mut faulty = false;
    for piece in pieces {
        fed = fed.saturating_add(piece.len());
        faulty = tells_fault(alloc, &mut reader, piece, &mut items)?;
        if faulty {
            break;
        }
        sound = fed;
    }
    Ok(Outcome {
        items,
        sound,
        fed,
        faulty,
        in_mid_frame: reader.in_mid_frame(),
    })
}

/// Feeds one piece, and an empty one, which tells a fault after items. Whether a fault was told.
fn tells_fault(
    alloc: Global,
    reader: &mut Reader,
    piece: &[u8],
    items: &mut Vec<Item>,
) -> Result<bool, Refusal> {
    for bytes in [piece, &[]] {
        match reader.feed(alloc, bytes) {
            Ok(more) => {
                for item in more {
                    lists::push(items, item)?;
                }
            }
            Err(Refusal::Malformed) => return Ok(true),
            Err(refusal) => return Err(refusal),
        }
    }
    Ok(false)
}

/// The stream in pieces of random length, none longer than `longest`; some are empty.
fn cut<'a>(
    alloc: Global,
    random: &mut Random,
    stream: &'a [u8],
    longest: u32,
) -> Result<Vec<&'a [u8]>, OutOfMemory> {
    let mut pieces = Vec::new(alloc);
    let mut rest = stream;
    for _ in 0..stream.len() {
        let length = random.below(longest.saturating_add(1)) as usize;
        let (piece, behind) = rest.split_at(length.min(rest.len()));
        lists::push(&mut pieces, piece)?;
        rest = behind;
    }
    lists::push(&mut pieces, rest)?;
    Ok(pieces)
}

/// Each byte as a piece.
fn single_bytes(alloc: Global, stream: &[u8]) -> Result<Vec<&[u8]>, OutOfMemory> {
    let mut pieces = Vec::new(alloc);
    for piece in stream.chunks(1) {
        lists::push(&mut pieces, piece)?;
    }
    Ok(pieces)
}

/// Whether the same was read, to the same end. An item is told by its debug text.
fn is_same(alloc: Global, left: &Outcome, right: &Outcome) -> Result<bool, Fail> {
    let items = text_of!(in alloc; "{:?}", left.items)?;
    let others = text_of!(in alloc; "{:?}", right.items)?;
    Ok(items == others && left.faulty == right.faulty && left.in_mid_frame == right.in_mid_frame)
}

/// Whether so much of a stream has a fault.
fn is_faulty(alloc: Global, stream: &[u8], length: usize) -> Result<bool, Refusal> {
    Ok(outcome_of(alloc, &[&stream[..length.min(stream.len())]])?.faulty)
}

/// Whether the same was read whole, in pieces and byte by byte, and the pieces end round the byte that told a fault.
fn are_alike(
    alloc: Global,
    whole: &Outcome,
    pieces: &Outcome,
    singles: &Outcome,
) -> Result<bool, Fail> {
    Ok(
        is_same(alloc, whole, pieces)?
            && is_same(alloc, whole, singles)?
            && pieces.sound <= singles.sound
            && singles.fed <= pieces.fed,
    )
}

/// Whether a stream gives the same whole, in random pieces and byte by byte, and its fault stands at one place.
fn is_read_alike(
    alloc: Global,
    random: &mut Random,
    stream: &[u8],
    longest: u32,
) -> Result<bool, Fail> {
    let whole = outcome_of(alloc, &[stream])?;
    let pieces = outcome_of(alloc, &cut(alloc, random, stream, longest)?)?;
    let singles = outcome_of(alloc, &single_bytes(alloc, stream)?)?;
    let before = is_faulty(alloc, stream, singles.sound)?;
    let behind = is_faulty(alloc, stream, singles.fed)?;
    let alike = are_alike(alloc, &whole, &pieces, &singles)?;
    Ok(alike && !before && behind == whole.faulty)
}

/// Adds a frame with a body of ones, and a payload of random bytes if it is a write.
fn add_frame(random: &mut Random, stream: &mut Vec<u8>) -> Result<(), OutOfMemory> {
    let (kind, body) = KINDS[random.next() as usize % KINDS.len()];
    let payload = if kind == 0x03 { random.below(2_000) } else { 0 };
    let length = body.saturating_add(payload).saturating_add(1);
    lists::extend_from_slice(stream, &length.to_be_bytes())?;
    lists::push(stream, kind)?;
    for _ in 0..body {
        lists::push(stream, 1)?;
    }
    for _ in 0..payload {
        lists::push(stream, random.byte())?;
    }
    Ok(())
}

/// Frames, of which one in `rarity` has a changed byte.
fn mutated_frames(
    alloc: Global,
    random: &mut Random,
    count: u32,
    rarity: u32,
) -> Result<Vec<u8>, OutOfMemory> {
    let mut stream = Vec::new(alloc);
    for _ in 0..count {
        let mut frame = Vec::new(alloc);
        add_frame(random, &mut frame)?;
        let at = random.below(60) as usize;
        if random.below(rarity) == 0 && at < frame.len() {
            frame[at] = random.byte();
        }
        lists::extend_from_slice(&mut stream, &frame)?;
    }
    Ok(stream)
}

fn random_bytes(alloc: Global, random: &mut Random, count: u32) -> Result<Vec<u8>, OutOfMemory> {
    let mut bytes = Vec::new(alloc);
    for _ in 0..count {
        lists::push(&mut bytes, random.byte())?;
    }
    Ok(bytes)
}

#[test]
fn changed_frames_are_read_alike_in_all_pieces(rt: HostRuntime) -> Result<(), Fail> {
    let alloc = rt.alloc();
    let mut random = Random(0x9e37_79b9_7f4a_7c15);
    for round in 0..130u32 {
        let longest = random.below(300).max(1);
        let stream = mutated_frames(alloc, &mut random, 64, 8)?;
        assert!(rt;
            is_read_alike(alloc, &mut random, &stream, longest)?,
            "round {round}"
        );
    }
    Ok(())
}

#[test]
fn a_long_stream_is_read_alike_in_all_pieces(rt: HostRuntime) -> Result<(), Fail> {
    let alloc = rt.alloc();
    let mut random = Random(0x2545_f491_4f6c_dd1d);
    for longest in [40, 400, 4_000] {
        let stream = mutated_frames(alloc, &mut random, 1_000, 1_000)?;
        assert!(rt;
            is_read_alike(alloc, &mut random, &stream, longest)?,
            "pieces up to {longest}"
        );
    }
    Ok(())
}

#[test]
fn random_bytes_are_read_alike_in_all_pieces(rt: HostRuntime) -> Result<(), Fail> {
    let alloc = rt.alloc();
    let mut random = Random(0xd1b5_4a32_d192_ed03);
    for round in 0..2_000u32 {
        let count = random.below(80);
        let mut stream = random_bytes(alloc, &mut random, count)?;
        // half of them begin with a length that can be
        if round % 2 == 0 && stream.len() > 3 {
            stream[..3].fill(0);
        }
        assert!(rt;
            is_read_alike(alloc, &mut random, &stream, 8)?,
            "round {round}"
        );
    }
    Ok(())
}
