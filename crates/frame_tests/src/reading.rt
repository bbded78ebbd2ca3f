//! Streams as they are read.
use assertions::holds;
use memory_growth::lists;
use obj_id::{Command, JobKey, JobNo, Kind, ObjectId, Refusal, TaskNo};
use private_store::Item;
use std::alloc::Global;
use std::test::Fail;
use wire_frames::Reader;

/// A whole session: Hello of job 1 under a key of zeros; Create, Seal and Get of its first object.
const SESSION: &str =
    "000000250100000001000000000000000000000000000000000000000000000000000000000000000000000022020000000000000000000000000000000000000001000000010000000100000000140000001d04000000000000000000000000000000000000000100000001000000010000001d0500000000000000000000000000000000000000010000000100000001";

/// What is not a frame, whatever follows: lengths out of range, kinds that there aren't, bodies of another length,
/// and a copy kind that there isn't, once with an invalid id.
const FAULTS: [&str; 9] = [
    "00000000",
    "00010041",
    "ffffffff",
    "0000000100",
    "0000000115",
    "000000021000",
    "0000001c0500000000000000000000000000000000000000010000000100000000",
    "00000022020000000000000000000000000000000000000001000000010000000102000000ff",
    "00000022020000000000000000000000000000000000000000000000000000000002000000ff",
];

const MALFORMED: Option<Refusal> = Some(Refusal::Malformed);

/// The items of the pieces, one after the other.
fn items_of(alloc: Global, reader: &mut Reader, pieces: &[&[u8]]) -> Result<Vec<Item>, Refusal> {
    let mut items = Vec::new(alloc);
    for piece in pieces {
        for item in reader.feed(alloc, piece)? {
            lists::push(&mut items, item)?;
        }
    }
    Ok(items)
}

fn first_object() -> Result<ObjectId, Refusal> {
    ObjectId::new(TaskNo::numbered(1), JobNo(1), 1)
}

/// Whether these are the items of `SESSION`.
fn is_the_session(items: &[Item], object: ObjectId) -> bool {
    match items {
        [
            Item::Hello(JobNo(1), key),
            Item::Command(
                Command::Create {
                    id: created,
                    kind: Kind::Primary,
                    length: 20,
                },
            ),
            Item::Command(Command::Seal(sealed)),
            Item::Command(Command::Get(got)),
        ] => *key == JobKey([0; 32]) && *created == object && *sealed == object && *got == object,
        _ => false,
    }
}

#[test]
fn a_session_is_read_whatever_its_cut(rt: HostRuntime) -> Result<(), Fail> {
    let alloc = rt.alloc();
    let bytes = hex::decode(alloc, SESSION)?;
    let object = first_object()?;
    for cut in 0..=bytes.len() {
        let mut reader = Reader::new(alloc);
        let items = items_of(alloc, &mut reader, &[&bytes[..cut], &bytes[cut..]])?;
        assert!(rt; is_the_session(&items, object), "cut at {cut}");
        assert!(rt; !reader.in_mid_frame(), "cut at {cut}");
    }
    Ok(())
}

#[test]
fn a_session_is_read_byte_by_byte(rt: HostRuntime) -> Result<(), Fail> {
    let alloc = rt.alloc();
    let bytes = hex::decode(alloc, SESSION)?;
    let object = first_object()?;
    let mut reader = Reader::new(alloc);
    let mut items = Vec::new(alloc);
    for byte in &bytes {
        for item in reader.feed(alloc, &[*byte])? {
            lists::push(&mut items, item)?;
        }
    }
    holds!(rt; is_the_session(&items, object));
    Ok(())
}

#[test]
fn a_fault_is_answered_for_good(rt: HostRuntime) -> Result<(), Fail> {
    let alloc = rt.alloc();
    let session = hex::decode(alloc, SESSION)?;
    for fault in FAULTS {
        let mut reader = Reader::new(alloc);
        let bytes = hex::decode(alloc, fault)?;
        assert_eq!(rt; reader.feed(alloc, &bytes).err(), MALFORMED, "{fault}");
        assert_eq!(rt; reader.feed(alloc, &[]).err(), MALFORMED, "{fault}");
        assert_eq!(rt; reader.feed(alloc, &session).err(), MALFORMED, "{fault}");
    }
    Ok(())
}

#[test]
fn items_before_a_fault_are_given(rt: HostRuntime) -> Result<(), Fail> {
    let alloc = rt.alloc();
    let object = first_object()?;
    for fault in FAULTS {
        let mut bytes = hex::decode(alloc, SESSION)?;
        let behind = hex::decode(alloc, fault)?;
        lists::extend_from_slice(&mut bytes, &behind)?;
        let mut reader = Reader::new(alloc);
        let items = reader.feed(alloc, &bytes)?;
        assert!(rt; is_the_session(&items, object), "{fault}");
        assert!(rt; reader.in_mid_frame(), "{fault}");
        assert_eq!(rt; reader.feed(alloc, &[]).err(), MALFORMED, "{fault}");
    }
    Ok(())
}

#[test]
fn a_frame_that_is_not_whole_is_no_fault(rt: HostRuntime) -> Result<(), Fail> {
    let alloc = rt.alloc();
    for text in ["00", "000000", "00010040", "0000000a99"] {
        let bytes = hex::decode(alloc, text)?;
        let mut reader = Reader::new(alloc);
        assert!(rt; reader.feed(alloc, &bytes)?.is_empty(), "{text}");
        assert!(rt; reader.in_mid_frame(), "{text}");
    }
    Ok(())
}

#[test]
fn the_longest_write_is_read(rt: HostRuntime) -> Result<(), Fail> {
    let alloc = rt.alloc();
    let head = hex::decode(
        alloc,
        "00010040030000000000000000000000000000000000000001000000010000000100000007",
    )?;
    let payload = lists::filled(alloc, 9, 65_567)?;
    let mut reader = Reader::new(alloc);
    let items = items_of(alloc, &mut reader, &[&head, &payload])?;
    let object = first_object()?;
    let written = match items.as_slice() {
        [
            Item::Command(
                Command::Write {
                    id,
                    offset: 7,
                    bytes,
                },
            ),
        ] => *id == object && bytes.as_slice() == payload.as_slice(),
        _ => false,
    };
    holds!(rt; written);
    Ok(())
}
