//! Out of memory: these tests take no memory but for what they test, so each passes whichever allocation fails.
use assertions::same;
use bytes::Bytes;
use obj_id::{Command, JobKey, JobNo, Refusal, Reply};
use private_store::Item;
use std::alloc::Global;
use std::test::Fail;
use wire_frames::{Reader, encode_command, encode_reply};

/// A Write of "Hello" at offset 258 to the first object of job 1's task 1.
const WRITE: [u8; 42] = [
    0, 0, 0, 38, 3, 0, 0, 0, 0, 0, 0, 0, 0, 0, 0, 0, 0, 0, 0, 0, 0, 0, 0, 0, 1, 0, 0, 0, 1, 0, 0,
    0, 1, 0, 0, 1, 2, 72, 101, 108, 108, 111,
];

fn fed(alloc: Global, reader: &mut Reader, piece: &[u8]) -> Result<Vec<Item>, Refusal> {
    match reader.feed(alloc, piece) {
        Err(Refusal::NoMemory) => reader.feed(alloc, piece),
        answer => answer,
    }
}

/// Whether this is the item of `WRITE`, alone.
fn is_the_write(items: &[Item]) -> bool {
    match items {
        [
            Item::Command(
                Command::Write {
                    offset: 258,
                    bytes,
                    ..
                },
            ),
        ] => bytes.as_slice() == b"Hello".as_slice(),
        _ => false,
    }
}

#[test]
fn a_reader_that_found_no_memory_goes_on(rt: HostRuntime) -> Result<(), Fail> {
    let alloc = rt.alloc();
    for cut in 0..WRITE.len() {
        let mut reader = Reader::new(alloc);
        assert!(rt;
            fed(alloc, &mut reader, &WRITE[..cut])?.is_empty(),
            "cut at {cut}"
        );
        assert!(rt;
            is_the_write(&fed(alloc, &mut reader, &WRITE[cut..])?),
            "cut at {cut}"
        );
        assert!(rt;
            is_the_write(&fed(alloc, &mut reader, &WRITE)?),
            "cut at {cut}"
        );
        assert!(rt;
            fed(alloc, &mut reader, &[0, 0, 0, 0]).is_err(),
            "cut at {cut}"
        );
    }
    Ok(())
}

#[test]
fn a_frame_that_found_no_memory_is_made_again(rt: HostRuntime) -> Result<(), Fail> {
    let alloc = rt.alloc();
    let hello = Item::Hello(JobNo(1), JobKey([7; 32]));
    let mut wanted = [7; 41];
    wanted[..9].copy_from_slice(&[0, 0, 0, 37, 1, 0, 0, 0, 1]);
    let frame = match encode_command(alloc, &hello) {
        Ok(frame) => frame,
        Err(_) => encode_command(alloc, &hello)?,
    };
    same!(rt; frame.as_slice(), wanted.as_slice());
    let reply = Reply::Bytes(Bytes::from_static(b"Hello"));
    let frame = match encode_reply(alloc, &reply) {
        Ok(frame) => frame,
        Err(_) => encode_reply(alloc, &reply)?,
    };
    let wanted = [0, 0, 0, 6, 131, 72, 101, 108, 108, 111];
    same!(rt; frame.as_slice(), wanted.as_slice());
    Ok(())
}
