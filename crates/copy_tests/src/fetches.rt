//! A fetch of two chunks, also if one is lost, repeated or damaged.
use assertions::holds;
use bytes::Bytes;
use fetch_core::{FetchIn, Stage, chunks_asked};
use memory_growth::shared;
use obj_id::{
    ChunkIndex, Digest, FetchNo, JobNo, Location, NodeNo, ObjectId, PeerMessage, Refusal, TaskNo,
};
use private_store::FetchFault;
use sha2::{Digest as _, Sha256};
use std::alloc::Global;
use std::test::Fail;

const HERE: NodeNo = NodeNo(1);

const SOURCE: NodeNo = NodeNo(3);

const NUMBER: FetchNo = FetchNo(7);

const CHUNK: usize = 65_536;

const FIRST: ChunkIndex = ChunkIndex(0);

const LAST: ChunkIndex = ChunkIndex(1);

/// An object of two chunks, the last of ten bytes.
fn object() -> [u8; 65_546] {
    let mut bytes = [0; 65_546];
    for at in 0..bytes.len() {
        bytes[at] = (at % 251) as u8;
    }
    bytes
}

fn an_id() -> Result<ObjectId, Refusal> {
    ObjectId::new(TaskNo::numbered(1), JobNo(1), 1)
}

fn located_at(node: NodeNo, bytes: &[u8]) -> Location {
    Location {
        node: node.0,
        length: u32::try_from(bytes.len()).unwrap_or(u32::MAX),
        digest: Digest(Sha256::digest(bytes)),
    }
}

/// A fetch that asks the source for both chunks.
fn pulling(alloc: Global, bytes: &[u8]) -> Result<FetchIn, Refusal> {
    let mut fetch = FetchIn::new(alloc, NUMBER);
    fetch.located(
        HERE,
        NUMBER,
        &[located_at(HERE, b"stale"), located_at(SOURCE, bytes)],
    );
    fetch.begin(alloc)?;
    Ok(fetch)
}

/// The chunks that are asked for.
fn served(alloc: Global, bytes: &[u8], indexes: &[u32]) -> Result<Vec<PeerMessage>, Refusal> {
    let bytes = shared::copied(alloc, bytes)?;
    Ok(chunks_asked(alloc, &bytes, an_id()?, NUMBER.0, indexes)?)
}

fn is_chunk(message: &PeerMessage, index: u32, bytes: &[u8]) -> Result<bool, Refusal> {
    let of = an_id()?;
    Ok(match message {
        PeerMessage::Chunk {
            id,
            number,
            index: at,
            bytes: payload,
        } => { *id == of && *number == NUMBER.0 && *at == index && payload.as_slice() == bytes }
        _ => false,
    })
}

/// Whether the fetch asks for both chunks, takes them, the last first, and finds them whole.
fn takes_both(fetch: &mut FetchIn, bytes: &[u8]) -> bool {
    fetch.missing() == [0, 1].as_slice()
        && fetch.take_chunk(NUMBER, LAST, SOURCE, 10)
        && fetch.take_chunk(NUMBER, FIRST, SOURCE, CHUNK)
        && fetch.missing().is_empty()
        && fetch.complete(bytes)
}

#[test]
fn both_chunks_are_asked_for_and_taken(rt: HostRuntime) -> Result<(), Fail> {
    let bytes = object();
    let mut fetch = pulling(rt.alloc(), &bytes)?;
    holds!(rt; takes_both(&mut fetch, &bytes));
    Ok(())
}

/// Whether a chunk that was lost stays missing, and the fetch is whole once it is sent again.
fn takes_what_was_lost(fetch: &mut FetchIn, bytes: &[u8]) -> bool {
    fetch.take_chunk(NUMBER, LAST, SOURCE, 10)
        && fetch.missing() == [0].as_slice()
        && fetch.take_chunk(NUMBER, FIRST, SOURCE, CHUNK)
        && fetch.missing().is_empty()
        && fetch.complete(bytes)
}

#[test]
fn a_lost_chunk_is_asked_for_again(rt: HostRuntime) -> Result<(), Fail> {
    let bytes = object();
    let mut fetch = pulling(rt.alloc(), &bytes)?;
    holds!(rt; takes_what_was_lost(&mut fetch, &bytes));
    Ok(())
}

/// Whether each chunk is taken once, and fills no gap when it comes again.
fn takes_each_once(fetch: &mut FetchIn, bytes: &[u8]) -> bool {
    fetch.take_chunk(NUMBER, FIRST, SOURCE, CHUNK)
        && !fetch.take_chunk(NUMBER, FIRST, SOURCE, CHUNK)
        && fetch.missing() == [1].as_slice()
        && fetch.take_chunk(NUMBER, LAST, SOURCE, 10)
        && !fetch.take_chunk(NUMBER, LAST, SOURCE, 10)
        && !fetch.take_chunk(NUMBER, FIRST, SOURCE, CHUNK)
        && fetch.complete(bytes)
}

#[test]
fn a_repeated_chunk_fills_nothing(rt: HostRuntime) -> Result<(), Fail> {
    let bytes = object();
    let mut fetch = pulling(rt.alloc(), &bytes)?;
    holds!(rt; takes_each_once(&mut fetch, &bytes));
    Ok(())
}

/// Whether the fetch takes both chunks, fails as damaged on these bytes, and then takes nothing more.
fn fails_on(fetch: &mut FetchIn, damaged: &[u8]) -> bool {
    fetch.take_chunk(NUMBER, FIRST, SOURCE, CHUNK)
        && fetch.take_chunk(NUMBER, LAST, SOURCE, 10)
        && !fetch.complete(damaged)
        && fetch.stage() == Stage::Failed(FetchFault::Damaged)
        && !fetch.take_chunk(NUMBER, FIRST, SOURCE, CHUNK)
}

#[test]
fn a_damaged_chunk_fails_the_fetch(rt: HostRuntime) -> Result<(), Fail> {
    let mut bytes = object();
    let mut fetch = pulling(rt.alloc(), &bytes)?;
    bytes[65_545] ^= 1;
    holds!(rt; fails_on(&mut fetch, &bytes));
    Ok(())
}

/// Whether these are the chunks of these indexes and lengths.
fn are_chunks(
    sent: &[PeerMessage],
    bytes: &[u8],
    wanted: &[(u32, usize)],
) -> Result<bool, Refusal> {
    let mut all = sent.len() == wanted.len();
    for (message, (index, length)) in sent.iter().zip(wanted) {
        let (_, rest) = bytes.split_at((*index as usize * CHUNK).min(bytes.len()));
        let (chunk, _) = rest.split_at((*length).min(rest.len()));
        all = all && is_chunk(message, *index, chunk)?;
    }
    Ok(all)
}

#[test]
fn each_asked_chunk_is_sent_in_the_order_asked(rt: HostRuntime) -> Result<(), Fail> {
    let bytes = object();
    let sent = served(rt.alloc(), &bytes, &[1, 2, 0, 1, u32::MAX])?;
    holds!(rt; are_chunks(&sent, &bytes, &[(1, 10), (0, CHUNK), (1, 10)])?);
    Ok(())
}
