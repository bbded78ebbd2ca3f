//! Chunks that arrive for a copy that is on its way.
ghost use Rattle.std.specs.Prelude.{◌≡◌, ◌≤◌, ◌<◌, ◌+◌, ◌*◌, ◌^◌, true, false, Some, length, take, IfOk, OnErr, is_ok, []};
ghost use Rattle.std.specs.Option.{option_map_or};
ghost use Rattle.obj_id.specs.declared.commands.Reply.TheVariants as reply;
ghost use Rattle.obj_id.specs.declared.messages.Arrival.TheVariants as arrival;
ghost use Rattle.obj_id.specs.declared.messages.PeerMessage.TheVariants as peer;
ghost use Rattle.obj_id.specs.declared.works.Extent.{Extent};
ghost use Rattle.private_store.specs.declared.inputs.Input.TheVariants as input;
ghost use Rattle.private_store.specs.rules.Tables.{at};
ghost use Rattle.private_store.specs.rules.Copies.{extent_of};
ghost use Rattle.private_store.specs.rules.Contents.{Contents, has_digest, chunk_verdict};
ghost use Rattle.job_region.specs.Region.{region_bytes_at as placed_bytes, IsAt};
ghost use Rattle.row_copy.specs.Arriving.{fills, lacks_only};
ghost use Rattle.job_row.specs.Arriving.{row_written};
ghost use Rattle.row_copy.specs.CopyViews.{CopyView};
ghost use Rattle.row_steps.specs.Outcomes.{row_given_of};
ghost use Rattle.row_steps.specs.Shown.{seen, IsShown, RowStep};
ghost use Rattle.row_steps.specs.Beside.{SharedTables};

use hashed_bytes::digest_by;
use job_row::JobRow;
use memory_growth::OutOfMemory;
use obj_id::limits::CHUNK_SIZE;
use obj_id::{
    ChunkIndex, Digest, DirectoryMessage, Extent, FetchNo, Location, NodeNo, ObjectId, Reply,
};
use private_store::{ChunkVerdict, FetchFault};
use row_copy::Mark;
use row_steps::{Erase, RowOutcome};
use std::alloc::Global;

/// What a chunk gave, and what it was to the fetch that it names.
#[derive(Drop)]
pub struct ChunkTaken {
    pub outcome: RowOutcome,
    pub verdict: ChunkVerdict,
}

/// A chunk of a fetch of this number, from a node: if the fetch asks that node, and lacks a chunk of this index and
/// length, its bytes are put in the window; otherwise nothing changes. The last chunk seals the copy, and the directory
/// is told where it is, if its bytes have the digest that the source told; otherwise the fetch has failed, and its place
/// is given back. Tells what the chunk was to the fetch as well. The error is out of memory, and then nothing has changed.
pub fn chunk(
    row: &mut JobRow,
    alloc: Global,
    room: Result<(), OutOfMemory>,
    node: NodeNo,
    id: &ObjectId,
    number: FetchNo,
    index: ChunkIndex,
    from: NodeNo,
    bytes: &[u8],
) -> Result<ChunkTaken, OutOfMemory>
    ensures ok { IfOk result (λ t. (beside : SharedTables) (contents : Contents) → IsShown row.old beside contents
        → RowStep node row.old beside contents (input.Arrive (arrival.FromPeer from (peer.Chunk id.now number index bytes.now))) (row_given_of t.outcome) row.new beside) }
    ensures verdict { IfOk result (λ t. (beside : SharedTables) (contents : Contents) → IsShown row.old beside contents
        → t.verdict ≡ chunk_verdict (seen row.old beside contents) id.now number index bytes.now from) }
    ensures response { IfOk result (λ t. t.outcome.reply ≡ reply.Ok) }
    ensures bounded { IfOk result (λ t. length t.outcome.messages ≤ 1) }
    ensures unsent { IfOk result (λ t. is_ok room ≡ false → t.outcome.messages ≡ []) }
    ensures err { OnErr result (row.new ≡ row.old) }
{
    let fit = row.copies().chunk_fit(id, number, index, from, bytes.len());
    if !fit.fills {
        return Ok(ChunkTaken {
            outcome: RowOutcome::only(alloc, Reply::Ok),
            verdict: ChunkVerdict::Ignored,
        });
    }
    if fit.last {
        return last_chunk(row, alloc, room, node, id, number, index, from, bytes);
    }
    let after = row.apply(
        id,
        Mark::GapClosed {
            number,
            index,
            from,
            len: bytes.len(),
        },
    );
    put_chunk(row, after.eviction_info.extent, index, bytes);
    Ok(ChunkTaken {
        outcome: RowOutcome::only(alloc, Reply::Ok),
        verdict: ChunkVerdict::Part,
    })
}

/// The chunk that fills the last gap.
fn last_chunk(
    row: &mut JobRow,
    alloc: Global,
    room: Result<(), OutOfMemory>,
    node: NodeNo,
    id: &ObjectId,
    number: FetchNo,
    index: ChunkIndex,
    from: NodeNo,
    bytes: &[u8],
) -> Result<ChunkTaken, OutOfMemory>
    requires fills { option_map_or (fills number from index (length bytes.now)) (at row.old.copies id.now) false ≡ true }
    requires last { option_map_or (lacks_only index) (at row.old.copies id.now) false ≡ true }
    ensures ok { IfOk result (λ t. (beside : SharedTables) (contents : Contents) → IsShown row.old beside contents
        → RowStep node row.old beside contents (input.Arrive (arrival.FromPeer from (peer.Chunk id.now number index bytes.now))) (row_given_of t.outcome) row.new beside) }
    ensures verdict { IfOk result (λ t. (beside : SharedTables) (contents : Contents) → IsShown row.old beside contents
        → t.verdict ≡ chunk_verdict (seen row.old beside contents) id.now number index bytes.now from) }
    ensures response { IfOk result (λ t. t.outcome.reply ≡ reply.Ok) }
    ensures bounded { IfOk result (λ t. length t.outcome.messages ≤ 1) }
    ensures unsent { IfOk result (λ t. is_ok room ≡ false → t.outcome.messages ≡ []) }
    ensures err { OnErr result (row.new ≡ row.old) }
{
    let Some(copy) = row.copies().get(id) else {
        unreachable!()
    };
    let Some(digest) = copy.digest() else {
        unreachable!()
    };
    let place = copy.extent();
    let entry = Location {
        node: node.0,
        length: copy.length(),
        digest,
    };
    let message = DirectoryMessage::AddLocation(*id, entry);
    let messages = RowOutcome::to_directory(alloc, room, Some(message))?;
    put_chunk(row, place, index, bytes);
    if !has_digest(row, id, &digest) {
        row.fail_fetch(id, FetchFault::Damaged);
        return Ok(ChunkTaken {
            outcome: RowOutcome::only(alloc, Reply::Ok),
            verdict: ChunkVerdict::Damaged,
        });
    }
    let after = row.apply(id, Mark::Brought);
    row.freeze_at(after.eviction_info.extent);
    let outcome = RowOutcome {
        reply: Reply::Ok,
        messages,
        erase: Erase::NoKey,
    };
    Ok(ChunkTaken {
        outcome,
        verdict: ChunkVerdict::Whole,
    })
}

/// The bytes of the chunk of this index are put in the copy that lies there.
fn put_chunk(row: &mut JobRow, place: Option<Extent>, index: ChunkIndex, bytes: &[u8])
    requires { (e : Extent) → place ≡ Some e → IsAt e row.old.window.placed }
    ensures copies { row.new.copies ≡ row.old.copies }
    ensures row { (e : Extent) → place ≡ Some e → 65536 * index < 2 ^ 32 → 65536 * index + length bytes.now ≤ e.length
        → row.new ≡ row_written row.old e (65536 * index) bytes.now }
{
    row.put_bytes_at(place, index.0.saturating_mul(CHUNK_SIZE), bytes);
}

/// Whether the bytes of the copy have the digest, if it is resident. Hashes them once, if theirs isn't known.
fn has_digest(row: &JobRow, id: &ObjectId, digest: &Digest) -> bool
    ensures { (k : CopyView) (e : Extent) → at row.now.copies id.now ≡ Some k → extent_of k.copy ≡ Some e
        → result ≡ has_digest (take k.copy.length (placed_bytes e row.now.window.placed)) digest.now }
{
    digest_by(row.bytes(id), row.hashed()) == *digest
}
