//! Theorems about a fetch: it goes on as the fetch of a private store's copy does. Each function does
//! nothing, and its contract is a law.
ghost use Rattle.std.specs.Prelude.{◌≡◌, ℕ, true, if◌then◌else◌, List, Some};
ghost use Rattle.obj_id.specs.declared.ids.ObjectId.{ObjectId};
ghost use Rattle.obj_id.specs.declared.messages.Location.{Location};
ghost use Rattle.private_store.specs.declared.faults.FetchFault.TheVariants.{Absent};
ghost use Rattle.private_store.specs.rules.Shape.{Shape, sized};
ghost use Rattle.private_store.specs.rules.Commands.{begin_pull};
ghost use Rattle.private_store.specs.rules.Events.{located as located_event, chunk_arrived, not_here_arrived};
ghost use Rattle.private_store.specs.rules.Contents.{View, source_in, digest_at, chunk_verdict, with_chunk, is_sized};
ghost use Rattle.private_store.specs.laws.Invariants.{IsViewKept};
ghost use Rattle.fetch_core.specs.Fetching.{Fetching, fetch_after_located, pull_begun, is_pulled_from, failed_with};
ghost use Rattle.fetch_core.specs.Stores.{IsFetchAt, IsLedTo, store_after_chunk};

/// A Located, a Get that begins to ask for chunks, a NotHere and a Chunk lead a store's fetch to what
/// they lead this one to, whatever their number, source and index: after the last chunk, a sealed copy
/// exactly if its bytes have the length and the digest that were told.
pub fn fetches_go_on_as_their_stores()
    ensures located { (store : Shape) (id : ObjectId) (node number : ℕ) (entries : List Location) (f : Fetching)
        → IsFetchAt store id f → IsFetchAt (located_event store id number (source_in node entries)).shape id (fetch_after_located node number entries f) }
    ensures begun { (store room : Shape) (id : ObjectId) (source offset : ℕ) (f : Fetching) (is : IsFetchAt store id f)
        → f.phase ≡ sized source → IsFetchAt (begin_pull id is.copy is.fetch source room offset).shape id (pull_begun f) }
    ensures refused { (store : Shape) (id : ObjectId) (number from : ℕ) (f : Fetching)
        → IsFetchAt store id f
        → IsFetchAt (not_here_arrived store id number from).shape id (if is_pulled_from number from f then failed_with f Absent else f) }
    ensures chunk { (view : View) (id : ObjectId) (number index from : ℕ) (chunk : List ℕ) (f : Fetching)
        → IsViewKept view → IsFetchAt view.shape id f → (is_sized f.phase ≡ true → f.digest ≡ Some (digest_at view.contents.digests id))
        → IsLedTo (chunk_arrived view.shape id number index from (chunk_verdict view id number index chunk from)).shape id
        (store_after_chunk number from index chunk (with_chunk view id index chunk) f) }
{}
