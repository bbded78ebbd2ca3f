//! A job's window: the extents that are placed in it, each with a buffer of its own. A contract sees a window as its
//! quota and its extents by rising offset, each with its bytes; the buffers and the holes are hidden.
#![tactic(auto)]

ghost use Rattle.std.specs.Prelude.{◌≡◌, ◌≢◌, ◌↔◌, ℕ, ◌+◌, ◌^◌, ◌<◌, ◌≤◌, [], Some, None, false, nat_eq, IfOk, OnOk, OnErr, IfSome, IsErrOf, IsOk, length, take, replicate, vec_len};
ghost use Rattle.std.specs.List.Sorted.{IsNonDecreasingBy};
ghost use Rattle.obj_id.specs.declared.works.Extent.{Extent};
ghost use Rattle.std.specs.Map.{lookup, remove_entry, set_value};
ghost use Rattle.memory_growth.specs.declared.OutOfMemory.{OutOfMemory};
ghost use Rattle.obj_id.specs.declared.refusals.Failure.TheVariants.{Refused, Memory};
ghost use Rattle.obj_id.specs.declared.refusals.Refusal.{Refusal};
ghost use Rattle.obj_id.specs.declared.refusals.Refusal.TheVariants.{BadSize, OutOfBounds};
ghost use Rattle.private_store.specs.rules.Limits.{is_window as is_window_lem};
ghost use Rattle.private_store.specs.rules.Extents.{rounded as rounded_lem, is_size, first};
ghost use Rattle.private_store.specs.rules.Contents.{digest_of, overwritten};
ghost use Rattle.job_region.specs.Region.{extents_of, place_for, place_check, put_in, without, IsAt, region_bytes_at, region_resize_check as resize_check_lem};
ghost use Rattle.job_region.specs.Layout.{LaidFrom, zipped};

mod buffer;
mod extents;
mod holes;
mod spent;
mod zeros;

use buffer::Buffer;
use bytes::Bytes;
use extents::{
    adopt_at, buffer_at, compare_at, end_of_last, expect_at, freeze_at, least_without, put,
    reserve_places, write_at,
};
use hashed_bytes::Hashed;
use hole_tree::{Hole, Holes, SpareNode};
use holes::{cut, end_at, free_all, free_at, reserve, reserve_to_grow};
use memory_growth::OutOfMemory;
use obj_id::limits::{LONGEST_OBJECT, UNIT, WIDEST_WINDOW};
use obj_id::{Digest, Extent, Failure, Refusal};
use private_store::rounded;
pub use spent::Spent;
use std::alloc::Global;
use std::marker::Model;
use std::mem;
pub use zeros::Zeros;

/// A job's window of so many bytes, and its extents.
pub struct Window {
    quota: u64,
    // By rising offset.
    extents: Vec<Extent>,
    // The bytes of each, in the same order.
    buffers: Vec<Buffer>,
    // What the extents leave free.
    holes: Holes,
    // Room for the hole that giving an extent back may make: one for each extent, so that it takes no memory.
    rooms: Vec<SpareNode>,
    // For the next extent that is placed, if it has as many bytes.
    made: Option<Zeros>,
    // What extents had that went.
    spent: Spent,
    alloc: Global,
}

// By hand, so that it is proved here and not in each crate above.
impl Drop for Window {
    fn drop(self) {
        let Window {
            quota: _quota,
            extents: _extents,
            buffers: _buffers,
            holes: _holes,
            rooms: _rooms,
            made: _made,
            spent: _spent,
            alloc: _alloc,
        } = self;
    }
}

impl Model for Window {
    ghost use Rattle.job_region.specs.Region.{Region};

    ghost Value = { Region };

    ghost use Rattle.job_region.specs.Layout.{zipped, IsLaid};
    ghost use Rattle.std.specs.Prelude.{vec_len};

    ghost view = { λ w. record { quota = w.quota; placed = zipped w.extents.items w.buffers.items } };

    ghost invariant = { λ w. IsLaid w.quota w.extents.items w.buffers.items w.holes (vec_len w.rooms) };
}

impl Window {
    /// A window of `quota` bytes with nothing placed. `BadSize` unless that is 16 to 268,435,456 and a
    /// multiple of 16; out of memory comes last.
    pub fn new(alloc: Global, quota: u64) -> Result<Window, Failure>
        ensures ok { IfOk result (λ w. w ≡ record { quota = quota; placed = [] }) }
        ensures size { IsErrOf result (Refused BadSize) ↔ (is_window_lem quota ≡ false) }
        ensures refused { (r : Refusal) → IsErrOf result (Refused r) → r ≡ BadSize }
    {
        if !is_window(quota) {
            return Err(Failure::Refused(Refusal::BadSize));
        }
        let mut holes = Holes::new();
        holes.put(
            SpareNode::new(alloc)?,
            Hole {
                offset: 0,
                length: quota,
            },
        );
        Ok(Window {
            quota,
            extents: Vec::new(alloc),
            buffers: Vec::new(alloc),
            holes,
            rooms: Vec::new(alloc),
            made: None,
            spent: Spent::nothing(),
            alloc,
        })
    }

    /// Its bytes. The extents lie within these, apart and in whole units of 16.
    pub fn quota(&self) -> u64
        ensures quota { result ≡ self.now.quota }
        ensures laid { LaidFrom self.now.quota 0 (extents_of self.now.placed) }
    {
        self.quota
    }

    /// Places an extent of zeros for an object of `len` bytes, at the least multiple of 16 at which they
    /// lie within the window and meet no extent. Finds it in a descent of the tree of holes.
    ///
    /// `BadSize` if no object of that length may be in the window, `Full` if no place is free; out of
    /// memory comes last. A failure changes nothing.
    pub fn place(&mut self, len: u32) -> Result<Extent, Failure>
        ensures least { IfOk result (λ e. place_for self.old len ≡ Some e.offset) }
        ensures length { IfOk result (λ e. e.length ≡ rounded_lem len) }
        ensures placed { IfOk result (λ e. self.new ≡ record self.old { placed = put_in (e.offset, replicate e.length 0) self.old.placed }) }
        ensures refused { (r : Refusal) → IsErrOf result (Refused r) → place_check self.old len ≡ Some r }
        ensures passed { IsOk result → place_check self.old len ≡ None }
        ensures memory { (m : OutOfMemory) → IsErrOf result (Memory m) → place_check self.old len ≡ None }
        ensures err { OnErr result (self.new ≡ self.old) }
        ensures fresh { IfOk result (λ e. lookup (nat_eq e.offset) self.old.placed ≡ None) }
        ensures there { IfOk result (λ e. IsAt e self.new.placed) }
        ensures others { IfOk result (λ e. (o : ℕ) → o ≢ e.offset → lookup (nat_eq o) self.new.placed ≡ lookup (nat_eq o) self.old.placed) }
    {
        let need = rounded(len);
        if len == 0 || len > LONGEST_OBJECT || need > self.quota {
            return Err(Failure::Refused(Refusal::BadSize));
        }
        let Some(hole) = self.holes.first_fit(need).0 else {
            return Err(Failure::Refused(Refusal::Full));
        };
        reserve(&mut self.rooms, self.alloc, self.extents.len())?;
        reserve_places(&mut self.extents, &mut self.buffers)?;
        let buffer = Buffer::zeros(self.made.take(), self.alloc, need as usize)?;
        let extent = Extent {
            offset: hole.offset,
            length: need,
        };
        put(&mut self.extents, &mut self.buffers, extent, buffer);
        cut(&mut self.holes, hole, need);
        Ok(extent)
    }

    /// Whether an object of `len` bytes may be in the window: some bytes, at most 16 MiB, and in whole
    /// units of 16 no more than the window has.
    pub fn may_have(&self, len: u32) -> bool
        ensures { result ≡ is_size self.now.quota len }
    {
        len > 0 && len <= LONGEST_OBJECT && rounded(len) <= self.quota
    }

    /// Why an object of `len` bytes can't be placed: `BadSize`, `Full`, or nothing.
    pub fn check(&self, len: u32) -> Option<Refusal>
        ensures { result ≡ place_check self.now len }
    {
        let need = rounded(len);
        if len == 0 || len > LONGEST_OBJECT || need > self.quota {
            return Some(Refusal::BadSize);
        }
        match self.search(len).0 {
            Some(_) => None,
            None => Some(Refusal::Full),
        }
    }

    /// Where an object of `len` bytes would go, and how many nodes of the tree of holes were visited: 30 at
    /// most, however many extents there are.
    pub fn search(&self, len: u32) -> (Option<u64>, u32)
        ensures offset { result.0 ≡ place_for self.now len }
        ensures visits { result.1 ≤ 30 }
    {
        if len == 0 {
            return (Some(0), 0);
        }
        let (found, visits) = self.holes.first_fit(rounded(len));
        match found {
            None => (None, visits),
            Some(hole) => (Some(hole.offset), visits),
        }
    }

    /// Takes back these extents, which are given by rising offset, and places an extent of zeros for an object of `len` bytes at the
    /// offset at which it then fits first, as `fits_without` says it; the other extents stay. Takes a bisection and two changes of the
    /// tree for each extent that is taken back, no search for a place, and no scan of those that stay.
    ///
    /// The error is out of memory. It changes nothing: the extents are not taken back.
    pub fn replace(
        &mut self,
        alloc: Global,
        gone: &[Extent],
        len: u32,
        offset: u64,
    ) -> Result<Extent, OutOfMemory>
        requires rising { IsNonDecreasingBy (λ (e : Extent). e.offset) gone.now }
        requires some { 0 < len }
        requires first { first (extents_of (without gone.now self.old.placed)) self.old.quota len ≡ Some offset }
        ensures least { IfOk result (λ e. first (extents_of (without gone.now self.old.placed)) self.old.quota len ≡ Some e.offset) }
        ensures length { IfOk result (λ e. e.length ≡ rounded_lem len) }
        ensures placed { IfOk result (λ e. self.new ≡ record self.old { placed = put_in (e.offset, replicate e.length 0) (without gone.now self.old.placed) }) }
        ensures err { OnErr result (self.new ≡ self.old) }
        ensures fresh { IfOk result (λ e. lookup (nat_eq e.offset) (without gone.now self.old.placed) ≡ None) }
        ensures small { IfOk result (λ e. e.offset + e.length < 2 ^ 29) }
    {
        let need = rounded(len);
        reserve(&mut self.rooms, alloc, self.extents.len())?;
        reserve_places(&mut self.extents, &mut self.buffers)?;
        let buffer = Buffer::zeros(self.made.take(), alloc, need as usize)?;
        free_all(
            &mut self.extents,
            &mut self.buffers,
            &mut self.holes,
            &mut self.rooms,
            &mut self.spent,
            gone,
            self.quota,
        );
        let Some(hole) = self.holes.at(offset) else {
            unreachable!()
        };
        let extent = Extent {
            offset: hole.offset,
            length: need,
        };
        put(&mut self.extents, &mut self.buffers, extent, buffer);
        cut(&mut self.holes, hole, need);
        Ok(extent)
    }

    /// Takes back an extent of this window. Takes no memory.
    pub fn give_back(&mut self, extent: Extent)
        requires { IsAt extent self.old.placed }
        ensures { self.new ≡ record self.old { placed = remove_entry (nat_eq extent.offset) self.old.placed } }
    {
        free_at(
            &mut self.extents,
            &mut self.buffers,
            &mut self.holes,
            &mut self.rooms,
            &mut self.spent,
            extent.offset,
            self.quota,
        );
    }

    /// Takes back these extents, as far as they are there. Takes a bisection and two changes of the tree for each of
    /// them, and no memory.
    pub fn give_back_all(&mut self, extents: &[Extent])
        ensures { self.new ≡ record self.old { placed = without extents.now self.old.placed } }
    {
        free_all(
            &mut self.extents,
            &mut self.buffers,
            &mut self.holes,
            &mut self.rooms,
            &mut self.spent,
            extents,
            self.quota,
        );
    }

    /// The bytes of an extent of this window, lent without a copy.
    pub fn bytes_of(&self, extent: &Extent) -> &[u8]
        requires { IsAt extent.now self.now.placed }
        ensures value { lookup (nat_eq extent.now.offset) self.now.placed ≡ Some result.now }
        ensures length { length result.now ≡ extent.now.length }
    {
        buffer_at(&self.extents, &self.buffers, extent.offset).as_slice()
    }

    /// Keeps zeros for the next extent that is placed, and gives back those that were kept. A contract sees nothing of them.
    pub fn keep_zeros(&mut self, zeros: Option<Zeros>) -> Option<Zeros>
        ensures { self.new ≡ self.old }
    {
        mem::replace(&mut self.made, zeros)
    }

    /// Keeps this of the memory of extents that went, and gives what was kept. A contract sees nothing of it.
    pub fn keep_spent(&mut self, spent: Spent) -> Spent
        ensures { self.new ≡ self.old }
    {
        mem::replace(&mut self.spent, spent)
    }

    /// Makes the bytes of an extent such as `shared` gives, if there is memory for it and they are at least 32,768.
    pub fn freeze(&mut self, extent: &Extent)
        requires { IsAt extent.now self.old.placed }
        ensures { self.new ≡ self.old }
    {
        freeze_at(&self.extents, &mut self.buffers, extent.offset, self.alloc);
    }

    /// The bytes of an extent of this window without a copy, if they are frozen. They stay as they are, whatever becomes of the
    /// extent.
    pub fn shared(&self, extent: &Extent) -> Option<Bytes>
        requires { IsAt extent.now self.now.placed }
        ensures value { IfSome result (λ bytes. lookup (nat_eq extent.now.offset) self.now.placed ≡ Some bytes) }
        ensures length { IfSome result (λ bytes. length bytes ≡ extent.now.length) }
    {
        let buffer = buffer_at(&self.extents, &self.buffers, extent.offset);
        let bytes = buffer.shared()?;
        Some(bytes)
    }

    /// Takes bytes with their digest, to be compared with those of an extent of this window, from the first on. A contract sees nothing
    /// of it.
    pub fn expect(&mut self, extent: &Extent, hashed: Hashed)
        requires { IsAt extent.now self.old.placed }
        ensures { self.new ≡ self.old }
    {
        expect_at(&self.extents, &mut self.buffers, extent.offset, hashed);
    }

    /// Compares the next 128 KiB of them, and tells whether there is more to compare.
    pub fn compare(&mut self, extent: &Extent) -> bool
        requires { IsAt extent.now self.old.placed }
        ensures { self.new ≡ self.old }
    {
        compare_at(&self.extents, &mut self.buffers, extent.offset)
    }

    /// The digest (SHA-256, FIPS 180-4) of the first `len` bytes of an extent of this window. It is known if bytes that were taken for it
    /// were as many, and all of them were compared; otherwise it is computed.
    pub fn digest_of(&self, extent: &Extent, len: u32) -> Digest
        requires there { IsAt extent.now self.now.placed }
        requires len { len ≤ extent.now.length }
        ensures { result ≡ digest_of (take len (region_bytes_at extent.now self.now.placed)) }
    {
        buffer_at(&self.extents, &self.buffers, extent.offset).digest_of(len as usize)
    }

    /// The bytes of an extent of this window become these, without a copy, and `shared` gives them; the other extents stay.
    pub fn adopt(&mut self, extent: &Extent, bytes: Bytes)
        requires there { IsAt extent.now self.old.placed }
        requires length { length bytes ≡ extent.now.length }
        ensures { self.new ≡ record self.old { placed = set_value (nat_eq extent.now.offset) self.old.placed bytes } }
    {
        let own = adopt_at(
            &self.extents,
            &mut self.buffers,
            extent.offset,
            self.alloc,
            bytes,
        );
        self.spent.keep_own(own);
    }

    /// Writes bytes into an extent of this window, from an offset in it on; the other extents stay.
    /// `OutOfBounds` if they pass its end, and then nothing is written.
    pub fn write(&mut self, extent: &Extent, off: u32, bytes: &[u8]) -> Result<(), Refusal>
        requires { IsAt extent.now self.old.placed }
        ensures ok { OnOk result (self.new ≡ record self.old { placed = set_value (nat_eq extent.now.offset) self.old.placed (overwritten (region_bytes_at extent.now self.old.placed) off bytes.now) }) }
        ensures succeeds { off + length bytes.now ≤ extent.now.length → IsOk result }
        ensures bounds { IsErrOf result OutOfBounds ↔ (extent.now.length < off + length bytes.now) }
        ensures err { OnErr result (self.new ≡ self.old) }
    {
        if (extent.length as usize) < off as usize + bytes.len() {
            return Err(Refusal::OutOfBounds);
        }
        write_at(
            &self.extents,
            &mut self.buffers,
            extent.offset,
            off as usize,
            bytes,
        );
        Ok(())
    }

    /// Where an object of `len` bytes would go if these extents went, which are given by rising offset.
    /// Takes one descent of the tree and a bisection for each extent that goes, and no memory.
    pub fn fits_without(&self, gone: &[Extent], len: u32) -> Option<u64>
        requires { IsNonDecreasingBy (λ (e : Extent). e.offset) gone.now }
        ensures { result ≡ first (extents_of (without gone.now self.now.placed)) self.now.quota len }
    {
        if len == 0 {
            return Some(0);
        }
        let found = self.search(len).0;
        least_without(&self.extents, found, gone, rounded(len), self.quota)
    }

    /// Gives back all extents. Takes no memory.
    pub fn clear(&mut self)
        ensures { self.new ≡ record self.old { placed = [] } }
    {
        if self.extents.is_empty() {
            return;
        }
        let Some(room) = self.rooms.pop() else {
            unreachable!()
        };
        self.extents.clear();
        self.buffers.clear();
        self.holes.clear();
        self.holes.put(
            room,
            Hole {
                offset: 0,
                length: self.quota,
            },
        );
    }

    /// Gives the window `quota` bytes; the extents keep their places and their bytes. Shrinking takes no
    /// memory.
    ///
    /// `BadSize` unless that is a window's size, `Full` if an extent would reach past its end; out of
    /// memory comes last. A failure changes nothing.
    pub fn resize(&mut self, quota: u64) -> Result<(), Failure>
        ensures ok { OnOk result (self.new ≡ record self.old { quota = quota }) }
        ensures passed { IsOk result → resize_check_lem self.old quota ≡ None }
        ensures refused { (r : Refusal) → IsErrOf result (Refused r) → resize_check_lem self.old quota ≡ Some r }
        ensures memory { (m : OutOfMemory) → IsErrOf result (Memory m) → (self.old.quota < quota) × (resize_check_lem self.old quota ≡ None) }
        ensures err { OnErr result (self.new ≡ self.old) }
    {
        if let Some(refusal) = self.resize_check(quota) {
            return Err(Failure::Refused(refusal));
        }
        let extents = self.extents.len();
        reserve_to_grow(&mut self.rooms, self.alloc, extents, self.quota, quota)?;
        let end = end_of_last(0, &self.extents);
        end_at(&mut self.holes, &mut self.rooms, extents, end, quota);
        self.quota = quota;
        Ok(())
    }

    /// Why the window can't have `quota` bytes: `BadSize`, `Full`, or nothing.
    pub fn resize_check(&self, quota: u64) -> Option<Refusal>
        ensures { result ≡ resize_check_lem self.now quota }
    {
        if !is_window(quota) {
            return Some(Refusal::BadSize);
        }
        if end_of_last(0, &self.extents) > quota {
            Some(Refusal::Full)
        } else {
            None
        }
    }
}

/// Whether a window may have so many bytes.
fn is_window(quota: u64) -> bool
    ensures { result ≡ is_window_lem quota }
{
    quota >= UNIT && quota <= WIDEST_WINDOW && quota % UNIT == 0
}
