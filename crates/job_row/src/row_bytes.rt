//! The bytes of a row's copies in its window.
ghost use Rattle.std.specs.Prelude.{◌≡◌, ◌+◌, ◌≤◌, ◌<◌, [], nat_eq, take, length, Some, None, IfSome};
ghost use Rattle.std.specs.Map.{set_value};
ghost use Rattle.obj_id.specs.declared.works.Extent.{Extent};
ghost use Rattle.private_store.specs.rules.Tables.{at};
ghost use Rattle.private_store.specs.rules.Copies.{extent_of};
ghost use Rattle.private_store.specs.rules.Contents.{digest_of, overwritten};
ghost use Rattle.job_region.specs.Region.{IsAt, region_bytes_at as placed_bytes};
ghost use Rattle.row_copy.specs.CopyViews.{CopyView};
ghost use Rattle.job_row.specs.Row.{place_of};

use crate::lent::{Lent, first_bytes, first_shared};
use crate::prepared::{Prepared, filling};
use crate::row::JobRow;
use bytes::Bytes;
use hashed_bytes::{Hashed, digest_by};
use obj_id::{Digest, Extent, ObjectId};
use row_copy::RowCopy;
use std::mem;

impl JobRow {
    /// The bytes of a copy, lent without a copy; none if it isn't resident.
    pub fn bytes(&self, id: &ObjectId) -> &[u8]
        ensures absent { place_of self.now.copies id.now ≡ None → result.now ≡ [] }
        ensures bytes { (k : CopyView) (e : Extent) → at self.now.copies id.now ≡ Some k → extent_of k.copy ≡ Some e
            → result.now ≡ take k.copy.length (placed_bytes e self.now.window.placed) }
    {
        let Some(copy) = self.copies.get(id) else {
            return &[];
        };
        let Some(extent) = copy.extent() else {
            return &[];
        };
        first_bytes(self.window.bytes_of(&extent), copy.length())
    }

    /// The same, with what shares them, if they can be shared.
    pub fn lent(&self, id: &ObjectId) -> Lent<'_>
        ensures absent { place_of self.now.copies id.now ≡ None → result.bytes.now ≡ [] }
        ensures unshared { place_of self.now.copies id.now ≡ None → result.shared ≡ None }
        ensures bytes { (k : CopyView) (e : Extent) → at self.now.copies id.now ≡ Some k → extent_of k.copy ≡ Some e
            → result.bytes.now ≡ take k.copy.length (placed_bytes e self.now.window.placed) }
        ensures same { IfSome result.shared (λ shared. shared ≡ result.bytes.now) }
    {
        let Some(copy) = self.copies.get(id) else {
            return Lent::nothing();
        };
        let Some(extent) = copy.extent() else {
            return Lent::nothing();
        };
        let length = copy.length();
        Lent {
            bytes: first_bytes(self.window.bytes_of(&extent), length),
            shared: first_shared(self.window.shared(&extent), length),
        }
    }

    /// Makes the bytes of a copy such as can be shared, if it is resident, there is memory for it, and they are not few.
    pub fn freeze(&mut self, id: &ObjectId)
        ensures { self.new ≡ self.old }
    {
        if let Some(extent) = self.place(id) {
            self.window.freeze(&extent);
        }
    }

    /// The same of the bytes of a copy that lies there, if it is resident.
    pub fn freeze_at(&mut self, place: Option<Extent>)
        requires { (e : Extent) → place ≡ Some e → IsAt e self.old.window.placed }
        ensures { self.new ≡ self.old }
    {
        if let Some(extent) = place {
            self.window.freeze(&extent);
        }
    }

    /// The digest of the bytes of one of its copies; of none if that isn't resident. It is known if bytes that were taken for it were all
    /// compared.
    pub fn digest(&self, copy: &RowCopy) -> Digest
        requires { (e : Extent) → extent_of copy.now.copy ≡ Some e → IsAt e self.now.window.placed }
        ensures { (e : Extent) → extent_of copy.now.copy ≡ Some e → result ≡ digest_of (take copy.now.copy.length (placed_bytes e self.now.window.placed)) }
    {
        let Some(extent) = copy.extent() else {
            return digest_by(&[], None);
        };
        self.window.digest_of(&extent, copy.length())
    }

    /// Takes bytes with their digest, to be compared with those of a resident copy before a step wants its digest.
    pub fn expect(&mut self, id: &ObjectId, hashed: Hashed)
        ensures { self.new ≡ self.old }
    {
        if let Some(extent) = self.place(id) {
            self.window.expect(&extent, hashed);
        }
    }

    /// Compares the next 128 KiB of them, and tells whether there is more to compare.
    pub fn compare(&mut self, id: &ObjectId) -> bool
        ensures { self.new ≡ self.old }
    {
        match self.place(id) {
            Some(extent) => self.window.compare(&extent),
            None => false,
        }
    }

    /// Bytes of which the digest is known.
    pub fn hashed(&self) -> Option<&Hashed> {
        self.hashed.as_ref()
    }

    /// Keeps what was prepared for the next step, and gives back what was kept.
    pub fn prepare(&mut self, prepared: Prepared) -> Prepared
        ensures { self.new ≡ self.old }
    {
        let Prepared {
            zeros,
            hashed,
            filled,
            spent,
        } = prepared;
        Prepared {
            zeros: self.window.keep_zeros(zeros),
            hashed: mem::replace(&mut self.hashed, hashed),
            filled: mem::replace(&mut self.filled, filled),
            spent: self.window.keep_spent(spent),
        }
    }

    /// Writes bytes into a resident copy from the offset on. Does nothing if it isn't resident, or they pass the end of its extent.
    pub fn put_bytes(&mut self, id: &ObjectId, offset: u32, bytes: &[u8])
        ensures absent { place_of self.old.copies id.now ≡ None → self.new ≡ self.old }
        ensures outside { (e : Extent) → place_of self.old.copies id.now ≡ Some e → e.length < offset + length bytes.now → self.new ≡ self.old }
        ensures copies { self.new.copies ≡ self.old.copies }
        ensures row { (e : Extent) → place_of self.old.copies id.now ≡ Some e → offset + length bytes.now ≤ e.length
            → self.new ≡ record self.old { window = record self.old.window { placed = set_value (nat_eq e.offset) self.old.window.placed (overwritten (placed_bytes e self.old.window.placed) offset bytes.now) } } }
    {
        let Some(extent) = self.place(id) else {
            return;
        };
        let _ = self.window.write(&extent, offset, bytes);
    }

    /// The same of the copy that lies there, if it is resident. Looks no copy up.
    pub fn put_bytes_at(&mut self, place: Option<Extent>, offset: u32, bytes: &[u8])
        requires { (e : Extent) → place ≡ Some e → IsAt e self.old.window.placed }
        ensures absent { place ≡ None → self.new ≡ self.old }
        ensures outside { (e : Extent) → place ≡ Some e → e.length < offset + length bytes.now → self.new ≡ self.old }
        ensures copies { self.new.copies ≡ self.old.copies }
        ensures row { (e : Extent) → place ≡ Some e → offset + length bytes.now ≤ e.length
            → self.new ≡ record self.old { window = record self.old.window { placed = set_value (nat_eq e.offset) self.old.window.placed (overwritten (placed_bytes e self.old.window.placed) offset bytes.now) } } }
    {
        let Some(extent) = place else {
            return;
        };
        let _ = self.window.write(&extent, offset, bytes);
    }

    /// The same from the first byte on. If the bytes fill the copy's extent, by themselves or as they were prepared, they are shared,
    /// and not copied.
    pub(crate) fn put_all_bytes(&mut self, id: &ObjectId, bytes: &Bytes)
        ensures absent { place_of self.old.copies id.now ≡ None → self.new ≡ self.old }
        ensures outside { (e : Extent) → place_of self.old.copies id.now ≡ Some e → e.length < length bytes.now → self.new ≡ self.old }
        ensures copies { self.new.copies ≡ self.old.copies }
        ensures row { (e : Extent) → place_of self.old.copies id.now ≡ Some e → length bytes.now ≤ e.length
            → self.new ≡ record self.old { window = record self.old.window { placed = set_value (nat_eq e.offset) self.old.window.placed (overwritten (placed_bytes e self.old.window.placed) 0 bytes.now) } } }
    {
        let Some(extent) = self.place(id) else {
            return;
        };
        match filling(self.window.bytes_of(&extent), bytes, self.filled.as_ref()) {
            Some(filling) => self.window.adopt(&extent, filling),
            None => self.put_bytes(id, 0, bytes),
        }
    }
}
