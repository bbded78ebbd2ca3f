//! How many bytes an object takes.
ghost use Rattle.std.specs.Prelude.{◌≡◌};
ghost use Rattle.private_store.specs.rules.Extents.{rounded as rounded_lem};

use obj_id::limits::UNIT;

/// The bytes that an object of `len` bytes takes in a window or on the device: whole units of 16.
pub fn rounded(len: u32) -> u64
    ensures { result ≡ rounded_lem len }
{
    (u64::from(len) + (UNIT - 1)) / UNIT * UNIT
}
