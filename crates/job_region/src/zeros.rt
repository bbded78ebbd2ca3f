//! Zeros that are made ahead of the extent that they are for.
ghost use Rattle.std.specs.Prelude.{◌≡◌, ◌≤◌, IfOk, vec_len, replicate};

use crate::buffer::reserved;
use memory_growth::{OutOfMemory, lists};
use obj_id::limits::WIDEST_WINDOW;
use private_store::rounded;
use std::alloc::Global;
use std::marker::Model;
use std::thread;

/// So many zeros are made at a time where others may wait for a processor.
const PART: usize = 65_536;

/// Zeros for an extent that is placed later. To make them takes as long as to write them, so it is done where nobody waits for
/// the window. A contract sees how many there are.
#[derive(Drop)]
pub struct Zeros {
    bytes: Vec<u8>,
}

impl Model for Zeros {
    ghost use Rattle.std.specs.Prelude.{◌≡◌, ℕ, vec_len, replicate};

    ghost Value = { ℕ };

    ghost view = { λ z. vec_len z.bytes };

    ghost invariant = { λ z. z.bytes.items ≡ replicate (vec_len z.bytes) 0 };
}

impl Zeros {
    /// As many as the extent of an object of `len` bytes has, and none if no window has as many. Lets other threads run now and then.
    pub fn for_object(alloc: Global, len: u32) -> Result<Zeros, OutOfMemory> {
        let need = rounded(len);
        let count = if need > WIDEST_WINDOW { 0 } else { need };
        Ok(Zeros {
            bytes: make_in_parts(alloc, count as usize)?,
        })
    }

    /// So many zeros: these, if there are as many.
    pub(crate) fn or_made(
        made: Option<Zeros>,
        alloc: Global,
        len: usize,
    ) -> Result<Vec<u8>, OutOfMemory>
        requires { len ≤ 268435456 }
        ensures { IfOk result (λ bytes. bytes.items ≡ replicate len 0) }
    {
        if let Some(made) = made {
            let Zeros { bytes } = made;
            if bytes.len() == len {
                return Ok(bytes);
            }
        }
        make_zeros(alloc, len)
    }
}

/// So many zeros.
fn make_zeros(alloc: Global, len: usize) -> Result<Vec<u8>, OutOfMemory>
    requires { len ≤ 268435456 }
    ensures { IfOk result (λ bytes. bytes.items ≡ replicate len 0) }
{
    let mut bytes = lists::with_capacity(alloc, reserved(len))?;
    lists::resize(&mut bytes, len, 0)?;
    Ok(bytes)
}

/// The same. Who waits for a processor gets it after a part: threads that write for as long as the system lets them would keep all
/// others waiting for as long.
fn make_in_parts(alloc: Global, len: usize) -> Result<Vec<u8>, OutOfMemory>
    requires { len ≤ 268435456 }
    ensures { IfOk result (λ zeros. zeros.items ≡ replicate len 0) }
{
    let mut zeros = lists::with_capacity(alloc, reserved(len))?;
    for count in 0..len / PART {
        lists::resize(&mut zeros, (count + 1) * PART, 0)?;
        thread::yield_now();
    }
    lists::resize(&mut zeros, len, 0)?;
    Ok(zeros)
}
