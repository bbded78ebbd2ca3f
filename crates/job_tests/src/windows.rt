//! A job's window: that it has memory for extents, and what they show. Where a window has room is a matter of contracts, and of worked schedules.
ghost use Rattle.std.specs.Prelude.{◌≡◌, IfOk};
ghost use Rattle.obj_id.specs.declared.works.Extent.{Extent};
ghost use Rattle.job_region.specs.Region.{IsAt};

use assertions::holds;
use bytes::Bytes;
use job_region::{Window, Zeros};
use memory_growth::{OutOfMemory, shared};
use obj_id::{Extent, Failure, Refusal};
use std::alloc::Global;
use std::test::Fail;

/// An extent for so many bytes: those that were there before stay.
fn place(window: &mut Window, len: u32) -> Result<Extent, Refusal>
    ensures there { IfOk result (λ e. IsAt e window.new.placed) }
    ensures stays { (e : Extent) → IsAt e window.old.placed → IsAt e window.new.placed }
{
    let extent = window.place(len)?;
    Ok(extent)
}

/// Writes into the extent.
fn write(window: &mut Window, extent: &Extent, off: u32, bytes: &[u8]) -> Result<(), Refusal>
    requires { IsAt extent.now window.old.placed }
    ensures stays { (e : Extent) → IsAt e window.old.placed → IsAt e window.new.placed }
{
    window.write(extent, off, bytes)?;
    Ok(())
}

/// Whether these are the bytes of the extent.
fn shows(window: &Window, extent: &Extent, bytes: &[u8]) -> bool
    requires { IsAt extent.now window.now.placed }
{
    window.bytes_of(extent) == bytes
}

/// Gives the window so many bytes: the extents stay.
fn resize(window: &mut Window, quota: u64) -> Result<(), Failure>
    ensures { window.new.placed ≡ window.old.placed }
{
    window.resize(quota)
}

/// Fills a window of 32 bytes, has it grow, and fills it again. Whether each extent shows what was written there.
fn is_filled(window: &mut Window) -> Result<bool, Refusal> {
    let first = place(window, 17)?;
    write(window, &first, 14, &[7, 8])?;
    resize(window, 64)?;
    let second = place(window, 30)?;
    write(window, &second, 0, &[9])?;
    let mut due = [0; 32];
    due[0] = 9;
    let mut first_due = [0; 32];
    first_due[14] = 7;
    first_due[15] = 8;
    Ok(shows(window, &first, &first_due) && shows(window, &second, &due))
}

#[test]
fn a_window_is_filled_and_grows(rt: HostRuntime) -> Result<(), Fail> {
    let mut window = Window::new(rt.alloc(), 32)?;
    holds!(rt; is_filled(&mut window)?);
    Ok(())
}

/// So many bytes are shared, and not copied.
const LONG: u32 = 40_000;

/// The bytes of the extent, shared: they are, unless memory ran out.
fn share(window: &mut Window, extent: &Extent) -> Result<Bytes, Refusal>
    requires { IsAt extent.now window.old.placed }
    ensures { window.new ≡ window.old }
{
    window.freeze(extent);
    window.shared(extent).ok_or(Refusal::NoMemory)
}

/// Whether the bytes are so many, and begin and end with these.
fn begin_and_end(bytes: &Bytes, first: u8, last: u8) -> bool {
    bytes.len() == LONG as usize
        && bytes.as_slice().first() == Some(&first)
        && bytes.as_slice().last() == Some(&last)
}

/// Whether what was shared of an extent stays as it is while that is written, and taken back.
fn what_is_shared_stays(window: &mut Window) -> Result<bool, Refusal> {
    let extent = place(window, LONG)?;
    write(window, &extent, LONG - 1, &[7])?;
    let before = share(window, &extent)?;
    write(window, &extent, 0, &[9])?;
    let after = share(window, &extent)?;
    window.clear();
    Ok(begin_and_end(&before, 0, 7) && begin_and_end(&after, 9, 7))
}

#[test]
fn shared_bytes_stay(rt: HostRuntime) -> Result<(), Fail> {
    let mut window = Window::new(rt.alloc(), 65_536)?;
    holds!(rt; what_is_shared_stays(&mut window)?);
    Ok(())
}

fn fives(alloc: Global) -> Result<Bytes, OutOfMemory> {
    shared::copied(alloc, &[5; 40_000])
}

/// Whether an extent takes over bytes that it is given, and keeps them until they are written.
fn what_is_given_is_taken_over(alloc: Global, window: &mut Window) -> Result<bool, Refusal> {
    let extent = place(window, LONG)?;
    let bytes = fives(alloc)?;
    if bytes.len() as u64 != extent.length {
        return Ok(false);
    }
    window.adopt(&extent, bytes);
    let taken = share(window, &extent)?;
    Ok(begin_and_end(&taken, 5, 5))
}

#[test]
fn given_bytes_are_taken_over(rt: HostRuntime) -> Result<(), Fail> {
    let mut window = Window::new(rt.alloc(), 65_536)?;
    holds!(rt; what_is_given_is_taken_over(rt.alloc(), &mut window)?);
    Ok(())
}

/// Whether an extent is of the zeros that were made ahead, which are then used up.
fn zeros_are_used(alloc: Global, window: &mut Window) -> Result<bool, Refusal> {
    let before = window.keep_zeros(Some(Zeros::for_object(alloc, LONG)?));
    let extent = place(window, LONG)?;
    let used = window.keep_zeros(None).is_none();
    Ok(before.is_none() && used && shows(window, &extent, &[0; 40_000]))
}

#[test]
fn zeros_made_ahead_are_used(rt: HostRuntime) -> Result<(), Fail> {
    let mut window = Window::new(rt.alloc(), 65_536)?;
    holds!(rt; zeros_are_used(rt.alloc(), &mut window)?);
    Ok(())
}
