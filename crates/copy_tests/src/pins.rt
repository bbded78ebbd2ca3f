//! Pins, borrowers and holds of a copy, if memory is wanting.
use assertions::{holds, same};
use obj_id::{Failure, Kind, Refusal, TaskNo};
use pins_holds::Pins;
use std::process::Abort;
use std::test::Fail;

/// A hold, asked for once more if memory ran out: then nothing has changed.
fn hold(rt: &impl Abort, pins: &mut Pins, session: u32) -> Result<(), Failure> {
    let before = pins.holds_of(session);
    match pins.hold(session) {
        Err(Failure::Memory(_)) => {
            same!(rt; pins.holds_of(session), before);
            pins.hold(session)
        }
        response => response,
    }
}

/// A borrow, asked for once more if memory ran out: then nothing has changed.
fn borrow(rt: &impl Abort, pins: &mut Pins, task: TaskNo) -> Result<(), Failure> {
    match pins.borrow(task) {
        Err(Failure::Memory(_)) => {
            holds!(rt; !pins.borrows(task));
            pins.borrow(task)
        }
        response => response,
    }
}

/// Has 40 sessions hold a copy and 64 tasks borrow it.
fn keep(rt: &impl Abort, pins: &mut Pins) -> Result<(), Refusal> {
    for session in 0..40 {
        hold(rt, pins, session)?;
    }
    for task in 0..64 {
        borrow(rt, pins, TaskNo::numbered(task))?;
    }
    Ok(())
}

#[test]
fn sessions_hold_and_tasks_borrow(rt: HostRuntime) {
    let mut pins = Pins::new(rt.alloc(), Kind::Primary);
    same!(rt; keep(&rt, &mut pins), Ok(()));
    same!(rt; (pins.holds_of(39), pins.borrows(TaskNo::numbered(63))), (1, true));
}
