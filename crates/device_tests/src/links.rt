//! The links: what comes out of one, when it is full, and when each end comes to its end.
use assertions::same;
use fetch_link::{LinkReceiver, LinkSender, MOST_IN_FLIGHT, Sent, open, reunite};
use std::process::Abort;
use std::sync::Wait;
use std::test::Fail;
use std::thread;

/// More messages than a link holds at once.
const MANY: u64 = 5_000;

/// Sends 0, 1, 2 and so on for as long as they are accepted. How many were, and what became of the next.
fn fill<R: Wait>(rt: &R, sender: &mut LinkSender<u64>) -> (u64, Sent) {
    for number in 0..MANY {
        match sender.send_next(rt, number) {
            Sent::Accepted => {}
            refused => return (number, refused),
        }
    }
    (MANY, Sent::Accepted)
}

/// Receives until there is nothing more. How many there were, unless one of them wasn't the next number.
fn drain<R: Wait>(rt: &R, receiver: &mut LinkReceiver<u64>) -> Option<u64> {
    for due in 0..MANY {
        match receiver.receive_next(rt) {
            Some(number) if number == due => {}
            Some(_) => return None,
            None => return Some(due),
        }
    }
    receiver.receive_next(rt).is_none().then_some(MANY)
}

/// Sends the number as soon as there is room. Whether the link was open.
fn send_once_there_is_room<R: Wait>(rt: &R, sender: &mut LinkSender<u64>, number: u64) -> bool {
    for _ in rt.forever() {
        match sender.send_next(rt, number) {
            Sent::Accepted => return true,
            Sent::Full => thread::yield_now(),
            Sent::Ended => return false,
        }
    }
    false
}

/// Sends all numbers and closes. How many were accepted.
fn send_all<R: Wait>(rt: &R, sender: &mut LinkSender<u64>) -> u64 {
    for number in 0..MANY {
        if !send_once_there_is_room(rt, sender, number) {
            return number;
        }
    }
    sender.close();
    MANY
}

fn pass_some<R: Wait + Abort>(
    rt: &R,
    sender: &mut LinkSender<u64>,
    receiver: &mut LinkReceiver<u64>,
) {
    let first = [
        sender.send_next(rt, 7),
        sender.send_next(rt, 8),
        sender.send_next(rt, 9),
    ];
    let received = [receiver.receive_next(rt), receiver.receive_next(rt)];
    let sent = (
        first,
        received,
        sender.send_next(rt, 10),
        receiver.receive_next(rt),
    );
    let due = (
        [Sent::Accepted; 3],
        [Some(7), Some(8)],
        Sent::Accepted,
        Some(9),
    );
    same!(rt; sent, due);
}

#[test]
fn messages_are_received_in_the_order_in_which_they_were_sent(rt: HostRuntime) -> Result<(), Fail> {
    let (mut sender, mut receiver) = open::<u64>(rt.alloc())?;
    pass_some(&rt, &mut sender, &mut receiver);
    Ok(())
}

fn fill_again<R: Wait + Abort>(
    rt: &R,
    sender: &mut LinkSender<u64>,
    receiver: &mut LinkReceiver<u64>,
) {
    let filled = fill(rt, sender);
    let received = receiver.receive_next(rt);
    let sent = [sender.send_next(rt, 1024), sender.send_next(rt, 1025)];
    let response = (filled, received, sent, receiver.receive_next(rt));
    same!(rt; response, ((1024, Sent::Full), Some(0), [Sent::Accepted, Sent::Full], Some(1)));
    same!(rt; MOST_IN_FLIGHT, 1024);
}

#[test]
fn the_message_after_1024_finds_no_room(rt: HostRuntime) -> Result<(), Fail> {
    let (mut sender, mut receiver) = open::<u64>(rt.alloc())?;
    fill_again(&rt, &mut sender, &mut receiver);
    Ok(())
}

fn close_and_drain<R: Wait + Abort>(
    rt: &R,
    sender: &mut LinkSender<u64>,
    receiver: &mut LinkReceiver<u64>,
) {
    let filled = fill(rt, sender);
    sender.close();
    let late = sender.send_next(rt, 1024);
    let drained = drain(rt, receiver);
    sender.close();
    let response = (
        filled,
        late,
        drained,
        sender.send_next(rt, 1024),
        receiver.receive_next(rt),
    );
    same!(rt; response, ((1024, Sent::Full), Sent::Ended, Some(1024), Sent::Ended, None));
}

#[test]
fn a_closed_end_sends_no_more_and_what_was_accepted_is_received(
    rt: HostRuntime,
) -> Result<(), Fail> {
    let (mut sender, mut receiver) = open::<u64>(rt.alloc())?;
    close_and_drain(&rt, &mut sender, &mut receiver);
    Ok(())
}

/// Sends a number and is dropped.
fn send_one<R: Wait>(rt: &R, mut sender: LinkSender<u64>) -> Sent {
    sender.send_next(rt, 0)
}

#[test]
fn a_sending_end_that_is_dropped_is_closed(rt: HostRuntime) -> Result<(), Fail> {
    let (sender, mut receiver) = open::<u64>(rt.alloc())?;
    same!(rt; send_one(&rt, sender), Sent::Accepted);
    same!(rt; drain(&rt, &mut receiver), Some(1));
    Ok(())
}

/// Sends a number before and one after the receiver is dropped.
fn send_round_a_drop<R: Wait>(
    rt: &R,
    sender: &mut LinkSender<u64>,
    receiver: LinkReceiver<u64>,
) -> [Sent; 2] {
    let before = sender.send_next(rt, 0);
    drop(receiver);
    [before, sender.send_next(rt, 1)]
}

#[test]
fn without_a_receiver_nothing_is_accepted(rt: HostRuntime) -> Result<(), Fail> {
    let (mut sender, receiver) = open::<u64>(rt.alloc())?;
    let sent = send_round_a_drop(&rt, &mut sender, receiver);
    same!(rt; sent, [Sent::Accepted, Sent::Ended]);
    Ok(())
}

#[test]
fn ends_are_taken_back_with_a_message_between_them(rt: HostRuntime) -> Result<(), Fail> {
    let (mut sender, mut receiver) = open::<u64>(rt.alloc())?;
    let sent = [sender.send_next(&rt, 7), sender.send_next(&rt, 8)];
    let received = receiver.receive_next(&rt);
    reunite(sender, receiver);
    same!(rt; (sent, received), ([Sent::Accepted; 2], Some(7)));
    Ok(())
}

#[test]
fn another_thread_receives_all_that_is_sent(rt: HostRuntime) -> Result<(), Fail> {
    let (mut sender, mut receiver) = open::<u64>(rt.alloc())?;
    let receiving = thread::spawn(&rt, move || drain(&rt, &mut receiver))?;
    let accepted = send_all(&rt, &mut sender);
    same!(rt; (accepted, receiving.join(&rt)), (MANY, Some(MANY)));
    Ok(())
}
