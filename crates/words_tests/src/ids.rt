//! Ids, their texts, and the refusals. A table is one text: the prover reads each element of an array.
use assertions::{holds, same};
use memory_growth::OutOfMemory;
use obj_id::numbers::{read_u32, read_u64};
use obj_id::{ItemList, JobNo, ObjectId, Refusal, TaskNo};
use std::alloc::Global;
use std::process::Abort;
use std::test::Fail;

const SPEAKER: JobNo = JobNo(1);

/// Tells each byte of an id from the others.
const COUNTED: [u8; 28] = [
    11, 12, 13, 14, 15, 16, 17, 18, 19, 20, 21, 22, 23, 24, 25, 26, 27, 28, 29, 30, 1, 2, 3, 4, 5,
    6, 7, 8,
];

const COUNTED_TEXT: &str = "0b0c0d0e0f101112131415161718191a1b1c1d1e0102030405060708";

#[test]
fn an_id_is_28_bytes_with_the_highest_byte_first(rt: HostRuntime) -> Result<(), Fail> {
    let id = ObjectId::from_bytes(&COUNTED)?;
    same!(rt; (id.job().0, id.index()), (0x0102_0304, 0x0506_0708));
    same!(rt; (id.task().0[0], id.task().0[19]), (11, 30));
    same!(rt; id.to_bytes(), COUNTED);
    same!(rt; ObjectId::read_full(COUNTED_TEXT), Ok(id));
    Ok(())
}

/// Texts of ids in rising order, as job 1 reads them: by task, then job, then index.
const RISING: &str = "\
2/t0.3
t1.1
t1.2
256/t1.1
513/t1.1
t256.1
0b0c0d0e0f101112131415161718191a1b1c1d1e0102030405060708";

#[test]
fn ids_are_ordered_by_task_then_job_then_index(rt: HostRuntime) -> Result<(), Fail> {
    let mut last = ObjectId::read("t0.1", SPEAKER)?;
    for text in RISING.lines() {
        let id = ObjectId::read(text, SPEAKER)?;
        assert!(rt; last < id, "{text}");
        last = id;
    }
    Ok(())
}

/// Rows of a text as job 1 prints it, and of the id's bytes.
const TEXTS: &str = "\
t1.1 = 00000000000000000000000000000000000000010000000100000001
t0.7 = 00000000000000000000000000000000000000000000000100000007
2/t1.1 = 00000000000000000000000000000000000000010000000200000001
10/t20.30 = 00000000000000000000000000000000000000140000000a0000001e
t18446744073709551615.4294967295 = 000000000000000000000000ffffffffffffffff00000001ffffffff
4294967295/t256.1 = 0000000000000000000000000000000000000100ffffffff00000001
0b0c0d0e0f101112131415161718191a1b1c1d1e0102030405060708 = 0b0c0d0e0f101112131415161718191a1b1c1d1e0102030405060708";

/// Checks that job 1 reads both texts as one id, and prints it as the first.
fn check_id(rt: &impl Abort, alloc: Global, text: &str, bytes: &str) -> Result<(), Fail> {
    let id = ObjectId::read_full(bytes)?;
    let read = (
        ObjectId::read(text, SPEAKER)?,
        ObjectId::read(bytes, SPEAKER)?,
    );
    same!(rt; read, (id, id));
    same!(rt; id.write(alloc, SPEAKER)?.as_str(), text);
    Ok(())
}

#[test]
fn each_right_text_is_read_and_printed(rt: HostRuntime) -> Result<(), Fail> {
    for row in TEXTS.lines() {
        let (text, bytes) = row.split_once(" = ").ok_or("no row")?;
        check_id(&rt, rt.alloc(), text, bytes)?;
    }
    Ok(())
}

/// What is no text of an id to job 1.
const WRONG: &str = "\

t
t1
t1.
t.1
1.1
t1.0
t01.1
t1.01
t00.1
t+1.1
t-1.1
T7.1
t1.1 \n t1.1
t1.1.1
t1,1
1/t1.1
0/t1.1
02/t1.1
2/
/t1.1
2/2/t1.1
-2/t1.1
t18446744073709551616.1
t1.4294967296
4294967296/t1.1
2/00000000000000000000000000000000000000010000000200000001
00000000000000000000000000000000000000010000000000000001
00000000000000000000000000000000000000010000000100000000
0000000000000000000000000000000000000001000000010000000
000000000000000000000000000000000000000100000001000000011
0B0C0D0E0F101112131415161718191A1B1C1D1E0102030405060708
0b0c0d0e0f101112131415161718191a1b1c1d1g0102030405060708";

#[test]
fn wrong_texts_are_refused(rt: HostRuntime) {
    for text in WRONG.lines() {
        assert_eq!(rt;
            ObjectId::read(text, SPEAKER),
            Err(Refusal::BadId),
            "{text}"
        );
    }
}

/// Rows of a task's text as it is printed, and of its bytes.
const TASKS: &str = "\
t0 = 0000000000000000000000000000000000000000
t1 = 0000000000000000000000000000000000000001
t18446744073709551615 = 000000000000000000000000ffffffffffffffff
0b0c0d0e0f101112131415161718191a1b1c1d1e = 0b0c0d0e0f101112131415161718191a1b1c1d1e";

/// Checks that both texts are read as one task, which is printed as the first.
fn check_task(rt: &impl Abort, alloc: Global, text: &str, bytes: &str) -> Result<(), Fail> {
    let task = TaskNo::read_full(bytes)?;
    same!(rt; (TaskNo::read(text)?, TaskNo::read(bytes)?), (task, task));
    same!(rt; task.write(alloc)?.as_str(), text);
    Ok(())
}

#[test]
fn a_task_is_read_and_printed_by_its_number_or_its_digits(rt: HostRuntime) -> Result<(), Fail> {
    for row in TASKS.lines() {
        let (text, bytes) = row.split_once(" = ").ok_or("no row")?;
        check_task(&rt, rt.alloc(), text, bytes)?;
    }
    Ok(())
}

/// What is no text of a task.
const WRONG_TASKS: &str = "\

t
1
t01
t+1
t1.1
t18446744073709551616
000000000000000000000000000000000000001
0B0C0D0E0F101112131415161718191A1B1C1D1E";

#[test]
fn wrong_task_texts_are_refused(rt: HostRuntime) {
    for text in WRONG_TASKS.lines() {
        assert_eq!(rt; TaskNo::read(text), Err(Refusal::BadId), "{text}");
    }
}

/// What is no number, of 32 bits or of 64.
const NO_NUMBERS: &str = "\

00
01
+1
-0
1a
 1
18446744073709551616";

#[test]
fn a_number_is_digits_with_no_leading_zero(rt: HostRuntime) {
    for text in NO_NUMBERS.lines() {
        assert_eq!(rt; (read_u64(text), read_u32(text)), (None, None), "{text}");
    }
    let last = "18446744073709551615";
    same!(rt; (read_u64("0"), read_u64(last)), (Some(0), Some(u64::MAX)));
    let last = "4294967295";
    same!(rt; (read_u32(last), read_u32("4294967296")), (Some(u32::MAX), None));
}

/// The refusals in the order of their numbers, from 1 on.
const REFUSALS: &str = "\
NotAdmitted
BadId
Exists
Absent
NotSealed
AlreadySealed
BadSize
OutOfBounds
Full
Pending
NotHeld
Granted
NotGranted
DeviceFailed
Damaged
Busy
TooMany
Gone
NoMemory
Malformed
NoRoom
NotOwner
NotResident
Stale";

#[test]
fn each_refusal_has_its_number_and_name(rt: HostRuntime) -> Result<(), Fail> {
    let mut number = 0u8;
    for name in REFUSALS.lines() {
        number = number.saturating_add(1);
        let refusal = Refusal::from_number(number).ok_or("no such number")?;
        same!(rt; (refusal.name(), refusal.number()), (name, number));
        same!(rt; Refusal::from_name(name), Some(refusal));
    }
    same!(rt; number, 24);
    same!(rt; [Refusal::from_number(0), Refusal::from_number(25)], [None; 2]);
    same!(rt; [Refusal::from_name("badId"), Refusal::from_name("")], [None; 2]);
    Ok(())
}

/// Adds the item, once more if memory ran out. Whether it is then the last, and nothing had changed before.
fn pushed(items: &mut ItemList<JobNo>, job: JobNo) -> Result<bool, OutOfMemory> {
    let had = items.as_slice().len();
    let mut kept = had;
    if items.push(job).is_err() {
        kept = items.as_slice().len();
        items.push(job)?;
    }
    Ok(kept == had && items.as_slice().len() > had && items.as_slice().last() == Some(&job))
}

#[test]
fn a_list_keeps_what_it_had_where_memory_is_wanting(rt: HostRuntime) -> Result<(), Fail> {
    let mut items = ItemList::new(rt.alloc());
    for job in 0..20 {
        holds!(rt; pushed(&mut items, JobNo(job))?);
    }
    same!(rt; items.as_slice().len(), 20);
    Ok(())
}
