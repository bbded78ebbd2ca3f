//! Answers as they are printed.
use assertions::same;
use bytes::Bytes;
use memory_growth::OutOfMemory;
use obj_id::{
    CopyState, DeviceKey, Endpoint, GrantedItem, ItemList, JobKey, JobNo, Kind, Message, ObjectId,
    OwnItem, PeerMessage, Quota, Refusal, Reply, TaskNo, Usage, Work, WorkKind,
};
use private_store::{Event, Step, StepAnswer};
use schedule_text::{Prefix, answer_line};
use std::alloc::Global;
use std::process::Abort;
use std::test::Fail;

const SESSION: Prefix = Prefix::Session {
    node: 0,
    job: JobNo(1),
    session: 3,
};

const DEVICE: Prefix = Prefix::Device(0);

const OPERATOR: Prefix = Prefix::Operator(1);

/// Checks what is printed of the answer.
fn is_line(
    rt: &impl Abort,
    alloc: Global,
    prefix: Prefix,
    answer: StepAnswer,
    text: &str,
) -> Result<(), OutOfMemory> {
    let line = answer_line(alloc, prefix, &answer)?;
    same!(rt; line.as_str(), text);
    Ok(())
}

/// Checks what is printed of the reply.
fn prints(
    rt: &impl Abort,
    alloc: Global,
    prefix: Prefix,
    reply: Reply<Bytes>,
    text: &str,
) -> Result<(), OutOfMemory> {
    is_line(rt, alloc, prefix, StepAnswer::Response(reply), text)
}

fn numbered(task: u64, job: u32, index: u32) -> Result<ObjectId, Refusal> {
    ObjectId::new(TaskNo::numbered(task), JobNo(job), index)
}

/// One own item.
fn own(
    alloc: Global,
    id: ObjectId,
    state: CopyState,
    kind: Kind,
) -> Result<ItemList<OwnItem>, OutOfMemory> {
    let mut items = ItemList::new(alloc);
    items.push(OwnItem {
        id,
        state,
        kind,
        length: 20,
    })?;
    Ok(items)
}

fn own_and_granted(
    alloc: Global,
    id: ObjectId,
    granted: ObjectId,
) -> Result<Reply<Bytes>, OutOfMemory> {
    let mut items = own(alloc, id, CopyState::Fetching, Kind::Secondary)?;
    items.push(OwnItem {
        id,
        state: CopyState::Created,
        kind: Kind::Primary,
        length: 7,
    })?;
    let mut grants = ItemList::new(alloc);
    grants.push(GrantedItem {
        id: granted,
        length: 4,
        depth: 1,
    })?;
    grants.push(GrantedItem {
        id: granted,
        length: 5,
        depth: 3,
    })?;
    Ok(Reply::List(items, grants))
}

#[test]
fn the_operator_is_answered(rt: HostRuntime) -> Result<(), Fail> {
    let alloc = rt.alloc();
    let rows = [
        (Reply::Ok, "n1 op ok\n"),
        (Reply::Refused(Refusal::NoRoom), "n1 op refused 21 NoRoom\n"),
        (
            Reply::Refused(Refusal::NoMemory),
            "n1 op refused 19 NoMemory\n",
        ),
    ];
    for (reply, text) in rows {
        prints(&rt, alloc, OPERATOR, reply, text)?;
    }
    Ok(())
}

#[test]
fn a_session_is_answered(rt: HostRuntime) -> Result<(), Fail> {
    let alloc = rt.alloc();
    prints(&rt, alloc, SESSION, Reply::Ok, "n0 j1 s3 ok\n")?;
    prints(
        &rt,
        alloc,
        SESSION,
        Reply::Placed(0, 32),
        "n0 j1 s3 placed 0 32\n",
    )?;
    prints(&rt, alloc, SESSION, Reply::Got(20), "n0 j1 s3 got 20\n")?;
    let refused = Reply::Refused(Refusal::Pending);
    prints(
        &rt,
        alloc,
        SESSION,
        refused,
        "n0 j1 s3 refused 10 Pending\n",
    )?;
    Ok(())
}

#[test]
fn bytes_are_printed_as_digits(rt: HostRuntime) -> Result<(), Fail> {
    let alloc = rt.alloc();
    let hello = Reply::Bytes(Bytes::from_static(b"Hello"));
    prints(&rt, alloc, SESSION, hello, "n0 j1 s3 bytes 48656c6c6f\n")?;
    let high = Reply::Bytes(Bytes::from_static(&[0, 255, 10]));
    prints(&rt, alloc, SESSION, high, "n0 j1 s3 bytes 00ff0a\n")?;
    let none = Reply::Bytes(Bytes::new());
    prints(&rt, alloc, SESSION, none, "n0 j1 s3 bytes -\n")?;
    Ok(())
}

#[test]
fn usage_is_six_numbers(rt: HostRuntime) -> Result<(), Fail> {
    let usage = Reply::Usage(Usage {
        window: 64,
        window_used: 32,
        device: 1_099_511_627_776,
        device_used: 16,
        copies: 2,
        works: 1,
    });
    let text = "n0 j1 s3 usage 64 32 1099511627776 16 2 1\n";
    Ok(prints(&rt, rt.alloc(), SESSION, usage, text)?)
}

#[test]
fn an_empty_list_is_one_word(rt: HostRuntime) -> Result<(), Fail> {
    let alloc = rt.alloc();
    let list = Reply::List(ItemList::new(alloc), ItemList::new(alloc));
    Ok(prints(&rt, alloc, SESSION, list, "n0 j1 s3 list\n")?)
}

#[test]
fn own_items_come_before_granted_ones(rt: HostRuntime) -> Result<(), Fail> {
    let alloc = rt.alloc();
    let id = numbered(1, 1, 1)?;
    let granted = numbered(1, 2, 1)?;
    let list = own_and_granted(alloc, id, granted)?;
    let text =
        "n0 j1 s3 list t1.1:fetching:secondary:20 t1.1:created:primary:7 2/t1.1:granted:4:1 2/t1.1:granted:5:3\n";
    Ok(prints(&rt, alloc, SESSION, list, text)?)
}

#[test]
fn a_task_without_a_number_is_printed_in_full(rt: HostRuntime) -> Result<(), Fail> {
    let alloc = rt.alloc();
    let id = ObjectId::new(TaskNo([7; 20]), JobNo(1), 258)?;
    let items = own(alloc, id, CopyState::Sealed, Kind::Primary)?;
    let list = Reply::List(items, ItemList::new(alloc));
    let text =
        "n0 j1 s3 list 07070707070707070707070707070707070707070000000100000102:sealed:primary:20\n";
    Ok(prints(&rt, alloc, SESSION, list, text)?)
}

#[test]
fn states_have_words(rt: HostRuntime) -> Result<(), Fail> {
    let alloc = rt.alloc();
    let id = numbered(0, 1, 2)?;
    let states = [
        (
            CopyState::Created,
            "n0 j1 s3 list t0.2:created:secondary:20\n",
        ),
        (
            CopyState::Sealed,
            "n0 j1 s3 list t0.2:sealed:secondary:20\n",
        ),
        (
            CopyState::Restoring,
            "n0 j1 s3 list t0.2:restoring:secondary:20\n",
        ),
        (
            CopyState::Fetching,
            "n0 j1 s3 list t0.2:fetching:secondary:20\n",
        ),
        (CopyState::Away, "n0 j1 s3 list t0.2:away:secondary:20\n"),
    ];
    for (state, text) in states {
        let items = own(alloc, id, state, Kind::Secondary)?;
        let list = Reply::List(items, ItemList::new(alloc));
        prints(&rt, alloc, SESSION, list, text)?;
    }
    Ok(())
}

fn work(number: u64, kind: WorkKind) -> Reply<Bytes> {
    let job = JobNo(1);
    let key = DeviceKey { job, number: 1 };
    Reply::Work(Work {
        job,
        number,
        kind,
        key,
        length: 32,
        payload: None,
    })
}

#[test]
fn a_device_worker_is_answered(rt: HostRuntime) -> Result<(), Fail> {
    let alloc = rt.alloc();
    prints(&rt, alloc, DEVICE, Reply::NoWork, "n0 dev none\n")?;
    prints(
        &rt,
        alloc,
        DEVICE,
        work(1, WorkKind::Write),
        "n0 dev work 1 1 write 32\n",
    )?;
    prints(
        &rt,
        alloc,
        DEVICE,
        work(3, WorkKind::Read),
        "n0 dev work 1 3 read 32\n",
    )?;
    prints(&rt, alloc, DEVICE, Reply::Ok, "n0 dev ok\n")?;
    let stale = Reply::Refused(Refusal::Stale);
    prints(&rt, alloc, DEVICE, stale, "n0 dev refused 24 Stale\n")?;
    Ok(())
}

#[test]
fn a_delivery_is_answered(rt: HostRuntime) -> Result<(), Fail> {
    let alloc = rt.alloc();
    let not_here = Message::ToPeer(PeerMessage::NotHere(numbered(1, 1, 1)?, 1));
    is_line(
        &rt,
        alloc,
        Prefix::Network,
        StepAnswer::HandedOver(not_here),
        "net ok\n",
    )?;
    is_line(
        &rt,
        alloc,
        Prefix::Network,
        StepAnswer::NoMessage,
        "net none\n",
    )?;
    let stale = Reply::Refused(Refusal::Stale);
    prints(&rt, alloc, Prefix::Network, stale, "net refused 24 Stale\n")?;
    let memory = Reply::Refused(Refusal::NoMemory);
    prints(
        &rt,
        alloc,
        Prefix::Network,
        memory,
        "net refused 19 NoMemory\n",
    )?;
    Ok(())
}

#[test]
fn a_step_says_who_is_answered(rt: HostRuntime) {
    let quota = Quota {
        window: 64,
        device: 0,
    };
    let admit = Step::At(
        1,
        Event::Admit {
            job: JobNo(1),
            quota,
            key: JobKey([0; 32]),
        },
    );
    same!(rt; Prefix::of(&admit), OPERATOR);
    same!(rt; Prefix::of(&Step::At(1, Event::Requota(JobNo(1), quota))), OPERATOR);
    same!(rt; Prefix::of(&Step::At(1, Event::JobEnd(JobNo(1)))), OPERATOR);
    same!(rt; Prefix::of(&Step::At(0, Event::Take)), DEVICE);
    let deliver = Step::Deliver {
        job: JobNo(1),
        from: Endpoint::Directory,
        to: Endpoint::Node(0),
        number: 1,
        damaged: false,
    };
    same!(rt; Prefix::of(&deliver), Prefix::Network);
}
