//! Lines as they are read, if there are two nodes. A table is one text: the prover reads each element of an array.
use assertions::same;
use memory_growth::{OutOfMemory, text_of, texts};
use obj_id::{JobKey, JobNo, ObjectId, Refusal, TaskNo};
use schedule_text::{Line, Prefix, read_line};
use std::alloc::Global;
use std::fmt::Debug;
use std::process::Abort;
use std::test::Fail;

/// Rows of a line and of what it says, in the words of the types.
const STEPS: &str = "\
admit 0 1 18446744073709551615 0 = Step(At(0, Admit { job: JobNo(1), quota: Quota { window: 18446744073709551615, device: 0 }, key: NO_KEY }))
quota 1 4294967295 18446744073709551615 0 = Step(At(1, Requota(JobNo(4294967295), Quota { window: 18446744073709551615, device: 0 })))
end 1 0 = Step(At(1, JobEnd(JobNo(0))))
take 1 = Step(At(1, Take))
finish 0 1 0 ok = Finish { node: 0, job: JobNo(1), number: 0, outcome: Ok }
finish 1 2 18446744073709551615 fail = Finish { node: 1, job: JobNo(2), number: 18446744073709551615, outcome: Fail }
finish 0 1 3 damage = Finish { node: 0, job: JobNo(1), number: 3, outcome: Damage }
deliver 1 0 d 1 = Step(Deliver { job: JobNo(1), from: Node(0), to: Directory, number: 1, damaged: false })
deliver 1 d 1 2 damage = Step(Deliver { job: JobNo(1), from: Directory, to: Node(1), number: 2, damaged: true })
deliver 0 d d 0 = Step(Deliver { job: JobNo(0), from: Directory, to: Directory, number: 0, damaged: false })
cmd 1 2 0 leave = Step(At(1, Call { job: JobNo(2), session: 0, command: Leave }))
# take 0 = Skipped";

/// Rows of a command and of what it says, of session 3 of job 1 at node 0.
const COMMANDS: &str = "\
create t1.1 20 = Create { id: FIRST, kind: Primary, length: 20 }
copy t1.1 0 = Create { id: FIRST, kind: Secondary, length: 0 }
seal t1.1 = Seal(FIRST)
get t1.1 = Get(FIRST)
release t1.1 = Release(FIRST)
delete t1.1 = Delete(FIRST)
write t1.1 5 48656c6c6fff = Write { id: FIRST, offset: 5, bytes: b\"Hello\\xff\" }
write t1.1 0 - = Write { id: FIRST, offset: 0, bytes: b\"\" }
read t1.1 0 70000 = Read { id: FIRST, offset: 0, count: 70000 }
peek t1.1 4294967295 0 = Peek { id: FIRST, offset: 4294967295, count: 0 }
unpin t1.1 t18446744073709551615 = Unpin(FIRST, LAST_TASK)
borrow t1.1 t18446744073709551615 = Borrow(FIRST, LAST_TASK)
giveup t1.1 t18446744073709551615 = GiveUp(FIRST, LAST_TASK)
endtask 0707070707070707070707070707070707070707 = EndTask(TASK_OF_SEVENS)
grant t1.1 0 = Grant(FIRST, JobNo(0))
withdraw 00000000000000000000000000000000000000010000000100000001 2 = Withdraw(FIRST, JobNo(2))
peek 2/t9.9 0 1 = Peek { id: FOREIGN, offset: 0, count: 1 }
list = List
usage = Usage
leave = Leave";

/// What the line says. Unlike `read_line` it promises nothing.
fn read(alloc: Global, text: &str) -> Result<Option<Line>, OutOfMemory> {
    read_line(alloc, text, 2)
}

/// The text, with this name in place of the value.
fn named<T: Debug + Drop>(
    alloc: Global,
    text: &str,
    value: T,
    name: &str,
) -> Result<String, OutOfMemory> {
    let long = text_of!(in alloc; "{value:?}")?;
    let mut parts = text.split(long.as_str());
    let mut shorter = texts::from_str(alloc, parts.next().unwrap_or(""))?;
    for part in parts {
        texts::push_str(&mut shorter, name)?;
        texts::push_str(&mut shorter, part)?;
    }
    Ok(shorter)
}

/// What the line says, with names for what is long.
fn said(alloc: Global, line: &str) -> Result<String, Refusal> {
    let first = ObjectId::new(TaskNo::numbered(1), JobNo(1), 1)?;
    let foreign = ObjectId::new(TaskNo::numbered(9), JobNo(2), 9)?;
    let line = read(alloc, line)?;
    let text = text_of!(in alloc; "{line:?}")?;
    let text = named(alloc, text.as_str(), first, "FIRST")?;
    let text = named(alloc, text.as_str(), foreign, "FOREIGN")?;
    let text = named(
        alloc,
        text.as_str(),
        TaskNo::numbered(u64::MAX),
        "LAST_TASK",
    )?;
    let text = named(alloc, text.as_str(), TaskNo([7; 20]), "TASK_OF_SEVENS")?;
    let text = named(alloc, text.as_str(), JobKey([0; 32]), "NO_KEY")?;
    Ok(text)
}

fn joined(alloc: Global, parts: [&str; 3]) -> Result<String, OutOfMemory> {
    let [before, text, after] = parts;
    text_of!(in alloc; "{before}{text}{after}")
}

/// Checks what a line says.
fn check(rt: &impl Abort, alloc: Global, line: &str, due: &str) -> Result<(), Fail> {
    let due = joined(alloc, ["Some(", due, ")"])?;
    let said = said(alloc, line)?;
    assert_eq!(rt; said.as_str(), due.as_str(), "{line}");
    Ok(())
}

#[test]
fn each_kind_of_line_is_read(rt: HostRuntime) -> Result<(), Fail> {
    for row in STEPS.lines() {
        let (line, due) = row.split_once(" = ").ok_or("no row")?;
        check(&rt, rt.alloc(), line, due)?;
    }
    Ok(())
}

#[test]
fn each_command_is_read(rt: HostRuntime) -> Result<(), Fail> {
    let alloc = rt.alloc();
    for row in COMMANDS.lines() {
        let (command, due) = row.split_once(" = ").ok_or("no row")?;
        let line = joined(alloc, ["cmd 0 1 3 ", command, ""])?;
        let due = joined(
            alloc,
            [
                "Step(At(0, Call { job: JobNo(1), session: 3, command: ",
                due,
                " }))",
            ],
        )?;
        check(&rt, alloc, line.as_str(), due.as_str())?;
    }
    Ok(())
}

#[test]
fn comments_and_empty_lines_say_nothing(rt: HostRuntime) -> Result<(), Fail> {
    let alloc = rt.alloc();
    for text in ["", "#", "# take 0", "#take 0"] {
        assert!(rt;
            matches!(&read(alloc, text)?, Some(Line::Skipped)),
            "{text}"
        );
    }
    Ok(())
}

#[test]
fn a_line_says_who_is_answered(rt: HostRuntime) -> Result<(), Fail> {
    let alloc = rt.alloc();
    let lines = [
        ("end 1 2", Some(Prefix::Operator(1))),
        (
            "cmd 1 2 0 leave",
            Some(Prefix::Session {
                node: 1,
                job: JobNo(2),
                session: 0,
            }),
        ),
        ("take 0", Some(Prefix::Device(0))),
        ("finish 1 2 3 ok", Some(Prefix::Device(1))),
        ("deliver 1 0 1 1", Some(Prefix::Network)),
        ("#", None),
    ];
    for (text, prefix) in lines {
        let line = read(alloc, text)?.ok_or("no step")?;
        assert_eq!(rt; line.prefix(), prefix, "{text}");
    }
    Ok(())
}

/// Lines that are no step.
const WRONG: &str = "\
take
take  0
take 2
take 4294967296
take -1
take +1
take 01
take 00
take 1a
take d
Take 0
TAKE 0
takes 0
take 0 0
admit 0 1
admit 0 1 64
admit 0 1 64 0 0
admit 2 1 64 0
admit 0 4294967296 64 0
admit 0 1 18446744073709551616 0
admit 0 1 64 -
quota 0 1 64
end 0
end 0 1 1
end 0 t1
finish 0 1 1
finish 0 1 1 Ok
finish 0 1 1 damaged
finish 0 1 1 ok ok
finish 0 1 18446744073709551616 ok
deliver 1 0 d
deliver 1 0 2 1
deliver 1 D 0 1
deliver 1 0 1 1 damage damage
deliver 1 0 1 1 ok
step 0";

/// Commands of session 3 of job 1 at node 0 that are none.
const WRONG_COMMANDS: &str = "\
cmd 0 1 3
cmd 0 1
cmd 0 0 3 list
cmd 2 1 3 list
cmd 0 1 4294967296 list
cmd 0 1 3 list 1
cmd 0 1 3 lists
cmd 0 1 3 hello
cmd 0 1 3 create t1.1
cmd 0 1 3 create t1.1 020
cmd 0 1 3 create t1.1 4294967296
cmd 0 1 3 create t1.0 20
cmd 0 1 3 create t01.1 20
cmd 0 1 3 create 1/t1.1 20
cmd 0 1 3 create 0/t1.1 20
cmd 0 1 3 create t18446744073709551616.1 20
cmd 0 1 3 create 00000000000000000000000000000000000000010000000100000000 20
cmd 0 1 3 seal 0000000000000000000000000000000000000001000000010000000A
cmd 0 1 3 seal t1
cmd 0 1 3 seal t1.1 t1.1
cmd 0 1 3 seal
cmd 0 1 3 write t1.1 0
cmd 0 1 3 write t1.1 0 4
cmd 0 1 3 write t1.1 0 FF
cmd 0 1 3 write t1.1 0 fF
cmd 0 1 3 write t1.1 0 --
cmd 0 1 3 write t1.1 0 -0
cmd 0 1 3 write t1.1 0 4g
cmd 0 1 3 write t1.1 0 00 00
cmd 0 1 3 unpin t1.1
cmd 0 1 3 unpin t1.1 1
cmd 0 1 3 endtask t01
cmd 0 1 3 endtask 07
cmd 0 1 3 grant t1.1 t2
cmd 0 1 3 grant t1.1 -
cmd 0 1 3 read t1.1 0
cmd 0 1 3 peek t1.1 0 1 1";

#[test]
fn wrong_fields_are_no_step(rt: HostRuntime) -> Result<(), Fail> {
    for line in WRONG.lines() {
        assert!(rt; read(rt.alloc(), line)?.is_none(), "{line}");
    }
    Ok(())
}

#[test]
fn wrong_commands_are_no_step(rt: HostRuntime) -> Result<(), Fail> {
    for line in WRONG_COMMANDS.lines() {
        assert!(rt; read(rt.alloc(), line)?.is_none(), "{line}");
    }
    Ok(())
}

#[test]
fn other_spaces_are_no_step(rt: HostRuntime) -> Result<(), Fail> {
    let lines = [
        " ",
        "take ",
        " take 0",
        "take 0 ",
        "take\t0",
        "take 0\r",
        "take 0\n",
        "deliver 1 0 1 1 ",
        "cmd 0 1 3 list ",
        "cmd 0 1 3 ",
        "cmd 0 1 3 write t1.1 0 ",
    ];
    for line in lines {
        assert!(rt; read(rt.alloc(), line)?.is_none(), "{line}");
    }
    Ok(())
}
