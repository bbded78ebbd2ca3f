//! Commands without their bytes.
ghost use Rattle.std.specs.Prelude.{◌≡◌};
ghost use Rattle.private_store.specs.rules.Contents.{without_payload as without_payload_lem};

use bytes::Bytes;
use obj_id::Command;

/// The command, with the number of the bytes that it writes in their place. Takes no memory.
pub fn without_payload(command: &Command<Bytes>) -> Command<u64>
    ensures { result ≡ without_payload_lem command.now }
{
    match command {
        Command::Create {
            id,
            kind,
            length: len,
        } => Command::Create {
            id: *id,
            kind: *kind,
            length: *len,
        },
        Command::Write { id, offset, bytes } => Command::Write {
            id: *id,
            offset: *offset,
            bytes: bytes.len() as u64,
        },
        Command::Seal(id) => Command::Seal(*id),
        Command::Get(id) => Command::Get(*id),
        Command::Read {
            id,
            offset,
            count: len,
        } => Command::Read {
            id: *id,
            offset: *offset,
            count: *len,
        },
        Command::Release(id) => Command::Release(*id),
        Command::Unpin(id, task) => Command::Unpin(*id, *task),
        Command::Borrow(id, task) => Command::Borrow(*id, *task),
        Command::GiveUp(id, task) => Command::GiveUp(*id, *task),
        Command::Delete(id) => Command::Delete(*id),
        Command::EndTask(task) => Command::EndTask(*task),
        Command::Grant(id, target) => Command::Grant(*id, *target),
        Command::Withdraw(id, target) => Command::Withdraw(*id, *target),
        Command::Peek {
            id,
            offset,
            count: len,
        } => Command::Peek {
            id: *id,
            offset: *offset,
            count: *len,
        },
        Command::List => Command::List,
        Command::Usage => Command::Usage,
        Command::Leave => Command::Leave,
    }
}
