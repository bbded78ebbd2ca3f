//! What a step of a row gives.
ghost use Rattle.std.specs.Prelude.{◌≡◌, ◌∷◌, [], IfOk, option_to_list, is_ok, false};
ghost use Rattle.obj_id.specs.declared.commands.Reply.TheVariants as reply;
ghost use Rattle.row_steps.specs.Shown.{only as only_lem};
ghost use Rattle.row_steps.specs.Erased.{keys_of};
ghost use Rattle.row_steps.specs.Outcomes.{row_given_of};
ghost use Rattle.job_row.specs.Scope.{notice_posts};

use bytes::Bytes;
use memory_growth::{OutOfMemory, lists};
use obj_id::{DeviceKey, DirectoryMessage, Endpoint, ItemList, Message, Reply};
use std::alloc::Global;

/// What an event gave: the answer, the messages that are to be sent, in their order and each with its
/// place, and the device keys that are to be erased, in order of id.
#[derive(Drop)]
pub struct RowOutcome {
    pub reply: Reply<Bytes>,
    pub messages: ItemList<(Endpoint, Message)>,
    pub erase: Erase,
}

/// Device keys that are to be erased: one takes no memory.
#[derive(Drop)]
pub enum Erase {
    NoKey,
    One(DeviceKey),
    Many(ItemList<DeviceKey>),
}

impl Erase {
    /// This key, or none.
    pub fn of(key: Option<DeviceKey>) -> Erase
        ensures { keys_of result ≡ option_to_list key }
    {
        match key {
            None => Erase::NoKey,
            Some(key) => Erase::One(key),
        }
    }
}

impl RowOutcome {
    /// A reply, and nothing else. Takes no memory.
    pub fn only(alloc: Global, reply: Reply<Bytes>) -> RowOutcome
        ensures { row_given_of result ≡ only_lem reply }
    {
        RowOutcome {
            reply,
            messages: ItemList::new(alloc),
            erase: Erase::NoKey,
        }
    }

    /// The answer Ok with these messages, and a key that is to be erased, or none. Takes no memory.
    pub fn done(messages: ItemList<(Endpoint, Message)>, erased: Option<DeviceKey>) -> RowOutcome
        ensures { row_given_of result ≡ record { reply = reply.Ok; posts = messages; erased = option_to_list erased } }
    {
        RowOutcome {
            reply: Reply::Ok,
            messages,
            erase: Erase::of(erased),
        }
    }

    /// This message to the directory, or none, in a list with room for no more.
    pub fn to_directory(
        alloc: Global,
        room: Result<(), OutOfMemory>,
        message: Option<DirectoryMessage>,
    ) -> Result<ItemList<(Endpoint, Message)>, OutOfMemory>
        ensures ok { IfOk result (λ messages. messages ≡ notice_posts message) }
        ensures unsent { IfOk result (λ messages. is_ok room ≡ false → messages ≡ []) }
    {
        match message {
            None => Ok(ItemList::new(alloc)),
            Some(message) => {
                RowOutcome::one_message(
                    alloc,
                    room,
                    Endpoint::Directory,
                    Message::ToDirectory(message),
                )
            }
        }
    }

    /// A list of one message, with room for no more: what keeps what was sent keeps no idle memory.
    pub fn one_message(
        alloc: Global,
        room: Result<(), OutOfMemory>,
        to: Endpoint,
        message: Message,
    ) -> Result<ItemList<(Endpoint, Message)>, OutOfMemory>
        ensures ok { IfOk result (λ messages. messages ≡ (to, message) ∷ []) }
        ensures unsent { IfOk result (λ messages. is_ok room ≡ false → messages ≡ []) }
    {
        room?;
        let mut messages = lists::with_capacity(alloc, 1)?;
        lists::push(&mut messages, (to, message))?;
        Ok(ItemList::from_vec(messages))
    }
}
