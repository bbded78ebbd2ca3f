//! The kinds of commands, and what is known of a command by its kind.
ghost use Rattle.std.specs.Prelude.{◌≡◌};
ghost use Rattle.command_kinds.specs.Kinds.{awaited_kind_of, kind_of, kind_word, traits_of};

use crate::Outline;
use obj_id::Command;
use private_store::Awaited;

/// How many kinds there are.
pub const COMMAND_KINDS: usize = 19;

/// What a session asks, whatever of: a command, or one that waits.
#[derive(Clone, Copy, Debug, PartialEq, Eq)]
pub enum CommandKind {
    Create,
    Write,
    Seal,
    Get,
    Read,
    Release,
    Unpin,
    Borrow,
    GiveUp,
    Delete,
    EndTask,
    Grant,
    Withdraw,
    Peek,
    List,
    Usage,
    Leave,
    GetWait,
    CreateWait,
}

/// All of them, in their order.
pub const KINDS: [CommandKind; COMMAND_KINDS] = [
    CommandKind::Create,
    CommandKind::Write,
    CommandKind::Seal,
    CommandKind::Get,
    CommandKind::Read,
    CommandKind::Release,
    CommandKind::Unpin,
    CommandKind::Borrow,
    CommandKind::GiveUp,
    CommandKind::Delete,
    CommandKind::EndTask,
    CommandKind::Grant,
    CommandKind::Withdraw,
    CommandKind::Peek,
    CommandKind::List,
    CommandKind::Usage,
    CommandKind::Leave,
    CommandKind::GetWait,
    CommandKind::CreateWait,
];

/// What a step that wasn't refused may have moved for the job's calls that wait.
#[derive(Clone, Copy, Debug, PartialEq, Eq)]
pub enum Moved {
    /// Nothing that a call waits for.
    Nothing,
    /// Room, or a copy that is here.
    Copies,
    /// Room, a copy, or what another node has of what is fetched.
    Fetches,
}

/// How many messages a step may send at most. A job that isn't live has no copies, and sends nothing for them.
#[derive(Clone, Copy, Debug, PartialEq, Eq)]
pub enum MostSent {
    /// None.
    Nothing,
    /// One.
    One,
    /// One for each copy of the job.
    EachCopy,
    /// One for each copy of a live job, and one more.
    EachCopyAndOne,
    /// Two for each copy of the job.
    EachCopyTwice,
}

/// Which part of a node carries a command out.
#[derive(Clone, Copy, Debug, PartialEq, Eq)]
pub enum Carrier {
    /// The job's row, which may ask for works.
    RowAndWorks,
    /// The job's row, which asks for none.
    Row,
    /// The node, which looks at other jobs' rows too.
    Node,
    /// The node, which gives a grant or may end some.
    Grants,
}

/// What is best made before a step.
#[derive(Clone, Copy, Debug, PartialEq, Eq)]
pub enum Prepares {
    /// Nothing.
    Nothing,
    /// The digest of a copy's bytes.
    Digest,
    /// An extent for a copy that is new.
    NewExtent,
    /// An extent for a copy that is away, or on its way.
    CopyExtent,
}

/// What is known of a kind of command.
#[derive(Clone, Copy)]
struct Traits {
    // what carries it out
    by: Carrier,
    // what is best made before its step
    prepares: Prepares,
    // it may take copies out of the job's window
    removes: bool,
    // it may change or remove a copy that isn't sealed
    meets_seals: bool,
    // it may make a list in the journal for a job that isn't live
    reaches_others: bool,
    // what it may have moved
    moved: Moved,
    // how many messages it sends at most
    sends: MostSent,
}

/// Of a kind that the row carries out, and that does nothing of the sort.
const QUIET: Traits = Traits {
    by: Carrier::Row,
    prepares: Prepares::Nothing,
    removes: false,
    meets_seals: false,
    reaches_others: false,
    moved: Moved::Nothing,
    sends: MostSent::Nothing,
};

impl CommandKind {
    /// The kind of a command.
    pub fn of<P>(command: &Command<P>) -> CommandKind
        ensures { result ≡ kind_of command.now }
    {
        Outline::of(command).kind
    }

    /// The kind of a command that waits.
    pub fn of_awaited(awaited: &Awaited) -> CommandKind
        ensures { result ≡ awaited_kind_of awaited.now }
    {
        match awaited {
            Awaited::Get(_) => CommandKind::GetWait,
            Awaited::Create { .. } => CommandKind::CreateWait,
        }
    }

    /// Whether a step of it may take copies out of the job's window.
    pub fn may_remove(self) -> bool
        ensures { result ≡ (traits_of self).removes }
    {
        self.traits().removes
    }

    /// Whether it may make a list in the journal for a job that isn't live.
    pub fn reaches_others(self) -> bool
        ensures { result ≡ (traits_of self).reaches_others }
    {
        self.traits().reaches_others
    }

    /// Whether it may change or remove a copy that isn't sealed. The last task that keeps a primary may let go of it before that.
    pub fn meets_seals(self) -> bool
        ensures { result ≡ (traits_of self).meets_seals }
    {
        self.traits().meets_seals
    }

    /// What a step of it may have moved that wasn't refused.
    pub fn moved(self) -> Moved
        ensures { result ≡ (traits_of self).moved }
    {
        self.traits().moved
    }

    /// How many messages a step of it sends at most. One that waits sends what the command would.
    pub fn most_sent(self) -> MostSent
        ensures { result ≡ (traits_of self).sends }
    {
        self.traits().sends
    }

    /// Which part of a node carries it out.
    pub fn carrier(self) -> Carrier
        ensures { result ≡ (traits_of self).by }
    {
        self.traits().by
    }

    /// What is best made before its step. For one that waits, what is for the command.
    pub fn prepares(self) -> Prepares
        ensures { result ≡ (traits_of self).prepares }
    {
        self.traits().prepares
    }

    /// Its word, in the lines of schedules and journals and in the counts that an operator is shown. Lines have no command that waits.
    pub fn word(self) -> &'static str
        ensures { result.now ≡ kind_word self }
    {
        match self {
            CommandKind::Create => "create",
            CommandKind::Write => "write",
            CommandKind::Seal => "seal",
            CommandKind::Get => "get",
            CommandKind::Read => "read",
            CommandKind::Release => "release",
            CommandKind::Unpin => "unpin",
            CommandKind::Borrow => "borrow",
            CommandKind::GiveUp => "giveup",
            CommandKind::Delete => "delete",
            CommandKind::EndTask => "endtask",
            CommandKind::Grant => "grant",
            CommandKind::Withdraw => "withdraw",
            CommandKind::Peek => "peek",
            CommandKind::List => "list",
            CommandKind::Usage => "usage",
            CommandKind::Leave => "leave",
            CommandKind::GetWait => "get-wait",
            CommandKind::CreateWait => "create-wait",
        }
    }

    /// The table: a kind that is new has to be put somewhere.
    fn traits(self) -> Traits
        ensures { result ≡ traits_of self }
    {
        match self {
            // the directory is told of each copy that goes
            CommandKind::Create | CommandKind::CreateWait => Traits {
                by: Carrier::RowAndWorks,
                prepares: Prepares::NewExtent,
                removes: true,
                sends: MostSent::EachCopy,
                ..QUIET
            },
            // and somebody is asked for the object
            CommandKind::Get | CommandKind::GetWait => Traits {
                by: Carrier::RowAndWorks,
                prepares: Prepares::CopyExtent,
                removes: true,
                sends: MostSent::EachCopyAndOne,
                ..QUIET
            },
            CommandKind::Write => Traits {
                meets_seals: true,
                ..QUIET
            },
            CommandKind::Seal => Traits {
                prepares: Prepares::Digest,
                moved: Moved::Copies,
                sends: MostSent::One,
                ..QUIET
            },
            CommandKind::Withdraw => Traits {
                by: Carrier::Grants,
                removes: true,
                moved: Moved::Copies,
                ..QUIET
            },
            CommandKind::Release | CommandKind::Leave => Traits {
                removes: true,
                moved: Moved::Copies,
                ..QUIET
            },
            CommandKind::Unpin | CommandKind::GiveUp => Traits {
                removes: true,
                meets_seals: true,
                moved: Moved::Copies,
                sends: MostSent::One,
                ..QUIET
            },
            CommandKind::Delete => Traits {
                removes: true,
                meets_seals: true,
                moved: Moved::Fetches,
                sends: MostSent::One,
                ..QUIET
            },
            // each copy may be doomed, and a borrow of each given up
            CommandKind::EndTask => Traits {
                by: Carrier::Grants,
                removes: true,
                meets_seals: true,
                moved: Moved::Fetches,
                sends: MostSent::EachCopyTwice,
                ..QUIET
            },
            CommandKind::Grant => Traits {
                by: Carrier::Grants,
                reaches_others: true,
                ..QUIET
            },
            CommandKind::Peek | CommandKind::List => Traits {
                by: Carrier::Node,
                ..QUIET
            },
            CommandKind::Read | CommandKind::Borrow | CommandKind::Usage => QUIET,
        }
    }
}
