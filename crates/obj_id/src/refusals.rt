//! Why the store refuses a call.
ghost use Rattle.std.specs.Prelude.{◌≡◌, IfSome};
ghost use Rattle.obj_id.specs.Refusals.{name_of, number_of};
ghost use Rattle.obj_id.specs.declared.refusals.Refusal.{Refusal};

use memory_growth::OutOfMemory;

/// The 24 refusals, in the order of their numbers.
#[derive(Clone, Copy, Debug, PartialEq, Eq, Drop)]
pub enum Refusal {
    /// 1: the job isn't live at this node, or the key is wrong.
    NotAdmitted,
    /// 2: an id or a job number that can't be.
    BadId,
    /// 3: it is there already.
    Exists,
    /// 4: no such copy, borrower or source, or the copy is doomed.
    Absent,
    /// 5: the copy has no sealed bytes yet.
    NotSealed,
    /// 6: the copy was sealed, or isn't one that is being written.
    AlreadySealed,
    /// 7: a length outside its range.
    BadSize,
    /// 8: offset and length pass the object's end.
    OutOfBounds,
    /// 9: no room in the job's window, or no device bytes for it.
    Full,
    /// 10: ask again.
    Pending,
    /// 11: this session has no hold, or the pin is gone.
    NotHeld,
    /// 12: a granted object isn't deleted.
    Granted,
    /// 13: another job's object that isn't granted to the caller.
    NotGranted,
    /// 14: a device work of this job failed.
    DeviceFailed,
    /// 15: restored or fetched bytes have another digest.
    Damaged,
    /// 16: as many device works are in flight as may be.
    Busy,
    /// 17: a limit in number of this job or copy.
    TooMany,
    /// 18: the owner task, or the task that would borrow, has ended here.
    Gone,
    /// 19: the process has no memory for it.
    NoMemory,
    /// 20: not a frame.
    Malformed,
    /// 21: no room in the node's memory; to the operator alone.
    NoRoom,
    /// 22: not the owner task, or not the primary.
    NotOwner,
    /// 23: not a sealed primary in memory here.
    NotResident,
    /// 24: no such work, job or entry; never to a session.
    Stale,
}

/// All refusals, in the order of their numbers.
const ALL: [Refusal; 24] = [
    Refusal::NotAdmitted,
    Refusal::BadId,
    Refusal::Exists,
    Refusal::Absent,
    Refusal::NotSealed,
    Refusal::AlreadySealed,
    Refusal::BadSize,
    Refusal::OutOfBounds,
    Refusal::Full,
    Refusal::Pending,
    Refusal::NotHeld,
    Refusal::Granted,
    Refusal::NotGranted,
    Refusal::DeviceFailed,
    Refusal::Damaged,
    Refusal::Busy,
    Refusal::TooMany,
    Refusal::Gone,
    Refusal::NoMemory,
    Refusal::Malformed,
    Refusal::NoRoom,
    Refusal::NotOwner,
    Refusal::NotResident,
    Refusal::Stale,
];

impl Refusal {
    /// The number, from 1 to 24.
    pub fn number(self) -> u8
        ensures { result ≡ number_of self }
    {
        self as u8 + 1
    }

    /// The name, as texts print it.
    pub fn name(self) -> &'static str
        ensures { result.now ≡ name_of self }
    {
        match self {
            Refusal::NotAdmitted => "NotAdmitted",
            Refusal::BadId => "BadId",
            Refusal::Exists => "Exists",
            Refusal::Absent => "Absent",
            Refusal::NotSealed => "NotSealed",
            Refusal::AlreadySealed => "AlreadySealed",
            Refusal::BadSize => "BadSize",
            Refusal::OutOfBounds => "OutOfBounds",
            Refusal::Full => "Full",
            Refusal::Pending => "Pending",
            Refusal::NotHeld => "NotHeld",
            Refusal::Granted => "Granted",
            Refusal::NotGranted => "NotGranted",
            Refusal::DeviceFailed => "DeviceFailed",
            Refusal::Damaged => "Damaged",
            Refusal::Busy => "Busy",
            Refusal::TooMany => "TooMany",
            Refusal::Gone => "Gone",
            Refusal::NoMemory => "NoMemory",
            Refusal::Malformed => "Malformed",
            Refusal::NoRoom => "NoRoom",
            Refusal::NotOwner => "NotOwner",
            Refusal::NotResident => "NotResident",
            Refusal::Stale => "Stale",
        }
    }

    /// The refusal of a number, or `None` if there is none.
    pub fn from_number(number: u8) -> Option<Refusal>
        ensures numbered { IfSome result (λ refusal. number_of refusal ≡ number) }
        ensures found { (refusal : Refusal) → number_of refusal ≡ number → result ≡ Some refusal }
    {
        let index = number.checked_sub(1)?;
        ALL.get(usize::from(index)).copied()
    }

    /// The refusal of a name, or `None` if there is none.
    pub fn from_name(name: &str) -> Option<Refusal>
        ensures named { IfSome result (λ refusal. name_of refusal ≡ name.now) }
        ensures found { (refusal : Refusal) → name_of refusal ≡ name.now → result ≡ Some refusal }
    {
        ALL.iter().find(|refusal| refusal.name() == name).copied()
    }
}

/// Why a step was not made: it is refused, or a growth of memory was. Only the first is due by the rules.
#[derive(Debug, Drop)]
pub enum Failure {
    /// The rules refuse it.
    Refused(Refusal),
    /// There was no memory for it.
    Memory(OutOfMemory),
}

impl From<OutOfMemory> for Refusal {
    ghost use Rattle.std.specs.Prelude.{◌≡◌};
    ghost use Rattle.obj_id.specs.declared.refusals.Refusal.TheVariants.{NoMemory};

    ghost from_gives = { λ _ refusal. refusal ≡ NoMemory };

    fn from(_refused: OutOfMemory) -> Refusal {
        Refusal::NoMemory
    }
}

impl From<Failure> for Refusal {
    ghost use Rattle.std.specs.Prelude.{◌≡◌};
    ghost use Rattle.obj_id.specs.Refusals.{refusal_of};

    ghost from_gives = { λ failure refusal. refusal ≡ refusal_of failure };

    fn from(failure: Failure) -> Refusal {
        match failure {
            Failure::Refused(refusal) => refusal,
            Failure::Memory(_) => Refusal::NoMemory,
        }
    }
}

impl From<Refusal> for Failure {
    ghost use Rattle.std.specs.Prelude.{◌≡◌};
    ghost use Rattle.obj_id.specs.declared.refusals.Failure.TheVariants.{Refused};

    ghost from_gives = { λ refusal failure. failure ≡ Refused refusal };

    fn from(refusal: Refusal) -> Failure {
        Failure::Refused(refusal)
    }
}

impl From<OutOfMemory> for Failure {
    ghost use Rattle.std.specs.Prelude.{◌≡◌};
    ghost use Rattle.obj_id.specs.declared.refusals.Failure.TheVariants.{Memory};

    ghost from_gives = { λ refused failure. failure ≡ Memory refused };

    fn from(refused: OutOfMemory) -> Failure {
        Failure::Memory(refused)
    }
}
